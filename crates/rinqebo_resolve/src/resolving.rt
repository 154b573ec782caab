//! A request for a whole run, resolved.
ghost use Rattle.std.specs.Prelude.{◌≡◌, IfOk, string_bytes, take};
ghost use Rattle.rinqebo_forms.specs.Runs.{run_view};
ghost use Rattle.rinqebo_report.specs.Rendered.{json_text};
ghost use Rattle.rinqebo_session.specs.declared.status.TheConstants.{DONE};
ghost use Rattle.rinqebo_resolve.specs.Asking.{requested_view};
ghost use Rattle.rinqebo_resolve.specs.Endings.{IsAnswerTo, IsSilent, IsEndingFor, IsEndingIn, IsEndingOf, IsResolved, ReportsFailure, ReportsOutcome};

use crate::asking::{LIST, RequestedRun, parted};
use crate::ending::Ending;
use rinqebo_forms::{RequestFault, RunRequest};
use rinqebo_load::{Failure, InputFault, OpenFilter};
use rinqebo_report::{Report, ReportCommand, render_json};
use rinqebo_request::Gathered;
use rinqebo_results::Answer;
use rinqebo_rules::NoProgress;
use rinqebo_run::answer_of;
use std::alloc::{AllocError, Global};

/// The document of a report.
fn document_of(alloc: Global, report: &Report) -> Result<String, AllocError>
    ensures { IfOk result (λ text. string_bytes text ≡ json_text report.now) }
{
    render_json(alloc, report)
}

/// Why there are no engines. A request in JSON has members and no options, so that the text names
/// no option.
fn reason_of(alloc: Global, fault: &InputFault) -> Result<String, AllocError> {
    match fault {
        InputFault::Engine(_, fault) => format!(in alloc; "{fault}"),
        InputFault::EmptyList(_) => {
            let list = LIST;
            format!(in alloc; "no list of tests in `{list}`: it is empty")
        }
        InputFault::NoMetadata(OpenFilter { place, set }) => {
            let word = set.word();
            format!(in alloc; "{place}: this filter uses `{word}()`, which needs `metadata`")
        }
        InputFault::List(_, _)
        | InputFault::NoHost(_)
        | InputFault::NoTarget
        | InputFault::Memory => format!(in alloc; "{fault}"),
    }
}

/// The ending of a run that has no result.
pub fn ending_of_failure(alloc: Global, failure: &Failure) -> Result<Ending, AllocError>
    ensures { IfOk result (ReportsFailure failure.now) }
{
    match failure {
        Failure::Engines(fault) => Ok(Ending::NoEngines(reason_of(alloc, fault)?)),
        Failure::Refused(report) => Ok(Ending::Refused(document_of(alloc, report)?)),
        Failure::NoProfile(report) => Ok(Ending::NoProfile(document_of(alloc, report)?)),
        Failure::NoTest(report) | Failure::SeveralTests(report) => {
            Ok(Ending::NoEngines(document_of(alloc, report)?))
        }
        Failure::Memory => Err(AllocError),
    }
}

/// The ending of a run with what the program returns.
fn ended(alloc: Global, outcome: &Result<Answer, Failure>) -> Result<Ending, AllocError>
    ensures { IfOk result (ReportsOutcome outcome.now) }
{
    match outcome {
        Ok(answer) => Ok(Ending::Answered(document_of(alloc, &answer.report)?)),
        Err(failure) => ending_of_failure(alloc, failure),
    }
}

/// How what a run requests of files ends.
fn ending_in(alloc: Global, asked: &RequestedRun, gathered: &Gathered) -> Result<Ending, AllocError>
    ensures { IfOk result (IsEndingIn (requested_view asked.now) gathered.now) }
{
    let request = asked.request(alloc, ReportCommand::List)?;
    let outcome = answer_of(alloc, &request, gathered, &mut NoProgress);
    ended(alloc, &outcome)
}

/// How a run ends.
fn ending_of(alloc: Global, run: RunRequest) -> Result<Ending, AllocError>
    ensures { IfOk result (IsEndingOf (run_view run)) }
{
    let (asked, gathered) = parted(run);
    ending_in(alloc, &asked, &gathered)
}

/// How the run of the bytes of a request ends, if memory suffices.
fn ending_with_memory(alloc: Global, request: &[u8]) -> Result<Ending, AllocError>
    ensures { IfOk result (IsEndingFor request.now) }
{
    let Ok(text) = std::str::from_utf8(request) else {
        return Ok(Ending::NotText);
    };
    match RunRequest::read(alloc, text) {
        Ok(run) => ending_of(alloc, run),
        Err(RequestFault::Memory) => Err(AllocError),
        Err(fault) => Ok(Ending::NotUnderstood(format!(in alloc; "{fault}")?)),
    }
}

/// How the run of the bytes of a request ends.
pub fn ending_for(alloc: Global, request: &[u8]) -> Ending
    ensures { IsEndingFor request.now result }
{
    match ending_with_memory(alloc, request) {
        Ok(ending) => ending,
        Err(_) => Ending::Memory,
    }
}

/// Resolves a request in JSON for a whole run: writes the document of the result at the start of a
/// buffer, or why there is none, and returns a number for which it is. Where the buffer is too
/// small it stays as it was. Either way `needed` is the length of what there is to write.
pub fn resolve(alloc: Global, request: &[u8], answer: &mut [u8], needed: &mut usize) -> u32
    ensures resolved { IsResolved request.now answer.old answer.new needed.new result }
    ensures done { result ≡ DONE → IsAnswerTo request.now (take needed.new answer.new) }
    ensures kept { IsSilent result → answer.new ≡ answer.old }
{
    ending_for(alloc, request).report(answer, needed)
}
