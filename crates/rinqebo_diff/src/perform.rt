//! Writes what changes between the sides of a request.
ghost use Rattle.std.specs.Prelude.{◌≡◌, ◌⊎◌, ◌≤◌, false, IfErr, IfOk, string_bytes};
ghost use Rattle.std.specs.Io.KnownBytes.{Appends};
ghost use Rattle.rinqebo_diff.specs.Differences.{diff_status, HasResult, Differs, IsPageOf};
ghost use Rattle.rinqebo_diff.specs.Failing.{DiffFails, HasCause};
ghost use Rattle.rinqebo_diff.specs.Received.{BeginsDiff, BeginsDiffFailure, IsWholeDiff};
ghost use Rattle.rinqebo_diff.specs.StandardError.{GetsDiffErrors, GetsDiffReason, GetsFindings, GetsSideReason, IsReportOfSide, findings_beside, side_line};
ghost use Rattle.rinqebo_diff.specs.Statuses.{AreForJson, HasFailureStatus, ReportsDiffFailure, ReportsRefusal};
ghost use Rattle.rinqebo_diff.specs.Written.{ReportsDiff};
ghost use Rattle.rinqebo_report.specs.declared.format.Format.TheVariants as formats;
ghost use Rattle.rinqebo_results.specs.Prefixes.{AppendsPrefix, ReceivesPrefix};
ghost use Rattle.rinqebo_results.specs.Received.{BeginsFailure};
ghost use Rattle.rinqebo_results.specs.Refused.{ReportsFailure};
ghost use Rattle.rinqebo_results.specs.Statuses.{failure_status};

use crate::format::render_diff;
use crate::loaded::{DiffFailure, SideName, load_named};
use crate::request::{DiffFormat, DiffRequest, DiffSide};
use crate::sides::diff_of;
use rinqebo_changes::Diff;
use rinqebo_load::Failure;
use rinqebo_report::{Report, render_findings};
use rinqebo_request::Gathered;
use rinqebo_results::{ProgressLine, Status, print_text, refuse_for_memory, refuse_in};
use rinqebo_rules::{NoProgress, Progress};
use std::alloc::{AllocError, Global};
use std::io::Write;

/// The result of a request for a diff.
#[derive(Drop)]
pub struct DiffAnswer {
    /// What changes.
    pub diff: Diff,
    /// The sources of the right side, and the warnings about them.
    pub report: Report,
}

/// What changes between the two sides of a request, over the files that they name. Nothing is
/// written.
pub fn diff_answer<P: Progress>(
    alloc: Global,
    request: &DiffRequest<'_>,
    from: &Gathered,
    to: &Gathered,
    progress: &mut P,
) -> Result<DiffAnswer, DiffFailure>
    ensures ok { IfOk result (λ answer. Differs request.now from.now to.now answer.diff) }
    ensures report { IfOk result
        (λ answer. IsReportOfSide request.now.to to.now answer.report) }
    ensures err { IfErr result (DiffFails request.now from.now to.now) }
{
    let left = load_named(alloc, SideName::From, &request.from, from)?;
    let right = load_named(alloc, SideName::To, &request.to, to)?;
    let diff = diff_of(alloc, request, &left, &right, progress)?;
    Ok(DiffAnswer {
        diff,
        report: right.report,
    })
}

/// What a request for a diff prints, over the files that its sides name.
pub fn diff_page(
    alloc: Global,
    request: &DiffRequest<'_>,
    from: &Gathered,
    to: &Gathered,
) -> Result<String, DiffFailure>
    ensures ok { IfOk result
        (λ text. IsPageOf request.now from.now to.now (string_bytes text)) }
    ensures err { IfErr result (DiffFails request.now from.now to.now) }
{
    let answer = diff_answer(alloc, request, from, to, &mut NoProgress)?;
    Ok(render_diff(alloc, &answer.diff, request)?)
}

/// The exit status of a diff: 0 if nothing changes, else 1.
fn status_of(diff: &Diff) -> u8
    ensures { result ≡ diff_status diff.now }
{
    if diff.is_empty() {
        Status::Success as u8
    } else {
        Status::Negative as u8
    }
}

/// The side that a message is about.
fn side_note(side: SideName) -> &'static str
    ensures { result.now ≡ side_line side }
{
    match side {
        SideName::From => "note: no result for the left side (`from`):\n",
        SideName::To => "note: no result for the right side (`to`):\n",
    }
}

/// Writes why a side has no result, and which one, and returns the exit status.
fn refuse_side<O: Write, E: Write>(
    alloc: Global,
    name: SideName,
    side: &DiffSide<'_>,
    failure: &Failure,
    out: &mut O,
    err: &mut E,
) -> u8
    ensures status { (result ≡ failure_status failure.now) ⊎ (result ≡ 5) ⊎ (result ≡ 6) }
    ensures quiet { (result ≡ 6) ⊎ (O.contents out.new ≡ O.contents out.old)
        ⊎ ReportsFailure failure.now side.now.request result
        (O.contents out.old) (O.contents out.new) }
    ensures document { side.now.request.format ≡ formats.Json → (result ≡ 3) ⊎ (result ≡ 4)
        → ReportsFailure failure.now side.now.request result
        (O.contents out.old) (O.contents out.new) }
    ensures begun { (O.contents out.new ≡ O.contents out.old)
        ⊎ BeginsFailure failure.now side.now.request (O.contents out.old) (O.contents out.new) }
    ensures errors { (result ≡ 6) ⊎ GetsSideReason name failure.now side.now.request result
        (E.contents err.old) (E.contents err.new) }
{
    let written = print_text(side_note(name), Status::Success as u8, err);
    if written != Status::Success as u8 {
        return written;
    }
    refuse_in(alloc, failure, &side.request, out, err)
}

/// Writes why a diff has no result, and returns the exit status.
fn refuse_diff<O: Write, E: Write>(
    alloc: Global,
    request: &DiffRequest<'_>,
    failure: &DiffFailure,
    out: &mut O,
    err: &mut E,
) -> u8
    ensures status { HasFailureStatus failure.now result }
    ensures quiet { (result ≡ 6) ⊎ (O.contents out.new ≡ O.contents out.old)
        ⊎ ReportsDiffFailure request.now failure.now result
        (O.contents out.old) (O.contents out.new) }
    ensures document { AreForJson request.now → (result ≡ 3) ⊎ (result ≡ 4)
        → ReportsDiffFailure request.now failure.now result
        (O.contents out.old) (O.contents out.new) }
    ensures begun { (O.contents out.new ≡ O.contents out.old)
        ⊎ BeginsDiffFailure request.now failure.now (O.contents out.old) (O.contents out.new) }
    ensures errors { (result ≡ 6) ⊎ GetsDiffReason request.now failure.now result
        (E.contents err.old) (E.contents err.new) }
{
    match failure {
        DiffFailure::Side(SideName::From, failure) => {
            refuse_side(alloc, SideName::From, &request.from, failure, out, err)
        }
        DiffFailure::Side(SideName::To, failure) => {
            refuse_side(alloc, SideName::To, &request.to, failure, out, err)
        }
        DiffFailure::Memory => refuse_for_memory(err),
    }
}

/// The warnings beside a page: a document has nothing beside it.
fn notes_of(alloc: Global, request: &DiffRequest<'_>, report: &Report) -> Result<String, AllocError>
    ensures { IfOk result (λ notes. string_bytes notes
        ≡ findings_beside request.now.format request.now.paper.colour report.now) }
{
    match request.format {
        DiffFormat::Json => Ok(String::new(alloc)),
        DiffFormat::Text | DiffFormat::Github(_) | DiffFormat::Markdown => {
            render_findings(alloc, report, request.paper.colour)
        }
    }
}

/// Writes warnings, and then the page of a diff, and returns the exit status.
fn print_page<O: Write, E: Write>(
    notes: &str,
    page: &str,
    diff: &Diff,
    out: &mut O,
    err: &mut E,
) -> u8
    ensures status { (result ≡ diff_status diff.now) ⊎ (result ≡ 6) }
    ensures page { (result ≡ 6) ⊎ Appends (O.contents out.old) (O.contents out.new) page.now }
    ensures begun { (O.contents out.new ≡ O.contents out.old)
        ⊎ AppendsPrefix (O.contents out.old) (O.contents out.new) page.now }
    ensures errors { (result ≡ 6) ⊎ ((result ≡ diff_status diff.now)
        × Appends (E.contents err.old) (E.contents err.new) notes.now) }
{
    let written = print_text(notes, Status::Success as u8, err);
    if written != Status::Success as u8 {
        return written;
    }
    print_text(page, status_of(diff), out)
}

/// Writes a result: the warnings, and then the diff.
fn print_answer<O: Write, E: Write>(
    alloc: Global,
    request: &DiffRequest<'_>,
    answer: &DiffAnswer,
    out: &mut O,
    err: &mut E,
) -> u8
    ensures status { (result ≡ diff_status answer.now.diff) ⊎ (result ≡ 5) ⊎ (result ≡ 6) }
    ensures quiet { (result ≡ diff_status answer.now.diff) ⊎ (result ≡ 6)
        ⊎ (O.contents out.new ≡ O.contents out.old) }
    ensures page { (result ≡ 5) ⊎ (result ≡ 6) ⊎ ReportsDiff request.now answer.now.diff
        (O.contents out.old) (O.contents out.new) }
    ensures begun { (O.contents out.new ≡ O.contents out.old)
        ⊎ BeginsDiff request.now answer.now.diff (O.contents out.old) (O.contents out.new) }
    ensures errors { (result ≡ 6) ⊎ GetsFindings request.now answer.now.diff answer.now.report
        result (E.contents err.old) (E.contents err.new) }
{
    let Ok(notes) = notes_of(alloc, request, &answer.report) else {
        return refuse_for_memory(err);
    };
    match render_diff(alloc, &answer.diff, request) {
        Ok(page) => print_page(notes.as_str(), page.as_str(), &answer.diff, out, err),
        Err(_) => refuse_for_memory(err),
    }
}

/// What changes between the two sides of a request. If the request says so, standard error shows
/// how far the diff is.
fn answer_shown<E: Write>(
    alloc: Global,
    request: &DiffRequest<'_>,
    from: &Gathered,
    to: &Gathered,
    err: &mut E,
) -> Result<DiffAnswer, DiffFailure>
    ensures ok { IfOk result (λ answer. Differs request.now from.now to.now answer.diff) }
    ensures report { IfOk result
        (λ answer. IsReportOfSide request.now.to to.now answer.report) }
    ensures err { IfErr result (DiffFails request.now from.now to.now) }
    ensures errors { request.now.shows_progress ≡ false
        → E.contents err.new ≡ E.contents err.old }
{
    if !request.shows_progress {
        return diff_answer(alloc, request, from, to, &mut NoProgress);
    }
    let mut progress = ProgressLine::new(&mut *err, true);
    let answer = diff_answer(alloc, request, from, to, &mut progress);
    progress.clear();
    answer
}

/// Writes what changes between the sides of a request, over the files that they name, and returns
/// the exit status: 0 if nothing changes, 1 if something does, 2 if a list, platforms or metadata
/// are not understood, 3 if the files of a side are refused, 4 if a side has no such profile, 5 if
/// memory runs out, 6 if a write fails. Without a result standard output gets nothing, or in JSON a
/// document of why the files of a side are refused or lack its profile.
///
/// Standard error receives the findings of the right side, or the reason why a side has no result,
/// behind a line that names the side. With a result in JSON it receives nothing.
///
/// After a write that failed, standard output has a prefix of what it gets in a diff in which no
/// write fails.
pub fn perform_diff<O: Write, E: Write>(
    alloc: Global,
    request: &DiffRequest<'_>,
    from: &Gathered,
    to: &Gathered,
    out: &mut O,
    err: &mut E,
) -> u8
    ensures status { result ≤ 6 }
    ensures page { result ≤ 1 → HasResult request.now from.now to.now result
        (O.contents out.old) (O.contents out.new) }
    ensures quiet { (result ≤ 1) ⊎ (result ≡ 6) ⊎ (O.contents out.new ≡ O.contents out.old)
        ⊎ ReportsRefusal request.now from.now to.now result
        (O.contents out.old) (O.contents out.new) }
    ensures refusal { AreForJson request.now → (result ≡ 3) ⊎ (result ≡ 4)
        → ReportsRefusal request.now from.now to.now result
        (O.contents out.old) (O.contents out.new) }
    ensures cause { HasCause request.now from.now to.now result }
    ensures begun { ReceivesPrefix (IsWholeDiff request.now from.now to.now (O.contents out.old))
        (O.contents out.old) (O.contents out.new) }
    ensures errors { request.now.shows_progress ≡ false → (result ≡ 6)
        ⊎ GetsDiffErrors request.now from.now to.now result
        (E.contents err.old) (E.contents err.new) }
{
    match answer_shown(alloc, request, from, to, err) {
        Ok(answer) => print_answer(alloc, request, &answer, out, err),
        Err(failure) => refuse_diff(alloc, request, &failure, out, err),
    }
}
