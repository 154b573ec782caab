//! How a comparison of two runs ends.
ghost use Rattle.std.specs.Prelude.{IfOk};
ghost use Rattle.rinqebo_forms.specs.Runs.{run_view};
ghost use Rattle.rinqebo_resolve.specs.Asking.{requested_view};
ghost use Rattle.rinqebo_resolve.specs.Comparison.Comparisons.{EndsBetween, EndsFor, EndsIn, EndsOf};
ghost use Rattle.rinqebo_resolve.specs.Comparison.Readings.{IsReadingOf};

use crate::asking::{RequestedRun, parted};
use crate::comparison::request::request_of;
use crate::ending::Ending;
use crate::resolving::ending_of_failure;
use rinqebo_changes::diff_json;
use rinqebo_diff::{DiffFailure, DiffRequest, SideName, diff_answer};
use rinqebo_forms::{RequestFault, RunRequest};
use rinqebo_request::Gathered;
use rinqebo_rules::NoProgress;
use std::alloc::{AllocError, Global};

/// How a comparison ends.
#[derive(Drop)]
pub struct Compared {
    /// The side that has no result, if one has none.
    pub side: Option<SideName>,
    /// The document of what changes, or why there is none.
    pub ending: Ending,
}

/// What the bytes of a request are.
#[derive(Drop)]
pub enum Reading {
    /// A request for a run.
    Run(RunRequest),
    /// Not a request: the ending says why.
    Ended(Ending),
}

/// Reads the bytes of a request.
fn reading_of(alloc: Global, request: &[u8]) -> Result<Reading, AllocError>
    ensures { IfOk result (IsReadingOf request.now) }
{
    let Ok(text) = std::str::from_utf8(request) else {
        return Ok(Reading::Ended(Ending::NotText));
    };
    match RunRequest::read(alloc, text) {
        Ok(run) => Ok(Reading::Run(run)),
        Err(RequestFault::Memory) => Err(AllocError),
        Err(fault) => Ok(Reading::Ended(Ending::NotUnderstood(format!(in alloc; "{fault}")?))),
    }
}

/// How a request ends over the files of its sides: with the document of what changes, or with why a
/// side has no result.
fn ended(
    alloc: Global,
    request: &DiffRequest<'_>,
    from: &Gathered,
    to: &Gathered,
) -> Result<Compared, AllocError>
    ensures { IfOk result (λ end.
        EndsBetween request.now from.now to.now end.side end.ending) }
{
    match diff_answer(alloc, request, from, to, &mut NoProgress) {
        Ok(answer) => Ok(Compared {
            side: None,
            ending: Ending::Answered(diff_json(alloc, &answer.diff)?),
        }),
        Err(DiffFailure::Side(name, failure)) => Ok(Compared {
            side: Some(name),
            ending: ending_of_failure(alloc, &failure)?,
        }),
        Err(DiffFailure::Memory) => Err(AllocError),
    }
}

/// How what two runs request of their files ends.
fn ended_in(
    alloc: Global,
    from: &RequestedRun,
    to: &RequestedRun,
    from_files: &Gathered,
    to_files: &Gathered,
    with_origins: bool,
) -> Result<Compared, AllocError>
    ensures { IfOk result (λ end. EndsIn (requested_view from.now) (requested_view to.now)
        with_origins from_files.now to_files.now end.side end.ending) }
{
    let request = request_of(alloc, from, to, with_origins)?;
    ended(alloc, &request, from_files, to_files)
}

/// How the comparison of two runs ends.
fn ended_of(
    alloc: Global,
    from: RunRequest,
    to: RunRequest,
    with_origins: bool,
) -> Result<Compared, AllocError>
    ensures { IfOk result (λ end. EndsOf (run_view from) (run_view to) with_origins
        end.side end.ending) }
{
    let (from, from_files) = parted(from);
    let (to, to_files) = parted(to);
    ended_in(alloc, &from, &to, &from_files, &to_files, with_origins)
}

/// How the comparison of the bytes of two requests ends, if memory suffices.
fn compared_with_memory(
    alloc: Global,
    from: &[u8],
    to: &[u8],
    with_origins: bool,
) -> Result<Compared, AllocError>
    ensures { IfOk result (λ end. EndsFor from.now to.now with_origins end.side end.ending) }
{
    let left = reading_of(alloc, from)?;
    let right = reading_of(alloc, to)?;
    match left {
        Reading::Ended(ending) => Ok(Compared {
            side: Some(SideName::From),
            ending,
        }),
        Reading::Run(left_run) => match right {
            Reading::Ended(ending) => Ok(Compared {
                side: Some(SideName::To),
                ending,
            }),
            Reading::Run(right_run) => ended_of(alloc, left_run, right_run, with_origins),
        },
    }
}

/// How the comparison of the bytes of two requests ends.
pub fn compared_for(alloc: Global, from: &[u8], to: &[u8], with_origins: bool) -> Compared
    ensures { EndsFor from.now to.now with_origins result.side result.ending }
{
    match compared_with_memory(alloc, from, to, with_origins) {
        Ok(compared) => compared,
        Err(_) => Compared {
            side: None,
            ending: Ending::Memory,
        },
    }
}
