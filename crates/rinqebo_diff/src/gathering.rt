//! The files of both sides.
ghost use Rattle.std.specs.Prelude.{◌≡◌, IfErr, IfOk};
ghost use Rattle.nextest_sources.specs.Sources.{outcome_view};
ghost use Rattle.rinqebo_diff.specs.Gathered.{AreSideFiles, HasSideCause};

use crate::request::DiffRequest;
use nextest_config::ReadOutcome;
use nextest_sources::FileReader;
use rinqebo_request::{Environment, GatherFault, Gathered, gather};
use std::alloc::{AllocError, Global};

/// The files of the two sides, as they were read.
#[derive(Drop)]
pub struct GatheredSides {
    /// Those of the left side.
    pub from: Gathered,
    /// Those of the right side.
    pub to: Gathered,
}

/// A copy of the outcome of a read.
fn copy_of(outcome: &ReadOutcome) -> Result<ReadOutcome, AllocError>
    ensures { IfOk result (λ copy. outcome_view copy ≡ outcome_view outcome.now) }
{
    Ok(match outcome {
        ReadOutcome::Text(text) => ReadOutcome::Text(text.clone()?),
        ReadOutcome::NotFound => ReadOutcome::NotFound,
        ReadOutcome::NotADirectory => ReadOutcome::NotADirectory,
        ReadOutcome::Failed(message) => ReadOutcome::Failed(message.clone()?),
    })
}

/// Reads the files that the two sides of a request name, with the outcome of reading standard
/// input.
pub fn gather_sides<R: FileReader>(
    alloc: Global,
    request: &DiffRequest<'_>,
    environment: &Environment,
    input: ReadOutcome,
    files: &R,
) -> Result<GatheredSides, GatherFault>
    ensures from { IfOk result (λ sides. AreSideFiles (R.MayGive files.now) request.now.from
        (outcome_view input) sides.from) }
    ensures to { IfOk result (λ sides. AreSideFiles (R.MayGive files.now) request.now.to
        (outcome_view input) sides.to) }
    ensures cause { IfErr result
        (HasSideCause (R.MayGive files.now) request.now (outcome_view input)) }
{
    let copy = copy_of(&input)?;
    let from = gather(alloc, &request.from.request, environment, copy, files)?;
    let to = gather(alloc, &request.to.request, environment, input, files)?;
    Ok(GatheredSides { from, to })
}
