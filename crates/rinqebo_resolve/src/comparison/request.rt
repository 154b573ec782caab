//! The request of the program for what changes between two runs.
ghost use Rattle.std.specs.Prelude.{IfOk};
ghost use Rattle.rinqebo_resolve.specs.Asking.{requested_view};
ghost use Rattle.rinqebo_resolve.specs.Comparison.Requests.{IsRequestBetween, IsSideFor};

use crate::asking::RequestedRun;
use rinqebo_diff::{ComparedSettings, DiffFormat, DiffRequest, DiffSide};
use rinqebo_report::{Colour, Paper, ReportCommand};
use std::alloc::{AllocError, Global};

/// A side: what a run requests of its files.
fn side_of<'a>(alloc: Global, asked: &'a RequestedRun) -> Result<DiffSide<'a>, AllocError>
    ensures { IfOk result (IsSideFor (requested_view asked.now)) }
{
    Ok(DiffSide {
        request: asked.request(alloc, ReportCommand::Diff)?,
        profile: asked.profile.as_str(),
        mode: asked.mode,
    })
}

/// The request for what changes from one run to another: all settings of their tests, and the whole
/// run, as a document of JSON.
pub fn request_of<'a>(
    alloc: Global,
    from: &'a RequestedRun,
    to: &'a RequestedRun,
    with_origins: bool,
) -> Result<DiffRequest<'a>, AllocError>
    ensures { IfOk result (IsRequestBetween (requested_view from.now) (requested_view to.now)
        with_origins) }
{
    Ok(DiffRequest {
        from: side_of(alloc, from)?,
        to: side_of(alloc, to)?,
        compared: ComparedSettings::all(alloc)?,
        with_run: true,
        with_origins,
        lists_all: false,
        format: DiffFormat::Json,
        paper: Paper {
            colour: Colour::Plain,
            columns: 80,
        },
        shows_progress: false,
    })
}
