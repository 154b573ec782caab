//! Comparisons of two runs, as callers receive them.
ghost use Rattle.std.specs.Prelude.{◌≡◌, take};
ghost use Rattle.rinqebo_resolve.specs.Endings.{IsSilent};
ghost use Rattle.rinqebo_session.specs.declared.status.TheConstants.{DONE};
ghost use Rattle.rinqebo_resolve.specs.Comparison.Comparisons.{counts_origins, side_number, IsCompared, IsComparedRun, IsDiffFor};

use crate::comparison::comparing::{Compared, compared_for};
use crate::run::Run;
use rinqebo_diff::SideName;
use std::alloc::Global;

/// Whether a value that is the same and comes from elsewhere is a change too: unless the number is
/// 0.
fn counts_origins(origins: u32) -> bool
    ensures { result ≡ counts_origins origins }
{
    origins != 0
}

/// The number of the side that has no result: 1 is the left side, from which something changes, and
/// 2 the right side. It is 0 if both have one, and if memory ran out.
fn side_number(side: Option<SideName>) -> u32
    ensures { result ≡ side_number side }
{
    match side {
        None => 0,
        Some(SideName::From) => 1,
        Some(SideName::To) => 2,
    }
}

/// Compares the runs of two requests in JSON: writes the document of what changes at the start of a
/// buffer, or why there is none, and returns the status. If the buffer is too small, it is
/// unchanged. Either way `needed` is the length of the output, and `side` the number of the side
/// that has no result. Unless `origins` is 0, a value that is the same and comes from elsewhere is
/// a change too.
pub fn compare(
    alloc: Global,
    from: &[u8],
    to: &[u8],
    origins: u32,
    answer: &mut [u8],
    needed: &mut usize,
    side: &mut u32,
) -> u32
    ensures compared { IsCompared from.now to.now origins answer.old answer.new needed.new side.new
        result }
    ensures done { result ≡ DONE → (side.new ≡ 0)
        × IsDiffFor from.now to.now (counts_origins origins) (take needed.new answer.new) }
    ensures kept { IsSilent result → answer.new ≡ answer.old }
{
    let Compared { side: name, ending } = compared_for(alloc, from, to, counts_origins(origins));
    *side = side_number(name);
    ending.report(answer, needed)
}

/// Compares the runs of two requests in JSON, and keeps the output as a run, which always has a
/// status. `side` and `origins` are those of [`compare`].
pub fn compared_run(alloc: Global, from: &[u8], to: &[u8], origins: u32, side: &mut u32) -> Run
    ensures { IsComparedRun from.now to.now origins side.new result }
{
    let Compared { side: name, ending } = compared_for(alloc, from, to, counts_origins(origins));
    *side = side_number(name);
    Run { ending }
}
