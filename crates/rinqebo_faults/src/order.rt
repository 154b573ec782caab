//! The order in which findings are reported.
ghost use Rattle.std.specs.Prelude.{◌≡◌, IfOk, IsPermutation};
ghost use Rattle.std.specs.List.Sorted.{IsSortedByKey};
ghost use Rattle.rinqebo_faults.specs.Order.{spot_cmp, spot_in, spot_of};

use rinqebo_report::{FileLines, FilePlace, Finding, Position, Range};
use std::alloc::AllocError;

/// Returns the line and the column of a place: the start of its range, or its first line and a
/// column there. What has no line comes first.
fn spot_in(place: FilePlace, column: Option<u64>) -> (u64, u64)
    ensures { result ≡ spot_in place.range place.lines column }
{
    match (place.range, place.lines) {
        (
            Some(
                Range {
                    start: Position { line, column },
                    ..
                },
            ),
            _,
        ) => (line, column),
        (None, Some(FileLines { first, .. })) => (first, column.unwrap_or(0)),
        (None, None) => (0, 0),
    }
}

/// Returns what findings are ordered by: the file, the line and the column. What is in no file
/// comes last.
fn spot_of(finding: &Finding) -> (usize, u64, u64)
    ensures { result ≡ spot_of finding.now }
{
    match finding.place {
        Some(place) => {
            let (line, column) = spot_in(place, finding.column);
            (place.source, line, column)
        }
        None => (usize::MAX, 0, 0),
    }
}

/// Returns findings in the order of their files, lines and columns. Those at one place stay in
/// their order.
pub fn in_order(findings: Vec<Finding>) -> Result<Vec<Finding>, AllocError>
    ensures same { IfOk result (λ ordered. IsPermutation findings.items ordered.items) }
    ensures sorted { IfOk result (λ ordered. IsSortedByKey spot_of spot_cmp ordered.items) }
{
    let mut ordered = findings;
    ordered.sort_by_key(|finding| spot_of(finding))?;
    Ok(ordered)
}
