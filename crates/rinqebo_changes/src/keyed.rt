//! What changes between two lists of rows that may have different keys.
ghost use Rattle.std.specs.Prelude.{◌≡◌, false, IfOk, MatchOption};
ghost use Rattle.std.specs.List.{AllZip};
ghost use Rattle.rinqebo_changes.specs.Keyed.{has_key, IsAbsent, IsAbsentFor, IsPlaceOf, IsTaken, AreBeside, AreAligned, AreKeyedChanges};

use crate::change::{Comparison, RowChange, changed_rows, side_rows};
use crate::same_origin::TwoSources;
use rinqebo_report::SettingRow;
use std::alloc::{AllocError, Global};

/// Rows of the left side beside rows of the right side, of the same keys.
#[derive(Drop)]
struct Aligned {
    /// The rows of the left side, and then rows without a value for those that it lacks.
    left: Vec<SettingRow>,
    /// The row beside each of them.
    right: Vec<SettingRow>,
}

/// The row of a key that a side does not have.
fn absent(alloc: Global, key: &str) -> Result<SettingRow, AllocError>
    ensures { IfOk result (IsAbsent key.now) }
{
    Ok(SettingRow {
        key: String::from_str(alloc, key)?,
        value: None,
        origins: Vec::new(alloc),
    })
}

/// The place of the first row of a key, if there is one.
fn place_of(rows: &[SettingRow], key: &str) -> Option<usize>
    ensures { MatchOption result (has_key rows.now key.now ≡ false) (IsPlaceOf key.now rows.now) }
{
    rows.iter().position(|row| row.key.as_str() == key)
}

/// Takes the first row of a key out of rows, or makes one without a value if there is none.
fn taken(alloc: Global, rows: &mut Vec<SettingRow>, key: &str) -> Result<SettingRow, AllocError>
    ensures { IfOk result (λ row. IsTaken key.now rows.old.items row rows.new.items) }
{
    match place_of(rows.as_slice(), key) {
        Some(place) => Ok(rows.remove(place)),
        None => absent(alloc, key),
    }
}

/// The rows to put beside those of the left side, by their keys. They are taken out of those of the
/// right side.
fn beside(
    alloc: Global,
    from: &[SettingRow],
    rest: &mut Vec<SettingRow>,
) -> Result<Vec<SettingRow>, AllocError>
    ensures { IfOk result (λ right. AreBeside rest.old.items from.now right.items rest.new.items) }
{
    let mut right = Vec::new(alloc);
    for row in from {
        right.push(taken(alloc, rest, row.key.as_str())?)?;
    }
    Ok(right)
}

/// The rows to put beside those that the right side has alone.
fn absent_rows(alloc: Global, rows: &[SettingRow]) -> Result<Vec<SettingRow>, AllocError>
    ensures { IfOk result (λ absent. AllZip IsAbsentFor rows.now absent.items) }
{
    let mut made = Vec::new(alloc);
    for row in rows {
        made.push(absent(alloc, row.key.as_str())?)?;
    }
    Ok(made)
}

/// Puts the rows of the right side beside those of the left side, by their keys.
fn align(alloc: Global, from: Vec<SettingRow>, to: Vec<SettingRow>) -> Result<Aligned, AllocError>
    ensures { IfOk result (λ rows. AreAligned from.items to.items rows.left.items
        rows.right.items) }
{
    let mut rest = to;
    let mut right = beside(alloc, &from, &mut rest)?;
    let mut made = absent_rows(alloc, &rest)?;
    let mut left = from;
    left.append(&mut made)?;
    right.append(&mut rest)?;
    Ok(Aligned { left, right })
}

/// What changes between rows, by their keys: in the order of the left side, and then of what the
/// right side has alone.
pub fn keyed_changes(
    alloc: Global,
    from: Vec<SettingRow>,
    to: Vec<SettingRow>,
) -> Result<Vec<RowChange>, AllocError>
    ensures { IfOk result (λ changes. AreKeyedChanges from.items to.items changes.items) }
{
    let rows = align(alloc, from, to)?;
    let compare = Comparison {
        sources: TwoSources { from: &[], to: &[] },
        with_origins: false,
        with_runs: false,
    };
    let from = side_rows(alloc, rows.left)?;
    let to = side_rows(alloc, rows.right)?;
    changed_rows(alloc, &compare, from, to)
}
