//! What changes for a test: the settings that the two sides give it differently.
ghost use Rattle.std.specs.Prelude.{◌≡◌, ◌++◌, [], IfOk, MatchOption, map};
ghost use Rattle.rinqebo_changes.specs.Changes.{like_source_of, is_change, side_row, runs_in, rows_beside, changed_rows, rows_in, IsChangedTest};

use crate::same::is_same_setting;
use crate::same_origin::TwoSources;
use rinqebo_report::{SettingRow, TestId, TestRows};
use std::alloc::{AllocError, Global};

/// A setting as a side gives it.
#[derive(Drop)]
pub struct SideRow {
    /// Its key, its value, and where that comes from.
    pub row: SettingRow,
    /// Whether it is the row `runs` of a test that the list of the side gives as ignored.
    pub is_ignored: bool,
}

/// A setting that the two sides give differently.
#[derive(Drop)]
pub struct RowChange {
    /// Its position among the rows that are compared, from 0.
    pub place: usize,
    /// What the left side gives.
    pub from: SideRow,
    /// What the right side gives.
    pub to: SideRow,
}

/// What changes for a test.
#[derive(Drop)]
pub struct TestChanges {
    /// The test.
    pub test: TestId,
    /// The settings that change, in the order of all settings. There is one at least.
    pub rows: Vec<RowChange>,
}

/// What counts as a change.
#[derive(Clone, Copy)]
pub struct Comparison<'s> {
    /// The sources of the two sides.
    pub sources: TwoSources<'s>,
    /// Whether other origins are a change too, where the values are the same.
    pub with_origins: bool,
    /// Whether the rows `runs` are compared too.
    pub with_runs: bool,
}

impl Comparison<'_> {
    /// Whether a value comes from the lists on both sides, or from like origins.
    fn is_like_source(&self, from: &SideRow, to: &SideRow) -> bool
        ensures { result ≡ like_source_of self.now.sources.from.now self.now.sources.to.now
            from.now to.now }
    {
        from.is_ignored == to.is_ignored
            && (from.is_ignored
                || self
                    .sources
                    .are_like_origins(&from.row.origins, &to.row.origins))
    }

    /// Whether a setting changes from one side to the other.
    pub fn is_change(&self, from: &SideRow, to: &SideRow) -> bool
        ensures { result ≡ is_change self.now.sources.from.now self.now.sources.to.now
            self.now.with_origins from.now to.now }
    {
        !is_same_setting(&from.row.value, &to.row.value)
            || self.with_origins && !self.is_like_source(from, to)
    }
}

/// Rows of a side, of which its list decides none.
pub fn side_rows(alloc: Global, rows: Vec<SettingRow>) -> Result<Vec<SideRow>, AllocError>
    ensures { IfOk result (λ sides. sides.items ≡ map side_row rows.items) }
{
    rows.into_iter()
        .map(|row| SideRow {
            row,
            is_ignored: false,
        })
        .collect(alloc)
}

/// The rows of a test: whether it runs, where that is compared, and then its settings.
fn rows_of(
    alloc: Global,
    with_runs: bool,
    runs: SideRow,
    settings: Vec<SettingRow>,
) -> Result<Vec<SideRow>, AllocError>
    ensures { IfOk result (λ rows. rows.items
        ≡ runs_in with_runs runs ++ map side_row settings.items) }
{
    let mut rows = side_rows(alloc, settings)?;
    if !with_runs {
        return Ok(rows);
    }
    rows.insert(0, runs)?;
    Ok(rows)
}

/// The rows of the two sides beside each other.
fn rows_beside(
    alloc: Global,
    from: Vec<SideRow>,
    to: Vec<SideRow>,
) -> Result<Vec<RowChange>, AllocError>
    ensures { IfOk result (λ rows. rows.items ≡ rows_beside from.items to.items) }
{
    from.into_iter()
        .zip(to)
        .enumerate()
        .map(|(place, (from, to))| RowChange { place, from, to })
        .collect(alloc)
}

/// The rows that change between two lists of the same length.
pub fn changed_rows(
    alloc: Global,
    compare: &Comparison<'_>,
    from: Vec<SideRow>,
    to: Vec<SideRow>,
) -> Result<Vec<RowChange>, AllocError>
    ensures { IfOk result (λ rows. rows.items ≡ changed_rows
        (is_change compare.now.sources.from.now compare.now.sources.to.now compare.now.with_origins)
        from.items to.items) }
{
    let rows = rows_beside(alloc, from, to)?;
    rows.into_iter()
        .filter(|row| compare.is_change(&row.from, &row.to))
        .collect(alloc)
}

/// What changes for a test, from the rows of the left side to those of the right side, if something
/// does.
pub fn changes_of(
    alloc: Global,
    compare: &Comparison<'_>,
    from: TestRows,
    to: TestRows,
) -> Result<Option<TestChanges>, AllocError>
    ensures { IfOk result (λ changes. MatchOption changes
        (changed_rows (is_change compare.now.sources.from.now compare.now.sources.to.now
        compare.now.with_origins) (rows_in compare.now.with_runs from)
        (rows_in compare.now.with_runs to) ≡ [])
        (IsChangedTest (is_change compare.now.sources.from.now compare.now.sources.to.now
        compare.now.with_origins) compare.now.with_runs from to)) }
{
    let left = SideRow {
        row: from.runs,
        is_ignored: from.is_ignored,
    };
    let right = SideRow {
        row: to.runs,
        is_ignored: to.is_ignored,
    };
    let test = TestId {
        binary: to.binary,
        name: to.name,
        platform: to.platform,
    };
    let from = rows_of(alloc, compare.with_runs, left, from.settings)?;
    let to = rows_of(alloc, compare.with_runs, right, to.settings)?;
    let rows = changed_rows(alloc, compare, from, to)?;
    if rows.is_empty() {
        Ok(None)
    } else {
        Ok(Some(TestChanges { test, rows }))
    }
}
