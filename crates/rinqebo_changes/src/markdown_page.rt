//! A diff as a table for a comment.
ghost use Rattle.std.specs.Prelude.{◌≡◌, ◌++◌, OnOk, IfOk, Some, flat_map, string_bytes};
ghost use Rattle.rinqebo_changes.specs.MarkdownPage.{is_mark, marked_char, marked_text, source_cell, given_cell, test_cell, item_cell, whole_cell, binary_cell_at, binary_cell, cells_text, group_line, run_line, alone_line, last_text, table_text, IsMarkdownText};

use crate::change::{RowChange, SideRow};
use crate::classes::Item;
use crate::diff::{Diff, Side};
use crate::groups::{Group, groups_of};
use crate::text_page::is_whole;
use crate::texts::{has_source, setting_text, source_text};
use rinqebo_report::TestId;
use std::alloc::{AllocError, Global};

/// The head of the table.
const HEAD: &str = "| Setting | From | To | Tests |\n|---|---|---|---|\n";

/// Whether a character has a meaning in a table, or marks up a text.
fn is_mark(c: char) -> bool
    ensures { result ≡ is_mark c }
{
    matches!(
        c,
        '\\' | '`' | '*' | '_' | '[' | ']' | '<' | '>' | '|' | '#' | '~'
    )
}

/// Writes a character so that it is shown as it is: a control character as a space.
fn add_char(out: &mut String, c: char) -> Result<(), AllocError>
    ensures { OnOk result (string_bytes out.new ≡ string_bytes out.old ++ marked_char c) }
{
    if c.is_control() {
        return out.push(' ');
    }
    if !is_mark(c) {
        return out.push(c);
    }
    out.push('\\')?;
    out.push(c)
}

/// Writes a text so that it is shown as it is.
fn add_text(out: &mut String, text: &str) -> Result<(), AllocError>
    ensures { OnOk result (string_bytes out.new ≡ string_bytes out.old ++ marked_text text.now) }
{
    for c in text.chars() {
        add_char(out, c)?;
    }
    Ok(())
}

/// Writes where the value of a side comes from, on a line of its own, if that is known.
fn add_source(
    alloc: Global,
    out: &mut String,
    side: &Side,
    given: &SideRow,
) -> Result<(), AllocError>
    ensures { OnOk result (string_bytes out.new
        ≡ string_bytes out.old ++ source_cell side.now given.now) }
{
    if !has_source(given) {
        return Ok(());
    }
    let source = source_text(alloc, side, given)?;
    out.push_str("<br>")?;
    add_text(out, source.as_str())
}

/// Writes what a side gives: its value, and where that comes from.
fn add_given(
    alloc: Global,
    out: &mut String,
    side: &Side,
    given: &SideRow,
) -> Result<(), AllocError>
    ensures { OnOk result (string_bytes out.new
        ≡ string_bytes out.old ++ given_cell side.now given.now) }
{
    let value = setting_text(alloc, &given.row.value)?;
    add_text(out, value.as_str())?;
    add_source(alloc, out, side, given)
}

/// Writes a test.
fn add_test(out: &mut String, test: &TestId) -> Result<(), AllocError>
    ensures { OnOk result (string_bytes out.new ≡ string_bytes out.old ++ test_cell test.now) }
{
    add_text(out, test.binary.as_str())?;
    out.push_str(" ")?;
    add_text(out, test.name.as_str())?;
    out.push_str("<br>")
}

/// Writes the tests of changes.
fn add_tests(out: &mut String, items: &[Item<'_>]) -> Result<(), AllocError>
    ensures { OnOk result (string_bytes out.new ≡ string_bytes out.old
        ++ flat_map item_cell items.now) }
{
    for item in items {
        add_test(out, item.test)?;
    }
    Ok(())
}

/// Writes that all tests of a binary change.
fn add_whole(alloc: Global, out: &mut String, binary: &str, count: usize) -> Result<(), AllocError>
    ensures { OnOk result (string_bytes out.new ≡ string_bytes out.old
        ++ whole_cell binary.now count) }
{
    add_text(out, binary)?;
    let count = format!(in alloc; " \\* ({count} tests)<br>")?;
    out.push_str(count.as_str())
}

/// Writes the changes of a binary's tests, of which one is the first: once if all its tests change,
/// unless each is to be listed.
fn add_from(
    alloc: Global,
    out: &mut String,
    diff: &Diff,
    lists_all: bool,
    items: &[Item<'_>],
    first: &Item<'_>,
) -> Result<(), AllocError>
    ensures { OnOk result (string_bytes out.new ≡ string_bytes out.old
        ++ binary_cell_at diff.now.binaries.items lists_all items.now (Some first.now)) }
{
    if !lists_all && is_whole(diff, items) {
        add_whole(alloc, out, first.test.binary.as_str(), items.len())
    } else {
        add_tests(out, items)
    }
}

/// Writes the changes of a binary's tests.
fn add_binary(
    alloc: Global,
    out: &mut String,
    diff: &Diff,
    lists_all: bool,
    items: &[Item<'_>],
) -> Result<(), AllocError>
    ensures { OnOk result (string_bytes out.new ≡ string_bytes out.old
        ++ binary_cell diff.now.binaries.items lists_all items.now) }
{
    match items.first() {
        Some(first) => add_from(alloc, out, diff, lists_all, items, first),
        None => add_tests(out, items),
    }
}

/// Writes the first three cells of a change.
fn add_cells(
    alloc: Global,
    out: &mut String,
    diff: &Diff,
    row: &RowChange,
) -> Result<(), AllocError>
    ensures { OnOk result (string_bytes out.new ≡ string_bytes out.old
        ++ cells_text diff.now row.now) }
{
    out.push_str("| ")?;
    add_text(out, row.to.row.key.as_str())?;
    out.push_str(" | ")?;
    add_given(alloc, out, &diff.from, &row.from)?;
    out.push_str(" | ")?;
    add_given(alloc, out, &diff.to, &row.to)?;
    out.push_str(" | ")
}

/// Writes a line of the table: a group.
fn add_group(
    alloc: Global,
    out: &mut String,
    diff: &Diff,
    lists_all: bool,
    group: &Group<'_>,
) -> Result<(), AllocError>
    ensures { OnOk result (string_bytes out.new ≡ string_bytes out.old
        ++ group_line diff.now lists_all group.now) }
{
    add_cells(alloc, out, diff, group.head.row)?;
    for binary in &group.binaries {
        add_binary(alloc, out, diff, lists_all, &binary.items)?;
    }
    out.push_str(" |\n")
}

/// Writes a line of the table: a change of the whole run.
fn add_run(alloc: Global, out: &mut String, diff: &Diff, row: &RowChange) -> Result<(), AllocError>
    ensures { OnOk result (string_bytes out.new ≡ string_bytes out.old
        ++ run_line diff.now row.now) }
{
    add_cells(alloc, out, diff, row)?;
    out.push_str("the run |\n")
}

/// Writes a line of the table: the tests of one side alone, if there are some.
fn add_alone(out: &mut String, word: &str, tests: &[TestId]) -> Result<(), AllocError>
    ensures { OnOk result (string_bytes out.new ≡ string_bytes out.old
        ++ alone_line word.now tests.now) }
{
    if tests.is_empty() {
        return Ok(());
    }
    out.push_str("| ")?;
    out.push_str(word)?;
    out.push_str(" |  |  | ")?;
    for test in tests {
        add_test(out, test)?;
    }
    out.push_str(" |\n")
}

/// Writes how many tests change.
fn add_last(alloc: Global, out: &mut String, diff: &Diff) -> Result<(), AllocError>
    ensures { OnOk result (string_bytes out.new ≡ string_bytes out.old ++ last_text diff.now) }
{
    let (changed, compared) = (diff.changed.len(), diff.compared);
    let last = format!(in alloc; "\n{changed} of {compared} tests change\n")?;
    out.push_str(last.as_str())
}

/// Writes lines of the table: groups.
fn add_groups(
    alloc: Global,
    out: &mut String,
    diff: &Diff,
    lists_all: bool,
    groups: &[Group<'_>],
) -> Result<(), AllocError>
    ensures { OnOk result (string_bytes out.new ≡ string_bytes out.old
        ++ flat_map (group_line diff.now lists_all) groups.now) }
{
    for group in groups {
        add_group(alloc, out, diff, lists_all, group)?;
    }
    Ok(())
}

/// Writes lines of the table: the changes of the whole run.
fn add_runs(alloc: Global, out: &mut String, diff: &Diff) -> Result<(), AllocError>
    ensures { OnOk result (string_bytes out.new ≡ string_bytes out.old
        ++ flat_map (run_line diff.now) diff.now.run.items) }
{
    for row in &diff.run {
        add_run(alloc, out, diff, row)?;
    }
    Ok(())
}

/// Writes the table of a diff, whose changes are in groups.
fn add_table(
    alloc: Global,
    out: &mut String,
    diff: &Diff,
    lists_all: bool,
    groups: &[Group<'_>],
) -> Result<(), AllocError>
    ensures { OnOk result (string_bytes out.new ≡ string_bytes out.old
        ++ table_text diff.now lists_all groups.now) }
{
    out.push_str(HEAD)?;
    add_groups(alloc, out, diff, lists_all, groups)?;
    add_alone(out, "removed", &diff.removed)?;
    add_alone(out, "added", &diff.added)?;
    add_runs(alloc, out, diff)?;
    add_last(alloc, out, diff)
}

/// The table of a diff, for a comment.
pub fn diff_markdown(alloc: Global, diff: &Diff, lists_all: bool) -> Result<String, AllocError>
    ensures { IfOk result (λ text. IsMarkdownText diff.now lists_all (string_bytes text)) }
{
    let groups = groups_of(alloc, &diff.changed)?;
    let mut text = String::new(alloc);
    add_table(alloc, &mut text, diff, lists_all, &groups)?;
    Ok(text)
}
