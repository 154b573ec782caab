//! The page of a diff.
ghost use Rattle.std.specs.Prelude.{◌≡◌, ◌++◌, OnOk, IfOk, Some, flat_map, length, string_bytes};
ghost use Rattle.rinqebo_report.specs.Pieces.{page_text};
ghost use Rattle.rinqebo_changes.specs.Pages.{value_runs, heading_runs, two_site_runs, site_runs, change_runs, names_runs, test_runs, whole_runs, total_of, whole_at, is_whole, item_runs, binary_runs_at, binary_runs, binaries_runs, group_runs, listed_runs, run_runs, count_runs, diff_runs, IsDiffText};

use crate::arrow::{Arrow, add_arrow};
use crate::change::RowChange;
use crate::classes::{Class, Item};
use crate::diff::{BinaryTests, Diff};
use crate::groups::{Group, groups_of};
use crate::head::{add_head, add_remark};
use crate::texts::{has_source, other_key, setting_text, source_text};
use rinqebo_report::{Colour, Paper, Piece, Style, TestId, add_pieces};
use std::alloc::{AllocError, Global};

/// Writes a setting, and its two values.
fn add_values<'x>(
    alloc: Global,
    out: &mut String,
    paper: Paper,
    key: &'x str,
    from: &'x str,
    other: &'x str,
    to: &'x str,
) -> Result<(), AllocError>
    ensures { OnOk result (string_bytes out.new ≡ string_bytes out.old ++ page_text paper.colour
        (value_runs paper.columns key.now from.now other.now to.now)) }
{
    let arrow = Arrow {
        style: Style::Plain,
        indent: 4,
    };
    add_arrow(
        alloc,
        out,
        paper,
        arrow,
        &[
            Piece::Text(Style::Key, key),
            Piece::Text(Style::Plain, ": "),
            Piece::Text(Style::Plain, from),
        ],
        &[
            Piece::Text(Style::Key, other),
            Piece::Text(Style::Plain, to),
        ],
    )
}

/// Writes a setting that changes, and its two values.
fn add_heading(
    alloc: Global,
    out: &mut String,
    paper: Paper,
    row: &RowChange,
) -> Result<(), AllocError>
    ensures { OnOk result (string_bytes out.new ≡ string_bytes out.old
        ++ page_text paper.colour (heading_runs paper.columns row.now)) }
{
    let other = other_key(alloc, row)?;
    let from = setting_text(alloc, &row.from.row.value)?;
    let to = setting_text(alloc, &row.to.row.value)?;
    add_values(
        alloc,
        out,
        paper,
        row.from.row.key.as_str(),
        from.as_str(),
        other.as_str(),
        to.as_str(),
    )
}

/// Writes two origins.
fn add_two_sites<'x>(
    alloc: Global,
    out: &mut String,
    paper: Paper,
    from: &'x str,
    to: &'x str,
) -> Result<(), AllocError>
    ensures { OnOk result (string_bytes out.new ≡ string_bytes out.old
        ++ page_text paper.colour (two_site_runs paper.columns from.now to.now)) }
{
    let arrow = Arrow {
        style: Style::Remark,
        indent: 8,
    };
    add_arrow(
        alloc,
        out,
        paper,
        arrow,
        &[Piece::Repeat(' ', 4), Piece::Text(Style::Remark, from)],
        &[Piece::Text(Style::Remark, to)],
    )
}

/// Writes where the two values come from, if that is known of at least one.
fn add_sites(
    alloc: Global,
    out: &mut String,
    paper: Paper,
    diff: &Diff,
    row: &RowChange,
) -> Result<(), AllocError>
    ensures { OnOk result (string_bytes out.new ≡ string_bytes out.old
        ++ page_text paper.colour (site_runs paper.columns diff.now row.now)) }
{
    if !has_source(&row.from) && !has_source(&row.to) {
        return Ok(());
    }
    let from = source_text(alloc, &diff.from, &row.from)?;
    let to = source_text(alloc, &diff.to, &row.to)?;
    add_two_sites(alloc, out, paper, from.as_str(), to.as_str())
}

/// Writes a change.
fn add_change(
    alloc: Global,
    out: &mut String,
    paper: Paper,
    diff: &Diff,
    row: &RowChange,
) -> Result<(), AllocError>
    ensures { OnOk result (string_bytes out.new ≡ string_bytes out.old
        ++ page_text paper.colour (change_runs paper.columns diff.now row.now)) }
{
    add_heading(alloc, out, paper, row)?;
    add_sites(alloc, out, paper, diff, row)
}

/// Writes the names of a test.
fn add_names<'x>(
    out: &mut String,
    colour: Colour,
    binary: &'x str,
    name: &'x str,
) -> Result<(), AllocError>
    ensures { OnOk result (string_bytes out.new ≡ string_bytes out.old
        ++ page_text colour (names_runs binary.now name.now)) }
{
    add_pieces(
        out,
        colour,
        &[
            Piece::Text(Style::Plain, "    "),
            Piece::Text(Style::Plain, binary),
            Piece::Text(Style::Plain, " "),
            Piece::Text(Style::Plain, name),
            Piece::End,
        ],
    )
}

/// Writes a test.
fn add_test(out: &mut String, colour: Colour, test: &TestId) -> Result<(), AllocError>
    ensures { OnOk result (string_bytes out.new ≡ string_bytes out.old
        ++ page_text colour (test_runs test.now)) }
{
    add_names(out, colour, test.binary.as_str(), test.name.as_str())
}

/// Writes that all tests of a binary change.
fn add_whole<'x>(
    out: &mut String,
    colour: Colour,
    binary: &'x str,
    count: usize,
) -> Result<(), AllocError>
    ensures { OnOk result (string_bytes out.new ≡ string_bytes out.old
        ++ page_text colour (whole_runs binary.now count)) }
{
    add_pieces(
        out,
        colour,
        &[
            Piece::Text(Style::Plain, "    "),
            Piece::Text(Style::Plain, binary),
            Piece::Text(Style::Plain, " *  ("),
            Piece::Number(count as u64),
            Piece::Text(Style::Plain, " tests)"),
            Piece::End,
        ],
    )
}

/// How many tests a binary has: none if it is not one of these binaries.
pub fn total_of(binaries: &[BinaryTests], binary: &str) -> usize
    ensures { result ≡ total_of binaries.now binary.now }
{
    for one in binaries {
        if one.binary.as_str() == binary {
            return one.tests;
        }
    }
    0
}

/// Whether a binary has so many tests, and has several. One of its changes is given, the first.
fn is_whole_at(binaries: &[BinaryTests], count: usize, first: &Item<'_>) -> bool
    ensures { result ≡ whole_at binaries.now count (Some first.now) }
{
    1 < count && count == total_of(binaries, first.test.binary.as_str())
}

/// Whether changes of a binary's tests are those of all its tests, and it has several.
pub fn is_whole(diff: &Diff, items: &[Item<'_>]) -> bool
    ensures { result ≡ is_whole diff.now.binaries.items items.now }
{
    match items.first() {
        Some(first) => is_whole_at(&diff.binaries, items.len(), first),
        None => false,
    }
}

/// Writes the tests of some changes.
fn add_tests(out: &mut String, colour: Colour, items: &[Item<'_>]) -> Result<(), AllocError>
    ensures { OnOk result (string_bytes out.new ≡ string_bytes out.old
        ++ page_text colour (flat_map item_runs items.now)) }
{
    for item in items {
        add_test(out, colour, item.test)?;
    }
    Ok(())
}

/// Writes the changes of a binary's tests, of which one is the first: on one line if all its tests
/// change, unless each is to be listed.
fn add_from(
    out: &mut String,
    colour: Colour,
    diff: &Diff,
    lists_all: bool,
    items: &[Item<'_>],
    first: &Item<'_>,
) -> Result<(), AllocError>
    ensures { OnOk result (string_bytes out.new ≡ string_bytes out.old
        ++ page_text colour (binary_runs_at diff.now.binaries.items lists_all items.now
        (Some first.now))) }
{
    if !lists_all && is_whole(diff, items) {
        add_whole(out, colour, first.test.binary.as_str(), items.len())
    } else {
        add_tests(out, colour, items)
    }
}

/// Writes the changes of a binary's tests.
fn add_binary(
    out: &mut String,
    colour: Colour,
    diff: &Diff,
    lists_all: bool,
    items: &[Item<'_>],
) -> Result<(), AllocError>
    ensures { OnOk result (string_bytes out.new ≡ string_bytes out.old
        ++ page_text colour (binary_runs diff.now.binaries.items lists_all items.now)) }
{
    match items.first() {
        Some(first) => add_from(out, colour, diff, lists_all, items, first),
        None => add_tests(out, colour, items),
    }
}

/// Writes the changes of the tests of binaries.
fn add_binaries(
    out: &mut String,
    colour: Colour,
    diff: &Diff,
    lists_all: bool,
    binaries: &[Class<'_>],
) -> Result<(), AllocError>
    ensures { OnOk result (string_bytes out.new ≡ string_bytes out.old
        ++ page_text colour (binaries_runs diff.now.binaries.items lists_all binaries.now)) }
{
    for binary in binaries {
        add_binary(out, colour, diff, lists_all, &binary.items)?;
    }
    Ok(())
}

/// Writes a group: what changes, and its tests.
fn add_group(
    alloc: Global,
    out: &mut String,
    paper: Paper,
    diff: &Diff,
    lists_all: bool,
    group: &Group<'_>,
) -> Result<(), AllocError>
    ensures { OnOk result (string_bytes out.new ≡ string_bytes out.old
        ++ page_text paper.colour (group_runs paper.columns diff.now lists_all group.now)) }
{
    add_change(alloc, out, paper, diff, group.head.row)?;
    add_binaries(out, paper.colour, diff, lists_all, &group.binaries)
}

/// Writes groups.
fn add_groups(
    alloc: Global,
    out: &mut String,
    paper: Paper,
    diff: &Diff,
    lists_all: bool,
    groups: &[Group<'_>],
) -> Result<(), AllocError>
    ensures { OnOk result (string_bytes out.new ≡ string_bytes out.old
        ++ page_text paper.colour
        (flat_map (group_runs paper.columns diff.now lists_all) groups.now)) }
{
    for group in groups {
        add_group(alloc, out, paper, diff, lists_all, group)?;
    }
    Ok(())
}

/// Writes the tests of one side alone, if there are some.
fn add_listed(
    out: &mut String,
    colour: Colour,
    word: &str,
    tests: &[TestId],
) -> Result<(), AllocError>
    ensures { OnOk result (string_bytes out.new ≡ string_bytes out.old
        ++ page_text colour (listed_runs word.now tests.now)) }
{
    if tests.is_empty() {
        return Ok(());
    }
    add_pieces(out, colour, &[Piece::Text(Style::Plain, word), Piece::End])?;
    for test in tests {
        add_test(out, colour, test)?;
    }
    Ok(())
}

/// Writes what changes for the whole run, if something does.
fn add_run(alloc: Global, out: &mut String, paper: Paper, diff: &Diff) -> Result<(), AllocError>
    ensures { OnOk result (string_bytes out.new ≡ string_bytes out.old
        ++ page_text paper.colour (run_runs paper.columns diff.now)) }
{
    if diff.run.is_empty() {
        return Ok(());
    }
    add_remark(out, paper.colour, "# run")?;
    for row in &diff.run {
        add_change(alloc, out, paper, diff, row)?;
    }
    Ok(())
}

/// Writes how many of the compared tests change.
fn add_count(
    out: &mut String,
    colour: Colour,
    changed: u64,
    compared: u64,
) -> Result<(), AllocError>
    ensures { OnOk result (string_bytes out.new ≡ string_bytes out.old
        ++ page_text colour (count_runs changed compared)) }
{
    add_pieces(
        out,
        colour,
        &[
            Piece::Number(changed),
            Piece::Text(Style::Plain, " of "),
            Piece::Number(compared),
            Piece::Text(Style::Plain, " tests change"),
            Piece::End,
        ],
    )
}

/// How many tests change.
fn changed_count(diff: &Diff) -> u64
    ensures { result ≡ length diff.now.changed.items }
{
    diff.changed.len() as u64
}

/// Writes the page of a diff, whose changes are in groups.
fn add_page(
    alloc: Global,
    out: &mut String,
    paper: Paper,
    diff: &Diff,
    lists_all: bool,
    groups: &[Group<'_>],
) -> Result<(), AllocError>
    ensures { OnOk result (string_bytes out.new ≡ string_bytes out.old ++ page_text paper.colour
        (diff_runs paper.columns diff.now lists_all groups.now)) }
{
    add_head(alloc, out, paper, diff)?;
    add_groups(alloc, out, paper, diff, lists_all, groups)?;
    add_listed(out, paper.colour, "removed:", &diff.removed)?;
    add_listed(out, paper.colour, "added:", &diff.added)?;
    add_run(alloc, out, paper, diff)?;
    add_count(out, paper.colour, changed_count(diff), diff.compared)
}

/// The page of a diff.
pub fn diff_text(
    alloc: Global,
    diff: &Diff,
    lists_all: bool,
    paper: Paper,
) -> Result<String, AllocError>
    ensures { IfOk result (λ text. IsDiffText diff.now lists_all paper (string_bytes text)) }
{
    let groups = groups_of(alloc, &diff.changed)?;
    let mut text = String::new(alloc);
    add_page(alloc, &mut text, paper, diff, lists_all, &groups)?;
    Ok(text)
}
