//! The page of groups: a group has the tests for which pages show the same.
ghost use Rattle.std.specs.Prelude.{◌≡◌, ◌≤◌, ◌++◌, Some, IfOk, OnOk, length, map, string_bytes};
ghost use Rattle.rinqebo_report.specs.Groups.{reported_line_runs, reported_row_runs, reported_runs, reported_text, test_groups, with_member, grouped_test_runs, members_runs, groups_runs, grouped_runs};
ghost use Rattle.rinqebo_report.specs.Pages.{runs_shown};
ghost use Rattle.rinqebo_report.specs.Pieces.{page_text};

use crate::explain_page::add_absent;
use crate::layout::Paper;
use crate::list_page::{add_list_end, add_list_head, add_test_line};
use crate::origin::{Origin, Source};
use crate::piece::{Colour, Piece, Style, add_pieces};
use crate::report::{Asked, SettingRow, TestRows};
use crate::toml_text::canonical_text;
use indexmap::IndexSet;
use std::alloc::{AllocError, Global};

/// Writes a setting and its value.
fn add_reported_value<'x>(
    out: &mut String,
    colour: Colour,
    key: &'x str,
    value: &'x str,
) -> Result<(), AllocError>
    ensures { OnOk result (string_bytes out.new ≡ string_bytes out.old
        ++ page_text colour (reported_line_runs key.now (Some value.now))) }
{
    add_pieces(
        out,
        colour,
        &[
            Piece::Text(Style::Key, key),
            Piece::Text(Style::Plain, " = "),
            Piece::Text(Style::Plain, value),
            Piece::End,
        ],
    )
}

/// Writes what pages show of a setting.
fn add_reported_row(
    alloc: Global,
    out: &mut String,
    colour: Colour,
    row: &SettingRow,
) -> Result<(), AllocError>
    ensures { OnOk result (string_bytes out.new ≡ string_bytes out.old
        ++ page_text colour (reported_row_runs row.now)) }
{
    let key = row.key.as_str();
    match &row.value {
        Some(value) => {
            let value = canonical_text(alloc, value)?;
            add_reported_value(out, colour, key, value.as_str())
        }
        None => add_absent(alloc, out, colour, key),
    }
}

/// Writes whether a test runs, if pages show it.
fn add_reported_runs(
    alloc: Global,
    out: &mut String,
    colour: Colour,
    test: &TestRows,
) -> Result<(), AllocError>
    ensures { OnOk result (string_bytes out.new ≡ string_bytes out.old
        ++ page_text colour (runs_shown (reported_row_runs test.now.runs) test.now)) }
{
    if test.shows_runs {
        add_reported_row(alloc, out, colour, &test.runs)
    } else {
        Ok(())
    }
}

/// Writes what pages show of a test.
fn add_reported(
    alloc: Global,
    out: &mut String,
    colour: Colour,
    test: &TestRows,
) -> Result<(), AllocError>
    ensures { OnOk result (string_bytes out.new ≡ string_bytes out.old
        ++ page_text colour (reported_runs test.now)) }
{
    add_reported_runs(alloc, out, colour, test)?;
    for row in &test.settings {
        add_reported_row(alloc, out, colour, row)?;
    }
    Ok(())
}

/// What pages show of a test, as a text.
fn reported_text(alloc: Global, test: &TestRows) -> Result<String, AllocError>
    ensures { IfOk result (λ text. string_bytes text ≡ reported_text test.now) }
{
    let mut text = String::new(alloc);
    add_reported(alloc, &mut text, Colour::Plain, test)?;
    Ok(text)
}

/// Puts a test last in the group with a number, or in a new group behind the others.
fn add_member<'t>(
    alloc: Global,
    groups: &mut Vec<Vec<&'t TestRows>>,
    number: usize,
    test: &'t TestRows,
) -> Result<(), AllocError>
    requires { number ≤ length groups.old.items }
    ensures { OnOk result (map (λ group. map (λ test. test.now) group.items) groups.new.items
        ≡ with_member (map (λ group. map (λ test. test.now) group.items) groups.old.items)
        number test.now) }
{
    if number == groups.len() {
        groups.push(Vec::new(alloc))?;
    }
    groups[number].push(test)?;
    Ok(())
}

/// The tests of each group, in the order of the first test of each.
fn groups_of<'t>(alloc: Global, tests: &'t [TestRows]) -> Result<Vec<Vec<&'t TestRows>>, AllocError>
    ensures { IfOk result (λ groups.
        map (λ group. map (λ test. test.now) group.items) groups.items ≡ test_groups tests.now) }
{
    let mut texts: IndexSet<String> = IndexSet::new(alloc);
    let mut groups: Vec<Vec<&'t TestRows>> = Vec::new(alloc);
    for test in tests {
        let text = reported_text(alloc, test)?;
        let (number, _) = texts.insert_full(text)?;
        add_member(alloc, &mut groups, number, test)?;
    }
    Ok(groups)
}

/// Writes a test of a group.
fn add_grouped_test(out: &mut String, colour: Colour, test: &TestRows) -> Result<(), AllocError>
    ensures { OnOk result (string_bytes out.new ≡ string_bytes out.old
        ++ page_text colour (grouped_test_runs test.now)) }
{
    add_pieces(out, colour, &[Piece::Text(Style::Plain, "    ")])?;
    add_test_line(out, colour, test.binary.as_str(), test.name.as_str())
}

/// Writes a group of tests.
fn add_group(
    alloc: Global,
    out: &mut String,
    colour: Colour,
    group: &[&TestRows],
) -> Result<(), AllocError>
    ensures { OnOk result (string_bytes out.new ≡ string_bytes out.old
        ++ page_text colour (members_runs (map (λ test. test.now) group.now))) }
{
    let Some(first) = group.first() else {
        return Ok(());
    };
    add_reported(alloc, out, colour, *first)?;
    for test in group {
        add_grouped_test(out, colour, *test)?;
    }
    Ok(())
}

/// Writes tests in groups.
fn add_groups(
    alloc: Global,
    out: &mut String,
    colour: Colour,
    tests: &[TestRows],
) -> Result<(), AllocError>
    ensures { OnOk result (string_bytes out.new ≡ string_bytes out.old
        ++ page_text colour (groups_runs tests.now)) }
{
    for group in &groups_of(alloc, tests)? {
        add_group(alloc, out, colour, group)?;
    }
    Ok(())
}

/// Writes the page of a list, with the tests in groups.
pub(crate) fn add_grouped(
    alloc: Global,
    out: &mut String,
    paper: Paper,
    root: &str,
    sources: &[Source],
    asked: &Asked,
    tests: &[TestRows],
    unused: &[Origin],
) -> Result<(), AllocError>
    ensures { OnOk result (string_bytes out.new ≡ string_bytes out.old ++ page_text paper.colour
        (grouped_runs paper.columns root.now sources.now asked.now tests.now unused.now)) }
{
    add_list_head(alloc, out, paper, asked)?;
    add_groups(alloc, out, paper.colour, tests)?;
    let count = tests.len() as u64;
    add_list_end(alloc, out, paper, root, sources, count, unused)
}
