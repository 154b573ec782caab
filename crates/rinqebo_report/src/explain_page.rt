//! The page of a test: whether it runs, and its settings, with their values and origins.
ghost use Rattle.std.specs.Prelude.{◌≡◌, [], ◌∷◌, ◌++◌, Some, OnOk, IfOk, codes, map, string_bytes};
ghost use Rattle.serde_json.specs.View.{members_view};
ghost use Rattle.rinqebo_report.specs.Document.{with_explain};
ghost use Rattle.rinqebo_report.specs.Headers.{mode_word, platform_word, host_text, triple_of, profiles_part, mode_part, names_part, platform_part, test_header_runs};
ghost use Rattle.rinqebo_report.specs.Joined.{joined};
ghost use Rattle.rinqebo_report.specs.Pages.{key_width, widest, widest_shown, runs_shown, runs_said, runs_row_runs, absent_runs, key_column, setting_runs, row_runs, test_runs, explain_runs};
ghost use Rattle.rinqebo_report.specs.Pieces.{page_text, repeated};

use crate::header::add_header;
use crate::json_parts::test_json;
use crate::json_requested::put_requested;
use crate::layout::{KeyColumn, Mark, Paper, Remarks, add_remark, add_remarked, width};
use crate::origin::Source;
use crate::origin_text::origin_texts;
use crate::piece::{Colour, Piece, Style, add_pieces};
use crate::report::{Asked, BuiltFor, RunMode, SettingRow, TestRows};
use crate::toml_text::value_text;
use serde_json::{Map, Value, json, put};
use std::alloc::{AllocError, Global};

/// The least number of columns that a value takes.
const VALUE_WIDTH: usize = 12;

/// How wide the key of a row is: 0 if the row has no value.
fn key_width(row: &SettingRow) -> usize
    ensures { result ≡ key_width row.now }
{
    if row.value.is_some() {
        width(row.key.as_str())
    } else {
        0
    }
}

/// The width of the widest key of rows.
pub(crate) fn widest(rows: &[SettingRow]) -> usize
    ensures { result ≡ widest rows.now }
{
    let mut most = 0usize;
    for row in rows {
        most = most.max(key_width(row));
    }
    most
}

/// The width of the widest key of the rows that pages show of a test.
pub(crate) fn widest_shown(test: &TestRows) -> usize
    ensures { result ≡ widest_shown test.now }
{
    let widest = widest(&test.settings);
    if test.shows_runs {
        widest.max(key_width(&test.runs))
    } else {
        widest
    }
}

impl RunMode {
    /// Its word.
    pub fn word(self) -> &'static str
        ensures { result.now ≡ mode_word self }
    {
        match self {
            RunMode::Test => "test",
            RunMode::Benchmark => "benchmark",
        }
    }
}

impl BuiltFor {
    /// Its word.
    pub fn word(self) -> &'static str
        ensures { result.now ≡ platform_word self }
    {
        match self {
            BuiltFor::Host => "host",
            BuiltFor::Target => "target",
        }
    }
}

/// Writes the triple of the host, and whether it is only assumed.
pub(crate) fn add_host(out: &mut String, asked: &Asked) -> Result<(), AllocError>
    ensures { OnOk result (string_bytes out.new
        ≡ string_bytes out.old ++ host_text asked.now) }
{
    out.push_str(asked.host.as_str())?;
    if asked.assumes_host {
        out.push_str(" (assumed)")
    } else {
        Ok(())
    }
}

/// Writes the triple of a platform: that of the host if there is no target.
fn add_triple(out: &mut String, asked: &Asked, platform: BuiltFor) -> Result<(), AllocError>
    ensures { OnOk result (string_bytes out.new
        ≡ string_bytes out.old ++ triple_of asked.now platform) }
{
    match (platform, &asked.target) {
        (BuiltFor::Target, Some(target)) => out.push_str(target.as_str()),
        _ => add_host(out, asked),
    }
}

/// Writes profiles, the nearest first.
fn add_chain(out: &mut String, chain: &[String]) -> Result<(), AllocError>
    ensures { OnOk result (string_bytes out.new
        ≡ string_bytes out.old ++ joined (codes " < ") string_bytes chain.now) }
{
    let mut separator = "";
    for profile in chain {
        out.push_str(separator)?;
        out.push_str(profile.as_str())?;
        separator = " < ";
    }
    Ok(())
}

/// The profiles, the nearest first: a part of a header.
pub(crate) fn profiles_part(alloc: Global, asked: &Asked) -> Result<String, AllocError>
    ensures { IfOk result (λ part. string_bytes part ≡ profiles_part asked.now) }
{
    let mut part = String::from_str(alloc, "profile ")?;
    add_chain(&mut part, &asked.chain)?;
    part.push_str(",")?;
    Ok(part)
}

/// The mode: a part of a header.
pub(crate) fn mode_part(alloc: Global, asked: &Asked) -> Result<String, AllocError>
    ensures { IfOk result (λ part. string_bytes part ≡ mode_part asked.now) }
{
    let mut part = String::from_str(alloc, asked.mode.word())?;
    part.push_str(",")?;
    Ok(part)
}

/// The names of a test: the first part of a header.
fn names_part(alloc: Global, test: &TestRows) -> Result<String, AllocError>
    ensures { IfOk result (λ part. string_bytes part ≡ names_part test.now) }
{
    let binary = test.binary.as_str();
    let name = test.name.as_str();
    format!(in alloc; "{binary} {name},")
}

/// The platform that a test runs on: the last part of a header.
fn platform_part(alloc: Global, asked: &Asked, test: &TestRows) -> Result<String, AllocError>
    ensures { IfOk result (λ part. string_bytes part ≡ platform_part asked.now test.now) }
{
    let mut part = String::from_str(alloc, test.platform.word())?;
    part.push_str(" ")?;
    add_triple(&mut part, asked, test.platform)?;
    Ok(part)
}

/// The parts of a header after the names of the test.
fn request_parts(alloc: Global, asked: &Asked, test: &TestRows) -> Result<Vec<String>, AllocError>
    ensures { IfOk result (λ parts. map string_bytes parts.items
        ≡ profiles_part asked.now ∷ mode_part asked.now ∷ platform_part asked.now test.now ∷ []) }
{
    let profiles = profiles_part(alloc, asked)?;
    let mode = mode_part(alloc, asked)?;
    let platform = platform_part(alloc, asked, test)?;
    Ok(vec![in alloc; profiles, mode, platform]?)
}

/// Writes the header of a page: the test, the profiles, the mode, and the platform.
fn add_test_header(
    alloc: Global,
    out: &mut String,
    paper: Paper,
    asked: &Asked,
    test: &TestRows,
) -> Result<(), AllocError>
    ensures { OnOk result (string_bytes out.new ≡ string_bytes out.old
        ++ page_text paper.colour (test_header_runs paper.columns asked.now test.now)) }
{
    let names = names_part(alloc, test)?;
    let others = request_parts(alloc, asked, test)?;
    add_header(alloc, out, paper, names.as_str(), &others)
}

/// Writes the row of a setting that has a value.
pub(crate) fn add_valued<'x>(
    alloc: Global,
    out: &mut String,
    paper: Paper,
    keys: KeyColumn,
    key: &'x str,
    value: &'x str,
    texts: Vec<String>,
) -> Result<(), AllocError>
    ensures { OnOk result (string_bytes out.new ≡ string_bytes out.old
        ++ page_text paper.colour (setting_runs paper.columns keys key.now (Some value.now)
        (map string_bytes texts.items))) }
{
    let indent = usize::from(keys.indent);
    let remarks = Remarks {
        mark: Mark::Comment,
        gap: VALUE_WIDTH.saturating_sub(width(value)) + 2,
        indent: indent + 4,
        texts,
    };
    add_remarked(
        alloc,
        out,
        paper,
        &[
            Piece::Repeat(' ', indent),
            Piece::Text(Style::Key, key),
            Piece::Repeat(' ', keys.width.saturating_sub(width(key))),
            Piece::Text(Style::Plain, " = "),
            Piece::Text(Style::Plain, value),
        ],
        &remarks,
    )
}

/// Writes that a setting has no value.
pub(crate) fn add_absent(
    alloc: Global,
    out: &mut String,
    colour: Colour,
    key: &str,
) -> Result<(), AllocError>
    ensures { OnOk result (string_bytes out.new ≡ string_bytes out.old
        ++ page_text colour (absent_runs key.now)) }
{
    let text = format!(in alloc; "# {key}: none")?;
    add_remark(out, colour, text.as_str())
}

/// Writes the row of a setting that has no value.
fn add_unvalued(
    alloc: Global,
    out: &mut String,
    paper: Paper,
    keys: KeyColumn,
    key: &str,
) -> Result<(), AllocError>
    ensures { OnOk result (string_bytes out.new ≡ string_bytes out.old
        ++ page_text paper.colour (repeated 32 keys.indent ∷ absent_runs key.now)) }
{
    let indent = usize::from(keys.indent);
    add_pieces(out, paper.colour, &[Piece::Repeat(' ', indent)])?;
    add_absent(alloc, out, paper.colour, key)
}

/// Writes the row of a setting.
fn add_row(
    alloc: Global,
    out: &mut String,
    paper: Paper,
    root: &str,
    sources: &[Source],
    keys: KeyColumn,
    row: &SettingRow,
) -> Result<(), AllocError>
    ensures { OnOk result (string_bytes out.new ≡ string_bytes out.old
        ++ page_text paper.colour
        (row_runs paper.columns root.now sources.now keys row.now)) }
{
    let key = row.key.as_str();
    match &row.value {
        Some(value) => {
            let value = value_text(alloc, value)?;
            let texts = origin_texts(alloc, root, sources, &row.origins)?;
            add_valued(alloc, out, paper, keys, key, value.as_str(), texts)
        }
        None => add_unvalued(alloc, out, paper, keys, key),
    }
}

/// The remarks of the row of `runs`: its origins, or that a list says that the test is ignored.
fn runs_said(
    alloc: Global,
    root: &str,
    sources: &[Source],
    test: &TestRows,
) -> Result<Vec<String>, AllocError>
    ensures { IfOk result (λ texts. map string_bytes texts.items
        ≡ runs_said root.now sources.now test.now) }
{
    if test.is_ignored {
        Ok(vec![in alloc; String::from_str(alloc, "ignored in LIST")?]?)
    } else {
        origin_texts(alloc, root, sources, &test.runs.origins)
    }
}

/// Writes the row of `runs`.
fn add_runs_row(
    alloc: Global,
    out: &mut String,
    paper: Paper,
    root: &str,
    sources: &[Source],
    keys: KeyColumn,
    test: &TestRows,
) -> Result<(), AllocError>
    ensures { OnOk result (string_bytes out.new ≡ string_bytes out.old
        ++ page_text paper.colour
        (runs_row_runs paper.columns root.now sources.now keys test.now)) }
{
    let key = test.runs.key.as_str();
    match &test.runs.value {
        Some(value) => {
            let value = value_text(alloc, value)?;
            let texts = runs_said(alloc, root, sources, test)?;
            add_valued(alloc, out, paper, keys, key, value.as_str(), texts)
        }
        None => add_unvalued(alloc, out, paper, keys, key),
    }
}

/// Writes the row of `runs`, if pages show it.
fn add_runs(
    alloc: Global,
    out: &mut String,
    paper: Paper,
    root: &str,
    sources: &[Source],
    keys: KeyColumn,
    test: &TestRows,
) -> Result<(), AllocError>
    ensures { OnOk result (string_bytes out.new ≡ string_bytes out.old
        ++ page_text paper.colour (runs_shown
        (runs_row_runs paper.columns root.now sources.now keys test.now) test.now)) }
{
    if test.shows_runs {
        add_runs_row(alloc, out, paper, root, sources, keys, test)
    } else {
        Ok(())
    }
}

/// The column of the keys of a test's rows, indented by so many blanks.
fn key_column(indent: u8, test: &TestRows) -> KeyColumn
    ensures { result ≡ key_column indent test.now }
{
    KeyColumn {
        indent,
        width: widest_shown(test),
    }
}

/// Writes the rows of a test, indented by so many blanks.
pub(crate) fn add_rows(
    alloc: Global,
    out: &mut String,
    paper: Paper,
    indent: u8,
    root: &str,
    sources: &[Source],
    test: &TestRows,
) -> Result<(), AllocError>
    ensures { OnOk result (string_bytes out.new ≡ string_bytes out.old
        ++ page_text paper.colour
        (test_runs paper.columns indent root.now sources.now test.now)) }
{
    let keys = key_column(indent, test);
    add_runs(alloc, out, paper, root, sources, keys, test)?;
    for row in &test.settings {
        add_row(alloc, out, paper, root, sources, keys, row)?;
    }
    Ok(())
}

/// Writes the page of a test.
pub(crate) fn add_explain(
    alloc: Global,
    out: &mut String,
    paper: Paper,
    root: &str,
    sources: &[Source],
    asked: &Asked,
    test: &TestRows,
) -> Result<(), AllocError>
    ensures { OnOk result (string_bytes out.new ≡ string_bytes out.old ++ page_text paper.colour
        (explain_runs paper.columns root.now sources.now asked.now test.now)) }
{
    add_test_header(alloc, out, paper, asked, test)?;
    add_rows(alloc, out, paper, 0, root, sources, test)
}

/// Puts among members those of the page of a test.
pub(crate) fn put_explain(
    members: &mut Map<String, Value>,
    alloc: Global,
    asked: &Asked,
    test: &TestRows,
) -> Result<(), AllocError>
    ensures { OnOk result (members_view members.new.entries
        ≡ with_explain asked.now test.now (members_view members.old.entries)) }
{
    put_requested(members, alloc, "explain", asked)?;
    let test = test_json(alloc, test)?;
    let tests = json!(in alloc; [test])?;
    put(members, alloc, "tests", tests)
}
