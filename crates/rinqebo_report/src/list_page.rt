//! The page of a list: the request, each test with its settings, and the rules that apply to no
//! test.
ghost use Rattle.std.specs.Prelude.{◌≡◌, ◌++◌, ◌∷◌, IfOk, OnOk, flat_map, map, option_map, string_bytes};
ghost use Rattle.serde_json.specs.View.{members_view};
ghost use Rattle.rinqebo_report.specs.Document.{with_list, with_objects};
ghost use Rattle.rinqebo_report.specs.Headers.{host_text, mode_part, build_parts, list_head_runs};
ghost use Rattle.rinqebo_report.specs.Pages.{test_line_runs, listed_runs, unused_line_runs, unused_runs, count_runs, list_end_runs, list_runs};
ghost use Rattle.rinqebo_report.specs.Pieces.{page_text};

use crate::exact_value::ExactValue;
use crate::explain_page::{add_host, add_rows, mode_part, profiles_part};
use crate::header::add_header;
use crate::json_parts::{origins_json, tests_json, texts_json, wrappers_json};
use crate::json_requested::put_requested;
use crate::layout::{Mark, Paper, Remarks, add_remarked};
use crate::origin::{Origin, Source};
use crate::origin_text::all_origin_texts;
use crate::piece::{Colour, Piece, Style, add_pieces};
use crate::report::{Asked, ListScripts, Report, TestRows};
use serde_json::{Map, Value, put};
use std::alloc::{AllocError, Global};

/// The triple of the host, and whether it is only assumed.
fn host_text(alloc: Global, asked: &Asked) -> Result<String, AllocError>
    ensures { IfOk result (λ text. string_bytes text ≡ host_text asked.now) }
{
    let mut text = String::new(alloc);
    add_host(&mut text, asked)?;
    Ok(text)
}

/// The parts of the header of a list after the profiles: the mode, and the triples of the host and
/// of the target, if there is one.
fn build_parts(alloc: Global, asked: &Asked) -> Result<Vec<String>, AllocError>
    ensures { IfOk result (λ parts. map string_bytes parts.items ≡ mode_part asked.now
        ∷ build_parts (host_text asked.now) (option_map string_bytes asked.now.target)) }
{
    let mode = mode_part(alloc, asked)?;
    let host = host_text(alloc, asked)?;
    match &asked.target {
        Some(target) => {
            let host = format!(in alloc; "host {host},")?;
            let target = format!(in alloc; "target {target}")?;
            Ok(vec![in alloc; mode, host, target]?)
        }
        None => Ok(vec![in alloc; mode, host]?),
    }
}

/// Writes the header of a list: the profiles, the mode, and the platforms.
pub(crate) fn add_list_head(
    alloc: Global,
    out: &mut String,
    paper: Paper,
    asked: &Asked,
) -> Result<(), AllocError>
    ensures { OnOk result (string_bytes out.new ≡ string_bytes out.old
        ++ page_text paper.colour (list_head_runs paper.columns asked.now)) }
{
    let profiles = profiles_part(alloc, asked)?;
    let others = build_parts(alloc, asked)?;
    add_header(alloc, out, paper, profiles.as_str(), &others)
}

/// Writes the names of a test.
pub(crate) fn add_test_line<'x>(
    out: &mut String,
    colour: Colour,
    binary: &'x str,
    name: &'x str,
) -> Result<(), AllocError>
    ensures { OnOk result (string_bytes out.new ≡ string_bytes out.old
        ++ page_text colour (test_line_runs binary.now name.now)) }
{
    add_pieces(
        out,
        colour,
        &[
            Piece::Text(Style::Plain, binary),
            Piece::Text(Style::Plain, " "),
            Piece::Text(Style::Plain, name),
            Piece::End,
        ],
    )
}

/// Writes a test and its rows.
fn add_listed(
    alloc: Global,
    out: &mut String,
    paper: Paper,
    root: &str,
    sources: &[Source],
    test: &TestRows,
) -> Result<(), AllocError>
    ensures { OnOk result (string_bytes out.new ≡ string_bytes out.old ++ page_text paper.colour
        (listed_runs paper.columns root.now sources.now test.now)) }
{
    add_test_line(out, paper.colour, test.binary.as_str(), test.name.as_str())?;
    add_rows(alloc, out, paper, 4, root, sources, test)
}

/// Writes the origins of a rule that applies to no test.
fn add_unused_line(
    alloc: Global,
    out: &mut String,
    paper: Paper,
    texts: Vec<String>,
) -> Result<(), AllocError>
    ensures { OnOk result (string_bytes out.new ≡ string_bytes out.old ++ page_text paper.colour
        (unused_line_runs paper.columns (map string_bytes texts.items))) }
{
    let remarks = Remarks {
        mark: Mark::Bare,
        gap: 1,
        indent: 4,
        texts,
    };
    let front = [Piece::Text(Style::Plain, "unused:")];
    add_remarked(alloc, out, paper, &front, &remarks)
}

/// Writes the rules that apply to no test.
pub(crate) fn add_unused(
    alloc: Global,
    out: &mut String,
    paper: Paper,
    root: &str,
    sources: &[Source],
    unused: &[Origin],
) -> Result<(), AllocError>
    ensures { OnOk result (string_bytes out.new ≡ string_bytes out.old ++ page_text paper.colour
        (flat_map (unused_runs paper.columns root.now sources.now) unused.now)) }
{
    for origin in unused {
        let texts = all_origin_texts(alloc, root, sources, origin, &[])?;
        add_unused_line(alloc, out, paper, texts)?;
    }
    Ok(())
}

/// Writes the number of tests.
pub(crate) fn add_count(out: &mut String, colour: Colour, count: u64) -> Result<(), AllocError>
    ensures { OnOk result (string_bytes out.new ≡ string_bytes out.old
        ++ page_text colour (count_runs count)) }
{
    add_pieces(
        out,
        colour,
        &[
            Piece::Text(Style::Plain, "tests: "),
            Piece::Number(count),
            Piece::End,
        ],
    )
}

/// Writes the number of tests, and the rules that apply to none of them.
pub(crate) fn add_list_end(
    alloc: Global,
    out: &mut String,
    paper: Paper,
    root: &str,
    sources: &[Source],
    count: u64,
    unused: &[Origin],
) -> Result<(), AllocError>
    ensures { OnOk result (string_bytes out.new ≡ string_bytes out.old ++ page_text paper.colour
        (list_end_runs paper.columns root.now sources.now count unused.now)) }
{
    add_count(out, paper.colour, count)?;
    add_unused(alloc, out, paper, root, sources, unused)
}

/// Writes tests and their rows.
fn add_tests(
    alloc: Global,
    out: &mut String,
    paper: Paper,
    root: &str,
    sources: &[Source],
    tests: &[TestRows],
) -> Result<(), AllocError>
    ensures { OnOk result (string_bytes out.new ≡ string_bytes out.old ++ page_text paper.colour
        (flat_map (listed_runs paper.columns root.now sources.now) tests.now)) }
{
    for test in tests {
        add_listed(alloc, out, paper, root, sources, test)?;
    }
    Ok(())
}

/// Writes the page of a list.
pub(crate) fn add_list(
    alloc: Global,
    out: &mut String,
    paper: Paper,
    root: &str,
    sources: &[Source],
    asked: &Asked,
    tests: &[TestRows],
    unused: &[Origin],
) -> Result<(), AllocError>
    ensures { OnOk result (string_bytes out.new ≡ string_bytes out.old ++ page_text paper.colour
        (list_runs paper.columns root.now sources.now asked.now tests.now unused.now)) }
{
    add_list_head(alloc, out, paper, asked)?;
    add_tests(alloc, out, paper, root, sources, tests)?;
    let count = tests.len() as u64;
    add_list_end(alloc, out, paper, root, sources, count, unused)
}

/// Returns the header of the page of a list: what it shows before its tests.
pub fn render_list_head(alloc: Global, asked: &Asked, paper: Paper) -> Result<String, AllocError>
    ensures { IfOk result (λ text. string_bytes text
        ≡ page_text paper.colour (list_head_runs paper.columns asked.now)) }
{
    let mut text = String::new(alloc);
    add_list_head(alloc, &mut text, paper, asked)?;
    Ok(text)
}

/// Returns a test and its rows, as the page of a list shows them. The root and the sources are
/// those of the report.
pub fn render_listed(
    alloc: Global,
    report: &Report,
    paper: Paper,
    test: &TestRows,
) -> Result<String, AllocError>
    ensures { IfOk result (λ text. string_bytes text ≡ page_text paper.colour (listed_runs
        paper.columns (string_bytes report.now.root) report.now.sources.items test.now)) }
{
    let (root, sources) = (report.root.as_str(), report.sources.as_slice());
    let mut text = String::new(alloc);
    add_listed(alloc, &mut text, paper, root, sources, test)?;
    Ok(text)
}

/// Returns the end of the page of a list: the number of its tests, and the rules that apply to none
/// of them. The root and the sources are those of the report.
pub fn render_list_end(
    alloc: Global,
    report: &Report,
    paper: Paper,
    count: u64,
    unused: &[Origin],
) -> Result<String, AllocError>
    ensures { IfOk result (λ text. string_bytes text ≡ page_text paper.colour (list_end_runs
        paper.columns (string_bytes report.now.root) report.now.sources.items count unused.now)) }
{
    let (root, sources) = (report.root.as_str(), report.sources.as_slice());
    let mut text = String::new(alloc);
    add_list_end(alloc, &mut text, paper, root, sources, count, unused)?;
    Ok(text)
}

/// Puts among members what a runner needs of a profile as a whole, where it is listed.
fn put_objects(
    members: &mut Map<String, Value>,
    alloc: Global,
    objects: &Option<ExactValue>,
) -> Result<(), AllocError>
    ensures { OnOk result (members_view members.new.entries
        ≡ with_objects objects.now (members_view members.old.entries)) }
{
    match objects {
        Some(objects) => put(members, alloc, "objects", objects.value.clone()?),
        None => Ok(()),
    }
}

/// Puts among members those of the page of a list.
pub(crate) fn put_list(
    members: &mut Map<String, Value>,
    alloc: Global,
    asked: &Asked,
    tests: &[TestRows],
    unused: &[Origin],
    scripts: &ListScripts,
    objects: &Option<ExactValue>,
) -> Result<(), AllocError>
    ensures { OnOk result (members_view members.new.entries
        ≡ with_list asked.now tests.now unused.now scripts.now objects.now
        (members_view members.old.entries)) }
{
    put_requested(members, alloc, "list", asked)?;
    let wrappers = wrappers_json(alloc, &scripts.list_wrappers)?;
    put(members, alloc, "list-wrappers", wrappers)?;
    let setup = texts_json(alloc, &scripts.setup)?;
    put(members, alloc, "setup-scripts", setup)?;
    put(members, alloc, "tests", tests_json(alloc, tests)?)?;
    put(members, alloc, "unused", origins_json(alloc, unused)?)?;
    put_objects(members, alloc, objects)
}
