//! Findings as commands of GitHub's workflows, which show them beside the lines.
ghost use Rattle.std.specs.Prelude.{◌≡◌, ◌++◌, OnOk, IfOk, option_map, flat_map, string_bytes};
ghost use Rattle.std.specs.Str.{chars};
ghost use Rattle.rinqebo_report.specs.Github.{message_char, property_char, file_at, path_property, file_property, lines_property, columns_property, range_property, properties_text, github_line, github_text};

use crate::finding::Finding;
use crate::origin::{FileLines, FilePlace, Range, Source};
use crate::origin_text::below;
use crate::report::Report;
use std::alloc::{AllocError, Global};
use std::fmt::Write;

/// Writes a character of a message.
fn add_message_char(out: &mut String, c: char) -> Result<(), AllocError>
    ensures { OnOk result (string_bytes out.new ≡ string_bytes out.old ++ message_char c) }
{
    match c {
        '%' => out.push_str("%25"),
        '\r' => out.push_str("%0D"),
        '\n' => out.push_str("%0A"),
        _ => out.push(c),
    }
}

/// Writes a character of a property.
fn add_property_char(out: &mut String, c: char) -> Result<(), AllocError>
    ensures { OnOk result (string_bytes out.new ≡ string_bytes out.old ++ property_char c) }
{
    match c {
        ':' => out.push_str("%3A"),
        ',' => out.push_str("%2C"),
        _ => add_message_char(out, c),
    }
}

/// Writes a message.
pub fn add_message(out: &mut String, text: &str) -> Result<(), AllocError>
    ensures { OnOk result (string_bytes out.new
        ≡ string_bytes out.old ++ flat_map message_char (chars text.now)) }
{
    for c in text.chars() {
        add_message_char(out, c)?;
    }
    Ok(())
}

/// Writes the value of a property.
pub fn add_property(out: &mut String, text: &str) -> Result<(), AllocError>
    ensures { OnOk result (string_bytes out.new
        ≡ string_bytes out.old ++ flat_map property_char (chars text.now)) }
{
    for c in text.chars() {
        add_property_char(out, c)?;
    }
    Ok(())
}

/// Writes the properties of lines.
fn add_lines(out: &mut String, lines: Option<FileLines>) -> Result<(), AllocError>
    ensures { OnOk result (string_bytes out.new ≡ string_bytes out.old ++ lines_property lines) }
{
    match lines {
        Some(FileLines { first, last }) => write!(out, "line={first},endLine={last},"),
        None => Ok(()),
    }
}

/// Writes the columns of a range as properties. GitHub takes them if the range is on one line.
fn add_columns(out: &mut String, range: Range) -> Result<(), AllocError>
    ensures { OnOk result (string_bytes out.new ≡ string_bytes out.old ++ columns_property range) }
{
    let Range { start, end } = range;
    if start.line != end.line {
        return Ok(());
    }
    let (from, to) = (start.column, end.column);
    write!(out, "col={from},endColumn={to},")
}

/// Writes the properties of a range, or else of lines.
fn add_range(
    out: &mut String,
    range: Option<Range>,
    lines: Option<FileLines>,
) -> Result<(), AllocError>
    ensures { OnOk result (string_bytes out.new
        ≡ string_bytes out.old ++ range_property range lines) }
{
    let Some(range) = range else {
        return add_lines(out, lines);
    };
    let lines = FileLines {
        first: range.start.line,
        last: range.end.line,
    };
    add_lines(out, Some(lines))?;
    add_columns(out, range)
}

/// The path of the source at a place among sources, if it has one.
fn file_at(sources: &[Source], source: usize) -> Option<&str>
    ensures { option_map (λ path. path.now) result ≡ file_at sources.now source }
{
    match sources.get(source) {
        Some(
            Source {
                path: Some(path),
                ..
            },
        ) => Some(path.as_str()),
        _ => None,
    }
}

/// Writes the properties of a file and of a place in it.
fn add_path(
    out: &mut String,
    workspace: &str,
    place: FilePlace,
    path: Option<&str>,
) -> Result<(), AllocError>
    ensures { OnOk result (string_bytes out.new ≡ string_bytes out.old
        ++ path_property workspace.now place (option_map (λ path. path.now) path.entry)) }
{
    let Some(path) = path else {
        return Ok(());
    };
    out.push_str("file=")?;
    add_property(out, below(workspace, path))?;
    out.push_str(",")?;
    add_range(out, place.range, place.lines)
}

/// Writes the properties of a place.
pub fn add_file(
    out: &mut String,
    workspace: &str,
    sources: &[Source],
    place: Option<FilePlace>,
) -> Result<(), AllocError>
    ensures { OnOk result (string_bytes out.new
        ≡ string_bytes out.old ++ file_property workspace.now sources.now place) }
{
    match place {
        Some(place) => add_path(out, workspace, place, file_at(sources, place.source)),
        None => Ok(()),
    }
}

/// Writes the properties of a finding.
fn add_properties(
    out: &mut String,
    workspace: &str,
    sources: &[Source],
    finding: &Finding,
) -> Result<(), AllocError>
    ensures { OnOk result (string_bytes out.new
        ≡ string_bytes out.old ++ properties_text workspace.now sources.now finding.now) }
{
    add_file(out, workspace, sources, finding.place)?;
    out.push_str("title=")?;
    add_property(out, finding.code.as_str())
}

/// Writes a finding.
fn add_line(
    alloc: Global,
    out: &mut String,
    workspace: &str,
    sources: &[Source],
    finding: &Finding,
) -> Result<(), AllocError>
    ensures { OnOk result (string_bytes out.new
        ≡ string_bytes out.old ++ github_line workspace.now sources.now finding.now) }
{
    let message = finding.message_with_advice(alloc)?;
    out.push_str("::")?;
    out.push_str(finding.level.word())?;
    out.push_str(" ")?;
    add_properties(out, workspace, sources, finding)?;
    out.push_str("::")?;
    add_message(out, message.as_str())?;
    out.push_str("\n")
}

/// The findings of a report, a line each.
pub(crate) fn github_text(
    alloc: Global,
    workspace: &str,
    report: &Report,
) -> Result<String, AllocError>
    ensures { IfOk result (λ text. string_bytes text ≡ github_text workspace.now report.now) }
{
    let mut text = String::new(alloc);
    for finding in &report.findings {
        add_line(alloc, &mut text, workspace, &report.sources, finding)?;
    }
    Ok(text)
}
