//! Findings as pages show them: in full, or a line each.
ghost use Rattle.std.specs.Prelude.{◌≡◌, ◌≤◌, ◌++◌, OnOk, IfOk, flat_map, length, string_bytes, take};
ghost use Rattle.rinqebo_report.specs.OriginText.{path_at};
ghost use Rattle.rinqebo_report.specs.Pages.{level_word, level_style, line_text, spot_text, finding_place, level_text, head_line_runs, head_runs, concise_line_runs, shown_width, caret_runs, expression_runs, apart_runs, arrow_runs, title_line_runs, title_runs, framed_runs, finding_runs, is_refusal, further_runs, findings_runs, concise_runs};
ghost use Rattle.rinqebo_report.specs.Pieces.{page_text};

use crate::excerpt::{add_excerpt, add_margin, add_remarks, has_lines, number_width};
use crate::finding::{CharSpan, Finding, Level, RefusedExpression};
use crate::layout::width;
use crate::origin::{FileLines, FilePlace, Range, Source};
use crate::origin_text::{add_position, path_at};
use crate::piece::{Colour, Piece, Style, add_char, add_end, add_pieces};
use crate::report::Report;
use std::alloc::{AllocError, Global};
use std::fmt::Write;

/// How many findings a page shows.
const SHOWN: usize = 100;

impl Level {
    /// Its word.
    pub(crate) fn word(self) -> &'static str
        ensures { result.now ≡ level_word self }
    {
        match self {
            Level::Error => "error",
            Level::Warning => "warning",
        }
    }

    /// The style in which pages show it.
    fn style(self) -> Style
        ensures { result ≡ level_style self }
    {
        match self {
            Level::Error => Style::Error,
            Level::Warning => Style::Warning,
        }
    }

    /// Whether it refuses.
    pub(crate) fn is_refusal(self) -> bool
        ensures { result ≡ is_refusal self }
    {
        match self {
            Level::Error => true,
            Level::Warning => false,
        }
    }
}

/// Writes a colon, the first of lines, and a column there.
fn add_line(
    out: &mut String,
    lines: Option<FileLines>,
    column: Option<u64>,
) -> Result<(), AllocError>
    ensures { OnOk result (string_bytes out.new
        ≡ string_bytes out.old ++ line_text lines column) }
{
    match (lines, column) {
        (Some(FileLines { first, .. }), Some(column)) => write!(out, ":{first}:{column}"),
        (Some(FileLines { first, .. }), None) => write!(out, ":{first}"),
        (None, _) => Ok(()),
    }
}

/// Writes where a range starts, or else the first of lines, and a column there.
fn add_spot(
    out: &mut String,
    range: Option<Range>,
    lines: Option<FileLines>,
    column: Option<u64>,
) -> Result<(), AllocError>
    ensures { OnOk result (string_bytes out.new
        ≡ string_bytes out.old ++ spot_text range lines column) }
{
    match range {
        Some(Range { start, .. }) => add_position(out, start),
        None => add_line(out, lines, column),
    }
}

/// Where a finding is, before its message.
fn finding_place(
    alloc: Global,
    root: &str,
    sources: &[Source],
    place: Option<FilePlace>,
    column: Option<u64>,
) -> Result<String, AllocError>
    ensures { IfOk result (λ text. string_bytes text
        ≡ finding_place root.now sources.now place column) }
{
    let mut text = String::new(alloc);
    if let Some(place) = place {
        text.push_str(path_at(root, sources, place.source))?;
        add_spot(&mut text, place.range, place.lines, column)?;
        text.push_str(": ")?;
    }
    Ok(text)
}

/// The level of a finding, and its name in brackets.
fn level_text(alloc: Global, finding: &Finding) -> Result<String, AllocError>
    ensures { IfOk result (λ text. string_bytes text ≡ level_text finding.now) }
{
    let word = finding.level.word();
    let code = finding.code.as_str();
    format!(in alloc; "{word}[{code}]")
}

/// Writes a place, a level in its style, and a message.
fn add_head_line<'x>(
    out: &mut String,
    colour: Colour,
    place: &'x str,
    style: Style,
    level: &'x str,
    message: &'x str,
) -> Result<(), AllocError>
    ensures { OnOk result (string_bytes out.new ≡ string_bytes out.old
        ++ page_text colour (head_line_runs place.now style level.now message.now)) }
{
    add_pieces(
        out,
        colour,
        &[
            Piece::Text(Style::Plain, place),
            Piece::Text(style, level),
            Piece::Text(Style::Plain, ": "),
            Piece::Text(Style::Plain, message),
            Piece::End,
        ],
    )
}

/// Writes the first line of a finding, with a message.
fn add_head(
    alloc: Global,
    out: &mut String,
    colour: Colour,
    root: &str,
    sources: &[Source],
    finding: &Finding,
    message: &str,
) -> Result<(), AllocError>
    ensures { OnOk result (string_bytes out.new ≡ string_bytes out.old
        ++ page_text colour (head_runs root.now sources.now finding.now message.now)) }
{
    let place = finding_place(alloc, root, sources, finding.place, finding.column)?;
    let level = level_text(alloc, finding)?;
    let style = finding.level.style();
    add_head_line(out, colour, place.as_str(), style, level.as_str(), message)
}

/// Writes a finding on one line, with its advice.
fn add_concise_line(
    alloc: Global,
    out: &mut String,
    colour: Colour,
    root: &str,
    sources: &[Source],
    finding: &Finding,
) -> Result<(), AllocError>
    ensures { OnOk result (string_bytes out.new ≡ string_bytes out.old
        ++ page_text colour (concise_line_runs root.now sources.now finding.now)) }
{
    let message = finding.message_with_advice(alloc)?;
    add_head(alloc, out, colour, root, sources, finding, message.as_str())
}

/// How many columns the first characters of a text take on a page.
fn shown_width(alloc: Global, text: &str, count: usize) -> Result<usize, AllocError>
    ensures { IfOk result (λ width. width ≡ shown_width text.now count) }
{
    let mut front = String::new(alloc);
    for c in text.chars().take(count) {
        add_char(&mut front, c)?;
    }
    Ok(width(front.as_str()))
}

/// Writes carets below the characters of a span, at least one.
fn add_carets(
    alloc: Global,
    out: &mut String,
    colour: Colour,
    text: &str,
    span: Option<CharSpan>,
) -> Result<(), AllocError>
    ensures { OnOk result (string_bytes out.new ≡ string_bytes out.old
        ++ page_text colour (caret_runs text.now span)) }
{
    let Some(CharSpan { from, to }) = span else {
        return Ok(());
    };
    let before = shown_width(alloc, text, from)?;
    let through = shown_width(alloc, text, to)?;
    add_pieces(
        out,
        colour,
        &[
            Piece::Text(Style::Plain, "    "),
            Piece::Repeat(' ', before),
            Piece::Repeat('^', through.saturating_sub(before).max(1)),
            Piece::End,
        ],
    )
}

/// Writes an expression, and carets below its span.
fn add_expression(
    alloc: Global,
    out: &mut String,
    colour: Colour,
    expression: &Option<RefusedExpression>,
) -> Result<(), AllocError>
    ensures { OnOk result (string_bytes out.new ≡ string_bytes out.old
        ++ page_text colour (expression_runs expression.now)) }
{
    let Some(expression) = expression else {
        return Ok(());
    };
    let text = expression.text.as_str();
    add_pieces(
        out,
        colour,
        &[
            Piece::Text(Style::Plain, "    "),
            Piece::Text(Style::Plain, text),
            Piece::End,
        ],
    )?;
    add_carets(alloc, out, colour, text, expression.span)
}

/// Writes the expression of a finding, if no line shows it.
fn add_apart(
    alloc: Global,
    out: &mut String,
    colour: Colour,
    finding: &Finding,
) -> Result<(), AllocError>
    ensures { OnOk result (string_bytes out.new ≡ string_bytes out.old
        ++ page_text colour (apart_runs finding.now)) }
{
    if has_lines(&finding.lines) {
        Ok(())
    } else {
        add_expression(alloc, out, colour, &finding.expression)
    }
}

/// Where a finding is, on its page: its file, and its line and column there.
fn spot_of(
    alloc: Global,
    root: &str,
    sources: &[Source],
    place: FilePlace,
    column: Option<u64>,
) -> Result<String, AllocError>
    ensures { IfOk result (λ text. string_bytes text ≡ path_at root.now sources.now place.source
        ++ spot_text place.range place.lines column) }
{
    let mut text = String::from_str(alloc, path_at(root, sources, place.source))?;
    add_spot(&mut text, place.range, place.lines, column)?;
    Ok(text)
}

/// Writes where a finding is, on a row of its own.
fn add_arrow(
    alloc: Global,
    out: &mut String,
    colour: Colour,
    margin: usize,
    root: &str,
    sources: &[Source],
    finding: &Finding,
) -> Result<(), AllocError>
    ensures { let f = finding.now in OnOk result (string_bytes out.new ≡ string_bytes out.old
        ++ page_text colour (arrow_runs margin root.now sources.now f.place f.column)) }
{
    let Some(place) = finding.place else {
        return Ok(());
    };
    let spot = spot_of(alloc, root, sources, place, finding.column)?;
    add_margin(out, colour, margin, "--> ")?;
    add_pieces(
        out,
        colour,
        &[Piece::Text(Style::Plain, spot.as_str()), Piece::End],
    )
}

/// Writes a level in its style, and a message.
fn add_title_line<'x>(
    out: &mut String,
    colour: Colour,
    style: Style,
    level: &'x str,
    message: &'x str,
) -> Result<(), AllocError>
    ensures { OnOk result (string_bytes out.new ≡ string_bytes out.old
        ++ page_text colour (title_line_runs style level.now message.now)) }
{
    add_pieces(
        out,
        colour,
        &[
            Piece::Text(style, level),
            Piece::Text(Style::Plain, ": "),
            Piece::Text(Style::Plain, message),
            Piece::End,
        ],
    )
}

/// Writes the first line of a finding on a page.
fn add_title(
    alloc: Global,
    out: &mut String,
    colour: Colour,
    finding: &Finding,
) -> Result<(), AllocError>
    ensures { OnOk result (string_bytes out.new ≡ string_bytes out.old
        ++ page_text colour (title_runs finding.now)) }
{
    let level = level_text(alloc, finding)?;
    let style = finding.level.style();
    add_title_line(out, colour, style, level.as_str(), finding.message.as_str())
}

/// Writes a finding with a margin.
fn add_framed(
    alloc: Global,
    out: &mut String,
    colour: Colour,
    margin: usize,
    root: &str,
    sources: &[Source],
    finding: &Finding,
) -> Result<(), AllocError>
    ensures { OnOk result (string_bytes out.new ≡ string_bytes out.old
        ++ page_text colour (framed_runs margin root.now sources.now finding.now)) }
{
    add_title(alloc, out, colour, finding)?;
    add_arrow(alloc, out, colour, margin, root, sources, finding)?;
    add_excerpt(alloc, out, colour, margin, finding)?;
    add_apart(alloc, out, colour, finding)?;
    add_remarks(out, colour, margin, finding)?;
    add_end(out, colour)
}

/// Writes a finding.
fn add_finding(
    alloc: Global,
    out: &mut String,
    colour: Colour,
    root: &str,
    sources: &[Source],
    finding: &Finding,
) -> Result<(), AllocError>
    ensures { OnOk result (string_bytes out.new ≡ string_bytes out.old
        ++ page_text colour (finding_runs root.now sources.now finding.now)) }
{
    let margin = number_width(alloc, &finding.lines)?;
    add_framed(alloc, out, colour, margin, root, sources, finding)
}

/// The first findings, so many of them.
fn front(findings: &[Finding], count: usize) -> &[Finding]
    requires { count ≤ length findings.now }
    ensures { result.now ≡ take count findings.now }
{
    &findings[..count]
}

/// The findings that a page shows.
#[tactic(auto, using(crate::proofs::Shown::few_are_all))]
fn shown_findings(findings: &[Finding]) -> &[Finding]
    ensures { result.now ≡ take 100 findings.now }
{
    if findings.len() <= SHOWN {
        findings
    } else {
        front(findings, SHOWN)
    }
}

/// Writes findings that a page shows.
fn add_shown(
    alloc: Global,
    out: &mut String,
    colour: Colour,
    root: &str,
    sources: &[Source],
    findings: &[Finding],
) -> Result<(), AllocError>
    ensures { OnOk result (string_bytes out.new ≡ string_bytes out.old
        ++ page_text colour (flat_map (finding_runs root.now sources.now) findings.now)) }
{
    for finding in findings {
        add_finding(alloc, out, colour, root, sources, finding)?;
    }
    Ok(())
}

/// Writes how many findings a page leaves out.
fn add_further(out: &mut String, colour: Colour, further: usize) -> Result<(), AllocError>
    ensures { OnOk result (string_bytes out.new ≡ string_bytes out.old
        ++ page_text colour (further_runs further)) }
{
    if further == 0 {
        return Ok(());
    }
    add_pieces(
        out,
        colour,
        &[
            Piece::Text(Style::Plain, "further findings: "),
            Piece::Number(further as u64),
            Piece::End,
            Piece::End,
        ],
    )
}

/// Writes the findings that a page shows, and how many it leaves out.
pub(crate) fn add_findings(
    alloc: Global,
    out: &mut String,
    colour: Colour,
    report: &Report,
) -> Result<(), AllocError>
    ensures { OnOk result (string_bytes out.new ≡ string_bytes out.old
        ++ page_text colour (findings_runs report.now)) }
{
    let root = report.root.as_str();
    let findings = report.findings.as_slice();
    let sources = report.sources.as_slice();
    add_shown(alloc, out, colour, root, sources, shown_findings(findings))?;
    add_further(out, colour, findings.len().saturating_sub(SHOWN))
}

/// Writes findings, a line each.
pub(crate) fn add_concise(
    alloc: Global,
    out: &mut String,
    colour: Colour,
    report: &Report,
) -> Result<(), AllocError>
    ensures { OnOk result (string_bytes out.new ≡ string_bytes out.old
        ++ page_text colour (concise_runs report.now)) }
{
    let root = report.root.as_str();
    for finding in &report.findings {
        add_concise_line(alloc, out, colour, root, &report.sources, finding)?;
    }
    Ok(())
}
