//! The lines of a file that show a fault, the signs below them, and the remarks below the finding.
ghost use Rattle.std.specs.Prelude.{◌≡◌, [], ◌∷◌, ◌++◌, OnOk, IfOk, codes, flat_map, string_bytes};
ghost use Rattle.std.specs.Str.{chars};
ghost use Rattle.rinqebo_report.specs.Excerpts.{line_char, line_text, front_width, sign_char, least_width, part_runs, margin_runs, digit_count, number_width, numbered_runs, signs_runs, line_runs, is_beside, shows_beside, has_some, beside_runs, label_runs, excerpt_runs, noted_runs, remark_runs, parts_remarks, parting_runs, help_runs, remarks_runs};
ghost use Rattle.rinqebo_report.specs.Pieces.{ending, page_text};

use crate::finding::{Finding, HelpPlace, LinePart, Sign, SourceLine};
use crate::layout::width;
use crate::piece::{Colour, Piece, Style, add_char, add_end, add_pieces};
use std::alloc::{AllocError, Global};

/// Writes a character of a line: a tab as four spaces.
fn add_line_char(out: &mut String, c: char) -> Result<(), AllocError>
    ensures { OnOk result (string_bytes out.new ≡ string_bytes out.old ++ line_char c) }
{
    if c == '\t' {
        out.push_str("    ")
    } else {
        add_char(out, c)
    }
}

/// Returns a line as pages show it.
fn line_text(alloc: Global, text: &str) -> Result<String, AllocError>
    ensures { IfOk result (λ shown. string_bytes shown ≡ line_text text.now) }
{
    let mut shown = String::new(alloc);
    for c in text.chars() {
        add_line_char(&mut shown, c)?;
    }
    Ok(shown)
}

/// How many columns the first characters of a line take on a page.
fn front_width(alloc: Global, text: &str, count: usize) -> Result<usize, AllocError>
    ensures { IfOk result (λ width. width ≡ front_width text.now count) }
{
    let mut front = String::new(alloc);
    for c in text.chars().take(count) {
        add_line_char(&mut front, c)?;
    }
    Ok(width(front.as_str()))
}

impl Sign {
    /// Its character.
    fn character(self) -> char
        ensures { result ≡ sign_char self }
    {
        match self {
            Sign::Blank => ' ',
            Sign::Fault => '^',
            Sign::Related => '-',
        }
    }

    /// The least number of columns that it takes.
    fn least_width(self) -> usize
        ensures { result ≡ least_width self }
    {
        match self {
            Sign::Blank => 0,
            Sign::Fault | Sign::Related => 1,
        }
    }
}

/// Writes the sign below a part of a line.
fn add_part(
    alloc: Global,
    out: &mut String,
    colour: Colour,
    text: &str,
    part: &LinePart,
) -> Result<(), AllocError>
    ensures { OnOk result (string_bytes out.new ≡ string_bytes out.old
        ++ page_text colour (part_runs text.now part.now)) }
{
    let before = front_width(alloc, text, part.span.from)?;
    let through = front_width(alloc, text, part.span.to)?;
    let sign = part.sign;
    let count = sign.least_width().max(through.saturating_sub(before));
    add_pieces(out, colour, &[Piece::Repeat(sign.character(), count)])
}

/// Writes the signs below parts of a line.
fn add_parts(
    alloc: Global,
    out: &mut String,
    colour: Colour,
    text: &str,
    parts: &[LinePart],
) -> Result<(), AllocError>
    ensures { OnOk result (string_bytes out.new ≡ string_bytes out.old
        ++ page_text colour (flat_map (part_runs text.now) parts.now)) }
{
    for part in parts {
        add_part(alloc, out, colour, text, part)?;
    }
    Ok(())
}

/// Writes the margin of a row.
pub(crate) fn add_margin<'x>(
    out: &mut String,
    colour: Colour,
    margin: usize,
    text: &'x str,
) -> Result<(), AllocError>
    ensures { OnOk result (string_bytes out.new ≡ string_bytes out.old
        ++ page_text colour (margin_runs margin text.now)) }
{
    add_pieces(
        out,
        colour,
        &[
            Piece::Text(Style::Plain, " "),
            Piece::Repeat(' ', margin),
            Piece::Text(Style::Plain, text),
        ],
    )
}

/// How many digits a number has.
fn digit_count(alloc: Global, number: u64) -> Result<usize, AllocError>
    ensures { IfOk result (λ count. count ≡ digit_count number) }
{
    let text = format!(in alloc; "{number}")?;
    Ok(text.len())
}

/// How wide the widest number of lines is.
pub(crate) fn number_width(alloc: Global, lines: &[SourceLine]) -> Result<usize, AllocError>
    ensures { IfOk result (λ width. width ≡ number_width lines.now) }
{
    let mut most = 1usize;
    for line in lines {
        most = most.max(digit_count(alloc, line.number)?);
    }
    Ok(most)
}

/// Writes the number of a line, and its text.
fn add_numbered(
    alloc: Global,
    out: &mut String,
    colour: Colour,
    margin: usize,
    line: &SourceLine,
) -> Result<(), AllocError>
    ensures { OnOk result (string_bytes out.new ≡ string_bytes out.old
        ++ page_text colour (numbered_runs margin line.now)) }
{
    let digits = digit_count(alloc, line.number)?;
    let text = line_text(alloc, line.text.as_str())?;
    add_pieces(
        out,
        colour,
        &[
            Piece::Text(Style::Plain, " "),
            Piece::Repeat(' ', margin.saturating_sub(digits)),
            Piece::Number(line.number),
            Piece::Text(Style::Plain, " | "),
            Piece::Text(Style::Plain, text.as_str()),
        ],
    )
}

/// Writes the signs below the parts of a line.
fn add_signs(
    alloc: Global,
    out: &mut String,
    colour: Colour,
    margin: usize,
    line: &SourceLine,
) -> Result<(), AllocError>
    ensures { OnOk result (string_bytes out.new ≡ string_bytes out.old
        ++ page_text colour (signs_runs margin line.now)) }
{
    add_margin(out, colour, margin, " | ")?;
    add_parts(alloc, out, colour, line.text.as_str(), &line.parts)
}

/// Writes a line and the signs below it, on rows of their own.
fn add_line(
    alloc: Global,
    out: &mut String,
    colour: Colour,
    margin: usize,
    line: &SourceLine,
) -> Result<(), AllocError>
    ensures { OnOk result (string_bytes out.new ≡ string_bytes out.old
        ++ page_text colour (line_runs margin line.now)) }
{
    add_end(out, colour)?;
    add_numbered(alloc, out, colour, margin, line)?;
    add_end(out, colour)?;
    add_signs(alloc, out, colour, margin, line)
}

/// Writes lines and the signs below them.
fn add_lines(
    alloc: Global,
    out: &mut String,
    colour: Colour,
    margin: usize,
    lines: &[SourceLine],
) -> Result<(), AllocError>
    ensures { OnOk result (string_bytes out.new ≡ string_bytes out.old
        ++ page_text colour (flat_map (line_runs margin) lines.now)) }
{
    for line in lines {
        add_line(alloc, out, colour, margin, line)?;
    }
    Ok(())
}

impl HelpPlace {
    /// Whether pages show the help beside the carets.
    fn is_beside(self) -> bool
        ensures { result ≡ is_beside self }
    {
        match self {
            HelpPlace::Beside => true,
            HelpPlace::Below => false,
        }
    }
}

/// Whether there are lines.
pub(crate) fn has_lines(lines: &[SourceLine]) -> bool
    ensures { result ≡ has_some lines.now }
{
    !lines.is_empty()
}

/// Whether there are notes.
fn has_notes(notes: &[String]) -> bool
    ensures { result ≡ has_some notes.now }
{
    !notes.is_empty()
}

impl Finding {
    /// Whether pages show its help beside the carets.
    fn shows_beside(&self) -> bool
        ensures { result ≡ shows_beside self.now }
    {
        has_lines(&self.lines) && self.help_place.is_beside()
    }

    /// Whether remarks follow help that is beside the carets.
    fn parts_remarks(&self) -> bool
        ensures { result ≡ parts_remarks self.now }
    {
        self.shows_beside() && (self.expected.is_some() || has_notes(&self.notes))
    }
}

/// Writes help beside the carets.
fn add_beside(out: &mut String, colour: Colour, help: &Option<String>) -> Result<(), AllocError>
    ensures { OnOk result (string_bytes out.new ≡ string_bytes out.old
        ++ page_text colour (beside_runs help.now)) }
{
    let Some(help) = help else {
        return Ok(());
    };
    add_pieces(
        out,
        colour,
        &[
            Piece::Text(Style::Plain, " "),
            Piece::Text(Style::Help, help.as_str()),
        ],
    )
}

/// Writes the help of a finding beside the carets, if pages show it there.
fn add_label(out: &mut String, colour: Colour, finding: &Finding) -> Result<(), AllocError>
    ensures { OnOk result (string_bytes out.new ≡ string_bytes out.old
        ++ page_text colour (label_runs finding.now)) }
{
    if finding.shows_beside() {
        add_beside(out, colour, &finding.help)
    } else {
        Ok(())
    }
}

/// Writes the lines that show a fault.
pub(crate) fn add_excerpt(
    alloc: Global,
    out: &mut String,
    colour: Colour,
    margin: usize,
    finding: &Finding,
) -> Result<(), AllocError>
    ensures { OnOk result (string_bytes out.new ≡ string_bytes out.old
        ++ page_text colour (excerpt_runs margin finding.now)) }
{
    if !has_lines(&finding.lines) {
        return Ok(());
    }
    add_margin(out, colour, margin, " |")?;
    add_lines(alloc, out, colour, margin, &finding.lines)?;
    add_label(out, colour, finding)?;
    add_end(out, colour)
}

/// Writes a remark below a finding.
fn add_noted<'x>(
    out: &mut String,
    colour: Colour,
    margin: usize,
    word: &'x str,
    text: &'x String,
) -> Result<(), AllocError>
    ensures { OnOk result (string_bytes out.new ≡ string_bytes out.old
        ++ page_text colour (noted_runs margin word.now text.now)) }
{
    add_margin(out, colour, margin, " ")?;
    add_pieces(
        out,
        colour,
        &[
            Piece::Text(Style::Help, word),
            Piece::Text(Style::Plain, text.as_str()),
            Piece::End,
        ],
    )
}

/// Writes a remark below a finding, if there is one.
fn add_remark<'x>(
    out: &mut String,
    colour: Colour,
    margin: usize,
    word: &'x str,
    remark: &'x Option<String>,
) -> Result<(), AllocError>
    ensures { OnOk result (string_bytes out.new ≡ string_bytes out.old
        ++ page_text colour (remark_runs margin word.now remark.now)) }
{
    match remark {
        Some(text) => add_noted(out, colour, margin, word, text),
        None => Ok(()),
    }
}

/// Writes notes below a finding.
fn add_notes(
    out: &mut String,
    colour: Colour,
    margin: usize,
    notes: &[String],
) -> Result<(), AllocError>
    ensures { OnOk result (string_bytes out.new ≡ string_bytes out.old
        ++ page_text colour (flat_map (noted_runs margin (codes "= note: ")) notes.now)) }
{
    for note in notes {
        add_noted(out, colour, margin, "= note: ", note)?;
    }
    Ok(())
}

/// Writes a margin alone, between help beside the carets and remarks.
fn add_parting(
    out: &mut String,
    colour: Colour,
    margin: usize,
    finding: &Finding,
) -> Result<(), AllocError>
    ensures { OnOk result (string_bytes out.new ≡ string_bytes out.old
        ++ page_text colour (parting_runs margin finding.now)) }
{
    if !finding.parts_remarks() {
        return Ok(());
    }
    add_margin(out, colour, margin, " |")?;
    add_end(out, colour)
}

/// Writes the help below a finding, if it is not beside the carets.
fn add_help(
    out: &mut String,
    colour: Colour,
    margin: usize,
    finding: &Finding,
) -> Result<(), AllocError>
    ensures { OnOk result (string_bytes out.new ≡ string_bytes out.old
        ++ page_text colour (help_runs margin finding.now)) }
{
    if finding.shows_beside() {
        Ok(())
    } else {
        add_remark(out, colour, margin, "= help: ", &finding.help)
    }
}

/// Writes the remarks of a finding: what is expected, the notes, and the help.
pub(crate) fn add_remarks(
    out: &mut String,
    colour: Colour,
    margin: usize,
    finding: &Finding,
) -> Result<(), AllocError>
    ensures { OnOk result (string_bytes out.new ≡ string_bytes out.old
        ++ page_text colour (remarks_runs margin finding.now)) }
{
    add_parting(out, colour, margin, finding)?;
    add_remark(out, colour, margin, "= expected: ", &finding.expected)?;
    add_notes(out, colour, margin, &finding.notes)?;
    add_help(out, colour, margin, finding)
}
