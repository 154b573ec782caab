//! The lines of a text that show parts of it.
ghost use Rattle.std.specs.Prelude.{◌≡◌, ◌<◌, ◌-◌, ◌==◌, ℕ, List, [], ◌∷◌, ◌++◌, IfOk, OnOk, length, map, option_map};
ghost use Rattle.std.specs.Option.{option_to_list};
ghost use Rattle.std.specs.Str.{chars};
ghost use Rattle.rinqebo_report.specs.declared.finding.LinePart.{LinePart};
ghost use Rattle.rinqebo_faults.specs.Lines.{blank, end_of, indent_of, is_shown, last_shown, line_parts, parts_from, shown_lines, shown_view, shown_with, span_in};

use rinqebo_report::{CharSpan, LinePart, Range, Sign, SourceLine};
use std::alloc::{AllocError, Global};

/// How many lines a finding has at most.
const MOST_LINES: usize = 3;

/// A part of a file, and the sign below it.
#[derive(Clone, Copy)]
pub struct Mark {
    /// The sign.
    pub sign: Sign,
    /// Where the part is.
    pub range: Range,
}

/// Returns the last line that is shown of a range: its first one, if it has too many.
#[tactic(auto, unfolding(crate::specs::Lines::last_shown))]
fn last_shown(range: Range) -> u64
    ensures { result ≡ last_shown range }
{
    let lines = range.end.line.saturating_sub(range.start.line);
    if lines < MOST_LINES as u64 {
        range.end.line
    } else {
        range.start.line
    }
}

/// Returns the place of a column, which counts from 1, among the characters of a line.
fn character_at(column: u64) -> usize
    ensures { result ≡ column - 1 }
{
    column.saturating_sub(1) as usize
}

/// Returns how many characters of a line are before the first that is not white space.
pub fn indent_of(line: &str) -> usize
    ensures { result ≡ indent_of line.now }
{
    line.chars().take_while(|c| c.is_whitespace()).count()
}

/// Returns how many characters a line has.
pub fn char_count(line: &str) -> usize
    ensures { result ≡ length (chars line.now) }
{
    line.chars().count()
}

/// Whether a line shows some of a range.
#[tactic(auto, unfolding(crate::specs::Lines::is_shown))]
fn is_shown(range: Range, number: u64) -> bool
    ensures { result ≡ is_shown range number }
{
    range.start.line <= number && number <= last_shown(range)
}

/// Returns the characters of a line that lie in a range.
#[tactic(auto, unfolding(crate::specs::Lines::span_in))]
fn span_in(range: Range, number: u64, line: &str) -> CharSpan
    ensures { result ≡ span_in range number line.now }
{
    let from = if number == range.start.line {
        character_at(range.start.column)
    } else {
        indent_of(line)
    };
    let to = if number == range.end.line {
        character_at(range.end.column)
    } else {
        char_count(line)
    };
    CharSpan { from, to }
}

/// Adds the blank part before a part of a line, if it has characters.
fn add_blank(parts: &mut Vec<LinePart>, from: usize, to: usize) -> Result<(), AllocError>
    ensures { OnOk result (parts.new.items ≡ parts.old.items ++ blank from to) }
{
    if from >= to {
        return Ok(());
    }
    parts.push(LinePart {
        sign: Sign::Blank,
        span: CharSpan { from, to },
    })?;
    Ok(())
}

/// Returns the character behind a part, which has at least one.
fn end_of(part: LinePart) -> usize
    ensures { result ≡ end_of part }
{
    part.span.to.max(part.span.from.saturating_add(1))
}

/// Adds a part of a line, and the blank part before it, unless the parts so far reach behind its
/// start. Returns where they end.
fn add_part(parts: &mut Vec<LinePart>, end: usize, part: LinePart) -> Result<usize, AllocError>
    ensures { IfOk result (λ behind. (rest : List LinePart)
        → (parts.new.items ++ parts_from behind rest
        ≡ parts.old.items ++ parts_from end (part ∷ rest))) }
{
    if part.span.from < end {
        return Ok(end);
    }
    add_blank(parts, end, part.span.from)?;
    parts.push(part)?;
    Ok(end_of(part))
}

/// Returns the parts of a line, up to the last one with a sign. Marks come in the order of their
/// starts.
fn parts_of(
    alloc: Global,
    marks: &[Mark],
    number: u64,
    line: &str,
) -> Result<Vec<LinePart>, AllocError>
    ensures { IfOk result (λ parts. parts.items ≡ line_parts marks.now number line.now) }
{
    let mut parts = Vec::new(alloc);
    let mut end = 0usize;
    for mark in marks {
        if is_shown(mark.range, number) {
            let sign = mark.sign;
            let span = span_in(mark.range, number, line);
            end = add_part(&mut parts, end, LinePart { sign, span })?;
        }
    }
    Ok(parts)
}

/// Returns the last line that is shown of some parts of a file.
fn last_line(marks: &[Mark]) -> u64
    ensures { (number : ℕ) → result < number → (line : List ℕ)
        → line_parts marks.now number line ≡ [] }
{
    let mut last = 0u64;
    for mark in marks {
        last = last.max(last_shown(mark.range));
    }
    last
}

/// Returns a line with its parts, if it shows some marks.
fn shown_line(
    alloc: Global,
    marks: &[Mark],
    number: u64,
    line: &str,
) -> Result<Option<SourceLine>, AllocError>
    ensures { IfOk result (λ shown. option_map shown_view shown
        ≡ shown_with number line.now (line_parts marks.now number line.now)) }
{
    let parts = parts_of(alloc, marks, number, line)?;
    if parts.is_empty() {
        return Ok(None);
    }
    let text = String::from_str(alloc, line)?;
    Ok(Some(SourceLine {
        number,
        text,
        parts,
    }))
}

/// Adds a line that shows marks, if it is one.
fn add_shown(shown: &mut Vec<SourceLine>, line: Option<SourceLine>) -> Result<(), AllocError>
    ensures { OnOk result (map shown_view shown.new.items
        ≡ map shown_view shown.old.items ++ option_to_list (option_map shown_view line)) }
{
    if let Some(line) = line {
        shown.push(line)?;
    }
    Ok(())
}

/// Whether a finding has no room for more lines.
fn is_full(shown: &Vec<SourceLine>) -> bool
    ensures { result ≡ (length shown.now.items == 3) }
{
    shown.len() == MOST_LINES
}

/// Returns the lines of a text that show marks, three at most. Marks come in the order of their
/// starts.
#[tactic(auto, unfolding(crate::specs::Lines::shown_lines))]
pub fn lines_of(alloc: Global, text: &str, marks: &[Mark]) -> Result<Vec<SourceLine>, AllocError>
    ensures { IfOk result (λ shown. map shown_view shown.items ≡ shown_lines marks.now text.now) }
{
    let mut shown = Vec::new(alloc);
    let mut number = 0u64;
    for line in text.lines().take(last_line(marks) as usize) {
        number = number.saturating_add(1);
        let part = shown_line(alloc, marks, number, line)?;
        add_shown(&mut shown, part)?;
        if is_full(&shown) {
            return Ok(shown);
        }
    }
    Ok(shown)
}
