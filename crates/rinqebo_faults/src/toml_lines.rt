//! Lines of texts that are not TOML: where they are at fault, and which ones are shown.
ghost use Rattle.std.specs.Prelude.{◌≡◌, IfOk, OnOk, map, option_map, slice_get, string_bytes};
ghost use Rattle.std.specs.Str.Lines.{lines};
ghost use Rattle.std.specs.Option.{option_copied};
ghost use Rattle.rinqebo_faults.specs.FirstLines.{IsEarlier, first_and_fault, line_range, lines_with_first};
ghost use Rattle.rinqebo_faults.specs.Lines.{shown_view};
ghost use Rattle.rinqebo_faults.specs.Meant.{defined, is_second};
ghost use Rattle.rinqebo_faults.specs.TomlLines.{first_note, from_one, line_at, on_one_line, range_from, start_of, with_line};

use crate::lines::{Mark, char_count, indent_of, lines_of};
use crate::meant::{BadLine, first_definition};
use nextest_places::TextPosition;
use rinqebo_report::{Position, Range, Sign, SourceLine};
use std::alloc::{AllocError, Global};

/// Adds a line to a text, behind a space if the text has something.
#[tactic(auto, unfolding(crate::specs::TomlLines::with_line))]
fn add_line(text: &mut String, line: &str) -> Result<(), AllocError>
    ensures { OnOk result (string_bytes text.new ≡ with_line (string_bytes text.old) line.now) }
{
    if !text.is_empty() {
        text.push(' ')?;
    }
    text.push_str(line)
}

/// A text on one line.
#[tactic(auto, unfolding(crate::specs::TomlLines::on_one_line))]
pub fn on_one_line(alloc: Global, text: &str) -> Result<String, AllocError>
    ensures { IfOk result (λ joined. string_bytes joined ≡ on_one_line text.now) }
{
    let mut joined = String::new(alloc);
    for line in text.lines() {
        add_line(&mut joined, line)?;
    }
    Ok(joined)
}

/// A line or a column as users count it, from 1, of one that is counted from 0.
#[tactic(auto, unfolding(crate::specs::TomlLines::from_one))]
fn from_one(count: usize) -> u64
    ensures { result ≡ from_one count }
{
    (count as u64).saturating_add(1)
}

/// The line of a text, from 0.
fn line_of(text: &str, line: usize) -> Option<&str>
    ensures { option_copied result ≡ slice_get (lines text.now) line }
{
    text.lines().nth(line)
}

/// The line of a text, from 0, that is at fault.
pub fn line_at(text: Option<&str>, line: usize) -> Option<&str>
    ensures { option_copied result ≡ line_at (option_copied text.entry) line }
{
    line_of(text?, line)
}

/// The range of some characters of a line from a position on.
pub fn range_from(start: Position, len: usize) -> Range
    ensures { result ≡ range_from start len }
{
    Range {
        start,
        end: Position {
            line: start.line,
            column: start.column.saturating_add(len as u64),
        },
    }
}

/// A position as users count it, of one that is counted from 0.
pub fn start_of(position: TextPosition) -> Position
    ensures { result ≡ start_of position }
{
    Position {
        line: from_one(position.line),
        column: from_one(position.column),
    }
}

/// The range of a line, from 0, without the blanks around it.
fn line_range(line: &str, place: usize) -> Range
    ensures { result ≡ line_range line.now place }
{
    let start = Position {
        line: from_one(place),
        column: from_one(indent_of(line)),
    };
    range_from(start, char_count(line.trim()))
}

/// The marks of the line that is first, and of a fault.
fn first_and_fault(first: Range, fault: Range) -> [Mark; 2]
    ensures { result ≡ first_and_fault first fault }
{
    [
        Mark {
            sign: Sign::Related,
            range: first,
        },
        Mark {
            sign: Sign::Fault,
            range: fault,
        },
    ]
}

/// The lines of a text that show a range and the line, from 0, that first defines what it does, if
/// one does.
pub fn lines_with_first(
    alloc: Global,
    text: &str,
    fault: Range,
    first: Option<usize>,
) -> Result<Vec<SourceLine>, AllocError>
    ensures { IfOk result (λ shown. map shown_view shown.items
        ≡ lines_with_first text.now fault first) }
{
    let Some(first) = first else {
        return Ok(Vec::new(alloc));
    };
    let line = line_at(Some(text), first).unwrap_or("");
    lines_of(
        alloc,
        text,
        &first_and_fault(line_range(line, first), fault),
    )
}

/// The note that names the line, from 0, that first defines what another one does.
pub fn first_note(alloc: Global, first: Option<usize>) -> Result<Option<String>, AllocError>
    ensures { IfOk result (λ note. option_map string_bytes note ≡ first_note first) }
{
    match first {
        Some(first) => {
            let number = from_one(first);
            Ok(Some(format!(in alloc; "it is first defined in line {number}")?))
        }
        None => Ok(None),
    }
}

/// The line, from 0, that first defines what the line of a text at a position defines, if one does.
pub fn earlier_definition(text: &str, position: TextPosition, bad: BadLine<'_>) -> Option<usize>
    ensures { IsEarlier (lines text.now) position.line (is_second bad.entry.reason.now)
        (defined bad.entry.line.now bad.entry.column) result }
{
    if !bad.is_second() {
        return None;
    }
    first_definition(text, position.line, bad.defined())
}
