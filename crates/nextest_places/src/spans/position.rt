//! Positions, and the bytes at them.
ghost use Rattle.std.specs.Prelude.{◌≡◌, ◌+◌, ◌^◌, ◌<◌, ◌↔◌, ℕ, IsTrue};
ghost use Rattle.std.specs.Str.{IsCharBoundary, chars};
ghost use Rattle.nextest_places.specs.Spans.Positions.{IsBefore, IsByteAt, IsPlace, behind, position_behind, position_of, width};

use crate::spans::step::next_step;

/// What a column counts.
#[derive(Clone, Copy, Debug, PartialEq, Eq)]
pub enum ColumnUnit {
    /// The bytes of UTF-8.
    Byte,
    /// Characters, that is, Unicode scalar values.
    Char,
    /// The units of UTF-16: two for a character beyond U+FFFF, else one.
    Utf16,
}

impl ColumnUnit {
    /// How many units a character counts, from 1 to 4.
    pub fn width(self, c: char) -> usize
        ensures { result ≡ width self c }
    {
        match self {
            ColumnUnit::Byte => c.len_utf8(),
            ColumnUnit::Char => 1,
            ColumnUnit::Utf16 => c.len_utf16(),
        }
    }
}

/// A position in a text. A line ends with a line feed, and a carriage return right before that
/// belongs to the line's end.
#[derive(Clone, Copy, Debug, PartialEq, Eq)]
pub struct TextPosition {
    /// The line, from 0.
    pub line: usize,
    /// The units before the position on its line, so from 0.
    pub column: usize,
}

impl TextPosition {
    /// The start of a text.
    pub const START: TextPosition = TextPosition { line: 0, column: 0 };

    /// Whether the position is on an earlier line than the other one, or earlier on its line.
    pub fn is_before(self, other: TextPosition) -> bool
        ensures { IsTrue result ↔ IsBefore self other }
    {
        self.line < other.line || (self.line == other.line && self.column < other.column)
    }

    /// The position behind a character at this one.
    pub(crate) fn behind(self, c: char, unit: ColumnUnit) -> TextPosition
        requires { self.line + self.column + 4 < 2 ^ 64 }
        ensures { result ≡ behind unit self c }
    {
        if c == '\n' {
            return TextPosition {
                line: self.line + 1,
                column: 0,
            };
        }
        TextPosition {
            line: self.line,
            column: self.column + unit.width(c),
        }
    }
}

/// The position of a byte: the line feeds before it, and the units since the last of these.
///
/// The byte is the first one of a character or the text's end (`str::floor_char_boundary` leads
/// there). Within a line's end, the carriage return counts as a character of the line.
pub fn position_at(text: &str, byte: usize, unit: ColumnUnit) -> TextPosition
    requires { IsCharBoundary text.now byte }
    ensures position { result ≡ position_of unit text.now byte }
    ensures fits { result.line + result.column + 1 < 2 ^ 64 }
{
    end_of(&text[..byte], unit)
}

/// The position of a text's end.
fn end_of(text: &str, unit: ColumnUnit) -> TextPosition
    ensures { result ≡ position_behind unit (chars text.now) }
{
    end_from(text, 0, TextPosition::START, unit)
}

/// The position of a text's end, given a place in the text and its position.
pub(crate) fn end_from(
    text: &str,
    place: usize,
    start: TextPosition,
    unit: ColumnUnit,
) -> TextPosition
    requires place { IsPlace text.now place }
    requires position { start ≡ position_of unit text.now place }
    ensures { result ≡ position_behind unit (chars text.now) }
{
    let mut byte = place;
    let mut at = start;
    'places: while let Some(step) = next_step(&text[byte..], at, unit) {
        byte += step.len;
        at = step.next;
    }
    at
}

/// The byte at a position: the last place in the text that is not behind it. So it is at
/// most the end of the position's line, before the line feed and a carriage return right before
/// that, and at most the text's end. Within a character's units it is the byte before that
/// character.
pub fn byte_at(text: &str, position: TextPosition, unit: ColumnUnit) -> usize
    ensures last { IsByteAt unit text.now position result }
    ensures inverse { (byte : ℕ) → IsPlace text.now byte
        → position_of unit text.now byte ≡ position → result ≡ byte }
{
    let mut byte = 0;
    let mut at = TextPosition::START;
    'places: while let Some(step) = next_step(&text[byte..], at, unit) {
        if position.is_before(step.next) {
            return byte;
        }
        byte += step.len;
        at = step.next;
    }
    byte
}
