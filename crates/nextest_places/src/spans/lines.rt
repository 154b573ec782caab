//! The lines of a text, found once.
ghost use Rattle.std.specs.Prelude.{◌≡◌, ◌≤◌, ◌+◌, ◌^◌, ◌<◌, List, ℕ, IfOk, IfSome};
ghost use Rattle.std.specs.Str.{IsCharBoundary};
ghost use Rattle.nextest_places.specs.Spans.Lines.{AreLineStarts, IsLineStart};
ghost use Rattle.nextest_places.specs.Spans.Positions.{position_of};

use crate::spans::position::{ColumnUnit, TextPosition, end_from, position_at};
use crate::spans::step::next_step;
use std::alloc::{AllocError, Global};
use std::marker::Model;

/// A text with the bytes at which its lines begin, so that the position of a byte is found by a
/// walk over its own line.
#[derive(Drop)]
pub struct LineIndex<'a> {
    text: &'a str,
    starts: Vec<usize>,
}

impl<'a> Model for LineIndex<'a> {
    ghost Value = { List ℕ };

    ghost view = { λ index. index.text.now };

    ghost invariant = { λ index. AreLineStarts index.text.now index.starts.items };
}

/// Where a line begins.
#[derive(Clone, Copy)]
pub(crate) struct LineStart {
    /// The line, from 0.
    pub(crate) line: usize,
    /// Its first byte.
    pub(crate) byte: usize,
}

impl<'a> LineIndex<'a> {
    /// Finds the lines of a text.
    ///
    /// # Errors
    /// Memory was refused.
    pub fn of(alloc: Global, text: &'a str) -> Result<LineIndex<'a>, AllocError>
        ensures { IfOk result (λ index. index ≡ text.now) }
    {
        let starts = line_starts(alloc, text)?;
        Ok(LineIndex { text, starts })
    }

    /// The position of a byte, as `position_at` returns it.
    pub fn position_at(&self, byte: usize, unit: ColumnUnit) -> TextPosition
        requires { IsCharBoundary self.now byte }
        ensures position { result ≡ position_of unit self.now byte }
        ensures fits { result.line + result.column + 1 < 2 ^ 64 }
    {
        match self.line_before(byte) {
            Some(start) => position_behind(self.text, start, byte, unit),
            None => position_at(self.text, byte, unit),
        }
    }

    /// The byte at which a line begins, by its number from 0, or `None` behind the last line.
    pub fn start_of(&self, line: usize) -> Option<usize>
        ensures { IfSome result (IsLineStart self.now line) }
    {
        self.starts.get(line).copied()
    }

    /// Where the line of a byte begins.
    fn line_before(&self, byte: usize) -> Option<LineStart>
        ensures { IfSome result (λ start.
            IsLineStart self.now start.line start.byte × (start.byte ≤ byte)) }
    {
        let count = self.starts.partition_point(|start| *start <= byte);
        let line = count.checked_sub(1)?;
        match self.starts.get(line) {
            Some(start) if *start <= byte => Some(LineStart { line, byte: *start }),
            _ => None,
        }
    }
}

/// The position of a byte, given where a line begins before it.
fn position_behind(text: &str, start: LineStart, byte: usize, unit: ColumnUnit) -> TextPosition
    requires boundary { IsCharBoundary text.now byte }
    requires line { IsLineStart text.now start.line start.byte }
    requires before { start.byte ≤ byte }
    ensures position { result ≡ position_of unit text.now byte }
    ensures fits { result.line + result.column + 1 < 2 ^ 64 }
{
    let at = TextPosition {
        line: start.line,
        column: 0,
    };
    end_from(&text[..byte], start.byte, at, unit)
}

/// The bytes at which the lines of a text begin: the first line at byte 0, and each further one
/// behind a line feed.
fn line_starts(alloc: Global, text: &str) -> Result<Vec<usize>, AllocError>
    ensures { IfOk result (λ starts. AreLineStarts text.now starts.items) }
{
    let mut starts = Vec::new(alloc);
    starts.push(0)?;
    let mut byte = 0;
    let mut at = TextPosition::START;
    'places: while let Some(step) = next_step(&text[byte..], at, ColumnUnit::Byte) {
        byte += step.len;
        if step.next.line != at.line {
            starts.push(byte)?;
        }
        at = step.next;
    }
    Ok(starts)
}
