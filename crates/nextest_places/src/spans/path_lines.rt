//! Bytes and the lines that they are on.
ghost use Rattle.std.specs.Prelude.{◌≡◌};
ghost use Rattle.std.specs.Bool.{OnTrue};
ghost use Rattle.nextest_places.specs.Spans.Spans.{IsOnLines};

use crate::place::Lines;
use crate::spans::lines::LineIndex;
use crate::spans::position::ColumnUnit;
use crate::spans::token::Span;

/// Whether some bytes of a text are whole characters that lie in some of its lines.
pub(crate) fn is_on_lines(text: &str, index: &LineIndex, lines: Lines, span: Span) -> bool
    requires { index.now ≡ text.now }
    ensures { OnTrue result (IsOnLines text.now lines span) }
{
    if !text.is_char_boundary(span.start) || !text.is_char_boundary(span.end) {
        return false;
    }
    let first = index.position_at(span.start, ColumnUnit::Char).line;
    let last = index.position_at(span.end, ColumnUnit::Char).line;
    lines.first <= first.saturating_add(1) && last < lines.last
}
