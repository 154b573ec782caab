//! Positions in texts, and the parts of refused texts, as reports have them.
ghost use Rattle.std.specs.Prelude.{◌≡◌, IfOk, IfSome, count_by};
ghost use Rattle.rinqebo_faults.specs.Positions.{char_span, characters_before, IsExpression, IsRangeIn, IsWrittenAt, position_behind, starts_character};

use nextest_places::offsets_of;
use rinqebo_report::{CharSpan, Position, Range as ReportRange, RefusedExpression};
use std::alloc::{AllocError, Global};
use std::ops::Range;

/// Whether a byte is the first one of a character.
fn starts_character(byte: u8) -> bool
    ensures { result ≡ starts_character byte }
{
    byte < 128 || byte >= 192
}

/// How many characters start among some bytes of a text.
fn starts_among(bytes: &[u8]) -> usize
    ensures { result ≡ count_by starts_character bytes.now }
{
    let mut count = 0usize;
    for byte in bytes {
        if starts_character(*byte) {
            count += 1;
        }
    }
    count
}

/// How many characters of a text start before a byte.
#[tactic(auto, unfolding(crate::specs::Positions::characters_before))]
fn characters_before(text: &str, byte: usize) -> usize
    ensures { result ≡ characters_before text.now byte }
{
    let bytes = text.as_bytes();
    match bytes.get(..byte) {
        Some(front) => starts_among(front),
        None => starts_among(bytes),
    }
}

/// A refused text, and the part of it that is at fault.
pub fn expression(
    alloc: Global,
    text: &str,
    bytes: &Range<usize>,
) -> Result<RefusedExpression, AllocError>
    ensures { IfOk result
        (λ expression. IsExpression text.now bytes.now.start bytes.now.end expression) }
{
    Ok(RefusedExpression {
        text: String::from_str(alloc, text)?,
        span: Some(char_span(text, bytes.start, bytes.end)),
    })
}

/// Returns the position behind a text that starts at a position.
#[tactic(auto, unfolding(crate::specs::Positions::position_behind))]
fn position_behind(start: Position, text: &str) -> Position
    ensures { result ≡ position_behind start text.now }
{
    let mut behind = start;
    for c in text.chars() {
        behind = match c {
            '\n' => Position {
                line: behind.line.saturating_add(1),
                column: 1,
            },
            _ => Position {
                line: behind.line,
                column: behind.column.saturating_add(1),
            },
        };
    }
    behind
}

/// Returns the position at which a token writes the character of its string at a place, given the
/// bytes at which it writes each.
fn position_of(start: Position, token: &str, offsets: &[usize], place: usize) -> Option<Position>
    ensures { IfSome result (λ at. IsWrittenAt start token.now offsets.now place at) }
{
    Some(position_behind(start, token.get(..*offsets.get(place)?)?))
}

/// Returns the range in which the token of a string writes some of its characters, where the token
/// starts at a position.
pub fn range_in(
    alloc: Global,
    start: Position,
    token: &str,
    span: CharSpan,
) -> Result<Option<ReportRange>, AllocError>
    ensures { IfOk result (λ found. IfSome found (λ range. IsRangeIn start token.now span range)) }
{
    let Some(offsets) = offsets_of(alloc, token)? else {
        return Ok(None);
    };
    match (
        position_of(start, token, &offsets, span.from),
        position_of(start, token, &offsets, span.to),
    ) {
        (Some(start), Some(end)) => Ok(Some(ReportRange { start, end })),
        _ => Ok(None),
    }
}

/// The characters of a text between two bytes.
pub fn char_span(text: &str, start: usize, end: usize) -> CharSpan
    ensures { result ≡ char_span text.now start end }
{
    CharSpan {
        from: characters_before(text, start),
        to: characters_before(text, end),
    }
}
