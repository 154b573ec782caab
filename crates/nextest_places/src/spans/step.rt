//! The steps from one place of a text to the next.
ghost use Rattle.std.specs.Prelude.{◌≡◌, ◌+◌, ◌++◌, ◌^◌, ◌<◌, [], List, ℕ, MatchOption, encode_utf8, length};
ghost use Rattle.nextest_places.specs.Spans.Positions.{IsStep};

use crate::spans::position::{ColumnUnit, TextPosition};
use toml_parser::text::byte_at;

/// A step from one place of a text to the next.
#[derive(Clone, Copy)]
pub(crate) struct Step {
    /// How many bytes it goes over, at least one.
    pub(crate) len: usize,
    /// The position that it leads to.
    pub(crate) next: TextPosition,
}

/// The step from a place with the position `at`, behind which the text has `rest`, or `None` at
/// its end.
pub(crate) fn next_step(rest: &str, at: TextPosition, unit: ColumnUnit) -> Option<Step>
    requires { at.line + at.column + length rest.now + 8 < 2 ^ 64 }
    ensures { MatchOption result (rest.now ≡ [])
        (λ step. IsStep unit rest.now at step.len step.next) }
{
    let c = rest.chars().next()?;
    let next = at.behind(c, unit);
    if c == '\r' && byte_at(rest, 1) == b'\n' {
        let end = next.behind('\n', unit);
        return Some(Step { len: 2, next: end });
    }
    let len = c.len_utf8();
    Some(Step { len, next })
}
