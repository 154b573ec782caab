//! Laws of positions and offsets.
ghost use Rattle.std.specs.Prelude.{◌≡◌};
ghost use Rattle.nextest_places.specs.Spans.Positions.{IsPlace};
ghost use Rattle.nextest_places.specs.Spans.Law.{OffsetsReopen, PositionsRise};

use crate::spans::position::{ColumnUnit, byte_at, position_at};

/// Of two bytes between characters, the earlier one has the earlier position.
pub fn law_positions_rise()
    ensures { PositionsRise }
{}

/// The byte at the position of a byte is that byte, unless it is within a character or within
/// a line's end.
pub fn law_positions(text: &str, byte: usize, unit: ColumnUnit) -> usize
    requires { IsPlace text.now byte }
    ensures { result ≡ byte }
{
    byte_at(text, position_at(text, byte, unit), unit)
}

/// Opened anew where its token writes a character, a string has the characters from that one on.
pub fn law_offsets_reopen()
    ensures { OffsetsReopen }
{}
