//! Texts that are copied into a caller's buffer.
ghost use Rattle.std.specs.Prelude.{◌≡◌};
ghost use Rattle.rinqebo_session.specs.Copies.{IsCopiedOut};

use crate::status::{DONE, SMALL};

/// Writes a text at the start of a buffer, or says how long it is.
pub fn copy_out(text: &[u8], out: &mut [u8], needed: &mut usize) -> u32
    ensures { IsCopiedOut text.now out.old out.new needed.new result }
{
    let length = text.len();
    *needed = length;
    if out.len() < length {
        return SMALL;
    }
    out[..length].copy_from_slice(text);
    DONE
}

/// Says why nothing is written.
pub fn copy_nothing(why: u32, needed: &mut usize) -> u32
    ensures status { result ≡ why }
    ensures needed { needed.new ≡ 0 }
{
    *needed = 0;
    why
}
