//! The version of the library.
ghost use Rattle.std.specs.Prelude.{◌≡◌};
ghost use Rattle.rinqebo_session.specs.Copies.{IsCopiedOut};
ghost use Rattle.rinqebo_session.specs.Versions.{version_text, version_number};

use crate::copies::copy_out;

/// The version, as the program prints it.
pub const VERSION: &str = "0.2.0";
/// The first of its numbers.
pub const MAJOR: u32 = 0;
/// The second.
pub const MINOR: u32 = 2;
/// The third.
pub const PATCH: u32 = 0;

/// Copies out the version, as a text.
pub fn copy_version(out: &mut [u8], needed: &mut usize) -> u32
    ensures { IsCopiedOut (version_text MAJOR MINOR PATCH) out.old out.new needed.new result }
{
    copy_out(VERSION.as_bytes(), out, needed)
}

/// The version, as a number: a later version has a higher one.
pub fn version_number() -> u32
    ensures { result ≡ version_number MAJOR MINOR PATCH }
{
    MAJOR * 1_000_000 + MINOR * 1_000 + PATCH
}
