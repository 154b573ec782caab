// Why there is no platform.

use std::alloc::AllocError;
use thiserror::Error;

/// Why no platform could be built.
#[derive(Clone, Copy, Debug, PartialEq, Eq, Error)]
pub enum PlatformFault {
    /// The table has no such triple.
    #[error("unknown target triple")]
    UnknownTriple,

    /// The line of this number, counted from 1, is none that the compiler prints.
    #[error("line {0} is not one that `rustc --print cfg` prints")]
    BadLine(usize),

    /// No line says what `target_arch` is, or none what `target_os` is.
    #[error("not what `rustc --print cfg` prints: no `target_arch` or no `target_os`")]
    NotACfgList,

    /// Memory ran out.
    #[error("out of memory")]
    Memory,
}

impl From<AllocError> for PlatformFault {
    ghost use Rattle.std.specs.Prelude.{◌≡◌};
    ghost use Rattle.platform_language.specs.declared.platforms.fault.PlatformFault.TheVariants.{Memory};

    ghost from_gives = { λ _ fault. fault ≡ Memory };

    fn from(_error: AllocError) -> PlatformFault {
        PlatformFault::Memory
    }
}
