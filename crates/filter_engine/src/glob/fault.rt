//! What is wrong with the text of a glob.
ghost use Rattle.std.specs.Prelude.{◌≡◌};

use std::alloc::AllocError;

/// Why no row, part or class is read.
#[derive(Clone, Copy)]
pub enum RowFault {
    /// There is none.
    Malformed,
    /// Memory ran out.
    Memory,
}

impl From<AllocError> for RowFault {
    ghost use Rattle.filter_engine.specs.declared.glob.fault.RowFault.TheVariants.{Memory};

    ghost from_gives = { λ _ fault. fault ≡ Memory };

    fn from(_error: AllocError) -> RowFault {
        RowFault::Memory
    }
}
