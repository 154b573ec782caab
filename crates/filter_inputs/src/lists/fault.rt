//! Faults of lists of tests.
use crate::fields::Misfit;
use std::alloc::{AllocError, AllocFailed};
use thiserror::Error;

/// Why no list of tests can be read from a text. A path is written as its keys, with dots between
/// them.
#[derive(Debug, Drop, Error)]
pub enum ListFault {
    /// The text isn't JSON.
    #[error("line {line}, column {column}: not valid JSON")]
    NotJson {
        /// The line of the first error, from 1.
        line: usize,
        /// The column in that line, from 1.
        column: usize,
    },
    /// The value at a path isn't of the type that is wanted, or is missing.
    #[error("{0}")]
    Misfit(Misfit<String>),
    /// The string at a path is neither `host` nor `target`.
    #[error("`{place}` is `{given}`: expected `host` or `target`")]
    UnknownPlatform {
        /// The path.
        place: String,
        /// The string.
        given: String,
    },
    /// An allocation failed.
    #[error("out of memory")]
    Memory,
}

impl From<AllocError> for ListFault {
    ghost use Rattle.std.specs.Prelude.{◌≡◌};
    ghost use Rattle.filter_inputs.specs.declared.lists.fault.ListFault.TheVariants.{Memory};

    ghost from_gives = { λ _ fault. fault ≡ Memory };

    fn from(_error: AllocError) -> ListFault {
        ListFault::Memory
    }
}

impl<T: Drop> From<AllocFailed<T>> for ListFault {
    ghost use Rattle.std.specs.Prelude.{◌≡◌};
    ghost use Rattle.filter_inputs.specs.declared.lists.fault.ListFault.TheVariants.{Memory};

    ghost from_gives = { λ _ fault. fault ≡ Memory };

    fn from(_error: AllocFailed<T>) -> ListFault {
        ListFault::Memory
    }
}
