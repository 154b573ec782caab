//! What rows of all kinds have in common.
use filter_engine::MetadataFault;
use nextest_documents::TextFault;
use std::alloc::{AllocError, AllocFailed};

/// Why a row has no result.
#[derive(Clone, Copy, Debug)]
pub enum RowError {
    /// It is of no kind, or not of the form of its kind.
    NoRow,
    /// Its metadata describes no packages.
    NoGraph(MetadataFault),
    /// There was no memory.
    Memory,
}

impl From<AllocError> for RowError {
    fn from(_error: AllocError) -> RowError {
        RowError::Memory
    }
}

impl<T: Drop> From<AllocFailed<T>> for RowError {
    fn from(_refused: AllocFailed<T>) -> RowError {
        RowError::Memory
    }
}

impl From<TextFault> for RowError {
    fn from(fault: TextFault) -> RowError {
        match fault {
            TextFault::NotDocument(_) => RowError::NoRow,
            TextFault::Memory => RowError::Memory,
        }
    }
}

/// The name of a value that may be unknown.
pub fn name_of(value: Option<bool>) -> &'static str {
    match value {
        Some(true) => "true",
        Some(false) => "false",
        None => "unknown",
    }
}
