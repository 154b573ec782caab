//! The files of the disk, and standard input.
use crate::reader::FileReader;
use crate::sources::ReadOutcome;
use std::alloc::{AllocError, Global};
use std::rt::Files;
use std::{fs, io};

/// The files of the disk.
#[derive(Drop)]
pub struct DiskFiles<'rt, R> {
    /// The process's leave to read files.
    pub rt: &'rt R,
}

impl<R: Files + AllocGlobal> FileReader for DiskFiles<'_, R> {
    ghost MayGive = { λ _ _ _. Unit {0} };

    fn read(&self, alloc: Global, path: &str) -> Result<ReadOutcome, AllocError> {
        outcome_of(alloc, fs::read_to_string(self.rt, path))
    }

    fn has_folder(&self, path: &str) -> bool {
        match fs::metadata(self.rt, path) {
            Ok(found) => found.is_dir(),
            Err(_) => false,
        }
    }
}

/// Returns the outcome of a read, of a file or of standard input.
///
/// # Errors
///
/// [`AllocError`] where memory ran out, in the read or for its message.
pub fn outcome_of(alloc: Global, read: io::Result<String>) -> Result<ReadOutcome, AllocError> {
    match read {
        Ok(text) => Ok(ReadOutcome::Text(text)),
        Err(error) => match error.kind() {
            io::ErrorKind::NotFound => Ok(ReadOutcome::NotFound),
            io::ErrorKind::NotADirectory => Ok(ReadOutcome::NotADirectory),
            io::ErrorKind::OutOfMemory => Err(AllocError),
            _ => Ok(ReadOutcome::Failed(error.to_string(alloc)?)),
        },
    }
}
