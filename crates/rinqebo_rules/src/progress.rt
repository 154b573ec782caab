//! How far a list is.

/// Receives how far a list is.
pub trait Progress {
    /// So many tests of all are done.
    fn asked(&mut self, done: usize, all: usize);
}

/// Ignores how far a list is.
#[derive(Drop)]
pub struct NoProgress;

impl Progress for NoProgress {
    fn asked(&mut self, _done: usize, _all: usize) {}
}
