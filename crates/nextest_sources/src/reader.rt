//! Where files come from.
ghost use Rattle.std.specs.Prelude.{ℕ, List, IfOk};
ghost use Rattle.nextest_sources.specs.Sources.{Outcome, outcome_view};

use crate::sources::ReadOutcome;
use std::alloc::{AllocError, Global};

/// A source of files: the disk, or a table in memory.
pub trait FileReader {
    /// The outcomes that reading the file at a path may have. Of a disk nothing is known.
    ghost MayGive: { Self → List ℕ → Outcome → Type 0 };

    /// Reads the file at a path.
    ///
    /// # Errors
    ///
    /// [`AllocError`] where memory runs out. A file that can't be read is an outcome.
    fn read(&self, alloc: Global, path: &str) -> Result<ReadOutcome, AllocError>
        ensures { IfOk result (λ outcome. MayGive self.now path.now (outcome_view outcome)) };

    /// Whether there is a folder at a path.
    fn has_folder(&self, path: &str) -> bool;
}
