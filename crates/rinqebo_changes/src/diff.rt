//! What is reported of two sides.
ghost use Rattle.std.specs.Prelude.{◌≡◌};
ghost use Rattle.rinqebo_changes.specs.Diffs.{is_empty};

use crate::change::{RowChange, TestChanges};
use rinqebo_report::{Asked, Source, TestId};

/// One of the two sides.
#[derive(Drop)]
pub struct Side {
    /// The root of its workspace.
    pub root: String,
    /// Its sources, the lowest first.
    pub sources: Vec<Source>,
    /// Its profile, mode and platforms.
    pub asked: Asked,
}

/// How many tests a binary has.
#[derive(Drop)]
pub struct BinaryTests {
    /// Its id.
    pub binary: String,
    /// The number of its tests.
    pub tests: usize,
}

/// What changes from the left side to the right side.
#[derive(Drop)]
pub struct Diff {
    /// The left side.
    pub from: Side,
    /// The right side.
    pub to: Side,
    /// The tests of both sides of which a setting changes, in the order of the right side's list.
    pub changed: Vec<TestChanges>,
    /// How many tests both sides have.
    pub compared: u64,
    /// The binaries of the right side.
    pub binaries: Vec<BinaryTests>,
    /// The tests of the left side alone.
    pub removed: Vec<TestId>,
    /// The tests of the right side alone.
    pub added: Vec<TestId>,
    /// What changes for the whole run.
    pub run: Vec<RowChange>,
}

impl Diff {
    /// Whether nothing changes.
    pub fn is_empty(&self) -> bool
        ensures { result ≡ is_empty self.now }
    {
        self.changed.is_empty()
            && self.removed.is_empty()
            && self.added.is_empty()
            && self.run.is_empty()
    }
}
