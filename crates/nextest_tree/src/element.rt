//! What a reader is: of a value, of a table of fields, and of a name that keys a map.
//!
//! The contract of every reader is one equation,
//! `Gives result walk.new (reading schema node walk)`. Its result is Ok exactly if the tree has
//! no fault (unless memory runs out), and then the walk has noted exactly the tree's unknown paths
//! and is where it was. Any other refusal but one of memory is the tree's first fault.
ghost use Rattle.std.specs.Prelude.{◌≡◌, IfOk, IfErr, OnOk, List, Option, ℕ, None};
ghost use Rattle.std.specs.Ordering.{nat_cmp};
ghost use Rattle.std.specs.Cmp.Lexicographic.{slice_cmp};
ghost use Rattle.nextest_tree.specs.Node.{Node, Entries};
ghost use Rattle.nextest_tree.specs.View.{tree_view, entries_view};
ghost use Rattle.nextest_tree.specs.Schema.{FaultCause, Schema, Fields, names_of};
ghost use Rattle.nextest_tree.specs.Reads.{Gives, Fails, test_outcome, walk_view, reading, reading_fields};

use crate::fault::ElementFault;
use crate::key::Key;
use crate::tree::Tree;
use crate::walk::Walk;
use std::alloc::Global;
use std::collections::BTreeMap;

/// A value of the configuration.
pub trait Element: Sized + Drop {
    /// What its tree may contain.
    ghost schema: { Schema };

    /// Holds of a node and the value that it spells.
    ghost is_value: { Node → Self → Type 0 };

    /// Reads the value of a tree.
    fn read(alloc: Global, tree: &Tree, walk: &mut Walk) -> Result<Self, ElementFault>
        ensures value { IfOk result (is_value (tree_view tree.now)) }
        ensures reads { Gives result walk.new
            (reading schema (tree_view tree.now) (walk_view walk.old)) };
}

/// A value that a table of fields spells.
pub trait Record: Sized + Drop {
    /// Its fields, in the order in which they are read.
    ghost fields: { Fields };

    /// Holds of a table and the value that it spells.
    ghost is_record: { Entries → Self → Type 0 };

    /// The keys that the table knows.
    fn keys() -> &'static [Key]
        ensures { result.now ≡ names_of fields };

    /// Reads the fields in order.
    fn read_fields(
        alloc: Global,
        members: &BTreeMap<String, Tree>,
        walk: &mut Walk,
    ) -> Result<Self, ElementFault>
        ensures value { IfOk result (is_record (entries_view members.now.entries)) }
        ensures reads { Gives result walk.new
            (reading_fields fields (entries_view members.now.entries) (walk_view walk.old)) };
}

/// A name that keys a map.
pub trait Name: Sized + Drop + Ord {
    /// Which texts are refused.
    ghost test: { List ℕ → Option FaultCause };

    /// The text of the name.
    ghost text: { Self → List ℕ };

    /// Reads the name that the walk is at.
    fn read_name(alloc: Global, key: &str, walk: &Walk) -> Result<Self, ElementFault>
        ensures value { IfOk result (λ name. text name ≡ key.now) }
        ensures passed { OnOk result (test key.now ≡ None) }
        ensures fault { IfErr result
            (λ e. Fails e (test_outcome (test key.now) (walk_view walk.now))) };

    /// Names are ordered by their texts.
    ghost ordered: { (a b : Self) → Self.cmp a b ≡ slice_cmp nat_cmp (text a) (text b) };
}
