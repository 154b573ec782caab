//! What may be at the places of a file, as data.
use crate::faults::across::{Across, AcrossItems, Names, Need};
use crate::faults::leaf::Leaf;
use nextest_tree::Key;

/// What a table does with a key that is none of its fields.
#[derive(Clone, Copy, Debug, PartialEq, Eq)]
pub(crate) enum Others {
    /// It is not a fault.
    Noted,
    /// It is refused.
    Refused,
}

/// A key of a table, and what may be there.
#[derive(Debug, Drop)]
pub(crate) struct Field<P> {
    /// The key.
    pub(crate) key: Key,
    /// Whether it has to be there.
    pub(crate) need: Need,
    /// What may be there.
    pub(crate) place: P,
}

/// What may be at a place of a file, and below it.
#[derive(Debug, Drop)]
pub(crate) enum Place {
    /// Anything: it is never looked into.
    Anything,
    /// A value of a kind.
    Leaf(Leaf),
    /// A table of fields.
    Table {
        /// Whether its other keys are refused.
        others: Others,
        /// What may be there that is not a table.
        other: Box<Place>,
        /// The fields, in the order in which they are read.
        fields: Vec<Field<Place>>,
        /// A test over several of them.
        across: Across,
    },
    /// A table of values under names.
    Map {
        /// What each name is.
        names: Names,
        /// What is under each.
        values: Box<Place>,
    },
    /// An array.
    List {
        /// What may be there that is not an array.
        other: Box<Place>,
        /// What each item is.
        items: Box<Place>,
        /// A test of the whole.
        across: AcrossItems,
    },
}
