//! What a reader refuses, and where.
use std::alloc::Global;
use thiserror::Error;

/// Why a tree is not a value of its schema, and where.
///
/// A reader returns the first fault of its tree, in the order of places.
#[derive(Debug, Drop, Error)]
#[error("`{path}`: {cause}")]
pub struct ElementFault {
    /// Where: keys and positions from the root on, joined by dots. The root is the empty text.
    pub path: String,
    /// Why.
    pub cause: ElementCause,
}

/// What is wrong with a value.
#[derive(Debug, Drop, Error)]
pub enum ElementCause {
    /// A value of another kind than the schema's, as a text in place of a number.
    #[error("a value of the wrong kind")]
    WrongKind,
    /// The table lacks this key.
    #[error("missing field `{0}`")]
    Missing(String),
    /// A text or a key outside its list of names or its grammar.
    #[error("invalid value `{given}`, expected {expected}")]
    BadValue {
        /// The text or the key that is there.
        given: String,
        /// What may be there.
        expected: &'static str,
    },
    /// A number outside its range, or a list that is empty and must not be.
    #[error("out of range")]
    OutOfRange,
    /// A key that its table refuses.
    #[error("unknown field")]
    UnknownField,
    /// A refusal of memory. No path comes with it.
    #[error("out of memory")]
    Memory,
}

impl ElementFault {
    ghost use Rattle.std.specs.Prelude.{◌≡◌, None};
    ghost use Rattle.nextest_tree.specs.Reads.{fault_view};

    /// Memory was refused.
    #[tactic(auto, unfolding(crate::specs::Reads::fault_view))]
    pub fn memory(alloc: Global) -> ElementFault
        ensures { fault_view result ≡ None }
    {
        ElementFault {
            path: String::new(alloc),
            cause: ElementCause::Memory,
        }
    }
}
