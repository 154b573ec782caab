//! Trees of documents, and the form of every reader of a tree.
//!
//! A reader returns the value that a tree spells, or the tree's first fault, and notes the keys
//! that no schema knows.
#![tactic(auto)]

mod element;
mod fault;
mod field;
mod key;
mod law;
mod list;
mod map;
mod name;
mod table;
mod taken;
mod text;
mod tree;
mod value;
mod walk;

pub use element::{Element, Name, Record};
pub use fault::{ElementCause, ElementFault};
pub use field::{optional, required, required_if};
pub use key::Key;
pub use law::law_fault_order;
pub use name::read_one_of;
pub use table::{read_closed_record, read_record, read_table};
pub use text::Ignored;
pub use tree::Tree;
pub use walk::Walk;
