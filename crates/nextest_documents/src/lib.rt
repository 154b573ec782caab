//! Documents: the tree of a text, one tree of several layers, and its grounds: which layer shows a
//! path, from which layers the values of profiles come, and which leaves count.
//!
//! A layer is the tree of a source, the lowest one the table of defaults. No setting is known here,
//! and no file.
#![tactic(auto)]

mod along;
mod document;
mod entries;
mod grounds;
mod laid;
mod layer;
mod leaves;
mod merge;
mod section;
mod spelling;

pub use document::{DocumentFault, TextFault, tree_from_text};
pub use entries::{LayerLeaf, entries_of};
pub use grounds::{Grounds, grounds_of};
pub use laid::{Displaced, Laid, lay_upon};
pub use layer::layer_of;
pub use merge::{copy_tree, lay_over};
pub use section::Section;
pub use spelling::key_text;
