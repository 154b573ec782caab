//! The files that a request names: which are read, the sources that they are, with their trees, the
//! lines that bring what is there, and the experimental features that they switch on.

mod document;
mod features;
mod gathering;
mod layers;
mod places;
mod root;

pub use document::{Document, NoDocument};
pub use features::features_of;
pub use gathering::{GatherFault, Gathered, gather};
pub use layers::{
    Layer, host_text, layers_of, place_at, place_of, profile_table, rule_at, rule_table,
    sources_of, target_text, text_at,
};
pub use places::{SpanPart, part_place, path_place};
