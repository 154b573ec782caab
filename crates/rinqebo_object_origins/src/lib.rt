//! Where what a profile says for a whole run, and the groups of its configuration, come from.
#![tactic(auto)]

mod beside;
mod objects;

pub use objects::object_origins;
