//! Rising lists of rules, kept as one table, and a walk over it that evaluates a rule at most once.
#![tactic(auto)]

mod open_walk;
mod rows;
mod walk;

pub use open_walk::walk_open_rows;
pub use rows::{Listed, Row, build_rows};
pub use walk::{Query, walk_rows};
