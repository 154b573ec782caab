//! Explains what a nextest configuration gives a test, for words, a reader of files and two
//! writers. Filters and platforms are those of two small engines (`engines`).
#![tactic(auto)]

mod command;
pub mod engines;
mod failure;
mod lines;
mod options;
mod program;
mod sources;
mod writing;

pub use program::{explain, refuse_for_memory};
pub use writing::{ExplainFault, explain_all};
