//! What the program `rinqebo` does, over words, files and writers of a caller's choosing.
//!
//! [`perform`] runs a request over the files that it names, and writes its result: the settings of
//! a test or of each test of a list, the rules of a setting, the leaves of the configuration, or
//! what is wrong with the files. [`answer_of`] returns the result as a value.
#![tactic(auto)]

mod check;
mod codes;
mod explain;
mod open_filters;
mod read_files;
mod run;
mod schemas;
mod unset;
mod why;
mod why_runs;

pub use codes::{print_code, print_codes};
pub use run::{answer_of, perform, refuse_gathering, refuse_words};
pub use schemas::{print_document_schema, print_schema};
