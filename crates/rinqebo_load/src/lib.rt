//! What all commands of the program `rinqebo` begin with: the list of tests, the engines, the
//! features and the layers of a request's files, and the load of its configuration.
#![tactic(auto)]

mod engines;
mod failure;
mod fault;
mod find_test;
mod found_test;
mod layer_texts;
mod list_path;
mod missing;
mod printed_host;
mod profiles;
mod reported_request;
mod session;
mod triples;

pub use engines::Engines;
pub use failure::Failure;
pub use fault::{InputFault, OpenFilter, Subject, TripleSource};
pub use found_test::{FoundTest, TestSource};
pub use missing::{Missing, TestFault};
pub use profiles::{chain_of_profile, has_profile, missing_profile};
pub use session::{Config, Session};
pub use triples::Triples;
