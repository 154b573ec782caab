//! One call for a whole run: it takes a request in JSON, and writes the document that the program
//! writes for `list --all --format json`. And one call for what changes between two runs
//! (`comparison`): it takes two requests.
#![tactic(auto)]

mod asking;
mod comparison;
mod ending;
mod resolving;
mod run;

pub use asking::{RequestedRun, parted};
pub use comparison::{compare, compared_run};
pub use ending::Ending;
pub use resolving::{ending_of_failure, resolve};
pub use run::Run;
