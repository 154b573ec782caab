//! One call for what changes between two runs: it takes two requests in JSON, and writes the
//! document that the program writes for `diff --format json`.

mod comparing;
mod reported;
mod request;

pub use reported::{compare, compared_run};
