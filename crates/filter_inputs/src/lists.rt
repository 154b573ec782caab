//! The tests of a workspace, as `cargo nextest list --message-format json` prints them.

mod case_reader;
mod fault;
mod list;
mod list_reader;
mod place;
mod platforms;
mod suite_reader;
mod suites;
mod text;
mod tokens;
mod values;

pub use fault::ListFault;
pub use list::{ListedBinary, ListedTest, ListedTests, TestCase, queries_of};
pub use text::tests_of;
