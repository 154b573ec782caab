//! What is wrong with the files of a session: all that a check finds, the reports that have it, and
//! why a run returns nothing.
#![tactic(auto)]

mod edited_files;
mod failures;
mod file_values;
mod found;
mod leaving_out;
mod loading;
mod refusals;
mod report;
mod search;
mod unknown_keys;
mod value_faults;
mod warned;

pub use failures::find_test;
pub use loading::config_with;
pub use report::{report_of, report_of_refusal, report_of_refused_check};
