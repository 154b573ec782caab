//! The requests in JSON for a session and for a whole run, the machines that a request names, the
//! experimental features of a load, and the numbers in which a session returns settings.
#![tactic(auto)]

mod document;
mod fault;
mod features;
mod machines;
mod numbers;
mod outcome;
mod request;
mod run_request;
mod values;

pub use document::tree_of;
pub use fault::{ExpectedValue, FieldPlace, Holder, RequestFault};
pub use features::{FEATURES, feature_name, features_by};
pub use machines::{EngineFault, filters_of, open_filters_of, platform_of, platforms_of};
pub use numbers::{
    Duration, GroupThreads, LeakNumbers, RetryNumbers, SlowNumbers, ThreadNumbers, duration_parts,
    flag_number, flaky_number, group_threads, leak_numbers, output_number, report_number,
    retry_numbers, slow_numbers, status_number, thread_numbers,
};
pub use request::{LoadRequest, Machine, Switches};
pub use run_request::RunRequest;
