//! The elements of a nextest configuration: the readers of all small values, and the texts that
//! have a grammar of their own: identifiers, names of tools, durations.
//!
//! Such a text is read from a text alone, and from a tree by the reader of its kind. Trees and the
//! form of a reader come from `nextest_tree`, and are given on.
#![tactic(auto)]

mod bench;
mod duration;
mod experimental;
mod flaky_result;
mod global_timeout;
mod identifier;
mod identifier_reader;
mod junit;
pub mod laws;
mod leak_timeout;
mod max_fail;
mod nanoseconds;
mod positive;
mod retry_policy;
mod run_mode;
mod setting;
mod slow_timeout;
mod status_level;
mod test_group;
mod test_output_display;
mod test_priority;
mod test_threads;
mod threads_required;

pub use bench::{BenchConfig, BenchOverride};
pub use duration::{DurationError, parse_duration};
pub use experimental::ConfigExperimental;
pub use flaky_result::FlakyResult;
pub use global_timeout::GlobalTimeout;
pub use identifier::{ConfigIdentifier, IdentifierOwner, InvalidIdentifier, ToolName};
pub use junit::{JunitConfig, JunitFlakyFailStatus, JunitImpl, JunitOverride, ReportSkipPolicy};
pub use leak_timeout::{LeakTimeout, LeakTimeoutResult};
pub use max_fail::MaxFail;
pub use nanoseconds::Nanoseconds;
pub use nextest_tree::{
    Element, ElementCause, ElementFault, Ignored, Key, Name, Record, Tree, Walk, law_fault_order,
    optional, read_closed_record, read_record, read_table, required, required_if,
};
pub use positive::Positive;
pub use retry_policy::RetryPolicy;
pub use run_mode::NextestRunMode;
pub use setting::{SETTING_COUNT, Setting};
pub use slow_timeout::{SlowTimeout, SlowTimeoutResult, USUAL_GRACE_PERIOD};
pub use status_level::{FinalStatusLevel, StatusLevel};
pub use test_group::{CustomTestGroup, TestGroup, TestGroupConfig};
pub use test_output_display::TestOutputDisplay;
pub use test_priority::TestPriority;
pub use test_threads::TestThreads;
pub use threads_required::ThreadsRequired;
