//! The keys of settings, as files write them and as a command line names them.
#![tactic(auto)]

mod keys;

pub use keys::{RUNS, SettingKey, all_keys, run_key, setting_of, settings_of};
