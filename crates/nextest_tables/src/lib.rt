//! The tables of a configuration file: their readers, and the table of defaults.
//!
//! A table is read into what it writes, value by value. No rule is compiled here, and no source is
//! known.
#![tactic(auto)]

mod defaults;
mod fields;
mod file_table;
mod override_table;
mod platform_strings;
mod profile_table;
mod script_rule_table;

pub use defaults::{DEFAULT_CONFIG, default_tree, law_defaults};
pub use file_table::{FileTable, ScriptsTable, read_file};
pub use override_table::{OverrideOutputs, OverrideRuns, OverrideSettings, OverrideTable};
pub use platform_strings::PlatformStrings;
pub use profile_table::{ProfileEnds, ProfileFields, ProfileOutputs, ProfileRuns, ProfileTable};
pub use script_rule_table::{ScriptRuleTable, ScriptUses};
