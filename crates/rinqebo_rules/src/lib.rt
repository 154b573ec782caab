//! The rules of a chain of profiles, as the program `rinqebo` reports them: where they are, what
//! they write for a setting, and what their conditions say of a test; and what counts where none
//! decides.
#![tactic(auto)]

mod chain_rules;
mod conditions;
mod default_rules;
mod distinct;
mod evaluated_filters;
mod filter_laws;
mod holds;
mod lister;
mod listing;
mod marked_scripts;
mod marks;
mod passed;
mod progress;
mod rows;
mod runs;
mod scripts;
mod setup_rules;
mod unused;
mod unused_laws;
mod used_scripts;
mod values;
mod verdict;
mod verdict_laws;
mod wrapping;

pub use chain_rules::{SettingRule, rules_for};
pub use conditions::{Answers, Asking};
pub use default_rules::{filter_rules, is_matched_by_default};
pub use evaluated_filters::{FilterPlace, PlacedFilter, filters_asking, filters_left_open};
pub use filter_laws::law_filter_rules;
pub use lister::{ListedRows, Lister, reported_platform};
pub use listing::Listing;
pub use progress::{NoProgress, Progress};
pub use runs::{default_filter_key, filtering_place};
pub use scripts::{scripts_by, scripts_of};
pub use unused::{UnusedRules, UsedRules};
pub use unused_laws::law_unused;
pub use verdict::{RuleFacts, RuleVerdict, verdicts_of};
pub use verdict_laws::law_verdicts;
