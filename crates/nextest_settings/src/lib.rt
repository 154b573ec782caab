//! The settings that rules give to tests, each at the first rule that holds and sets it, and the
//! profiles of a configuration (`profiles`): what they say, and what they give to tests.
#![tactic(auto)]

mod binary_answers;
mod default_filter;
mod evaluated;
mod fallback;
mod gather;
mod groups;
mod index;
mod laws;
mod list_settings;
mod open_settings;
mod pass;
mod platforms;
mod profiles;
mod setting_value;
mod setup_scripts;
mod source;
mod test_settings;
mod values;
mod wrappers;
mod written;

pub use binary_answers::BinaryAnswers;
pub use default_filter::{
    CompiledDefaultFilter, CompiledDefaultFilterSection, default_filter_of, nearest_filter,
};
pub use evaluated::EvaluatedRules;
pub use fallback::fallback_of;
pub use gather::{ChainRules, fields_of, rules_of};
pub use groups::{GroupLookup, PrecomputedGroupMembership};
pub use index::{Place, PlatformIndex, RuleIndex, Wrapper};
pub use laws::{
    law_all_settings, law_evaluated_at_most_once, law_evaluated_exactly, law_first_override,
    law_first_script_rule, law_rule_order,
};
pub use list_settings::ListSettings;
pub use pass::matches_test;
pub use platforms::{
    EvaluatedOverride, EvaluatedRule, EvaluatedScriptRule, evaluate_overrides,
    evaluate_script_rules, runs_on,
};
pub use profiles::{
    EarlyProfile, EvaluatableProfile, KnownGroups, law_group_of_settings, law_known_groups,
    law_last_group, law_settings_of_texts,
};
pub use setting_value::{SettingValue, SettingValues};
pub use setup_scripts::{SetupScript, SetupScriptIter, SetupScripts, names_script};
pub use source::{SettingSource, TrackSource};
pub use test_settings::TestSettings;
pub use values::{
    BenchValues, ProfileValues, ReportValues, RunValues, StoredValues, TestValues, values_of,
};
