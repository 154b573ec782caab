//! What the tables of one source become: checked definitions and compiled rules.
//!
//! A source is checked over what the files below it define. No text is read here, and no tree.
#![tactic(auto)]

mod check;
mod compile;
mod definitions;
mod empty_sections;
mod features;
mod groups;
mod ill_named;
mod known;
mod laws;
mod lists;
mod names;
mod overrides;
mod parents;
mod profile_order;
mod script_kinds;
mod scripts;

pub use check::check_rules;
pub use definitions::check_definitions;
pub use known::KnownNames;
pub use laws::{law_accepted_definitions, law_accepted_rules};
pub use overrides::{
    CompiledOverride, CompiledProfile, CompiledProfileScripts, LayerRules, OverrideId,
    PlatformSpecs, ReadFilter, ScriptRuleId,
};
