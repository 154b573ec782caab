//! The findings of what is wrong with files: one for each warning and each fault, with its place, its
//! path, what was given and what was expected.
#![tactic(auto)]

mod below;
mod cycles;
mod delays;
mod elements;
mod excerpts;
mod expressions;
mod features;
mod findings;
mod foreign;
mod given;
mod load_warnings;
mod nextest_archives;
mod nextest_features;
mod nextest_forms;
mod nextest_values;
mod nextest_versions;
mod not_toml;
mod parents;
mod paths;
mod refused;
mod unknown_names;

pub use elements::{add_element, fault_finding};
pub use excerpts::{text_of, with_lines};
pub use expressions::add_refused_texts;
pub use features::add_features;
pub use findings::{Label, SourceAt, finding_at, unknown_key_at};
pub use foreign::{ScriptFault, add_groups, add_scripts};
pub use load_warnings::{other_warning_findings, warning_findings};
pub use nextest_forms::nextest_findings;
pub use not_toml::add_no_document;
pub use parents::add_parents;
pub use refused::Refused;
pub use unknown_names::{add_script_errors, add_unknown_groups};
