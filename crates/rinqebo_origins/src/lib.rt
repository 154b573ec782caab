//! Where values come from: what files write, at which places, and the origins of settings.
#![tactic(auto)]

mod as_written;
mod grounds;
mod leaf_value;
mod origin_node;
mod origins;
mod reported_entries;
mod reported_values;
mod rule_places;
mod spelled;
mod spelled_report;
mod trees;

pub use grounds::{built_in, idle_grounds, profile_grounds};
pub use leaf_value::reported_value;
pub use origin_node::{node_alone, node_of_origins};
pub use origins::{Origins, found, is_same_source};
pub use reported_entries::{reported_entry, steps_of};
pub use reported_values::reported_if_set;
pub use rule_places::{RuleKind, RulePlace};
pub use spelled_report::spelled_entries;
pub use trees::trees_of;
