//! What a runner needs of a profile beside the settings of tests, as JSON: the values of a whole run,
//! the test groups, the scripts with their commands and with what of a list enables or names them,
//! and where the values of the run and the groups come from.
#![tactic(auto)]

mod enabling;
mod evaluated_uses;
mod groups;
mod list_use;
mod listed;
mod objects;
mod origins;
mod run;
mod script_use;
mod scripts;
mod values;
mod warnings;
mod wrappers;

pub use listed::Listed;
pub use objects::{Surroundings, objects_by_uses, objects_json, objects_text};
pub use origins::{
    BoundOrigins, GroupOrigins, NameOrigins, ObjectOrigins, OutputOrigins, RunOrigins,
};
pub use run::RunSettings;
pub use script_use::{ScriptUse, add_script_ids};
pub use scripts::Directories;
