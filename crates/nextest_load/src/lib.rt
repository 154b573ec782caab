//! Loads a configuration: its sources over the defaults, and what they are merged to.
#![tactic(auto)]

mod kept;
pub mod laws;
mod load;
mod loaded_config;
mod merged;
mod parsed;
mod scripts;
mod source;

pub use loaded_config::{LoadedConfig, MergedProfile, ScriptConfig};
pub use parsed::{ParsedText, ParsedTexts};
