//! The requests of the program `rinqebo`: its commands and options, and the request of a command
//! line. In `files` are the files that a request names: which are read, the sources that they are,
//! with their trees, the lines that bring what is there, and the experimental features that they
//! switch on.
#![tactic(auto)]

mod check_words;
mod environment;
mod features;
mod files;
mod hints;
mod line;
mod named;
mod named_features;
mod notes;
pub mod options;
mod pages;
mod request;
pub mod rows;
mod test_words;
pub mod words;

pub use environment::{Environment, RunVariables, set};
pub use features::{FEATURES, feature_name, feature_of, law_all_features};
pub use files::{
    Document, GatherFault, Gathered, Layer, NoDocument, SpanPart, features_of, gather, host_text,
    layers_of, part_place, path_place, place_at, place_of, profile_table, rule_at, rule_table,
    sources_of, target_text, text_at,
};
pub use hints::{name_hint, text_hint};
pub use named::{FileOption, NamedFile, ProfileSource};
pub use notes::notes_of;
pub use request::{
    Command, CommandWords, ConfigFile, EngineOptions, FileOptions, HOST, ListFile, Question,
    Request, RequestedSettings, RequestedTest, ToolFile,
};
pub use words::{ParseStop, parse};
