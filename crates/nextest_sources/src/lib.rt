//! Where configuration comes from: files with their outcomes, the sources that a load makes of
//! them, why they are refused and what is warned of.
//!
//! No load reads a file: a caller reads them by a [`FileReader`], as [`DiskFiles`] does for a
//! program, and hands the outcomes in.
#![tactic(auto)]

mod disk;
mod error;
mod inputs;
pub mod laws;
mod one_line;
mod reader;
mod sources;
mod warnings;

pub use disk::{DiskFiles, outcome_of};
pub use error::{
    ConfigCompileError, ConfigCompileErrorKind, ConfigCompileSection, ConfigParseError,
    ConfigParseErrorKind, ProfileListScriptUsesRunFiltersError, ProfileScriptErrors,
    ProfileUnknownScriptError, ProfileWrongConfigScriptTypeError, UnknownTestGroupError,
};
pub use inputs::{SourceInput, collect_inputs, refuse_duplicates, repository_source, text_of};
pub use one_line::OneLine;
pub use reader::FileReader;
pub use sources::{
    CONFIG_PATH, ConfigFileSelection, ConfigInputs, ConfigPath, ConfigPaths, ConfigSource,
    ConfigSourceKind, FileInput, ReadOutcome, ToolConfigFile,
};
pub use warnings::{ConfigWarning, ConfigWarnings, DefaultConfigWarnings};
