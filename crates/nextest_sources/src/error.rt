//! Why a configuration is refused: the source, and what is wrong with it.
ghost use Rattle.std.specs.Prelude.{◌≡◌, not, is_some};
ghost use Rattle.nextest_sources.specs.ErrorKinds.{is_memory};

mod compile;
mod groups;
mod message;
mod scripts;

use crate::error::message::{begin_detail, separate, write_detail, write_each, write_names};
use crate::sources::{ConfigPath, ConfigSource, ConfigSourceKind, ReadOutcome};
pub use compile::{ConfigCompileError, ConfigCompileErrorKind, ConfigCompileSection};
pub use groups::UnknownTestGroupError;
use nextest_elements::{ConfigExperimental, CustomTestGroup, ToolName};
use nextest_inheritance::InheritsError;
use nextest_scripts::ScriptId;
use nextest_tree::{ElementCause, ElementFault};
pub use scripts::{
    ProfileListScriptUsesRunFiltersError, ProfileScriptErrors, ProfileUnknownScriptError,
    ProfileWrongConfigScriptTypeError,
};
use std::alloc::AllocError;
use std::collections::BTreeSet;
use std::fmt;

/// What is wrong with a source.
#[derive(Debug)]
pub enum ConfigParseErrorKind {
    /// A tool provides a second file. The fault is at the second.
    DuplicateToolConfigFile {
        /// The tool.
        tool: ToolName,
        /// The path of its first file, in the order of the arguments.
        first: ConfigPath,
    },
    /// The file could not be read.
    ReadError(ReadOutcome),
    /// The text is not a TOML document. The message is for people.
    BuildError(String),
    /// A value is not one that is allowed there.
    DeserializeError(ElementFault),
    /// The repository's file defines groups that are a tool's or the organisation's.
    InvalidTestGroupsDefined(BTreeSet<CustomTestGroup>),
    /// A tool's file defines groups that are not its own.
    InvalidTestGroupsDefinedByTool(BTreeSet<CustomTestGroup>),
    /// The organisation's file defines groups that are not its own.
    InvalidTestGroupsDefinedByOrganisation(BTreeSet<CustomTestGroup>),
    /// There are scripts under the old key `script` and under `scripts`.
    BothScriptAndScriptsDefined,
    /// The file needs experimental features that are not enabled.
    ExperimentalFeaturesNotEnabled {
        /// Those features, in their order.
        missing_features: Vec<ConfigExperimental>,
    },
    /// Ids are defined both as setup scripts and as wrapper scripts.
    DuplicateConfigScriptNames(BTreeSet<ScriptId>),
    /// The repository's file defines scripts that are a tool's or the organisation's.
    InvalidConfigScriptsDefined(BTreeSet<ScriptId>),
    /// A tool's file defines scripts that are not its own.
    InvalidConfigScriptsDefinedByTool(BTreeSet<ScriptId>),
    /// The organisation's file defines scripts that are not its own.
    InvalidConfigScriptsDefinedByOrganisation(BTreeSet<ScriptId>),
    /// Profiles inherit what they may not: one for each profile, `default` first and the others by
    /// name, and then one for all cycles.
    InheritanceErrors(Vec<InheritsError>),
    /// What does not compile: all of it, that of `default` first, the others by profile; in each
    /// the default filter, the overrides and the script rules in the order of the file.
    CompileErrors(Vec<ConfigCompileError>),
    /// Rules write groups that are not known.
    UnknownTestGroups {
        /// One for each such rule, in the order of `CompileErrors`.
        errors: Vec<UnknownTestGroupError>,
        /// The groups that the file and those below it define, and the global one.
        known_groups: BTreeSet<String>,
    },
    /// Rules name scripts that they may not.
    ProfileScriptErrors {
        /// What is wrong with the scripts.
        errors: ProfileScriptErrors,
        /// The scripts that the file and those below it define.
        known_scripts: BTreeSet<String>,
    },
    /// A refusal of memory. It says nothing of any source.
    Memory,
}

// Written out, so that the proof of a caller sees one call and not the drop of each part.
impl Drop for ConfigParseErrorKind {
    fn drop(self) {
        match self {
            ConfigParseErrorKind::DuplicateToolConfigFile {
                tool: _tool,
                first: _first,
            } => {}
            ConfigParseErrorKind::ReadError(_part) => {}
            ConfigParseErrorKind::BuildError(_part) => {}
            ConfigParseErrorKind::DeserializeError(_part) => {}
            ConfigParseErrorKind::InvalidTestGroupsDefined(_part) => {}
            ConfigParseErrorKind::InvalidTestGroupsDefinedByTool(_part) => {}
            ConfigParseErrorKind::InvalidTestGroupsDefinedByOrganisation(_part) => {}
            ConfigParseErrorKind::BothScriptAndScriptsDefined => {}
            ConfigParseErrorKind::ExperimentalFeaturesNotEnabled {
                missing_features: _missing_features,
            } => {}
            ConfigParseErrorKind::DuplicateConfigScriptNames(_part) => {}
            ConfigParseErrorKind::InvalidConfigScriptsDefined(_part) => {}
            ConfigParseErrorKind::InvalidConfigScriptsDefinedByTool(_part) => {}
            ConfigParseErrorKind::InvalidConfigScriptsDefinedByOrganisation(_part) => {}
            ConfigParseErrorKind::InheritanceErrors(_part) => {}
            ConfigParseErrorKind::CompileErrors(_part) => {}
            ConfigParseErrorKind::UnknownTestGroups {
                errors: _errors,
                known_groups: _known_groups,
            } => {}
            ConfigParseErrorKind::ProfileScriptErrors {
                errors: _errors,
                known_scripts: _known_scripts,
            } => {}
            ConfigParseErrorKind::Memory => {}
        }
    }
}

impl ConfigParseErrorKind {
    ghost use Rattle.nextest_sources.specs.KindNames.{kind_number, kind_name};

    /// The kind's number and name.
    fn label(&self) -> (u8, &'static str)
        ensures number { result.0 ≡ kind_number self.now }
        ensures name { result.1.now ≡ kind_name self.now }
    {
        match self {
            ConfigParseErrorKind::DuplicateToolConfigFile { .. } => (1, "DuplicateToolConfigFile"),
            ConfigParseErrorKind::ReadError(_) => (2, "ReadError"),
            ConfigParseErrorKind::BuildError(_) => (3, "BuildError"),
            ConfigParseErrorKind::DeserializeError(_) => (4, "DeserializeError"),
            ConfigParseErrorKind::InvalidTestGroupsDefined(_) => (5, "InvalidTestGroupsDefined"),
            ConfigParseErrorKind::InvalidTestGroupsDefinedByTool(_) => {
                (6, "InvalidTestGroupsDefinedByTool")
            }
            ConfigParseErrorKind::BothScriptAndScriptsDefined => (7, "BothScriptAndScriptsDefined"),
            ConfigParseErrorKind::ExperimentalFeaturesNotEnabled { .. } => {
                (8, "ExperimentalFeaturesNotEnabled")
            }
            ConfigParseErrorKind::DuplicateConfigScriptNames(_) => (
                9,
                "DuplicateConfigScriptNames",
            ),
            ConfigParseErrorKind::InvalidConfigScriptsDefined(_) => {
                (10, "InvalidConfigScriptsDefined")
            }
            ConfigParseErrorKind::InvalidConfigScriptsDefinedByTool(_) => {
                (11, "InvalidConfigScriptsDefinedByTool")
            }
            ConfigParseErrorKind::InheritanceErrors(_) => (12, "InheritanceErrors"),
            ConfigParseErrorKind::CompileErrors(_) => (13, "CompileErrors"),
            ConfigParseErrorKind::UnknownTestGroups { .. } => (14, "UnknownTestGroups"),
            ConfigParseErrorKind::ProfileScriptErrors { .. } => (15, "ProfileScriptErrors"),
            ConfigParseErrorKind::Memory => (16, "Memory"),
            ConfigParseErrorKind::InvalidTestGroupsDefinedByOrganisation(_) => {
                (17, "InvalidTestGroupsDefinedByOrganisation")
            }
            ConfigParseErrorKind::InvalidConfigScriptsDefinedByOrganisation(_) => {
                (18, "InvalidConfigScriptsDefinedByOrganisation")
            }
        }
    }

    /// The kind's number, as the program prints it.
    pub fn number(&self) -> u8
        ensures { result ≡ kind_number self.now }
    {
        self.label().0
    }

    /// The kind's name, as the program prints it.
    pub fn name(&self) -> &'static str
        ensures { result.now ≡ kind_name self.now }
    {
        self.label().1
    }
}

/// Writes a message as details: each of its lines behind two spaces.
fn write_details<W: fmt::Write>(f: &mut fmt::Formatter<W>, message: &str) -> fmt::Result {
    for line in message.lines() {
        write_detail(f, &line)?;
    }
    Ok(())
}

/// Writes the outcome of reading a file, where it says more than the kind's name.
fn write_outcome<W: fmt::Write>(f: &mut fmt::Formatter<W>, outcome: &ReadOutcome) -> fmt::Result {
    match outcome {
        ReadOutcome::Failed(message) => write_details(f, message.as_str()),
        ReadOutcome::NotFound => write_details(f, "no such file"),
        ReadOutcome::NotADirectory => write_details(f, "a part of its path is no directory"),
        ReadOutcome::Text(_) => Ok(()),
    }
}

/// Writes features as a detail, with commas between them.
fn write_features<W: fmt::Write>(
    f: &mut fmt::Formatter<W>,
    features: &[ConfigExperimental],
) -> fmt::Result {
    begin_detail(f)?;
    f.write_str("missing features")?;
    for (index, feature) in features.iter().enumerate() {
        separate(f, index)?;
        write!(f, "{feature}")?;
    }
    Ok(())
}

/// Writes all that is wrong with the scripts that rules name.
fn write_scripts<W: fmt::Write>(
    f: &mut fmt::Formatter<W>,
    errors: &ProfileScriptErrors,
    known_scripts: &BTreeSet<String>,
) -> fmt::Result {
    write!(f, "{errors}")?;
    write_names(f, "known scripts", known_scripts)
}

/// The kind's number and name, and then details, each on a line behind two spaces.
impl fmt::Display for ConfigParseErrorKind {
    fn fmt<W: fmt::Write>(&self, f: &mut fmt::Formatter<W>) -> fmt::Result {
        write!(f, "{} {}", self.number(), self.name())?;
        match self {
            ConfigParseErrorKind::DuplicateToolConfigFile { first, .. } => {
                write_detail(f, &format_args!("the first file of the tool is {first}"))
            }
            ConfigParseErrorKind::ReadError(outcome) => write_outcome(f, outcome),
            ConfigParseErrorKind::BuildError(message) => write_details(f, message.as_str()),
            ConfigParseErrorKind::DeserializeError(fault) => write_detail(f, fault),
            ConfigParseErrorKind::InvalidTestGroupsDefined(groups)
            | ConfigParseErrorKind::InvalidTestGroupsDefinedByTool(groups)
            | ConfigParseErrorKind::InvalidTestGroupsDefinedByOrganisation(groups) => {
                write_names(f, "test groups", groups)
            }
            ConfigParseErrorKind::ExperimentalFeaturesNotEnabled { missing_features } => {
                write_features(f, missing_features)
            }
            ConfigParseErrorKind::DuplicateConfigScriptNames(ids)
            | ConfigParseErrorKind::InvalidConfigScriptsDefined(ids)
            | ConfigParseErrorKind::InvalidConfigScriptsDefinedByTool(ids)
            | ConfigParseErrorKind::InvalidConfigScriptsDefinedByOrganisation(ids) => {
                write_names(f, "scripts", ids)
            }
            ConfigParseErrorKind::InheritanceErrors(errors) => write_each(f, errors),
            ConfigParseErrorKind::CompileErrors(errors) => write_each(f, errors),
            ConfigParseErrorKind::UnknownTestGroups {
                errors,
                known_groups,
            } => {
                write_each(f, errors)?;
                write_names(f, "known groups", known_groups)
            }
            ConfigParseErrorKind::ProfileScriptErrors {
                errors,
                known_scripts,
            } => write_scripts(f, errors, known_scripts),
            ConfigParseErrorKind::BothScriptAndScriptsDefined | ConfigParseErrorKind::Memory => {
                Ok(())
            }
        }
    }
}

impl std::error::Error for ConfigParseErrorKind {}

/// Why a configuration is refused.
#[derive(Debug)]
pub struct ConfigParseError {
    source: Option<ConfigSource>,
    kind: ConfigParseErrorKind,
    ghost placed: { is_some source ≡ not (is_memory kind) },
}

// Written out, so that the proof of a caller sees one call and not the drop of each part.
impl Drop for ConfigParseError {
    fn drop(self) {
        let ConfigParseError {
            source: _source,
            kind: _kind,
        } = self;
    }
}

/// The source, the kind's number and name, and then details, each on a line behind two spaces.
impl fmt::Display for ConfigParseError {
    fn fmt<W: fmt::Write>(&self, f: &mut fmt::Formatter<W>) -> fmt::Result {
        match &self.source {
            Some(source) => write!(f, "{source}: {}", self.kind),
            None => f.write_str("out of memory"),
        }
    }
}

impl std::error::Error for ConfigParseError {}

#[tactic(auto, unfolding(crate::specs::Endings::error_view, nextest_tree::specs::Reads::fault_view))]
impl ConfigParseError {
    ghost use Rattle.std.specs.Prelude.{◌≡◌, IsTrue, option_map, option_and_then, None, not, is_some, IsSome};
    ghost use Rattle.nextest_elements.specs.IdentifierText.{tool_name_text};
    ghost use Rattle.nextest_tree.specs.Reads.{fault_view};
    ghost use Rattle.nextest_sources.specs.Causes.{at_source, bad_element};
    ghost use Rattle.nextest_sources.specs.Endings.{error_view, no_memory, Refuses};
    ghost use Rattle.nextest_sources.specs.ErrorKinds.{is_memory};
    ghost use Rattle.nextest_sources.specs.Errors.{source_of, cause_view, is_organisation_source};
    ghost use Rattle.nextest_sources.specs.Sources.{path_view, source_view, tool_of_source};

    /// The file that is refused: `None` exactly if memory was refused.
    pub fn config_file(&self) -> Option<&ConfigPath>
        ensures path { option_map (λ path. path_view path.now) result
            ≡ option_map (λ source. source.path) (source_of self.now) }
        ensures memory { is_some (source_of self.now) ≡ not (is_memory self.now.kind) }
    {
        match &self.source {
            Some(source) => Some(source.path()),
            None => None,
        }
    }

    /// The tool that provides the file that is refused, where one does.
    pub fn tool(&self) -> Option<&ToolName>
        ensures { option_map (λ tool. tool_name_text tool.now) result
            ≡ option_and_then (λ source. tool_of_source source.kind) (source_of self.now) }
    {
        match &self.source {
            Some(source) => source.tool(),
            None => None,
        }
    }

    /// Whether the file that is refused is the organisation's. No tool provides it then.
    pub fn is_organisation(&self) -> bool
        ensures source { result ≡ is_organisation_source (source_of self.now) }
        ensures no_tool { IsTrue result
            → option_and_then (λ source. tool_of_source source.kind) (source_of self.now) ≡ None }
    {
        match &self.source {
            Some(source) => matches!(source.kind(), ConfigSourceKind::Organisation),
            None => false,
        }
    }

    /// What is wrong with the file.
    pub fn kind(&self) -> &ConfigParseErrorKind
        ensures { result.now ≡ self.now.kind }
    {
        &self.kind
    }

    /// Memory was refused.
    pub fn memory() -> ConfigParseError
        ensures { error_view result ≡ no_memory }
    {
        ConfigParseError {
            source: None,
            kind: ConfigParseErrorKind::Memory,
        }
    }

    /// The fault of a source, or a refusal of memory for its copy.
    pub fn at(source: &ConfigSource, kind: ConfigParseErrorKind) -> ConfigParseError
        requires { IsSome (cause_view kind) }
        ensures { Refuses result
            (option_map (at_source (source_view source.now)) (cause_view kind)) }
    {
        match source.clone() {
            Ok(source) => ConfigParseError {
                source: Some(source),
                kind,
            },
            Err(_) => ConfigParseError::memory(),
        }
    }

    /// The fault of an element of a source, or a refusal of memory.
    pub fn element(source: &ConfigSource, fault: ElementFault) -> ConfigParseError
        ensures fault { Refuses result
            (option_map (λ f. at_source (source_view source.now) (bad_element f))
            (fault_view fault)) }
        ensures memory { fault_view fault ≡ None → error_view result ≡ no_memory }
    {
        if let ElementCause::Memory = fault.cause {
            return ConfigParseError::memory();
        }
        ConfigParseError::at(source, ConfigParseErrorKind::DeserializeError(fault))
    }
}

impl From<AllocError> for ConfigParseError {
    ghost use Rattle.std.specs.Prelude.{◌≡◌};
    ghost use Rattle.nextest_sources.specs.Endings.{error_view, no_memory};

    ghost from_gives = { λ _ e. error_view e ≡ no_memory };

    fn from(_error: AllocError) -> ConfigParseError {
        ConfigParseError::memory()
    }
}
