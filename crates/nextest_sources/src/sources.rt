//! Where configuration comes from: files with their outcomes, and the sources that a load makes of
//! them.
//!
//! Nothing here reads a file. A caller reads them and passes the outcomes in.
ghost use Rattle.std.specs.Prelude.{◌≡◌, IfOk, Some, option_map};
ghost use Rattle.nextest_sources.specs.Inputs.{selecting};
ghost use Rattle.nextest_sources.specs.Sources.{path_view, source_view, source_kind_view, tool_of_source};
ghost use Rattle.nextest_elements.specs.IdentifierText.{tool_name_text};

use crate::one_line::OneLine;
use nextest_elements::{ConfigExperimental, IdentifierOwner, ToolName};
use std::alloc::{AllocError, Global};
use std::collections::BTreeSet;
use std::fmt;

/// Where a repository's configuration lies, below the root of its workspace.
pub const CONFIG_PATH: &str = ".config/nextest.toml";

/// The resolved path of a configuration file, as it was passed in.
#[derive(Clone, Debug, Drop, PartialEq, Eq, Hash)]
pub struct ConfigPath {
    path: String,
}

impl ConfigPath {
    /// The path that a text spells.
    pub fn new(alloc: Global, path: &str) -> Result<ConfigPath, AllocError>
        ensures { IfOk result (λ made. path_view made ≡ path.now) }
    {
        Ok(ConfigPath {
            path: String::from_str(alloc, path)?,
        })
    }

    /// The path as it was passed in.
    pub fn absolute_path(&self) -> &str
        ensures { result.now ≡ path_view self.now }
    {
        self.path.as_str()
    }
}

impl fmt::Display for ConfigPath {
    ghost use Rattle.std.specs.Prelude.{Some};

    ghost output = { λ path. Some (path_view path) };

    fn fmt<W: fmt::Write>(&self, f: &mut fmt::Formatter<W>) -> fmt::Result {
        f.write_str(self.path.as_str())
    }
}

/// The outcome of reading a file.
#[derive(Debug, Drop)]
pub enum ReadOutcome {
    /// Its text.
    Text(String),
    /// There is no such file.
    NotFound,
    /// A part of its path that should be a directory is none.
    NotADirectory,
    /// Anything else, as a directory in its place or bytes that aren't UTF-8, with a message.
    Failed(String),
}

/// A file that was read, or not.
#[derive(Debug, Drop)]
pub struct FileInput {
    /// Where it was looked for.
    pub path: ConfigPath,
    /// The outcome of reading it.
    pub outcome: ReadOutcome,
}

/// A file that a tool provides. It has to be there.
#[derive(Debug, Drop)]
pub struct ToolConfigFile {
    /// The tool.
    pub tool: ToolName,
    /// The file.
    pub config_file: FileInput,
}

/// Which files are read beside those of tools.
#[derive(Clone, Copy, Debug)]
pub struct ConfigFileSelection<'a> {
    /// The repository's file that a user named. It has to be there, and no other is looked for.
    pub config_file: Option<&'a FileInput>,
    /// The organisation's file. It has to be there.
    pub organisation_file: Option<&'a FileInput>,
}

impl<'a> ConfigFileSelection<'a> {
    /// The repository's file that a user named, if there is one, and else the one that is looked
    /// for. There is no file of the organisation.
    pub fn new(config_file: Option<&'a FileInput>) -> ConfigFileSelection<'a>
        ensures { result ≡ selecting config_file.entry }
    {
        ConfigFileSelection {
            config_file,
            organisation_file: None,
        }
    }

    /// The same, with this file of the organisation.
    pub fn with_organisation(self, organisation_file: &'a FileInput) -> ConfigFileSelection<'a>
        ensures { result ≡ record {
          config_file = self.entry.config_file;
          organisation_file = Some organisation_file.entry;
        } }
    {
        ConfigFileSelection {
            organisation_file: Some(organisation_file),
            ..self
        }
    }

    /// The repository's file that a user named.
    pub fn explicit_config_file(self) -> Option<&'a FileInput>
        ensures { result ≡ self.entry.config_file }
    {
        self.config_file
    }

    /// The organisation's file.
    pub fn organisation_file(self) -> Option<&'a FileInput>
        ensures { result ≡ self.entry.organisation_file }
    {
        self.organisation_file
    }
}

/// Where the configuration of a workspace lies.
#[derive(Debug, Drop)]
pub struct ConfigPaths {
    /// The root of the workspace.
    pub workspace_root: String,
    /// The repository's own file, which may be missing.
    pub shared: FileInput,
}

/// All that a load is given: files with their outcomes, and the features that are switched on.
#[derive(Clone, Copy)]
pub struct ConfigInputs<'a> {
    /// The repository's file where it is looked for, which may be missing.
    pub shared: &'a FileInput,
    /// The files that are read beside those of tools.
    pub selection: ConfigFileSelection<'a>,
    /// The files that tools provide, in the order of the arguments: the first is the highest.
    pub tools: &'a [ToolConfigFile],
    /// The experimental features that are switched on.
    pub features: &'a BTreeSet<ConfigExperimental>,
}

/// What kind of source a file is.
#[derive(Clone, Debug, Drop, PartialEq, Eq, Hash)]
pub enum ConfigSourceKind {
    /// A file that this tool provides.
    Tool(ToolName),
    /// The organisation's file.
    Organisation,
    /// The repository's file that a user named.
    ExplicitRepository,
    /// The repository's file where it is looked for, as nobody named another.
    DiscoveredRepository,
}

impl ConfigSourceKind {
    ghost use Rattle.nextest_elements.specs.OwnerView.{owner_view};
    ghost use Rattle.nextest_sources.specs.Sources.{owner_of_source};
    ghost use Rattle.nextest_sources.specs.Sources as specs;

    /// Who owns the source. It may define the names that its owner owns, and no others.
    pub fn owner(&self) -> IdentifierOwner<'_>
        ensures { owner_view result ≡ owner_of_source (source_kind_view self.now) }
    {
        match self {
            ConfigSourceKind::Tool(tool) => IdentifierOwner::Tool(tool.as_str()),
            ConfigSourceKind::Organisation => IdentifierOwner::Organisation,
            ConfigSourceKind::ExplicitRepository | ConfigSourceKind::DiscoveredRepository => {
                IdentifierOwner::Nobody
            }
        }
    }

    /// Whether the file may be missing, as one that is only looked for.
    pub fn may_be_missing(&self) -> bool
        ensures { result ≡ specs.may_be_missing (source_kind_view self.now) }
    {
        matches!(self, ConfigSourceKind::DiscoveredRepository)
    }
}

/// A source: a file, and what kind of source it is.
#[derive(Debug, Drop, PartialEq, Eq, Hash)]
pub struct ConfigSource {
    path: ConfigPath,
    kind: ConfigSourceKind,
}

impl Clone for ConfigSource {
    ghost is_clone = { λ source copy. source_view copy ≡ source_view source };

    fn clone(&self) -> Result<Self, AllocError> {
        Ok(ConfigSource {
            path: self.path.clone()?,
            kind: self.kind.clone()?,
        })
    }
}

impl ConfigSource {
    /// The source of this path and kind.
    pub fn new(path: ConfigPath, kind: ConfigSourceKind) -> ConfigSource
        ensures { source_view result
            ≡ record { path = path_view path; kind = source_kind_view kind } }
    {
        ConfigSource { path, kind }
    }

    /// The file's path.
    pub fn path(&self) -> &ConfigPath
        ensures { path_view result.now ≡ (source_view self.now).path }
    {
        &self.path
    }

    /// The tool that provides the file, where one does.
    pub fn tool(&self) -> Option<&ToolName>
        ensures { option_map (λ tool. tool_name_text tool.now) result
            ≡ tool_of_source (source_view self.now).kind }
    {
        match &self.kind {
            ConfigSourceKind::Tool(tool) => Some(tool),
            _ => None,
        }
    }

    /// What kind of source it is.
    pub fn kind(&self) -> &ConfigSourceKind
        ensures { source_kind_view result.now ≡ (source_view self.now).kind }
    {
        &self.kind
    }
}

/// The path on one line, and the tool or the organisation that provided the file, where one did.
impl fmt::Display for ConfigSource {
    fn fmt<W: fmt::Write>(&self, f: &mut fmt::Formatter<W>) -> fmt::Result {
        let path = OneLine(self.path.absolute_path());
        match self.kind.owner() {
            IdentifierOwner::Tool(tool) => write!(f, "{path} provided by tool `{tool}`"),
            IdentifierOwner::Organisation => write!(f, "{path} provided by organisation"),
            IdentifierOwner::Nobody => write!(f, "{path}"),
        }
    }
}
