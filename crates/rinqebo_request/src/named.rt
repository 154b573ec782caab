//! What messages call the parts of a command line.
ghost use Rattle.std.specs.Prelude.{◌≡◌, IfOk, option_map, string_bytes};
ghost use Rattle.rinqebo_request.specs.Requests.{source_variable};

use std::alloc::{AllocError, Global};
use std::fmt;

/// A word or an option that names a file.
#[derive(Clone, Copy, Debug, PartialEq, Eq, Drop)]
pub enum FileOption {
    /// LIST, the output of `cargo nextest list`.
    List,
    /// `--metadata`.
    Metadata,
    /// `--host-cfg`.
    HostCfg,
    /// `--target-cfg`.
    TargetCfg,
    /// `--rustc-version`.
    RustcVersion,
}

impl fmt::Display for FileOption {
    fn fmt<W: fmt::Write>(&self, f: &mut fmt::Formatter<W>) -> fmt::Result {
        f.write_str(match self {
            FileOption::List => "LIST",
            FileOption::Metadata => "--metadata",
            FileOption::HostCfg => "--host-cfg",
            FileOption::TargetCfg => "--target-cfg",
            FileOption::RustcVersion => "--rustc-version",
        })
    }
}

/// A file and the option that names it, as messages show them: `list.json (LIST)`.
#[derive(Debug, Drop)]
pub struct NamedFile {
    /// The path of the file. Without one, messages name the option alone.
    pub path: Option<String>,
    /// The option.
    pub option: FileOption,
}

impl NamedFile {
    /// The file at a path that an option names.
    pub fn new(
        alloc: Global,
        path: Option<&str>,
        option: FileOption,
    ) -> Result<NamedFile, AllocError>
        ensures path { IfOk result (λ file. option_map string_bytes file.path
            ≡ option_map (λ path. path.now) path.entry) }
        ensures option { IfOk result (λ file. file.option ≡ option) }
    {
        let path = match path {
            Some(path) => Some(String::from_str(alloc, path)?),
            None => None,
        };
        Ok(NamedFile { path, option })
    }
}

impl fmt::Display for NamedFile {
    fn fmt<W: fmt::Write>(&self, f: &mut fmt::Formatter<W>) -> fmt::Result {
        let option = self.option;
        match (&self.path, option) {
            (Some(path), FileOption::List) if path.as_str() == "-" => {
                write!(f, "standard input ({option})")
            }
            (Some(path), _) => write!(f, "{path} ({option})"),
            (None, _) => write!(f, "{option}"),
        }
    }
}

/// What names the profile of a request.
#[derive(Clone, Copy, Debug, PartialEq, Eq, Drop)]
pub enum ProfileSource {
    /// The command line, by `--profile`.
    CommandLine,
    /// The variable `NEXTEST_PROFILE`.
    Variable,
    /// Neither: it is `default`.
    Fallback,
}

impl ProfileSource {
    /// The variable that names the profile, if one does.
    pub fn variable(self) -> Option<&'static str>
        ensures { option_map (λ name. name.now) result ≡ source_variable self }
    {
        match self {
            ProfileSource::Variable => Some("NEXTEST_PROFILE"),
            ProfileSource::CommandLine | ProfileSource::Fallback => None,
        }
    }
}
