//! The request of a user.
ghost use Rattle.std.specs.List.{list_any};
ghost use Rattle.std.specs.Prelude.{◌≡◌};
ghost use Rattle.rinqebo_request.specs.Files.Gathering.{is_discovered, list_named};
ghost use Rattle.rinqebo_request.specs.NoteTexts.{is_same_setting, may_report};
ghost use Rattle.rinqebo_request.specs.Requests.{IsListAt, is_input, list_path, reads_input};

use crate::named::ProfileSource;
use nextest_elements::{ConfigExperimental, NextestRunMode, Setting, ToolName};
use nextest_engines::BuildPlatform;
use rinqebo_report::{Code, Format, Paper, ReportCommand};
use std::collections::BTreeSet;

/// The list of tests that a command reads.
#[derive(Clone, Copy)]
pub enum ListFile<'a> {
    /// The list at this path.
    Named(&'a str),
    /// Standard input.
    Input,
}

impl<'a> ListFile<'a> {
    /// The list at a path that a user writes: `-` is standard input.
    pub fn at(path: &'a str) -> ListFile<'a>
        ensures { IsListAt path.entry.now result }
    {
        match path {
            "-" => ListFile::Input,
            path => ListFile::Named(path),
        }
    }

    /// The path of the list, as messages show it.
    pub fn path(self) -> &'a str
        ensures { result.now ≡ list_path self.entry }
    {
        match self {
            ListFile::Named(path) => path,
            ListFile::Input => "-",
        }
    }
}

/// A test, as a user names it on the command line.
#[derive(Clone, Copy)]
pub struct RequestedTest<'a> {
    /// The id of its binary. If there is none, the program looks for the test in the list.
    pub binary: Option<&'a str>,
    /// Its name in the binary. Without a binary, the end of the name behind `::` is enough.
    pub name: &'a str,
    /// The platform of its binary, if neither a list nor metadata have it.
    pub platform: BuildPlatform,
    /// What the test is run for.
    pub mode: NextestRunMode,
    /// The list that has the test, if the user names one.
    pub list: Option<ListFile<'a>>,
}

/// Which settings of a test a report lists.
#[derive(Drop)]
pub enum RequestedSettings {
    /// The settings that rules decide, in the order of all settings. Before them the report shows
    /// that the test does not run, if it does not.
    Decided,
    /// These settings, whatever decides them.
    These {
        /// Whether a page shows whether the test runs. A document of JSON always does.
        runs: bool,
        /// The settings, in this order.
        settings: Vec<Setting>,
    },
}

/// Whether a setting is among some.
fn is_among(settings: &[Setting], setting: Setting) -> bool
    ensures { result ≡ list_any (λ one. is_same_setting one setting) settings.now }
{
    settings.iter().any(|one| one.name() == setting.name())
}

impl RequestedSettings {
    /// Whether a report lists a setting, if rules decide it.
    pub fn may_report(&self, setting: Setting) -> bool
        ensures { result ≡ may_report setting self.now }
    {
        match self {
            RequestedSettings::Decided => true,
            RequestedSettings::These { settings, .. } => is_among(settings, setting),
        }
    }
}

/// What a user requests.
#[derive(Drop)]
pub enum Question<'a> {
    /// The settings of a test.
    Explain {
        /// The name of the profile.
        profile: &'a str,
        /// The test.
        test: RequestedTest<'a>,
        /// Which of its settings the report lists.
        asked: RequestedSettings,
    },
    /// The rules of a setting of a test.
    Why {
        /// The name of the profile.
        profile: &'a str,
        /// The test.
        test: RequestedTest<'a>,
        /// The setting whose rules the report lists.
        setting: Setting,
    },
    /// The rules that decide whether a test runs.
    WhyRuns {
        /// The name of the profile.
        profile: &'a str,
        /// The test.
        test: RequestedTest<'a>,
    },
    /// The settings of each test of a list.
    List {
        /// The name of the profile.
        profile: &'a str,
        /// What the tests are run for.
        mode: NextestRunMode,
        /// The list of tests.
        list: ListFile<'a>,
        /// Which settings of each test the report lists.
        asked: RequestedSettings,
    },
    /// The leaves of the configuration.
    ShowConfig {
        /// The name of the profile.
        profile: &'a str,
        /// The report lists the leaves below these keys. If there is no key, it lists all leaves.
        keys: Vec<&'a str>,
        /// Whether the report also lists leaves that others hide.
        with_hidden: bool,
    },
    /// What is wrong with the files.
    Check {
        /// Whether a check with warnings ends with status 1.
        deny_warnings: bool,
    },
}

/// The repository's file.
#[derive(Clone, Copy)]
pub enum ConfigFile<'a> {
    /// The file below the workspace's root, if it exists.
    Discovered,
    /// The file at this path.
    Named(&'a str),
    /// Standard input, which messages show with this path.
    Input(&'a str),
}

impl ConfigFile<'_> {
    /// Whether no user names the file.
    pub fn is_discovered(self) -> bool
        ensures { result ≡ is_discovered self.entry }
    {
        match self {
            ConfigFile::Discovered => true,
            ConfigFile::Named(_) | ConfigFile::Input(_) => false,
        }
    }

    /// Whether the file is standard input.
    fn is_input(self) -> bool
        ensures { result ≡ is_input self.entry }
    {
        matches!(self, ConfigFile::Input(_))
    }
}

/// A file that a tool provides.
#[derive(Drop)]
pub struct ToolFile<'a> {
    /// The name of the tool.
    pub tool: ToolName,
    /// The path of the file.
    pub path: &'a str,
}

/// Which files the program reads.
#[derive(Drop)]
pub struct FileOptions<'a> {
    /// The root of the workspace. If there is none, the program looks for it.
    pub root: Option<&'a str>,
    /// The repository's file.
    pub config_file: ConfigFile<'a>,
    /// The path of the organisation's file, if there is one.
    pub organisation_config_file: Option<&'a str>,
    /// The files of tools, in the order of the command line: the first has the highest precedence.
    pub tools: Vec<ToolFile<'a>>,
}

/// The triple of the host if nothing names one.
pub const HOST: &str = "x86_64-unknown-linux-gnu";

/// What the program knows of the platforms and packages of a workspace.
#[derive(Clone, Copy)]
pub struct EngineOptions<'a> {
    /// The triple of the host. If there is none, it is that of `rustc -vV`, else that of the list
    /// of tests, else [`HOST`].
    pub host: Option<&'a str>,
    /// The path of the output of `rustc -vV`, which has the triple of the host.
    pub rustc_version: Option<&'a str>,
    /// The triple of the target. If there is none, it is that of the list of tests.
    pub target: Option<&'a str>,
    /// The triple of the target if neither an option nor a list names one. Without it, what is
    /// built for the target runs on the host.
    pub build_target: Option<&'a str>,
    /// The path of the output of `rustc --print cfg` for the host. Without it, the program uses its
    /// table of triples.
    pub host_cfg: Option<&'a str>,
    /// The path of the output of `rustc --print cfg` for the target. Without it, the program uses
    /// its table of triples.
    pub target_cfg: Option<&'a str>,
    /// The path of the output of `cargo metadata`. Without it, the program does not look up
    /// `deps()` and `rdeps()`.
    pub metadata: Option<&'a str>,
}

/// The command of a command line, and its KEYs as the user writes them.
#[derive(Drop)]
pub struct CommandWords<'a> {
    /// The command.
    pub command: ReportCommand,
    /// The KEYs, and behind them those of `--key`.
    pub keys: Vec<&'a str>,
    /// The KEY of `--why`.
    pub why: Option<&'a str>,
    /// The KEY of `--by`.
    pub by: Option<&'a str>,
}

/// The request of a user.
pub struct Request<'a> {
    /// What the user requests.
    pub question: Question<'a>,
    /// The command, and the KEYs as the user writes them. Documents of JSON show them.
    pub words: CommandWords<'a>,
    /// What names the profile, if the request has one.
    pub profile_source: ProfileSource,
    /// Which files the program reads.
    pub files: FileOptions<'a>,
    /// What the program knows of the platforms and packages of the workspace.
    pub engines: EngineOptions<'a>,
    /// The experimental features that are enabled in addition to those of the repository's file.
    pub features: BTreeSet<ConfigExperimental>,
    /// The format of the output.
    pub format: Format<'a>,
    /// Whether the output has colours, and how many columns its lines have.
    pub paper: Paper,
    /// Whether standard error shows how far a list is: only if it is a terminal and standard output
    /// is not.
    pub shows_progress: bool,
}

// Written out, so that the proof of a caller sees one call and not the drop of each part.
impl Drop for Request<'_> {
    fn drop(self) {
        let Request {
            question: _question,
            words: _words,
            profile_source: _profile_source,
            files: _files,
            engines: _engines,
            features: _features,
            format: _format,
            paper: _paper,
            shows_progress: _shows_progress,
        } = self;
    }
}

impl<'a> Request<'a> {
    /// The list of tests that the user names, if there is one.
    pub fn list(&self) -> Option<ListFile<'a>>
        ensures { result ≡ list_named self.now.question }
    {
        match &self.question {
            Question::List { list, .. } => Some(*list),
            Question::Explain { test, .. }
            | Question::Why { test, .. }
            | Question::WhyRuns { test, .. } => test.list,
            Question::ShowConfig { .. } | Question::Check { .. } => None,
        }
    }

    /// Whether the program reads standard input.
    pub fn reads_input(&self) -> bool
        ensures { result ≡ reads_input self.now }
    {
        self.files.config_file.is_input() || matches!(self.list(), Some(ListFile::Input))
    }
}

/// What a command line requests.
#[derive(Drop)]
pub enum Command<'a> {
    /// The JSON schema of a file. The program reads no file for it.
    Schema,
    /// The JSON schema of the program's documents. The program reads no file for it.
    DocumentSchema,
    /// The list of the codes of findings. The program reads no file for it.
    Codes,
    /// The page of a code. The program reads no file for it.
    CodePage(Code),
    /// A report.
    Answer(Request<'a>),
}
