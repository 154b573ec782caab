//! A run as it is requested of the program: a request, and the files as they were read.
ghost use Rattle.std.specs.Prelude.{◌≡◌, IfOk, option_and_then, option_map, string_bytes};
ghost use Rattle.nextest_elements.specs.Settings.{settings};
ghost use Rattle.rinqebo_forms.specs.Requests.{machine_view};
ghost use Rattle.rinqebo_forms.specs.Runs.{run_view};
ghost use Rattle.rinqebo_resolve.specs.Asking.{AreEnginesFor, AreFilesOf, AsksForAll, IsRequestFor, requested_of, requested_view};

use nextest_config::{NextestRunMode, Setting};
use rinqebo_forms::{LoadRequest, Machine, RunRequest, Switches};
use rinqebo_report::{Colour, Format, Paper, ReportCommand};
use rinqebo_request::{
    CommandWords, ConfigFile, EngineOptions, FileOptions, Gathered, ListFile, ProfileSource,
    Question, Request, RequestedSettings,
};
use rinqebo_session::features_of;
use std::alloc::{AllocError, Global};

/// What messages call the list of tests: the member of a request that has it.
pub const LIST: &str = "list";

/// The request of a run, without its files.
#[derive(Drop)]
pub struct RequestedRun {
    /// The name of the profile.
    pub profile: String,
    /// What the tests are run for.
    pub mode: NextestRunMode,
    /// The triple of the machine that builds.
    pub host: String,
    /// The triple of the machine that is built for, if there is one.
    pub target: Option<String>,
    /// The experimental features that are switched on beside those of the repository's file.
    pub features: Switches,
}

/// All settings.
fn all_settings(alloc: Global) -> Result<Vec<Setting>, AllocError>
    ensures { IfOk result (λ all. all.items ≡ settings) }
{
    let mut all = Vec::new(alloc);
    for setting in Setting::ALL.iter() {
        all.push(*setting)?;
    }
    Ok(all)
}

/// The text, if there is one.
fn text_of(text: &Option<String>) -> Option<&str>
    ensures { option_map (λ text. text.now) result ≡ option_map string_bytes text.now }
{
    match text {
        Some(text) => Some(text.as_str()),
        None => None,
    }
}

impl RequestedRun {
    /// The question: all settings of each test of the list.
    fn question(&self, alloc: Global) -> Result<Question<'_>, AllocError>
        ensures { IfOk result (AsksForAll (requested_view self.now)) }
    {
        Ok(Question::List {
            profile: self.profile.as_str(),
            mode: self.mode,
            list: ListFile::Named(LIST),
            asked: RequestedSettings::These {
                runs: true,
                settings: all_settings(alloc)?,
            },
        })
    }

    /// What the languages of filters and platforms know.
    fn engines(&self) -> EngineOptions<'_>
        ensures { AreEnginesFor (requested_view self.now) result }
    {
        EngineOptions {
            host: Some(self.host.as_str()),
            rustc_version: None,
            target: text_of(&self.target),
            build_target: None,
            host_cfg: None,
            target_cfg: None,
            metadata: None,
        }
    }

    /// The request of the program, for a document of JSON, of a command.
    pub fn request(&self, alloc: Global, command: ReportCommand) -> Result<Request<'_>, AllocError>
        ensures { IfOk result (IsRequestFor command (requested_view self.now)) }
    {
        Ok(Request {
            question: self.question(alloc)?,
            words: CommandWords {
                command,
                keys: Vec::new(alloc),
                why: None,
                by: None,
            },
            profile_source: ProfileSource::CommandLine,
            files: FileOptions {
                root: None,
                config_file: ConfigFile::Discovered,
                organisation_config_file: None,
                tools: Vec::new(alloc),
            },
            engines: self.engines(),
            features: features_of(alloc, self.features)?,
            format: Format::Json,
            paper: Paper {
                colour: Colour::Plain,
                columns: 80,
            },
            shows_progress: false,
        })
    }
}

/// The triple of a machine and what the compiler prints for it, if there is one.
fn target_parts(target: Option<Machine>) -> (Option<String>, Option<String>)
    ensures triple { option_map string_bytes result.0
        ≡ option_map (λ machine. machine.triple) (option_map machine_view target) }
    ensures cfg { option_map string_bytes result.1
        ≡ option_and_then (λ machine. machine.cfg) (option_map machine_view target) }
{
    match target {
        Some(Machine { triple, cfg }) => (Some(triple), cfg),
        None => (None, None),
    }
}

/// Parts the request of a run from the files that it has.
pub fn parted(run: RunRequest) -> (RequestedRun, Gathered)
    ensures asked { requested_view result.0 ≡ requested_of (run_view run) }
    ensures files { AreFilesOf (run_view run) result.1 }
{
    let RunRequest {
        load,
        profile,
        mode,
        list,
    } = run;
    let LoadRequest {
        paths,
        config_file,
        organisation_file,
        tools,
        features,
        metadata,
        host,
        target,
        target_directory: _target_directory,
    } = load;
    let Machine { triple, cfg } = host;
    let (target, target_cfg) = target_parts(target);
    let asked = RequestedRun {
        profile,
        mode,
        host: triple,
        target,
        features,
    };
    let gathered = Gathered {
        paths,
        config_file,
        organisation_file,
        tools,
        rustc_version: None,
        host_cfg: cfg,
        target_cfg,
        metadata,
        list: Some(list),
    };
    (asked, gathered)
}
