//! Reads a command line.
ghost use Rattle.std.specs.List.{AllZip};
ghost use Rattle.std.specs.Option.{option_or};
ghost use Rattle.std.specs.Prelude.{◌≡◌, ◌≢◌, ◌++◌, ◌∷◌, ◌&&◌, [], IfErr, IfOk, IfSome, None, OnOk, codes, is_some, map, not, option_map, string_bytes};
ghost use Rattle.clap.specs.Simple.{subcommand_of, subcommand_rows_of};
ghost use Rattle.clap.specs.Values.{kind_of};
ghost use Rattle.nextest_elements.specs.Identifier.{IsPart};
ghost use Rattle.nextest_elements.specs.IdentifierText.{tool_name_text};
ghost use Rattle.rinqebo_request.specs.ArgumentTable.{AreProgramChoices, ProgramChoices, program_app};
ghost use Rattle.rinqebo_request.specs.Lines.{line_of, value_at, values_at};
ghost use Rattle.rinqebo_request.specs.Requests.{AreCommandWords, AreEnginesOf, AreFilesOf, IsCommandOf, IsConfigOf, IsListOf, IsListRequest, IsListing, IsNamedCommand, IsSchemaBy, IsShowRequest, IsToolNamed, LacksTarget, mode_by, mode_of, profile_of, source_by, source_of};
ghost use Rattle.rinqebo_request.specs.Rows.{keys_of};
ghost use Rattle.rinqebo_request.specs.Variables.{text_set};
ghost use Rattle.rinqebo_request.specs.Stops.{IsInvalid, IsRefusedFor, IsStopFor, IsToolRefusal, IsUsage};

use crate::check_words::check_command;
use crate::environment::{Environment, set};
use crate::line::{is_on, value, values};
use crate::named::ProfileSource;
pub use crate::named_features::features;
use crate::options::program;
use crate::pages::list_format;
pub use crate::pages::{format, paper};
use crate::request::{
    Command, CommandWords, ConfigFile, EngineOptions, FileOptions, ListFile, Question, Request,
    ToolFile,
};
use crate::rows::listed_rows;
use crate::test_words::explain_request;
use clap::ArgMatches;
use clap::error::ErrorKind;
use nextest_elements::{InvalidIdentifier, NextestRunMode, ToolName};
use rinqebo_report::ReportCommand;
use std::alloc::{AllocError, Global};

/// Why a command line is not a request.
#[derive(Debug, Drop)]
pub enum ParseStop {
    /// It requests help, which is this text.
    Help(String),
    /// It is not valid. The text says why.
    Usage(String),
    /// Memory ran out.
    Memory,
}

impl From<AllocError> for ParseStop {
    ghost use Rattle.std.specs.Prelude.{◌≡◌};
    ghost use Rattle.rinqebo_request.specs.declared.words.ParseStop.TheVariants.{Memory};

    ghost from_gives = { λ _ stop. stop ≡ Memory };

    fn from(_error: AllocError) -> ParseStop {
        ParseStop::Memory
    }
}

/// A usage error, with a hint if there is one.
pub fn usage(alloc: Global, message: &str, hint: Option<String>) -> Result<ParseStop, AllocError>
    ensures text { IfOk result (IsUsage message.now (option_map string_bytes hint)) }
    ensures invalid { IfOk result IsInvalid }
{
    match hint {
        Some(hint) => Ok(ParseStop::Usage(format!(in alloc; "error: {message}\n  {hint}\n")?)),
        None => Ok(ParseStop::Usage(format!(in alloc; "error: {message}\n")?)),
    }
}

/// What clap says in place of what it reads: help, or why a command line is not valid.
fn stop_with(kind: ErrorKind, text: String) -> ParseStop
    ensures { kind ≢ ErrorKind.OutOfMemory → IsStopFor kind result }
{
    match kind {
        ErrorKind::DisplayHelp | ErrorKind::DisplayVersion => ParseStop::Help(text),
        _ => ParseStop::Usage(text),
    }
}

/// Why the command line was not read.
pub fn stop_of(alloc: Global, error: &clap::Error) -> Result<ParseStop, AllocError>
    ensures { IfOk result (IsStopFor (kind_of error.now)) }
{
    match error.kind() {
        ErrorKind::OutOfMemory => Ok(ParseStop::Memory),
        kind => Ok(stop_with(kind, error.to_string(alloc)?)),
    }
}

/// Why a text is not the name of a tool.
fn no_tool_name(
    alloc: Global,
    name: &str,
    fault: &InvalidIdentifier,
) -> Result<ParseStop, AllocError>
    ensures { IfOk result IsInvalid }
{
    let message = format!(in alloc; "`{name}` is not a valid tool name: {fault}")?;
    usage(alloc, message.as_str(), None)
}

/// Why a name is not that of a tool: a text that is not one, or that memory ran out.
fn tool_refusal(
    alloc: Global,
    name: &str,
    fault: &InvalidIdentifier,
) -> Result<ParseStop, AllocError>
    ensures { IfOk result (IsToolRefusal fault.now) }
{
    match fault {
        InvalidIdentifier::Memory => Ok(ParseStop::Memory),
        _ => no_tool_name(alloc, name, fault),
    }
}

/// The name of a tool.
fn tool_name(alloc: Global, name: &str) -> Result<ToolName, ParseStop>
    ensures ok { IfOk result (λ tool. tool_name_text tool ≡ name.now) }
    ensures err { IfErr result (IsRefusedFor (¬ IsPart name.now)) }
{
    match ToolName::new(alloc, name) {
        Ok(tool) => Ok(tool),
        Err(fault) => Err(tool_refusal(alloc, name, &fault)?),
    }
}

/// What is before the first colon of a text, and behind it.
fn cut_at_colon(text: &str) -> Option<(&str, &str)>
    ensures { IfSome result (λ parts. text.now ≡ parts.0.now ++ 58 ∷ parts.1.now) }
{
    text.split_once(':')
}

/// The same, if something is behind the colon.
fn split_at_colon(text: &str) -> Option<(&str, &str)>
    ensures { IfSome result (λ parts. (text.now ≡ parts.0.now ++ 58 ∷ parts.1.now)
        × (parts.1.now ≢ [])) }
{
    let (tool, path) = cut_at_colon(text)?;
    if path.is_empty() {
        return None;
    }
    Some((tool, path))
}

/// The file of a tool, from the value of its option.
fn tool_file<'a>(alloc: Global, value: &'a str) -> Result<ToolFile<'a>, ParseStop>
    ensures { IfOk result (IsToolNamed value.entry.now) }
{
    match split_at_colon(value) {
        Some((tool, path)) => Ok(ToolFile {
            tool: tool_name(alloc, tool)?,
            path,
        }),
        None => {
            let message = format!(in alloc; "`{value}` is not of the form TOOL:PATH")?;
            Err(usage(alloc, message.as_str(), None)?)
        }
    }
}

/// Adds the file of a tool.
fn add_file<'a>(tools: &mut Vec<ToolFile<'a>>, file: ToolFile<'a>) -> Result<(), AllocError>
    ensures { OnOk result (tools.new.items ≡ tools.old.items ++ file.entry ∷ []) }
{
    tools.push(file)?;
    Ok(())
}

/// The files of tools, from the values of their option.
pub fn tool_files<'a>(alloc: Global, values: &[&'a str]) -> Result<Vec<ToolFile<'a>>, ParseStop>
    ensures { IfOk result (λ tools. AllZip IsToolNamed (map (λ value. value.now) values.now)
        tools.items) }
{
    let mut tools = Vec::new(alloc);
    for value in values {
        let file = tool_file(alloc, *value)?;
        add_file(&mut tools, file)?;
    }
    Ok(tools)
}

/// The files that options name, with the repository's file.
pub fn files<'a>(
    alloc: Global,
    matches: &ArgMatches<'a>,
    config_file: ConfigFile<'a>,
) -> Result<FileOptions<'a>, ParseStop>
    ensures { IfOk result (AreFilesOf (λ file. file ≡ config_file.entry) (line_of matches.now)) }
{
    Ok(FileOptions {
        root: value(matches, "root"),
        config_file,
        organisation_config_file: value(matches, "organisation-config-file"),
        tools: tool_files(alloc, values(matches, "tool-config-file").unwrap_or(&[]))?,
    })
}

/// The repository's file that an option names.
pub fn named_file<'a>(matches: &ArgMatches<'a>) -> ConfigFile<'a>
    ensures { IsConfigOf (line_of matches.now) result }
{
    match value(matches, "config-file") {
        Some(path) => ConfigFile::Named(path),
        None => ConfigFile::Discovered,
    }
}

/// What options say of platforms and packages. A list of tests may name the target, so that the
/// program decides later whether there is one.
pub fn engines<'a>(matches: &ArgMatches<'a>, environment: &'a Environment) -> EngineOptions<'a>
    ensures { AreEnginesOf environment.now (line_of matches.now) result }
{
    EngineOptions {
        host: value(matches, "host"),
        rustc_version: value(matches, "rustc-version"),
        target: value(matches, "target"),
        build_target: set(&environment.target),
        host_cfg: value(matches, "host-cfg"),
        target_cfg: value(matches, "target-cfg"),
        metadata: value(matches, "metadata"),
    }
}

/// Whether there is no target for the compiler's output that an option names.
fn lacks_target(engines: &EngineOptions<'_>) -> bool
    ensures { result ≡ (is_some engines.now.target_cfg
        && not (is_some (option_or engines.now.target engines.now.build_target))) }
{
    engines.target_cfg.is_some() && engines.target.or(engines.build_target).is_none()
}

/// The same for a command without a list. `--target-cfg` needs a target.
pub fn target_engines<'a>(
    alloc: Global,
    matches: &ArgMatches<'a>,
    environment: &'a Environment,
) -> Result<EngineOptions<'a>, ParseStop>
    ensures ok { IfOk result (λ engines. AreEnginesOf environment.now (line_of matches.now) engines
        × ¬ LacksTarget environment.now (line_of matches.now)) }
    ensures err { IfErr result
        (IsRefusedFor (LacksTarget environment.now (line_of matches.now))) }
{
    let engines = engines(matches, environment);
    if lacks_target(&engines) {
        return Err(usage(alloc, "`--target-cfg` goes with `--target`", None)?);
    }
    Ok(engines)
}

/// The mode that a word names.
pub fn mode_of(word: &str) -> NextestRunMode
    ensures { result ≡ mode_by word.now }
{
    match word {
        "benchmark" => NextestRunMode::Benchmark,
        _ => NextestRunMode::Test,
    }
}

/// The requested mode.
pub fn mode(matches: &ArgMatches<'_>) -> NextestRunMode
    ensures { result ≡ mode_of (line_of matches.now) }
{
    mode_of(value(matches, "mode").unwrap_or("test"))
}

/// The requested profile.
pub fn profile<'a>(matches: &ArgMatches<'a>, environment: &'a Environment) -> &'a str
    ensures { result.now ≡ profile_of environment.now (line_of matches.now) }
{
    value(matches, "profile")
        .or(set(&environment.profile))
        .unwrap_or("default")
}

/// What names the profile of a command line that does not.
fn source_unnamed(environment: &Environment) -> ProfileSource
    ensures { result ≡ source_by None (text_set environment.now.profile) }
{
    match set(&environment.profile) {
        Some(_) => ProfileSource::Variable,
        None => ProfileSource::Fallback,
    }
}

/// What names the requested profile.
pub fn profile_source(matches: &ArgMatches<'_>, environment: &Environment) -> ProfileSource
    ensures { result ≡ source_of environment.now (line_of matches.now) }
{
    match value(matches, "profile") {
        Some(_) => ProfileSource::CommandLine,
        None => source_unnamed(environment),
    }
}

/// The list of tests of the command `list`.
fn tests_list<'a>(matches: &ArgMatches<'a>) -> ListFile<'a>
    ensures { IsListOf (value_at (codes "LIST") (line_of matches.now)) result }
{
    match value(matches, "LIST") {
        Some(path) => ListFile::at(path),
        None => ListFile::Input,
    }
}

/// What a user requests of a list of tests.
fn list_question<'a>(
    alloc: Global,
    matches: &ArgMatches<'a>,
    environment: &'a Environment,
) -> Result<Question<'a>, ParseStop>
    ensures { IfOk result (IsListing environment.now (line_of matches.now)) }
{
    let mode = mode(matches);
    Ok(Question::List {
        profile: profile(matches, environment),
        mode,
        list: tests_list(matches),
        asked: listed_rows(alloc, matches, mode)?,
    })
}

/// The KEYs of a command line, and behind them those of `--key`.
fn written_keys<'a>(alloc: Global, matches: &ArgMatches<'a>) -> Result<Vec<&'a str>, AllocError>
    ensures { IfOk result (λ keys. map (λ key. key.now) keys.items
        ≡ keys_of (line_of matches.now)) }
{
    let mut keys = leaf_keys(alloc, matches)?;
    keys.extend_from_slice(values(matches, "key").unwrap_or(&[]))?;
    Ok(keys)
}

/// The command of a command line, and its KEYs as the user writes them.
pub fn command_words<'a>(
    alloc: Global,
    matches: &ArgMatches<'a>,
    command: ReportCommand,
) -> Result<CommandWords<'a>, AllocError>
    ensures { IfOk result (AreCommandWords command (line_of matches.now)) }
{
    Ok(CommandWords {
        command,
        keys: written_keys(alloc, matches)?,
        why: value(matches, "why"),
        by: value(matches, "by"),
    })
}

/// The request of the command `list`.
fn list_request<'a>(
    alloc: Global,
    matches: &ArgMatches<'a>,
    environment: &'a Environment,
) -> Result<Request<'a>, ParseStop>
    ensures { IfOk result (IsListRequest environment.now (line_of matches.now)) }
{
    Ok(Request {
        question: list_question(alloc, matches, environment)?,
        words: command_words(alloc, matches, ReportCommand::List)?,
        profile_source: profile_source(matches, environment),
        files: files(alloc, matches, named_file(matches))?,
        engines: engines(matches, environment),
        features: features(alloc, matches, environment)?,
        format: list_format(matches, environment),
        paper: paper(matches, environment),
        shows_progress: environment.is_error_terminal && !environment.is_terminal,
    })
}

/// The KEYs of a command line.
fn leaf_keys<'a>(alloc: Global, matches: &ArgMatches<'a>) -> Result<Vec<&'a str>, AllocError>
    ensures { IfOk result (λ keys. map (λ key. key.now) keys.items
        ≡ values_at (codes "KEY") (line_of matches.now)) }
{
    Vec::from_slice(alloc, values(matches, "KEY").unwrap_or(&[]))
}

/// The request of the command `show-config`.
fn show_request<'a>(
    alloc: Global,
    matches: &ArgMatches<'a>,
    environment: &'a Environment,
) -> Result<Request<'a>, ParseStop>
    ensures { IfOk result (IsShowRequest environment.now (line_of matches.now)) }
{
    Ok(Request {
        question: Question::ShowConfig {
            profile: profile(matches, environment),
            keys: leaf_keys(alloc, matches)?,
            with_hidden: is_on(matches, "hidden"),
        },
        words: command_words(alloc, matches, ReportCommand::ShowConfig)?,
        profile_source: profile_source(matches, environment),
        files: files(alloc, matches, named_file(matches))?,
        engines: target_engines(alloc, matches, environment)?,
        features: features(alloc, matches, environment)?,
        format: format(matches, environment),
        paper: paper(matches, environment),
        shows_progress: false,
    })
}

/// The schema that a command line names.
fn schema_command<'a>(matches: &ArgMatches<'a>) -> Command<'a>
    ensures { IsSchemaBy (line_of matches.now) result }
{
    if is_on(matches, "document") {
        Command::DocumentSchema
    } else {
        Command::Schema
    }
}

/// The command of a command line behind a name.
fn named_command<'a>(
    alloc: Global,
    name: &str,
    matches: &ArgMatches<'a>,
    environment: &'a Environment,
) -> Result<Command<'a>, ParseStop>
    ensures { IfOk result (IsNamedCommand environment.now name.now (line_of matches.now)) }
{
    match name {
        "explain" => Ok(Command::Answer(explain_request(alloc, matches, environment)?)),
        "list" => Ok(Command::Answer(list_request(alloc, matches, environment)?)),
        "show-config" => Ok(Command::Answer(show_request(alloc, matches, environment)?)),
        "schema" => Ok(schema_command(matches)),
        _ => check_command(alloc, matches, environment),
    }
}

/// The command of a command line that clap accepts.
pub fn command_of<'a>(
    alloc: Global,
    matches: &ArgMatches<'a>,
    environment: &'a Environment,
) -> Result<Command<'a>, ParseStop>
    ensures { IfOk result (IsCommandOf environment.now (subcommand_rows_of matches.now)) }
{
    match matches.subcommand() {
        Some((name, matches)) => named_command(alloc, name, matches, environment),
        None => Err(usage(alloc, "no command", None)?),
    }
}

/// Reads a command line, which begins with the program's name, and the environment.
pub fn parse<'a>(
    alloc: Global,
    words: &'a [String],
    environment: &'a Environment,
) -> Result<Command<'a>, ParseStop>
    ensures { IfOk result (λ command. (choices : ProgramChoices) × AreProgramChoices choices
        × IsCommandOf environment.now
        (subcommand_of (program_app choices) (map string_bytes words.now)) command) }
{
    match program(alloc)?.try_get_matches_from(words) {
        Ok(matches) => command_of(alloc, &matches, environment),
        Err(error) => Err(stop_of(alloc, &error)?),
    }
}
