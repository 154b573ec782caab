//! Reads the command line of `check`, which is about files.
ghost use Rattle.std.specs.Prelude.{◌≡◌, ◌≢◌, IfErr, IfOk, None, Some, codes, map, option_map, true};
ghost use Rattle.rinqebo_report.specs.Codes.Codes.{code_word};
ghost use Rattle.rinqebo_report.specs.declared.codes.code.Code.{Code};
ghost use Rattle.rinqebo_request.specs.Lines.{line_of, value_at};
ghost use Rattle.rinqebo_request.specs.Requests.{AreFileEngines, IsCheckBy, IsCheckRequest, IsCheckedBy, IsCheckedFile, IsDenialBy};
ghost use Rattle.rinqebo_request.specs.Refusals.{IsRefusedWith, SaysNoCode};
ghost use Rattle.rinqebo_request.specs.Stops.{IsInvalid};

use crate::environment::Environment;
use crate::hints::name_hint;
use crate::line::{has, is_on, value};
use crate::named::ProfileSource;
use crate::request::{Command, ConfigFile, EngineOptions, Question, Request};
use crate::words::{ParseStop, command_words, features, files, format, named_file, paper, usage};
use clap::ArgMatches;
use rinqebo_report::{CODES, Code, ReportCommand, find_code};
use std::alloc::{AllocError, Global};

/// Why a command line with `--stdin-path` is not a request: no standard input goes with it.
fn no_input(alloc: Global) -> Result<ParseStop, AllocError>
    ensures { IfOk result IsInvalid }
{
    let message = "`--stdin-path` goes with `-`, which stands for standard input";
    usage(alloc, message, None)
}

/// The repository's file of a check that FILE names. Only standard input takes `--stdin-path`.
fn file_named<'a>(
    alloc: Global,
    matches: &ArgMatches<'a>,
    path: &'a str,
    shown: Option<&'a str>,
) -> Result<ConfigFile<'a>, ParseStop>
    ensures { IfOk result (IsCheckedBy (line_of matches.now) (Some path.entry.now)
        (option_map (λ shown. shown.now) shown.entry)) }
{
    if has(matches, "config-file") {
        return Err(usage(alloc, "FILE cannot be used with `--config-file`", None)?);
    }
    if path == "-" {
        return Ok(ConfigFile::Input(shown.unwrap_or("-")));
    }
    match shown {
        Some(_) => Err(no_input(alloc)?),
        None => Ok(ConfigFile::Named(path)),
    }
}

/// The repository's file of a check without FILE: the one that an option names.
fn file_unnamed<'a>(
    alloc: Global,
    matches: &ArgMatches<'a>,
    shown: Option<&'a str>,
) -> Result<ConfigFile<'a>, ParseStop>
    ensures { IfOk result (IsCheckedBy (line_of matches.now) None
        (option_map (λ shown. shown.now) shown.entry)) }
{
    match shown {
        Some(_) => Err(no_input(alloc)?),
        None => Ok(named_file(matches)),
    }
}

/// The repository's file that a user names for a check, by FILE or by its option.
fn checked_file<'a>(alloc: Global, matches: &ArgMatches<'a>) -> Result<ConfigFile<'a>, ParseStop>
    ensures { IfOk result (IsCheckedFile (line_of matches.now)) }
{
    let shown = value(matches, "stdin-path");
    match value(matches, "FILE") {
        Some(path) => file_named(alloc, matches, path, shown),
        None => file_unnamed(alloc, matches, shown),
    }
}

/// What options say of packages, for a command that is about no test.
fn file_engines<'a>(matches: &ArgMatches<'a>) -> EngineOptions<'a>
    ensures { AreFileEngines (line_of matches.now) result }
{
    EngineOptions {
        host: None,
        rustc_version: None,
        target: None,
        build_target: None,
        host_cfg: None,
        target_cfg: None,
        metadata: value(matches, "metadata"),
    }
}

/// Whether a word names warnings. Nothing else can be denied.
fn denied_by(alloc: Global, word: &str) -> Result<bool, ParseStop>
    ensures { IfOk result (λ is_denied. (word.now ≡ codes "warnings") × (is_denied ≡ true)) }
{
    if word == "warnings" {
        return Ok(true);
    }
    Err(usage(alloc, "`--deny` takes `warnings`", None)?)
}

/// Whether a check with warnings ends with status 1.
fn denies_warnings(alloc: Global, matches: &ArgMatches<'_>) -> Result<bool, ParseStop>
    ensures { IfOk result (IsDenialBy (line_of matches.now)
        (value_at (codes "deny") (line_of matches.now))) }
{
    match value(matches, "deny") {
        Some(word) => denied_by(alloc, word),
        None => Ok(is_on(matches, "deny-warnings")),
    }
}

/// The words of all codes.
fn code_words(alloc: Global) -> Result<Vec<&'static str>, AllocError>
    ensures { IfOk result (λ words. map (λ word. word.now) words.items ≡ map code_word CODES) }
{
    let mut words = Vec::new(alloc);
    for code in CODES.iter() {
        words.push(code.word())?;
    }
    Ok(words)
}

/// Why a word is not that of a code.
fn no_code(alloc: Global, word: &str) -> Result<ParseStop, AllocError>
    ensures { IfOk result (SaysNoCode word.now) }
{
    let message = format!(in alloc; "no code is `{word}`: `--codes` lists all")?;
    let known = code_words(alloc)?;
    let hint = name_hint(alloc, word, &known)?;
    usage(alloc, message.as_str(), hint)
}

/// The code of a word.
fn code_named(alloc: Global, word: &str) -> Result<Code, ParseStop>
    ensures ok { IfOk result (λ code. code_word code ≡ word.now) }
    ensures err { IfErr result
        (IsRefusedWith ((code : Code) → code_word code ≢ word.now) (SaysNoCode word.now)) }
{
    match find_code(word) {
        Some(code) => Ok(code),
        None => Err(no_code(alloc, word)?),
    }
}

/// What a command line of `check` requests.
pub fn check_command<'a>(
    alloc: Global,
    matches: &ArgMatches<'a>,
    environment: &'a Environment,
) -> Result<Command<'a>, ParseStop>
    ensures { IfOk result (IsCheckBy environment.now (line_of matches.now)
        (value_at (codes "explain") (line_of matches.now))) }
{
    if let Some(word) = value(matches, "explain") {
        return Ok(Command::CodePage(code_named(alloc, word)?));
    }
    if is_on(matches, "codes") {
        return Ok(Command::Codes);
    }
    let request = check_request(alloc, matches, environment)?;
    Ok(Command::Answer(request))
}

/// The request of the command `check`.
fn check_request<'a>(
    alloc: Global,
    matches: &ArgMatches<'a>,
    environment: &'a Environment,
) -> Result<Request<'a>, ParseStop>
    ensures { IfOk result (IsCheckRequest environment.now (line_of matches.now)) }
{
    Ok(Request {
        question: Question::Check {
            deny_warnings: denies_warnings(alloc, matches)?,
        },
        words: command_words(alloc, matches, ReportCommand::Check)?,
        profile_source: ProfileSource::Fallback,
        files: files(alloc, matches, checked_file(alloc, matches)?)?,
        engines: file_engines(matches),
        features: features(alloc, matches, environment)?,
        format: format(matches, environment),
        paper: paper(matches, environment),
        shows_progress: false,
    })
}
