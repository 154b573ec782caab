//! Reads the command line of `explain`, which is about one test.
ghost use Rattle.std.specs.Prelude.{◌≡◌, ◌&&◌, ◌||◌, None, Some, IfOk, codes, is_some, not, option_map};
ghost use Rattle.rinqebo_request.specs.Lines.{has, line_of, value_at};
ghost use Rattle.rinqebo_request.specs.Requests.{AreEnginesOf, IsExplainRequest, IsExplainedBy, IsListIn, IsNamedBy, IsTestOf, LacksTarget, platform_by};
ghost use Rattle.rinqebo_request.specs.Stops.{IsInvalid};

use crate::environment::Environment;
use crate::line::{has, is_on, value};
use crate::request::{EngineOptions, ListFile, Question, Request, RequestedTest};
use crate::rows::{explained_rows, one_setting};
use crate::words::{
    ParseStop, command_words, engines, features, files, format, mode, named_file, paper, profile,
    profile_source, target_engines, usage,
};
use clap::ArgMatches;
use nextest_engines::BuildPlatform;
use rinqebo_keys::RUNS;
use rinqebo_report::ReportCommand;
use std::alloc::Global;

/// The words that name a test: the id of its binary, if there is one, and its name.
#[derive(Clone, Copy)]
struct TestWords<'a> {
    binary: Option<&'a str>,
    name: &'a str,
}

/// The single word of a command line that names a test: its name.
fn single_word<'a>(alloc: Global, matches: &ArgMatches<'a>) -> Result<TestWords<'a>, ParseStop>
    ensures { IfOk result (λ words. IsNamedBy (value_at (codes "BINARY") (line_of matches.now))
        None (option_map (λ id. id.now) words.binary) words.name.now) }
{
    match value(matches, "BINARY") {
        Some(name) => Ok(TestWords { binary: None, name }),
        None => Err(usage(alloc, "no TEST is named", None)?),
    }
}

/// The words of a command line that name a test. A single word is its name.
fn test_words<'a>(alloc: Global, matches: &ArgMatches<'a>) -> Result<TestWords<'a>, ParseStop>
    ensures { IfOk result (λ words. let line = line_of matches.now in
        IsNamedBy (value_at (codes "BINARY") line) (value_at (codes "TEST") line)
        (option_map (λ id. id.now) words.binary) words.name.now) }
{
    match value(matches, "TEST") {
        Some(name) => Ok(TestWords {
            binary: value(matches, "BINARY"),
            name,
        }),
        None => single_word(alloc, matches),
    }
}

/// The platform of the binary, if neither a list nor metadata have it.
fn platform(is_host: bool) -> BuildPlatform
    ensures { result ≡ platform_by is_host }
{
    if is_host {
        BuildPlatform::Host
    } else {
        BuildPlatform::Target
    }
}

/// The list of tests, if the user names one.
fn named_list<'a>(matches: &ArgMatches<'a>) -> Option<ListFile<'a>>
    ensures { IsListIn (value_at (codes "list") (line_of matches.now)) result }
{
    match value(matches, "list") {
        Some(path) => Some(ListFile::at(path)),
        None => None,
    }
}

/// The usage error for a test without a binary and without a list to find it in.
fn no_list(alloc: Global, name: &str) -> Result<ParseStop, ParseStop>
    ensures { IfOk result IsInvalid }
{
    let message = format!(in alloc; "LIST is needed to find the binary of `{name}`")?;
    let hint = "name LIST by `--list FILE`, or write BINARY before TEST";
    let hint = String::from_str(alloc, hint)?;
    Ok(usage(alloc, message.as_str(), Some(hint))?)
}

/// Whether a test has neither a binary nor a list to find it in.
fn lacks_binary(binary: Option<&str>, list: Option<ListFile<'_>>) -> bool
    ensures { result ≡ (not (is_some binary.entry) && not (is_some list.entry)) }
{
    binary.is_none() && list.is_none()
}

/// Whether a user says that a binary is built for the host, though a list has its platform.
fn is_listed_for_host(list: Option<ListFile<'_>>, is_host: bool) -> bool
    ensures { result ≡ (is_some list.entry && is_host) }
{
    list.is_some() && is_host
}

/// The requested test.
fn requested_test<'a>(
    alloc: Global,
    matches: &ArgMatches<'a>,
) -> Result<RequestedTest<'a>, ParseStop>
    ensures { IfOk result (IsTestOf (line_of matches.now)) }
{
    let words = test_words(alloc, matches)?;
    let list = named_list(matches);
    let is_host = is_on(matches, "host-binary");
    if lacks_binary(words.binary, list) {
        return Err(no_list(alloc, words.name)?);
    }
    if is_listed_for_host(list, is_host) {
        let message = "`--host-binary` goes without `--list`: LIST has the platform of the binary";
        return Err(usage(alloc, message, None)?);
    }
    Ok(RequestedTest {
        binary: words.binary,
        name: words.name,
        platform: platform(is_host),
        mode: mode(matches),
        list,
    })
}

/// Whether a command line names KEYs.
fn names_keys(matches: &ArgMatches<'_>) -> bool
    ensures { result ≡ (has (codes "KEY") (line_of matches.now)
        || has (codes "key") (line_of matches.now)) }
{
    has(matches, "KEY") || has(matches, "key")
}

/// What a user requests of a test, if it is why it has the value of a KEY.
fn why_question<'a>(
    alloc: Global,
    matches: &ArgMatches<'a>,
    environment: &'a Environment,
    test: RequestedTest<'a>,
    key: &str,
) -> Result<Question<'a>, ParseStop>
    ensures { IfOk result (λ question. IsTestOf (line_of matches.now) test.entry
        → IsExplainedBy environment.now (line_of matches.now) (Some key.now) question) }
{
    if names_keys(matches) {
        return Err(usage(alloc, "`--why` cannot be used with KEYs", None)?);
    }
    let profile = profile(matches, environment);
    if key == RUNS {
        return Ok(Question::WhyRuns { profile, test });
    }
    Ok(Question::Why {
        profile,
        test,
        setting: one_setting(alloc, "--why", key, test.mode)?,
    })
}

/// What a user requests of a test.
fn explain_question<'a>(
    alloc: Global,
    matches: &ArgMatches<'a>,
    environment: &'a Environment,
) -> Result<Question<'a>, ParseStop>
    ensures { IfOk result (IsExplainedBy environment.now (line_of matches.now)
        (value_at (codes "why") (line_of matches.now))) }
{
    let test = requested_test(alloc, matches)?;
    if let Some(key) = value(matches, "why") {
        return why_question(alloc, matches, environment, test, key);
    }
    Ok(Question::Explain {
        profile: profile(matches, environment),
        test,
        asked: explained_rows(alloc, matches, test.mode)?,
    })
}

/// What options say of platforms and packages. A list of tests may name the target.
fn explain_engines<'a>(
    alloc: Global,
    matches: &ArgMatches<'a>,
    environment: &'a Environment,
) -> Result<EngineOptions<'a>, ParseStop>
    ensures { IfOk result (λ engines. let line = line_of matches.now in
        AreEnginesOf environment.now line engines
        × (value_at (codes "list") line ≡ None → ¬ LacksTarget environment.now line)) }
{
    match value(matches, "list") {
        Some(_) => Ok(engines(matches, environment)),
        None => target_engines(alloc, matches, environment),
    }
}

/// The request of the command `explain`.
pub fn explain_request<'a>(
    alloc: Global,
    matches: &ArgMatches<'a>,
    environment: &'a Environment,
) -> Result<Request<'a>, ParseStop>
    ensures { IfOk result (IsExplainRequest environment.now (line_of matches.now)) }
{
    let question = explain_question(alloc, matches, environment)?;
    let engines = explain_engines(alloc, matches, environment)?;
    Ok(Request {
        question,
        words: command_words(alloc, matches, ReportCommand::Explain)?,
        profile_source: profile_source(matches, environment),
        files: files(alloc, matches, named_file(matches))?,
        engines,
        features: features(alloc, matches, environment)?,
        format: format(matches, environment),
        paper: paper(matches, environment),
        shows_progress: false,
    })
}
