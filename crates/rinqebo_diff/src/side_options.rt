//! The options of the two sides of a `diff`.
ghost use Rattle.std.specs.Option.{option_map_or, option_or};
ghost use Rattle.std.specs.Prelude.{◌≡◌, IfOk, None, codes, if◌then◌else◌, option_map};
ghost use Rattle.rinqebo_request.specs.Lines.{line_of, value_at};
ghost use Rattle.rinqebo_request.specs.Requests.{AreEnginesOf, IsConfigOf, mode_by};
ghost use Rattle.rinqebo_request.specs.declared.environment.Environment.{Environment};
ghost use Rattle.rinqebo_request.specs.declared.named.ProfileSource.TheVariants as sources;
ghost use Rattle.rinqebo_diff.specs.RightLine.{is_given, right_line};
ghost use Rattle.rinqebo_diff.specs.SideOptions.{AreSideFilesOf, AreSideOptions, AreToolsOf, IsSideListOf};

use crate::line::{value, values};
use clap::ArgMatches;
use nextest_config::NextestRunMode;
use rinqebo_request::words::{
    engines, files, mode, mode_of, named_file, profile, profile_source, tool_files,
};
use rinqebo_request::{
    ConfigFile, EngineOptions, Environment, FileOptions, ListFile, ParseStop, ProfileSource,
    ToolFile,
};
use std::alloc::Global;

/// The options of a side.
#[derive(Drop)]
pub(crate) struct SideOptions<'a> {
    /// The name of the profile.
    pub profile: &'a str,
    /// What names the profile.
    pub profile_source: ProfileSource,
    /// The run mode.
    pub mode: NextestRunMode,
    /// The list of tests.
    pub list: ListFile<'a>,
    /// Which files are read.
    pub files: FileOptions<'a>,
    /// What is known of platforms and packages.
    pub engines: EngineOptions<'a>,
}

/// The list of tests of the left side.
fn left_list<'a>(matches: &ArgMatches<'a>) -> ListFile<'a>
    ensures { IsSideListOf (line_of matches.now) result }
{
    match value(matches, "LIST") {
        Some(path) => ListFile::at(path),
        None => ListFile::Input,
    }
}

/// The options of the left side.
fn left_options<'a>(
    alloc: Global,
    matches: &ArgMatches<'a>,
    environment: &'a Environment,
) -> Result<SideOptions<'a>, ParseStop>
    ensures { IfOk result (AreSideOptions environment.now (line_of matches.now)) }
{
    Ok(SideOptions {
        profile: profile(matches, environment),
        profile_source: profile_source(matches, environment),
        mode: mode(matches),
        list: left_list(matches),
        files: files(alloc, matches, named_file(matches))?,
        engines: engines(matches, environment),
    })
}

/// The value of an option of the right side: its own, or else that of the left side.
fn own_or<'a>(matches: &ArgMatches<'a>, own: &str, left: Option<&'a str>) -> Option<&'a str>
    ensures { option_map (λ text. text.now) result
        ≡ option_or (value_at own.now (line_of matches.now))
        (option_map (λ text. text.now) left.entry) }
{
    value(matches, own).or(left)
}

/// The files of tools of the right side: those of its own options, else those of the left side.
fn right_tools<'a>(
    alloc: Global,
    matches: &ArgMatches<'a>,
    left: Vec<ToolFile<'a>>,
) -> Result<Vec<ToolFile<'a>>, ParseStop>
    ensures { AreToolsOf (line_of matches.now) left.entry.items
        → IfOk result (λ tools. AreToolsOf (right_line (line_of matches.now)) tools.items) }
{
    let own = values(matches, "to-tool-config-file").unwrap_or(&[]);
    if own.is_empty() {
        return Ok(left);
    }
    tool_files(alloc, own)
}

/// The repository's file of the right side: the one of its own option, else that of the left side.
fn right_config_file<'a>(matches: &ArgMatches<'a>, left: ConfigFile<'a>) -> ConfigFile<'a>
    ensures { IsConfigOf (line_of matches.now) left.entry
        → IsConfigOf (right_line (line_of matches.now)) result }
{
    match value(matches, "to-config-file") {
        Some(path) => ConfigFile::Named(path),
        None => left,
    }
}

/// The files of the right side: those of the left side, unless its own options name others.
fn right_files<'a>(
    alloc: Global,
    matches: &ArgMatches<'a>,
    left: FileOptions<'a>,
) -> Result<FileOptions<'a>, ParseStop>
    ensures { AreSideFilesOf (line_of matches.now) left.entry
        → IfOk result (AreSideFilesOf (right_line (line_of matches.now))) }
{
    let FileOptions {
        root,
        config_file,
        organisation_config_file,
        tools,
    } = left;
    Ok(FileOptions {
        root: own_or(matches, "to-root", root),
        config_file: right_config_file(matches, config_file),
        organisation_config_file: own_or(
            matches,
            "to-organisation-config-file",
            organisation_config_file,
        ),
        tools: right_tools(alloc, matches, tools)?,
    })
}

/// The compiler's output that names the host of the right side: that of the left side, unless the
/// right side has a host of its own.
fn right_compiler<'a>(matches: &ArgMatches<'a>, left: Option<&'a str>) -> Option<&'a str>
    ensures { option_map (λ path. path.now) result
        ≡ (if is_given (codes "to-host") (line_of matches.now) then None
        else option_map (λ path. path.now) left.entry) }
{
    match value(matches, "to-host") {
        Some(_) => None,
        None => left,
    }
}

/// What the languages of the right side know: what those of the left side do, unless its own
/// options say otherwise.
fn right_engines<'a>(matches: &ArgMatches<'a>, left: EngineOptions<'a>) -> EngineOptions<'a>
    ensures { (environment : Environment)
        → AreEnginesOf environment (line_of matches.now) left.entry
        → AreEnginesOf environment (right_line (line_of matches.now)) result }
{
    EngineOptions {
        host: own_or(matches, "to-host", left.host),
        rustc_version: right_compiler(matches, left.rustc_version),
        target: own_or(matches, "to-target", left.target),
        host_cfg: own_or(matches, "to-host-cfg", left.host_cfg),
        target_cfg: own_or(matches, "to-target-cfg", left.target_cfg),
        metadata: own_or(matches, "to-metadata", left.metadata),
        build_target: left.build_target,
    }
}

/// What names the profile of the right side.
fn right_source(matches: &ArgMatches<'_>, left: ProfileSource) -> ProfileSource
    ensures { result ≡ (if is_given (codes "to-profile") (line_of matches.now)
        then sources.CommandLine else left) }
{
    match value(matches, "to-profile") {
        Some(_) => ProfileSource::CommandLine,
        None => left,
    }
}

/// The run mode of the right side.
fn right_mode(matches: &ArgMatches<'_>, left: NextestRunMode) -> NextestRunMode
    ensures { result
        ≡ option_map_or mode_by (value_at (codes "to-mode") (line_of matches.now)) left }
{
    match value(matches, "to-mode") {
        Some(word) => mode_of(word),
        None => left,
    }
}

/// The list of tests of the right side.
fn right_list<'a>(matches: &ArgMatches<'a>, left: ListFile<'a>) -> ListFile<'a>
    ensures { IsSideListOf (line_of matches.now) left.entry
        → IsSideListOf (right_line (line_of matches.now)) result }
{
    match value(matches, "to-list") {
        Some(path) => ListFile::at(path),
        None => left,
    }
}

/// The options of the right side: those of the left side, unless it has its own.
fn right_options<'a>(
    alloc: Global,
    matches: &ArgMatches<'a>,
    left: SideOptions<'a>,
) -> Result<SideOptions<'a>, ParseStop>
    ensures { (environment : Environment)
        → AreSideOptions environment (line_of matches.now) left.entry
        → IfOk result (AreSideOptions environment (right_line (line_of matches.now))) }
{
    let SideOptions {
        profile,
        profile_source,
        mode,
        list,
        files,
        engines,
    } = left;
    Ok(SideOptions {
        profile: value(matches, "to-profile").unwrap_or(profile),
        profile_source: right_source(matches, profile_source),
        mode: right_mode(matches, mode),
        list: right_list(matches, list),
        files: right_files(alloc, matches, files)?,
        engines: right_engines(matches, engines),
    })
}

/// The options of the left side, and those of the right side.
pub(crate) fn both_options<'a>(
    alloc: Global,
    matches: &ArgMatches<'a>,
    environment: &'a Environment,
) -> Result<(SideOptions<'a>, SideOptions<'a>), ParseStop>
    ensures { IfOk result (λ both. AreSideOptions environment.now (line_of matches.now) both.0
        × AreSideOptions environment.now (right_line (line_of matches.now)) both.1) }
{
    let left = left_options(alloc, matches, environment)?;
    let copy = left_options(alloc, matches, environment)?;
    let right = right_options(alloc, matches, copy)?;
    Ok((left, right))
}
