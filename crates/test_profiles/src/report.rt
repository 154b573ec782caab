//! The report of a run: the load of a case's files, and what a profile of them writes.
use crate::lines::{Call, Lines, once_more};
use crate::numbers::add_numbers;
use crate::profile::{add_early, add_profile};
use crate::rows::add_rows;
use crate::run::{Config, ENGINES, Early, Profile, Run};
use crate::tests::{
    add_binary, add_debug_settings, add_empty_groups, add_groups, add_setup_scripts, add_test,
};
use nextest_config::{
    ConfigParseError, ConfigParseErrorKind, DefaultConfigWarnings, NextestConfig, ProfileError,
};
use std::alloc::AllocError;
use std::fmt::Debug;

/// The names of a case and of a profile, and what the profile returns.
pub fn report_of(run: &Run<'_>) -> Result<String, AllocError> {
    let case = run.case;
    let mut lines = Lines::new(run.alloc, case.name, run.profile, case.shown);
    match load_once_more(run, &mut lines) {
        Ok(config) => add_config(run, &mut lines, &config),
        Err(error) => add_refusal(run, &mut lines, &error),
    }
    lines.into_text()
}

/// Loads the files of a case, and once more after memory was refused.
fn load_once_more(run: &Run<'_>, lines: &mut Lines<'_>) -> Result<Config, ConfigParseError> {
    let error = match load(run) {
        Ok(config) => return Ok(config),
        Err(error) => error,
    };
    if !matches!(error.kind(), ConfigParseErrorKind::Memory) {
        return Err(error);
    }
    lines.note_again(Call::FromSources);
    load(run)
}

/// Loads the files of a case. Without a file of the organisation the warnings are kept.
fn load(run: &Run<'_>) -> Result<Config, ConfigParseError> {
    let case = run.case;
    let root = case.paths.workspace_root.as_str();
    let shared = &case.paths.shared;
    let selection = run.selection();
    if selection.organisation_file().is_none() {
        return NextestConfig::from_sources(
            run.alloc,
            root,
            shared,
            &ENGINES,
            None,
            &case.tools,
            run.features,
        );
    }
    NextestConfig::from_sources_with_selection(
        run.alloc,
        root,
        shared,
        &ENGINES,
        selection,
        &case.tools,
        run.features,
        &mut DefaultConfigWarnings::new(run.alloc),
    )
}

/// Adds why the files or the profile are refused, and the rows.
fn add_refusal<E: Debug>(run: &Run<'_>, lines: &mut Lines<'_>, error: &E) {
    lines.add("refused", error);
    add_rows(run, lines);
}

/// Adds what a configuration kept, and what a profile of it writes.
fn add_config(run: &Run<'_>, lines: &mut Lines<'_>, config: &Config) {
    add_warnings(run, lines, config);
    let asked = once_more!(
        lines,
        Profile,
        Err(ProfileError::Memory),
        config.profile(run.alloc, run.profile)
    );
    match asked {
        Ok(early) => add_early_profile(run, lines, early),
        Err(error) => add_refusal(run, lines, &error),
    }
}

/// Adds the lines of the warnings that a configuration kept.
fn add_warnings(run: &Run<'_>, lines: &mut Lines<'_>, config: &Config) {
    let made = once_more!(
        lines,
        Lines,
        Err(AllocError),
        config.warnings().lines(run.alloc)
    );
    if let Some(warnings) = lines.made(made) {
        lines.add("warnings", &warnings);
    }
}

/// Adds what a profile writes before the platforms are known, and on those of the build. If memory
/// was refused, the profile that was returned is used once more.
fn add_early_profile(run: &Run<'_>, lines: &mut Lines<'_>, early: Early<'_>) {
    add_early(run, lines, &early);
    match early.apply_build_platforms(run.alloc, run.platforms) {
        Ok(profile) => add_evaluatable(run, lines, &profile),
        Err(early) => add_once_more(run, lines, early),
    }
}

/// Adds what a profile writes on the platforms of the build, if they were applied once in vain.
fn add_once_more(run: &Run<'_>, lines: &mut Lines<'_>, early: Early<'_>) {
    lines.note_again(Call::ApplyBuildPlatforms);
    match early.apply_build_platforms(run.alloc, run.platforms) {
        Ok(profile) => add_evaluatable(run, lines, &profile),
        Err(_) => lines.want_memory(),
    }
}

/// Adds what a profile writes on the platforms of the build, the results of its queries, and then
/// the rows and the numbers of rules.
fn add_evaluatable(run: &Run<'_>, lines: &mut Lines<'_>, profile: &Profile<'_>) {
    let case = run.case;
    add_profile(run, lines, profile);
    for test in &case.tests {
        add_test(run.alloc, lines, profile, test);
    }
    for binary in &case.binaries {
        add_binary(lines, profile, binary);
    }
    add_debug_settings(lines, profile);
    add_setup_scripts(run, lines, profile);
    add_groups(run, lines, profile);
    add_empty_groups(run, lines);
    add_rows(run, lines);
    add_numbers(lines, case, profile);
}
