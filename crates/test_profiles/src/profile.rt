//! What a profile writes, before and after the platforms are known.
use crate::lines::{Call, Lines, once_more};
use crate::run::{Early, Profile, Run};
use indexmap::IndexMap;
use nextest_config::{NextestRunMode, ScriptId};
use std::alloc::{AllocError, Global};

/// Adds what a profile writes before the platforms are known.
pub fn add_early(run: &Run<'_>, lines: &mut Lines<'_>, early: &Early<'_>) {
    lines.add("early-store-dir", &early.store_dir());
    lines.add("has-junit", &early.has_junit());
    lines.add("test-groups", &early.test_group_config().len());
    let made = once_more!(
        lines,
        KnownGroups,
        Err(AllocError),
        early.known_groups(run.alloc)
    );
    if let Some(groups) = lines.made(made) {
        lines.add("known-groups", &groups);
    }
}

/// Adds what a profile writes on the platforms of a build.
pub fn add_profile(run: &Run<'_>, lines: &mut Lines<'_>, profile: &Profile<'_>) {
    add_names(run, lines, profile);
    add_places(run, lines, profile);
    add_run(lines, profile);
    add_limits(lines, profile);
    add_of_tests(lines, profile);
}

/// Adds who a profile is, and which scripts it knows.
fn add_names(run: &Run<'_>, lines: &mut Lines<'_>, profile: &Profile<'_>) {
    let scripts = profile.script_config();
    lines.add("name", &profile.name());
    lines.add("inherits", &profile.inherits());
    add_ids(run.alloc, lines, "setup-order", &scripts.setup);
    add_ids(run.alloc, lines, "wrapper-order", &scripts.wrapper);
}

/// Adds the ids of a table of scripts, in order.
fn add_ids<V>(alloc: Global, lines: &mut Lines<'_>, name: &str, scripts: &IndexMap<ScriptId, V>) {
    if let Some(ids) = lines.made(ids_of(alloc, scripts)) {
        lines.add(name, &ids);
    }
}

/// The ids of a table of scripts, in order.
fn ids_of<V>(alloc: Global, scripts: &IndexMap<ScriptId, V>) -> Result<Vec<&str>, AllocError> {
    let mut ids = Vec::new(alloc);
    for (id, _) in scripts.iter() {
        ids.push(id.as_identifier().as_str())?;
    }
    Ok(ids)
}

/// Adds the directory of a profile, its report, and the place and the text of its default filter.
fn add_places(run: &Run<'_>, lines: &mut Lines<'_>, profile: &Profile<'_>) {
    lines.add("store-dir", &profile.store_dir());
    let made = once_more!(lines, Junit, Err(AllocError), profile.junit(run.alloc));
    if let Some(junit) = lines.made(made) {
        lines.add("junit", &junit);
    }
    let filter = profile.default_filter();
    let made = once_more!(
        lines,
        DisplayConfig,
        Err(AllocError),
        filter.display_config(run.alloc)
    );
    if let Some(place) = lines.made(made) {
        lines.add("default-filter", &place);
    }
    lines.add("default-filter-text", &filter.text);
}

/// Adds the values of a profile for a run.
fn add_run(lines: &mut Lines<'_>, profile: &Profile<'_>) {
    lines.add("test-threads", &profile.test_threads());
    lines.add("max-fail", &profile.max_fail());
    lines.add("status-level", &profile.status_level());
    lines.add("final-status-level", &profile.final_status_level());
}

/// Adds the timeouts of a profile.
fn add_limits(lines: &mut Lines<'_>, profile: &Profile<'_>) {
    let (test, bench) = (NextestRunMode::Test, NextestRunMode::Benchmark);
    lines.add("global-timeout", &profile.global_timeout(test));
    lines.add("bench-global-timeout", &profile.global_timeout(bench));
    lines.add("slow-timeout", &profile.slow_timeout(test));
    lines.add("bench-slow-timeout", &profile.slow_timeout(bench));
    lines.add("leak-timeout", &profile.leak_timeout());
}

/// Adds what a profile writes for its tests, and when it shows their output.
fn add_of_tests(lines: &mut Lines<'_>, profile: &Profile<'_>) {
    lines.add("retries", &profile.retries());
    lines.add("flaky-result", &profile.flaky_result());
    lines.add("threads-required", &profile.threads_required());
    lines.add("run-extra-args", &profile.run_extra_args());
    lines.add("success-output", &profile.success_output());
    lines.add("failure-output", &profile.failure_output());
}
