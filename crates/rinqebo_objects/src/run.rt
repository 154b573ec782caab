//! The values that a profile has for a whole run.
ghost use Rattle.std.specs.Prelude.{◌≡◌, IfOk, OnOk, map, option_map, string_bytes};
ghost use Rattle.serde_json.specs.Data.{string};
ghost use Rattle.serde_json.specs.View.{members_view, view};
ghost use Rattle.rinqebo_objects.specs.Objects.{IsRunOf, run_data, with_bounds, with_names, with_output};
ghost use Rattle.rinqebo_objects.specs.Values.{optional_data};

use crate::values::{global_timeout_json, max_fail_json, names_json, report_json, threads_json};
use nextest_elements::{
    FinalStatusLevel, GlobalTimeout, JunitConfig, MaxFail, NextestRunMode, StatusLevel, TestThreads,
};
use nextest_engines::{Filters, Specs};
use nextest_settings::EvaluatableProfile;
use serde_json::{Map, Value, put};
use std::alloc::{AllocError, Global};

/// The values that a profile has for a whole run.
pub struct RunSettings<'p> {
    /// The name of the profile.
    pub profile: &'p str,
    /// The profile that it inherits from, as it writes it.
    pub inherits: Option<&'p str>,
    /// How many tests run at a time.
    pub test_threads: TestThreads,
    /// After how many failures the run ends.
    pub max_fail: MaxFail,
    /// How long a run of tests may take.
    pub global_timeout: GlobalTimeout,
    /// How long a run of benchmarks may take.
    pub benchmark_timeout: GlobalTimeout,
    /// Which tests are shown as they end.
    pub status_level: StatusLevel,
    /// Which tests are shown at the end of the run.
    pub final_status_level: FinalStatusLevel,
    /// The text of the default filter, which selects the tests that run.
    pub default_filter: &'p str,
    /// The report of the run, if one is written.
    pub junit: Option<JunitConfig>,
    /// The directory in which the profile stores what it writes.
    pub store_dir: &'p str,
    /// The arguments that a test is given where no rule says so.
    pub run_extra_args: &'p [String],
}

// Written out, so that the proof of a caller sees one call and not the drop of each part.
impl Drop for RunSettings<'_> {
    fn drop(self) {
        let RunSettings {
            profile: _profile,
            inherits: _inherits,
            test_threads: _test_threads,
            max_fail: _max_fail,
            global_timeout: _global_timeout,
            benchmark_timeout: _benchmark_timeout,
            status_level: _status_level,
            final_status_level: _final_status_level,
            default_filter: _default_filter,
            junit: _junit,
            store_dir: _store_dir,
            run_extra_args: _run_extra_args,
        } = self;
    }
}

/// The text of the default filter of a profile.
fn filter_text<'p, F: Filters, S: Specs>(profile: &'p EvaluatableProfile<'p, F, S>) -> &'p str
    ensures { result.now ≡ profile.now.default_filter.text }
{
    profile.default_filter().text
}

impl<'p> RunSettings<'p> {
    /// The values of a profile.
    pub fn of<F: Filters, S: Specs>(
        alloc: Global,
        profile: &'p EvaluatableProfile<'p, F, S>,
    ) -> Result<RunSettings<'p>, AllocError>
        ensures { IfOk result (IsRunOf profile.now.facts profile.now.default_filter.text) }
    {
        let junit = profile.junit(alloc)?;
        Ok(RunSettings {
            profile: profile.name(),
            inherits: profile.inherits(),
            test_threads: profile.test_threads(),
            max_fail: profile.max_fail(),
            global_timeout: profile.global_timeout(NextestRunMode::Test),
            benchmark_timeout: profile.global_timeout(NextestRunMode::Benchmark),
            status_level: profile.status_level(),
            final_status_level: profile.final_status_level(),
            default_filter: filter_text(profile),
            junit,
            store_dir: profile.store_dir(),
            run_extra_args: profile.run_extra_args(),
        })
    }
}

/// A text, or null.
fn optional_text_json(alloc: Global, text: Option<&str>) -> Result<Value, AllocError>
    ensures { IfOk result (λ value. view value
        ≡ optional_data string (option_map (λ text. text.now) text.entry)) }
{
    match text {
        Some(text) => Value::try_from_str(alloc, text),
        None => Ok(Value::Null),
    }
}

/// Puts what bounds a run among members.
fn put_bounds(
    members: &mut Map<String, Value>,
    alloc: Global,
    run: &RunSettings<'_>,
) -> Result<(), AllocError>
    ensures { OnOk result (members_view members.new.entries
        ≡ with_bounds run.now (members_view members.old.entries)) }
{
    let timeout = global_timeout_json(alloc, run.global_timeout, run.benchmark_timeout)?;
    put(members, alloc, "global-timeout", timeout)?;
    let max_fail = max_fail_json(alloc, run.max_fail)?;
    put(members, alloc, "max-fail", max_fail)?;
    let threads = threads_json(alloc, run.test_threads)?;
    put(members, alloc, "test-threads", threads)
}

/// Puts what a run shows and stores among members.
fn put_output(
    members: &mut Map<String, Value>,
    alloc: Global,
    run: &RunSettings<'_>,
) -> Result<(), AllocError>
    ensures { OnOk result (members_view members.new.entries
        ≡ with_output run.now (members_view members.old.entries)) }
{
    let level = Value::String(run.final_status_level.to_string(alloc)?);
    put(members, alloc, "final-status-level", level)?;
    let report = report_json(alloc, &run.junit)?;
    put(members, alloc, "junit", report)?;
    let level = Value::String(run.status_level.to_string(alloc)?);
    put(members, alloc, "status-level", level)?;
    let store_dir = Value::try_from_str(alloc, run.store_dir)?;
    put(members, alloc, "store-dir", store_dir)
}

/// Puts the names of profiles among members, the default filter, and the arguments of tests where no
/// rule says so.
fn put_names(
    members: &mut Map<String, Value>,
    alloc: Global,
    run: &RunSettings<'_>,
    profiles: &[String],
) -> Result<(), AllocError>
    ensures { OnOk result (members_view members.new.entries
        ≡ with_names run.now (map string_bytes profiles.now) (members_view members.old.entries)) }
{
    let filter = Value::try_from_str(alloc, run.default_filter)?;
    put(members, alloc, "default-filter", filter)?;
    let inherits = optional_text_json(alloc, run.inherits)?;
    put(members, alloc, "inherits", inherits)?;
    let profile = Value::try_from_str(alloc, run.profile)?;
    put(members, alloc, "profile", profile)?;
    let profiles = names_json(alloc, profiles)?;
    put(members, alloc, "profiles", profiles)?;
    let arguments = names_json(alloc, run.run_extra_args)?;
    put(members, alloc, "run-extra-args", arguments)
}

/// What a profile says for a whole run, among profiles of these names.
pub(crate) fn run_json(
    alloc: Global,
    run: &RunSettings<'_>,
    profiles: &[String],
) -> Result<Value, AllocError>
    ensures { IfOk result (λ value. view value
        ≡ run_data run.now (map string_bytes profiles.now)) }
{
    let mut members = Map::new(alloc);
    put_names(&mut members, alloc, run, profiles)?;
    put_output(&mut members, alloc, run)?;
    put_bounds(&mut members, alloc, run)?;
    Ok(Value::Object(members))
}
