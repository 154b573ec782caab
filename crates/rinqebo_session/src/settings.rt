//! The settings of a test as numbers.
ghost use Rattle.std.specs.Prelude.{◌≡◌, option_map, position};
ghost use Rattle.std.specs.Str.{bytes_eq};
ghost use Rattle.nextest_scripts.specs.ScriptId.{script_text};
ghost use Rattle.nextest_settings.specs.SettingsView.{value_at};
ghost use Rattle.rinqebo_forms.specs.Numbers.{flag_number};
ghost use Rattle.rinqebo_session.specs.Answering.{group_index, wrapper_index, threads_at, AreNumbersOf};
ghost use Rattle.rinqebo_session.specs.Sizes.{settings_size};

use crate::profile::Group;
use filter_engine::NextestFilters;
use nextest_config::{ScriptId, TestGroup, TestSettings, TestThreads};
use platform_language::TargetSpecs;
use rinqebo_forms::{
    GroupThreads, LeakNumbers, RetryNumbers, SlowNumbers, ThreadNumbers, flag_number, flaky_number,
    group_threads, leak_numbers, output_number, report_number, retry_numbers, slow_numbers,
    status_number, thread_numbers,
};
use std::mem::size_of;

/// No name: the global group, or no wrapper.
pub const NO_NAME: usize = 18446744073709551615;
/// A name that the configuration does not define, which no closed configuration gives.
pub const UNDEFINED_NAME: usize = 18446744073709551614;

/// The settings of a test, as a caller in C has them.
#[repr(C)]
#[derive(Clone, Copy, Debug, PartialEq, Eq)]
pub struct SettingNumbers {
    /// The size of the struct, as the caller has it.
    pub size: usize,
    /// When the test runs, among those of its run: a higher one runs earlier.
    pub priority: i32,
    /// 1 where the profile's default filter matches the test, else 0.
    pub in_default_filter: u32,
    /// The result of the test where it passes at a later try: 0 where it passes, 1 where it fails.
    pub flaky_result: u32,
    /// When its output is shown where it passes: 0 as soon as it ends, 1 then and at the end, 2 at
    /// the end, 3 never.
    pub success_output: u32,
    /// The same where it fails.
    pub failure_output: u32,
    /// 1 where a report stores its output where it passes, else 0.
    pub junit_store_success_output: u32,
    /// 1 where a report stores its output where it fails, else 0.
    pub junit_store_failure_output: u32,
    /// 1 where a report lists it where it is skipped, else 0.
    pub junit_report_skipped: u32,
    /// How a report marks it where it is flaky and counts as failed: 0 as failed, 1 as passed.
    pub junit_flaky_fail_status: u32,
    /// How many threads it takes.
    pub threads_required: ThreadNumbers,
    /// How often it is tried again.
    pub retries: RetryNumbers,
    /// When it counts as slow, and when it is ended.
    pub slow_timeout: SlowNumbers,
    /// How long what it started may outlive it.
    pub leak_timeout: LeakNumbers,
    /// The index of its group, or `NO_NAME` for the global one.
    pub test_group: usize,
    /// How many tests of its group run at a time.
    pub group_threads: GroupThreads,
    /// The index of the script that wraps its run, or `NO_NAME`.
    pub run_wrapper: usize,
    /// How many arguments the profile gives to the test.
    pub run_extra_args: usize,
}

/// The place of the group of a name, if it is there.
fn group_place(groups: &[Group<'_>], name: &str) -> Option<usize>
    ensures { result ≡ position (λ group. bytes_eq group.name.now name.now) groups.now }
{
    groups.iter().position(|group| group.name == name)
}

/// The place of a name, if it is there.
fn name_place(names: &[&str], name: &str) -> Option<usize>
    ensures { result ≡ position (λ other. bytes_eq other.now name.now) names.now }
{
    names.iter().position(|other| *other == name)
}

/// The index of the group of a test.
fn group_index(groups: &[Group<'_>], group: &TestGroup) -> usize
    ensures { result ≡ group_index groups.now group.now }
{
    match group {
        TestGroup::Global => NO_NAME,
        TestGroup::Custom(custom) => {
            let place = group_place(groups, custom.as_str());
            place.unwrap_or(UNDEFINED_NAME)
        }
    }
}

/// The index of the script that wraps a test.
fn wrapper_index(wrappers: &[&str], wrapper: Option<&ScriptId>) -> usize
    ensures { result ≡ wrapper_index wrappers.now
        (option_map (λ id. script_text id.now) wrapper.entry) }
{
    match wrapper {
        None => NO_NAME,
        Some(id) => {
            let place = name_place(wrappers, id.as_identifier().as_str());
            place.unwrap_or(UNDEFINED_NAME)
        }
    }
}

/// How many tests of the group of an index run at a time, if there is one.
fn threads_at(groups: &[Group<'_>], index: usize) -> Option<TestThreads>
    ensures { result ≡ threads_at groups.now index }
{
    match groups.get(index) {
        Some(group) => Some(group.threads),
        None => None,
    }
}

/// The settings of a test as numbers.
pub fn numbers_of<'p>(
    groups: &[Group<'_>],
    wrappers: &[&str],
    settings: &TestSettings<'p, NextestFilters, TargetSpecs>,
    in_default_filter: bool,
) -> SettingNumbers
    ensures size { result.size ≡ settings_size }
    ensures filter { result.in_default_filter ≡ flag_number in_default_filter }
    ensures numbers { AreNumbersOf groups.now wrappers.now (value_at settings.now) result }
{
    let group = group_index(groups, settings.test_group());
    SettingNumbers {
        size: size_of::<SettingNumbers>(),
        priority: i32::from(settings.priority().0),
        in_default_filter: flag_number(in_default_filter),
        flaky_result: flaky_number(settings.flaky_result()),
        success_output: output_number(settings.success_output()),
        failure_output: output_number(settings.failure_output()),
        junit_store_success_output: flag_number(settings.junit_store_success_output()),
        junit_store_failure_output: flag_number(settings.junit_store_failure_output()),
        junit_report_skipped: report_number(settings.junit_report_skipped()),
        junit_flaky_fail_status: status_number(settings.junit_flaky_fail_status()),
        threads_required: thread_numbers(settings.threads_required()),
        retries: retry_numbers(settings.retries()),
        slow_timeout: slow_numbers(settings.slow_timeout()),
        leak_timeout: leak_numbers(settings.leak_timeout()),
        test_group: group,
        group_threads: group_threads(threads_at(groups, group)),
        run_wrapper: wrapper_index(wrappers, settings.run_wrapper_id()),
        run_extra_args: settings.run_extra_args().len(),
    }
}
