//! Rows: the settings of tests as values of their own, each with its source.
ghost use Rattle.std.specs.Prelude.{◌≡◌, Some, IfOk, map, option_map, string_bytes};
ghost use Rattle.nextest_scripts.specs.ScriptId.{script_text};
ghost use Rattle.nextest_settings.specs.SettingValues.{by_kind, setting_value_view};
ghost use Rattle.nextest_settings.specs.SettingsView.{slot_at, value_at, origin_at};
ghost use Rattle.nextest_elements.specs.declared.setting.Setting.{Setting};
ghost use Rattle.nextest_config.specs.RowView.{origin_view, row_value, row_source};
ghost use Rattle.nextest_config.specs.ValueTexts.{value_text};

mod sources;
mod values;

use nextest_elements::{
    FlakyResult, JunitFlakyFailStatus, LeakTimeout, ReportSkipPolicy, RetryPolicy, Setting,
    SlowTimeout, TestGroup, TestOutputDisplay, TestPriority, ThreadsRequired,
};
use nextest_engines::{Filters, Specs};
use nextest_scripts::ScriptId;
use nextest_settings::{SettingSource, SettingValue, TestSettings};
use nextest_sources::ConfigSource;
use sources::sources_of;
use std::alloc::{AllocError, Global};
use values::value_text;

/// What decides a setting.
#[derive(Debug, Drop, PartialEq, Eq)]
pub enum PlainSource {
    /// Nothing that is written.
    Default,
    /// The profile.
    Profile,
    /// An override.
    Override {
        /// The source whose file has it.
        source: ConfigSource,
        /// The profile under which it is.
        profile: String,
        /// Its position among the overrides of that profile in that file, from 0.
        index: usize,
    },
    /// A script rule.
    Script,
}

/// The settings of a test, each with what decides it.
#[derive(Drop)]
pub struct TestRow {
    /// When the test runs, among those of its run: a higher one runs earlier.
    pub priority: TestPriority,
    /// How many threads it takes.
    pub threads_required: ThreadsRequired,
    /// The id of the script that wraps its run, if there is one.
    pub run_wrapper: Option<ScriptId>,
    /// The arguments that it is given.
    pub run_extra_args: Vec<String>,
    /// How often it is tried again, and how long after.
    pub retries: RetryPolicy,
    /// The result of the test if it passes at a later try.
    pub flaky_result: FlakyResult,
    /// When it counts as slow, and when it is ended.
    pub slow_timeout: SlowTimeout,
    /// How long what it started may outlive it.
    pub leak_timeout: LeakTimeout,
    /// The group that it belongs to.
    pub test_group: TestGroup,
    /// When its output is shown where it passes.
    pub success_output: TestOutputDisplay,
    /// When its output is shown where it fails.
    pub failure_output: TestOutputDisplay,
    /// Whether a report stores its output where it passes.
    pub junit_store_success_output: bool,
    /// Whether a report stores its output where it fails.
    pub junit_store_failure_output: bool,
    /// Whether a report lists it where it is skipped.
    pub junit_report_skipped: ReportSkipPolicy,
    /// How a report marks it where it is flaky and counts as failed.
    pub junit_flaky_fail_status: JunitFlakyFailStatus,
    /// What decides each setting, in the order of `Setting::ALL`.
    sources: Vec<Option<PlainSource>>,
}

impl TestRow {
    /// What decides a setting, if it has a value: only an absent run wrapper has none.
    pub fn source(&self, setting: Setting) -> Option<&PlainSource>
        ensures { option_map (λ source. origin_view source.now) result
            ≡ row_source self.now setting }
    {
        match self.sources.get(setting as usize) {
            Some(Some(source)) => Some(source),
            _ => None,
        }
    }

    /// Returns the value of a setting, if it has one: only a run wrapper may be absent.
    pub fn value(&self, setting: Setting) -> Option<SettingValue<'_>>
        ensures { option_map setting_value_view result
            ≡ option_map (by_kind setting) (row_value self.now setting) }
    {
        match setting {
            Setting::Priority => Some(SettingValue::Priority(self.priority)),
            Setting::ThreadsRequired => Some(SettingValue::Threads(self.threads_required)),
            Setting::RunWrapper => match &self.run_wrapper {
                Some(id) => Some(SettingValue::Wrapper(id)),
                None => None,
            },
            Setting::RunExtraArgs => Some(SettingValue::Arguments(&self.run_extra_args)),
            Setting::Retries => Some(SettingValue::Retries(self.retries)),
            Setting::FlakyResult => Some(SettingValue::FlakyResult(self.flaky_result)),
            Setting::SlowTimeout => Some(SettingValue::SlowTimeout(self.slow_timeout)),
            Setting::LeakTimeout => Some(SettingValue::LeakTimeout(self.leak_timeout)),
            Setting::TestGroup => Some(SettingValue::Group(&self.test_group)),
            Setting::SuccessOutput => Some(SettingValue::Output(self.success_output)),
            Setting::FailureOutput => Some(SettingValue::Output(self.failure_output)),
            Setting::JunitStoreSuccessOutput => {
                Some(SettingValue::IsStored(self.junit_store_success_output))
            }
            Setting::JunitStoreFailureOutput => {
                Some(SettingValue::IsStored(self.junit_store_failure_output))
            }
            Setting::JunitReportSkipped => Some(SettingValue::Skipped(self.junit_report_skipped)),
            Setting::JunitFlakyFailStatus => {
                Some(SettingValue::FlakyFailStatus(self.junit_flaky_fail_status))
            }
        }
    }

    /// Returns the value of a setting as a text, in the spelling of files: durations are whole
    /// nanoseconds, and what is absent is `none`.
    pub fn value_text(&self, alloc: Global, setting: Setting) -> Result<String, AllocError>
        ensures { IfOk result (λ text. string_bytes text
            ≡ value_text setting (row_value self.now setting)) }
    {
        match self.value(setting) {
            Some(value) => value_text(alloc, value),
            None => String::from_str(alloc, "none"),
        }
    }
}

/// Copies of texts.
fn copied_texts(alloc: Global, texts: &[String]) -> Result<Vec<String>, AllocError>
    ensures { IfOk result (λ copies. map string_bytes copies.items ≡ map string_bytes texts.now) }
{
    let mut copies = Vec::new(alloc);
    for text in texts {
        copies.push(text.clone()?)?;
    }
    Ok(copies)
}

/// The id of the script that wraps the run of a test, if there is one.
fn run_wrapper_of<'cfg, F: Filters, S: Specs>(
    settings: &TestSettings<'cfg, F, S, SettingSource<'cfg, F, S>>,
) -> Result<Option<ScriptId>, AllocError>
    ensures { IfOk result (λ wrapper. option_map script_text wrapper
        ≡ value_at settings.now Setting.RunWrapper) }
{
    match settings.run_wrapper_id() {
        Some(id) => Ok(Some(id.clone()?)),
        None => Ok(None),
    }
}

/// The row of the settings of a test.
pub(super) fn row_of<'cfg, F: Filters, S: Specs>(
    alloc: Global,
    settings: &TestSettings<'cfg, F, S, SettingSource<'cfg, F, S>>,
) -> Result<TestRow, AllocError>
    ensures values { IfOk result (λ row. (s : Setting)
        → row_value row s ≡ value_at settings.now s) }
    ensures sources { IfOk result (λ row. (s : Setting)
        → row_source row s ≡ origin_at settings.now s) }
{
    Ok(TestRow {
        priority: settings.priority(),
        threads_required: settings.threads_required(),
        run_wrapper: run_wrapper_of(settings)?,
        run_extra_args: copied_texts(alloc, settings.run_extra_args())?,
        retries: settings.retries(),
        flaky_result: settings.flaky_result(),
        slow_timeout: settings.slow_timeout(),
        leak_timeout: settings.leak_timeout(),
        test_group: settings.test_group().clone()?,
        success_output: settings.success_output(),
        failure_output: settings.failure_output(),
        junit_store_success_output: settings.junit_store_success_output(),
        junit_store_failure_output: settings.junit_store_failure_output(),
        junit_report_skipped: settings.junit_report_skipped(),
        junit_flaky_fail_status: settings.junit_flaky_fail_status(),
        sources: sources_of(alloc, settings)?,
    })
}
