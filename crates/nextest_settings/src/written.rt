//! What overrides and profiles write for each setting.
ghost use Rattle.std.specs.Prelude.{◌≡◌};
ghost use Rattle.nextest_tables.specs.View.{settings_view, fields_view};
ghost use Rattle.nextest_settings.specs.Settings.{is_set, sets, slow_timeout_written};
ghost use Rattle.nextest_settings.specs.SettingValues.{profile_sets, profile_timeout};
ghost use Rattle.nextest_elements.specs.declared.setting.Setting.{Setting};

use crate::setting_value::{SettingValue, SettingValues};
use nextest_elements::{JunitOverride, NextestRunMode, Setting, SlowTimeout};
use nextest_tables::{OverrideSettings, ProfileFields};

/// The slow timeout that an override writes for a mode: benchmarks have their own.
pub(crate) fn slow_timeout(written: &OverrideSettings, mode: NextestRunMode) -> Option<SlowTimeout>
    ensures { result ≡ slow_timeout_written (settings_view written.now) mode }
{
    match mode {
        NextestRunMode::Test => written.runs.slow_timeout,
        NextestRunMode::Benchmark => match written.outputs.bench {
            Some(bench) => bench.slow_timeout,
            None => None,
        },
    }
}

/// What an override writes of the report.
pub(crate) fn report(written: &OverrideSettings) -> JunitOverride
    ensures success_output { result.store_success_output
        ≡ sets (settings_view written.now) NextestRunMode.Test Setting.JunitStoreSuccessOutput }
    ensures failure_output { result.store_failure_output
        ≡ sets (settings_view written.now) NextestRunMode.Test Setting.JunitStoreFailureOutput }
    ensures skipped { result.report_skipped
        ≡ sets (settings_view written.now) NextestRunMode.Test Setting.JunitReportSkipped }
    ensures status { result.flaky_fail_status
        ≡ sets (settings_view written.now) NextestRunMode.Test Setting.JunitFlakyFailStatus }
{
    match written.outputs.junit {
        Some(report) => report,
        None => JunitOverride {
            store_success_output: None,
            store_failure_output: None,
            report_skipped: None,
            flaky_fail_status: None,
        },
    }
}

impl SettingValues for OverrideSettings {
    ghost values = { λ written mode. sets (settings_view written) mode };

    /// Returns what the override writes for a setting, in a mode. None writes a wrapper.
    fn value(&self, setting: Setting, mode: NextestRunMode) -> Option<SettingValue<'_>> {
        let runs = &self.runs;
        let outputs = &self.outputs;
        let junit = report(self);
        match setting {
            Setting::Priority => Some(SettingValue::Priority(self.priority?)),
            Setting::ThreadsRequired => Some(SettingValue::Threads(runs.threads_required?)),
            Setting::RunWrapper => None,
            Setting::RunExtraArgs => Some(SettingValue::Arguments(runs.run_extra_args.as_ref()?)),
            Setting::Retries => Some(SettingValue::Retries(runs.retries?)),
            Setting::FlakyResult => Some(SettingValue::FlakyResult(runs.flaky_result?)),
            Setting::SlowTimeout => Some(SettingValue::SlowTimeout(slow_timeout(self, mode)?)),
            Setting::LeakTimeout => Some(SettingValue::LeakTimeout(runs.leak_timeout?)),
            Setting::TestGroup => Some(SettingValue::Group(outputs.test_group.as_ref()?)),
            Setting::SuccessOutput => Some(SettingValue::Output(outputs.success_output?)),
            Setting::FailureOutput => Some(SettingValue::Output(outputs.failure_output?)),
            Setting::JunitStoreSuccessOutput => {
                Some(SettingValue::IsStored(junit.store_success_output?))
            }
            Setting::JunitStoreFailureOutput => {
                Some(SettingValue::IsStored(junit.store_failure_output?))
            }
            Setting::JunitReportSkipped => Some(SettingValue::Skipped(junit.report_skipped?)),
            Setting::JunitFlakyFailStatus => {
                Some(SettingValue::FlakyFailStatus(junit.flaky_fail_status?))
            }
        }
    }
}

/// Whether an override writes a setting, for a mode.
pub(crate) fn is_set(written: &OverrideSettings, mode: NextestRunMode, setting: Setting) -> bool
    ensures { result ≡ is_set (settings_view written.now) mode setting }
{
    written.value(setting, mode).is_some()
}

/// The slow timeout that a profile writes for a mode: benchmarks have their own.
fn profile_timeout(fields: &ProfileFields, mode: NextestRunMode) -> Option<SlowTimeout>
    ensures { result ≡ profile_timeout (fields_view fields.now) mode }
{
    match mode {
        NextestRunMode::Test => fields.ends.slow_timeout,
        NextestRunMode::Benchmark => fields.bench?.slow_timeout,
    }
}

/// What a profile writes of the settings of its report.
fn profile_report(fields: &ProfileFields) -> JunitOverride
    ensures success_output { result.store_success_output
        ≡ profile_sets (fields_view fields.now) NextestRunMode.Test
        Setting.JunitStoreSuccessOutput }
    ensures failure_output { result.store_failure_output
        ≡ profile_sets (fields_view fields.now) NextestRunMode.Test
        Setting.JunitStoreFailureOutput }
    ensures skipped { result.report_skipped
        ≡ profile_sets (fields_view fields.now) NextestRunMode.Test Setting.JunitReportSkipped }
    ensures status { result.flaky_fail_status
        ≡ profile_sets (fields_view fields.now) NextestRunMode.Test Setting.JunitFlakyFailStatus }
{
    match &fields.junit {
        Some(report) => JunitOverride {
            store_success_output: report.store_success_output,
            store_failure_output: report.store_failure_output,
            report_skipped: report.report_skipped,
            flaky_fail_status: report.flaky_fail_status,
        },
        None => JunitOverride {
            store_success_output: None,
            store_failure_output: None,
            report_skipped: None,
            flaky_fail_status: None,
        },
    }
}

impl SettingValues for ProfileFields {
    ghost values = { λ fields mode. profile_sets (fields_view fields) mode };

    /// Returns what the profile writes for a setting, in a mode. None writes a priority, a wrapper
    /// or a group.
    fn value(&self, setting: Setting, mode: NextestRunMode) -> Option<SettingValue<'_>> {
        let runs = &self.runs;
        let outputs = &self.outputs;
        let junit = profile_report(self);
        match setting {
            Setting::Priority => None,
            Setting::ThreadsRequired => Some(SettingValue::Threads(runs.threads_required?)),
            Setting::RunWrapper => None,
            Setting::RunExtraArgs => Some(SettingValue::Arguments(runs.run_extra_args.as_ref()?)),
            Setting::Retries => Some(SettingValue::Retries(runs.retries?)),
            Setting::FlakyResult => Some(SettingValue::FlakyResult(runs.flaky_result?)),
            Setting::SlowTimeout => Some(SettingValue::SlowTimeout(profile_timeout(self, mode)?)),
            Setting::LeakTimeout => Some(SettingValue::LeakTimeout(self.ends.leak_timeout?)),
            Setting::TestGroup => None,
            Setting::SuccessOutput => Some(SettingValue::Output(outputs.success_output?)),
            Setting::FailureOutput => Some(SettingValue::Output(outputs.failure_output?)),
            Setting::JunitStoreSuccessOutput => {
                Some(SettingValue::IsStored(junit.store_success_output?))
            }
            Setting::JunitStoreFailureOutput => {
                Some(SettingValue::IsStored(junit.store_failure_output?))
            }
            Setting::JunitReportSkipped => Some(SettingValue::Skipped(junit.report_skipped?)),
            Setting::JunitFlakyFailStatus => {
                Some(SettingValue::FlakyFailStatus(junit.flaky_fail_status?))
            }
        }
    }
}
