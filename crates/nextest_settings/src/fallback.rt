//! The value of a setting where no rule sets it.
ghost use Rattle.std.specs.Prelude.{◌≡◌, map, option_map, is_some};
ghost use Rattle.nextest_settings.specs.Settings.{fallback_of, report_path};
ghost use Rattle.nextest_settings.specs.SettingValues.{by_kind, profile_sets, setting_value_view, stated_value};
ghost use Rattle.nextest_settings.specs.Values.{nearest, in_report};
ghost use Rattle.nextest_settings.specs.View.{fields_ref_view};
ghost use Rattle.nextest_tables.specs.View.{fields_view};

use crate::setting_value::{SettingValue, SettingValues};
use nextest_elements::{
    JunitFlakyFailStatus, NextestRunMode, ReportSkipPolicy, Setting, TestPriority,
};
use nextest_tables::ProfileFields;

/// Whether a profile sets the path of its report.
fn sets_report_path(fields: &ProfileFields) -> bool
    ensures { result ≡ is_some (in_report (λ r. r.path) (fields_view fields.now)) }
{
    match &fields.junit {
        Some(report) => report.path.is_some(),
        None => false,
    }
}

/// Whether one of some profiles sets the path of a report: else none is written.
fn has_report(fields: &[&ProfileFields]) -> bool
    ensures { result ≡ is_some (report_path (map fields_ref_view fields.now)) }
{
    for written in fields {
        if sets_report_path(*written) {
            return true;
        }
    }
    false
}

/// The value that the nearest of some profiles writes for a setting, in a mode.
fn nearest_value<'cfg>(
    fields: &[&'cfg ProfileFields],
    setting: Setting,
    mode: NextestRunMode,
) -> Option<SettingValue<'cfg>>
    ensures { option_map setting_value_view result ≡ option_map (by_kind setting)
        (nearest (λ f. profile_sets f mode setting) (map fields_ref_view fields.now)) }
{
    for written in fields {
        if let Some(value) = (*written).value(setting, mode) {
            return Some(value);
        }
    }
    None
}

/// The value of a setting whatever profiles write, if it has one: priority 0, the global group, and
/// where no report is written, nothing stored in one.
fn stated_value<'v>(setting: Setting, has_report: bool) -> Option<SettingValue<'v>>
    ensures { option_map setting_value_view result
        ≡ option_map (by_kind setting) (stated_value has_report setting) }
{
    let unreported = !has_report;
    match setting {
        Setting::Priority => Some(SettingValue::Priority(TestPriority(0))),
        Setting::ThreadsRequired => None,
        Setting::RunWrapper => None,
        Setting::RunExtraArgs => None,
        Setting::Retries => None,
        Setting::FlakyResult => None,
        Setting::SlowTimeout => None,
        Setting::LeakTimeout => None,
        Setting::TestGroup => Some(SettingValue::GlobalGroup),
        Setting::SuccessOutput => None,
        Setting::FailureOutput => None,
        Setting::JunitStoreSuccessOutput => unreported.then_some(SettingValue::IsStored(false)),
        Setting::JunitStoreFailureOutput => unreported.then_some(SettingValue::IsStored(false)),
        Setting::JunitReportSkipped => {
            unreported.then_some(SettingValue::Skipped(ReportSkipPolicy::None))
        }
        Setting::JunitFlakyFailStatus => {
            let status = JunitFlakyFailStatus::Failure;
            unreported.then_some(SettingValue::FlakyFailStatus(status))
        }
    }
}

/// Returns the value of a setting where no rule sets it, in a mode, for a chain of profiles, the
/// nearest first: priority 0, no run wrapper, the global group, and else the value that the nearest
/// profile writes. Where none of them sets the path of a report, nothing is stored in one.
pub fn fallback_of<'cfg>(
    fields: &[&'cfg ProfileFields],
    setting: Setting,
    mode: NextestRunMode,
) -> Option<SettingValue<'cfg>>
    ensures { option_map setting_value_view result
        ≡ option_map (by_kind setting) (fallback_of (map fields_ref_view fields.now) mode setting) }
{
    match stated_value(setting, has_report(fields)) {
        Some(value) => Some(value),
        None => nearest_value(fields, setting, mode),
    }
}
