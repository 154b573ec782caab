//! The values of settings by their kind, whatever holds them.
ghost use Rattle.std.specs.Prelude.{◌≡◌, Option, option_map};
ghost use Rattle.nextest_elements.specs.declared.run_mode.NextestRunMode.{NextestRunMode};
ghost use Rattle.nextest_settings.specs.Settings.{ValueOf};
ghost use Rattle.nextest_settings.specs.SettingValues.{by_kind, setting_value_view};
ghost use Rattle.nextest_elements.specs.declared.setting.Setting.{Setting};

use nextest_elements::{
    FlakyResult, JunitFlakyFailStatus, LeakTimeout, NextestRunMode, ReportSkipPolicy, RetryPolicy,
    Setting, SlowTimeout, TestGroup, TestOutputDisplay, TestPriority, ThreadsRequired,
};
use nextest_scripts::ScriptId;

/// The value of a setting by its kind: settings whose values are alike share a variant. A value of
/// more than a few words is borrowed.
#[derive(Clone, Copy)]
pub enum SettingValue<'v> {
    /// The priority of a test.
    Priority(TestPriority),
    /// How many threads a test takes.
    Threads(ThreadsRequired),
    /// The id of the script that wraps the run of a test.
    Wrapper(&'v ScriptId),
    /// The arguments that a test is run with.
    Arguments(&'v [String]),
    /// How often a test is tried again.
    Retries(RetryPolicy),
    /// The result of a test that passes at a later try.
    FlakyResult(FlakyResult),
    /// When a test counts as slow, and when it is ended.
    SlowTimeout(SlowTimeout),
    /// How long what a test started may outlive it.
    LeakTimeout(LeakTimeout),
    /// The group that a test belongs to.
    Group(&'v TestGroup),
    /// The group of all tests that have no other, where nothing holds it.
    GlobalGroup,
    /// When the output of a test is shown.
    Output(TestOutputDisplay),
    /// Whether a report stores the output of a test.
    IsStored(bool),
    /// Whether a report lists a test that is skipped.
    Skipped(ReportSkipPolicy),
    /// How a report marks a flaky test that counts as failed.
    FlakyFailStatus(JunitFlakyFailStatus),
}

/// What has values for settings: an override and a profile have those that they write, and the
/// settings of a test have them all.
pub trait SettingValues {
    /// The value for each setting in a mode, if there is one.
    ghost values: { Self → NextestRunMode → (s : Setting) → Option (ValueOf s) };

    /// Returns the value for a setting in a mode, if there is one.
    fn value(&self, setting: Setting, mode: NextestRunMode) -> Option<SettingValue<'_>>
        ensures { option_map setting_value_view result
            ≡ option_map (by_kind setting) (values self.now mode setting) };
}
