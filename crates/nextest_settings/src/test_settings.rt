//! The settings that a profile gives to a test, each at the first rule that holds and sets it.
ghost use Rattle.std.specs.Prelude.{◌≡◌, ◌≢◌, ◌++◌, ◌<◌, ◌+◌, ◌^◌, ℕ, List, map, length, option_map, option_and_then, Some, string_bytes};
ghost use Rattle.nextest_load.specs.ConfigView.{scripts_view};
ghost use Rattle.nextest_rules.specs.Accepted.{IfWritten};
ghost use Rattle.nextest_rules.specs.Rules.{at_name};
ghost use Rattle.nextest_rules.specs.View.{override_rule_view};
ghost use Rattle.nextest_scripts.specs.ScriptId.{script_text};
ghost use Rattle.nextest_scripts.specs.ScriptTexts.{wrapper_script_view};
ghost use Rattle.nextest_settings.specs.ChainValues.{AreValues, stored_in};
ghost use Rattle.nextest_settings.specs.Engines.{test_query_by};
ghost use Rattle.nextest_settings.specs.Queries.{value_by, origin_by, deciding_override, wrapping_rule, evaluated_by, fallback_origin, by_profile};
ghost use Rattle.nextest_settings.specs.Platforms.{rule_text};
ghost use Rattle.nextest_elements.specs.Settings.{index_of};
ghost use Rattle.nextest_settings.specs.SettingsView.{slot_at, value_at, origin_at, override_at, wrapping_use_at, wrapper_at};
ghost use Rattle.nextest_settings.specs.SourceView.{MarksOrigin, MarksOverride, MarksScriptRule};
ghost use Rattle.nextest_settings.specs.View.{override_ref_view, override_text_meaning, meant_override, meant_script_rule, KnowsRunWrappers};
ghost use Rattle.nextest_elements.specs.declared.setting.Setting.{Setting};
ghost use Rattle.nextest_sources.specs.InputFaults.{Each};
ghost use Rattle.nextest_tables.specs.FileTexts.{names_in, IsIn};
ghost use Rattle.nextest_tables.specs.View.{settings_view};
ghost use Rattle.nextest_tables.specs.Written.{WrittenFields};

use crate::evaluated::EvaluatedRules;
use crate::index::Wrapper;
use crate::pass::winners;
use crate::platforms::EvaluatedOverride;
use crate::setting_value::{SettingValue, SettingValues};
use crate::source::{TrackSource, fallback_mark};
use crate::values::{ProfileValues, StoredValues};
use crate::wrappers::{RunWrapper, run_wrapper};
use crate::written::{report, slow_timeout};
use nextest_elements::{
    FlakyResult, JunitFlakyFailStatus, LeakTimeout, NextestRunMode, ReportSkipPolicy, RetryPolicy,
    SETTING_COUNT, Setting, SlowTimeout, TestGroup, TestOutputDisplay, TestPriority,
    ThreadsRequired,
};
use nextest_engines::{EvalContext, Filters, Specs, Tally, TestQuery};
use nextest_load::ScriptConfig;
use nextest_scripts::{ScriptId, WrapperScriptConfig};
use nextest_tables::OverrideSettings;

/// For each setting the override that decides it, if one does.
#[derive_where(Clone, Copy)]
pub(crate) struct Winners<'p, F: Filters, S: Specs> {
    pub(crate) slots: [Option<EvaluatedOverride<'p, F, S>>; SETTING_COUNT],
}

/// The settings of a test. With a `Source`, what decides each of them can be looked up.
#[derive(Drop)]
pub struct TestSettings<'p, F: Filters, S: Specs, Source = ()> {
    pub(crate) values: ProfileValues<'p>,
    pub(crate) mode: NextestRunMode,
    pub(crate) global_group: TestGroup,
    pub(crate) winners: Winners<'p, F, S>,
    pub(crate) run_wrapper: Option<RunWrapper<'p, F, S>>,
    /// Always absent: it only names the type.
    pub(crate) mark: Option<Source>,
}

impl<'cfg, F: Filters, S: Specs> EvaluatedRules<'cfg, F, S> {
    /// The settings that these rules give a test, over the values of a profile. Rules whose filters
    /// are evaluated go into the tally, in order.
    pub fn settings_for<Source>(
        &self,
        values: ProfileValues<'cfg>,
        scripts: &'cfg ScriptConfig,
        mode: NextestRunMode,
        query: &TestQuery<'_>,
        tally: &mut F::Tally,
    ) -> TestSettings<'cfg, F, S, Source>
        requires { KnowsRunWrappers (scripts_view scripts.now) self.now.script_rules.items }
        ensures values { (fields : List WrittenFields) → AreValues fields values.entry
            → let query = test_query_by F.Filters self.now.default_filter.expr.now query.now in
            (s : Setting) → value_at result s ≡ value_by query mode
            (map (meant_override F.meaning) self.now.overrides.items)
            (map (meant_script_rule F.meaning) self.now.script_rules.items) fields s }
        ensures origins { let query = test_query_by F.Filters
            self.now.default_filter.expr.now query.now in
            (s : Setting) → origin_at result s ≡ origin_by query mode
            (map (meant_override F.meaning) self.now.overrides.items)
            (map (meant_script_rule F.meaning) self.now.script_rules.items) s }
        ensures overrides { let query = test_query_by F.Filters
            self.now.default_filter.expr.now query.now in
            (s : Setting) → option_map (override_text_meaning F.meaning) (override_at result s)
            ≡ option_map rule_text (deciding_override query mode
            (map (meant_override F.meaning) self.now.overrides.items) s) }
        ensures script_rule { let query = test_query_by F.Filters
            self.now.default_filter.expr.now query.now in
            wrapping_use_at result ≡ option_map (λ r. r.writes)
            (wrapping_rule query
            (map (meant_script_rule F.meaning) self.now.script_rules.items)) }
        ensures wrapper { option_map Some (wrapper_at result)
            ≡ option_map (λ id. at_name id (scripts_view scripts.now).wrapper)
            (value_at result Setting.RunWrapper) }
        ensures tally { let query = test_query_by F.Filters
            self.now.default_filter.expr.now query.now in
            F.Tally.numbers tally.new ≡ F.Tally.numbers tally.old ++ evaluated_by query mode
            (map (meant_override F.meaning) self.now.overrides.items)
            (map (meant_script_rule F.meaning) self.now.script_rules.items) }
    {
        let cx = EvalContext {
            default_filter: self.default_filter.expr,
        };
        let platform = query.binary_query.platform;
        TestSettings {
            values,
            mode,
            global_group: TestGroup::Global,
            winners: Winners {
                slots: winners(
                    &self.overrides,
                    self.override_rows(platform, mode),
                    mode,
                    query,
                    &cx,
                    tally,
                ),
            },
            run_wrapper: run_wrapper(
                &self.script_rules,
                self.wrapper_rows(platform, Wrapper::Run),
                scripts,
                self.overrides.len(),
                query,
                &cx,
                tally,
            ),
            mark: None,
        }
    }
}

fn place(setting: Setting) -> usize
    ensures { result ≡ index_of setting }
{
    setting as usize
}

impl<'p, F: Filters, S: Specs, Source: TrackSource<'p, F, S>> TestSettings<'p, F, S, Source> {
    /// The rule that decides a setting, if one does.
    fn winner(&self, setting: Setting) -> Option<EvaluatedOverride<'p, F, S>>
        ensures { result ≡ slot_at self.now.winners.slots setting }
    {
        let slots = &self.winners.slots[..];
        slots.get(place(setting)).copied().flatten()
    }

    /// What the rule writes that decides a setting, if one does.
    fn winner_settings(&self, setting: Setting) -> Option<&'p OverrideSettings>
        ensures { option_map (λ written. settings_view written.now) result
            ≡ option_map (λ r. (override_ref_view r.rule).writes.settings)
            (slot_at self.now.winners.slots setting) }
    {
        match self.winner(setting) {
            Some(winner) => Some(winner.rule.settings()),
            None => None,
        }
    }

    /// What a report stores of a test where no rule says so.
    fn stored_values(&self) -> StoredValues
        ensures { result ≡ stored_in self.now.values.report }
    {
        self.values.report.stored_values()
    }

    /// The priority of the test.
    pub fn priority(&self) -> TestPriority
        ensures { Some result ≡ value_at self.now Setting.Priority }
    {
        self.winner_settings(Setting::Priority)
            .and_then(|written| written.priority)
            .unwrap_or_default()
    }

    /// How many threads the test takes.
    pub fn threads_required(&self) -> ThreadsRequired
        ensures { Some result ≡ value_at self.now Setting.ThreadsRequired }
    {
        self.winner_settings(Setting::ThreadsRequired)
            .and_then(|written| written.runs.threads_required)
            .unwrap_or(self.values.tests.threads_required)
    }

    /// The script that wraps the run of the test.
    pub fn run_wrapper(&self) -> Option<&'p WrapperScriptConfig>
        ensures { option_map (λ script. wrapper_script_view script.now) result
            ≡ wrapper_at self.now }
    {
        match &self.run_wrapper {
            Some(wrapper) => Some(wrapper.script),
            None => None,
        }
    }

    /// The id of the script that wraps the run of the test.
    pub fn run_wrapper_id(&self) -> Option<&'p ScriptId>
        ensures { option_map (λ id. script_text id.now) result
            ≡ value_at self.now Setting.RunWrapper }
    {
        match &self.run_wrapper {
            Some(wrapper) => wrapper.rule.run_wrapper(),
            None => None,
        }
    }

    /// The arguments that the test is given.
    pub fn run_extra_args(&self) -> &'p [String]
        ensures { Some (map string_bytes result.now) ≡ value_at self.now Setting.RunExtraArgs }
    {
        let written = self.winner_settings(Setting::RunExtraArgs);
        match written.and_then(|written| written.runs.run_extra_args.as_ref()) {
            Some(arguments) => arguments,
            None => self.values.tests.run_extra_args,
        }
    }

    /// How often the test is tried again.
    pub fn retries(&self) -> RetryPolicy
        ensures { Some result ≡ value_at self.now Setting.Retries }
    {
        self.winner_settings(Setting::Retries)
            .and_then(|written| written.runs.retries)
            .unwrap_or(self.values.tests.retries)
    }

    /// The result of the test if it passes at a later try.
    pub fn flaky_result(&self) -> FlakyResult
        ensures { Some result ≡ value_at self.now Setting.FlakyResult }
    {
        self.winner_settings(Setting::FlakyResult)
            .and_then(|written| written.runs.flaky_result)
            .unwrap_or(self.values.tests.flaky_result)
    }

    /// When the test counts as slow, and when it is ended.
    pub fn slow_timeout(&self) -> SlowTimeout
        ensures { Some result ≡ value_at self.now Setting.SlowTimeout }
    {
        let mode = self.mode;
        self.winner_settings(Setting::SlowTimeout)
            .and_then(|written| slow_timeout(written, mode))
            .unwrap_or(self.values.slow_timeout(mode))
    }

    /// How long what the test started may outlive it.
    pub fn leak_timeout(&self) -> LeakTimeout
        ensures { Some result ≡ value_at self.now Setting.LeakTimeout }
    {
        self.winner_settings(Setting::LeakTimeout)
            .and_then(|written| written.runs.leak_timeout)
            .unwrap_or(self.values.tests.leak_timeout)
    }

    /// The group that the test belongs to.
    pub fn test_group(&self) -> &TestGroup
        ensures { Some result.now ≡ value_at self.now Setting.TestGroup }
    {
        let written = self.winner_settings(Setting::TestGroup);
        match written.and_then(|written| written.outputs.test_group.as_ref()) {
            Some(group) => group,
            None => &self.global_group,
        }
    }

    /// When the output of the test is shown where it passes.
    pub fn success_output(&self) -> TestOutputDisplay
        ensures { Some result ≡ value_at self.now Setting.SuccessOutput }
    {
        self.winner_settings(Setting::SuccessOutput)
            .and_then(|written| written.outputs.success_output)
            .unwrap_or(self.values.tests.success_output)
    }

    /// When the output of the test is shown where it fails.
    pub fn failure_output(&self) -> TestOutputDisplay
        ensures { Some result ≡ value_at self.now Setting.FailureOutput }
    {
        self.winner_settings(Setting::FailureOutput)
            .and_then(|written| written.outputs.failure_output)
            .unwrap_or(self.values.tests.failure_output)
    }

    /// Whether a report stores the output of the test where it passes.
    pub fn junit_store_success_output(&self) -> bool
        ensures { Some result ≡ value_at self.now Setting.JunitStoreSuccessOutput }
    {
        self.winner_settings(Setting::JunitStoreSuccessOutput)
            .and_then(|written| report(written).store_success_output)
            .unwrap_or(self.stored_values().success_output)
    }

    /// Whether a report stores the output of the test where it fails.
    pub fn junit_store_failure_output(&self) -> bool
        ensures { Some result ≡ value_at self.now Setting.JunitStoreFailureOutput }
    {
        self.winner_settings(Setting::JunitStoreFailureOutput)
            .and_then(|written| report(written).store_failure_output)
            .unwrap_or(self.stored_values().failure_output)
    }

    /// Whether a report lists the test where it is skipped.
    pub fn junit_report_skipped(&self) -> ReportSkipPolicy
        ensures { Some result ≡ value_at self.now Setting.JunitReportSkipped }
    {
        self.winner_settings(Setting::JunitReportSkipped)
            .and_then(|written| report(written).report_skipped)
            .unwrap_or(self.stored_values().skipped)
    }

    /// How a report marks the test where it is flaky and counts as failed.
    pub fn junit_flaky_fail_status(&self) -> JunitFlakyFailStatus
        ensures { Some result ≡ value_at self.now Setting.JunitFlakyFailStatus }
    {
        self.winner_settings(Setting::JunitFlakyFailStatus)
            .and_then(|written| report(written).flaky_fail_status)
            .unwrap_or(self.stored_values().flaky_fail_status)
    }

    /// What decides a setting that the profile decides where no rule does.
    fn rule_or_profile(&self, setting: Setting) -> Source
        requires { fallback_origin setting ≡ Some by_profile }
        ensures origin { MarksOrigin Source.shows (Some result) (origin_at self.now setting) }
        ensures decider { MarksOverride Source.shows_override (override_at self.now setting)
            (Some result) }
    {
        match self.winner(setting) {
            Some(winner) => Source::override_mark(winner.rule),
            None => Source::profile_mark(),
        }
    }

    /// `threads_required`, with what decides it.
    pub fn threads_required_with_source(&self) -> (ThreadsRequired, Source)
        ensures value { Some result.0 ≡ value_at self.now Setting.ThreadsRequired }
        ensures source { MarksOrigin Source.shows (Some result.1)
            (origin_at self.now Setting.ThreadsRequired) }
        ensures decider { MarksOverride Source.shows_override
            (override_at self.now Setting.ThreadsRequired) (Some result.1) }
    {
        (
            self.threads_required(),
            self.rule_or_profile(Setting::ThreadsRequired),
        )
    }

    /// `retries`, with what decides it.
    pub fn retries_with_source(&self) -> (RetryPolicy, Source)
        ensures value { Some result.0 ≡ value_at self.now Setting.Retries }
        ensures source { MarksOrigin Source.shows (Some result.1)
            (origin_at self.now Setting.Retries) }
        ensures decider { MarksOverride Source.shows_override
            (override_at self.now Setting.Retries) (Some result.1) }
    {
        (self.retries(), self.rule_or_profile(Setting::Retries))
    }

    /// `slow_timeout`, with what decides it.
    pub fn slow_timeout_with_source(&self) -> (SlowTimeout, Source)
        ensures value { Some result.0 ≡ value_at self.now Setting.SlowTimeout }
        ensures source { MarksOrigin Source.shows (Some result.1)
            (origin_at self.now Setting.SlowTimeout) }
        ensures decider { MarksOverride Source.shows_override
            (override_at self.now Setting.SlowTimeout) (Some result.1) }
    {
        (
            self.slow_timeout(),
            self.rule_or_profile(Setting::SlowTimeout),
        )
    }

    /// `leak_timeout`, with what decides it.
    pub fn leak_timeout_with_source(&self) -> (LeakTimeout, Source)
        ensures value { Some result.0 ≡ value_at self.now Setting.LeakTimeout }
        ensures source { MarksOrigin Source.shows (Some result.1)
            (origin_at self.now Setting.LeakTimeout) }
        ensures decider { MarksOverride Source.shows_override
            (override_at self.now Setting.LeakTimeout) (Some result.1) }
    {
        (
            self.leak_timeout(),
            self.rule_or_profile(Setting::LeakTimeout),
        )
    }

    /// `test_group`, with what decides it.
    pub fn test_group_with_source(&self) -> (&TestGroup, Source)
        ensures value { Some result.0.now ≡ value_at self.now Setting.TestGroup }
        ensures source { MarksOrigin Source.shows (Some result.1)
            (origin_at self.now Setting.TestGroup) }
        ensures decider { MarksOverride Source.shows_override
            (override_at self.now Setting.TestGroup) (Some result.1) }
    {
        (self.test_group(), self.rule_or_profile(Setting::TestGroup))
    }

    /// What decides a setting, if it has a value: only an absent run wrapper has none.
    pub fn source_of(&self, setting: Setting) -> Option<Source>
        ensures origin { MarksOrigin Source.shows result (origin_at self.now setting) }
        ensures decider { setting ≢ Setting.RunWrapper
            → MarksOverride Source.shows_override (override_at self.now setting) result }
        ensures script_rule { setting ≡ Setting.RunWrapper
            → MarksScriptRule Source.shows_use result (wrapping_use_at self.now) }
    {
        if matches!(setting, Setting::RunWrapper) {
            return self.run_wrapper_source();
        }
        match self.winner(setting) {
            Some(winner) => Some(Source::override_mark(winner.rule)),
            None => fallback_mark(setting),
        }
    }

    /// What decides the run wrapper, if there is one.
    fn run_wrapper_source(&self) -> Option<Source>
        ensures origin { MarksOrigin Source.shows result (origin_at self.now Setting.RunWrapper) }
        ensures rule { MarksScriptRule Source.shows_use result (wrapping_use_at self.now) }
    {
        match &self.run_wrapper {
            Some(wrapper) => Some(Source::script_mark(wrapper.rule)),
            None => None,
        }
    }
}

impl<'p, F: Filters, S: Specs, Source: TrackSource<'p, F, S>> SettingValues
    for TestSettings<'p, F, S, Source> {
    ghost values = { λ settings _ s. value_at settings s };

    /// Returns the value of a setting, if it has one: only a run wrapper may be absent. Rules were
    /// judged for the mode that the settings were made for, so the mode here changes nothing.
    fn value(&self, setting: Setting, mode: NextestRunMode) -> Option<SettingValue<'_>> {
        let _mode = mode;
        match setting {
            Setting::Priority => Some(SettingValue::Priority(self.priority())),
            Setting::ThreadsRequired => Some(SettingValue::Threads(self.threads_required())),
            Setting::RunWrapper => match self.run_wrapper_id() {
                Some(id) => Some(SettingValue::Wrapper(id)),
                None => None,
            },
            Setting::RunExtraArgs => Some(SettingValue::Arguments(self.run_extra_args())),
            Setting::Retries => Some(SettingValue::Retries(self.retries())),
            Setting::FlakyResult => Some(SettingValue::FlakyResult(self.flaky_result())),
            Setting::SlowTimeout => Some(SettingValue::SlowTimeout(self.slow_timeout())),
            Setting::LeakTimeout => Some(SettingValue::LeakTimeout(self.leak_timeout())),
            Setting::TestGroup => Some(SettingValue::Group(self.test_group())),
            Setting::SuccessOutput => Some(SettingValue::Output(self.success_output())),
            Setting::FailureOutput => Some(SettingValue::Output(self.failure_output())),
            Setting::JunitStoreSuccessOutput => {
                Some(SettingValue::IsStored(self.junit_store_success_output()))
            }
            Setting::JunitStoreFailureOutput => {
                Some(SettingValue::IsStored(self.junit_store_failure_output()))
            }
            Setting::JunitReportSkipped => {
                Some(SettingValue::Skipped(self.junit_report_skipped()))
            }
            Setting::JunitFlakyFailStatus => {
                Some(SettingValue::FlakyFailStatus(self.junit_flaky_fail_status()))
            }
        }
    }
}
