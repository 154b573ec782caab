//! What a test has settings for.
ghost use Rattle.std.specs.Prelude.{◌≡◌};
ghost use Rattle.nextest_elements.specs.Settings.{setting_name};

/// How many settings there are.
pub const SETTING_COUNT: usize = 15;

/// What a test has settings for, in the order in which they are shown.
#[derive(Clone, Copy, Debug, PartialEq, Eq)]
pub enum Setting {
    /// The priority of a test.
    Priority,
    /// How many threads it takes.
    ThreadsRequired,
    /// The script that wraps its run.
    RunWrapper,
    /// The arguments that it is given.
    RunExtraArgs,
    /// How often it is tried again.
    Retries,
    /// What its result is where it passes at a later try.
    FlakyResult,
    /// When it counts as slow, and when it is ended.
    SlowTimeout,
    /// How long what it started may outlive it.
    LeakTimeout,
    /// The group that it belongs to.
    TestGroup,
    /// When its output is shown where it passes.
    SuccessOutput,
    /// When its output is shown where it fails.
    FailureOutput,
    /// Whether a report stores its output where it passes.
    JunitStoreSuccessOutput,
    /// Whether a report stores its output where it fails.
    JunitStoreFailureOutput,
    /// Whether a report lists it where it is skipped.
    JunitReportSkipped,
    /// How a report marks it where it is flaky and counts as failed.
    JunitFlakyFailStatus,
}

impl Setting {
    /// All settings, in the order in which they are shown.
    pub const ALL: [Setting; SETTING_COUNT] = [
        Setting::Priority,
        Setting::ThreadsRequired,
        Setting::RunWrapper,
        Setting::RunExtraArgs,
        Setting::Retries,
        Setting::FlakyResult,
        Setting::SlowTimeout,
        Setting::LeakTimeout,
        Setting::TestGroup,
        Setting::SuccessOutput,
        Setting::FailureOutput,
        Setting::JunitStoreSuccessOutput,
        Setting::JunitStoreFailureOutput,
        Setting::JunitReportSkipped,
        Setting::JunitFlakyFailStatus,
    ];

    /// The name of the setting, as files write it and as it is shown.
    #[tactic(auto, unfolding(crate::specs::Settings::setting_name))]
    pub fn name(self) -> &'static str
        ensures { result.now ≡ setting_name self }
    {
        match self {
            Setting::Priority => "priority",
            Setting::ThreadsRequired => "threads-required",
            Setting::RunWrapper => "run-wrapper",
            Setting::RunExtraArgs => "run-extra-args",
            Setting::Retries => "retries",
            Setting::FlakyResult => "flaky-result",
            Setting::SlowTimeout => "slow-timeout",
            Setting::LeakTimeout => "leak-timeout",
            Setting::TestGroup => "test-group",
            Setting::SuccessOutput => "success-output",
            Setting::FailureOutput => "failure-output",
            Setting::JunitStoreSuccessOutput => "junit-store-success-output",
            Setting::JunitStoreFailureOutput => "junit-store-failure-output",
            Setting::JunitReportSkipped => "junit-report-skipped",
            Setting::JunitFlakyFailStatus => "junit-flaky-fail-status",
        }
    }
}
