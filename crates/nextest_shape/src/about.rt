//! What each key of a configuration file is for.
ghost use Rattle.std.specs.Prelude.{◌≡◌};
ghost use Rattle.nextest_shape.specs.About.{about_text};

use nextest_tree::Key;

/// What a key is for, as a sentence.
#[tactic(auto, unfolding(crate::specs::About::about_text))]
pub(crate) fn about(key: Key) -> &'static str
    ensures { result.now ≡ about_text key }
{
    match key {
        Key::Store => "Where a run stores its files.",
        Key::NextestVersion => "The version of nextest that the workspace requires.",
        Key::Experimental => "Experimental features that are enabled.",
        Key::TestGroups => {
            "Groups that limit how many of their tests run at a time, by identifier."
        }
        Key::Script => "Setup scripts by identifier; `scripts.setup` replaces this key.",
        Key::Scripts => "The scripts of the workspace, or the rules of a profile that use them.",
        Key::Profile => "Profiles by name.",
        Key::Dir => "The directory, from the root of the workspace.",
        Key::MaxThreads => "How many tests of the group run at a time.",
        Key::Setup => "Setup scripts by identifier, or those that a rule runs.",
        Key::Wrapper => "Wrapper scripts by identifier.",
        Key::Command => "What the script runs: a line, a list of texts, or a table.",
        Key::SlowTimeout => "When a test counts as slow, and when it is terminated.",
        Key::LeakTimeout => "How long processes that a test started may outlive it.",
        Key::CaptureStdout => "Whether standard output is captured.",
        Key::CaptureStderr => "Whether standard error is captured.",
        Key::Junit => "What the JUnit report contains.",
        Key::StoreSuccessOutput => "Whether the report keeps the output of what passed.",
        Key::StoreFailureOutput => "Whether the report keeps the output of what failed.",
        Key::TargetRunner => "How the wrapper combines with a target runner.",
        Key::CommandLine => "The program and its arguments: a line, or a list of texts.",
        Key::Env => "Environment variables that the command gets.",
        Key::RelativeTo => "What the path of the program is relative to.",
        Key::Default => "The profile that is used if no other is requested.",
        Key::DefaultFilter => "Which tests run if no filter is given.",
        Key::Retries => "How often a test that fails is retried.",
        Key::FlakyResult => "The result of a test that passes only when it is retried.",
        Key::TestThreads => "How many tests run at a time.",
        Key::ThreadsRequired => "How many threads a test requires.",
        Key::RunExtraArgs => "Extra arguments for the test binary.",
        Key::StatusLevel => "Which tests are shown during a run.",
        Key::FinalStatusLevel => "Which tests are shown at the end of a run.",
        Key::FailureOutput => "When the output of a test that fails is shown.",
        Key::SuccessOutput => "When the output of a test that passes is shown.",
        Key::FailFast => "After how many failures a run ends.",
        Key::GlobalTimeout => "How long a whole run may take.",
        Key::Overrides => {
            "Rules that set settings for some tests; the first that matches and sets one decides."
        }
        Key::Archive => "What an archive includes.",
        Key::Bench => "The timeouts of benchmarks.",
        Key::Inherits => "The profile whose settings apply where this one has none.",
        Key::Path => "Where the report is written.",
        Key::ReportName => "The name of the report.",
        Key::ReportSkipped => "Which skipped tests the report lists.",
        Key::FlakyFailStatus => "How the report marks a flaky test that counts as failed.",
        Key::Platform => {
            "The platforms of a rule: a target spec, or one spec each for host and target."
        }
        Key::Filter => "The tests of a rule.",
        Key::Priority => "Tests of a higher priority start first.",
        Key::TestGroup => "The group of the tests.",
        Key::ListWrapper => "The wrapper script that lists tests.",
        Key::RunWrapper => "The wrapper script that runs tests.",
        Key::Host => "The spec of the host.",
        Key::Target => "The spec of the target.",
        Key::Backoff => "Whether delays stay the same or grow.",
        Key::Count => "How often a test is retried.",
        Key::Delay => "How long to wait before the next try.",
        Key::Jitter => "Whether delays vary by chance.",
        Key::MaxDelay => "The longest delay.",
        Key::Period => "The length of the period.",
        Key::TerminateAfter => "After how many periods a test is terminated.",
        Key::GracePeriod => "How long a test has to end before it is killed.",
        Key::OnTimeout => "The result of a test that is terminated.",
        Key::Result => "The result of a test that leaks.",
        Key::MaxFail => "The number of failures after which a run ends, or `all`.",
        Key::Terminate => "How running tests are terminated.",
    }
}
