//! The values of a chain of profiles: each field that of the nearest profile which writes it.
ghost use Rattle.std.specs.Prelude.{◌≡◌, ◌∷◌, List, [], map, option_map, unwrap_or, string_bytes};
ghost use Rattle.nextest_load.specs.Complete.{IsComplete};
ghost use Rattle.nextest_settings.specs.ChainValues.{AreTestValues, AreRunValues, AreStoredValues, AreReportValues, AreBenchValues, AreValues, SaysAllStored, ReportSaysStored, EndsComplete, stored_over, stored_in, slow_timeout_of, global_timeout_of};
ghost use Rattle.nextest_settings.specs.View.{fields_ref_view};
ghost use Rattle.nextest_tables.specs.View.{fields_view, report_view};
ghost use Rattle.nextest_tables.specs.Written.{WrittenFields};

use nextest_elements::{
    BenchConfig, FinalStatusLevel, FlakyResult, GlobalTimeout, JunitFlakyFailStatus, JunitImpl,
    LeakTimeout, MaxFail, NextestRunMode, ReportSkipPolicy, RetryPolicy, SlowTimeout, StatusLevel,
    TestOutputDisplay, TestThreads, ThreadsRequired,
};
use nextest_tables::ProfileFields;

/// What a chain says of each test.
#[derive(Clone, Copy)]
pub struct TestValues<'cfg> {
    /// `retries`.
    pub retries: RetryPolicy,
    /// `flaky-result`.
    pub flaky_result: FlakyResult,
    /// `threads-required`.
    pub threads_required: ThreadsRequired,
    /// `run-extra-args`, in order.
    pub run_extra_args: &'cfg [String],
    /// `slow-timeout`, in tests.
    pub slow_timeout: SlowTimeout,
    /// `leak-timeout`.
    pub leak_timeout: LeakTimeout,
    /// `success-output`.
    pub success_output: TestOutputDisplay,
    /// `failure-output`.
    pub failure_output: TestOutputDisplay,
}

/// What a chain says of the whole run.
#[derive(Clone, Copy)]
pub struct RunValues {
    /// `test-threads`.
    pub test_threads: TestThreads,
    /// `status-level`.
    pub status_level: StatusLevel,
    /// `final-status-level`.
    pub final_status_level: FinalStatusLevel,
    /// `fail-fast`: how many tests may fail.
    pub max_fail: MaxFail,
    /// `global-timeout`, in tests.
    pub global_timeout: GlobalTimeout,
}

/// What a report stores of each test.
#[derive(Clone, Copy)]
pub struct StoredValues {
    /// `junit.store-success-output`.
    pub success_output: bool,
    /// `junit.store-failure-output`.
    pub failure_output: bool,
    /// `junit.report-skipped`.
    pub skipped: ReportSkipPolicy,
    /// `junit.flaky-fail-status`.
    pub flaky_fail_status: JunitFlakyFailStatus,
}

/// What a chain says of its report.
#[derive(Clone, Copy)]
pub struct ReportValues<'cfg> {
    /// `junit.path`; no report is written without it.
    pub path: Option<&'cfg str>,
    /// `junit.report-name`.
    pub name: &'cfg str,
    /// What is stored where a report is written.
    pub stored: StoredValues,
}

/// What a chain says of benchmarks.
#[derive(Clone, Copy)]
pub struct BenchValues {
    /// `bench.slow-timeout`.
    pub slow_timeout: SlowTimeout,
    /// `bench.global-timeout`.
    pub global_timeout: GlobalTimeout,
}

/// The values of a chain of profiles, which come after the rules.
#[derive(Clone, Copy)]
pub struct ProfileValues<'cfg> {
    /// What holds for each test.
    pub tests: TestValues<'cfg>,
    /// What holds for the whole run.
    pub run: RunValues,
    /// What holds for the report.
    pub report: ReportValues<'cfg>,
    /// What holds in benchmarks.
    pub bench: BenchValues,
}

impl ReportValues<'_> {
    /// What is stored of each test: nothing where no path is set.
    pub(crate) fn stored_values(&self) -> StoredValues
        ensures { result ≡ stored_in self.now }
    {
        match self.path {
            Some(_) => self.stored,
            None => StoredValues {
                success_output: false,
                failure_output: false,
                skipped: ReportSkipPolicy::default(),
                flaky_fail_status: JunitFlakyFailStatus::default(),
            },
        }
    }
}

impl ProfileValues<'_> {
    /// When a test counts as slow, for a mode.
    pub fn slow_timeout(&self, mode: NextestRunMode) -> SlowTimeout
        ensures { result ≡ slow_timeout_of self.now mode }
    {
        match mode {
            NextestRunMode::Test => self.tests.slow_timeout,
            NextestRunMode::Benchmark => self.bench.slow_timeout,
        }
    }

    /// How long a whole run may take, for a mode.
    pub fn global_timeout(&self, mode: NextestRunMode) -> GlobalTimeout
        ensures { result ≡ global_timeout_of self.now mode }
    {
        match mode {
            NextestRunMode::Test => self.run.global_timeout,
            NextestRunMode::Benchmark => self.bench.global_timeout,
        }
    }
}

/// What a profile that writes every field says of each test.
fn tests_in<'cfg>(fields: &'cfg ProfileFields) -> TestValues<'cfg>
    requires { IsComplete (fields_view fields.now) }
    ensures { AreTestValues (fields_view fields.now ∷ []) result }
{
    TestValues {
        retries: fields.runs.retries.unwrap(),
        flaky_result: fields.runs.flaky_result.unwrap(),
        threads_required: fields.runs.threads_required.unwrap(),
        run_extra_args: fields.runs.run_extra_args.as_ref().unwrap(),
        slow_timeout: fields.ends.slow_timeout.unwrap(),
        leak_timeout: fields.ends.leak_timeout.unwrap(),
        success_output: fields.outputs.success_output.unwrap(),
        failure_output: fields.outputs.failure_output.unwrap(),
    }
}

/// What a profile that writes every field says of the whole run.
fn run_in(fields: &ProfileFields) -> RunValues
    requires { IsComplete (fields_view fields.now) }
    ensures { AreRunValues (fields_view fields.now ∷ []) result }
{
    RunValues {
        test_threads: fields.runs.test_threads.unwrap(),
        status_level: fields.outputs.status_level.unwrap(),
        final_status_level: fields.outputs.final_status_level.unwrap(),
        max_fail: fields.ends.max_fail.unwrap(),
        global_timeout: fields.ends.global_timeout.unwrap(),
    }
}

/// What a report that says all of it stores.
fn stored_in_report(report: &JunitImpl) -> StoredValues
    requires { SaysAllStored (report_view report.now) }
    ensures { ReportSaysStored (report_view report.now) result }
{
    StoredValues {
        success_output: report.store_success_output.unwrap(),
        failure_output: report.store_failure_output.unwrap(),
        skipped: report.report_skipped.unwrap(),
        flaky_fail_status: report.flaky_fail_status.unwrap(),
    }
}

/// What a profile that writes every field says of its report.
fn report_in<'cfg>(fields: &'cfg ProfileFields) -> ReportValues<'cfg>
    requires { IsComplete (fields_view fields.now) }
    ensures { AreReportValues (fields_view fields.now ∷ []) result }
{
    let Some(report) = &fields.junit else {
        unreachable!()
    };
    ReportValues {
        path: report.path.as_deref(),
        name: report.report_name.as_ref().unwrap(),
        stored: stored_in_report(report),
    }
}

/// What a profile that writes every field says of benchmarks.
fn bench_in(fields: &ProfileFields) -> BenchValues
    requires { IsComplete (fields_view fields.now) }
    ensures { AreBenchValues (fields_view fields.now ∷ []) result }
{
    let Some(bench) = fields.bench else {
        unreachable!()
    };
    BenchValues {
        slow_timeout: bench.slow_timeout.unwrap(),
        global_timeout: bench.global_timeout.unwrap(),
    }
}

/// The values of a profile that writes every field.
fn values_in<'cfg>(fields: &'cfg ProfileFields) -> ProfileValues<'cfg>
    requires { IsComplete (fields_view fields.now) }
    ensures { AreValues (fields_view fields.now ∷ []) result }
{
    ProfileValues {
        tests: tests_in(fields),
        run: run_in(fields),
        report: report_in(fields),
        bench: bench_in(fields),
    }
}

/// The arguments that a profile writes, or else those of the profiles further on.
fn arguments_over<'cfg>(near: &'cfg Option<Vec<String>>, further: &'cfg [String]) -> &'cfg [String]
    ensures { map string_bytes result.now
        ≡ unwrap_or (option_map (λ v. map string_bytes v.items) near.now)
        (map string_bytes further.now) }
{
    match near {
        Some(arguments) => arguments,
        None => further,
    }
}

/// What a profile says of each test, over the profiles further on.
fn tests_over<'cfg>(near: &'cfg ProfileFields, further: TestValues<'cfg>) -> TestValues<'cfg>
    ensures { (fs : List WrittenFields) → AreTestValues fs further.entry
        → AreTestValues (fields_view near.now ∷ fs) result }
{
    TestValues {
        retries: near.runs.retries.unwrap_or(further.retries),
        flaky_result: near.runs.flaky_result.unwrap_or(further.flaky_result),
        threads_required: near
            .runs
            .threads_required
            .unwrap_or(further.threads_required),
        run_extra_args: arguments_over(&near.runs.run_extra_args, further.run_extra_args),
        slow_timeout: near.ends.slow_timeout.unwrap_or(further.slow_timeout),
        leak_timeout: near.ends.leak_timeout.unwrap_or(further.leak_timeout),
        success_output: near
            .outputs
            .success_output
            .unwrap_or(further.success_output),
        failure_output: near
            .outputs
            .failure_output
            .unwrap_or(further.failure_output),
    }
}

/// What a profile says of the whole run, over the profiles further on.
fn run_over(near: &ProfileFields, further: RunValues) -> RunValues
    ensures { (fs : List WrittenFields) → AreRunValues fs further
        → AreRunValues (fields_view near.now ∷ fs) result }
{
    RunValues {
        test_threads: near.runs.test_threads.unwrap_or(further.test_threads),
        status_level: near.outputs.status_level.unwrap_or(further.status_level),
        final_status_level: near
            .outputs
            .final_status_level
            .unwrap_or(further.final_status_level),
        max_fail: near.ends.max_fail.unwrap_or(further.max_fail),
        global_timeout: near.ends.global_timeout.unwrap_or(further.global_timeout),
    }
}

/// What a report stores, over the reports further on.
fn stored_over(near: &JunitImpl, further: StoredValues) -> StoredValues
    ensures { result ≡ stored_over (report_view near.now) further }
{
    StoredValues {
        success_output: near.store_success_output.unwrap_or(further.success_output),
        failure_output: near.store_failure_output.unwrap_or(further.failure_output),
        skipped: near.report_skipped.unwrap_or(further.skipped),
        flaky_fail_status: near.flaky_fail_status.unwrap_or(further.flaky_fail_status),
    }
}

/// What a profile says of its report, over the profiles further on.
fn report_over<'cfg>(
    near: &'cfg Option<JunitImpl>,
    further: ReportValues<'cfg>,
) -> ReportValues<'cfg>
    ensures { (fields : WrittenFields) (fs : List WrittenFields)
        → fields.junit ≡ option_map report_view near.now → AreReportValues fs further.entry
        → AreReportValues (fields ∷ fs) result }
{
    match near {
        Some(report) => ReportValues {
            path: report.path.as_deref().or(further.path),
            name: report.report_name.as_deref().unwrap_or(further.name),
            stored: stored_over(report, further.stored),
        },
        None => further,
    }
}

/// What a profile says of benchmarks, over the profiles further on.
fn bench_over(near: Option<BenchConfig>, further: BenchValues) -> BenchValues
    ensures { (fields : WrittenFields) (fs : List WrittenFields)
        → fields.bench ≡ near → AreBenchValues fs further → AreBenchValues (fields ∷ fs) result }
{
    match near {
        Some(bench) => BenchValues {
            slow_timeout: bench.slow_timeout.unwrap_or(further.slow_timeout),
            global_timeout: bench.global_timeout.unwrap_or(further.global_timeout),
        },
        None => further,
    }
}

/// The values of a profile, over those of the profiles further on.
fn values_over<'cfg>(near: &'cfg ProfileFields, further: ProfileValues<'cfg>) -> ProfileValues<'cfg>
    ensures { (fs : List WrittenFields) → AreValues fs further.entry
        → AreValues (fields_view near.now ∷ fs) result }
{
    ProfileValues {
        tests: tests_over(near, further.tests),
        run: run_over(near, further.run),
        report: report_over(&near.junit, further.report),
        bench: bench_over(near.bench, further.bench),
    }
}

/// The values of a chain of profiles, the nearest first: each field of the nearest one that writes
/// it. The last of them writes every field.
pub fn values_of<'cfg>(fields: &[&'cfg ProfileFields]) -> ProfileValues<'cfg>
    requires { EndsComplete (map fields_ref_view fields.now) }
    ensures { AreValues (map fields_ref_view fields.now) result }
{
    let mut left = fields.len() - 1;
    let mut values = values_in(fields[left]);
    while left > 0 {
        left -= 1;
        values = values_over(fields[left], values);
    }
    values
}
