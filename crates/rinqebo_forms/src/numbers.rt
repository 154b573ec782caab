//! Settings as numbers, for callers in C.
ghost use Rattle.std.specs.Prelude.{◌≡◌, option_map};
ghost use Rattle.rinqebo_forms.specs.Numbers.{flag_number, duration_numbers, retry_numbers, thread_numbers, slow_numbers, leak_numbers, output_number, flaky_number, report_number, status_number, group_numbers};

use nextest_elements::{
    FlakyResult, JunitFlakyFailStatus, LeakTimeout, LeakTimeoutResult, ReportSkipPolicy,
    RetryPolicy, SlowTimeout, SlowTimeoutResult, TestOutputDisplay, TestThreads, ThreadsRequired,
};

/// A number of nanoseconds: the low part, and 2 to the 64th times the high part.
#[repr(C)]
#[derive(Clone, Copy, Debug, PartialEq, Eq)]
pub struct Duration {
    /// The low part.
    pub low: u64,
    /// The high part.
    pub high: u64,
}

/// How often a failed test is run again.
#[repr(C)]
#[derive(Clone, Copy, Debug, PartialEq, Eq)]
pub struct RetryNumbers {
    /// 0 if all delays are the same, 1 if each is longer than the one before.
    pub backoff: u32,
    /// How often the test is run again.
    pub count: u32,
    /// The delay between the first two attempts.
    pub delay: Duration,
    /// 1 if delays are shortened at random, else 0.
    pub jitter: u32,
    /// 1 if a longest delay is given, else 0.
    pub has_max_delay: u32,
    /// The longest delay, or 0.
    pub max_delay: Duration,
}

/// How many threads a test takes.
#[repr(C)]
#[derive(Clone, Copy, Debug, PartialEq, Eq)]
pub struct ThreadNumbers {
    /// 0 for the count, 1 for as many as there are processors, 2 for as many as test threads.
    pub kind: u32,
    /// The count, or 0.
    pub count: u64,
}

/// When a test counts as slow, and when it is terminated.
#[repr(C)]
#[derive(Clone, Copy, Debug, PartialEq, Eq)]
pub struct SlowNumbers {
    /// After how long a test counts as slow.
    pub period: Duration,
    /// After how many periods it is terminated, or 0 if it isn't.
    pub terminate_after: u64,
    /// How long a test that is terminated may take to end, before it is killed.
    pub grace_period: Duration,
    /// The result of a test that is terminated: 0 if it fails, 1 if it passes.
    pub on_timeout: u32,
}

/// When a test counts as leaky, because its child processes outlive it.
#[repr(C)]
#[derive(Clone, Copy, Debug, PartialEq, Eq)]
pub struct LeakNumbers {
    /// After how long a test counts as leaky.
    pub period: Duration,
    /// The result of a leaky test: 0 if it still passes, 1 if it fails.
    pub result: u32,
}

/// How many tests of a group run at a time.
#[repr(C)]
#[derive(Clone, Copy, Debug, PartialEq, Eq)]
pub struct GroupThreads {
    /// 0 for the count, 1 for as many as there are processors, 2 if there is no such group.
    pub kind: u32,
    /// The count, or 0. A negative count means that many fewer than there are processors.
    pub count: i64,
}

/// Returns 1 for true, else 0.
pub fn flag_number(flag: bool) -> u32
    ensures { result ≡ flag_number flag }
{
    if flag { 1 } else { 0 }
}

/// Returns the two parts of a duration.
pub fn duration_parts(nanoseconds: u128) -> Duration
    ensures { result ≡ duration_numbers nanoseconds }
{
    Duration {
        low: (nanoseconds % 18446744073709551616) as u64,
        high: (nanoseconds / 18446744073709551616) as u64,
    }
}

/// Returns how often a failed test is run again.
pub fn retry_numbers(policy: RetryPolicy) -> RetryNumbers
    ensures { result ≡ retry_numbers policy }
{
    match policy {
        RetryPolicy::Fixed {
            count,
            delay,
            jitter,
        } => RetryNumbers {
            backoff: 0,
            count,
            delay: duration_parts(delay),
            jitter: flag_number(jitter),
            has_max_delay: 0,
            max_delay: duration_parts(0),
        },
        RetryPolicy::Exponential {
            count,
            delay,
            jitter,
            max_delay,
        } => RetryNumbers {
            backoff: 1,
            count,
            delay: duration_parts(delay),
            jitter: flag_number(jitter),
            has_max_delay: flag_number(max_delay.is_some()),
            max_delay: duration_parts(max_delay.unwrap_or(0)),
        },
    }
}

/// Returns how many threads a test takes.
pub fn thread_numbers(required: ThreadsRequired) -> ThreadNumbers
    ensures { result ≡ thread_numbers required }
{
    match required {
        ThreadsRequired::Count(count) => ThreadNumbers { kind: 0, count },
        ThreadsRequired::NumCpus => ThreadNumbers { kind: 1, count: 0 },
        ThreadsRequired::NumTestThreads => ThreadNumbers { kind: 2, count: 0 },
    }
}

/// Returns when a test counts as slow, and when it is terminated.
pub fn slow_numbers(timeout: SlowTimeout) -> SlowNumbers
    ensures { result ≡ slow_numbers timeout }
{
    SlowNumbers {
        period: duration_parts(timeout.period),
        terminate_after: timeout.terminate_after.unwrap_or(0),
        grace_period: duration_parts(timeout.grace_period),
        on_timeout: match timeout.on_timeout {
            SlowTimeoutResult::Fail => 0,
            SlowTimeoutResult::Pass => 1,
        },
    }
}

/// Returns when a test counts as leaky.
pub fn leak_numbers(timeout: LeakTimeout) -> LeakNumbers
    ensures { result ≡ leak_numbers timeout }
{
    LeakNumbers {
        period: duration_parts(timeout.period),
        result: match timeout.result {
            LeakTimeoutResult::Pass => 0,
            LeakTimeoutResult::Fail => 1,
        },
    }
}

/// Returns when the output of a test is shown: 0 as soon as the test ends, 1 then and at the end of
/// the run, 2 at the end of the run, 3 never.
pub fn output_number(display: TestOutputDisplay) -> u32
    ensures { result ≡ output_number display }
{
    match display {
        TestOutputDisplay::Immediate => 0,
        TestOutputDisplay::ImmediateFinal => 1,
        TestOutputDisplay::Final => 2,
        TestOutputDisplay::Never => 3,
    }
}

/// Returns the result of a test that passes at a later attempt: 0 if it passes, 1 if it fails.
pub fn flaky_number(outcome: FlakyResult) -> u32
    ensures { result ≡ flaky_number outcome }
{
    match outcome {
        FlakyResult::Pass => 0,
        FlakyResult::Fail => 1,
    }
}

/// Returns 1 if a report lists skipped tests, else 0.
pub fn report_number(policy: ReportSkipPolicy) -> u32
    ensures { result ≡ report_number policy }
{
    match policy {
        ReportSkipPolicy::None => 0,
        ReportSkipPolicy::All => 1,
    }
}

/// Returns how a report marks a flaky test that counts as failed: 0 as failed, 1 as passed.
pub fn status_number(status: JunitFlakyFailStatus) -> u32
    ensures { result ≡ status_number status }
{
    match status {
        JunitFlakyFailStatus::Failure => 0,
        JunitFlakyFailStatus::Success => 1,
    }
}

/// Returns how many tests of a group run at a time, if there is a group.
pub fn group_threads(threads: Option<TestThreads>) -> GroupThreads
    ensures { result ≡ group_numbers threads }
{
    match threads {
        Some(TestThreads::Count(count)) => GroupThreads { kind: 0, count },
        Some(TestThreads::NumCpus) => GroupThreads { kind: 1, count: 0 },
        None => GroupThreads { kind: 2, count: 0 },
    }
}
