//! Values of settings as texts.
ghost use Rattle.std.specs.Prelude.{◌≡◌, IfOk, Some, map, string_bytes};
ghost use Rattle.nextest_settings.specs.SettingValues.{setting_value_view};
ghost use Rattle.nextest_config.specs.ValueTexts as spelled;

use nextest_elements::{LeakTimeout, RetryPolicy, SlowTimeout, TestGroup, TestPriority};
use nextest_settings::SettingValue;
use std::alloc::{AllocError, Global};
use std::fmt;

/// A number that may be absent.
#[derive(Clone, Copy)]
struct OptionalCount(Option<u64>);

impl fmt::Display for OptionalCount {
    ghost use Rattle.std.specs.Fmt.{decimal};

    ghost output = { λ count. Some (spelled.optional_text decimal count.0) };

    fn fmt<W: fmt::Write>(&self, f: &mut fmt::Formatter<W>) -> fmt::Result {
        match self.0 {
            Some(count) => write!(f, "{count}"),
            None => f.write_str("none"),
        }
    }
}

/// A duration in nanoseconds.
#[derive(Clone, Copy)]
struct Duration(u128);

impl fmt::Display for Duration {
    ghost output = { λ duration. Some (spelled.duration_text duration.0) };

    fn fmt<W: fmt::Write>(&self, f: &mut fmt::Formatter<W>) -> fmt::Result {
        let nanoseconds = self.0;
        write!(f, "{nanoseconds}ns")
    }
}

/// A duration in nanoseconds that may be absent.
#[derive(Clone, Copy)]
struct OptionalDuration(Option<u128>);

impl fmt::Display for OptionalDuration {
    ghost output = { λ duration. Some (spelled.optional_text spelled.duration_text duration.0) };

    fn fmt<W: fmt::Write>(&self, f: &mut fmt::Formatter<W>) -> fmt::Result {
        match self.0 {
            Some(nanoseconds) => write!(f, "{nanoseconds}ns"),
            None => f.write_str("none"),
        }
    }
}

/// The text of a retry policy.
fn retries_text(alloc: Global, retries: RetryPolicy) -> Result<String, AllocError>
    ensures { IfOk result (λ text. string_bytes text ≡ spelled.retries_text retries) }
{
    match retries {
        RetryPolicy::Fixed {
            count,
            delay,
            jitter,
        } => {
            let delay = Duration(delay);
            format!(in alloc; "fixed count={count} delay={delay} jitter={jitter}")
        }
        RetryPolicy::Exponential {
            count,
            delay,
            jitter,
            max_delay,
        } => {
            let delay = Duration(delay);
            let max_delay = OptionalDuration(max_delay);
            format!(in alloc;
                "exponential count={count} delay={delay} jitter={jitter} max-delay={max_delay}"
            )
        }
    }
}

/// The text of a slow timeout.
fn slow_timeout_text(alloc: Global, slow: SlowTimeout) -> Result<String, AllocError>
    ensures { IfOk result (λ text. string_bytes text ≡ spelled.slow_timeout_text slow) }
{
    let period = Duration(slow.period);
    let periods = OptionalCount(slow.terminate_after);
    let grace = Duration(slow.grace_period);
    let on_timeout = slow.on_timeout;
    format!(in alloc;
        "period={period} terminate-after={periods} grace-period={grace} on-timeout={on_timeout}"
    )
}

/// The text of a leak timeout.
fn leak_timeout_text(alloc: Global, leak: LeakTimeout) -> Result<String, AllocError>
    ensures { IfOk result (λ text. string_bytes text ≡ spelled.leak_timeout_text leak) }
{
    let period = Duration(leak.period);
    let result = leak.result;
    format!(in alloc; "period={period} result={result}")
}

/// The text of arguments.
#[tactic(auto, using(crate::proofs::JoinedTexts::joined_texts))]
fn arguments_text(alloc: Global, arguments: &[String]) -> Result<String, AllocError>
    ensures { IfOk result (λ text. string_bytes text
        ≡ spelled.arguments_text (map string_bytes arguments.now)) }
{
    let joined = arguments.join(alloc, " ")?;
    format!(in alloc; "[{joined}]")
}

/// The text of a value.
#[tactic(auto, unfolding(nextest_elements::specs::TestGroup::global_text))]
pub(super) fn value_text(alloc: Global, value: SettingValue<'_>) -> Result<String, AllocError>
    ensures { IfOk result (λ text. string_bytes text
        ≡ spelled.kind_text (setting_value_view value.entry)) }
{
    match value {
        SettingValue::Priority(TestPriority(priority)) => priority.to_string(alloc),
        SettingValue::Threads(threads) => threads.to_string(alloc),
        SettingValue::Wrapper(id) => id.to_string(alloc),
        SettingValue::Arguments(arguments) => arguments_text(alloc, arguments),
        SettingValue::Retries(retries) => retries_text(alloc, retries),
        SettingValue::FlakyResult(result) => result.to_string(alloc),
        SettingValue::SlowTimeout(slow) => slow_timeout_text(alloc, slow),
        SettingValue::LeakTimeout(leak) => leak_timeout_text(alloc, leak),
        SettingValue::Group(group) => group.to_string(alloc),
        SettingValue::GlobalGroup => String::from_str(alloc, TestGroup::GLOBAL_STR),
        SettingValue::Output(display) => display.to_string(alloc),
        SettingValue::IsStored(is_stored) => is_stored.to_string(alloc),
        SettingValue::Skipped(policy) => policy.to_string(alloc),
        SettingValue::FlakyFailStatus(status) => status.to_string(alloc),
    }
}
