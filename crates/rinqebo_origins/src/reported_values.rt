//! How the values of settings are reported.
ghost use Rattle.std.specs.Prelude.{◌≡◌, ◌++◌, IfOk, IfSome, OnOk, map, option_map, string_bytes};
ghost use Rattle.nextest_tree.specs.View.{tree_view};
ghost use Rattle.rinqebo_origins.specs.AsWritten.{IsValueAsWritten};
ghost use Rattle.rinqebo_origins.specs.SettingValues.{reported_value};
ghost use Rattle.rinqebo_origins.specs.Reported.{ReportedScalar, ReportedValue, scalar_view, field_view, value_view, reported_count, one, one_if, one_if_true, retry_fields, is_plain, reported_fixed, reported_retries, reported_slow, reported_leak, reported_threads};

use crate::as_written::value_as_written;
use nextest_elements::{
    LeakTimeout, RetryPolicy, SlowTimeout, TestGroup, TestPriority, ThreadsRequired,
};
use nextest_settings::SettingValue;
use nextest_tree::Tree;
use rinqebo_report::{ReportedDuration, Scalar, TableMember, Value};
use std::alloc::{AllocError, Global};

/// A number as one of TOML. Files write no greater one.
fn count(number: u64) -> Scalar
    ensures { scalar_view result ≡ reported_count number }
{
    Scalar::Integer(i64::try_from(number).unwrap_or(i64::MAX))
}

/// A duration, without a text that a file writes it with.
fn duration_value(nanoseconds: u128) -> Scalar
    ensures { scalar_view result ≡ ReportedScalar.duration nanoseconds }
{
    Scalar::Duration(ReportedDuration {
        nanoseconds,
        written: None,
    })
}

/// A text as a value.
fn text_value(text: String) -> Value
    ensures { value_view result ≡ ReportedValue.scalar (ReportedScalar.text (string_bytes text)) }
{
    Value::Scalar(Scalar::Text(text))
}

/// Adds a member of a table.
fn add_field(
    alloc: Global,
    fields: &mut Vec<TableMember>,
    key: &str,
    value: Scalar,
) -> Result<(), AllocError>
    ensures { OnOk result (map field_view fields.new.items
        ≡ map field_view fields.old.items ++ one key.now (scalar_view value)) }
{
    let key = String::from_str(alloc, key)?;
    fields.push(TableMember { key, value })?;
    Ok(())
}

/// Adds a duration that may be absent.
fn add_duration(
    alloc: Global,
    fields: &mut Vec<TableMember>,
    key: &str,
    duration: Option<u128>,
) -> Result<(), AllocError>
    ensures { OnOk result (map field_view fields.new.items
        ≡ map field_view fields.old.items ++ one_if key.now ReportedScalar.duration duration) }
{
    match duration {
        Some(duration) => add_field(alloc, fields, key, duration_value(duration)),
        None => Ok(()),
    }
}

/// Adds a count that may be absent.
fn add_count(
    alloc: Global,
    fields: &mut Vec<TableMember>,
    key: &str,
    number: Option<u64>,
) -> Result<(), AllocError>
    ensures { OnOk result (map field_view fields.new.items
        ≡ map field_view fields.old.items ++ one_if key.now reported_count number) }
{
    match number {
        Some(number) => add_field(alloc, fields, key, count(number)),
        None => Ok(()),
    }
}

/// Adds that something is so, or nothing.
fn add_if_true(
    alloc: Global,
    fields: &mut Vec<TableMember>,
    key: &str,
    is_so: bool,
) -> Result<(), AllocError>
    ensures { OnOk result (map field_view fields.new.items
        ≡ map field_view fields.old.items ++ one_if_true key.now is_so) }
{
    if is_so {
        add_field(alloc, fields, key, Scalar::Boolean(true))
    } else {
        Ok(())
    }
}

/// How many threads a test takes.
fn threads_value(alloc: Global, threads: ThreadsRequired) -> Result<Scalar, AllocError>
    ensures { IfOk result (λ scalar. scalar_view scalar ≡ reported_threads threads) }
{
    match threads {
        ThreadsRequired::Count(number) => Ok(count(number)),
        ThreadsRequired::NumCpus | ThreadsRequired::NumTestThreads => {
            Ok(Scalar::Text(threads.to_string(alloc)?))
        }
    }
}

/// Copies of arguments.
fn arguments_value(alloc: Global, arguments: &[String]) -> Result<Value, AllocError>
    ensures { IfOk result (λ value. value_view value
        ≡ ReportedValue.texts (map string_bytes arguments.now)) }
{
    let mut texts = Vec::new(alloc);
    for argument in arguments {
        texts.push(argument.clone()?)?;
    }
    Ok(Value::Texts(texts))
}

/// The table of a retry policy.
fn retry_table(
    alloc: Global,
    backoff: &str,
    count: u32,
    delay: u128,
    jitter: bool,
    max_delay: Option<u128>,
) -> Result<Value, AllocError>
    ensures { IfOk result (λ value. value_view value
        ≡ ReportedValue.table (retry_fields backoff.now count delay jitter max_delay)) }
{
    let mut fields = Vec::new(alloc);
    let backoff = String::from_str(alloc, backoff)?;
    add_field(alloc, &mut fields, "backoff", Scalar::Text(backoff))?;
    add_field(
        alloc,
        &mut fields,
        "count",
        Scalar::Integer(i64::from(count)),
    )?;
    add_field(alloc, &mut fields, "delay", duration_value(delay))?;
    add_if_true(alloc, &mut fields, "jitter", jitter)?;
    add_duration(alloc, &mut fields, "max-delay", max_delay)?;
    Ok(Value::Table(fields))
}

/// Whether a retry policy has neither delay nor jitter.
fn is_plain(delay: u128, jitter: bool) -> bool
    ensures { result ≡ is_plain delay jitter }
{
    delay == 0 && !jitter
}

/// A fixed retry policy: a count where it has neither delay nor jitter.
fn fixed_value(alloc: Global, count: u32, delay: u128, jitter: bool) -> Result<Value, AllocError>
    ensures { IfOk result (λ value. value_view value ≡ reported_fixed count delay jitter) }
{
    if is_plain(delay, jitter) {
        return Ok(Value::Scalar(Scalar::Integer(i64::from(count))));
    }
    retry_table(alloc, "fixed", count, delay, jitter, None)
}

/// A retry policy.
fn retries_value(alloc: Global, retries: RetryPolicy) -> Result<Value, AllocError>
    ensures { IfOk result (λ value. value_view value ≡ reported_retries retries) }
{
    match retries {
        RetryPolicy::Fixed {
            count,
            delay,
            jitter,
        } => fixed_value(alloc, count, delay, jitter),
        RetryPolicy::Exponential {
            count,
            delay,
            jitter,
            max_delay,
        } => retry_table(alloc, "exponential", count, delay, jitter, max_delay),
    }
}

/// The table of a slow timeout.
fn slow_timeout_value(alloc: Global, slow: SlowTimeout) -> Result<Value, AllocError>
    ensures { IfOk result (λ value. value_view value ≡ reported_slow slow) }
{
    let mut fields = Vec::new(alloc);
    let on_timeout = slow.on_timeout.to_string(alloc)?;
    add_field(alloc, &mut fields, "period", duration_value(slow.period))?;
    add_count(alloc, &mut fields, "terminate-after", slow.terminate_after)?;
    let grace_period = duration_value(slow.grace_period);
    add_field(alloc, &mut fields, "grace-period", grace_period)?;
    add_field(alloc, &mut fields, "on-timeout", Scalar::Text(on_timeout))?;
    Ok(Value::Table(fields))
}

/// The table of a leak timeout.
fn leak_timeout_value(alloc: Global, leak: LeakTimeout) -> Result<Value, AllocError>
    ensures { IfOk result (λ value. value_view value ≡ reported_leak leak) }
{
    let mut fields = Vec::new(alloc);
    let result = leak.result.to_string(alloc)?;
    add_field(alloc, &mut fields, "period", duration_value(leak.period))?;
    add_field(alloc, &mut fields, "result", Scalar::Text(result))?;
    Ok(Value::Table(fields))
}

/// A value, as it is reported, without texts that a file writes its durations with.
#[tactic(auto, unfolding(nextest_elements::specs::TestGroup::global_text))]
fn reported(alloc: Global, value: SettingValue<'_>) -> Result<Value, AllocError>
    ensures { IfOk result (λ told. value_view told ≡ reported_value value.entry) }
{
    match value {
        SettingValue::Priority(TestPriority(priority)) => {
            Ok(Value::Scalar(Scalar::Integer(i64::from(priority))))
        }
        SettingValue::Threads(threads) => Ok(Value::Scalar(threads_value(alloc, threads)?)),
        SettingValue::Wrapper(id) => Ok(text_value(id.to_string(alloc)?)),
        SettingValue::Arguments(arguments) => arguments_value(alloc, arguments),
        SettingValue::Retries(retries) => retries_value(alloc, retries),
        SettingValue::FlakyResult(result) => Ok(text_value(result.to_string(alloc)?)),
        SettingValue::SlowTimeout(slow) => slow_timeout_value(alloc, slow),
        SettingValue::LeakTimeout(leak) => leak_timeout_value(alloc, leak),
        SettingValue::Group(group) => Ok(text_value(group.to_string(alloc)?)),
        SettingValue::GlobalGroup => {
            Ok(text_value(String::from_str(alloc, TestGroup::GLOBAL_STR)?))
        }
        SettingValue::Output(display) => Ok(text_value(display.to_string(alloc)?)),
        SettingValue::IsStored(is_stored) => Ok(Value::Scalar(Scalar::Boolean(is_stored))),
        SettingValue::Skipped(policy) => Ok(text_value(policy.to_string(alloc)?)),
        SettingValue::FlakyFailStatus(status) => Ok(text_value(status.to_string(alloc)?)),
    }
}

/// A value that may be absent, as a report shows it, with its durations as a node writes them,
/// which is what one file alone has for the value.
pub fn reported_if_set(
    alloc: Global,
    value: Option<SettingValue<'_>>,
    node: Option<&Tree>,
) -> Result<Option<Value>, AllocError>
    ensures told { IfOk result (λ told. option_map value_view told
        ≡ option_map reported_value value.entry) }
    ensures written { IfOk result (λ told. IfSome told (IsValueAsWritten
        (option_map (λ tree. tree_view tree.now) node.entry))) }
{
    match value {
        Some(value) => Ok(Some(value_as_written(alloc, reported(alloc, value)?, node)?)),
        None => Ok(None),
    }
}
