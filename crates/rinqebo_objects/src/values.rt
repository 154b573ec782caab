//! Values of a profile as JSON, spelled as files spell them.
ghost use Rattle.std.specs.Prelude.{◌≡◌, IfOk, map, string_bytes};
ghost use Rattle.serde_json.specs.Data.{string};
ghost use Rattle.serde_json.specs.View.{view};
ghost use Rattle.rinqebo_objects.specs.Values.{duration_data, global_timeout_data, leak_data, max_fail_data, optional_data, report_data, slow_data, threads_data};
ghost use Rattle.rinqebo_report.specs.Documents.{count_data, list_data};

use nextest_elements::{GlobalTimeout, JunitConfig, LeakTimeout, MaxFail, TestThreads};
use nextest_scripts::SetupScriptSlowTimeout;
use rinqebo_report::{
    ReportedDuration, Scalar, Value as ReportedValue, optional_value_json, texts_json,
};
use serde_json::{Value, json};
use std::alloc::{AllocError, Global};

/// A length of time, in nanoseconds.
pub(crate) fn duration_json(alloc: Global, nanoseconds: u128) -> Result<Value, AllocError>
    ensures { IfOk result (λ value. view value ≡ duration_data nanoseconds) }
{
    let duration = ReportedDuration {
        nanoseconds,
        written: None,
    };
    let value = Some(ReportedValue::Scalar(Scalar::Duration(duration)));
    optional_value_json(alloc, &value)
}

/// How many tests run at a time.
pub(crate) fn threads_json(alloc: Global, threads: TestThreads) -> Result<Value, AllocError>
    ensures { IfOk result (λ value. view value ≡ threads_data threads) }
{
    match threads {
        TestThreads::Count(count) => Ok(Value::from(count)),
        TestThreads::NumCpus => Value::try_from_str(alloc, "num-cpus"),
    }
}

/// After how many failures a run ends.
pub(crate) fn max_fail_json(alloc: Global, limit: MaxFail) -> Result<Value, AllocError>
    ensures { IfOk result (λ value. view value ≡ max_fail_data limit) }
{
    match limit {
        MaxFail::Count(count) => Ok(Value::from(count)),
        MaxFail::All => Value::try_from_str(alloc, "all"),
    }
}

/// How long a whole run may take, by its mode.
pub(crate) fn global_timeout_json(
    alloc: Global,
    test: GlobalTimeout,
    benchmark: GlobalTimeout,
) -> Result<Value, AllocError>
    ensures { IfOk result (λ value. view value ≡ global_timeout_data test benchmark) }
{
    let test = duration_json(alloc, test.period)?;
    let benchmark = duration_json(alloc, benchmark.period)?;
    json!(in alloc; {"test": test, "benchmark": benchmark})
}

/// The report of a run, or null.
pub(crate) fn report_json(alloc: Global, report: &Option<JunitConfig>) -> Result<Value, AllocError>
    ensures { IfOk result (λ value. view value ≡ optional_data report_data report.now) }
{
    match report {
        Some(report) => json!(in alloc; {
            "path": report.path.as_str(),
            "report-name": report.report_name.as_str()
        }),
        None => Ok(Value::Null),
    }
}

/// A number, or null.
fn optional_count_json(count: Option<u64>) -> Value
    ensures { view result ≡ optional_data count_data count }
{
    match count {
        Some(count) => Value::from(count),
        None => Value::Null,
    }
}

/// When a setup script counts as slow, and when it is ended.
fn slow_json(alloc: Global, slow: SetupScriptSlowTimeout) -> Result<Value, AllocError>
    ensures { IfOk result (λ value. view value ≡ slow_data slow) }
{
    let period = duration_json(alloc, slow.period)?;
    let grace_period = duration_json(alloc, slow.grace_period)?;
    let terminate_after = optional_count_json(slow.terminate_after);
    json!(in alloc; {
        "period": period,
        "terminate-after": terminate_after,
        "grace-period": grace_period
    })
}

/// When a setup script counts as slow, or null.
pub(crate) fn optional_slow_json(
    alloc: Global,
    slow: Option<SetupScriptSlowTimeout>,
) -> Result<Value, AllocError>
    ensures { IfOk result (λ value. view value ≡ optional_data slow_data slow) }
{
    match slow {
        Some(slow) => slow_json(alloc, slow),
        None => Ok(Value::Null),
    }
}

/// How long what a script started may outlive it.
fn leak_json(alloc: Global, leak: LeakTimeout) -> Result<Value, AllocError>
    ensures { IfOk result (λ value. view value ≡ leak_data leak) }
{
    let period = duration_json(alloc, leak.period)?;
    let outcome = Value::String(leak.result.to_string(alloc)?);
    json!(in alloc; {"period": period, "result": outcome})
}

/// How long what a script started may outlive it, or null.
pub(crate) fn optional_leak_json(
    alloc: Global,
    leak: Option<LeakTimeout>,
) -> Result<Value, AllocError>
    ensures { IfOk result (λ value. view value ≡ optional_data leak_data leak) }
{
    match leak {
        Some(leak) => leak_json(alloc, leak),
        None => Ok(Value::Null),
    }
}

/// A list of texts.
pub(crate) fn names_json(alloc: Global, texts: &[String]) -> Result<Value, AllocError>
    ensures { IfOk result (λ value. view value ≡ list_data string (map string_bytes texts.now)) }
{
    texts_json(alloc, texts)
}
