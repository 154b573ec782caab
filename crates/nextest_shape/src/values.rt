//! The shapes of single values.
ghost use Rattle.std.specs.Prelude.{◌≡◌, IfOk, map};
ghost use Rattle.nextest_shape.specs.FileForm.{slow_form, leak_timeout_form, retries_form, test_threads_form, threads_required_form, fail_fast_form, positive_form, count_form};
ghost use Rattle.nextest_shape.specs.View.{shape_view};

use crate::parts::{one_of, one_or_other, optional, required, text_of};
use crate::shape::{Field, Pattern, Shape};
use nextest_tree::Key;
use std::alloc::{AllocError, Global};

/// The words for a test that is ended.
pub(crate) const SLOW_RESULTS: &[&str] = &["fail", "pass"];

const LEAK_RESULTS: &[&str] = &["pass", "fail"];

const BACKOFFS: &[&str] = &["fixed", "exponential"];

const NUMBER_OF_CPUS: &[&str] = &["num-cpus"];

const NUMBERS_OF_THREADS: &[&str] = &["num-cpus", "num-test-threads"];

const NO_LIMIT: &[&str] = &["all"];

/// A number from 1.
fn positive() -> Shape
    ensures { shape_view result ≡ positive_form }
{
    Shape::Integer {
        least: Some(1),
        greatest: None,
    }
}

/// When a test counts as slow, with these words for one that is ended, and whether a table has to
/// have a period.
pub(crate) fn slow_timeout(
    alloc: Global,
    is_required: bool,
    results: &'static [&'static str],
) -> Result<Shape, AllocError>
    ensures { IfOk result (λ shape. shape_view shape
        ≡ slow_form is_required (map (λ word. word.now) results.now)) }
{
    let period = Field {
        key: Key::Period,
        is_required,
        shape: text_of(Pattern::Duration),
    };
    let table = Shape::Table(vec![in alloc;
        period,
        optional(Key::TerminateAfter, positive()),
        optional(Key::GracePeriod, text_of(Pattern::Duration)),
        optional(Key::OnTimeout, one_of(results)),
    ]?);
    one_or_other(alloc, text_of(Pattern::Duration), table)
}

/// How long what a test started may outlive it.
pub(crate) fn leak_timeout(alloc: Global) -> Result<Shape, AllocError>
    ensures { IfOk result (λ shape. shape_view shape ≡ leak_timeout_form) }
{
    let table = Shape::Table(vec![in alloc;
        required(Key::Period, text_of(Pattern::Duration)),
        optional(Key::Result, one_of(LEAK_RESULTS)),
    ]?);
    one_or_other(alloc, text_of(Pattern::Duration), table)
}

/// A number of tries.
fn count() -> Shape
    ensures { shape_view result ≡ count_form }
{
    Shape::Integer {
        least: Some(0),
        greatest: Some(4_294_967_295),
    }
}

/// How often a test is tried again.
pub(crate) fn retries(alloc: Global) -> Result<Shape, AllocError>
    ensures { IfOk result (λ shape. shape_view shape ≡ retries_form) }
{
    let table = Shape::Table(vec![in alloc;
        required(Key::Backoff, one_of(BACKOFFS)),
        required(Key::Count, count()),
        optional(Key::Delay, text_of(Pattern::Duration)),
        optional(Key::Jitter, Shape::Boolean),
        optional(Key::MaxDelay, text_of(Pattern::Duration)),
    ]?);
    one_or_other(alloc, count(), table)
}

/// How many tests run at a time.
pub(crate) fn test_threads(alloc: Global) -> Result<Shape, AllocError>
    ensures { IfOk result (λ shape. shape_view shape ≡ test_threads_form) }
{
    let negative = Shape::Integer {
        least: None,
        greatest: Some(-1),
    };
    Ok(Shape::Either(vec![in alloc; negative, positive(), one_of(NUMBER_OF_CPUS)]?))
}

/// How many threads a test takes up.
pub(crate) fn threads_required(alloc: Global) -> Result<Shape, AllocError>
    ensures { IfOk result (λ shape. shape_view shape ≡ threads_required_form) }
{
    one_or_other(alloc, positive(), one_of(NUMBERS_OF_THREADS))
}

/// After how many failures a run ends.
pub(crate) fn fail_fast(alloc: Global) -> Result<Shape, AllocError>
    ensures { IfOk result (λ shape. shape_view shape ≡ fail_fast_form) }
{
    let limit = one_or_other(alloc, positive(), one_of(NO_LIMIT))?;
    let table = Shape::Table(vec![in alloc;
        required(Key::MaxFail, limit),
        optional(Key::Terminate, Shape::Anything),
    ]?);
    one_or_other(alloc, Shape::Boolean, table)
}
