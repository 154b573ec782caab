//! The shape of a profile.
ghost use Rattle.std.specs.Prelude.{◌≡◌, IfOk};
ghost use Rattle.nextest_shape.specs.FileForm.{profile_run_forms, profile_output_forms, profile_end_forms, profile_rest_forms, profile_form, profiles_form};
ghost use Rattle.nextest_shape.specs.View.{shape_view, fields_view};

use crate::parts::{joined, list, one_of, optional, text, text_of};
use crate::reports::{output, profile_bench, profile_junit};
use crate::rules::{an_override, flaky_result, script_rule};
use crate::shape::{Field, Pattern, Shape, TextShape};
use crate::values::{
    SLOW_RESULTS, fail_fast, leak_timeout, retries, slow_timeout, test_threads, threads_required,
};
use nextest_tree::Key;
use std::alloc::{AllocError, Global};

const STATUS_LEVELS: &[&str] = &[
    "none", "fail", "retry", "slow", "leak", "pass", "skip", "all",
];

const FINAL_STATUS_LEVELS: &[&str] = &[
    "none", "fail", "flaky", "slow", "skip", "leak", "pass", "all", "retry",
];

/// How a profile has tests run.
fn profile_runs(alloc: Global) -> Result<Vec<Field<Shape>>, AllocError>
    ensures { IfOk result (λ fields. fields_view fields.items ≡ profile_run_forms) }
{
    let retries = retries(alloc)?;
    let test_threads = test_threads(alloc)?;
    let threads_required = threads_required(alloc)?;
    let arguments = list(alloc, 0, text())?;
    Ok(vec![in alloc;
        optional(Key::DefaultFilter, text()),
        optional(Key::Retries, retries),
        optional(Key::FlakyResult, flaky_result()),
        optional(Key::TestThreads, test_threads),
        optional(Key::ThreadsRequired, threads_required),
        optional(Key::RunExtraArgs, arguments),
    ]?)
}

/// What a profile has shown.
fn profile_outputs(alloc: Global) -> Result<Vec<Field<Shape>>, AllocError>
    ensures { IfOk result (λ fields. fields_view fields.items ≡ profile_output_forms) }
{
    Ok(vec![in alloc;
        optional(Key::StatusLevel, one_of(STATUS_LEVELS)),
        optional(Key::FinalStatusLevel, one_of(FINAL_STATUS_LEVELS)),
        optional(Key::FailureOutput, output()),
        optional(Key::SuccessOutput, output()),
    ]?)
}

/// When a profile has a run or a test ended.
fn profile_ends(alloc: Global, is_required: bool) -> Result<Vec<Field<Shape>>, AllocError>
    ensures { IfOk result (λ fields. fields_view fields.items ≡ profile_end_forms is_required) }
{
    let fail_fast = fail_fast(alloc)?;
    let slow = slow_timeout(alloc, is_required, SLOW_RESULTS)?;
    let leak = leak_timeout(alloc)?;
    Ok(vec![in alloc;
        optional(Key::FailFast, fail_fast),
        optional(Key::SlowTimeout, slow),
        optional(Key::GlobalTimeout, text_of(Pattern::Duration)),
        optional(Key::LeakTimeout, leak),
    ]?)
}

/// The lists and tables of a profile, and what it inherits from.
fn profile_rest(alloc: Global, is_required: bool) -> Result<Vec<Field<Shape>>, AllocError>
    ensures { IfOk result (λ fields. fields_view fields.items ≡ profile_rest_forms is_required) }
{
    let overrides = list(alloc, 0, an_override(alloc)?)?;
    let scripts = list(alloc, 0, script_rule(alloc)?)?;
    let junit = profile_junit(alloc)?;
    let bench = profile_bench(alloc, is_required)?;
    Ok(vec![in alloc;
        optional(Key::Overrides, overrides),
        optional(Key::Scripts, scripts),
        optional(Key::Junit, junit),
        optional(Key::Archive, Shape::Anything),
        optional(Key::Bench, bench),
        optional(Key::Inherits, text()),
    ]?)
}

/// A profile, and whether its timeouts have to have a period.
#[tactic(auto, unfolding(crate::specs::FileForm::profile_form))]
fn profile(alloc: Global, is_required: bool) -> Result<Shape, AllocError>
    ensures { IfOk result (λ shape. shape_view shape ≡ profile_form is_required) }
{
    let rest = joined(
        profile_ends(alloc, is_required)?,
        profile_rest(alloc, is_required)?,
    )?;
    let shown = joined(profile_outputs(alloc)?, rest)?;
    Ok(Shape::Table(joined(profile_runs(alloc)?, shown)?))
}

/// The profiles by name: the table of defaults has the periods of `default`.
#[tactic(auto, unfolding(crate::specs::FileForm::profiles_form))]
pub(crate) fn profiles(alloc: Global) -> Result<Shape, AllocError>
    ensures { IfOk result (λ shape. shape_view shape ≡ profiles_form) }
{
    let default = profile(alloc, false)?;
    Ok(Shape::Map {
        names: TextShape::Any,
        fields: vec![in alloc; optional(Key::Default, default)]?,
        values: Box::new(alloc, profile(alloc, true)?)?,
    })
}
