//! The shapes of overrides and of script rules.
ghost use Rattle.std.specs.Prelude.{◌≡◌, IfOk};
ghost use Rattle.nextest_shape.specs.FileForm.{flaky_result_form, platform_form, override_head_forms, override_run_forms, override_output_forms, override_form, script_rule_form};
ghost use Rattle.nextest_shape.specs.View.{shape_view, fields_view};

use crate::parts::{joined, list, one_of, one_or_other, optional, text, text_of};
use crate::reports::{output, override_bench, override_junit};
use crate::shape::{Field, Pattern, Shape};
use crate::values::{SLOW_RESULTS, leak_timeout, retries, slow_timeout, threads_required};
use nextest_tree::Key;
use std::alloc::{AllocError, Global};

const FLAKY_RESULTS: &[&str] = &["pass", "fail"];

/// The result of a flaky test.
pub(crate) fn flaky_result() -> Shape
    ensures { shape_view result ≡ flaky_result_form }
{
    one_of(FLAKY_RESULTS)
}

/// The platforms of a rule.
fn platform(alloc: Global) -> Result<Shape, AllocError>
    ensures { IfOk result (λ shape. shape_view shape ≡ platform_form) }
{
    let table = Shape::Table(vec![in alloc;
        optional(Key::Host, text()),
        optional(Key::Target, text()),
    ]?);
    one_or_other(alloc, text(), table)
}

/// Which tests an override is for, their priority, and its default filter.
fn override_head(alloc: Global) -> Result<Vec<Field<Shape>>, AllocError>
    ensures { IfOk result (λ fields. fields_view fields.items ≡ override_head_forms) }
{
    let priority = Shape::Integer {
        least: Some(-100),
        greatest: Some(100),
    };
    let platform = platform(alloc)?;
    Ok(vec![in alloc;
        optional(Key::Platform, platform),
        optional(Key::Filter, text()),
        optional(Key::Priority, priority),
        optional(Key::DefaultFilter, text()),
    ]?)
}

/// How an override has tests run.
fn override_runs(alloc: Global) -> Result<Vec<Field<Shape>>, AllocError>
    ensures { IfOk result (λ fields. fields_view fields.items ≡ override_run_forms) }
{
    let threads = threads_required(alloc)?;
    let arguments = list(alloc, 0, text())?;
    let retries = retries(alloc)?;
    let slow = slow_timeout(alloc, true, SLOW_RESULTS)?;
    let leak = leak_timeout(alloc)?;
    Ok(vec![in alloc;
        optional(Key::ThreadsRequired, threads),
        optional(Key::RunExtraArgs, arguments),
        optional(Key::Retries, retries),
        optional(Key::FlakyResult, flaky_result()),
        optional(Key::SlowTimeout, slow),
        optional(Key::LeakTimeout, leak),
    ]?)
}

/// What an override has grouped, shown and reported.
fn override_outputs(alloc: Global) -> Result<Vec<Field<Shape>>, AllocError>
    ensures { IfOk result (λ fields. fields_view fields.items ≡ override_output_forms) }
{
    let junit = override_junit(alloc)?;
    let bench = override_bench(alloc)?;
    Ok(vec![in alloc;
        optional(Key::TestGroup, text_of(Pattern::TestGroup)),
        optional(Key::SuccessOutput, output()),
        optional(Key::FailureOutput, output()),
        optional(Key::Junit, junit),
        optional(Key::Bench, bench),
    ]?)
}

/// An override.
#[tactic(auto, unfolding(crate::specs::FileForm::override_form))]
pub(crate) fn an_override(alloc: Global) -> Result<Shape, AllocError>
    ensures { IfOk result (λ shape. shape_view shape ≡ override_form) }
{
    let runs = joined(override_runs(alloc)?, override_outputs(alloc)?)?;
    Ok(Shape::Table(joined(override_head(alloc)?, runs)?))
}

/// A script rule.
#[tactic(auto, unfolding(crate::specs::FileForm::script_rule_form))]
pub(crate) fn script_rule(alloc: Global) -> Result<Shape, AllocError>
    ensures { IfOk result (λ shape. shape_view shape ≡ script_rule_form) }
{
    let platform = platform(alloc)?;
    let ids = list(alloc, 0, text_of(Pattern::Identifier))?;
    let setup = one_or_other(alloc, text_of(Pattern::Identifier), ids)?;
    Ok(Shape::Table(vec![in alloc;
        optional(Key::Platform, platform),
        optional(Key::Filter, text()),
        optional(Key::Setup, setup),
        optional(Key::ListWrapper, text_of(Pattern::Identifier)),
        optional(Key::RunWrapper, text_of(Pattern::Identifier)),
    ]?))
}
