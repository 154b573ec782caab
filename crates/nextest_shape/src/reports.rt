//! The shapes of reports and of the timeouts of benchmarks.
ghost use Rattle.std.specs.Prelude.{◌≡◌, IfOk};
ghost use Rattle.nextest_shape.specs.FileForm.{output_form, report_fields, override_junit_form, profile_junit_form, override_bench_form, profile_bench_form};
ghost use Rattle.nextest_shape.specs.View.{shape_view, fields_view};

use crate::parts::{joined, one_of, optional, text, text_of};
use crate::shape::{Field, Pattern, Shape};
use crate::values::{SLOW_RESULTS, slow_timeout};
use nextest_tree::Key;
use std::alloc::{AllocError, Global};

const OUTPUTS: &[&str] = &["immediate", "immediate-final", "final", "never"];

const SKIPPED: &[&str] = &["none", "all"];

const FLAKY_STATUSES: &[&str] = &["failure", "success"];

/// When the output of a test is shown.
pub(crate) fn output() -> Shape
    ensures { shape_view result ≡ output_form }
{
    one_of(OUTPUTS)
}

/// The fields of a report that profiles and overrides share.
fn report_fields(alloc: Global) -> Result<Vec<Field<Shape>>, AllocError>
    ensures { IfOk result (λ fields. fields_view fields.items ≡ report_fields) }
{
    Ok(vec![in alloc;
        optional(Key::StoreSuccessOutput, Shape::Boolean),
        optional(Key::StoreFailureOutput, Shape::Boolean),
        optional(Key::ReportSkipped, one_of(SKIPPED)),
        optional(Key::FlakyFailStatus, one_of(FLAKY_STATUSES)),
    ]?)
}

/// The report of an override.
pub(crate) fn override_junit(alloc: Global) -> Result<Shape, AllocError>
    ensures { IfOk result (λ shape. shape_view shape ≡ override_junit_form) }
{
    Ok(Shape::Table(report_fields(alloc)?))
}

/// The report of a profile.
pub(crate) fn profile_junit(alloc: Global) -> Result<Shape, AllocError>
    ensures { IfOk result (λ shape. shape_view shape ≡ profile_junit_form) }
{
    let own = vec![in alloc;
        optional(Key::Path, text()),
        optional(Key::ReportName, text()),
    ]?;
    Ok(Shape::Table(joined(own, report_fields(alloc)?)?))
}

/// The timeouts of benchmarks of an override.
pub(crate) fn override_bench(alloc: Global) -> Result<Shape, AllocError>
    ensures { IfOk result (λ shape. shape_view shape ≡ override_bench_form) }
{
    let slow = slow_timeout(alloc, true, SLOW_RESULTS)?;
    Ok(Shape::Table(vec![in alloc; optional(Key::SlowTimeout, slow)]?))
}

/// The timeouts of benchmarks of a profile, and whether a table has to have a period.
pub(crate) fn profile_bench(alloc: Global, is_required: bool) -> Result<Shape, AllocError>
    ensures { IfOk result (λ shape. shape_view shape ≡ profile_bench_form is_required) }
{
    let slow = slow_timeout(alloc, is_required, SLOW_RESULTS)?;
    Ok(Shape::Table(vec![in alloc;
        optional(Key::SlowTimeout, slow),
        optional(Key::GlobalTimeout, text_of(Pattern::Duration)),
    ]?))
}
