//! What may be at the settings that profiles and overrides share.
ghost use Rattle.std.specs.Prelude.{◌≡◌, IfOk};
ghost use Rattle.nextest_elements.specs.Bench.{bench, bench_override};
ghost use Rattle.nextest_elements.specs.Junit.{a_junit, a_junit_override, junit_override_fields};
ghost use Rattle.nextest_elements.specs.LeakTimeout.{leak_timeout};
ghost use Rattle.nextest_elements.specs.MaxFail.{a_max_fail};
ghost use Rattle.nextest_elements.specs.RetryPolicy.{retry};
ghost use Rattle.nextest_elements.specs.SlowTimeout.{slow_timeout};
ghost use Rattle.nextest_elements.specs.TestGroup.{group_config};
ghost use Rattle.nextest_shape.specs.Faults.Places.{place_view, fields_view};

use crate::faults::across::{Across, Need};
use crate::faults::leaf::Leaf;
use crate::faults::parts::{joined, may, must, table, table_or, value};
use crate::faults::place::{Field, Others, Place};
use nextest_tree::Key;
use std::alloc::{AllocError, Global};

/// How often a test is tried again.
pub(crate) fn retries(alloc: Global) -> Result<Place, AllocError>
    ensures { IfOk result (λ place. place_view place ≡ retry) }
{
    let fields = vec![in alloc;
        must(Key::Backoff, value(Leaf::Backoff)),
        must(Key::Count, value(Leaf::Count)),
        Field {
            key: Key::Delay,
            need: Need::Growing,
            place: value(Leaf::Duration),
        },
        may(Key::Jitter, value(Leaf::Boolean)),
        may(Key::MaxDelay, value(Leaf::Duration)),
    ]?;
    Ok(Place::Table {
        others: Others::Noted,
        other: Box::new(alloc, value(Leaf::Count))?,
        fields,
        across: Across::Delays,
    })
}

/// When a test counts as slow, and when it is ended.
pub(crate) fn slow(alloc: Global) -> Result<Place, AllocError>
    ensures { IfOk result (λ place. place_view place ≡ slow_timeout) }
{
    let fields = vec![in alloc;
        must(Key::Period, value(Leaf::Duration)),
        may(Key::TerminateAfter, value(Leaf::Positive)),
        may(Key::GracePeriod, value(Leaf::Duration)),
        may(Key::OnTimeout, value(Leaf::SlowResult)),
    ]?;
    table_or(alloc, value(Leaf::Duration), fields)
}

/// How long what a test started may outlive it.
pub(crate) fn leak(alloc: Global) -> Result<Place, AllocError>
    ensures { IfOk result (λ place. place_view place ≡ leak_timeout) }
{
    let fields = vec![in alloc;
        must(Key::Period, value(Leaf::Duration)),
        may(Key::Result, value(Leaf::LeakResult)),
    ]?;
    table_or(alloc, value(Leaf::Duration), fields)
}

/// After how many failures a run ends.
#[tactic(auto, unfolding(nextest_elements::specs::MaxFail::a_max_fail))]
pub(crate) fn max_fail(alloc: Global) -> Result<Place, AllocError>
    ensures { IfOk result (λ place. place_view place ≡ a_max_fail) }
{
    let fields = vec![in alloc;
        must(Key::MaxFail, value(Leaf::Limit)),
        may(Key::Terminate, Place::Anything),
    ]?;
    table_or(alloc, value(Leaf::Boolean), fields)
}

/// The timeouts of benchmarks of a profile.
pub(crate) fn profile_bench(alloc: Global) -> Result<Place, AllocError>
    ensures { IfOk result (λ place. place_view place ≡ bench) }
{
    let slow = slow(alloc)?;
    let fields = vec![in alloc;
        may(Key::SlowTimeout, slow),
        may(Key::GlobalTimeout, value(Leaf::Duration)),
    ]?;
    table(alloc, fields)
}

/// The timeouts of benchmarks of an override.
pub(crate) fn override_bench(alloc: Global) -> Result<Place, AllocError>
    ensures { IfOk result (λ place. place_view place ≡ bench_override) }
{
    let slow = slow(alloc)?;
    let fields = vec![in alloc; may(Key::SlowTimeout, slow)]?;
    table(alloc, fields)
}

/// The fields of a report that profiles and overrides share.
fn report_fields(alloc: Global) -> Result<Vec<Field<Place>>, AllocError>
    ensures { IfOk result (λ fields. fields_view fields.items ≡ junit_override_fields) }
{
    Ok(vec![in alloc;
        may(Key::StoreSuccessOutput, value(Leaf::Boolean)),
        may(Key::StoreFailureOutput, value(Leaf::Boolean)),
        may(Key::ReportSkipped, value(Leaf::ReportSkipped)),
        may(Key::FlakyFailStatus, value(Leaf::FlakyFailStatus)),
    ]?)
}

/// The report of an override.
#[tactic(auto, unfolding(nextest_elements::specs::Junit::a_junit_override))]
pub(crate) fn override_junit(alloc: Global) -> Result<Place, AllocError>
    ensures { IfOk result (λ place. place_view place ≡ a_junit_override) }
{
    table(alloc, report_fields(alloc)?)
}

/// The report of a profile.
#[tactic(auto, unfolding(nextest_elements::specs::Junit::a_junit))]
pub(crate) fn profile_junit(alloc: Global) -> Result<Place, AllocError>
    ensures { IfOk result (λ place. place_view place ≡ a_junit) }
{
    let own = vec![in alloc;
        may(Key::Path, value(Leaf::Text)),
        may(Key::ReportName, value(Leaf::Text)),
    ]?;
    table(alloc, joined(own, report_fields(alloc)?)?)
}

/// A group of tests.
pub(crate) fn group(alloc: Global) -> Result<Place, AllocError>
    ensures { IfOk result (λ place. place_view place ≡ group_config) }
{
    let fields = vec![in alloc; must(Key::MaxThreads, value(Leaf::TestThreads))]?;
    table(alloc, fields)
}
