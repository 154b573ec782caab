//! What may be at overrides and at script rules.
ghost use Rattle.std.specs.Prelude.{◌≡◌, IfOk};
ghost use Rattle.nextest_tables.specs.Tables.{a_platform, an_override, a_script_rule, override_head_fields, override_run_fields, override_output_fields, script_ids};
ghost use Rattle.nextest_shape.specs.Faults.Places.{place_view, fields_view};

use crate::faults::across::AcrossItems;
use crate::faults::element_places::{leak, override_bench, override_junit, retries, slow};
use crate::faults::leaf::Leaf;
use crate::faults::parts::{joined, list, may, table, table_or, value};
use crate::faults::place::{Field, Place};
use nextest_tree::Key;
use std::alloc::{AllocError, Global};

/// The platforms of a rule.
#[tactic(auto, unfolding(nextest_tables::specs::Tables::a_platform))]
fn platform(alloc: Global) -> Result<Place, AllocError>
    ensures { IfOk result (λ place. place_view place ≡ a_platform) }
{
    let fields = vec![in alloc;
        may(Key::Host, value(Leaf::Text)),
        may(Key::Target, value(Leaf::Text)),
    ]?;
    table_or(alloc, value(Leaf::Text), fields)
}

/// Which tests an override is for, their priority, and its default filter.
fn override_head(alloc: Global) -> Result<Vec<Field<Place>>, AllocError>
    ensures { IfOk result (λ fields. fields_view fields.items ≡ override_head_fields) }
{
    let platform = platform(alloc)?;
    Ok(vec![in alloc;
        may(Key::Platform, platform),
        may(Key::Filter, value(Leaf::Text)),
        may(Key::Priority, value(Leaf::Priority)),
        may(Key::DefaultFilter, value(Leaf::Text)),
    ]?)
}

/// How an override has tests run.
fn override_runs(alloc: Global) -> Result<Vec<Field<Place>>, AllocError>
    ensures { IfOk result (λ fields. fields_view fields.items ≡ override_run_fields) }
{
    let arguments = list(alloc, value(Leaf::Text))?;
    let retries = retries(alloc)?;
    let slow = slow(alloc)?;
    let leak = leak(alloc)?;
    Ok(vec![in alloc;
        may(Key::ThreadsRequired, value(Leaf::ThreadsRequired)),
        may(Key::RunExtraArgs, arguments),
        may(Key::Retries, retries),
        may(Key::FlakyResult, value(Leaf::FlakyResult)),
        may(Key::SlowTimeout, slow),
        may(Key::LeakTimeout, leak),
    ]?)
}

/// What an override has grouped, shown and reported.
fn override_outputs(alloc: Global) -> Result<Vec<Field<Place>>, AllocError>
    ensures { IfOk result (λ fields. fields_view fields.items ≡ override_output_fields) }
{
    let junit = override_junit(alloc)?;
    let bench = override_bench(alloc)?;
    Ok(vec![in alloc;
        may(Key::TestGroup, value(Leaf::TestGroup)),
        may(Key::SuccessOutput, value(Leaf::Output)),
        may(Key::FailureOutput, value(Leaf::Output)),
        may(Key::Junit, junit),
        may(Key::Bench, bench),
    ]?)
}

/// An override.
#[tactic(auto, unfolding(nextest_tables::specs::Tables::override_fields, nextest_tables::specs::Tables::an_override))]
pub(crate) fn an_override(alloc: Global) -> Result<Place, AllocError>
    ensures { IfOk result (λ place. place_view place ≡ an_override) }
{
    let rest = joined(override_runs(alloc)?, override_outputs(alloc)?)?;
    table(alloc, joined(override_head(alloc)?, rest)?)
}

/// An id of a script, or a list of ids.
#[tactic(auto, unfolding(nextest_tables::specs::Tables::script_ids))]
fn ids(alloc: Global) -> Result<Place, AllocError>
    ensures { IfOk result (λ place. place_view place ≡ script_ids) }
{
    Ok(Place::List {
        other: Box::new(alloc, value(Leaf::Identifier))?,
        items: Box::new(alloc, value(Leaf::Identifier))?,
        across: AcrossItems::Nothing,
    })
}

/// A script rule.
#[tactic(auto, unfolding(nextest_tables::specs::Tables::a_script_rule))]
pub(crate) fn script_rule(alloc: Global) -> Result<Place, AllocError>
    ensures { IfOk result (λ place. place_view place ≡ a_script_rule) }
{
    let platform = platform(alloc)?;
    let ids = ids(alloc)?;
    let fields = vec![in alloc;
        may(Key::Platform, platform),
        may(Key::Filter, value(Leaf::Text)),
        may(Key::Setup, ids),
        may(Key::ListWrapper, value(Leaf::Identifier)),
        may(Key::RunWrapper, value(Leaf::Identifier)),
    ]?;
    table(alloc, fields)
}
