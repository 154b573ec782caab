//! What may be at profiles.
ghost use Rattle.std.specs.Prelude.{◌≡◌, IfOk};
ghost use Rattle.nextest_tables.specs.Tables.{a_profile, profile_head_fields, profile_run_fields, profile_output_fields, profile_end_fields, profile_rest_fields};
ghost use Rattle.nextest_shape.specs.Faults.Places.{place_view, fields_view};

use crate::faults::element_places::{leak, max_fail, profile_bench, profile_junit, retries, slow};
use crate::faults::leaf::Leaf;
use crate::faults::parts::{joined, list, may, table, value};
use crate::faults::place::{Field, Place};
use crate::faults::rule_places::{an_override, script_rule};
use nextest_tree::Key;
use std::alloc::{AllocError, Global};

/// The default filter of a profile.
fn profile_head(alloc: Global) -> Result<Vec<Field<Place>>, AllocError>
    ensures { IfOk result (λ fields. fields_view fields.items ≡ profile_head_fields) }
{
    Ok(vec![in alloc; may(Key::DefaultFilter, value(Leaf::Text))]?)
}

/// How a profile has tests run.
fn profile_runs(alloc: Global) -> Result<Vec<Field<Place>>, AllocError>
    ensures { IfOk result (λ fields. fields_view fields.items ≡ profile_run_fields) }
{
    let retries = retries(alloc)?;
    let arguments = list(alloc, value(Leaf::Text))?;
    Ok(vec![in alloc;
        may(Key::Retries, retries),
        may(Key::FlakyResult, value(Leaf::FlakyResult)),
        may(Key::TestThreads, value(Leaf::TestThreads)),
        may(Key::ThreadsRequired, value(Leaf::ThreadsRequired)),
        may(Key::RunExtraArgs, arguments),
    ]?)
}

/// What a profile has shown.
fn profile_outputs(alloc: Global) -> Result<Vec<Field<Place>>, AllocError>
    ensures { IfOk result (λ fields. fields_view fields.items ≡ profile_output_fields) }
{
    Ok(vec![in alloc;
        may(Key::StatusLevel, value(Leaf::StatusLevel)),
        may(Key::FinalStatusLevel, value(Leaf::FinalStatusLevel)),
        may(Key::FailureOutput, value(Leaf::Output)),
        may(Key::SuccessOutput, value(Leaf::Output)),
    ]?)
}

/// When a profile has a run or a test ended.
fn profile_ends(alloc: Global) -> Result<Vec<Field<Place>>, AllocError>
    ensures { IfOk result (λ fields. fields_view fields.items ≡ profile_end_fields) }
{
    let fail_fast = max_fail(alloc)?;
    let slow = slow(alloc)?;
    let leak = leak(alloc)?;
    Ok(vec![in alloc;
        may(Key::FailFast, fail_fast),
        may(Key::SlowTimeout, slow),
        may(Key::GlobalTimeout, value(Leaf::Duration)),
        may(Key::LeakTimeout, leak),
    ]?)
}

/// The lists and tables of a profile, and what it inherits from.
fn profile_rest(alloc: Global) -> Result<Vec<Field<Place>>, AllocError>
    ensures { IfOk result (λ fields. fields_view fields.items ≡ profile_rest_fields) }
{
    let overrides = list(alloc, an_override(alloc)?)?;
    let scripts = list(alloc, script_rule(alloc)?)?;
    let junit = profile_junit(alloc)?;
    let bench = profile_bench(alloc)?;
    Ok(vec![in alloc;
        may(Key::Overrides, overrides),
        may(Key::Scripts, scripts),
        may(Key::Junit, junit),
        may(Key::Archive, Place::Anything),
        may(Key::Bench, bench),
        may(Key::Inherits, value(Leaf::Text)),
    ]?)
}

/// A profile.
#[tactic(auto, unfolding(nextest_tables::specs::Tables::profile_fields, nextest_tables::specs::Tables::a_profile))]
pub(crate) fn profile(alloc: Global) -> Result<Place, AllocError>
    ensures { IfOk result (λ place. place_view place ≡ a_profile) }
{
    let ends = joined(profile_ends(alloc)?, profile_rest(alloc)?)?;
    let shown = joined(profile_outputs(alloc)?, ends)?;
    let runs = joined(profile_runs(alloc)?, shown)?;
    table(alloc, joined(profile_head(alloc)?, runs)?)
}
