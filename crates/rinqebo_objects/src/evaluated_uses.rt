//! What tests use of the scripts of a profile, by the evaluation of its script rules.
ghost use Rattle.std.specs.Prelude.{IfOk, map};
ghost use Rattle.nextest_engines.specs.Engines.{test_view};
ghost use Rattle.nextest_settings.specs.Profiles.Meaning.{profile_meaning};
ghost use Rattle.nextest_settings.specs.Queries.{query_in};
ghost use Rattle.rinqebo_objects.specs.Uses.{AreUsesIn, IsUseOf};

use crate::enabling::enabled_ids;
use crate::script_use::ScriptUse;
use crate::wrappers::run_wrapper_of;
use nextest_engines::{Filters, Specs, TestQuery};
use nextest_settings::EvaluatableProfile;
use std::alloc::{AllocError, Global};

/// What a test uses of the scripts of a profile.
fn use_of<'c, F: Filters, S: Specs>(
    alloc: Global,
    profile: &EvaluatableProfile<'c, F, S>,
    query: &TestQuery<'_>,
    tally: &mut F::Tally,
) -> Result<ScriptUse<'c>, AllocError>
    ensures { let profile = profile_meaning F.meaning profile.now in
        IfOk result (IsUseOf (query_in F.holds profile (test_view query.now)) profile) }
{
    let run_wrapper = run_wrapper_of(profile, query, tally);
    let setup = enabled_ids(alloc, profile, query, tally)?;
    Ok(ScriptUse { run_wrapper, setup })
}

/// What each of some tests uses of the scripts of a profile.
pub(crate) fn uses_of<'c, F: Filters, S: Specs>(
    alloc: Global,
    profile: &EvaluatableProfile<'c, F, S>,
    tests: &[TestQuery<'_>],
    tally: &mut F::Tally,
) -> Result<Vec<ScriptUse<'c>>, AllocError>
    ensures { let profile = profile_meaning F.meaning profile.now in
        IfOk result (λ uses. AreUsesIn F.holds profile (map test_view tests.now) uses.items) }
{
    let mut uses = Vec::new(alloc);
    for query in tests {
        uses.push(use_of(alloc, profile, query, tally)?)?;
    }
    Ok(uses)
}
