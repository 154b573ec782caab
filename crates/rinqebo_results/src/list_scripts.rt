//! The scripts of a list: the setup scripts that its tests enable, and what wraps its binaries.
ghost use Rattle.std.specs.Prelude.{IfOk, map};
ghost use Rattle.filter_language.specs.Filtersets.{marks_view};
ghost use Rattle.filter_engine.specs.Compiling.{names_of};
ghost use Rattle.filter_engine.specs.Engine.{filter_holds, filter_holds_binary};
ghost use Rattle.nextest_settings.specs.Profiles.Meaning.{profile_meaning};
ghost use Rattle.nextest_settings.specs.Queries.{query_in};
ghost use Rattle.filter_inputs.specs.Lists.ListView.{list_view};
ghost use Rattle.filter_inputs.specs.Lists.Lists.{all_binaries, all_tests};
ghost use Rattle.rinqebo_rules.specs.Scripts.{AreScriptsReported};
ghost use Rattle.rinqebo_rules.specs.Unused.{AreUsedIn};

use crate::list_report::Profile;
use filter_engine::NextestTally;
use nextest_elements::NextestRunMode;
use rinqebo_load::Session;
use rinqebo_report::ListScripts;
use rinqebo_rules::{UsedRules, scripts_by};
use std::alloc::{AllocError, Global};

/// The scripts that a profile gives to the list of a session, by the rules that hold for some of its
/// tests. No filter is evaluated for a test.
pub(crate) fn scripts_by_used(
    alloc: Global,
    session: &Session<'_>,
    profile: &Profile<'_>,
    used: &UsedRules,
) -> Result<ListScripts, AllocError>
    ensures { (mode : NextestRunMode) → let list = list_view session.now.tests in
        let profile = profile_meaning (marks_view names_of) profile.now in
        AreUsedIn (map (query_in filter_holds profile) (all_tests list)) mode profile used.now
        → IfOk result (AreScriptsReported filter_holds filter_holds_binary profile
        (all_tests list) (all_binaries list)) }
{
    let binaries = session.tests.binary_queries(alloc)?;
    let mut tally = NextestTally::new();
    scripts_by(alloc, profile, used, &binaries, &mut tally)
}
