//! The scripts of a list: the setup scripts that its tests enable, and what wraps its binaries.
ghost use Rattle.std.specs.Prelude.{◌≡◌, IfOk, List, filter_map, map, option_map, string_bytes};
ghost use Rattle.nextest_engines.specs.Engines.{Test, binary_view, test_view};
ghost use Rattle.nextest_settings.specs.Profiles.Meaning.{profile_meaning};
ghost use Rattle.nextest_scripts.specs.ScriptId.{script_text};
ghost use Rattle.nextest_settings.specs.Queries.{list_wrapper_of, query_in};
ghost use Rattle.rinqebo_rules.specs.Scripts.{binary_in, enabled_ids, wrapper_at, wrapper_view, AreScriptsReported};
ghost use Rattle.rinqebo_rules.specs.Unused.{AreUsedIn};

use crate::unused::UsedRules;
use nextest_elements::NextestRunMode;
use nextest_engines::{BinaryQuery, Filters, Specs, TestQuery};
use nextest_scripts::ScriptId;
use nextest_settings::EvaluatableProfile;
use rinqebo_report::{ListScripts, ListWrapper};
use std::alloc::{AllocError, Global};

/// The list wrapper that a profile gives a binary.
fn wrapper_of<'c, F: Filters, S: Specs>(
    profile: &EvaluatableProfile<'c, F, S>,
    query: &BinaryQuery<'_>,
    tally: &mut F::Tally,
) -> Option<&'c ScriptId>
    ensures { let profile = profile_meaning F.meaning profile.now in
        option_map (λ id. script_text id.now) result
        ≡ list_wrapper_of (binary_in F.holds_binary profile (binary_view query.now)) profile }
{
    match profile.list_wrapper_rule(query, tally) {
        Some(rule) => rule.list_wrapper(),
        None => None,
    }
}

/// The list wrappers of the binaries that have one, in their order.
fn list_wrappers<F: Filters, S: Specs>(
    alloc: Global,
    profile: &EvaluatableProfile<'_, F, S>,
    binaries: &[BinaryQuery<'_>],
    tally: &mut F::Tally,
) -> Result<Vec<ListWrapper>, AllocError>
    ensures { let profile = profile_meaning F.meaning profile.now in
        IfOk result (λ wrappers. map wrapper_view wrappers.items
        ≡ filter_map (wrapper_at F.holds_binary profile) (map binary_view binaries.now)) }
{
    let mut wrappers = Vec::new(alloc);
    for binary in binaries {
        if let Some(id) = wrapper_of(profile, binary, tally) {
            wrappers.push(ListWrapper {
                binary: String::from_str(alloc, binary.binary_id)?,
                value: String::from_str(alloc, id.as_identifier().as_str())?,
            })?;
        }
    }
    Ok(wrappers)
}

/// The ids of the setup scripts that tests enable, in the order in which they run.
fn setup_ids<F: Filters, S: Specs>(
    alloc: Global,
    profile: &EvaluatableProfile<'_, F, S>,
    tests: &[TestQuery<'_>],
    tally: &mut F::Tally,
) -> Result<Vec<String>, AllocError>
    ensures { let profile = profile_meaning F.meaning profile.now in
        IfOk result (λ ids. map string_bytes ids.items
        ≡ enabled_ids F.holds profile (map test_view tests.now)) }
{
    let scripts = profile.setup_scripts(alloc, tests, tally)?;
    let mut ids = Vec::new(alloc);
    for script in scripts.iter() {
        ids.push(String::from_str(alloc, script.id().as_identifier().as_str())?)?;
    }
    Ok(ids)
}

/// The scripts that a profile gives to a list of these tests and binaries.
pub fn scripts_of<F: Filters, S: Specs>(
    alloc: Global,
    profile: &EvaluatableProfile<'_, F, S>,
    tests: &[TestQuery<'_>],
    binaries: &[BinaryQuery<'_>],
    tally: &mut F::Tally,
) -> Result<ListScripts, AllocError>
    ensures { IfOk result (AreScriptsReported F.holds F.holds_binary
        (profile_meaning F.meaning profile.now) (map test_view tests.now)
        (map binary_view binaries.now)) }
{
    Ok(ListScripts {
        setup: setup_ids(alloc, profile, tests, tally)?,
        list_wrappers: list_wrappers(alloc, profile, binaries, tally)?,
    })
}

/// The scripts that a profile gives to a list of tests and of these binaries, by the rules that hold
/// for some of the tests. No filter is evaluated for a test.
pub fn scripts_by<F: Filters, S: Specs>(
    alloc: Global,
    profile: &EvaluatableProfile<'_, F, S>,
    used: &UsedRules,
    binaries: &[BinaryQuery<'_>],
    tally: &mut F::Tally,
) -> Result<ListScripts, AllocError>
    ensures { (tests : List Test) (mode : NextestRunMode)
        → let profile = profile_meaning F.meaning profile.now in
        AreUsedIn (map (query_in F.holds profile) tests) mode profile used.now
        → IfOk result (AreScriptsReported F.holds F.holds_binary profile tests
        (map binary_view binaries.now)) }
{
    Ok(ListScripts {
        setup: used.setup_scripts(alloc, profile)?,
        list_wrappers: list_wrappers(alloc, profile, binaries, tally)?,
    })
}
