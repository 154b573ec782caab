//! Which wrapper scripts a list uses: those that wrap the run of some test or the listing of some
//! binary.
ghost use Rattle.std.specs.Prelude.{◌≡◌, ◌++◌, IfOk, filter_map, map, option_and_then, option_map};
ghost use Rattle.nextest_engines.specs.Engines.{binary_view, test_view};
ghost use Rattle.nextest_settings.specs.Profiles.Meaning.{profile_meaning};
ghost use Rattle.nextest_scripts.specs.ScriptId.{script_text};
ghost use Rattle.nextest_settings.specs.Engines.{test_query_by};
ghost use Rattle.nextest_settings.specs.Queries.{binary_query, evaluated_for_list, list_wrapper_of, query_in, wrapping_rule};
ghost use Rattle.nextest_settings.specs.View.{meant_script_rule};
ghost use Rattle.rinqebo_objects.specs.Used.{evaluated_for_lists, is_chosen, list_wrappers, run_wrapper_of};
ghost use Rattle.rinqebo_objects.specs.Uses.{used_by, wrapper_in};

use crate::enabling::holds_for_test;
use crate::list_use::ListUse;
use crate::script_use::{ScriptUse, is_one_of};
use nextest_engines::{BinaryQuery, EvalContext, Filters, Specs, Tally, TestQuery};
use nextest_scripts::ScriptId;
use nextest_settings::{EvaluatableProfile, EvaluatedScriptRule};
use std::alloc::{AllocError, Global};

/// The run wrapper that rules give a test: that of the first rule that holds for it and names one.
fn run_wrapper_by<'c, F: Filters, S: Specs>(
    rules: &[EvaluatedScriptRule<'c, F, S>],
    query: &TestQuery<'_>,
    cx: &EvalContext<'_, F::Expr>,
    tally: &mut F::Tally,
) -> Option<&'c ScriptId>
    ensures { let query = test_query_by F.Filters cx.now.default_filter.now query.now in
        option_map (λ id. script_text id.now) result
        ≡ option_and_then (λ r. r.writes.scripts.run_wrapper)
        (wrapping_rule query (map (meant_script_rule F.meaning) rules.now)) }
{
    for rule in rules {
        let named = rule.rule().run_wrapper();
        if holds_for_test(rule, named.is_some(), query, cx, tally) {
            return named;
        }
    }
    None
}

/// The run wrapper that a profile gives a test.
pub(crate) fn run_wrapper_of<'c, F: Filters, S: Specs>(
    profile: &EvaluatableProfile<'c, F, S>,
    query: &TestQuery<'_>,
    tally: &mut F::Tally,
) -> Option<&'c ScriptId>
    ensures { let profile = profile_meaning F.meaning profile.now in
        option_map (λ id. script_text id.now) result
        ≡ run_wrapper_of (query_in F.holds profile (test_view query.now)) profile }
{
    let cx = profile.filterset_ecx();
    let rules = profile.rules();
    run_wrapper_by(&rules.script_rules, query, &cx, tally)
}

/// The list wrapper that a profile gives a binary.
fn list_wrapper_of<'c, F: Filters, S: Specs>(
    profile: &EvaluatableProfile<'c, F, S>,
    query: &BinaryQuery<'_>,
    tally: &mut F::Tally,
) -> Option<&'c ScriptId>
    ensures wrapper { let profile = profile_meaning F.meaning profile.now in
        let binary = binary_query F.holds_binary profile.default_filter.filter
        (binary_view query.now) in
        option_map (λ id. script_text id.now) result ≡ list_wrapper_of binary profile }
    ensures tally { let profile = profile_meaning F.meaning profile.now in
        let binary = binary_query F.holds_binary profile.default_filter.filter
        (binary_view query.now) in
        F.Tally.numbers tally.new ≡ F.Tally.numbers tally.old ++ evaluated_for_list binary profile }
{
    match profile.list_wrapper_rule(query, tally) {
        Some(rule) => rule.list_wrapper(),
        None => None,
    }
}

/// Adds the run wrappers of the tests that have one.
fn add_run_wrappers<'c>(
    ids: &mut Vec<&'c ScriptId>,
    uses: &[ScriptUse<'c>],
) -> Result<(), AllocError>
    ensures { IfOk result (λ _. map (λ id. script_text id.now) ids.new.items
        ≡ map (λ id. script_text id.now) ids.old.items ++ filter_map wrapper_in uses.now) }
{
    for scripts in uses {
        if let Some(id) = scripts.run_wrapper {
            ids.push(id)?;
        }
    }
    Ok(())
}

/// Adds the list wrappers of the binaries that have one in a profile.
fn add_list_wrappers<'c, F: Filters, S: Specs>(
    ids: &mut Vec<&'c ScriptId>,
    profile: &EvaluatableProfile<'c, F, S>,
    binaries: &[BinaryQuery<'_>],
    tally: &mut F::Tally,
) -> Result<(), AllocError>
    ensures wrappers { let profile = profile_meaning F.meaning profile.now in
        IfOk result (λ _. map (λ id. script_text id.now) ids.new.items
        ≡ map (λ id. script_text id.now) ids.old.items
        ++ list_wrappers F.holds_binary profile (map binary_view binaries.now)) }
    ensures tally { let profile = profile_meaning F.meaning profile.now in
        IfOk result (λ _. F.Tally.numbers tally.new ≡ F.Tally.numbers tally.old
        ++ evaluated_for_lists F.holds_binary profile (map binary_view binaries.now)) }
{
    for binary in binaries {
        if let Some(id) = list_wrapper_of(profile, binary, tally) {
            ids.push(id)?;
        }
    }
    Ok(())
}

/// The ids of the wrappers that a list uses in a profile, by what each of its tests uses. Filters
/// are evaluated for the list wrappers of binaries alone.
pub(crate) fn ids_used<'c, F: Filters, S: Specs>(
    alloc: Global,
    profile: &EvaluatableProfile<'c, F, S>,
    uses: &[ScriptUse<'c>],
    binaries: &[BinaryQuery<'_>],
    tally: &mut F::Tally,
) -> Result<Vec<&'c ScriptId>, AllocError>
    ensures wrappers { let profile = profile_meaning F.meaning profile.now in
        IfOk result (λ ids. map (λ id. script_text id.now) ids.items
        ≡ filter_map wrapper_in uses.now
        ++ list_wrappers F.holds_binary profile (map binary_view binaries.now)) }
    ensures tally { let profile = profile_meaning F.meaning profile.now in
        IfOk result (λ _. F.Tally.numbers tally.new ≡ F.Tally.numbers tally.old
        ++ evaluated_for_lists F.holds_binary profile (map binary_view binaries.now)) }
{
    let mut ids = Vec::new(alloc);
    add_run_wrappers(&mut ids, uses)?;
    add_list_wrappers(&mut ids, profile, binaries, tally)?;
    Ok(ids)
}

/// Whether the objects of a profile have the wrapper of an id: those that a list uses; all without a
/// list.
pub(crate) fn is_chosen(list: Option<ListUse<'_, '_>>, id: &ScriptId) -> bool
    ensures { result ≡ is_chosen (option_map (λ used. used.wrappers) (used_by list.entry))
        (script_text id.now) }
{
    match list {
        Some(list) => is_one_of(list.wrappers, id),
        None => true,
    }
}
