//! Which setup scripts the tests of a list enable.
ghost use Rattle.std.specs.Prelude.{◌≡◌, ◌&&◌, IfOk, false, map, option_map, slice_get, unwrap_or};
ghost use Rattle.serde_json.specs.View.{view};
ghost use Rattle.nextest_engines.specs.Engines.{test_view};
ghost use Rattle.nextest_settings.specs.Profiles.Meaning.{profile_meaning};
ghost use Rattle.nextest_scripts.specs.ScriptId.{script_text};
ghost use Rattle.nextest_settings.specs.Deciding.{rule_holds};
ghost use Rattle.nextest_settings.specs.Engines.{test_query_by};
ghost use Rattle.nextest_settings.specs.Queries.{is_enabled_for, query_in};
ghost use Rattle.nextest_settings.specs.View.{meant_script_rule};
ghost use Rattle.nextest_tables.specs.Written.{Name};
ghost use Rattle.nextest_tree.specs.Schema.{is_one_of};
ghost use Rattle.rinqebo_objects.specs.Enabling.{test_data};
ghost use Rattle.rinqebo_objects.specs.Scripts.{enabling_data};
ghost use Rattle.rinqebo_objects.specs.Uses.{enabling_by, setup_in, used_by};
ghost use Rattle.rinqebo_report.specs.Documents.{list_data};

use crate::list_use::ListUse;
use crate::script_use::{ScriptUse, add_script_ids, is_one_of};
use nextest_engines::{EvalContext, Filters, Specs, TestQuery};
use nextest_scripts::ScriptId;
use nextest_settings::{EvaluatableProfile, EvaluatedScriptRule, matches_test};
use serde_json::{Value, json};
use std::alloc::{AllocError, Global};

/// The number that evaluations of filters have in a tally, where nobody reads it.
const NUMBER: usize = 0;

/// A test by its binary and its name.
fn test_json(alloc: Global, query: &TestQuery<'_>) -> Result<Value, AllocError>
    ensures { IfOk result (λ value. view value ≡ test_data (test_view query.now)) }
{
    json!(in alloc; {
        "binary-id": query.binary_query.binary_id,
        "name": query.test_name
    })
}

/// Whether a script rule holds for a test and is wanted. Its filter is evaluated where its
/// platforms hold and it is wanted.
pub(crate) fn holds_for_test<F: Filters, S: Specs>(
    rule: &EvaluatedScriptRule<'_, F, S>,
    is_wanted: bool,
    query: &TestQuery<'_>,
    cx: &EvalContext<'_, F::Expr>,
    tally: &mut F::Tally,
) -> bool
    ensures { let query = test_query_by F.Filters cx.now.default_filter.now query.now in
        result ≡ (rule_holds query (meant_script_rule F.meaning rule.now) && is_wanted) }
{
    rule.is_on(query.binary_query.platform)
        && is_wanted
        && matches_test::<F>(rule.rule().filter(), NUMBER, query, cx, tally)
}

/// The ids of the setup scripts that a test enables by rules: those that a rule names which holds
/// for the test. A rule that names none is not evaluated.
fn ids_by_rules<'c, F: Filters, S: Specs>(
    alloc: Global,
    rules: &[EvaluatedScriptRule<'c, F, S>],
    query: &TestQuery<'_>,
    cx: &EvalContext<'_, F::Expr>,
    tally: &mut F::Tally,
) -> Result<Vec<&'c ScriptId>, AllocError>
    ensures { let query = test_query_by F.Filters cx.now.default_filter.now query.now in
        let rules = map (meant_script_rule F.meaning) rules.now in
        IfOk result (λ ids. (id : Name) → is_one_of (map (λ id. script_text id.now) ids.items) id
        ≡ is_enabled_for query rules id) }
{
    let mut ids = Vec::new(alloc);
    for rule in rules {
        let setup = rule.rule().setup();
        if holds_for_test(rule, !setup.is_empty(), query, cx, tally) {
            add_script_ids(&mut ids, setup)?;
        }
    }
    Ok(ids)
}

/// The ids of the setup scripts that a test enables in a profile.
pub(crate) fn enabled_ids<'c, F: Filters, S: Specs>(
    alloc: Global,
    profile: &EvaluatableProfile<'c, F, S>,
    query: &TestQuery<'_>,
    tally: &mut F::Tally,
) -> Result<Vec<&'c ScriptId>, AllocError>
    ensures { let profile = profile_meaning F.meaning profile.now in
        let query = query_in F.holds profile (test_view query.now) in
        IfOk result (λ ids. (id : Name) → is_one_of (map (λ id. script_text id.now) ids.items) id
        ≡ is_enabled_for query profile.script_rules id) }
{
    let cx = profile.filterset_ecx();
    let rules = profile.rules();
    ids_by_rules(alloc, &rules.script_rules, query, &cx, tally)
}

/// Whether the test of a number enables a setup script, by what each test uses.
fn enables(uses: &[ScriptUse<'_>], number: usize, id: &ScriptId) -> bool
    ensures { result ≡ unwrap_or (option_map
        (λ scripts. is_one_of (setup_in scripts) (script_text id.now)) (slice_get uses.now number))
        false }
{
    match uses.get(number) {
        Some(scripts) => is_one_of(&scripts.setup, id),
        None => false,
    }
}

/// The tests that enable a setup script, in their order, by what each of them uses. No filter is
/// evaluated.
fn tests_json(
    alloc: Global,
    id: &ScriptId,
    tests: &[TestQuery<'_>],
    uses: &[ScriptUse<'_>],
) -> Result<Value, AllocError>
    ensures { IfOk result (λ value. view value ≡ list_data test_data
        (enabling_by uses.now (map test_view tests.now) (script_text id.now))) }
{
    let mut list = Vec::new(alloc);
    for (number, query) in tests.iter().enumerate() {
        if enables(uses, number, id) {
            list.push(test_json(alloc, query)?)?;
        }
    }
    Ok(Value::Array(list))
}

/// The tests of a list that enable a setup script, in their order; null without a list.
pub(crate) fn optional_tests_json(
    alloc: Global,
    id: &ScriptId,
    list: Option<ListUse<'_, '_>>,
) -> Result<Value, AllocError>
    ensures { IfOk result (λ value. view value
        ≡ enabling_data (used_by list.entry) (script_text id.now)) }
{
    match list {
        Some(list) => tests_json(alloc, id, list.tests, list.uses),
        None => Ok(Value::Null),
    }
}
