//! The scripts that a profile gives to a list: the setup scripts that its tests enable, and what
//! wraps its binaries. The tests are judged one after another, so that nothing is kept of them.
ghost use Rattle.std.specs.Prelude.{◌≡◌, ◌&&◌, IfOk, map, string_bytes};
ghost use Rattle.std.specs.List.{list_any};
ghost use Rattle.filter_engine.specs.Compiling.{names_of};
ghost use Rattle.filter_engine.specs.Engine.{filter_holds, filter_holds_binary};
ghost use Rattle.filter_inputs.specs.Lists.Lists.{all_binaries, all_tests, tests_in};
ghost use Rattle.filter_inputs.specs.Lists.ListView.{list_view, listed_view};
ghost use Rattle.filter_language.specs.Filtersets.{marks_view};
ghost use Rattle.nextest_load.specs.ConfigView.{scripts_view};
ghost use Rattle.nextest_scripts.specs.ScriptId.{script_text};
ghost use Rattle.nextest_settings.specs.Deciding.{rule_holds};
ghost use Rattle.nextest_settings.specs.Engines.{test_query_by};
ghost use Rattle.nextest_settings.specs.Profiles.Meaning.{profile_meaning};
ghost use Rattle.nextest_settings.specs.Queries.{enabled_by, is_enabled_for};
ghost use Rattle.nextest_settings.specs.View.{meant_script_rule};
ghost use Rattle.nextest_tree.specs.Schema.{is_one_of};
ghost use Rattle.rinqebo_changes.specs.Sides.Matched.{tests_of};
ghost use Rattle.rinqebo_diff.specs.ListScripts.{judged};
ghost use Rattle.rinqebo_rules.specs.Scripts.{AreScriptsReported, enabled_ids};

use filter_engine::NextestTally;
use filter_inputs::ListedBinary;
use nextest_engines::{EvalContext, Filters, Specs, TestQuery};
use nextest_load::ScriptConfig;
use nextest_scripts::ScriptId;
use nextest_settings::{EvaluatableProfile, EvaluatedScriptRule, matches_test, names_script};
use rinqebo_load::Session;
use rinqebo_report::ListScripts;
use rinqebo_results::Profile;
use rinqebo_rules::scripts_of;
use std::alloc::{AllocError, Global};

/// The number of each rule in a tally. Which rules were evaluated is not read here.
const ANY_RULE: usize = 0;

/// Whether a rule holds for a test and names a script. The filter of a rule is evaluated only if the
/// rule names the script.
fn enables<F: Filters, S: Specs>(
    rule: &EvaluatedScriptRule<'_, F, S>,
    id: &ScriptId,
    query: &TestQuery<'_>,
    cx: &EvalContext<'_, F::Expr>,
    tally: &mut F::Tally,
) -> bool
    ensures { let query = test_query_by F.Filters cx.now.default_filter.now query.now in
        let rule = meant_script_rule F.meaning rule.now in
        result ≡ (rule_holds query rule
        && is_one_of rule.writes.scripts.setup (script_text id.now)) }
{
    rule.is_on(query.binary_query.platform)
        && names_script(rule.rule().setup(), id)
        && matches_test::<F>(rule.rule().filter(), ANY_RULE, query, cx, tally)
}

/// Whether a test enables a setup script: whether some rule that names it holds for the test.
fn is_enabled<F: Filters, S: Specs>(
    id: &ScriptId,
    rules: &[EvaluatedScriptRule<'_, F, S>],
    query: &TestQuery<'_>,
    cx: &EvalContext<'_, F::Expr>,
    tally: &mut F::Tally,
) -> bool
    ensures { let query = test_query_by F.Filters cx.now.default_filter.now query.now in
        result ≡ is_enabled_for query (map (meant_script_rule F.meaning) rules.now)
        (script_text id.now) }
{
    for rule in rules {
        if enables(rule, id, query, cx, tally) {
            return true;
        }
    }
    false
}

/// Whether some test of a binary enables a setup script.
fn is_enabled_in<F: Filters, S: Specs>(
    id: &ScriptId,
    rules: &[EvaluatedScriptRule<'_, F, S>],
    binary: &ListedBinary,
    cx: &EvalContext<'_, F::Expr>,
    tally: &mut F::Tally,
) -> bool
    ensures { result
        ≡ list_any (λ query. is_enabled_for query (map (meant_script_rule F.meaning) rules.now)
        (script_text id.now))
        (judged F.holds (F.meaning cx.now.default_filter.now) (tests_in (listed_view binary.now))) }
{
    for case in &binary.tests {
        if is_enabled(id, rules, &binary.query(case.name.as_str()), cx, tally) {
            return true;
        }
    }
    false
}

/// Whether some test of a list enables a setup script.
fn is_enabled_by_some<F: Filters, S: Specs>(
    id: &ScriptId,
    rules: &[EvaluatedScriptRule<'_, F, S>],
    binaries: &[ListedBinary],
    cx: &EvalContext<'_, F::Expr>,
    tally: &mut F::Tally,
) -> bool
    ensures { result
        ≡ list_any (λ query. is_enabled_for query (map (meant_script_rule F.meaning) rules.now)
        (script_text id.now))
        (judged F.holds (F.meaning cx.now.default_filter.now) (tests_of binaries.now)) }
{
    for binary in binaries {
        if is_enabled_in(id, rules, binary, cx, tally) {
            return true;
        }
    }
    false
}

/// The ids of the setup scripts that the tests of a list enable by rules, in the order in which they
/// run.
fn ids_by_rules<F: Filters, S: Specs>(
    alloc: Global,
    scripts: &ScriptConfig,
    rules: &[EvaluatedScriptRule<'_, F, S>],
    binaries: &[ListedBinary],
    cx: &EvalContext<'_, F::Expr>,
    tally: &mut F::Tally,
) -> Result<Vec<String>, AllocError>
    ensures { IfOk result (λ ids. map string_bytes ids.items
        ≡ map (λ script. script.0) (enabled_by
        (judged F.holds (F.meaning cx.now.default_filter.now) (tests_of binaries.now))
        (map (meant_script_rule F.meaning) rules.now) (scripts_view scripts.now).setup)) }
{
    let mut ids = Vec::new(alloc);
    for (id, _) in scripts.setup.iter() {
        if is_enabled_by_some(id, rules, binaries, cx, tally) {
            ids.push(String::from_str(alloc, id.as_identifier().as_str())?)?;
        }
    }
    Ok(ids)
}

/// The ids of the setup scripts that the tests of a list enable in a profile, in the order in which
/// they run.
fn setup_ids<F: Filters, S: Specs>(
    alloc: Global,
    profile: &EvaluatableProfile<'_, F, S>,
    binaries: &[ListedBinary],
    tally: &mut F::Tally,
) -> Result<Vec<String>, AllocError>
    ensures { IfOk result (λ ids. map string_bytes ids.items
        ≡ enabled_ids F.holds (profile_meaning F.meaning profile.now)
        (map (λ t. t.test) (tests_of binaries.now))) }
{
    let rules = profile.rules();
    let cx = profile.filterset_ecx();
    let scripts = profile.script_config();
    ids_by_rules(alloc, scripts, &rules.script_rules, binaries, &cx, tally)
}

/// The scripts that a profile gives to the list of a session.
pub fn scripts_of_list(
    alloc: Global,
    session: &Session<'_>,
    profile: &Profile<'_>,
) -> Result<ListScripts, AllocError>
    ensures { let list = list_view session.now.tests in
        IfOk result (AreScriptsReported filter_holds filter_holds_binary
        (profile_meaning (marks_view names_of) profile.now) (all_tests list) (all_binaries list)) }
{
    let binaries = session.tests.binary_queries(alloc)?;
    let mut tally = NextestTally::new();
    let ListScripts { list_wrappers, .. } = scripts_of(alloc, profile, &[], &binaries, &mut tally)?;
    Ok(ListScripts {
        setup: setup_ids(alloc, profile, &session.tests.binaries, &mut tally)?,
        list_wrappers,
    })
}
