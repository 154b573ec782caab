//! Script rules that name setup scripts: whether each of them holds for a test.
ghost use Rattle.std.specs.Prelude.{◌≡◌, ◌+◌, ◌<◌, ◌^◌, Bool, IfOk, IsTrue, List, None, Option, false, is_some, length, map, unwrap_or};
ghost use Rattle.nextest_scripts.specs.ScriptId.{script_text};
ghost use Rattle.nextest_settings.specs.Binaries.{IsKnownFor};
ghost use Rattle.nextest_settings.specs.Deciding.{QueryContext};
ghost use Rattle.nextest_settings.specs.Engines.{test_query_by};
ghost use Rattle.nextest_settings.specs.Queries.{is_enabled_for};
ghost use Rattle.nextest_settings.specs.View.{meant_script_rule};
ghost use Rattle.nextest_tables.specs.Written.{Name};
ghost use Rattle.nextest_tree.specs.Schema.{is_one_of};
ghost use Rattle.rinqebo_rules.specs.BinaryRules.{AreKnownIn, known_at};
ghost use Rattle.rinqebo_rules.specs.Distinct.{AreDistinct};
ghost use Rattle.rinqebo_rules.specs.Evaluations.{EvaluatesIf, EvaluatesOnly, IsNamedAt, IsNamedOpen};
ghost use Rattle.rinqebo_rules.specs.Passed.{IsPassed, IsShown, ids_of};
ghost use Rattle.rinqebo_rules.specs.SetupRules.{AreKnownMore, IsKnownMore, names_setup};

use crate::marks::known_at;
use crate::unused::open_script_rule_holds;
use crate::wrapping::shown_of_script;
use nextest_engines::{EvalContext, Filters, Specs, Tally, TestQuery};
use nextest_scripts::ScriptId;
use nextest_settings::EvaluatedScriptRule;
use rinqebo_objects::add_script_ids;
use std::alloc::{AllocError, Global};

/// Whether a script rule names a setup script.
fn names_setup<F: Filters, S: Specs>(rule: &EvaluatedScriptRule<'_, F, S>) -> bool
    ensures { result ≡ names_setup (meant_script_rule F.meaning rule.now).writes }
{
    !rule.rule().setup().is_empty()
}

/// Whether a script rule holds for a test whose binary leaves it open, if the rule names a setup
/// script. It is evaluated only if the run wrapper of the test does not show whether it holds.
fn known_by_setup<F: Filters, S: Specs>(
    rule: &EvaluatedScriptRule<'_, F, S>,
    number: usize,
    shown: Option<bool>,
    query: &TestQuery<'_>,
    cx: &EvalContext<'_, F::Expr>,
    tally: &mut F::Tally,
) -> Option<bool>
    ensures answer { let query = test_query_by F.Filters cx.now.default_filter.now query.now in
        let rule = meant_script_rule F.meaning rule.now in
        IsKnownFor query rule shown → IsKnownMore query rule None result }
    ensures tally { let query = test_query_by F.Filters cx.now.default_filter.now query.now in
        let rule = meant_script_rule F.meaning rule.now in
        EvaluatesIf (IsNamedOpen query None (shown ≡ None) rule) number
        (F.Tally.numbers tally.old) (F.Tally.numbers tally.new) }
{
    if names_setup(rule) {
        Some(open_script_rule_holds(rule, number, shown, query, cx, tally))
    } else {
        None
    }
}

/// What is known of a script rule for a test: what its binary decides, and else, if the rule names a
/// setup script, whether it holds.
fn known_of<F: Filters, S: Specs>(
    rule: &EvaluatedScriptRule<'_, F, S>,
    number: usize,
    known: Option<bool>,
    shown: Option<bool>,
    query: &TestQuery<'_>,
    cx: &EvalContext<'_, F::Expr>,
    tally: &mut F::Tally,
) -> Option<bool>
    ensures answer { let query = test_query_by F.Filters cx.now.default_filter.now query.now in
        let rule = meant_script_rule F.meaning rule.now in
        IsKnownFor query rule known → IsKnownFor query rule shown
        → IsKnownMore query rule known result }
    ensures tally { let query = test_query_by F.Filters cx.now.default_filter.now query.now in
        let rule = meant_script_rule F.meaning rule.now in
        EvaluatesIf (IsNamedOpen query known (shown ≡ None) rule) number
        (F.Tally.numbers tally.old) (F.Tally.numbers tally.new) }
{
    match known {
        Some(holds) => Some(holds),
        None => known_by_setup(rule, number, shown, query, cx, tally),
    }
}

/// What is known of script rules for a test: what its binary decides, and of those that name a setup
/// script, whether they hold. The rules are numbered on from the first number.
pub(crate) fn known_rules<F: Filters, S: Specs>(
    alloc: Global,
    rules: &[EvaluatedScriptRule<'_, F, S>],
    first: usize,
    known: &[Option<bool>],
    passed: usize,
    are_distinct: bool,
    query: &TestQuery<'_>,
    cx: &EvalContext<'_, F::Expr>,
    tally: &mut F::Tally,
) -> Result<Vec<Option<bool>>, AllocError>
    requires { first + length rules.now < 2 ^ 64 }
    ensures known { let query = test_query_by F.Filters cx.now.default_filter.now query.now in
        let rules = map (meant_script_rule F.meaning) rules.now in
        IsPassed query (λ w. is_some w.scripts.run_wrapper) (λ w. w.id) rules passed
        → (IsTrue are_distinct → AreDistinct (ids_of (λ w. w.id) rules))
        → AreKnownIn query rules known.now
        → IfOk result (λ more. AreKnownMore query rules known.now more.items) }
    ensures tally { let query = test_query_by F.Filters cx.now.default_filter.now query.now in
        let rules = map (meant_script_rule F.meaning) rules.now in
        IfOk result (λ _. EvaluatesOnly (IsNamedAt query known.now (λ n w holds.
        IsTrue (is_some w.scripts.run_wrapper) × IsShown are_distinct n passed holds) first rules)
        first (F.Tally.numbers tally.old) (F.Tally.numbers tally.new)) }
{
    let mut more = Vec::with_capacity(alloc, rules.len())?;
    for (number, rule) in rules.iter().enumerate() {
        let here = known_at(known, number);
        let shown = shown_of_script(rule, number, passed, are_distinct);
        let holds = known_of(rule, first + number, here, shown, query, cx, tally);
        more.push(holds)?;
    }
    Ok(more)
}

/// Whether the rule of a number is known to hold.
fn is_known_to_hold(known: &[Option<bool>], number: usize) -> bool
    ensures { result ≡ unwrap_or (known_at known.now number) false }
{
    known_at(known, number).unwrap_or(false)
}

/// The ids of the setup scripts that a test enables, by what is known of script rules: those that a
/// rule names which holds for the test.
pub(crate) fn enabled_ids<'c, F: Filters, S: Specs>(
    alloc: Global,
    rules: &[EvaluatedScriptRule<'c, F, S>],
    known: &[Option<bool>],
) -> Result<Vec<&'c ScriptId>, AllocError>
    ensures { (query : QueryContext F.Meaning) (before : List (Option Bool))
        → let rules = map (meant_script_rule F.meaning) rules.now in
        AreKnownMore query rules before known.now
        → IfOk result (λ ids. (id : Name) → is_one_of (map (λ id. script_text id.now) ids.items) id
        ≡ is_enabled_for query rules id) }
{
    let mut ids = Vec::new(alloc);
    for (number, rule) in rules.iter().enumerate() {
        if is_known_to_hold(known, number) {
            add_script_ids(&mut ids, rule.rule().setup())?;
        }
    }
    Ok(ids)
}
