//! Wrapper scripts: the first script rule that holds and names one.
ghost use Rattle.std.specs.Prelude.{◌≡◌, ℕ, IfSome, IsSome, slice_get, ◌++◌, ◌∷◌, ◌&&◌, [], map, option_map, option_and_then, is_some, if◌then◌else◌, Some};
ghost use Rattle.nextest_load.specs.ConfigView.{scripts_view};
ghost use Rattle.nextest_rules.specs.Rules.{at_name};
ghost use Rattle.nextest_scripts.specs.ScriptId.{script_text};
ghost use Rattle.nextest_scripts.specs.ScriptTexts.{wrapper_script_view};
ghost use Rattle.nextest_settings.specs.Deciding.{asked_from, filter_holds, rule_holds, winner};
ghost use Rattle.nextest_settings.specs.Engines.{test_query_by, binary_query_by};
ghost use Rattle.nextest_settings.specs.Index.{script_tests};
ghost use Rattle.nextest_settings.specs.Pass.{asked_alone};
ghost use Rattle.nextest_settings.specs.Queries.{binary_query, HasBinaryAnswers, AnswerForBinaries, wrapping_rule, list_wrapper_by, listed_by};
ghost use Rattle.nextest_settings.specs.View.{meant_script_rule, script_rule_ref_view, KnowsRunWrappers, KnowsListWrappers};
ghost use Rattle.nextest_settings.specs.declared.index.Wrapper.{Wrapper};
ghost use Rattle.nextest_tables.specs.FileTexts.{names_in, IsIn};
ghost use Rattle.rule_lists.specs.Rows.{rows_of};

use crate::pass::matches_test;
use crate::platforms::EvaluatedScriptRule;
use nextest_engines::{BinaryQuery, EvalContext, Filters, Specs, Tally, TestQuery};
use nextest_load::ScriptConfig;
use nextest_rules::CompiledProfileScripts;
use nextest_scripts::{ScriptId, WrapperScriptConfig};
use rule_lists::{Query, Row, walk_rows};

/// Whether a filter matches a binary, if there is one.
fn matches_binary<F: Filters>(
    filter: Option<&F::Expr>,
    number: usize,
    query: &BinaryQuery<'_>,
    cx: &EvalContext<'_, F::Expr>,
    tally: &mut F::Tally,
) -> bool
    requires { HasBinaryAnswers F.holds_binary
        (option_map (λ expr. F.meaning expr.now) filter) }
    ensures answer { let query = binary_query_by F.Filters cx.now.default_filter.now query.now in
        result ≡ filter_holds query.matches (option_map (λ expr. F.meaning expr.now) filter.entry) }
    ensures tally { F.Tally.numbers tally.new
        ≡ F.Tally.numbers tally.old ++ (if is_some filter.entry then number ∷ [] else []) }
{
    match filter {
        None => true,
        Some(expr) => match F::matches_binary(expr, number, query, cx, tally) {
            Some(answer) => answer,
            None => unreachable!(),
        },
    }
}

/// Whether a script rule holds for a test and is wanted. Its filter is evaluated where its
/// platforms hold and it is wanted.
pub(crate) fn holds_for_test<F: Filters, S: Specs>(
    rule: &EvaluatedScriptRule<'_, F, S>,
    is_wanted: bool,
    number: usize,
    query: &TestQuery<'_>,
    cx: &EvalContext<'_, F::Expr>,
    tally: &mut F::Tally,
) -> bool
    ensures answer { let query = test_query_by F.Filters cx.now.default_filter.now query.now in
        result ≡ (rule_holds query (meant_script_rule F.meaning rule.now) && is_wanted) }
    ensures tally { let query = test_query_by F.Filters cx.now.default_filter.now query.now in
        F.Tally.numbers tally.new ≡ F.Tally.numbers tally.old
        ++ asked_alone query is_wanted (meant_script_rule F.meaning rule.now) number }
{
    rule.is_on(query.binary_query.platform)
        && is_wanted
        && matches_test::<F>(rule.rule.filter(), number, query, cx, tally)
}

/// The run wrapper of a test, as script rules decide it.
#[derive(Drop)]
struct RunWrapperQuery<'q, F: Filters> {
    query: TestQuery<'q>,
    cx: EvalContext<'q, F::Expr>,
}

impl<'cfg, F: Filters, S: Specs> Query<EvaluatedScriptRule<'cfg, F, S>> for RunWrapperQuery<'_, F> {
    ghost use Rattle.std.specs.Prelude.{⊤};
    ghost use Rattle.nextest_settings.specs.declared.index.Wrapper.{Wrapper};

    type Tally = F::Tally;

    ghost numbers = { F.Tally.numbers };

    ghost tests = { λ q. script_tests q.query.binary_query.platform Wrapper.Run };

    ghost asks = { λ q rule. is_some (meant_script_rule F.meaning rule).filter };

    ghost met = { λ q rule.
        filter_holds (test_query_by F.Filters q.cx.default_filter.now q.query).matches
        (meant_script_rule F.meaning rule).filter };

    ghost has_answer = { λ q rule. ⊤ };

    fn is_met(
        &self,
        rule: &EvaluatedScriptRule<'cfg, F, S>,
        number: usize,
        tally: &mut F::Tally,
    ) -> bool {
        matches_test::<F>(rule.rule.filter(), number, &self.query, &self.cx, tally)
    }
}

/// The list wrapper of a binary, as script rules decide it.
#[derive(Drop)]
struct ListWrapperQuery<'q, F: Filters> {
    query: BinaryQuery<'q>,
    cx: EvalContext<'q, F::Expr>,
}

impl<'cfg, F: Filters, S: Specs> Query<EvaluatedScriptRule<'cfg, F, S>>
    for ListWrapperQuery<'_, F> {
    ghost use Rattle.nextest_settings.specs.declared.index.Wrapper.{Wrapper};

    type Tally = F::Tally;

    ghost numbers = { F.Tally.numbers };

    ghost tests = { λ q. script_tests q.query.platform Wrapper.List };

    ghost asks = { λ q rule. is_some (meant_script_rule F.meaning rule).filter };

    ghost met = { λ q rule.
        filter_holds (binary_query_by F.Filters q.cx.default_filter.now q.query).matches
        (meant_script_rule F.meaning rule).filter };

    ghost has_answer = { λ q rule.
        HasBinaryAnswers F.holds_binary (meant_script_rule F.meaning rule).filter };

    fn is_met(
        &self,
        rule: &EvaluatedScriptRule<'cfg, F, S>,
        number: usize,
        tally: &mut F::Tally,
    ) -> bool {
        matches_binary::<F>(rule.rule.filter(), number, &self.query, &self.cx, tally)
    }
}

/// The first script rule that holds for a test and names a run wrapper, by the rows of the script
/// rules that count for it. Rules are numbered on from the first number.
pub(crate) fn run_wrapper_rule<'cfg, F: Filters, S: Specs>(
    rules: &[EvaluatedScriptRule<'cfg, F, S>],
    rows: &[Row],
    first: usize,
    query: &TestQuery<'_>,
    cx: &EvalContext<'_, F::Expr>,
    tally: &mut F::Tally,
) -> Option<EvaluatedScriptRule<'cfg, F, S>>
    requires { rows.now
        ≡ rows_of (script_tests query.now.binary_query.platform Wrapper.Run) first rules.now }
    ensures rule { let query = test_query_by F.Filters cx.now.default_filter.now query.now in
        option_map (meant_script_rule F.meaning) result
        ≡ winner query (λ w. is_some w.scripts.run_wrapper)
        (map (meant_script_rule F.meaning) rules.now) }
    ensures tally { let query = test_query_by F.Filters cx.now.default_filter.now query.now in
        F.Tally.numbers tally.new ≡ F.Tally.numbers tally.old
        ++ asked_from ((λ w. is_some w.scripts.run_wrapper) ∷ []) first query []
        (map (meant_script_rule F.meaning) rules.now) }
    ensures member { IfSome result (λ r. (n : ℕ) × (slice_get rules.now n ≡ Some r)) }
    ensures named { IfSome result
        (λ r. IsSome (script_rule_ref_view r.rule).writes.scripts.run_wrapper) }
{
    let asked: RunWrapperQuery<'_, F> = RunWrapperQuery {
        query: *query,
        cx: *cx,
    };
    let mut found = [None; 1];
    walk_rows(&mut found, rows, rules, first, &asked, tally);
    found[0]
}

/// The first script rule that holds for a binary and names a list wrapper, by the rows of the script
/// rules that count for it. Rules are numbered on from the first number.
pub(crate) fn list_wrapper_rule<'cfg, F: Filters, S: Specs>(
    rules: &[EvaluatedScriptRule<'cfg, F, S>],
    rows: &[Row],
    first: usize,
    query: &BinaryQuery<'_>,
    cx: &EvalContext<'_, F::Expr>,
    tally: &mut F::Tally,
) -> Option<EvaluatedScriptRule<'cfg, F, S>>
    requires rows { rows.now
        ≡ rows_of (script_tests query.now.platform Wrapper.List) first rules.now }
    requires answers { AnswerForBinaries F.holds_binary
        (map (meant_script_rule F.meaning) rules.now) }
    ensures rule { let query = binary_query_by F.Filters cx.now.default_filter.now query.now in
        option_map (meant_script_rule F.meaning) result
        ≡ winner query (λ w. is_some w.scripts.list_wrapper)
        (map (meant_script_rule F.meaning) rules.now) }
    ensures tally { let query = binary_query_by F.Filters cx.now.default_filter.now query.now in
        F.Tally.numbers tally.new ≡ F.Tally.numbers tally.old
        ++ asked_from ((λ w. is_some w.scripts.list_wrapper) ∷ []) first query []
        (map (meant_script_rule F.meaning) rules.now) }
    ensures member { IfSome result (λ r. (n : ℕ) × (slice_get rules.now n ≡ Some r)) }
    ensures named { IfSome result
        (λ r. IsSome (script_rule_ref_view r.rule).writes.scripts.list_wrapper) }
{
    let asked: ListWrapperQuery<'_, F> = ListWrapperQuery {
        query: *query,
        cx: *cx,
    };
    let mut found = [None; 1];
    walk_rows(&mut found, rows, rules, first, &asked, tally);
    found[0]
}

/// The wrapper script of an id that a configuration defines.
pub(crate) fn wrapper_at<'cfg>(
    scripts: &'cfg ScriptConfig,
    id: &ScriptId,
) -> &'cfg WrapperScriptConfig
    requires { IsIn (names_in (scripts_view scripts.now).wrapper) (script_text id.now) }
    ensures { at_name (script_text id.now) (scripts_view scripts.now).wrapper
        ≡ Some (wrapper_script_view result.now) }
{
    match scripts.wrapper.get(id) {
        Some(wrapper) => wrapper,
        None => unreachable!(),
    }
}

/// The script that wraps the run of a test, and the rule that names it.
#[derive_where(Clone, Copy)]
pub(crate) struct RunWrapper<'cfg, F: Filters, S: Specs> {
    pub(crate) rule: &'cfg CompiledProfileScripts<F, S>,
    pub(crate) script: &'cfg WrapperScriptConfig,
}

/// The script that wraps the run of a test: that of the first script rule that holds for it and
/// names one. Rules are numbered on from the first number.
pub(crate) fn run_wrapper<'cfg, F: Filters, S: Specs>(
    rules: &[EvaluatedScriptRule<'cfg, F, S>],
    rows: &[Row],
    scripts: &'cfg ScriptConfig,
    first: usize,
    query: &TestQuery<'_>,
    cx: &EvalContext<'_, F::Expr>,
    tally: &mut F::Tally,
) -> Option<RunWrapper<'cfg, F, S>>
    requires rows { rows.now
        ≡ rows_of (script_tests query.now.binary_query.platform Wrapper.Run) first rules.now }
    requires known { KnowsRunWrappers (scripts_view scripts.now) rules.now }
    ensures id { let query = test_query_by F.Filters cx.now.default_filter.now query.now in
        option_map (λ w. (script_rule_ref_view w.rule).writes) result
        ≡ option_map (λ r. r.writes)
        (wrapping_rule query (map (meant_script_rule F.meaning) rules.now)) }
    ensures script { option_map (λ w. Some (wrapper_script_view w.script.now)) result
        ≡ option_map (λ id. at_name id (scripts_view scripts.now).wrapper)
        (option_and_then (λ w. (script_rule_ref_view w.rule).writes.scripts.run_wrapper) result) }
    ensures tally { let query = test_query_by F.Filters cx.now.default_filter.now query.now in
        F.Tally.numbers tally.new ≡ F.Tally.numbers tally.old
        ++ asked_from ((λ w. is_some w.scripts.run_wrapper) ∷ []) first query []
        (map (meant_script_rule F.meaning) rules.now) }
{
    match run_wrapper_rule(rules, rows, first, query, cx, tally) {
        Some(found) => Some(RunWrapper {
            rule: found.rule,
            script: wrapper_at(scripts, found.rule.run_wrapper().unwrap()),
        }),
        None => None,
    }
}

/// The script that wraps a binary which lists its tests: that of the first script rule that holds
/// for it and names one. Rules are numbered on from the first number.
pub(crate) fn list_wrapper<'cfg, F: Filters, S: Specs>(
    rules: &[EvaluatedScriptRule<'cfg, F, S>],
    rows: &[Row],
    scripts: &'cfg ScriptConfig,
    first: usize,
    query: &BinaryQuery<'_>,
    cx: &EvalContext<'_, F::Expr>,
    tally: &mut F::Tally,
) -> Option<&'cfg WrapperScriptConfig>
    requires rows { rows.now
        ≡ rows_of (script_tests query.now.platform Wrapper.List) first rules.now }
    requires known { KnowsListWrappers (scripts_view scripts.now) rules.now }
    requires answers { AnswerForBinaries F.holds_binary
        (map (meant_script_rule F.meaning) rules.now) }
    ensures script { let query = binary_query_by F.Filters cx.now.default_filter.now query.now in
        option_map (λ script. Some (wrapper_script_view script.now)) result
        ≡ option_map (λ id. at_name id (scripts_view scripts.now).wrapper)
        (list_wrapper_by query (map (meant_script_rule F.meaning) rules.now)) }
    ensures tally { let query = binary_query_by F.Filters cx.now.default_filter.now query.now in
        F.Tally.numbers tally.new ≡ F.Tally.numbers tally.old
        ++ listed_by query first (map (meant_script_rule F.meaning) rules.now) }
{
    match list_wrapper_rule(rules, rows, first, query, cx, tally) {
        Some(found) => Some(wrapper_at(scripts, found.rule.list_wrapper().unwrap())),
        None => None,
    }
}
