//! Whether rules hold for a test.
ghost use Rattle.std.specs.Prelude.{◌≡◌, ◌++◌, ◌∷◌, [], if◌then◌else◌};
ghost use Rattle.nextest_settings.specs.Deciding.{rule_holds};
ghost use Rattle.nextest_settings.specs.Engines.{test_query_by};
ghost use Rattle.nextest_settings.specs.View.{meant_override, meant_script_rule};
ghost use Rattle.rinqebo_rules.specs.Evaluations.{asks};

use nextest_engines::{EvalContext, Filters, Specs, Tally, TestQuery};
use nextest_settings::{EvaluatedOverride, EvaluatedScriptRule, matches_test};

/// Whether an override holds for a test. Its filter is evaluated if its platforms hold.
pub(crate) fn override_holds<F: Filters, S: Specs>(
    rule: &EvaluatedOverride<'_, F, S>,
    number: usize,
    query: &TestQuery<'_>,
    cx: &EvalContext<'_, F::Expr>,
    tally: &mut F::Tally,
) -> bool
    ensures answer { let query = test_query_by F.Filters cx.now.default_filter.now query.now in
        result ≡ rule_holds query (meant_override F.meaning rule.now) }
    ensures tally { let query = test_query_by F.Filters cx.now.default_filter.now query.now in
        F.Tally.numbers tally.new ≡ F.Tally.numbers tally.old
        ++ (if asks query (meant_override F.meaning rule.now) then number ∷ [] else []) }
{
    rule.is_on(query.binary_query.platform)
        && matches_test::<F>(rule.rule().filter(), number, query, cx, tally)
}

/// Whether a script rule holds for a test. Its filter is evaluated if its platforms hold.
pub(crate) fn script_rule_holds<F: Filters, S: Specs>(
    rule: &EvaluatedScriptRule<'_, F, S>,
    number: usize,
    query: &TestQuery<'_>,
    cx: &EvalContext<'_, F::Expr>,
    tally: &mut F::Tally,
) -> bool
    ensures answer { let query = test_query_by F.Filters cx.now.default_filter.now query.now in
        result ≡ rule_holds query (meant_script_rule F.meaning rule.now) }
    ensures tally { let query = test_query_by F.Filters cx.now.default_filter.now query.now in
        F.Tally.numbers tally.new ≡ F.Tally.numbers tally.old
        ++ (if asks query (meant_script_rule F.meaning rule.now) then number ∷ [] else []) }
{
    rule.is_on(query.binary_query.platform)
        && matches_test::<F>(rule.rule().filter(), number, query, cx, tally)
}
