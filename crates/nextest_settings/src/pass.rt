//! The walk over the lists of overrides: for each setting the first rule that holds and writes it.
ghost use Rattle.std.specs.Prelude.{◌≡◌, ◌++◌, ◌∷◌, [], ℕ, All, List, map, option_map, is_some, if◌then◌else◌};
ghost use Rattle.nextest_settings.specs.Binaries.{AreKnownFor};
ghost use Rattle.nextest_settings.specs.Deciding.{asked_from, filter_holds};
ghost use Rattle.nextest_settings.specs.Engines.{test_query_by};
ghost use Rattle.nextest_settings.specs.Index.{override_tests};
ghost use Rattle.nextest_settings.specs.Pass.{slots_view, winners_of, wanted_settings};
ghost use Rattle.nextest_elements.specs.Settings.{settings};
ghost use Rattle.nextest_settings.specs.View.{meant_override};
ghost use Rattle.rule_lists.specs.Lists.{IsOpen};
ghost use Rattle.rule_lists.specs.Rows.{rows_of};

use crate::platforms::EvaluatedOverride;
use nextest_elements::{NextestRunMode, SETTING_COUNT};
use nextest_engines::{EvalContext, Filters, Specs, Tally, TestQuery};
use rule_lists::{Query, Row, walk_open_rows, walk_rows};

/// Whether a filter matches a test, if there is one. Then its number goes into the tally.
pub fn matches_test<F: Filters>(
    filter: Option<&F::Expr>,
    number: usize,
    query: &TestQuery<'_>,
    cx: &EvalContext<'_, F::Expr>,
    tally: &mut F::Tally,
) -> bool
    ensures answer { let query = test_query_by F.Filters cx.now.default_filter.now query.now in
        result ≡ filter_holds query.matches (option_map (λ expr. F.meaning expr.now) filter.entry) }
    ensures tally { F.Tally.numbers tally.new
        ≡ F.Tally.numbers tally.old ++ (if is_some filter.entry then number ∷ [] else []) }
{
    match filter {
        None => true,
        Some(expr) => F::matches_test(expr, number, query, cx, tally),
    }
}

/// The settings of a test, as overrides decide them.
#[derive(Drop)]
struct SettingsQuery<'q, F: Filters> {
    query: TestQuery<'q>,
    cx: EvalContext<'q, F::Expr>,
    mode: NextestRunMode,
}

impl<'cfg, F: Filters, S: Specs> Query<EvaluatedOverride<'cfg, F, S>> for SettingsQuery<'_, F> {
    ghost use Rattle.std.specs.Prelude.{⊤};

    type Tally = F::Tally;

    ghost numbers = { F.Tally.numbers };

    ghost tests = { λ q. override_tests q.query.binary_query.platform q.mode };

    ghost asks = { λ q rule. is_some (meant_override F.meaning rule).filter };

    ghost met = { λ q rule.
        filter_holds (test_query_by F.Filters q.cx.default_filter.now q.query).matches
        (meant_override F.meaning rule).filter };

    ghost has_answer = { λ q rule. ⊤ };

    fn is_met(
        &self,
        rule: &EvaluatedOverride<'cfg, F, S>,
        number: usize,
        tally: &mut F::Tally,
    ) -> bool {
        matches_test::<F>(rule.rule.filter(), number, &self.query, &self.cx, tally)
    }
}

/// For each setting the first rule that holds and writes it, by the rows of the overrides that count
/// for the test. A filter is evaluated at most once, and only if a setting that its rule writes
/// is open.
#[tactic(auto, unfolding(nextest_elements::specs::Settings::settings))]
pub(crate) fn winners<'cfg, F: Filters, S: Specs>(
    overrides: &[EvaluatedOverride<'cfg, F, S>],
    rows: &[Row],
    mode: NextestRunMode,
    query: &TestQuery<'_>,
    cx: &EvalContext<'_, F::Expr>,
    tally: &mut F::Tally,
) -> [Option<EvaluatedOverride<'cfg, F, S>>; SETTING_COUNT]
    requires { rows.now
        ≡ rows_of (override_tests query.now.binary_query.platform mode) 0 overrides.now }
    ensures winners { let query = test_query_by F.Filters cx.now.default_filter.now query.now in
        slots_view F.meaning result
        ≡ winners_of query mode (map (meant_override F.meaning) overrides.now) settings }
    ensures tally { let query = test_query_by F.Filters cx.now.default_filter.now query.now in
        F.Tally.numbers tally.new ≡ F.Tally.numbers tally.old
        ++ asked_from (wanted_settings mode) 0 query []
        (map (meant_override F.meaning) overrides.now) }
{
    let asked: SettingsQuery<'_, F> = SettingsQuery {
        query: *query,
        cx: *cx,
        mode,
    };
    let mut slots = [None; SETTING_COUNT];
    walk_rows(&mut slots, rows, overrides, 0, &asked, tally);
    slots
}

/// The rules of [`winners`], where of some overrides it is known whether they hold for the test. Only
/// the filters of others are evaluated.
#[tactic(auto, unfolding(nextest_elements::specs::Settings::settings))]
pub(crate) fn open_winners<'cfg, F: Filters, S: Specs>(
    overrides: &[EvaluatedOverride<'cfg, F, S>],
    rows: &[Row],
    known: &[Option<bool>],
    mode: NextestRunMode,
    query: &TestQuery<'_>,
    cx: &EvalContext<'_, F::Expr>,
    tally: &mut F::Tally,
) -> [Option<EvaluatedOverride<'cfg, F, S>>; SETTING_COUNT]
    requires { rows.now
        ≡ rows_of (override_tests query.now.binary_query.platform mode) 0 overrides.now }
    ensures winners { let query = test_query_by F.Filters cx.now.default_filter.now query.now in
        let rules = map (meant_override F.meaning) overrides.now in
        AreKnownFor query rules known.now
        → slots_view F.meaning result ≡ winners_of query mode rules settings }
    ensures tally { (added : List ℕ)
        × (F.Tally.numbers tally.new ≡ F.Tally.numbers tally.old ++ added)
        × All (IsOpen 0 known.now) added }
{
    let asked: SettingsQuery<'_, F> = SettingsQuery {
        query: *query,
        cx: *cx,
        mode,
    };
    let mut slots = [None; SETTING_COUNT];
    walk_open_rows(&mut slots, rows, overrides, known, 0, &asked, tally);
    slots
}
