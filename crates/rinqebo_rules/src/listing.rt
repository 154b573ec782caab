//! Lists what a profile gives to tests in turn, by what their binaries decide.
ghost use Rattle.std.specs.Prelude.{◌≡◌, ◌++◌, ◌∷◌, [], IfOk, IfSome, List, is_some, length, option_map};
ghost use Rattle.std.specs.Option.{ForSome};
ghost use Rattle.nextest_engines.specs.Engines.{Test, binary_view, test_view};
ghost use Rattle.filter_inputs.specs.Lists.ListView.{list_test_view};
ghost use Rattle.nextest_settings.specs.Binaries.{AreAnswersOf, EvaluatesOpen};
ghost use Rattle.nextest_settings.specs.Deciding.{QueryContext, asked_from};
ghost use Rattle.nextest_settings.specs.Profiles.Meaning.{profile_meaning};
ghost use Rattle.nextest_settings.specs.Profiles.SettingsOf.{AreSettingsOf};
ghost use Rattle.nextest_settings.specs.Queries.{query_in};
ghost use Rattle.rinqebo_objects.specs.Uses.{AreUsesIn};
ghost use Rattle.rinqebo_rules.specs.BinaryRules.{AreAnswersAt, known_overrides, known_script_rules};
ghost use Rattle.rinqebo_rules.specs.Evaluations.{EvaluatesInTurn, EvaluatesReported, IsTurnedTo};
ghost use Rattle.rinqebo_rules.specs.Rows.{IsTestReported};
ghost use Rattle.rinqebo_rules.specs.Unused.{AreUsedIn};

use crate::lister::Lister;
use crate::unused::UsedRules;
use crate::values::SourcedSettings;
use filter_inputs::ListedTest;
use nextest_elements::NextestRunMode;
use nextest_engines::{BinaryQuery, Filters, Specs, Tally, TestQuery};
use nextest_settings::{BinaryAnswers, EvaluatableProfile};
use rinqebo_objects::ScriptUse;
use rinqebo_origins::Origins;
use rinqebo_report::TestRows;
use std::alloc::{AllocError, Global};

/// Lists the settings of tests in turn. What the binary of a test decides of the rules is found out
/// once for the tests of the binary that follow one another.
#[derive(Drop)]
pub struct Listing<'l, 'c, F: Filters, S: Specs> {
    /// Which settings of tests are listed, and by which profile.
    pub lister: Lister<'l, 'c, F, S>,
    /// What the binary of the last test decides, after the first test.
    answers: Option<BinaryAnswers>,
    /// It is so of the rules of the profile.
    ghost are_answers: { ForSome answers
        (AreAnswersOf F.holds_binary (profile_meaning F.meaning lister.profile.now)) },
}

/// What a binary decides of each override, if that is known.
fn override_answers<'a>(answers: Option<&'a BinaryAnswers>) -> &'a [Option<bool>]
    ensures { result.now ≡ known_overrides (option_map (λ known. known.now) answers.entry) }
{
    match answers {
        Some(answers) => answers.overrides(),
        None => &[],
    }
}

/// What a binary decides of each script rule, if that is known.
fn script_rule_answers<'a>(answers: Option<&'a BinaryAnswers>) -> &'a [Option<bool>]
    ensures { result.now ≡ known_script_rules (option_map (λ known. known.now) answers.entry) }
{
    match answers {
        Some(answers) => answers.script_rules(),
        None => &[],
    }
}

/// The settings of a test, by what its binary decides, if that is known.
fn settings_by<'c, F: Filters, S: Specs>(
    profile: &EvaluatableProfile<'c, F, S>,
    mode: NextestRunMode,
    query: &TestQuery<'_>,
    answers: Option<&BinaryAnswers>,
    tally: &mut F::Tally,
) -> SourcedSettings<'c, F, S>
    ensures settings { let profile = profile_meaning F.meaning profile.now in
        let test = test_view query.now in
        IfSome answers.entry (λ known. AreAnswersAt F.holds_binary profile test.binary known.now)
        → AreSettingsOf F.meaning (query_in F.holds profile test) mode profile result }
    ensures tally { let profile = profile_meaning F.meaning profile.now in
        let query = query_in F.holds profile (test_view query.now) in
        EvaluatesOpen (known_overrides (option_map (λ known. known.now) answers.entry))
        (asked_from ((λ w. is_some w.scripts.run_wrapper) ∷ []) (length profile.overrides) query
        [] profile.script_rules)
        (F.Tally.numbers tally.old) (F.Tally.numbers tally.new) }
{
    match answers {
        Some(answers) => profile.settings_by_answers(mode, query, answers, tally),
        None => profile.settings_with_source_for(mode, query, tally),
    }
}

impl<'l, 'c, F: Filters, S: Specs> Listing<'l, 'c, F, S> {
    /// No test was listed so far.
    pub(crate) fn new(lister: Lister<'l, 'c, F, S>) -> Listing<'l, 'c, F, S>
        ensures { result.lister ≡ lister.entry }
    {
        Listing {
            lister,
            answers: None,
        }
    }

    /// What a binary decides of the rules, if that was found out for the last test.
    fn answers_at(&self, query: &BinaryQuery<'_>) -> Option<&BinaryAnswers>
        ensures answers { let profile = profile_meaning F.meaning self.now.lister.profile.now in
            IfSome result (λ known. AreAnswersAt F.holds_binary profile (binary_view query.now)
            known.now) }
        ensures turned { IsTurnedTo self.now.answers (binary_view query.now)
            → option_map (λ known. known.now) result ≡ self.now.answers }
    {
        match &self.answers {
            Some(answers) => {
                if answers.is_of(query) {
                    Some(answers)
                } else {
                    None
                }
            }
            None => None,
        }
    }

    /// Finds out what a binary decides of the rules, unless the last test was one of its tests.
    fn turn_to(
        &mut self,
        alloc: Global,
        query: &BinaryQuery<'_>,
        tally: &mut F::Tally,
    ) -> Result<(), AllocError>
        ensures lister { self.new.lister ≡ self.old.lister }
        ensures turned { IsTurnedTo self.old.answers (binary_view query.now)
            → (self.new.answers ≡ self.old.answers) × (tally.new ≡ tally.old) }
    {
        if self.answers_at(query).is_none() {
            let answers = self.lister.profile.binary_answers(alloc, query, tally)?;
            self.answers = Some(answers);
        }
        Ok(())
    }

    /// Returns whether a test runs, and its settings, and adds the test to those for which rules
    /// hold. Filters are evaluated that its binary leaves open: those that its settings need, and those
    /// of rules that held for no test before.
    pub fn next_test(
        &mut self,
        alloc: Global,
        test: &ListedTest<'_>,
        used: &mut UsedRules,
        tally: &mut F::Tally,
        origins: &mut Origins<'_, '_, 'c>,
    ) -> Result<TestRows, AllocError>
        ensures lister { self.new.lister ≡ self.old.lister }
        ensures same { origins.new ≡ origins.old }
        ensures told { let lister = self.old.lister in
            let profile = profile_meaning F.meaning lister.profile.now in
            IfOk result (IsTestReported origins.old
            (query_in F.holds profile (test_view test.now.query))
            lister.mode profile lister.asked.now (list_test_view test.now)) }
        ensures used { (tests : List (QueryContext F.Meaning))
            → let lister = self.old.lister in
            let profile = profile_meaning F.meaning lister.profile.now in
            let query = query_in F.holds profile (test_view test.now.query) in
            AreUsedIn tests lister.mode profile used.old
            → IfOk result (λ _. AreUsedIn (tests ++ query ∷ []) lister.mode profile used.new) }
        ensures tally { (tests : List (QueryContext F.Meaning))
            → let lister = self.old.lister in
            let profile = profile_meaning F.meaning lister.profile.now in
            let test = test_view test.now.query in
            IsTurnedTo self.old.answers test.binary → AreUsedIn tests lister.mode profile used.old
            → IfOk result (λ _. EvaluatesInTurn tests (query_in F.holds profile test) lister.mode
            profile used.old self.old.answers
            (F.Tally.numbers tally.old) (F.Tally.numbers tally.new)) }
    {
        self.turn_to(alloc, &test.query.binary_query, tally)?;
        let lister = self.lister;
        let answers = self.answers_at(&test.query.binary_query);
        let settings = settings_by(lister.profile, lister.mode, &test.query, answers, tally);
        used.add(
            lister.profile,
            &test.query,
            override_answers(answers),
            script_rule_answers(answers),
            &settings,
            tally,
        );
        let rows = lister.rows_by(alloc, test, &settings, tally, origins)?;
        Ok(rows)
    }

    /// Returns whether a test runs, and its settings, as `next_test` does, and adds what the test
    /// uses of scripts to what the tests before it use. Beside those that `next_test` evaluates, it
    /// evaluates the filters of script rules that name a setup script, each once at most.
    pub(crate) fn next_reported(
        &mut self,
        alloc: Global,
        test: &ListedTest<'_>,
        used: &mut UsedRules,
        uses: &mut Vec<ScriptUse<'c>>,
        tally: &mut F::Tally,
        origins: &mut Origins<'_, '_, 'c>,
    ) -> Result<TestRows, AllocError>
        ensures lister { self.new.lister ≡ self.old.lister }
        ensures same { origins.new ≡ origins.old }
        ensures told { let lister = self.old.lister in
            let profile = profile_meaning F.meaning lister.profile.now in
            IfOk result (IsTestReported origins.old
            (query_in F.holds profile (test_view test.now.query))
            lister.mode profile lister.asked.now (list_test_view test.now)) }
        ensures used { (tests : List (QueryContext F.Meaning))
            → let lister = self.old.lister in
            let profile = profile_meaning F.meaning lister.profile.now in
            let query = query_in F.holds profile (test_view test.now.query) in
            AreUsedIn tests lister.mode profile used.old
            → IfOk result (λ _. AreUsedIn (tests ++ query ∷ []) lister.mode profile used.new) }
        ensures scripts { (tests : List (QueryContext F.Meaning)) (before : List Test)
            → let lister = self.old.lister in
            let profile = profile_meaning F.meaning lister.profile.now in
            AreUsedIn tests lister.mode profile used.old
            → AreUsesIn F.holds profile before uses.old.items
            → IfOk result (λ _. AreUsesIn F.holds profile (before ++ test_view test.now.query ∷ [])
            uses.new.items) }
        ensures tally { (tests : List (QueryContext F.Meaning))
            → let lister = self.old.lister in
            let profile = profile_meaning F.meaning lister.profile.now in
            let test = test_view test.now.query in
            IsTurnedTo self.old.answers test.binary → AreUsedIn tests lister.mode profile used.old
            → IfOk result (λ _. EvaluatesReported tests (query_in F.holds profile test) lister.mode
            profile used.old self.old.answers
            (F.Tally.numbers tally.old) (F.Tally.numbers tally.new)) }
    {
        self.turn_to(alloc, &test.query.binary_query, tally)?;
        let lister = self.lister;
        let answers = self.answers_at(&test.query.binary_query);
        let settings = settings_by(lister.profile, lister.mode, &test.query, answers, tally);
        let scripts = used.add_with_scripts(
            alloc,
            lister.profile,
            &test.query,
            override_answers(answers),
            script_rule_answers(answers),
            &settings,
            tally,
        )?;
        uses.push(scripts)?;
        let rows = lister.rows_by(alloc, test, &settings, tally, origins)?;
        Ok(rows)
    }
}
