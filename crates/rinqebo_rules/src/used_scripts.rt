//! What the tests of a report use of the scripts of a profile.
ghost use Rattle.std.specs.Prelude.{◌++◌, ◌∷◌, [], IfOk, List, length};
ghost use Rattle.nextest_engines.specs.Engines.{test_view};
ghost use Rattle.nextest_settings.specs.Deciding.{QueryContext};
ghost use Rattle.nextest_settings.specs.Profiles.Meaning.{profile_meaning};
ghost use Rattle.nextest_settings.specs.Profiles.SettingsOf.{AreSettingsOf};
ghost use Rattle.nextest_settings.specs.Queries.{query_in};
ghost use Rattle.rinqebo_objects.specs.Uses.{IsUseOf};
ghost use Rattle.rinqebo_rules.specs.BinaryRules.{AreKnownIn};
ghost use Rattle.rinqebo_rules.specs.Evaluations.{EvaluatesOnly, EvaluatesWithSetup, IsOpenNamed};
ghost use Rattle.rinqebo_rules.specs.SetupRules.{AreKnownMore};
ghost use Rattle.rinqebo_rules.specs.Unused.{AreUsedIn};

use crate::setup_rules::{enabled_ids, known_rules};
use crate::unused::UsedRules;
use crate::values::SourcedSettings;
use crate::wrapping::passed_for_wrapper;
use nextest_elements::NextestRunMode;
use nextest_engines::{Filters, Specs, Tally, TestQuery};
use nextest_settings::EvaluatableProfile;
use rinqebo_objects::ScriptUse;
use std::alloc::{AllocError, Global};

impl UsedRules {
    /// What is known of the script rules of a profile for a test, to which the profile gives some
    /// settings: what its binary decides, and of the rules that name a setup script, whether they
    /// hold. A filter is evaluated only if its rule names a setup script, the binary leaves it
    /// open, and the search for the run wrapper did not evaluate it.
    fn known_with_setup<'c, F: Filters, S: Specs>(
        &self,
        alloc: Global,
        profile: &EvaluatableProfile<'c, F, S>,
        query: &TestQuery<'_>,
        known: &[Option<bool>],
        settings: &SourcedSettings<'c, F, S>,
        tally: &mut F::Tally,
    ) -> Result<Vec<Option<bool>>, AllocError>
        ensures known { (tests : List (QueryContext F.Meaning)) (mode : NextestRunMode)
            → let profile = profile_meaning F.meaning profile.now in
            let query = query_in F.holds profile (test_view query.now) in
            AreKnownIn query profile.script_rules known.now
            → AreSettingsOf F.meaning query mode profile settings.now
            → AreUsedIn tests mode profile self.now
            → IfOk result (λ more. AreKnownMore query profile.script_rules known.now more.items) }
        ensures tally { (tests : List (QueryContext F.Meaning)) (mode : NextestRunMode)
            → let profile = profile_meaning F.meaning profile.now in
            let query = query_in F.holds profile (test_view query.now) in
            AreSettingsOf F.meaning query mode profile settings.now
            → AreUsedIn tests mode profile self.now
            → IfOk result (λ _. EvaluatesOnly (IsOpenNamed query profile self.now known.now)
            (length profile.overrides) (F.Tally.numbers tally.old) (F.Tally.numbers tally.new)) }
    {
        let rules = profile.rules();
        let first = rules.overrides.len();
        let cx = profile.filterset_ecx();
        let passed = passed_for_wrapper(&rules.script_rules, settings);
        known_rules(
            alloc,
            &rules.script_rules,
            first,
            known,
            passed,
            self.are_script_rules_distinct,
            query,
            &cx,
            tally,
        )
    }

    /// Adds a test, as `add` does, and returns what it uses of the scripts of the profile. For each
    /// script rule that names a setup script, it is found out whether it holds for the test.
    ///
    /// Each filter is evaluated once at most, and only if the search for the settings did not
    /// evaluate it: first those of rules that name a setup script and that the binary leaves open,
    /// and then those of other rules, as `add` evaluates them.
    pub(crate) fn add_with_scripts<'c, F: Filters, S: Specs>(
        &mut self,
        alloc: Global,
        profile: &EvaluatableProfile<'c, F, S>,
        query: &TestQuery<'_>,
        overrides: &[Option<bool>],
        script_rules: &[Option<bool>],
        settings: &SourcedSettings<'c, F, S>,
        tally: &mut F::Tally,
    ) -> Result<ScriptUse<'c>, AllocError>
        ensures used { (tests : List (QueryContext F.Meaning)) (mode : NextestRunMode)
            → let profile = profile_meaning F.meaning profile.now in
            let query = query_in F.holds profile (test_view query.now) in
            AreKnownIn query profile.overrides overrides.now
            → AreKnownIn query profile.script_rules script_rules.now
            → AreSettingsOf F.meaning query mode profile settings.now
            → AreUsedIn tests mode profile self.old
            → IfOk result (λ _. AreUsedIn (tests ++ query ∷ []) mode profile self.new) }
        ensures scripts { (tests : List (QueryContext F.Meaning)) (mode : NextestRunMode)
            → let profile = profile_meaning F.meaning profile.now in
            let query = query_in F.holds profile (test_view query.now) in
            AreKnownIn query profile.script_rules script_rules.now
            → AreSettingsOf F.meaning query mode profile settings.now
            → AreUsedIn tests mode profile self.old → IfOk result (IsUseOf query profile) }
        ensures tally { (tests : List (QueryContext F.Meaning)) (mode : NextestRunMode)
            → let profile = profile_meaning F.meaning profile.now in
            let query = query_in F.holds profile (test_view query.now) in
            AreKnownIn query profile.script_rules script_rules.now
            → AreSettingsOf F.meaning query mode profile settings.now
            → AreUsedIn tests mode profile self.old
            → IfOk result (λ _. EvaluatesWithSetup tests query mode profile self.old overrides.now
            script_rules.now (F.Tally.numbers tally.old) (F.Tally.numbers tally.new)) }
    {
        let more = self.known_with_setup(alloc, profile, query, script_rules, settings, tally)?;
        self.add(profile, query, overrides, &more, settings, tally);
        let rules = profile.rules();
        let setup = enabled_ids(alloc, &rules.script_rules, &more)?;
        Ok(ScriptUse {
            run_wrapper: settings.run_wrapper_id(),
            setup,
        })
    }
}
