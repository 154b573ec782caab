//! Lists what a profile gives to tests, one test after another.
ghost use Rattle.std.specs.Prelude.{◌≡◌, ◌++◌, ◌∷◌, [], IfOk, map};
ghost use Rattle.nextest_engines.specs.Engines.{test_view};
ghost use Rattle.filter_inputs.specs.Lists.ListView.{list_test_view};
ghost use Rattle.nextest_settings.specs.Profiles.Meaning.{profile_meaning};
ghost use Rattle.nextest_settings.specs.Profiles.SettingsOf.{AreSettingsOf};
ghost use Rattle.nextest_settings.specs.Queries.{query_in};
ghost use Rattle.rinqebo_objects.specs.Uses.{AreUsesIn};
ghost use Rattle.rinqebo_rules.specs.Evaluations.{default_filter_number};
ghost use Rattle.rinqebo_rules.specs.Rows.{AreTestsReported, IsTestReported, shown_platform};
ghost use Rattle.rinqebo_rules.specs.Unused.{AreUnusedIn, AreUsedIn};

use crate::listing::Listing;
use crate::progress::Progress;
use crate::rows::rows_of;
use crate::runs::{is_selected, runs_if, runs_row, shows_runs};
use crate::unused::{UnusedRules, UsedRules};
use crate::values::SourcedSettings;
use filter_inputs::ListedTest;
use nextest_elements::NextestRunMode;
use nextest_engines::{BuildPlatform, Filters, Specs, Tally};
use nextest_settings::EvaluatableProfile;
use rinqebo_objects::ScriptUse;
use rinqebo_origins::Origins;
use rinqebo_report::{BuiltFor, TestRows};
use rinqebo_request::RequestedSettings;
use std::alloc::{AllocError, Global};

/// Lists the settings of tests.
#[derive_where(Clone, Copy)]
pub struct Lister<'l, 'c, F: Filters, S: Specs> {
    /// The profile on the platforms of the build.
    pub profile: &'l EvaluatableProfile<'c, F, S>,
    /// What tests are run for.
    pub mode: NextestRunMode,
    /// Which settings are listed.
    pub asked: &'l RequestedSettings,
}

/// The tests of a list, and the rules that hold for none of them.
#[derive(Drop)]
pub struct ListedRows<'c> {
    /// The settings of each test, in order.
    pub tests: Vec<TestRows>,
    /// The rules of the profile that hold for no test.
    pub unused: UnusedRules<'c>,
    /// Which rules of the profile hold for some test.
    pub used: UsedRules,
    /// What each test uses of the scripts of the profile, in order.
    pub uses: Vec<ScriptUse<'c>>,
}

/// What a binary is built for, as a report shows it.
pub fn reported_platform(platform: BuildPlatform) -> BuiltFor
    ensures { result ≡ shown_platform platform }
{
    match platform {
        BuildPlatform::Host => BuiltFor::Host,
        BuildPlatform::Target => BuiltFor::Target,
    }
}

impl<'l, 'c, F: Filters, S: Specs> Lister<'l, 'c, F, S> {
    /// Returns whether a test runs, and the settings that the profile gives it.
    pub(crate) fn rows_by(
        &self,
        alloc: Global,
        test: &ListedTest<'_>,
        settings: &SourcedSettings<'c, F, S>,
        tally: &mut F::Tally,
        origins: &mut Origins<'_, '_, 'c>,
    ) -> Result<TestRows, AllocError>
        ensures same { origins.new ≡ origins.old }
        ensures told { let profile = profile_meaning F.meaning self.now.profile.now in
            let query = query_in F.holds profile (test_view test.now.query) in
            AreSettingsOf F.meaning query self.now.mode profile settings.now
            → IfOk result (IsTestReported origins.old query self.now.mode profile self.now.asked.now
            (list_test_view test.now)) }
        ensures tally { F.Tally.numbers tally.new
            ≡ F.Tally.numbers tally.old ++ default_filter_number ∷ [] }
    {
        let query = &test.query;
        let runs = runs_if(is_selected(self.profile, query, tally), test.ignored);
        Ok(TestRows {
            binary: String::from_str(alloc, query.binary_query.binary_id)?,
            name: String::from_str(alloc, query.test_name)?,
            platform: reported_platform(query.binary_query.platform),
            runs: runs_row(alloc, self.profile, runs, origins)?,
            is_ignored: test.ignored,
            shows_runs: shows_runs(self.asked, runs),
            settings: rows_of(alloc, settings, self.asked, self.mode, origins)?,
        })
    }

    /// Returns whether a test runs, and its settings. It takes as much memory as they do, and loads
    /// nothing.
    pub fn rows_of(
        &self,
        alloc: Global,
        test: &ListedTest<'_>,
        tally: &mut F::Tally,
        origins: &mut Origins<'_, '_, 'c>,
    ) -> Result<TestRows, AllocError>
        ensures same { origins.new ≡ origins.old }
        ensures told { let profile = profile_meaning F.meaning self.now.profile.now in
            IfOk result (IsTestReported origins.old
            (query_in F.holds profile (test_view test.now.query))
            self.now.mode profile self.now.asked.now (list_test_view test.now)) }
    {
        let settings = self
            .profile
            .settings_with_source_for(self.mode, &test.query, tally);
        self.rows_by(alloc, test, &settings, tally, origins)
    }

    /// The rules of the profile, before any test.
    pub fn before_tests(&self, alloc: Global) -> Result<UsedRules, AllocError>
        ensures { IfOk result
            (AreUsedIn [] self.now.mode (profile_meaning F.meaning self.now.profile.now)) }
    {
        UsedRules::new(alloc, self.profile, self.mode)
    }

    /// Lists tests in turn.
    pub fn in_turn(&self) -> Listing<'l, 'c, F, S>
        ensures { result.lister ≡ self.now }
    {
        Listing::new(*self)
    }

    /// Returns the rows of tests, one test after another, what each of them uses of scripts, and the
    /// rules of the profile that hold for none of them. It reports progress after each test.
    pub fn list<P: Progress>(
        &self,
        alloc: Global,
        listed: &[ListedTest<'_>],
        tally: &mut F::Tally,
        origins: &mut Origins<'_, '_, 'c>,
        progress: &mut P,
    ) -> Result<ListedRows<'c>, AllocError>
        ensures tests { let profile = profile_meaning F.meaning self.now.profile.now in
            IfOk result (λ rows. AreTestsReported origins.old F.holds self.now.mode profile
            self.now.asked.now (map list_test_view listed.now) rows.tests.items) }
        ensures unused { let profile = profile_meaning F.meaning self.now.profile.now in
            IfOk result (λ rows. AreUnusedIn (map (query_in F.holds profile)
            (map (λ t. t.test) (map list_test_view listed.now))) profile rows.unused) }
        ensures used { let profile = profile_meaning F.meaning self.now.profile.now in
            IfOk result (λ rows. AreUsedIn (map (query_in F.holds profile)
            (map (λ t. t.test) (map list_test_view listed.now))) self.now.mode profile rows.used) }
        ensures uses { let profile = profile_meaning F.meaning self.now.profile.now in
            IfOk result (λ rows. AreUsesIn F.holds profile
            (map (λ t. t.test) (map list_test_view listed.now)) rows.uses.items) }
    {
        let mut tests = Vec::new(alloc);
        let mut uses = Vec::new(alloc);
        let mut used = self.before_tests(alloc)?;
        let mut listing = self.in_turn();
        for test in listed {
            let rows = listing.next_reported(alloc, test, &mut used, &mut uses, tally, origins)?;
            tests.push(rows)?;
            progress.asked(tests.len(), listed.len());
        }
        let unused = used.unused(alloc, self.profile)?;
        Ok(ListedRows {
            tests,
            unused,
            used,
            uses,
        })
    }
}
