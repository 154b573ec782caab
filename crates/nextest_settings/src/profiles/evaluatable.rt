//! Profiles on the platforms of a build.
ghost use Rattle.std.specs.Prelude.{◌≡◌, ◌++◌, ◌∷◌, [], ℕ, List, Some, IfOk, is_some, length, map, option_map, string_bytes};
ghost use Rattle.nextest_engines.specs.Engines.{test_view, binary_view};
ghost use Rattle.nextest_load.specs.ConfigView.{groups_view, scripts_view};
ghost use Rattle.nextest_rules.specs.Rules.{at_name};
ghost use Rattle.nextest_settings.specs.Binaries.{AreAnswersOf, EvaluatesOpen, answered_binary};
ghost use Rattle.nextest_settings.specs.Deciding.{asked_from};
ghost use Rattle.nextest_settings.specs.FilterView.{filter_view};
ghost use Rattle.nextest_settings.specs.GroupView.{membership_group};
ghost use Rattle.nextest_settings.specs.Queries.{query_in, binary_query, evaluated_for_test, list_wrapper_of, listing_rule, evaluated_for_list, enabled_scripts, group_of, AnswerForBinaries};
ghost use Rattle.nextest_settings.specs.ListView.{list_wrapper_at};
ghost use Rattle.nextest_settings.specs.SetupView.{setup_scripts_view, setup_scripts_rules_view};
ghost use Rattle.nextest_settings.specs.Settings.{slow_timeout_in, global_timeout_in};
ghost use Rattle.nextest_settings.specs.Values.{nearest};
ghost use Rattle.nextest_settings.specs.View.{evaluated_override_view, evaluated_script_rule_view, meant_script_rule, script_rule_ref_view};
ghost use Rattle.nextest_settings.specs.Profiles.Junit.{IsReportWhereSet};
ghost use Rattle.nextest_settings.specs.Profiles.Known.{KnowsScripts, evaluated_use};
ghost use Rattle.nextest_settings.specs.Profiles.Meaning.{profile_meaning};
ghost use Rattle.nextest_settings.specs.Profiles.SettingsOf.{AreSettingsOf};

use crate::binary_answers::BinaryAnswers;
use crate::default_filter::CompiledDefaultFilter;
use crate::evaluated::EvaluatedRules;
use crate::groups::PrecomputedGroupMembership;
use crate::list_settings::ListSettings;
use crate::profiles::facts::Facts;
use crate::setup_scripts::SetupScripts;
use crate::source::SettingSource;
use crate::test_settings::TestSettings;
use nextest_elements::{
    CustomTestGroup, FinalStatusLevel, FlakyResult, GlobalTimeout, JunitConfig, LeakTimeout,
    MaxFail, NextestRunMode, RetryPolicy, SlowTimeout, StatusLevel, TestGroupConfig,
    TestOutputDisplay, TestThreads, ThreadsRequired,
};
use nextest_engines::{BinaryQuery, EvalContext, Filters, Specs, Tally, TestQuery};
use nextest_load::ScriptConfig;
use nextest_rules::CompiledProfileScripts;
use std::alloc::{AllocError, Global};
use std::collections::BTreeMap;
use std::marker::Model;

/// A profile on the platforms of a build, with the default filter that counts there.
pub struct EvaluatableProfile<'cfg, F: Filters, S: Specs> {
    facts: Facts<'cfg>,
    rules: EvaluatedRules<'cfg, F, S>,
}

// Written out, so that the proof of a caller sees one call and not the drop of each part.
impl<'cfg, F: Filters, S: Specs> Drop for EvaluatableProfile<'cfg, F, S> {
    fn drop(self) {
        let EvaluatableProfile {
            facts: _facts,
            rules: _rules,
        } = self;
    }
}

impl<'cfg, F: Filters, S: Specs> Model for EvaluatableProfile<'cfg, F, S> {
    ghost use Rattle.std.specs.Prelude.{map};
    ghost use Rattle.nextest_settings.specs.Profile.{EvaluatableModel};

    ghost Value = { EvaluatableModel F.Expr };

    ghost use Rattle.nextest_settings.specs.FilterView.{filter_view};
    ghost use Rattle.nextest_settings.specs.View.{evaluated_override_view, evaluated_script_rule_view};

    ghost view = { λ p. record {
      facts = p.facts;
      overrides = map evaluated_override_view p.rules.overrides.items;
      script_rules = map evaluated_script_rule_view p.rules.script_rules.items;
      default_filter = filter_view p.rules.default_filter;
    } };

    ghost use Rattle.nextest_settings.specs.Queries.{AnswerForBinaries};
    ghost use Rattle.nextest_settings.specs.View.{meant_script_rule};
    ghost use Rattle.nextest_settings.specs.Profiles.Known.{KnowsScripts, evaluated_use};

    /// The scripts that rules name are there, and each filter beside a list wrapper has a value for
    /// each binary.
    ghost invariant = { λ p. KnowsScripts p.facts.scripts
        (map evaluated_use p.rules.script_rules.items)
        × AnswerForBinaries F.holds_binary
        (map (meant_script_rule F.meaning) p.rules.script_rules.items) };
}

impl<'cfg, F: Filters, S: Specs> EvaluatableProfile<'cfg, F, S> {
    /// The profile that says this and has these rules.
    pub(crate) fn new(
        facts: Facts<'cfg>,
        rules: EvaluatedRules<'cfg, F, S>,
    ) -> EvaluatableProfile<'cfg, F, S>
        requires known { KnowsScripts facts.scripts
            (map evaluated_use rules.script_rules.items) }
        requires answers { AnswerForBinaries F.holds_binary
            (map (meant_script_rule F.meaning) rules.script_rules.items) }
        ensures { result ≡ record {
          facts = facts.entry;
          overrides = map evaluated_override_view rules.entry.overrides.items;
          script_rules = map evaluated_script_rule_view rules.entry.script_rules.items;
          default_filter = filter_view rules.entry.default_filter;
        } }
    {
        EvaluatableProfile { facts, rules }
    }

    /// The profile's name.
    pub fn name(&self) -> &'cfg str
        ensures { result.now ≡ self.now.facts.name }
    {
        self.facts.name()
    }

    /// The profile that it inherits from, as it writes it.
    pub fn inherits(&self) -> Option<&'cfg str>
        ensures { option_map (λ parent. parent.now) result ≡ self.now.facts.parent }
    {
        self.facts.inherits()
    }

    /// The directory in which the profile stores what it writes.
    pub fn store_dir(&self) -> &str
        ensures { Some result.now ≡ self.now.facts.store_dir }
    {
        self.facts.store_dir()
    }

    /// The groups that the configuration defines, by name.
    pub fn test_group_config(&self) -> &'cfg BTreeMap<CustomTestGroup, TestGroupConfig>
        ensures { groups_view result.now.entries ≡ self.now.facts.groups }
    {
        self.facts.test_groups()
    }

    /// The scripts that the configuration defines, in their order.
    pub fn script_config(&self) -> &'cfg ScriptConfig
        ensures { scripts_view result.now ≡ self.now.facts.scripts }
    {
        self.facts.scripts()
    }

    /// The rules of the profile in order, with the platforms that they match, and the lists by
    /// which queries find them.
    pub fn rules(&self) -> &EvaluatedRules<'cfg, F, S>
        ensures overrides { map evaluated_override_view result.now.overrides.items
            ≡ self.now.overrides }
        ensures script_rules { map evaluated_script_rule_view result.now.script_rules.items
            ≡ self.now.script_rules }
        ensures default_filter { filter_view result.now.default_filter
            ≡ self.now.default_filter }
    {
        &self.rules
    }

    /// The default filter that counts, and where it is.
    pub fn default_filter(&self) -> &CompiledDefaultFilter<'cfg, F>
        ensures { filter_view result.now ≡ self.now.default_filter }
    {
        &self.rules.default_filter
    }

    /// What filters are evaluated with: the default filter that counts.
    pub fn filterset_ecx(&self) -> EvalContext<'cfg, F::Expr>
        ensures { result.default_filter.now ≡ self.now.default_filter.filter }
    {
        EvalContext {
            default_filter: self.rules.default_filter.expr,
        }
    }

    /// How often a test is tried again where no rule says so.
    pub fn retries(&self) -> RetryPolicy
        ensures { nearest (λ f. f.retries) self.now.facts.fields ≡ Some result }
    {
        self.facts.values().tests.retries
    }

    /// The result of a flaky test where no rule sets it.
    pub fn flaky_result(&self) -> FlakyResult
        ensures { nearest (λ f. f.flaky_result) self.now.facts.fields ≡ Some result }
    {
        self.facts.values().tests.flaky_result
    }

    /// How many tests run at a time.
    pub fn test_threads(&self) -> TestThreads
        ensures { nearest (λ f. f.test_threads) self.now.facts.fields ≡ Some result }
    {
        self.facts.values().run.test_threads
    }

    /// How many threads a test takes where no rule says so.
    pub fn threads_required(&self) -> ThreadsRequired
        ensures { nearest (λ f. f.threads_required) self.now.facts.fields ≡ Some result }
    {
        self.facts.values().tests.threads_required
    }

    /// The arguments that a test is given where no rule says so.
    pub fn run_extra_args(&self) -> &'cfg [String]
        ensures { nearest (λ f. f.run_extra_args) self.now.facts.fields
            ≡ Some (map string_bytes result.now) }
    {
        self.facts.values().tests.run_extra_args
    }

    /// When a test counts as slow where no rule says so.
    pub fn slow_timeout(&self, mode: NextestRunMode) -> SlowTimeout
        ensures { slow_timeout_in self.now.facts.fields mode ≡ Some result }
    {
        self.facts.values().slow_timeout(mode)
    }

    /// How long a whole run may take.
    pub fn global_timeout(&self, mode: NextestRunMode) -> GlobalTimeout
        ensures { global_timeout_in self.now.facts.fields mode ≡ Some result }
    {
        self.facts.values().global_timeout(mode)
    }

    /// How long what a test started may outlive it where no rule says so.
    pub fn leak_timeout(&self) -> LeakTimeout
        ensures { nearest (λ f. f.leak_timeout) self.now.facts.fields ≡ Some result }
    {
        self.facts.values().tests.leak_timeout
    }

    /// Which tests are shown as they end.
    pub fn status_level(&self) -> StatusLevel
        ensures { nearest (λ f. f.status_level) self.now.facts.fields ≡ Some result }
    {
        self.facts.values().run.status_level
    }

    /// Which tests are shown at the end of the run.
    pub fn final_status_level(&self) -> FinalStatusLevel
        ensures { nearest (λ f. f.final_status_level) self.now.facts.fields ≡ Some result }
    {
        self.facts.values().run.final_status_level
    }

    /// When the output of a test that fails is shown where no rule says so.
    pub fn failure_output(&self) -> TestOutputDisplay
        ensures { nearest (λ f. f.failure_output) self.now.facts.fields ≡ Some result }
    {
        self.facts.values().tests.failure_output
    }

    /// When the output of a test that passes is shown where no rule says so.
    pub fn success_output(&self) -> TestOutputDisplay
        ensures { nearest (λ f. f.success_output) self.now.facts.fields ≡ Some result }
    {
        self.facts.values().tests.success_output
    }

    /// After how many failures the run ends.
    pub fn max_fail(&self) -> MaxFail
        ensures { nearest (λ f. f.max_fail) self.now.facts.fields ≡ Some result }
    {
        self.facts.values().run.max_fail
    }

    /// The report of the run, if one is written.
    pub fn junit(&self, alloc: Global) -> Result<Option<JunitConfig>, AllocError>
        ensures { IfOk result (IsReportWhereSet self.now.facts) }
    {
        self.facts.junit(alloc)
    }

    /// The settings of a test. Rules whose filters are evaluated go into the tally, in order.
    pub fn settings_for(
        &self,
        mode: NextestRunMode,
        query: &TestQuery<'_>,
        tally: &mut F::Tally,
    ) -> TestSettings<'cfg, F, S>
        ensures settings { let profile = profile_meaning F.meaning self.now in
            let test = query_in F.holds profile (test_view query.now) in
            AreSettingsOf F.meaning test mode profile result }
        ensures tally { let profile = profile_meaning F.meaning self.now in
            let test = query_in F.holds profile (test_view query.now) in
            F.Tally.numbers tally.new ≡ F.Tally.numbers tally.old
            ++ evaluated_for_test test mode profile }
    {
        let values = *self.facts.values();
        self.rules
            .settings_for(values, self.facts.scripts(), mode, query, tally)
    }

    /// The settings of a test, each with what decides it. Rules whose filters are evaluated go into
    /// the tally, in order.
    pub fn settings_with_source_for(
        &self,
        mode: NextestRunMode,
        query: &TestQuery<'_>,
        tally: &mut F::Tally,
    ) -> TestSettings<'cfg, F, S, SettingSource<'cfg, F, S>>
        ensures settings { let profile = profile_meaning F.meaning self.now in
            let test = query_in F.holds profile (test_view query.now) in
            AreSettingsOf F.meaning test mode profile result }
        ensures tally { let profile = profile_meaning F.meaning self.now in
            let test = query_in F.holds profile (test_view query.now) in
            F.Tally.numbers tally.new ≡ F.Tally.numbers tally.old
            ++ evaluated_for_test test mode profile }
    {
        let values = *self.facts.values();
        self.rules
            .settings_for(values, self.facts.scripts(), mode, query, tally)
    }

    /// Whether the rules hold for each test of a binary, where the binary alone decides that. Each
    /// filter whose platforms hold is evaluated once.
    pub fn binary_answers(
        &self,
        alloc: Global,
        query: &BinaryQuery<'_>,
        tally: &mut F::Tally,
    ) -> Result<BinaryAnswers, AllocError>
        ensures answers { let profile = profile_meaning F.meaning self.now in
            IfOk result (AreAnswersOf F.holds_binary profile) }
        ensures binary { IfOk result (λ answers. answered_binary answers ≡ binary_view query.now) }
    {
        BinaryAnswers::of(alloc, &self.rules, query, tally)
    }

    /// The settings of a test, each with what decides it, by what its binary decides of overrides:
    /// filters are evaluated of the overrides that the binary leaves open, and of script rules.
    pub fn settings_by_answers(
        &self,
        mode: NextestRunMode,
        query: &TestQuery<'_>,
        answers: &BinaryAnswers,
        tally: &mut F::Tally,
    ) -> TestSettings<'cfg, F, S, SettingSource<'cfg, F, S>>
        ensures settings { let profile = profile_meaning F.meaning self.now in
            let test = test_view query.now in
            AreAnswersOf F.holds_binary profile answers.now
            → answered_binary answers.now ≡ test.binary
            → AreSettingsOf F.meaning (query_in F.holds profile test) mode profile result }
        ensures tally { let profile = profile_meaning F.meaning self.now in
            let test = query_in F.holds profile (test_view query.now) in
            EvaluatesOpen answers.now.overrides.items
            (asked_from ((λ w. is_some w.scripts.run_wrapper) ∷ []) (length profile.overrides) test
            [] profile.script_rules)
            (F.Tally.numbers tally.old) (F.Tally.numbers tally.new) }
    {
        let values = *self.facts.values();
        self.rules.open_settings_for(
            values,
            self.facts.scripts(),
            mode,
            query,
            answers.overrides(),
            tally,
        )
    }

    /// The settings of a binary that lists its tests. Script rules whose filters are evaluated go
    /// into the tally, numbered on from the overrides.
    pub fn list_settings_for(
        &self,
        query: &BinaryQuery<'_>,
        tally: &mut F::Tally,
    ) -> ListSettings<'cfg>
        ensures wrapper { let profile = profile_meaning F.meaning self.now in
            let binary = binary_query F.holds_binary profile.default_filter.filter
            (binary_view query.now) in
            option_map Some (list_wrapper_at result)
            ≡ option_map (λ id. at_name id profile.facts.scripts.wrapper)
            (list_wrapper_of binary profile) }
        ensures tally { let profile = profile_meaning F.meaning self.now in
            let binary = binary_query F.holds_binary profile.default_filter.filter
            (binary_view query.now) in
            F.Tally.numbers tally.new ≡ F.Tally.numbers tally.old
            ++ evaluated_for_list binary profile }
    {
        self.rules
            .list_settings_for(self.facts.scripts(), query, tally)
    }

    /// The script rule that names the list wrapper of a binary: the first one that matches it and
    /// names one. Script rules whose filters are evaluated go into the tally, numbered on from the
    /// overrides.
    pub fn list_wrapper_rule(
        &self,
        query: &BinaryQuery<'_>,
        tally: &mut F::Tally,
    ) -> Option<&'cfg CompiledProfileScripts<F, S>>
        ensures rule { let profile = profile_meaning F.meaning self.now in
            let binary = binary_query F.holds_binary profile.default_filter.filter
            (binary_view query.now) in
            option_map (λ rule. (script_rule_ref_view rule).writes) result
            ≡ option_map (λ rule. rule.writes) (listing_rule binary profile.script_rules) }
        ensures tally { let profile = profile_meaning F.meaning self.now in
            let binary = binary_query F.holds_binary profile.default_filter.filter
            (binary_view query.now) in
            F.Tally.numbers tally.new ≡ F.Tally.numbers tally.old
            ++ evaluated_for_list binary profile }
    {
        self.rules.list_wrapper_rule(query, tally)
    }

    /// The setup scripts that tests enable, in the order in which they run.
    pub fn setup_scripts(
        &self,
        alloc: Global,
        queries: &[TestQuery<'_>],
        tally: &mut F::Tally,
    ) -> Result<SetupScripts<'cfg, F, S>, AllocError>
        ensures scripts { let profile = profile_meaning F.meaning self.now in
            let tests = map (λ query. query_in F.holds profile (test_view query)) queries.now in
            IfOk result (λ found. setup_scripts_view found ≡ enabled_scripts tests profile) }
        ensures rules { let profile = profile_meaning F.meaning self.now in
            IfOk result (λ found. setup_scripts_rules_view F.meaning found ≡ profile.script_rules) }
        ensures tally { (added : List ℕ)
            × (F.Tally.numbers tally.new ≡ F.Tally.numbers tally.old ++ added) }
    {
        self.rules
            .setup_scripts(alloc, self.facts.scripts(), queries, tally)
    }

    /// The groups of tests by name, for filters that use the group of a test. Of tests of one
    /// name the last that gets a custom group counts; for a name that is not among them
    /// the group is the global one.
    pub fn precompute_group_memberships(
        &self,
        alloc: Global,
        tests: &[TestQuery<'_>],
        tally: &mut F::Tally,
    ) -> Result<PrecomputedGroupMembership, AllocError>
        ensures groups { let profile = profile_meaning F.meaning self.now in
            IfOk result (λ found. (binary_id name : List ℕ) → membership_group found binary_id name
            ≡ group_of F.holds profile (map test_view tests.now) binary_id name) }
        ensures tally { (added : List ℕ)
            × (F.Tally.numbers tally.new ≡ F.Tally.numbers tally.old ++ added) }
    {
        self.rules.precompute_group_memberships(alloc, tests, tally)
    }
}
