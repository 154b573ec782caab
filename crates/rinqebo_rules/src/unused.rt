//! The rules of a profile that hold for none of the tests of a list.
ghost use Rattle.std.specs.Prelude.{◌≡◌, ◌++◌, ◌∷◌, [], ◌||◌, ◌+◌, ◌<◌, ◌^◌, Bool, IfOk, IsTrue, List, None, is_some, length, map, string_bytes};
ghost use Rattle.std.specs.List.{AllZip};
ghost use Rattle.nextest_engines.specs.Engines.{test_view};
ghost use Rattle.nextest_settings.specs.Profiles.Meaning.{profile_meaning};
ghost use Rattle.nextest_settings.specs.Profiles.SettingsOf.{AreSettingsOf};
ghost use Rattle.nextest_settings.specs.Binaries.{IsKnownFor};
ghost use Rattle.nextest_rules.specs.View.{id_view, script_rule_id_view};
ghost use Rattle.nextest_settings.specs.Deciding.{QueryContext, rule_holds};
ghost use Rattle.nextest_settings.specs.Engines.{test_query_by};
ghost use Rattle.nextest_settings.specs.Queries.{enabled_scripts, query_in};
ghost use Rattle.nextest_elements.specs.Settings.{settings as all_settings};
ghost use Rattle.nextest_settings.specs.View.{meant_override, meant_script_rule};
ghost use Rattle.rinqebo_rules.specs.BinaryRules.{AreKnownIn};
ghost use Rattle.nextest_settings.specs.Settings.{is_set};
ghost use Rattle.rinqebo_rules.specs.Distinct.{AreDistinct};
ghost use Rattle.rinqebo_rules.specs.Evaluations.{EvaluatesBeside, EvaluatesIf, EvaluatesOnly, IsLeftOpen, IsOpenAt, asks};
ghost use Rattle.rinqebo_rules.specs.Passed.{AreWritten, IsHidden, IsPassed, IsShown, IsShownBy, ids_of};
ghost use Rattle.rinqebo_rules.specs.Unused.{AreUsedIn, AreUnusedIn, is_used, unused_among, written_at};

use crate::distinct::{are_overrides_distinct, are_script_rules_distinct};
use crate::holds::{override_holds, script_rule_holds};
use crate::marked_scripts::ids_by_marks;
use crate::marks::{is_marked, known_at, none_of, set_mark};
use crate::passed::{all_written, passed_in, shown_of};
use crate::values::SourcedSettings;
use crate::wrapping::{passed_for_wrapper, shown_of_script};
use nextest_elements::{NextestRunMode, Setting};
use nextest_engines::{EvalContext, Filters, Specs, Tally, TestQuery};
use nextest_rules::{OverrideId, ScriptRuleId};
use nextest_settings::{EvaluatableProfile, EvaluatedOverride, EvaluatedScriptRule};
use std::alloc::{AllocError, Global};

/// The ids of the rules of a profile that hold for none of some tests.
#[derive(Drop)]
pub struct UnusedRules<'c> {
    /// Those of its overrides, in order.
    pub overrides: Vec<&'c OverrideId>,
    /// Those of its script rules, in order.
    pub script_rules: Vec<&'c ScriptRuleId>,
}

/// Which rules of a profile hold for some of the tests so far.
#[derive(Drop)]
pub struct UsedRules {
    /// Of each override, whether it does.
    overrides: Vec<bool>,
    /// Of each script rule, whether it does.
    script_rules: Vec<bool>,
    /// Of each override, the settings that it writes.
    written: Vec<Vec<Setting>>,
    /// Whether no two overrides are known to have one id.
    are_overrides_distinct: bool,
    /// Whether no two script rules are known to have one id.
    pub(crate) are_script_rules_distinct: bool,
}

/// The settings that the override of a number is known to write.
fn written_at(written: &[Vec<Setting>], number: usize) -> &[Setting]
    ensures { result.now ≡ written_at written.now number }
{
    match written.get(number) {
        Some(settings) => settings,
        None => &[],
    }
}

/// Whether an override holds that the binary of a test leaves open. It is evaluated only if the
/// settings of the test do not show whether it holds: then the search for them did not evaluate it,
/// if overrides are distinct.
fn open_override_holds<F: Filters, S: Specs>(
    rule: &EvaluatedOverride<'_, F, S>,
    number: usize,
    written: &[Setting],
    passed: &[usize],
    are_distinct: bool,
    query: &TestQuery<'_>,
    cx: &EvalContext<'_, F::Expr>,
    tally: &mut F::Tally,
) -> bool
    ensures answer { let query = test_query_by F.Filters cx.now.default_filter.now query.now in
        let rule = meant_override F.meaning rule.now in
        ((holds : Bool) → IsShownBy written.now number passed.now are_distinct holds
        → rule_holds query rule ≡ holds) → result ≡ rule_holds query rule }
    ensures tally { let query = test_query_by F.Filters cx.now.default_filter.now query.now in
        let rule = meant_override F.meaning rule.now in
        EvaluatesIf (IsTrue (asks query rule)
        × IsHidden (IsShownBy written.now number passed.now are_distinct))
        number (F.Tally.numbers tally.old) (F.Tally.numbers tally.new) }
{
    match shown_of(written, number, passed, are_distinct) {
        Some(holds) => holds,
        None => override_holds(rule, number, query, cx, tally),
    }
}

/// Whether an override holds for some of the tests, after one more. It is evaluated only if it
/// held for none so far, and neither the binary nor the settings of the test show whether it holds.
fn is_override_used<F: Filters, S: Specs>(
    rule: &EvaluatedOverride<'_, F, S>,
    number: usize,
    held: bool,
    known: Option<bool>,
    written: &[Setting],
    passed: &[usize],
    are_distinct: bool,
    query: &TestQuery<'_>,
    cx: &EvalContext<'_, F::Expr>,
    tally: &mut F::Tally,
) -> bool
    ensures answer { let query = test_query_by F.Filters cx.now.default_filter.now query.now in
        let rule = meant_override F.meaning rule.now in
        IsKnownFor query rule known
        → ((holds : Bool) → IsShownBy written.now number passed.now are_distinct holds
        → rule_holds query rule ≡ holds) → result ≡ (held || rule_holds query rule) }
    ensures tally { let query = test_query_by F.Filters cx.now.default_filter.now query.now in
        let rule = meant_override F.meaning rule.now in
        EvaluatesIf (IsLeftOpen query held known
        (IsHidden (IsShownBy written.now number passed.now are_distinct)) rule)
        number (F.Tally.numbers tally.old) (F.Tally.numbers tally.new) }
{
    match known {
        Some(holds) => held || holds,
        None => {
            held || open_override_holds(
                rule,
                number,
                written,
                passed,
                are_distinct,
                query,
                cx,
                tally,
            )
        }
    }
}

/// Marks the overrides that hold for a test.
fn mark_overrides<F: Filters, S: Specs>(
    rules: &[EvaluatedOverride<'_, F, S>],
    used: &mut [bool],
    known: &[Option<bool>],
    written: &[Vec<Setting>],
    passed: &[usize],
    are_distinct: bool,
    query: &TestQuery<'_>,
    cx: &EvalContext<'_, F::Expr>,
    tally: &mut F::Tally,
)
    ensures marks { (mode : NextestRunMode)
        → let query = test_query_by F.Filters cx.now.default_filter.now query.now in
        let rules = map (meant_override F.meaning) rules.now in
        AllZip (AreWritten mode) rules written.now
        → AllZip (λ s. IsPassed query (λ w. is_set w.settings mode s) (λ w. w.id) rules)
        all_settings passed.now
        → (IsTrue are_distinct → AreDistinct (ids_of (λ w. w.id) rules))
        → AreKnownIn query rules known.now
        → (tests : List (QueryContext F.Meaning))
        → used.old ≡ map (is_used tests) rules
        → used.new ≡ map (is_used (tests ++ query ∷ [])) rules }
    ensures tally { let query = test_query_by F.Filters cx.now.default_filter.now query.now in
        let rules = map (meant_override F.meaning) rules.now in
        EvaluatesOnly (IsOpenAt query used.old known.now
        (λ n w. IsShownBy (written_at written.now n) n passed.now are_distinct) 0 rules) 0
        (F.Tally.numbers tally.old) (F.Tally.numbers tally.new) }
{
    for (number, rule) in rules.iter().enumerate() {
        let held = is_marked(used, number);
        let holds = known_at(known, number);
        let settings = written_at(written, number);
        let is_used = is_override_used(
            rule,
            number,
            held,
            holds,
            settings,
            passed,
            are_distinct,
            query,
            cx,
            tally,
        );
        set_mark(used, number, is_used);
    }
}

/// Whether a script rule holds that the binary of a test leaves open. It is evaluated only if the
/// run wrapper of the test does not show whether it holds: then the search for the wrapper did not
/// evaluate it, if script rules are distinct.
pub(crate) fn open_script_rule_holds<F: Filters, S: Specs>(
    rule: &EvaluatedScriptRule<'_, F, S>,
    number: usize,
    shown: Option<bool>,
    query: &TestQuery<'_>,
    cx: &EvalContext<'_, F::Expr>,
    tally: &mut F::Tally,
) -> bool
    ensures answer { let query = test_query_by F.Filters cx.now.default_filter.now query.now in
        let rule = meant_script_rule F.meaning rule.now in
        IsKnownFor query rule shown → result ≡ rule_holds query rule }
    ensures tally { let query = test_query_by F.Filters cx.now.default_filter.now query.now in
        let rule = meant_script_rule F.meaning rule.now in
        EvaluatesIf (IsTrue (asks query rule) × (shown ≡ None)) number
        (F.Tally.numbers tally.old) (F.Tally.numbers tally.new) }
{
    match shown {
        Some(holds) => holds,
        None => script_rule_holds(rule, number, query, cx, tally),
    }
}

/// Whether a script rule holds for some of the tests, after one more. It is evaluated only if it
/// held for none so far, and neither the binary nor the run wrapper of the test shows whether it
/// holds.
fn is_script_rule_used<F: Filters, S: Specs>(
    rule: &EvaluatedScriptRule<'_, F, S>,
    number: usize,
    held: bool,
    known: Option<bool>,
    shown: Option<bool>,
    query: &TestQuery<'_>,
    cx: &EvalContext<'_, F::Expr>,
    tally: &mut F::Tally,
) -> bool
    ensures answer { let query = test_query_by F.Filters cx.now.default_filter.now query.now in
        let rule = meant_script_rule F.meaning rule.now in
        IsKnownFor query rule known → IsKnownFor query rule shown
        → result ≡ (held || rule_holds query rule) }
    ensures tally { let query = test_query_by F.Filters cx.now.default_filter.now query.now in
        let rule = meant_script_rule F.meaning rule.now in
        EvaluatesIf (IsLeftOpen query held known (shown ≡ None) rule) number
        (F.Tally.numbers tally.old) (F.Tally.numbers tally.new) }
{
    match known {
        Some(holds) => held || holds,
        None => held || open_script_rule_holds(rule, number, shown, query, cx, tally),
    }
}

/// Marks the script rules that hold for a test. They are numbered on from the first number.
fn mark_script_rules<F: Filters, S: Specs>(
    rules: &[EvaluatedScriptRule<'_, F, S>],
    first: usize,
    used: &mut [bool],
    known: &[Option<bool>],
    passed: usize,
    are_distinct: bool,
    query: &TestQuery<'_>,
    cx: &EvalContext<'_, F::Expr>,
    tally: &mut F::Tally,
)
    requires { first + length rules.now < 2 ^ 64 }
    ensures marks { let query = test_query_by F.Filters cx.now.default_filter.now query.now in
        let rules = map (meant_script_rule F.meaning) rules.now in
        IsPassed query (λ w. is_some w.scripts.run_wrapper) (λ w. w.id) rules passed
        → (IsTrue are_distinct → AreDistinct (ids_of (λ w. w.id) rules))
        → AreKnownIn query rules known.now
        → (tests : List (QueryContext F.Meaning)) → used.old ≡ map (is_used tests) rules
        → used.new ≡ map (is_used (tests ++ query ∷ [])) rules }
    ensures tally { let query = test_query_by F.Filters cx.now.default_filter.now query.now in
        let rules = map (meant_script_rule F.meaning) rules.now in
        EvaluatesOnly (IsOpenAt query used.old known.now (λ n w holds.
        IsTrue (is_some w.scripts.run_wrapper) × IsShown are_distinct n passed holds) first rules)
        first (F.Tally.numbers tally.old) (F.Tally.numbers tally.new) }
{
    for (number, rule) in rules.iter().enumerate() {
        let held = is_marked(used, number);
        let holds = known_at(known, number);
        let shown = shown_of_script(rule, number, passed, are_distinct);
        let is_used = is_script_rule_used(
            rule,
            first + number,
            held,
            holds,
            shown,
            query,
            cx,
            tally,
        );
        set_mark(used, number, is_used);
    }
}

/// The ids of the overrides that are not marked, in their order.
fn unmarked_overrides<'c, F: Filters, S: Specs>(
    alloc: Global,
    rules: &[EvaluatedOverride<'c, F, S>],
    used: &[bool],
) -> Result<Vec<&'c OverrideId>, AllocError>
    ensures { let rules = map (meant_override F.meaning) rules.now in
        (tests : List (QueryContext F.Meaning)) → used.now ≡ map (is_used tests) rules
        → IfOk result (λ ids. map (λ id. id_view id.now) ids.items
        ≡ map (λ rule. rule.writes.id) (unused_among tests rules)) }
{
    let mut ids = Vec::new(alloc);
    for (number, rule) in rules.iter().enumerate() {
        if !is_marked(used, number) {
            ids.push(rule.rule().id())?;
        }
    }
    Ok(ids)
}

/// The ids of the script rules that are not marked, in their order.
fn unmarked_script_rules<'c, F: Filters, S: Specs>(
    alloc: Global,
    rules: &[EvaluatedScriptRule<'c, F, S>],
    used: &[bool],
) -> Result<Vec<&'c ScriptRuleId>, AllocError>
    ensures { let rules = map (meant_script_rule F.meaning) rules.now in
        (tests : List (QueryContext F.Meaning)) → used.now ≡ map (is_used tests) rules
        → IfOk result (λ ids. map (λ id. script_rule_id_view id.now) ids.items
        ≡ map (λ rule. rule.writes.id) (unused_among tests rules)) }
{
    let mut ids = Vec::new(alloc);
    for (number, rule) in rules.iter().enumerate() {
        if !is_marked(used, number) {
            ids.push(rule.rule().id())?;
        }
    }
    Ok(ids)
}

impl UsedRules {
    /// The rules of a profile, before any test.
    pub(crate) fn new<F: Filters, S: Specs>(
        alloc: Global,
        profile: &EvaluatableProfile<'_, F, S>,
        mode: NextestRunMode,
    ) -> Result<UsedRules, AllocError>
        ensures { IfOk result
            (AreUsedIn [] mode (profile_meaning F.meaning profile.now)) }
    {
        let rules = profile.rules();
        Ok(UsedRules {
            overrides: none_of(alloc, rules.overrides.len())?,
            script_rules: none_of(alloc, rules.script_rules.len())?,
            written: all_written(alloc, &rules.overrides, mode)?,
            are_overrides_distinct: are_overrides_distinct(alloc, &rules.overrides)?,
            are_script_rules_distinct: are_script_rules_distinct(alloc, &rules.script_rules)?,
        })
    }

    /// Adds a test, to which a profile gives some settings, by what is known of overrides and of
    /// script rules for it. It takes no memory.
    ///
    /// A filter is evaluated only if its rule held for none of the tests so far, it is not known
    /// whether the rule holds, and the search for the settings did not evaluate it for this test.
    /// (If two rules of a kind had one id, which those of a profile do not have, those that decide
    /// might be evaluated again.)
    pub(crate) fn add<'c, F: Filters, S: Specs>(
        &mut self,
        profile: &EvaluatableProfile<'c, F, S>,
        query: &TestQuery<'_>,
        overrides: &[Option<bool>],
        script_rules: &[Option<bool>],
        settings: &SourcedSettings<'c, F, S>,
        tally: &mut F::Tally,
    )
        ensures used { (tests : List (QueryContext F.Meaning)) (mode : NextestRunMode)
            → let profile = profile_meaning F.meaning profile.now in
            let query = query_in F.holds profile (test_view query.now) in
            AreKnownIn query profile.overrides overrides.now
            → AreKnownIn query profile.script_rules script_rules.now
            → AreSettingsOf F.meaning query mode profile settings.now
            → AreUsedIn tests mode profile self.old
            → AreUsedIn (tests ++ query ∷ []) mode profile self.new }
        ensures tally { (tests : List (QueryContext F.Meaning)) (mode : NextestRunMode)
            → let profile = profile_meaning F.meaning profile.now in
            let query = query_in F.holds profile (test_view query.now) in
            AreSettingsOf F.meaning query mode profile settings.now
            → AreUsedIn tests mode profile self.old
            → EvaluatesBeside tests query mode profile self.old overrides.now script_rules.now
            (F.Tally.numbers tally.old) (F.Tally.numbers tally.new) }
    {
        let rules = profile.rules();
        let first = rules.overrides.len();
        let cx = profile.filterset_ecx();
        let passed = passed_in(&rules.overrides, settings);
        mark_overrides(
            &rules.overrides,
            &mut self.overrides,
            overrides,
            &self.written,
            &passed,
            self.are_overrides_distinct,
            query,
            &cx,
            tally,
        );
        let passed = passed_for_wrapper(&rules.script_rules, settings);
        mark_script_rules(
            &rules.script_rules,
            first,
            &mut self.script_rules,
            script_rules,
            passed,
            self.are_script_rules_distinct,
            query,
            &cx,
            tally,
        );
    }

    /// The ids of the rules of a profile that hold for none of the tests.
    pub fn unused<'c, F: Filters, S: Specs>(
        &self,
        alloc: Global,
        profile: &EvaluatableProfile<'c, F, S>,
    ) -> Result<UnusedRules<'c>, AllocError>
        ensures { (tests : List (QueryContext F.Meaning)) (mode : NextestRunMode)
            → let profile = profile_meaning F.meaning profile.now in
            AreUsedIn tests mode profile self.now → IfOk result (AreUnusedIn tests profile) }
    {
        let rules = profile.rules();
        Ok(UnusedRules {
            overrides: unmarked_overrides(alloc, &rules.overrides, &self.overrides)?,
            script_rules: unmarked_script_rules(alloc, &rules.script_rules, &self.script_rules)?,
        })
    }

    /// The ids of the setup scripts that the tests enable, in the order in which they run. No
    /// filter is evaluated: a test enables a script if a script rule holds for it that names it.
    pub fn setup_scripts<F: Filters, S: Specs>(
        &self,
        alloc: Global,
        profile: &EvaluatableProfile<'_, F, S>,
    ) -> Result<Vec<String>, AllocError>
        ensures { (tests : List (QueryContext F.Meaning)) (mode : NextestRunMode)
            → let profile = profile_meaning F.meaning profile.now in
            AreUsedIn tests mode profile self.now
            → IfOk result (λ ids. map string_bytes ids.items
            ≡ map (λ script. script.0) (enabled_scripts tests profile)) }
    {
        let rules = profile.rules();
        let scripts = profile.script_config();
        ids_by_marks(alloc, scripts, &rules.script_rules, &self.script_rules)
    }
}
