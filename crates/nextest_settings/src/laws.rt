//! Laws of what decides a setting, of what is evaluated for it, and of the order of rules.
ghost use Rattle.std.specs.Prelude.{◌≡◌, ◌≤◌, ◌↔◌, List, ℕ, Bool, None, Some, IfSome, Contains, false, count_by, is_some, length, map, slice_get};
ghost use Rattle.nextest_elements.specs.declared.run_mode.NextestRunMode.{NextestRunMode};
ghost use Rattle.nextest_rules.specs.Rules.{Layer, OverrideUse, ScriptRuleUse};
ghost use Rattle.nextest_settings.specs.Chains.{overrides_of, script_rules_of};
ghost use Rattle.nextest_settings.specs.Deciding.{QueryContext, Rising, HasFilterAt, StandsFirst, decides, winner};
ghost use Rattle.nextest_settings.specs.Order.{RulesAreInOrder};
ghost use Rattle.nextest_settings.specs.Platforms.{EvaluatedRule};
ghost use Rattle.nextest_settings.specs.Profile.{EvaluatableModel};
ghost use Rattle.nextest_settings.specs.Queries.{filters_of, evaluated_for_test, evaluated_for_list, IsEvaluatedForTest, IsEvaluatedForList};
ghost use Rattle.nextest_elements.specs.Settings.{StandsOnce, settings};
ghost use Rattle.nextest_elements.specs.declared.setting.Setting.{Setting};
ghost use Rattle.nextest_tables.specs.Written.{Name};

use nextest_elements::Setting;
use nextest_engines::{Filters, Specs};

/// All settings are listed in the order of rows, and each appears there once.
pub fn law_all_settings()
    ensures order { Setting.ALL ≡ settings }
    ensures once { (s : Setting) → StandsOnce settings s }
{}

/// The rules that are evaluated are a strictly rising list of numbers of rules that have a filter.
pub fn law_evaluated_at_most_once<F: Filters>()
    ensures test { (query : QueryContext F.Meaning) (mode : NextestRunMode)
        (p : EvaluatableModel F.Meaning)
        → Rising (HasFilterAt (filters_of p)) 0 (evaluated_for_test query mode p) }
    ensures list { (query : QueryContext F.Meaning) (p : EvaluatableModel F.Meaning)
        → Rising (HasFilterAt (filters_of p)) (length p.overrides) (evaluated_for_list query p) }
{}

/// The rules that are evaluated are exactly those that have a filter, whose platforms hold, and
/// that write something which no lower rule decides: an override a setting, a script rule a
/// wrapper. And there are at most as many as there are rules with a filter.
pub fn law_evaluated_exactly<F: Filters>()
    ensures test { (query : QueryContext F.Meaning) (mode : NextestRunMode)
        (p : EvaluatableModel F.Meaning) (n : ℕ)
        → Contains (evaluated_for_test query mode p) n ↔ IsEvaluatedForTest query mode p n }
    ensures test_count { (query : QueryContext F.Meaning) (mode : NextestRunMode)
        (p : EvaluatableModel F.Meaning)
        → length (evaluated_for_test query mode p) ≤ count_by is_some (filters_of p) }
    ensures list { (query : QueryContext F.Meaning) (p : EvaluatableModel F.Meaning) (n : ℕ)
        → Contains (evaluated_for_list query p) n ↔ IsEvaluatedForList query p n }
    ensures list_count { (query : QueryContext F.Meaning) (p : EvaluatableModel F.Meaning)
        → length (evaluated_for_list query p)
        ≤ count_by is_some (map (λ r. r.filter) p.script_rules) }
{}

/// The override that decides something is the one at the least number that holds and writes it, and
/// there is none exactly if no override does.
pub fn law_first_override<F: Filters>()
    ensures some { (query : QueryContext F.Meaning) (wants : OverrideUse F.Meaning → Bool)
        (rules : List (EvaluatedRule F.Meaning (OverrideUse F.Meaning)))
        → IfSome (winner query wants rules) (StandsFirst (decides query wants) rules) }
    ensures none { (query : QueryContext F.Meaning) (wants : OverrideUse F.Meaning → Bool)
        (rules : List (EvaluatedRule F.Meaning (OverrideUse F.Meaning))) (n : ℕ)
        (r : EvaluatedRule F.Meaning (OverrideUse F.Meaning)) → winner query wants rules ≡ None
        → slice_get rules n ≡ Some r → decides query wants r ≡ false }
{}

/// The script rule that names a wrapper is the one at the least number that holds and names one,
/// and there is none exactly if no script rule does.
pub fn law_first_script_rule<F: Filters>()
    ensures some { (query : QueryContext F.Meaning) (wants : ScriptRuleUse → Bool)
        (rules : List (EvaluatedRule F.Meaning ScriptRuleUse))
        → IfSome (winner query wants rules) (StandsFirst (decides query wants) rules) }
    ensures none { (query : QueryContext F.Meaning) (wants : ScriptRuleUse → Bool)
        (rules : List (EvaluatedRule F.Meaning ScriptRuleUse)) (n : ℕ)
        (r : EvaluatedRule F.Meaning ScriptRuleUse) → winner query wants rules ≡ None
        → slice_get rules n ≡ Some r → decides query wants r ≡ false }
{}

/// The rules of a chain are in the order of their places, each once: by profile, then by source
/// from the highest, and then by position in its file.
pub fn law_rule_order<F: Filters, S: Specs>()
    ensures overrides { (layers : List (Layer F.Meaning S.SpecMeaning)) (names : List Name)
        → RulesAreInOrder (λ p. p.overrides) layers names (overrides_of layers names) }
    ensures script_rules { (layers : List (Layer F.Meaning S.SpecMeaning)) (names : List Name)
        → RulesAreInOrder (λ p. p.script_rules) layers names (script_rules_of layers names) }
{}
