//! The law of verdicts.
ghost use Rattle.std.specs.Prelude.{◌≡◌, ◌≢◌, ◌<◌, ◌↔◌, ℕ, Bool, List, None, Some, false, true, map, slice_get};
ghost use Rattle.nextest_rules.specs.Rules.{OverrideUse};
ghost use Rattle.nextest_settings.specs.Deciding.{QueryContext, decides, winner};
ghost use Rattle.nextest_settings.specs.Platforms.{EvaluatedRule};
ghost use Rattle.rinqebo_rules.specs.Verdicts.{facts_of, verdicts_of, IsDeciding};
ghost use Rattle.rinqebo_rules.specs.VerdictsBy.{verdicts_by};
ghost use Rattle.rinqebo_rules.specs.declared.verdict.RuleVerdict.{RuleVerdict};

use nextest_engines::Filters;

/// The rule at a place decides exactly if it holds, writes the setting, and no earlier one does.
/// At most one does: the winner. None does exactly if there is no winner, and the fallback
/// counts. And the verdicts are those of what is known of the rules.
pub fn law_verdicts<F: Filters>()
    ensures nth { (query : QueryContext F.Meaning) (wants : OverrideUse F.Meaning → Bool)
        (rules : List (EvaluatedRule F.Meaning (OverrideUse F.Meaning))) (n : ℕ)
        (rule : EvaluatedRule F.Meaning (OverrideUse F.Meaning))
        → slice_get rules n ≡ Some rule
        → (slice_get (verdicts_of query wants rules) n ≡ Some RuleVerdict.Decides)
        ↔ IsDeciding query wants rules n rule }
    ensures winner { (query : QueryContext F.Meaning) (wants : OverrideUse F.Meaning → Bool)
        (rules : List (EvaluatedRule F.Meaning (OverrideUse F.Meaning))) (n : ℕ)
        → slice_get (verdicts_of query wants rules) n ≡ Some RuleVerdict.Decides
        → winner query wants rules ≡ slice_get rules n }
    ensures none { (query : QueryContext F.Meaning) (wants : OverrideUse F.Meaning → Bool)
        (rules : List (EvaluatedRule F.Meaning (OverrideUse F.Meaning)))
        → (winner query wants rules ≡ None)
        ↔ ((n : ℕ) → slice_get (verdicts_of query wants rules) n ≢ Some RuleVerdict.Decides) }
    ensures facts { (query : QueryContext F.Meaning) (wants : OverrideUse F.Meaning → Bool)
        (rules : List (EvaluatedRule F.Meaning (OverrideUse F.Meaning)))
        → verdicts_of query wants rules ≡ verdicts_by false (map (facts_of query wants) rules) }
{}
