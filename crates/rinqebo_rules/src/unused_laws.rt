//! The law of unused rules.
ghost use Rattle.std.specs.Prelude.{List};
ghost use Rattle.nextest_settings.specs.Deciding.{QueryContext};
ghost use Rattle.nextest_settings.specs.Platforms.{EvaluatedRule};
ghost use Rattle.nextest_rules.specs.Rules.{OverrideUse, ScriptRuleUse};
ghost use Rattle.rinqebo_rules.specs.Selections.{IsSelection};
ghost use Rattle.rinqebo_rules.specs.Unused.{HoldsForNone, unused_among};

use nextest_engines::Filters;

/// The unused rules among others are exactly those that hold for none of the tests, in their order.
pub fn law_unused<F: Filters>()
    ensures overrides { (tests : List (QueryContext F.Meaning))
        (rules : List (EvaluatedRule F.Meaning (OverrideUse F.Meaning)))
        → IsSelection (HoldsForNone tests) rules (unused_among tests rules) }
    ensures script_rules { (tests : List (QueryContext F.Meaning))
        (rules : List (EvaluatedRule F.Meaning ScriptRuleUse))
        → IsSelection (HoldsForNone tests) rules (unused_among tests rules) }
{}
