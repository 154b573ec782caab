//! The law of the overrides that have a default filter.
ghost use Rattle.std.specs.Prelude.{◌≡◌, ℕ, List, Some, false, find, map, option_map, slice_get};
ghost use Rattle.nextest_engines.specs.declared.queries.BuildPlatforms.{BuildPlatforms};
ghost use Rattle.nextest_rules.specs.Rules.{Compiled, OverrideUse};
ghost use Rattle.nextest_settings.specs.Chains.{first_of};
ghost use Rattle.nextest_settings.specs.Engines.{meets_by};
ghost use Rattle.nextest_settings.specs.Platforms.{rule_on};
ghost use Rattle.rinqebo_rules.specs.FilterRules.{FilterRule, filter_rules};
ghost use Rattle.rinqebo_origins.specs.RulePlaces.{id_place};
ghost use Rattle.rinqebo_rules.specs.Runs.{filtering_id};
ghost use Rattle.rinqebo_rules.specs.VerdictsBy.{decides_by, verdicts_by};
ghost use Rattle.rinqebo_rules.specs.declared.verdict.RuleVerdict.TheVariants as verdicts;

use nextest_engines::{Filters, Specs};

/// The first override that has a default filter and whose platforms hold is the one whose default
/// filter counts. It is the only one with the verdict that it decides.
pub fn law_filter_rules<F: Filters, S: Specs>()
    ensures choice { (platforms : BuildPlatforms S.Platform)
        (overrides : List (Compiled F.Meaning S.Spec (OverrideUse F.Meaning)))
        → option_map (λ rule. rule.place) (find (λ rule. decides_by rule.facts)
        (filter_rules (meets_by S.Specs) platforms overrides))
        ≡ option_map id_place (first_of filtering_id
        (map (rule_on (meets_by S.Specs) platforms) overrides)) }
    ensures verdict { (rules : List FilterRule) (n : ℕ)
        → slice_get (verdicts_by false (map (λ rule. rule.facts) rules)) n ≡ Some verdicts.Decides
        → find (λ rule. decides_by rule.facts) rules ≡ slice_get rules n }
{}
