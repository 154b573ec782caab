//! The law of the verdicts on the rules of a setting.
ghost use Rattle.std.specs.Prelude.{◌≡◌, ◌≢◌, ◌↔◌, ℕ, IsSome, Some, option_map, slice_get};
ghost use Rattle.filter_engine.specs.Engine.{Filter};
ghost use Rattle.nextest_settings.specs.Platforms.{EvaluatedRule};
ghost use Rattle.nextest_settings.specs.Settings.{fallback_of};
ghost use Rattle.nextest_elements.specs.declared.setting.Setting.{Setting};
ghost use Rattle.rinqebo_laws.specs.Verdicts.{Judged, judged_rules, judged_value, judged_verdicts};
ghost use Rattle.rinqebo_origins.specs.Reported.{reported_of};
ghost use Rattle.rinqebo_rules.specs.SettingRules.{RuleValue, writes_it};
ghost use Rattle.rinqebo_rules.specs.Verdicts.{IsDeciding};
ghost use Rattle.rinqebo_rules.specs.declared.verdict.RuleVerdict.{RuleVerdict};

/// The verdicts on the rules of a setting for a test: on overrides, or for a run wrapper on script
/// rules. A rule decides exactly if it holds and writes the setting, and no earlier one does. The
/// setting has what this rule writes, and if none decides, its fallback.
pub fn law_rule_verdicts()
    ensures nth { (j : Judged) (s : Setting) (n : ℕ) (rule : EvaluatedRule Filter RuleValue)
        → slice_get (judged_rules j s) n ≡ Some rule
        → (slice_get (judged_verdicts j s) n ≡ Some RuleVerdict.Decides)
        ↔ IsDeciding j.query writes_it (judged_rules j s) n rule }
    ensures decided { (j : Judged) (s : Setting) (n : ℕ) (rule : EvaluatedRule Filter RuleValue)
        → slice_get (judged_rules j s) n ≡ Some rule
        → slice_get (judged_verdicts j s) n ≡ Some RuleVerdict.Decides
        → IsSome rule.writes.value
        × (option_map (reported_of s) (judged_value j s) ≡ rule.writes.value) }
    ensures none { (j : Judged) (s : Setting)
        → ((n : ℕ) → slice_get (judged_verdicts j s) n ≢ Some RuleVerdict.Decides)
        → judged_value j s ≡ fallback_of j.fields j.mode s }
{}
