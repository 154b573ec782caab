//! The rules of a profile that may write a setting, and what they say of a test.
ghost use Rattle.std.specs.Prelude.{◌≡◌, IfOk, List, map, option_map};
ghost use Rattle.nextest_settings.specs.Profiles.RulesOn.{AreOverridesOn, AreScriptRulesOn};
ghost use Rattle.nextest_settings.specs.View.{script_rule_ref_view};
ghost use Rattle.rinqebo_rules.specs.Conditions.{is_met_by};
ghost use Rattle.rinqebo_rules.specs.RuleAnswers.{judged_here};
ghost use Rattle.rinqebo_rules.specs.RuleViews.{ReadOverride, ReadScriptRule, judged_override, judged_script_rule, setting_rule_view};
ghost use Rattle.rinqebo_rules.specs.SettingRules.{is_of_scripts, rules_for, wrapper_written};
ghost use Rattle.rinqebo_origins.specs.SettingValues.{reported_value};

use crate::conditions::{Answers, Asking, answers_of};
use crate::holds::{override_holds, script_rule_holds};
use crate::verdict::RuleFacts;
use filter_engine::{NextestFilters, NextestTally};
use nextest_elements::{NextestRunMode, Setting};
use nextest_settings::{
    EvaluatedOverride, EvaluatedRules, EvaluatedScriptRule, SettingValue, SettingValues,
};
use platform_language::TargetSpecs;
use rinqebo_origins::RulePlace;
use std::alloc::{AllocError, Global};

/// The rules of a profile on the platforms of a build.
type Rules<'c> = EvaluatedRules<'c, NextestFilters, TargetSpecs>;

/// An override on the platforms of a build.
type Override<'c> = EvaluatedOverride<'c, NextestFilters, TargetSpecs>;

/// A script rule on the platforms of a build.
type ScriptRule<'c> = EvaluatedScriptRule<'c, NextestFilters, TargetSpecs>;

/// A rule that may write a setting, what it writes for it, and what it says of a test.
#[derive(Clone, Copy)]
pub struct SettingRule<'c> {
    /// Where it is.
    pub place: RulePlace<'c>,
    /// What it writes for the setting, if it does.
    pub value: Option<SettingValue<'c>>,
    /// What is known of it.
    pub facts: RuleFacts,
    /// What its conditions say.
    pub answers: Answers,
}

/// An override, with what it writes for a setting, and its verdict for a test.
fn override_rule<'c>(
    rule: &Override<'c>,
    setting: Setting,
    mode: NextestRunMode,
    asking: &Asking<'_, '_>,
) -> SettingRule<'c>
    ensures { setting_rule_view result ≡ judged_override asking.now setting mode rule.now }
{
    let written = rule.rule();
    let value = written.settings().value(setting, mode);
    let mut tally = NextestTally::new();
    let facts = RuleFacts {
        is_on: rule.is_on(asking.platform()),
        holds: override_holds(rule, 0, asking.query, &asking.context(), &mut tally),
        writes: value.is_some(),
    };
    SettingRule {
        place: RulePlace::of_override(written.id()),
        value,
        facts,
        answers: answers_of(written.platforms(), written.filter(), facts, asking),
    }
}

/// Overrides, with what each writes for a setting, and their verdicts for a test.
fn override_rules<'c>(
    alloc: Global,
    overrides: &[Override<'c>],
    setting: Setting,
    mode: NextestRunMode,
    asking: &Asking<'_, '_>,
) -> Result<Vec<SettingRule<'c>>, AllocError>
    ensures { IfOk result (λ found. map setting_rule_view found.items
        ≡ map (judged_override asking.now setting mode) overrides.now) }
{
    let mut found = Vec::new(alloc);
    for rule in overrides {
        found.push(override_rule(rule, setting, mode, asking))?;
    }
    Ok(found)
}

/// The run wrapper that a script rule names.
fn named_wrapper<'c>(rule: &ScriptRule<'c>) -> Option<SettingValue<'c>>
    ensures { option_map reported_value result
        ≡ (wrapper_written (script_rule_ref_view rule.now.rule).writes).value }
{
    match rule.rule().run_wrapper() {
        Some(id) => Some(SettingValue::Wrapper(id)),
        None => None,
    }
}

/// A script rule, with the run wrapper that it names, and its verdict for a test.
fn script_rule<'c>(rule: &ScriptRule<'c>, asking: &Asking<'_, '_>) -> SettingRule<'c>
    ensures { setting_rule_view result ≡ judged_script_rule asking.now rule.now }
{
    let written = rule.rule();
    let value = named_wrapper(rule);
    let mut tally = NextestTally::new();
    let facts = RuleFacts {
        is_on: rule.is_on(asking.platform()),
        holds: script_rule_holds(rule, 0, asking.query, &asking.context(), &mut tally),
        writes: value.is_some(),
    };
    SettingRule {
        place: RulePlace::of_script(written.id()),
        value,
        facts,
        answers: answers_of(written.platforms(), written.filter(), facts, asking),
    }
}

/// Script rules, with the run wrapper that each names, and their verdicts for a test.
fn script_rules<'c>(
    alloc: Global,
    rules: &[ScriptRule<'c>],
    asking: &Asking<'_, '_>,
) -> Result<Vec<SettingRule<'c>>, AllocError>
    ensures { IfOk result (λ found. map setting_rule_view found.items
        ≡ map (judged_script_rule asking.now) rules.now) }
{
    let mut found = Vec::new(alloc);
    for rule in rules {
        found.push(script_rule(rule, asking))?;
    }
    Ok(found)
}

/// Whether script rules write a setting.
fn is_of_scripts(setting: Setting) -> bool
    ensures { result ≡ is_of_scripts setting }
{
    matches!(setting, Setting::RunWrapper)
}

/// The rules of a profile that may write a setting, in order, with their verdicts for a test:
/// script rules name run wrappers, and overrides write all other settings.
pub fn rules_for<'c>(
    alloc: Global,
    rules: &Rules<'c>,
    setting: Setting,
    mode: NextestRunMode,
    asking: &Asking<'_, '_>,
) -> Result<Vec<SettingRule<'c>>, AllocError>
    ensures { (overrides : List ReadOverride) (script_rules : List ReadScriptRule)
        → AreOverridesOn is_met_by asking.now.platforms.now overrides rules.now.overrides.items
        → AreScriptRulesOn is_met_by asking.now.platforms.now script_rules
        rules.now.script_rules.items
        → IfOk result (λ found. map setting_rule_view found.items
        ≡ map (judged_here asking.now) (rules_for setting mode overrides script_rules)) }
{
    if is_of_scripts(setting) {
        return script_rules(alloc, &rules.script_rules, asking);
    }
    override_rules(alloc, &rules.overrides, setting, mode, asking)
}
