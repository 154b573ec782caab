//! What the run wrapper of a test shows of script rules: how far the search for it went.
ghost use Rattle.std.specs.Prelude.{◌≡◌, ◌↔◌, IfSome, IsTrue, None, is_some, map};
ghost use Rattle.nextest_settings.specs.Profiles.SettingsOf.{AreSettingsOf};
ghost use Rattle.nextest_rules.specs.View.{script_rule_id_view};
ghost use Rattle.nextest_elements.specs.declared.run_mode.NextestRunMode.{NextestRunMode};
ghost use Rattle.nextest_settings.specs.Deciding.{QueryContext};
ghost use Rattle.nextest_settings.specs.Profile.{EvaluatableModel};
ghost use Rattle.nextest_settings.specs.View.{meant_script_rule};
ghost use Rattle.rinqebo_rules.specs.Passed.{IsHidden, IsPassed, IsPlaceOf, IsShown};

use crate::passed::shown_by;
use crate::rows::wrapping_rule;
use crate::values::SourcedSettings;
use nextest_engines::{Filters, Specs};
use nextest_rules::ScriptRuleId;
use nextest_settings::EvaluatedScriptRule;
use rinqebo_origins::is_same_source;

/// Whether two ids are of one script rule.
fn is_same_script_rule(id: &ScriptRuleId, other: &ScriptRuleId) -> bool
    ensures { IsTrue result ↔ (script_rule_id_view id.now ≡ script_rule_id_view other.now) }
{
    id.index == other.index
        && id.profile_name.as_str() == other.profile_name.as_str()
        && is_same_source(&id.config_source, &other.config_source)
}

/// The place of the first script rule of an id. Where none has it, the place is behind all.
fn place_of_rule<F: Filters, S: Specs>(
    rules: &[EvaluatedScriptRule<'_, F, S>],
    id: &ScriptRuleId,
) -> usize
    ensures { IsPlaceOf (λ w. w.id) (script_rule_id_view id.now) result
        (map (meant_script_rule F.meaning) rules.now) }
{
    for (number, rule) in rules.iter().enumerate() {
        if is_same_script_rule(rule.rule().id(), id) {
            return number;
        }
    }
    rules.len()
}

/// How many of the first script rules do not give a test its run wrapper: those before the one that
/// does, or all.
pub(crate) fn passed_for_wrapper<'c, F: Filters, S: Specs>(
    rules: &[EvaluatedScriptRule<'c, F, S>],
    settings: &SourcedSettings<'c, F, S>,
) -> usize
    ensures { (query : QueryContext F.Meaning) (mode : NextestRunMode)
        (profile : EvaluatableModel F.Meaning)
        → profile.script_rules ≡ map (meant_script_rule F.meaning) rules.now
        → AreSettingsOf F.meaning query mode profile settings.now
        → IsPassed query (λ w. is_some w.scripts.run_wrapper) (λ w. w.id) profile.script_rules
        result }
{
    match wrapping_rule(settings) {
        Some(id) => place_of_rule(rules, id),
        None => rules.len(),
    }
}

/// Whether a script rule names a run wrapper.
fn names_run_wrapper<F: Filters, S: Specs>(rule: &EvaluatedScriptRule<'_, F, S>) -> bool
    ensures { result
        ≡ is_some (meant_script_rule F.meaning rule.now).writes.scripts.run_wrapper }
{
    rule.rule().run_wrapper().is_some()
}

/// What the run wrapper of a test shows of a script rule: whether it holds, if it names one and the
/// search for that of the test reached it.
pub(crate) fn shown_of_script<F: Filters, S: Specs>(
    rule: &EvaluatedScriptRule<'_, F, S>,
    number: usize,
    passed: usize,
    are_distinct: bool,
) -> Option<bool>
    ensures shown { IfSome result (λ holds.
        IsTrue (is_some (meant_script_rule F.meaning rule.now).writes.scripts.run_wrapper)
        × IsShown are_distinct number passed holds) }
    ensures hidden { result ≡ None → IsHidden (λ holds.
        IsTrue (is_some (meant_script_rule F.meaning rule.now).writes.scripts.run_wrapper)
        × IsShown are_distinct number passed holds) }
{
    if names_run_wrapper(rule) {
        shown_by(number, passed, are_distinct)
    } else {
        None
    }
}
