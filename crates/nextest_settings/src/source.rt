//! What decides a setting.
ghost use Rattle.std.specs.Prelude.{◌≡◌, ⊤, Some};
ghost use Rattle.nextest_rules.specs.Rules.{Compiled, OverrideUse, ScriptRuleUse};
ghost use Rattle.nextest_rules.specs.View.{id_view, override_rule_view, script_rule_view};
ghost use Rattle.nextest_settings.specs.Queries.{Origin, unwritten, by_profile, by_override, by_script, fallback_origin};
ghost use Rattle.nextest_settings.specs.SourceView.{setting_source_view, source_override, source_use, MarksOrigin};

use nextest_elements::Setting;
use nextest_engines::{Filters, Specs};
use nextest_rules::{CompiledOverride, CompiledProfileScripts};

/// A mark of what decides a setting, or no mark at all.
pub trait TrackSource<'p, F: Filters, S: Specs> {
    /// Whether a mark is right for an origin.
    ghost shows: { Self → Origin → Type 0 };

    /// Whether a mark is right for an override.
    ghost shows_override: { Self → Compiled F.Expr S.Spec (OverrideUse F.Expr) → Type 0 };

    /// Whether a mark is right for a script rule that writes this.
    ghost shows_use: { Self → ScriptRuleUse → Type 0 };

    /// Nothing that is written decides it.
    fn default_mark() -> Self
        ensures { shows result unwritten };

    /// The profile decides it.
    fn profile_mark() -> Self
        ensures { shows result by_profile };

    /// An override decides it.
    fn override_mark(rule: &'p CompiledOverride<F, S>) -> Self
        ensures origin { shows result (by_override (override_rule_view rule.now).writes.id) }
        ensures rule { shows_override result (override_rule_view rule.now) };

    /// A script rule decides it.
    fn script_mark(rule: &'p CompiledProfileScripts<F, S>) -> Self
        ensures origin { shows result by_script }
        ensures rule { shows_use result (script_rule_view rule.now).writes };
}

impl<'p, F: Filters, S: Specs> TrackSource<'p, F, S> for () {
    ghost shows = { λ _ _. ⊤ };

    ghost shows_override = { λ _ _. ⊤ };

    ghost shows_use = { λ _ _. ⊤ };

    fn default_mark() {}

    fn profile_mark() {}

    fn override_mark(rule: &'p CompiledOverride<F, S>) {
        let _rule = rule;
    }

    fn script_mark(rule: &'p CompiledProfileScripts<F, S>) {
        let _rule = rule;
    }
}

/// What decides a setting.
#[derive_where(Clone, Copy)]
pub enum SettingSource<'p, F: Filters, S: Specs> {
    /// Nothing that is written.
    Default,
    /// The profile.
    Profile,
    /// This override.
    Override(&'p CompiledOverride<F, S>),
    /// This script rule.
    Script(&'p CompiledProfileScripts<F, S>),
}

impl<'p, F: Filters, S: Specs> TrackSource<'p, F, S> for SettingSource<'p, F, S> {
    ghost shows = { λ source origin. setting_source_view source ≡ origin };

    ghost shows_override = { λ source rule. source_override source ≡ Some rule };

    ghost shows_use = { λ source uses. source_use source ≡ Some uses };

    fn default_mark() -> SettingSource<'p, F, S> {
        SettingSource::Default
    }

    fn profile_mark() -> SettingSource<'p, F, S> {
        SettingSource::Profile
    }

    fn override_mark(rule: &'p CompiledOverride<F, S>) -> SettingSource<'p, F, S> {
        SettingSource::Override(rule)
    }

    fn script_mark(rule: &'p CompiledProfileScripts<F, S>) -> SettingSource<'p, F, S> {
        SettingSource::Script(rule)
    }
}

/// The mark of a setting that no rule decides.
pub(crate) fn fallback_mark<'p, F: Filters, S: Specs, Source: TrackSource<'p, F, S>>(
    setting: Setting,
) -> Option<Source>
    ensures { MarksOrigin Source.shows result (fallback_origin setting) }
{
    match setting {
        Setting::Priority => Some(Source::default_mark()),
        Setting::RunWrapper => None,
        _ => Some(Source::profile_mark()),
    }
}
