//! The rules of a profile on the platforms of a build, and their values.
ghost use Rattle.std.specs.Prelude.{◌≡◌, ◌++◌, length, map, option_map, IfOk};
ghost use Rattle.nextest_elements.specs.declared.run_mode.NextestRunMode.{NextestRunMode};
ghost use Rattle.nextest_engines.specs.declared.queries.BuildPlatform.{BuildPlatform};
ghost use Rattle.nextest_settings.specs.Chains.{match_all_filter};
ghost use Rattle.nextest_settings.specs.Engines.{meets_by};
ghost use Rattle.nextest_settings.specs.FilterView.{filter_view};
ghost use Rattle.nextest_settings.specs.Index.{IsIndex, is_listed, names_wrapper, override_tests, script_tests, setting_list, wrapper_list};
ghost use Rattle.nextest_settings.specs.Platforms.{rule_on, default_filter_of};
ghost use Rattle.nextest_settings.specs.Settings.{is_set};
ghost use Rattle.nextest_settings.specs.View.{override_ref_view, script_rule_ref_view, evaluated_override_view, evaluated_script_rule_view};

use crate::default_filter::{CompiledDefaultFilter, default_filter_of};
use crate::gather::ChainRules;
use crate::index::{RuleIndex, Wrapper};
use crate::platforms::{
    EvaluatedOverride, EvaluatedScriptRule, evaluate_overrides, evaluate_script_rules,
};
use nextest_elements::NextestRunMode;
use nextest_engines::{BuildPlatform, BuildPlatforms, Filters, Specs};
use rule_lists::Row;
use std::alloc::{AllocError, Global};

/// The rules of a profile on the platforms of a build, in order, and the default filter that counts
/// there.
#[derive(Drop)]
pub struct EvaluatedRules<'cfg, F: Filters, S: Specs> {
    /// Overrides, the nearest profile first; their numbers begin at 0.
    pub overrides: Vec<EvaluatedOverride<'cfg, F, S>>,
    /// Script rules; their numbers go on behind those of the overrides.
    pub script_rules: Vec<EvaluatedScriptRule<'cfg, F, S>>,
    /// The filter that `default()` means in every one of them.
    pub default_filter: CompiledDefaultFilter<'cfg, F>,
    pub(crate) index: RuleIndex,
    /// The index is that of these rules.
    ghost index_is: { IsIndex overrides.items script_rules.items index },
}

impl<'cfg, F: Filters, S: Specs> ChainRules<'cfg, F, S> {
    /// These rules on the platforms of a build, over the default filter of the nearest profile, and
    /// the filter that matches everything. Each of them is there, in its place.
    pub fn evaluate(
        &self,
        alloc: Global,
        platforms: &BuildPlatforms<S::Platform>,
        nearest: Option<CompiledDefaultFilter<'cfg, F>>,
        match_all: &'cfg F::Expr,
    ) -> Result<EvaluatedRules<'cfg, F, S>, AllocError>
        ensures overrides { IfOk result (λ rules. map evaluated_override_view rules.overrides.items
            ≡ map (rule_on
            (meets_by S.Specs) platforms.now)
            (map override_ref_view self.now.overrides.items)) }
        ensures script_rules { IfOk result (λ rules.
            map evaluated_script_rule_view rules.script_rules.items
            ≡ map (rule_on
            (meets_by S.Specs) platforms.now)
            (map script_rule_ref_view self.now.script_rules.items)) }
        ensures same_overrides { IfOk result (λ rules.
            map (λ e. e.rule) rules.overrides.items ≡ self.now.overrides.items) }
        ensures same_script_rules { IfOk result (λ rules.
            map (λ e. e.rule) rules.script_rules.items ≡ self.now.script_rules.items) }
        ensures default_filter { IfOk result (λ rules. filter_view rules.default_filter
            ≡ default_filter_of (map evaluated_override_view rules.overrides.items)
            (option_map filter_view nearest.entry) (match_all_filter match_all.now)) }
    {
        let overrides = evaluate_overrides(alloc, &self.overrides, platforms)?;
        let script_rules = evaluate_script_rules(alloc, &self.script_rules, platforms)?;
        let index = RuleIndex::new(alloc, &overrides, &script_rules)?;
        let default_filter = default_filter_of(&overrides, nearest, match_all);
        Ok(EvaluatedRules {
            overrides,
            script_rules,
            default_filter,
            index,
        })
    }
}

impl<F: Filters, S: Specs> EvaluatedRules<'_, F, S> {
    ghost use Rattle.nextest_settings.specs.declared.index.Wrapper.{Wrapper};
    ghost use Rattle.nextest_elements.specs.declared.setting.Setting.{Setting};
    ghost use Rattle.rule_lists.specs.Lists.{IsListOf};
    ghost use Rattle.rule_lists.specs.Rows.{rows_of};

    /// The overrides that write a setting for binaries of a platform, in a mode.
    pub(crate) fn override_rows(&self, platform: BuildPlatform, mode: NextestRunMode) -> &[Row]
        ensures { result.now ≡ rows_of (override_tests platform mode) 0 self.now.overrides.items }
    {
        self.index.overrides(platform, mode)
    }

    /// The script rules that name a wrapper for binaries of a platform, numbered on from the
    /// overrides.
    pub(crate) fn wrapper_rows(&self, platform: BuildPlatform, wrapper: Wrapper) -> &[Row]
        ensures { result.now ≡ rows_of (script_tests platform wrapper)
            (length self.now.overrides.items) self.now.script_rules.items }
    {
        self.index.wrappers(platform, wrapper)
    }

    /// Each list is exactly the rising list of its rules, for binaries of each platform: that of a
    /// setting in a mode of the overrides whose platforms hold and which write it there, and that
    /// of a wrapper of the script rules whose platforms hold and which name it.
    pub fn law_lists(&self)
        ensures settings { (platform : BuildPlatform) (mode : NextestRunMode) (s : Setting)
            → IsListOf (is_listed platform (λ w. is_set w.settings mode s)) 0
            (map evaluated_override_view self.now.overrides.items)
            (setting_list self.now.index platform mode s) }
        ensures wrappers { (platform : BuildPlatform) (wrapper : Wrapper)
            → IsListOf (is_listed platform (names_wrapper wrapper))
            (length self.now.overrides.items)
            (map evaluated_script_rule_view self.now.script_rules.items)
            (wrapper_list self.now.index platform wrapper) }
    {}
}
