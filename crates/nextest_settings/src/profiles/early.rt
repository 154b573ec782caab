//! Profiles before the platforms of a build are known.
ghost use Rattle.std.specs.Prelude.{◌≡◌, Some, IfOk, IfErr, is_some, option_map};
ghost use Rattle.nextest_load.specs.ConfigView.{groups_view};
ghost use Rattle.nextest_settings.specs.Engines.{meets_by};
ghost use Rattle.nextest_settings.specs.FilterView.{filter_view};
ghost use Rattle.nextest_settings.specs.Profile.{profile_on};
ghost use Rattle.nextest_settings.specs.SettingValues.{by_kind, setting_value_view};
ghost use Rattle.nextest_settings.specs.Settings.{fallback_of, report_path};
ghost use Rattle.nextest_tables.specs.FileTexts.{names_in, IsIn};
ghost use Rattle.nextest_settings.specs.Profiles.KnownGroups.{IsKnownGroups};
ghost use Rattle.nextest_settings.specs.Profiles.Profiles.{IsProfileOf};
ghost use Rattle.nextest_settings.specs.Profiles.RulesOn.{AreOverridesOn, AreScriptRulesOn};

use crate::default_filter::{CompiledDefaultFilter, nearest_filter};
use crate::evaluated::EvaluatedRules;
use crate::gather::{ChainRules, rules_of};
use crate::profiles::chain::names_of;
use crate::profiles::evaluatable::EvaluatableProfile;
use crate::profiles::facts::Facts;
use crate::profiles::known_groups::{KnownGroups, names_of_groups};
use crate::setting_value::SettingValue;
use nextest_elements::{CustomTestGroup, NextestRunMode, Setting, TestGroupConfig};
use nextest_engines::{BuildPlatforms, Filters, Specs};
use nextest_load::LoadedConfig;
use std::alloc::{AllocError, Global};
use std::collections::BTreeMap;
use std::marker::Model;

/// A profile before the platforms of a build are known.
#[derive(Drop)]
pub struct EarlyProfile<'cfg, F: Filters, S: Specs> {
    facts: Facts<'cfg>,
    rules: ChainRules<'cfg, F, S>,
    nearest_filter: Option<CompiledDefaultFilter<'cfg, F>>,
    match_all: &'cfg F::Expr,
}

impl<'cfg, F: Filters, S: Specs> Model for EarlyProfile<'cfg, F, S> {
    ghost use Rattle.std.specs.Prelude.{map, option_map};
    ghost use Rattle.nextest_settings.specs.Profile.{EarlyModel};

    ghost Value = { EarlyModel F.Expr S.Spec };

    ghost use Rattle.nextest_settings.specs.FilterView.{filter_view};
    ghost use Rattle.nextest_settings.specs.View.{override_ref_view, script_rule_ref_view};

    ghost view = { λ p. record {
      facts = p.facts;
      overrides = map override_ref_view p.rules.overrides.items;
      script_rules = map script_rule_ref_view p.rules.script_rules.items;
      nearest_filter = option_map filter_view p.nearest_filter;
      match_all = p.match_all.now;
    } };

    ghost use Rattle.nextest_settings.specs.Profiles.Known.{KnowsScripts, AnswerLists, named_use};

    /// The scripts that rules name are there, and each filter beside a list wrapper has a value for
    /// each binary.
    ghost invariant = { λ p. KnowsScripts p.facts.scripts
        (map named_use p.rules.script_rules.items)
        × AnswerLists F.meaning S.spec_meaning F.holds_binary p.rules.script_rules.items };
}

impl<'cfg, F: Filters, S: Specs> EarlyProfile<'cfg, F, S> {
    /// The profile of a name.
    pub fn new(
        alloc: Global,
        workspace_root: &str,
        config: &'cfg LoadedConfig<F, S>,
        name: &'cfg str,
    ) -> Result<EarlyProfile<'cfg, F, S>, AllocError>
        requires { IsIn (names_in config.now.config.profiles) name.now }
        ensures { IfOk result (IsProfileOf (record {
          root = workspace_root.now;
          config = config.now.config;
          scripts = config.now.scripts;
        }) name.now) }
    {
        let names = names_of(alloc, config.profiles(), name)?;
        let layers = config.layers();
        Ok(EarlyProfile {
            facts: Facts::new(alloc, workspace_root, config, name, &names)?,
            rules: rules_of(alloc, layers, &names)?,
            nearest_filter: nearest_filter(layers, &names),
            match_all: config.match_all(),
        })
    }

    /// The directory in which the profile stores what it writes.
    pub fn store_dir(&self) -> &str
        ensures { Some result.now ≡ self.now.facts.store_dir }
    {
        self.facts.store_dir()
    }

    /// Whether a report is written.
    pub fn has_junit(&self) -> bool
        ensures { result ≡ is_some (report_path self.now.facts.fields) }
    {
        self.facts.has_junit()
    }

    /// The groups that the configuration defines, by name.
    pub fn test_group_config(&self) -> &'cfg BTreeMap<CustomTestGroup, TestGroupConfig>
        ensures { groups_view result.now.entries ≡ self.now.facts.groups }
    {
        self.facts.test_groups()
    }

    /// The groups that filters may name.
    pub fn known_groups(&self, alloc: Global) -> Result<KnownGroups, AllocError>
        ensures { IfOk result (IsKnownGroups (names_in self.now.facts.groups)) }
    {
        let custom_groups = names_of_groups(alloc, self.facts.test_groups())?;
        Ok(KnownGroups::Known { custom_groups })
    }

    /// Returns the value of a setting where no rule sets it, in a mode.
    pub fn fallback(&self, setting: Setting, mode: NextestRunMode) -> Option<SettingValue<'cfg>>
        ensures { option_map setting_value_view result
            ≡ option_map (by_kind setting) (fallback_of self.now.facts.fields mode setting) }
    {
        self.facts.fallback(setting, mode)
    }

    /// The rules of the profile on the platforms of a build, each in its place, and the default
    /// filter that counts there.
    pub fn rules_on(
        &self,
        alloc: Global,
        platforms: &BuildPlatforms<S::Platform>,
    ) -> Result<EvaluatedRules<'cfg, F, S>, AllocError>
        ensures overrides { IfOk result (λ rules. AreOverridesOn (meets_by S.Specs) platforms.now
            self.now.overrides rules.overrides.items) }
        ensures script_rules { IfOk result (λ rules. AreScriptRulesOn (meets_by S.Specs)
            platforms.now self.now.script_rules rules.script_rules.items) }
        ensures default_filter { IfOk result (λ rules. filter_view rules.default_filter
            ≡ (profile_on (meets_by S.Specs) platforms.now self.now).default_filter) }
    {
        self.rules
            .evaluate(alloc, platforms, self.nearest_filter, self.match_all)
    }

    /// The profile on the platforms of a build. Where memory is refused, the profile comes back as
    /// it was.
    pub fn apply_build_platforms(
        self,
        alloc: Global,
        platforms: &BuildPlatforms<S::Platform>,
    ) -> Result<EvaluatableProfile<'cfg, F, S>, EarlyProfile<'cfg, F, S>>
        ensures ok { IfOk result (λ profile. profile
            ≡ profile_on (meets_by S.Specs) platforms.now
            self.entry) }
        ensures err { IfErr result (λ profile. profile ≡ self.entry) }
    {
        match self.rules_on(alloc, platforms) {
            Ok(rules) => {
                let EarlyProfile {
                    facts,
                    rules: _rules,
                    ..
                } = self;
                Ok(EvaluatableProfile::new(facts, rules))
            }
            Err(_) => Err(self),
        }
    }
}
