//! Rules: what the overrides and the script rules of a file say once the engines have read their
//! texts.
use nextest_engines::{Filters, Specs};
use nextest_scripts::ScriptId;
use nextest_sources::ConfigSource;
use nextest_tables::{OverrideSettings, ScriptUses};
use std::alloc::AllocError;
use std::collections::BTreeMap;

/// Which override a value comes from.
#[derive(Debug, Drop, PartialEq, Eq, Hash)]
pub struct OverrideId {
    /// The source whose file has it.
    pub config_source: ConfigSource,
    /// The profile under which it appears.
    pub profile_name: String,
    /// Its position among the overrides of that profile in that file, from 0.
    pub index: usize,
}

impl Clone for OverrideId {
    ghost use Rattle.std.specs.Prelude.{◌≡◌};
    ghost use Rattle.nextest_rules.specs.View.{id_view};

    ghost is_clone = { λ id copy. id_view copy ≡ id_view id };

    fn clone(&self) -> Result<Self, AllocError> {
        Ok(OverrideId {
            config_source: self.config_source.clone()?,
            profile_name: self.profile_name.clone()?,
            index: self.index,
        })
    }
}

/// Which script rule wraps a test or enables a script.
#[derive(Debug, Drop, PartialEq, Eq, Hash)]
pub struct ScriptRuleId {
    /// The source whose file has the rule.
    pub config_source: ConfigSource,
    /// The profile that has the rule.
    pub profile_name: String,
    /// Its position among the script rules of that profile in that file, from 0.
    pub index: usize,
}

impl Clone for ScriptRuleId {
    ghost use Rattle.std.specs.Prelude.{◌≡◌};
    ghost use Rattle.nextest_rules.specs.View.{script_rule_id_view};

    ghost is_clone = { λ id copy. script_rule_id_view copy ≡ script_rule_id_view id };

    fn clone(&self) -> Result<Self, AllocError> {
        Ok(ScriptRuleId {
            config_source: self.config_source.clone()?,
            profile_name: self.profile_name.clone()?,
            index: self.index,
        })
    }
}

/// The platform specs of a rule: where one is absent, every platform meets it.
#[derive(Drop)]
pub struct PlatformSpecs<S: Specs> {
    /// What the host has to meet.
    pub host: Option<S::Spec>,
    /// What the platform has to meet which a binary runs on.
    pub target: Option<S::Spec>,
}

/// A default filter that the engine has read.
#[derive(Drop)]
pub struct ReadFilter<F: Filters> {
    /// What the engine makes of its text.
    pub expr: F::Expr,
    /// Its text, as it is written.
    pub text: String,
}

/// An override whose texts the engines have read.
#[derive(Drop)]
pub struct CompiledOverride<F: Filters, S: Specs> {
    pub(crate) id: OverrideId,
    pub(crate) platforms: PlatformSpecs<S>,
    pub(crate) filter: Option<F::Expr>,
    pub(crate) default_filter: Option<ReadFilter<F>>,
    pub(crate) settings: OverrideSettings,
}

impl<F: Filters, S: Specs> CompiledOverride<F, S> {
    ghost use Rattle.std.specs.Prelude.{◌≡◌, option_map};
    ghost use Rattle.nextest_rules.specs.View.{override_rule_view, id_view, read_filter_view};
    ghost use Rattle.nextest_tables.specs.View.{settings_view};

    /// Where the rule is.
    pub fn id(&self) -> &OverrideId
        ensures { id_view result.now ≡ (override_rule_view self.now).writes.id }
    {
        &self.id
    }

    /// The rule's filter of tests, where it has one.
    pub fn filter(&self) -> Option<&F::Expr>
        ensures { option_map (λ expr. expr.now) result ≡ (override_rule_view self.now).filter }
    {
        self.filter.as_ref()
    }

    /// The default filter that the rule sets, where it sets one.
    pub fn default_filter(&self) -> Option<&ReadFilter<F>>
        ensures { option_map (λ filter. read_filter_view filter.now) result
            ≡ (override_rule_view self.now).writes.default_filter }
    {
        self.default_filter.as_ref()
    }

    /// The rule's platform specs.
    pub fn platforms(&self) -> &PlatformSpecs<S>
        ensures host { result.now.host ≡ (override_rule_view self.now).host }
        ensures target { result.now.target ≡ (override_rule_view self.now).target }
    {
        &self.platforms
    }

    /// What the rule writes for each setting.
    pub fn settings(&self) -> &OverrideSettings
        ensures { settings_view result.now ≡ (override_rule_view self.now).writes.settings }
    {
        &self.settings
    }
}

/// A script rule whose texts the engines have read.
#[derive(Drop)]
pub struct CompiledProfileScripts<F: Filters, S: Specs> {
    pub(crate) id: ScriptRuleId,
    pub(crate) platforms: PlatformSpecs<S>,
    pub(crate) filter: Option<F::Expr>,
    pub(crate) scripts: ScriptUses,
}

impl<F: Filters, S: Specs> CompiledProfileScripts<F, S> {
    ghost use Rattle.std.specs.Prelude.{◌≡◌, map, option_map};
    ghost use Rattle.nextest_rules.specs.View.{script_rule_view, script_rule_id_view};
    ghost use Rattle.nextest_scripts.specs.ScriptId.{script_text};

    /// Which rule it is.
    pub fn id(&self) -> &ScriptRuleId
        ensures { script_rule_id_view result.now ≡ (script_rule_view self.now).writes.id }
    {
        &self.id
    }

    /// The setup scripts that the rule names, in the order of the file.
    pub fn setup(&self) -> &[ScriptId]
        ensures { map script_text result.now ≡ (script_rule_view self.now).writes.scripts.setup }
    {
        &self.scripts.setup
    }

    /// The wrapper that the rule names for binaries that list their tests.
    pub fn list_wrapper(&self) -> Option<&ScriptId>
        ensures { option_map (λ id. script_text id.now) result
            ≡ (script_rule_view self.now).writes.scripts.list_wrapper }
    {
        self.scripts.list_wrapper.as_ref()
    }

    /// The wrapper that the rule names for tests that run.
    pub fn run_wrapper(&self) -> Option<&ScriptId>
        ensures { option_map (λ id. script_text id.now) result
            ≡ (script_rule_view self.now).writes.scripts.run_wrapper }
    {
        self.scripts.run_wrapper.as_ref()
    }

    /// The rule's filter, where it has one.
    pub fn filter(&self) -> Option<&F::Expr>
        ensures { option_map (λ expr. expr.now) result ≡ (script_rule_view self.now).filter }
    {
        self.filter.as_ref()
    }

    /// The rule's platform specs.
    pub fn platforms(&self) -> &PlatformSpecs<S>
        ensures host { result.now.host ≡ (script_rule_view self.now).host }
        ensures target { result.now.target ≡ (script_rule_view self.now).target }
    {
        &self.platforms
    }
}

/// The rules and the default filter of a profile in one file.
#[derive(Drop)]
pub struct CompiledProfile<F: Filters, S: Specs> {
    /// The default filter that it writes.
    pub default_filter: Option<ReadFilter<F>>,
    /// Its overrides.
    pub overrides: Vec<CompiledOverride<F, S>>,
    /// Its script rules.
    pub scripts: Vec<CompiledProfileScripts<F, S>>,
}

/// The rules of one source, by profile and in the order of the file.
pub struct LayerRules<F: Filters, S: Specs> {
    /// The source.
    pub source: ConfigSource,
    /// The rules of each profile, by its name.
    pub profiles: BTreeMap<String, CompiledProfile<F, S>>,
}

// Written out, so that the proof of a caller sees one call and not the drop of each part.
impl<F: Filters, S: Specs> Drop for LayerRules<F, S> {
    fn drop(self) {
        let LayerRules {
            source: _source,
            profiles: _profiles,
        } = self;
    }
}
