//! A loaded configuration.
use crate::merged::MergedTables;
use indexmap::IndexMap;
use nextest_elements::{CustomTestGroup, TestGroupConfig};
use nextest_engines::{Filters, Specs};
use nextest_rules::LayerRules;
use nextest_scripts::{ScriptId, SetupScriptConfig, WrapperScriptConfig};
use nextest_tables::ProfileFields;
use std::collections::BTreeMap;
use std::marker::Model;

/// A profile of the merged tree: the profile that it inherits from, and what it writes.
#[derive(Drop)]
pub struct MergedProfile {
    /// The name of its parent, as it is written; none is `default`.
    pub inherits: Option<String>,
    /// Its settings, each as the highest file writes it.
    pub fields: ProfileFields,
}

/// The scripts of a configuration, by id and in the order in which its files define them: those of
/// the lowest file first, and in a file as they appear there. Setup scripts under the old key
/// `script` come after all others.
#[derive(Drop)]
pub struct ScriptConfig {
    /// Setup scripts, in the order in which they run.
    pub setup: IndexMap<ScriptId, SetupScriptConfig>,
    /// Wrapper scripts.
    pub wrapper: IndexMap<ScriptId, WrapperScriptConfig>,
}

/// What load makes of its sources: the profiles, the groups and the scripts of the merged tree, and
/// the rules of every source.
pub struct LoadedConfig<F: Filters, S: Specs> {
    store_dir: String,
    profiles: BTreeMap<String, MergedProfile>,
    test_groups: BTreeMap<CustomTestGroup, TestGroupConfig>,
    scripts: ScriptConfig,
    layers: Vec<LayerRules<F, S>>,
    match_all: F::Expr,
}

// Written out, so that the proof of a caller sees one call and not the drop of each part.
impl<F: Filters, S: Specs> Drop for LoadedConfig<F, S> {
    fn drop(self) {
        let LoadedConfig {
            store_dir: _store_dir,
            profiles: _profiles,
            test_groups: _test_groups,
            scripts: _scripts,
            layers: _layers,
            match_all: _match_all,
        } = self;
    }
}

impl<F: Filters, S: Specs> Model for LoadedConfig<F, S> {
    ghost use Rattle.std.specs.Prelude.{map, Some, string_bytes};
    ghost use Rattle.nextest_load.specs.Load.{Loaded};

    ghost Value = { Loaded F.Expr S.Spec };

    ghost use Rattle.nextest_tables.specs.View.{by_name};
    ghost use Rattle.nextest_rules.specs.View.{layer_view};
    ghost use Rattle.nextest_load.specs.ConfigView.{groups_view, merged_profile_view, scripts_view};

    ghost view = { λ c. record {
      config = record {
        store_dir = Some (string_bytes c.store_dir);
        profiles = by_name merged_profile_view c.profiles.entries;
        groups = groups_view c.test_groups.entries;
        layers = map layer_view c.layers.items;
        match_all = c.match_all;
      };
      scripts = scripts_view c.scripts;
    } };

    ghost use Rattle.nextest_load.specs.Closed.{IsClosed};
    ghost use Rattle.nextest_load.specs.Meaning.{config_meaning};

    /// Nothing undefined is named.
    ghost invariant = { λ c. IsClosed F.holds_binary
        (config_meaning F.meaning S.spec_meaning (record {
          store_dir = Some (string_bytes c.store_dir);
          profiles = by_name merged_profile_view c.profiles.entries;
          groups = groups_view c.test_groups.entries;
          layers = map layer_view c.layers.items;
          match_all = c.match_all;
        }))
        (scripts_view c.scripts) };
}

impl<F: Filters, S: Specs> LoadedConfig<F, S> {
    ghost use Rattle.std.specs.Prelude.{◌≡◌, map, Some, string_bytes};
    ghost use Rattle.nextest_tables.specs.View.{by_name};
    ghost use Rattle.nextest_rules.specs.View.{layer_view};
    ghost use Rattle.nextest_load.specs.Closed.{IsClosed};
    ghost use Rattle.nextest_load.specs.ConfigView.{groups_view, merged_profile_view, scripts_view};
    ghost use Rattle.nextest_load.specs.Meaning.{config_meaning};
    ghost use Rattle.nextest_load.specs.Parts.{config_parts};

    /// The configuration of parts in which nothing undefined is named.
    pub(crate) fn new(
        tables: MergedTables,
        layers: Vec<LayerRules<F, S>>,
        match_all: F::Expr,
    ) -> Self
        requires { IsClosed F.holds_binary
            (config_meaning F.meaning S.spec_meaning (config_parts tables layers.items match_all))
            (scripts_view tables.scripts) }
        ensures { result ≡ record {
          config = config_parts tables layers.items match_all;
          scripts = scripts_view tables.scripts;
        } }
    {
        let MergedTables {
            store_dir,
            profiles,
            test_groups,
            scripts,
        } = tables;
        LoadedConfig {
            store_dir,
            profiles,
            test_groups,
            scripts,
            layers,
            match_all,
        }
    }

    /// The directory of the store, as the files write it.
    pub fn store_dir(&self) -> &str
        ensures { Some result.now ≡ self.now.config.store_dir }
    {
        self.store_dir.as_str()
    }

    /// The profiles of the merged tree, by name.
    pub fn profiles(&self) -> &BTreeMap<String, MergedProfile>
        ensures profiles { by_name merged_profile_view result.now.entries
            ≡ self.now.config.profiles }
        ensures closed { let meaning = config_meaning F.meaning S.spec_meaning self.now.config in
            IsClosed F.holds_binary meaning self.now.scripts }
    {
        &self.profiles
    }

    /// The groups that the merged tree defines.
    pub fn test_groups(&self) -> &BTreeMap<CustomTestGroup, TestGroupConfig>
        ensures { groups_view result.now.entries ≡ self.now.config.groups }
    {
        &self.test_groups
    }

    /// The scripts, in their order.
    pub fn scripts(&self) -> &ScriptConfig
        ensures { scripts_view result.now ≡ self.now.scripts }
    {
        &self.scripts
    }

    /// The rules of every source, the highest first.
    pub fn layers(&self) -> &[LayerRules<F, S>]
        ensures { map layer_view result.now ≡ self.now.config.layers }
    {
        &self.layers
    }

    /// The filter that matches everything, as the engine made it.
    pub fn match_all(&self) -> &F::Expr
        ensures { result.now ≡ self.now.config.match_all }
    {
        &self.match_all
    }
}
