//! What a profile says whatever the platforms.
use crate::fallback::fallback_of;
use crate::gather::fields_of;
use crate::setting_value::SettingValue;
use crate::values::{ProfileValues, values_of};
use nextest_elements::{CustomTestGroup, JunitConfig, NextestRunMode, Setting, TestGroupConfig};
use nextest_engines::{Filters, Specs};
use nextest_inheritance::parent_of;
use nextest_load::{LoadedConfig, ScriptConfig};
use nextest_scripts::join_paths;
use nextest_tables::ProfileFields;
use std::alloc::{AllocError, Global};
use std::collections::BTreeMap;
use std::marker::Model;

/// What a profile says whatever the platforms.
#[derive(Drop)]
pub(crate) struct Facts<'cfg> {
    name: &'cfg str,
    inherits: Option<&'cfg str>,
    store_dir: String,
    test_groups: &'cfg BTreeMap<CustomTestGroup, TestGroupConfig>,
    scripts: &'cfg ScriptConfig,
    fields: Vec<&'cfg ProfileFields>,
    values: ProfileValues<'cfg>,
}

impl<'cfg> Model for Facts<'cfg> {
    ghost use Rattle.std.specs.Prelude.{map, Some, option_map, string_bytes};
    ghost use Rattle.nextest_settings.specs.Profile.{ProfileFacts};

    ghost Value = { ProfileFacts };

    ghost use Rattle.nextest_load.specs.ConfigView.{groups_view, scripts_view};
    ghost use Rattle.nextest_settings.specs.View.{fields_ref_view};

    ghost view = { λ g. record {
      name = g.name.now;
      parent = option_map (λ parent. parent.now) g.inherits;
      store_dir = Some (string_bytes g.store_dir);
      groups = groups_view g.test_groups.now.entries;
      scripts = scripts_view g.scripts.now;
      fields = map fields_ref_view g.fields.items;
    } };

    ghost use Rattle.nextest_settings.specs.ChainValues.{AreValues};

    /// The values are those of the fields.
    ghost invariant = { λ g. AreValues (map fields_ref_view g.fields.items) g.values };
}

impl<'cfg> Facts<'cfg> {
    ghost use Rattle.std.specs.Prelude.{◌≡◌, List, Some, IfOk, is_some, option_map};
    ghost use Rattle.nextest_load.specs.ConfigView.{groups_view, scripts_view};
    ghost use Rattle.nextest_settings.specs.SettingValues.{by_kind, setting_value_view};
    ghost use Rattle.nextest_settings.specs.Settings.{fallback_of, report_path};
    ghost use Rattle.nextest_settings.specs.Profiles.Junit.{IsReportWhereSet};
    ghost use Rattle.nextest_inheritance.specs.View.{borrowed_view};
    ghost use Rattle.nextest_inheritance.specs.Parents.{with_default};
    ghost use Rattle.nextest_settings.specs.ChainValues.{AreValues};
    ghost use Rattle.nextest_settings.specs.Profile.{facts_of};
    ghost use Rattle.nextest_tables.specs.Written.{Name};
    ghost use Rattle.nextest_settings.specs.Profiles.Profiles.{EndInDefault};

    /// What the profile of a name says, of which these are the profiles that count, the nearest
    /// first.
    pub(crate) fn new<F: Filters, S: Specs>(
        alloc: Global,
        workspace_root: &str,
        config: &'cfg LoadedConfig<F, S>,
        name: &'cfg str,
        names: &[&str],
    ) -> Result<Facts<'cfg>, AllocError>
        requires { EndInDefault (borrowed_view names.now) }
        ensures { (chain : List Name) → borrowed_view names.now ≡ with_default chain
            → IfOk result (λ facts. facts ≡ facts_of (record {
              root = workspace_root.now;
              config = config.now.config;
              scripts = config.now.scripts;
            }) name.now chain) }
    {
        let profiles = config.profiles();
        let store_dir = join_paths(alloc, workspace_root, config.store_dir())?;
        let fields = fields_of(alloc, profiles, names)?;
        let values = values_of(&fields);
        Ok(Facts {
            name,
            inherits: parent_of(profiles, name),
            store_dir: join_paths(alloc, &store_dir, name)?,
            test_groups: config.test_groups(),
            scripts: config.scripts(),
            fields,
            values,
        })
    }

    /// The values of the profile's fields.
    pub(crate) fn values(&self) -> &ProfileValues<'cfg>
        ensures { AreValues self.now.fields result.now }
    {
        &self.values
    }

    /// Returns the value of a setting where no rule sets it, in a mode.
    pub(crate) fn fallback(
        &self,
        setting: Setting,
        mode: NextestRunMode,
    ) -> Option<SettingValue<'cfg>>
        ensures { option_map setting_value_view result
            ≡ option_map (by_kind setting) (fallback_of self.now.fields mode setting) }
    {
        fallback_of(&self.fields, setting, mode)
    }

    /// The profile's name.
    pub(crate) fn name(&self) -> &'cfg str
        ensures { result.now ≡ self.now.name }
    {
        self.name
    }

    /// The parent that the profile writes, if it writes one.
    pub(crate) fn inherits(&self) -> Option<&'cfg str>
        ensures { option_map (λ parent. parent.now) result ≡ self.now.parent }
    {
        self.inherits
    }

    /// The directory in which the profile stores what it writes.
    pub(crate) fn store_dir(&self) -> &str
        ensures { Some result.now ≡ self.now.store_dir }
    {
        self.store_dir.as_str()
    }

    /// The groups that the configuration defines, by name.
    pub(crate) fn test_groups(&self) -> &'cfg BTreeMap<CustomTestGroup, TestGroupConfig>
        ensures { groups_view result.now.entries ≡ self.now.groups }
    {
        self.test_groups
    }

    /// The scripts that the configuration defines, in their order.
    pub(crate) fn scripts(&self) -> &'cfg ScriptConfig
        ensures { scripts_view result.now ≡ self.now.scripts }
    {
        self.scripts
    }

    /// Whether a report is written.
    pub(crate) fn has_junit(&self) -> bool
        ensures { result ≡ is_some (report_path self.now.fields) }
    {
        self.values.report.path.is_some()
    }

    /// The report of the run, if one is written.
    pub(crate) fn junit(&self, alloc: Global) -> Result<Option<JunitConfig>, AllocError>
        ensures { IfOk result (IsReportWhereSet self.now) }
    {
        let report = self.values.report;
        let Some(path) = report.path else {
            return Ok(None);
        };
        Ok(Some(JunitConfig {
            path: join_paths(alloc, self.store_dir(), path)?,
            report_name: String::from_str(alloc, report.name)?,
            store_success_output: report.stored.success_output,
            store_failure_output: report.stored.failure_output,
            report_skipped: report.stored.skipped,
            flaky_fail_status: report.stored.flaky_fail_status,
        }))
    }
}
