//! What a configuration keeps of a table, beside its rules.
ghost use Rattle.std.specs.Prelude.{◌≡◌, List, IfOk, IfSome, OnOk};
ghost use Rattle.nextest_engines.specs.Readings.{readings_view};
ghost use Rattle.nextest_load.specs.Config.{merged_profile};
ghost use Rattle.nextest_load.specs.ConfigView.{merged_profile_view};
ghost use Rattle.nextest_load.specs.Kept.{IsKeptOf, all_without_fields, no_fields, profiles_alone, without_fields, without_profiles};
ghost use Rattle.nextest_load.specs.Merged.{profiles_of};
ghost use Rattle.nextest_load.specs.Steps.{profiles_in};
ghost use Rattle.nextest_rules.specs.Known.{known_names, known_to, sets_of};
ghost use Rattle.nextest_rules.specs.KnownView.{known_view};
ghost use Rattle.nextest_rules.specs.Meaning.{layer_meaning};
ghost use Rattle.nextest_rules.specs.Rules.{layer_of};
ghost use Rattle.nextest_rules.specs.Steps.{rule_steps};
ghost use Rattle.nextest_rules.specs.View.{layer_view};
ghost use Rattle.nextest_sources.specs.Endings.{Ran, ending};
ghost use Rattle.nextest_sources.specs.Sources.{source_view};
ghost use Rattle.nextest_tables.specs.FileTexts.{FileText};
ghost use Rattle.nextest_tables.specs.Scripts.{file_scripts_view};
ghost use Rattle.nextest_tables.specs.View.{by_name, fields_view, file_table_view, profile_view};

use crate::loaded_config::MergedProfile;
use crate::source::SourceFile;
use nextest_engines::{Filters, ParseContext, Specs};
use nextest_rules::{KnownNames, LayerRules, check_rules};
use nextest_sources::{ConfigParseError, ConfigWarnings};
use nextest_tables::{
    FileTable, ProfileEnds, ProfileFields, ProfileOutputs, ProfileRuns, ProfileTable, ScriptsTable,
};
use std::alloc::{AllocError, Global};
use std::collections::BTreeMap;

/// What a configuration keeps of a table: all but its rules.
#[derive(Drop)]
pub(crate) struct KeptTable {
    /// The table without its profiles.
    pub(crate) rest: FileTable,
    /// Its profiles without their rules.
    pub(crate) profiles: BTreeMap<String, MergedProfile>,
}

/// The rules of a table, and what was kept of it, if the caller keeps it.
#[derive(Drop)]
pub(crate) struct CheckedTable<F: Filters, S: Specs> {
    pub(crate) rules: LayerRules<F, S>,
    pub(crate) kept: Option<KeptTable>,
}

/// Fields of which none is written.
fn no_fields() -> ProfileFields
    ensures { fields_view result ≡ no_fields }
{
    ProfileFields {
        runs: ProfileRuns {
            retries: None,
            flaky_result: None,
            test_threads: None,
            threads_required: None,
            run_extra_args: None,
        },
        outputs: ProfileOutputs {
            status_level: None,
            final_status_level: None,
            failure_output: None,
            success_output: None,
        },
        ends: ProfileEnds {
            max_fail: None,
            slow_timeout: None,
            global_timeout: None,
            leak_timeout: None,
        },
        junit: None,
        bench: None,
    }
}

/// A profile without its fields, and without its rules. Both have its parent.
fn split_profile(profile: ProfileTable) -> Result<(ProfileTable, MergedProfile), AllocError>
    ensures rules { IfOk result
        (λ split. profile_view split.0 ≡ without_fields (profile_view profile)) }
    ensures kept { IfOk result
        (λ split. merged_profile_view split.1 ≡ merged_profile (profile_view profile)) }
{
    let ProfileTable {
        default_filter,
        fields,
        overrides,
        scripts,
        inherits,
    } = profile;
    let kept = MergedProfile {
        inherits: inherits.clone()?,
        fields,
    };
    let rules = ProfileTable {
        default_filter,
        fields: no_fields(),
        overrides,
        scripts,
        inherits,
    };
    Ok((rules, kept))
}

/// Profiles without their fields, and without their rules.
fn split_profiles(
    alloc: Global,
    profiles: BTreeMap<String, ProfileTable>,
) -> Result<
    (
        BTreeMap<String, ProfileTable>,
        BTreeMap<String, MergedProfile>,
    ),
    AllocError,
>
    ensures rules { IfOk result
        (λ split. by_name profile_view split.0.entries
        ≡ all_without_fields (by_name profile_view profiles.entries)) }
    ensures kept { IfOk result
        (λ split. by_name merged_profile_view split.1.entries
        ≡ profiles_of (by_name profile_view profiles.entries)) }
{
    let mut rules = BTreeMap::new(alloc);
    let mut kept = BTreeMap::new(alloc);
    for (name, profile) in profiles {
        let (ruled, merged) = split_profile(profile)?;
        drop(rules.insert(name.clone()?, ruled)?);
        drop(kept.insert(name, merged)?);
    }
    Ok((rules, kept))
}

/// A table without its profiles, and these.
pub(crate) fn take_profiles(
    alloc: Global,
    table: FileTable,
) -> (FileTable, BTreeMap<String, ProfileTable>)
    ensures rest { file_table_view result.0 ≡ without_profiles (file_table_view table) }
    ensures scripts { file_scripts_view result.0 ≡ file_scripts_view table }
    ensures profiles { by_name profile_view result.1.entries ≡ (file_table_view table).profiles }
{
    let FileTable {
        store_dir,
        test_groups,
        script,
        scripts,
        profiles,
    } = table;
    let rest = FileTable {
        store_dir,
        test_groups,
        script,
        scripts,
        profiles: BTreeMap::new(alloc),
    };
    (rest, profiles)
}

/// The table of these profiles, and of nothing else.
fn table_of_profiles(alloc: Global, profiles: BTreeMap<String, ProfileTable>) -> FileTable
    ensures { file_table_view result ≡ profiles_alone (by_name profile_view profiles.entries) }
{
    FileTable {
        store_dir: String::new(alloc),
        test_groups: BTreeMap::new(alloc),
        script: BTreeMap::new(alloc),
        scripts: ScriptsTable {
            setup: BTreeMap::new(alloc),
            wrapper: BTreeMap::new(alloc),
        },
        profiles,
    }
}

/// The rules of a table over those below it, or its first fault. Its names go to those that are
/// known.
///
/// Of the lowest source, which may stay the only one, what a configuration keeps is kept. Its
/// groups and scripts are known before its rules are checked, so that the rules need profiles alone.
pub(crate) fn check_table<F: Filters, S: Specs, W: ConfigWarnings>(
    alloc: Global,
    pcx: &ParseContext<'_, F, S>,
    known: &mut KnownNames,
    file: &SourceFile<'_>,
    table: FileTable,
    warnings: &mut W,
) -> Result<CheckedTable<F, S>, ConfigParseError>
    ensures ran { let engines = readings_view F.Filters S.Specs pcx.now in
        (below : List FileText) → known_view known.old ≡ sets_of (known_names below)
        → Ran (rule_steps engines (profiles_in below)
        (sets_of (known_to below (file_table_view table))) (source_view file.now.source.now)
        (file_table_view table))
        (W.warnings warnings.old) (W.warnings warnings.new) (ending result) }
    ensures rules { let engines = readings_view F.Filters S.Specs pcx.now in
        IfOk result
        (λ checked. layer_meaning F.meaning S.spec_meaning (layer_view checked.rules)
        ≡ layer_of engines (source_view file.now.source.now) (file_table_view table).profiles) }
    ensures known { (below : List FileText) → known_view known.old ≡ sets_of (known_names below)
        → OnOk result (known_view known.new ≡ sets_of (known_to below (file_table_view table))) }
    ensures kept { IfOk result (λ checked. IfSome checked.kept (IsKeptOf table)) }
{
    if !file.is_lowest {
        let rules = check_rules(alloc, pcx, file.source, known, table, warnings)?;
        return Ok(CheckedTable { rules, kept: None });
    }
    let (rest, profiles) = take_profiles(alloc, table);
    let (ruled, profiles) = split_profiles(alloc, profiles)?;
    known.add(&rest)?;
    let ruled = table_of_profiles(alloc, ruled);
    let rules_alone = check_rules(alloc, pcx, file.source, known, ruled, warnings)?;
    Ok(CheckedTable {
        rules: rules_alone,
        kept: Some(KeptTable { rest, profiles }),
    })
}
