//! The merged tree: what a configuration keeps of all sources together.
ghost use Rattle.std.specs.Prelude.{◌≡◌, List, IfOk, IfSome};
ghost use Rattle.nextest_inheritance.specs.Faults.{inheritance_faults};
ghost use Rattle.nextest_inheritance.specs.View.{parents_view};
ghost use Rattle.nextest_load.specs.Closed.{HasDefaults};
ghost use Rattle.nextest_load.specs.Config.{merged_profile};
ghost use Rattle.nextest_load.specs.ConfigView.{merged_profile_view, scripts_view};
ghost use Rattle.nextest_load.specs.Kept.{IsKept, IsKeptOf};
ghost use Rattle.nextest_load.specs.Merged.{parent_in, profiles_of, tables_view, tables_of};
ghost use Rattle.nextest_load.specs.ScriptNames.{AreScriptNames};
ghost use Rattle.nextest_load.specs.Scripts.{AreScriptsOf};
ghost use Rattle.nextest_load.specs.Steps.{no_profiles, tree_steps};
ghost use Rattle.nextest_load.specs.Trees.{merged_tree};
ghost use Rattle.nextest_rules.specs.Steps.{if_some};
ghost use Rattle.nextest_sources.specs.Causes.{bad_parents};
ghost use Rattle.nextest_sources.specs.Endings.{Found, Ran, ending};
ghost use Rattle.nextest_sources.specs.InputFaults.{fault_at_source};
ghost use Rattle.nextest_sources.specs.Inputs.{SourceText};
ghost use Rattle.nextest_sources.specs.Sources.{source_view};
ghost use Rattle.nextest_sources.specs.Warnings.{Warning};
ghost use Rattle.nextest_tables.specs.Complete.{IsMergedTree};
ghost use Rattle.nextest_tables.specs.FileTexts.{file_text};
ghost use Rattle.nextest_tables.specs.View.{by_name, profile_view};
ghost use Rattle.nextest_tree.specs.Node.{Node};
ghost use Rattle.nextest_tree.specs.View.{tree_view};

use crate::kept::{KeptTable, take_profiles};
use crate::loaded_config::{MergedProfile, ScriptConfig};
use crate::scripts::{ScriptNames, script_config};
use crate::source::read_elements;
use nextest_elements::{CustomTestGroup, TestGroupConfig};
use nextest_inheritance::{Inherits, inheritance_errors};
use nextest_sources::{ConfigParseError, ConfigParseErrorKind, ConfigSource};
use nextest_tables::{FileTable, ProfileTable};
use nextest_tree::Tree;
use std::alloc::{AllocError, Global};
use std::collections::{BTreeMap, BTreeSet};

impl Inherits for MergedProfile {
    ghost use Rattle.nextest_load.specs.Merged.{parent_in};

    ghost parent = { parent_in };

    fn inherits(&self) -> Option<&str> {
        self.inherits.as_deref()
    }
}

/// What a configuration keeps of the merged tree.
#[derive(Drop)]
pub(crate) struct MergedTables {
    pub(crate) store_dir: String,
    pub(crate) profiles: BTreeMap<String, MergedProfile>,
    pub(crate) test_groups: BTreeMap<CustomTestGroup, TestGroupConfig>,
    pub(crate) scripts: ScriptConfig,
}

/// What a profile is without its rules.
fn merged_profile(profile: ProfileTable) -> MergedProfile
    ensures { merged_profile_view result ≡ merged_profile (profile_view profile) }
{
    let ProfileTable {
        inherits,
        fields,
        ..
    } = profile;
    MergedProfile { inherits, fields }
}

/// The profiles of the merged tree, without their rules.
fn merged_profiles(
    alloc: Global,
    profiles: BTreeMap<String, ProfileTable>,
) -> Result<BTreeMap<String, MergedProfile>, AllocError>
    ensures { IfOk result
        (λ merged. by_name merged_profile_view merged.entries
        ≡ profiles_of (by_name profile_view profiles.entries)) }
{
    let mut merged = BTreeMap::new(alloc);
    for (name, table) in profiles {
        drop(merged.insert(name, merged_profile(table))?);
    }
    Ok(merged)
}

/// Refuses the parents that profiles write, unless they are sound by themselves.
fn check_parents(
    alloc: Global,
    repository: &ConfigSource,
    profiles: &BTreeMap<String, MergedProfile>,
) -> Result<(), ConfigParseError>
    ensures { let written = parents_view parent_in profiles.now.entries in
        Found (fault_at_source (source_view repository.now)
        (if_some bad_parents (inheritance_faults no_profiles written)))
        (ending result) }
{
    let errors = inheritance_errors(alloc, profiles, &BTreeSet::new(alloc))?;
    if errors.is_empty() {
        return Ok(());
    }
    Err(ConfigParseError::at(repository, ConfigParseErrorKind::InheritanceErrors(errors)))
}

/// What a configuration keeps of a table.
fn keep(alloc: Global, table: FileTable) -> Result<KeptTable, AllocError>
    ensures { IfOk result (IsKeptOf table) }
{
    let (rest, profiles) = take_profiles(alloc, table);
    let profiles = merged_profiles(alloc, profiles)?;
    Ok(KeptTable { rest, profiles })
}

/// What a configuration makes of what was kept of the merged tree, whose parents are checked.
fn merged_tables(
    alloc: Global,
    repository: &ConfigSource,
    names: ScriptNames,
    kept: KeptTable,
) -> Result<MergedTables, ConfigParseError>
    ensures ran { (n : Node) → IsKept n kept → (before : List Warning)
        → Ran (tree_steps (source_view repository.now) n) before before (ending result) }
    ensures means { (n : Node) → IsKept n kept
        → IfOk result (λ tables. tables_view tables ≡ tables_of (file_text n)) }
    ensures scripts { (ss : List SourceText) → IsKept (merged_tree ss) kept
        → AreScriptNames ss names
        → IfOk result (λ tables. AreScriptsOf ss (scripts_view tables.scripts)) }
    ensures defaults { (n : Node) (files : List Node) → IsKept n kept → IsMergedTree files n
        → IfOk result (λ tables. HasDefaults (tables_view tables).profiles) }
{
    let KeptTable { rest, profiles } = kept;
    let FileTable {
        store_dir,
        test_groups,
        script,
        scripts,
        ..
    } = rest;
    check_parents(alloc, repository, &profiles)?;
    let scripts = script_config(alloc, names, script, scripts)?;
    Ok(MergedTables {
        store_dir,
        profiles,
        test_groups,
        scripts,
    })
}

/// What a configuration keeps of the merged tree. Its faults are reported at the repository's
/// source.
fn read_merged(
    alloc: Global,
    repository: &ConfigSource,
    names: ScriptNames,
    tree: &Tree,
) -> Result<MergedTables, ConfigParseError>
    ensures ran { (before : List Warning)
        → Ran (tree_steps (source_view repository.now) (tree_view tree.now)) before before
        (ending result) }
    ensures means { IfOk result
        (λ tables. tables_view tables ≡ tables_of (file_text (tree_view tree.now))) }
    ensures scripts { (ss : List SourceText) → AreScriptNames ss names
        → tree_view tree.now ≡ merged_tree ss
        → IfOk result (λ tables. AreScriptsOf ss (scripts_view tables.scripts)) }
    ensures defaults { (files : List Node) → IsMergedTree files (tree_view tree.now)
        → IfOk result (λ tables. HasDefaults (tables_view tables).profiles) }
{
    let (table, _) = read_elements(alloc, repository, tree)?;
    let kept = keep(alloc, table)?;
    merged_tables(alloc, repository, names, kept)
}

/// What a configuration keeps of the merged tree. What was kept of it before, when the one source
/// was read, is not read again.
pub(crate) fn keep_merged(
    alloc: Global,
    repository: &ConfigSource,
    names: ScriptNames,
    tree: &Tree,
    kept: Option<KeptTable>,
) -> Result<MergedTables, ConfigParseError>
    ensures ran { IfSome kept (IsKept (tree_view tree.now)) → (before : List Warning)
        → Ran (tree_steps (source_view repository.now) (tree_view tree.now)) before before
        (ending result) }
    ensures means { IfSome kept (IsKept (tree_view tree.now)) → IfOk result
        (λ tables. tables_view tables ≡ tables_of (file_text (tree_view tree.now))) }
    ensures scripts { (ss : List SourceText) → IfSome kept (IsKept (tree_view tree.now))
        → AreScriptNames ss names → tree_view tree.now ≡ merged_tree ss
        → IfOk result (λ tables. AreScriptsOf ss (scripts_view tables.scripts)) }
    ensures defaults { (files : List Node) → IfSome kept (IsKept (tree_view tree.now))
        → IsMergedTree files (tree_view tree.now)
        → IfOk result (λ tables. HasDefaults (tables_view tables).profiles) }
{
    match kept {
        Some(kept) => merged_tables(alloc, repository, names, kept),
        None => read_merged(alloc, repository, names, tree),
    }
}
