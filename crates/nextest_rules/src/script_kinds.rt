//! Scripts under two keys, and of both kinds.
ghost use Rattle.std.specs.Prelude.{◌≡◌, ◌||◌, ◌&&◌, map, ℕ, List, IfOk, OnOk};
ghost use Rattle.nextest_scripts.specs.ScriptId.{script_text};
ghost use Rattle.nextest_sources.specs.Endings.{ending, Found};
ghost use Rattle.nextest_sources.specs.Errors.{script_names_view};
ghost use Rattle.nextest_sources.specs.InputFaults.{fault_at_source};
ghost use Rattle.nextest_sources.specs.Sources.{source_view};
ghost use Rattle.nextest_tables.specs.FileTexts.{setup_ids_of, new_ids_of};
ghost use Rattle.nextest_tables.specs.View.{file_table_view};
ghost use Rattle.nextest_tree.specs.Schema.{is_one_of};
ghost use Rattle.nextest_rules.specs.Definitions.{common_names, is_nonempty};
ghost use Rattle.nextest_rules.specs.Steps.{key_cause, kind_cause};

use crate::names::has_entries;
use nextest_scripts::ScriptId;
use nextest_sources::{ConfigParseError, ConfigParseErrorKind, ConfigSource};
use nextest_tables::FileTable;
use std::alloc::{AllocError, Global};
use std::collections::{BTreeMap, BTreeSet};

/// Whether a file has scripts under `script` and under `scripts`.
#[tactic(auto, using(crate::proofs::Knowing::either_nonempty))]
fn has_both_keys(file: &FileTable) -> bool
    ensures { result ≡ (is_nonempty (file_table_view file.now).old_setup_scripts
        && is_nonempty (new_ids_of (file_table_view file.now))) }
{
    has_entries(&file.script)
        && (has_entries(&file.scripts.setup) || has_entries(&file.scripts.wrapper))
}

/// Refuses scripts under `script` beside scripts under `scripts`.
pub(crate) fn check_script_keys(
    source: &ConfigSource,
    file: &FileTable,
) -> Result<(), ConfigParseError>
    ensures { Found
        (fault_at_source (source_view source.now) (key_cause (file_table_view file.now)))
        (ending result) }
{
    if !has_both_keys(file) {
        return Ok(());
    }
    Err(ConfigParseError::at(source, ConfigParseErrorKind::BothScriptAndScriptsDefined))
}

/// Adds the ids of a table of scripts that another one has too.
fn add_common<V, W>(
    found: &mut BTreeSet<ScriptId>,
    scripts: &BTreeMap<ScriptId, V>,
    others: &BTreeMap<ScriptId, W>,
) -> Result<(), AllocError>
    ensures { OnOk result ((q : List ℕ) → script_names_view found.new q
        ≡ (script_names_view found.old q || is_one_of
        (common_names (map (λ e. script_text e.0) scripts.now.entries)
        (map (λ e. script_text e.0) others.now.entries)) q)) }
{
    for (id, _) in scripts.iter() {
        if !others.contains_key(id) {
            continue;
        }
        found.insert(id.clone()?)?;
    }
    Ok(())
}

/// The ids that a file defines both as setup scripts and as wrapper scripts.
fn ids_of_both_kinds(alloc: Global, file: &FileTable) -> Result<BTreeSet<ScriptId>, AllocError>
    ensures { IfOk result (λ ids. (q : List ℕ) → script_names_view ids q
        ≡ is_one_of (common_names (setup_ids_of (file_table_view file.now))
        (file_table_view file.now).wrapper_scripts) q) }
{
    let mut ids = BTreeSet::new(alloc);
    add_common(&mut ids, &file.scripts.setup, &file.scripts.wrapper)?;
    add_common(&mut ids, &file.script, &file.scripts.wrapper)?;
    Ok(ids)
}

/// Refuses ids of both kinds, with all of them.
pub(crate) fn check_script_kinds(
    alloc: Global,
    source: &ConfigSource,
    file: &FileTable,
) -> Result<(), ConfigParseError>
    ensures { Found
        (fault_at_source (source_view source.now) (kind_cause (file_table_view file.now)))
        (ending result) }
{
    let ids = ids_of_both_kinds(alloc, file)?;
    if ids.is_empty() {
        return Ok(());
    }
    Err(ConfigParseError::at(
        source,
        ConfigParseErrorKind::DuplicateConfigScriptNames(ids),
    ))
}
