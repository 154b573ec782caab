//! Names that a source may not define.
ghost use Rattle.std.specs.Prelude.{◌≡◌, ◌||◌, map, ℕ, List, Some, IfOk, OnOk};
ghost use Rattle.nextest_sources.specs.Endings.{ending, Found};
ghost use Rattle.nextest_sources.specs.Errors.{cause_view, group_names_view, script_names_view};
ghost use Rattle.nextest_sources.specs.InputFaults.{fault_at_source};
ghost use Rattle.nextest_sources.specs.Sources.{source_view, source_kind_view};
ghost use Rattle.nextest_tables.specs.FileTexts.{names_in, script_ids_of};
ghost use Rattle.nextest_tables.specs.View.{file_table_view};
ghost use Rattle.nextest_elements.specs.IdentifierText.{identifier_text};
ghost use Rattle.nextest_elements.specs.Owner.{owner_class};
ghost use Rattle.nextest_elements.specs.OwnerView.{owner_view};
ghost use Rattle.nextest_tree.specs.Schema.{is_one_of};
ghost use Rattle.nextest_rules.specs.Definitions as defs;
ghost use Rattle.nextest_rules.specs.Definitions.{forbidden_names};
ghost use Rattle.nextest_rules.specs.IllNamed.{ill_named_cause};
ghost use Rattle.nextest_rules.specs.Steps.{group_name_cause, script_name_cause};

use crate::names::IdentifierKey;
use nextest_elements::{ConfigIdentifier, CustomTestGroup, IdentifierOwner};
use nextest_scripts::ScriptId;
use nextest_sources::{ConfigParseError, ConfigParseErrorKind, ConfigSource, ConfigSourceKind};
use nextest_tables::FileTable;
use std::alloc::{AllocError, Global};
use std::collections::{BTreeMap, BTreeSet};

/// Whether a source may define a name: it has the name's owner.
fn may_define(kind: &ConfigSourceKind, name: &ConfigIdentifier) -> bool
    ensures { result ≡ defs.may_define (source_kind_view kind.now) (identifier_text name.now) }
{
    name.owner() == kind.owner()
}

/// Adds the names of a table that a source may not define.
fn add_forbidden<K: IdentifierKey, V>(
    found: &mut BTreeSet<K>,
    source: &ConfigSource,
    table: &BTreeMap<K, V>,
) -> Result<(), AllocError>
    ensures { OnOk result ((q : List ℕ) → is_one_of (map K.text found.new.keys) q
        ≡ (is_one_of (map K.text found.old.keys) q
        || is_one_of (forbidden_names (source_view source.now).kind
        (map (λ e. K.text e.0) table.now.entries)) q)) }
{
    for (key, _) in table.iter() {
        if may_define(source.kind(), key.identifier()) {
            continue;
        }
        found.insert(key.clone()?)?;
    }
    Ok(())
}

/// The groups that a source may not define.
fn forbidden_groups(
    alloc: Global,
    source: &ConfigSource,
    file: &FileTable,
) -> Result<BTreeSet<CustomTestGroup>, AllocError>
    ensures { IfOk result (λ groups. (q : List ℕ) → group_names_view groups q
        ≡ is_one_of (forbidden_names (source_view source.now).kind
        (names_in (file_table_view file.now).groups)) q) }
{
    let mut groups = BTreeSet::new(alloc);
    add_forbidden(&mut groups, source, &file.test_groups)?;
    Ok(groups)
}

/// The scripts that a source may not define.
fn forbidden_scripts(
    alloc: Global,
    source: &ConfigSource,
    file: &FileTable,
) -> Result<BTreeSet<ScriptId>, AllocError>
    ensures { IfOk result (λ ids. (q : List ℕ) → script_names_view ids q
        ≡ is_one_of (forbidden_names (source_view source.now).kind
        (script_ids_of (file_table_view file.now))) q) }
{
    let mut ids = BTreeSet::new(alloc);
    add_forbidden(&mut ids, source, &file.scripts.setup)?;
    add_forbidden(&mut ids, source, &file.script)?;
    add_forbidden(&mut ids, source, &file.scripts.wrapper)?;
    Ok(ids)
}

/// Names that a source may not define.
#[derive(Drop)]
enum IllNamed {
    Groups(BTreeSet<CustomTestGroup>),
    Scripts(BTreeSet<ScriptId>),
}

/// The refusal of names that a source of this owner may not define.
fn ill_named_kind(owner: IdentifierOwner<'_>, names: IllNamed) -> ConfigParseErrorKind
    ensures { cause_view result
        ≡ Some (ill_named_cause (owner_class (owner_view owner.entry)) names) }
{
    match (names, owner) {
        (IllNamed::Groups(groups), IdentifierOwner::Nobody) => {
            ConfigParseErrorKind::InvalidTestGroupsDefined(groups)
        }
        (IllNamed::Groups(groups), IdentifierOwner::Tool(_)) => {
            ConfigParseErrorKind::InvalidTestGroupsDefinedByTool(groups)
        }
        (IllNamed::Groups(groups), IdentifierOwner::Organisation) => {
            ConfigParseErrorKind::InvalidTestGroupsDefinedByOrganisation(groups)
        }
        (IllNamed::Scripts(ids), IdentifierOwner::Nobody) => {
            ConfigParseErrorKind::InvalidConfigScriptsDefined(ids)
        }
        (IllNamed::Scripts(ids), IdentifierOwner::Tool(_)) => {
            ConfigParseErrorKind::InvalidConfigScriptsDefinedByTool(ids)
        }
        (IllNamed::Scripts(ids), IdentifierOwner::Organisation) => {
            ConfigParseErrorKind::InvalidConfigScriptsDefinedByOrganisation(ids)
        }
    }
}

/// Refuses groups that a source may not define, with all of them.
pub(crate) fn check_group_names(
    alloc: Global,
    source: &ConfigSource,
    file: &FileTable,
) -> Result<(), ConfigParseError>
    ensures { Found (fault_at_source (source_view source.now)
        (group_name_cause (source_view source.now) (file_table_view file.now))) (ending result) }
{
    let groups = forbidden_groups(alloc, source, file)?;
    if groups.is_empty() {
        return Ok(());
    }
    let kind = ill_named_kind(source.kind().owner(), IllNamed::Groups(groups));
    Err(ConfigParseError::at(source, kind))
}

/// Refuses scripts that a source may not define, with all of them.
pub(crate) fn check_script_names(
    alloc: Global,
    source: &ConfigSource,
    file: &FileTable,
) -> Result<(), ConfigParseError>
    ensures { Found (fault_at_source (source_view source.now)
        (script_name_cause (source_view source.now) (file_table_view file.now))) (ending result) }
{
    let ids = forbidden_scripts(alloc, source, file)?;
    if ids.is_empty() {
        return Ok(());
    }
    let kind = ill_named_kind(source.kind().owner(), IllNamed::Scripts(ids));
    Err(ConfigParseError::at(source, kind))
}
