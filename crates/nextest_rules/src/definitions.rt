//! Checks of what a source defines.
ghost use Rattle.std.specs.Prelude.{◌≡◌, filter, IfOk};
ghost use Rattle.std.specs.Option.{option_or};
ghost use Rattle.nextest_inheritance.specs.Names as names;
ghost use Rattle.nextest_sources.specs.Endings.{ending, Found, Ran};
ghost use Rattle.nextest_sources.specs.InputFaults.{fault_at_source};
ghost use Rattle.nextest_sources.specs.Sources.{source_view};
ghost use Rattle.nextest_sources.specs.Warnings.{texts_view};
ghost use Rattle.nextest_tables.specs.FileTexts.{names_in};
ghost use Rattle.nextest_tables.specs.View.{file_table_view};
ghost use Rattle.nextest_rules.specs.KnownView.{features_view};
ghost use Rattle.nextest_rules.specs.Steps.{definition_steps, deprecated_steps, reserved_steps, group_name_cause, key_cause, feature_cause, kind_cause, script_name_cause};

use crate::features::check_features;
use crate::ill_named::{check_group_names, check_script_names};
use crate::names::has_entries;
use crate::script_kinds::{check_script_keys, check_script_kinds};
use nextest_elements::ConfigExperimental;
use nextest_inheritance::is_reserved;
use nextest_sources::{ConfigParseError, ConfigSource, ConfigWarnings};
use nextest_tables::FileTable;
use std::alloc::{AllocError, Global};
use std::collections::BTreeSet;

/// Checks the names of groups, and under which keys scripts are.
fn check_groups_and_keys(
    alloc: Global,
    source: &ConfigSource,
    file: &FileTable,
) -> Result<(), ConfigParseError>
    ensures { let s = source_view source.now in
        let f = file_table_view file.now in
        Found (option_or (fault_at_source s (group_name_cause s f))
        (fault_at_source s (key_cause f))) (ending result) }
{
    check_group_names(alloc, source, file)?;
    check_script_keys(source, file)
}

/// Checks the features that scripts need, their kinds and their names.
fn check_defined_scripts(
    alloc: Global,
    features: &BTreeSet<ConfigExperimental>,
    source: &ConfigSource,
    file: &FileTable,
) -> Result<(), ConfigParseError>
    ensures { let s = source_view source.now in
        let f = file_table_view file.now in
        Found (option_or (fault_at_source s (feature_cause (features_view features.now) f))
        (option_or (fault_at_source s (kind_cause f)) (fault_at_source s (script_name_cause s f))))
        (ending result) }
{
    check_features(alloc, features, source, file)?;
    check_script_kinds(alloc, source, file)?;
    check_script_names(alloc, source, file)
}

/// Warns of scripts under the old key, if there are any.
fn warn_of_old_key<W: ConfigWarnings>(
    alloc: Global,
    source: &ConfigSource,
    file: &FileTable,
    warnings: &mut W,
) -> Result<(), ConfigParseError>
    ensures { Ran (deprecated_steps (source_view source.now) (file_table_view file.now))
        (W.warnings warnings.old) (W.warnings warnings.new) (ending result) }
{
    if !has_entries(&file.script) {
        return Ok(());
    }
    warnings.deprecated_script_config(alloc, source)?;
    Ok(())
}

/// The names of profiles that are reserved.
fn reserved_names<'a>(alloc: Global, file: &'a FileTable) -> Result<Vec<&'a str>, AllocError>
    ensures { IfOk result (λ reserved. texts_view reserved.items
        ≡ filter names.is_reserved (names_in (file_table_view file.now).profiles)) }
{
    let mut reserved = Vec::new(alloc);
    for (name, _) in file.profiles.iter() {
        if is_reserved(name.as_str()) {
            reserved.push(name.as_str())?;
        }
    }
    Ok(reserved)
}

/// Warns of profiles with reserved names, if there are any.
fn warn_of_reserved<W: ConfigWarnings>(
    alloc: Global,
    source: &ConfigSource,
    file: &FileTable,
    warnings: &mut W,
) -> Result<(), ConfigParseError>
    ensures { Ran (reserved_steps (source_view source.now) (file_table_view file.now))
        (W.warnings warnings.old) (W.warnings warnings.new) (ending result) }
{
    let names = reserved_names(alloc, file)?;
    if names.is_empty() {
        return Ok(());
    }
    warnings.unknown_reserved_profiles(alloc, source, &names)?;
    Ok(())
}

/// Checks the names that a source defines, and what they need, and warns of what is deprecated or
/// reserved.
pub fn check_definitions<W: ConfigWarnings>(
    alloc: Global,
    features: &BTreeSet<ConfigExperimental>,
    source: &ConfigSource,
    file: &FileTable,
    warnings: &mut W,
) -> Result<(), ConfigParseError>
    ensures { Ran (definition_steps (features_view features.now) (source_view source.now)
        (file_table_view file.now))
        (W.warnings warnings.old) (W.warnings warnings.new) (ending result) }
{
    check_groups_and_keys(alloc, source, file)?;
    warn_of_old_key(alloc, source, file, warnings)?;
    check_defined_scripts(alloc, features, source, file)?;
    warn_of_reserved(alloc, source, file, warnings)
}
