//! The parents that the profiles of a source write.
ghost use Rattle.std.specs.Prelude.{◌≡◌, IfOk, string_bytes, option_map};
ghost use Rattle.std.specs.BTreeSet.{contains_text};
ghost use Rattle.nextest_inheritance.specs.View.{parents_view};
ghost use Rattle.nextest_sources.specs.Endings.{ending, Found};
ghost use Rattle.nextest_sources.specs.InputFaults.{fault_at_source};
ghost use Rattle.nextest_sources.specs.Sources.{source_view};
ghost use Rattle.nextest_tables.specs.View.{by_name, profile_view};
ghost use Rattle.nextest_rules.specs.Steps.{written_parents, parent_cause};

use nextest_inheritance::{Inherits, inheritance_errors};
use nextest_sources::{ConfigParseError, ConfigParseErrorKind, ConfigSource};
use nextest_tables::ProfileTable;
use std::alloc::{AllocError, Global};
use std::collections::{BTreeMap, BTreeSet};

/// The parent that a profile writes, if it writes one.
#[derive(Drop)]
struct Parent(Option<String>);

impl Inherits for Parent {
    ghost parent = { λ parent. option_map string_bytes parent.0 };

    fn inherits(&self) -> Option<&str> {
        match &self.0 {
            Some(name) => Some(name.as_str()),
            None => None,
        }
    }
}

/// The parents that profiles write, by name.
fn parents_of(
    alloc: Global,
    profiles: &BTreeMap<String, ProfileTable>,
) -> Result<BTreeMap<String, Parent>, AllocError>
    ensures { IfOk result (λ parents.
        parents_view (λ parent. option_map string_bytes parent.0) parents.entries
        ≡ written_parents (by_name profile_view profiles.now.entries)) }
{
    let mut parents = BTreeMap::new(alloc);
    for (name, table) in profiles.iter() {
        let parent = Parent(table.inherits.clone()?);
        drop(parents.insert(name.clone()?, parent)?);
    }
    Ok(parents)
}

/// Refuses parents that are not sound beside the profiles of lower files, with all of them.
pub(crate) fn check_parents(
    alloc: Global,
    source: &ConfigSource,
    lower: &BTreeSet<String>,
    profiles: &BTreeMap<String, ProfileTable>,
) -> Result<(), ConfigParseError>
    ensures { Found (fault_at_source (source_view source.now)
        (parent_cause (contains_text lower.now) (by_name profile_view profiles.now.entries)))
        (ending result) }
{
    let parents = parents_of(alloc, profiles)?;
    let errors = inheritance_errors(alloc, &parents, lower)?;
    if errors.is_empty() {
        return Ok(());
    }
    Err(ConfigParseError::at(source, ConfigParseErrorKind::InheritanceErrors(errors)))
}
