//! The groups that filters may name.
ghost use Rattle.std.specs.BTreeSet.{contains_text};
ghost use Rattle.std.specs.Prelude.{◌≡◌, IfOk};
ghost use Rattle.nextest_load.specs.ConfigView.{groups_view};
ghost use Rattle.nextest_tables.specs.FileTexts.{names_in};
ghost use Rattle.nextest_tables.specs.Written.{Name};
ghost use Rattle.nextest_tree.specs.Schema.{is_one_of};

use nextest_elements::{CustomTestGroup, TestGroupConfig};
use std::alloc::{AllocError, Global};
use std::collections::{BTreeMap, BTreeSet};

/// The groups that filters may name.
#[derive(Debug, Drop)]
pub enum KnownGroups {
    /// The custom groups of a configuration, beside the global one.
    Known {
        /// Their names.
        custom_groups: BTreeSet<String>,
    },
    /// No configuration says which there are.
    Unavailable,
}

/// The names of the groups that a configuration defines.
pub(crate) fn names_of_groups(
    alloc: Global,
    groups: &BTreeMap<CustomTestGroup, TestGroupConfig>,
) -> Result<BTreeSet<String>, AllocError>
    ensures { IfOk result (λ names. (name : Name) → contains_text names name
        ≡ is_one_of (names_in (groups_view groups.now.entries)) name) }
{
    let mut names = BTreeSet::new(alloc);
    for (group, _) in groups.iter() {
        names.insert(String::from_str(alloc, group.as_str())?)?;
    }
    Ok(names)
}
