//! Names as keys of maps and sets.
ghost use Rattle.std.specs.Prelude.{◌≡◌, ◌||◌, map, ℕ, List, OnOk, string_bytes};
ghost use Rattle.std.specs.BTreeSet.{contains_text};
ghost use Rattle.std.specs.Cmp.Lexicographic.{slice_cmp};
ghost use Rattle.std.specs.Ordering.{nat_cmp};
ghost use Rattle.nextest_elements.specs.TestGroup.{custom_group_text};
ghost use Rattle.nextest_scripts.specs.ScriptId.{script_text};
ghost use Rattle.nextest_elements.specs.IdentifierText.{identifier_text};
ghost use Rattle.nextest_tree.specs.Schema.{is_one_of};
ghost use Rattle.nextest_rules.specs.Definitions.{is_nonempty};

use nextest_elements::{ConfigIdentifier, CustomTestGroup};
use nextest_scripts::ScriptId;
use std::alloc::{AllocError, Global};
use std::collections::{BTreeMap, BTreeSet};

/// A key that is a name.
pub(crate) trait NameKey: Ord {
    /// The text of the name.
    ghost text: { Self → List ℕ };

    /// The text of the name.
    fn as_name(&self) -> &str
        ensures { result.now ≡ text self.now };
}

/// A key that is an identifier.
pub(crate) trait IdentifierKey: NameKey + Clone + Drop {
    /// The identifier.
    fn identifier(&self) -> &ConfigIdentifier
        ensures { identifier_text result.now ≡ Self.text self.now };

    /// Keys are ordered by their texts.
    ghost ordered: { (a b : Self) → Self.cmp a b ≡ slice_cmp nat_cmp (Self.text a) (Self.text b) };

    /// A copy has the same text.
    ghost copied: { (a b : Self) → Self.is_clone a b → Self.text b ≡ Self.text a };
}

impl NameKey for String {
    ghost text = { string_bytes };

    fn as_name(&self) -> &str {
        self.as_str()
    }
}

impl NameKey for CustomTestGroup {
    ghost text = { custom_group_text };

    fn as_name(&self) -> &str {
        self.as_str()
    }
}

impl IdentifierKey for CustomTestGroup {
    ghost use Rattle.std.proofs.Common.{rules, ap};

    fn identifier(&self) -> &ConfigIdentifier {
        self.as_identifier()
    }

    ghost ordered = { λ a b. Prim.search rules };

    ghost copied = { λ a b same. ap custom_group_text same };
}

impl NameKey for ScriptId {
    ghost text = { script_text };

    fn as_name(&self) -> &str {
        self.as_identifier().as_str()
    }
}

impl IdentifierKey for ScriptId {
    ghost use Rattle.std.proofs.Common.{rules, ap};

    fn identifier(&self) -> &ConfigIdentifier {
        self.as_identifier()
    }

    ghost ordered = { λ a b. Prim.search rules };

    ghost copied = { λ a b same. ap script_text same };
}

/// Whether a table defines anything.
pub(crate) fn has_entries<K: NameKey, V>(table: &BTreeMap<K, V>) -> bool
    ensures { result ≡ is_nonempty (map (λ e. K.text e.0) table.now.entries) }
{
    !table.is_empty()
}

/// Adds the names of the keys of a table.
pub(crate) fn add_names<K: NameKey, V>(
    alloc: Global,
    names: &mut BTreeSet<String>,
    table: &BTreeMap<K, V>,
) -> Result<(), AllocError>
    ensures { OnOk result ((q : List ℕ) → contains_text names.new q
        ≡ (contains_text names.old q || is_one_of (map (λ e. K.text e.0) table.now.entries) q)) }
{
    for (key, _) in table.iter() {
        names.insert(String::from_str(alloc, key.as_name())?)?;
    }
    Ok(())
}

/// Adds copies of names.
pub(crate) fn copy_names(
    names: &mut BTreeSet<String>,
    others: &BTreeSet<String>,
) -> Result<(), AllocError>
    ensures { OnOk result ((q : List ℕ) → contains_text names.new q
        ≡ (contains_text names.old q || contains_text others.now q)) }
{
    for name in others.iter() {
        names.insert(name.clone()?)?;
    }
    Ok(())
}
