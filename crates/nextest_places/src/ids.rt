//! The ids of a document: the keys of the table at a path.
ghost use Rattle.std.specs.Prelude.{◌≡◌, [], IfOk};
ghost use Rattle.std.specs.Option.{option_map_or};
ghost use Rattle.nextest_tree.specs.Node as Node;
ghost use Rattle.nextest_tree.specs.View.{tree_view, entries_view};
ghost use Rattle.nextest_places.specs.Standing.{IdsAscend, ids_view, keys_at, key_path_view};

use nextest_tree::{Key, Tree};
use std::alloc::{AllocError, Global};
use std::collections::BTreeMap;

/// The table at a path, if one is there.
fn table_at<'a>(document: &'a Tree, path: &[Key]) -> Option<&'a BTreeMap<String, Tree>>
    ensures { option_map_or (λ members. Node.keys (entries_view members.now.entries)) result []
        ≡ keys_at (key_path_view path.now) (tree_view document.now) }
{
    let mut tree = document;
    for key in path {
        tree = tree.get(key.text())?;
    }
    tree.as_table()
}

/// The keys of a table, in the order of their bytes.
fn keys_of(alloc: Global, members: &BTreeMap<String, Tree>) -> Result<Vec<String>, AllocError>
    ensures keys { IfOk result (λ keys.
        ids_view keys ≡ Node.keys (entries_view members.now.entries)) }
    ensures ascends { IfOk result (λ keys. IdsAscend (ids_view keys)) }
{
    let mut keys = Vec::new(alloc);
    for (key, _) in members.iter() {
        keys.push(key.clone()?)?;
    }
    Ok(keys)
}

/// The ids that a document defines, in the order of their bytes.
pub(crate) fn ids_of(
    alloc: Global,
    document: &Tree,
    path: &[Key],
) -> Result<Vec<String>, AllocError>
    ensures ids { IfOk result (λ ids.
        ids_view ids ≡ keys_at (key_path_view path.now) (tree_view document.now)) }
    ensures ascends { IfOk result (λ ids. IdsAscend (ids_view ids)) }
{
    match table_at(document, path) {
        Some(members) => keys_of(alloc, members),
        None => Ok(Vec::new(alloc)),
    }
}
