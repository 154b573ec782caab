//! The leaves of a tree.
ghost use Rattle.std.specs.Prelude.{◌≡◌, ◌++◌, ◌∷◌, [], OnOk, IfOk, map, string_bytes};
ghost use Rattle.nextest_tree.specs.View.{tree_view, entries_view};
ghost use Rattle.nextest_documents.specs.Layers.{keys_view};
ghost use Rattle.nextest_documents.specs.Leaves.{paths_view, leaf_paths, member_paths};

use nextest_tree::Tree;
use std::alloc::{AllocError, Global};
use std::collections::BTreeMap;

/// A path with one more key.
fn longer<'k>(alloc: Global, path: &[&'k str], key: &'k str) -> Result<Vec<&'k str>, AllocError>
    ensures { IfOk result (λ longer. keys_view longer.items
        ≡ keys_view path.now ++ key.entry.now ∷ []) }
{
    let mut longer = Vec::from_slice(alloc, path)?;
    longer.push(key)?;
    Ok(longer)
}

/// Adds the paths of a tree's leaves, each behind the path of the tree itself.
#[cycle(add_leaf_paths)]
pub(crate) fn add_leaf_paths<'k>(
    alloc: Global,
    tree: &'k Tree,
    path: &[&'k str],
    paths: &mut Vec<Vec<&'k str>>,
) -> Result<(), AllocError>
    ensures { OnOk result (paths_view paths.new.items ≡ paths_view paths.old.items
        ++ map (λ p. keys_view path.now ++ p) (leaf_paths (tree_view tree.now))) }
{
    match tree {
        Tree::Table(members) => add_member_paths(alloc, members, path, paths),
        _ => {
            paths.push(Vec::from_slice(alloc, path)?)?;
            Ok(())
        }
    }
}

/// Adds the paths of the leaves of a table's members, each behind the path of the table.
#[cycle(add_leaf_paths)]
fn add_member_paths<'k>(
    alloc: Global,
    members: &'k BTreeMap<String, Tree>,
    path: &[&'k str],
    paths: &mut Vec<Vec<&'k str>>,
) -> Result<(), AllocError>
    ensures { OnOk result (paths_view paths.new.items ≡ paths_view paths.old.items
        ++ map (λ p. keys_view path.now ++ p) (member_paths (entries_view members.now.entries))) }
{
    for (key, member) in members.iter() {
        let longer = longer(alloc, path, key.as_str())?;
        add_leaf_paths(alloc, member, &longer, paths)?;
    }
    Ok(())
}
