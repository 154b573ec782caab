//! One tree of several layers: a higher layer is laid over a lower one, path by path.
ghost use Rattle.std.specs.Prelude.{◌∷◌, [], ◌≡◌, IfOk};
ghost use Rattle.nextest_tree.specs.Node.{IsSorted};
ghost use Rattle.nextest_tree.specs.View.{tree_view, nodes_view, entries_view};
ghost use Rattle.nextest_documents.specs.Merge.{over};
ghost use Rattle.nextest_documents.specs.Shown.{HasExactly, IsShown};

use crate::laid::lay_upon;
use nextest_tree::Tree;
use std::alloc::{AllocError, Global};
use std::collections::BTreeMap;

/// Lays `above` over `below`: two tables unite, and anything else replaces what is below.
///
/// An array is replaced as a whole.
pub fn lay_over(alloc: Global, above: &Tree, below: Tree) -> Result<Tree, AllocError>
    ensures is { IfOk result
        (λ tree. tree_view tree ≡ over (tree_view above.now) (tree_view below)) }
    ensures nodes { let layers = tree_view below ∷ tree_view above.now ∷ [] in
        IfOk result (λ tree. HasExactly (tree_view tree) (IsShown layers)) }
    ensures sorted { IsSorted (tree_view below) → IsSorted (tree_view above.now)
        → IfOk result (λ tree. IsSorted (tree_view tree)) }
{
    Ok(lay_upon(alloc, copy_tree(alloc, above)?, below)?.tree)
}

/// A copy of a tree.
#[cycle(copy_tree)]
pub fn copy_tree(alloc: Global, tree: &Tree) -> Result<Tree, AllocError>
    ensures { IfOk result (λ copy. tree_view copy ≡ tree_view tree.now) }
{
    match tree {
        Tree::Table(members) => Ok(Tree::Table(copy_members(alloc, members)?)),
        Tree::Array(items) => Ok(Tree::Array(copy_items(alloc, items)?)),
        Tree::Text(text) => Ok(Tree::Text(text.clone()?)),
        Tree::Int(number) => Ok(Tree::Int(*number)),
        Tree::Bool(flag) => Ok(Tree::Bool(*flag)),
        Tree::Opaque => Ok(Tree::Opaque),
    }
}

#[cycle(copy_tree)]
fn copy_items(alloc: Global, items: &[Tree]) -> Result<Vec<Tree>, AllocError>
    ensures { IfOk result (λ copies. nodes_view copies.items ≡ nodes_view items.now) }
{
    let mut copies = Vec::new(alloc);
    for item in items {
        copies.push(copy_tree(alloc, item)?)?;
    }
    Ok(copies)
}

#[cycle(copy_tree)]
fn copy_members(
    alloc: Global,
    members: &BTreeMap<String, Tree>,
) -> Result<BTreeMap<String, Tree>, AllocError>
    ensures { IfOk result
        (λ copies. entries_view copies.entries ≡ entries_view members.now.entries) }
{
    let mut copies = BTreeMap::new(alloc);
    for (key, member) in members.iter() {
        let name = key.clone()?;
        drop(copies.insert(name, copy_tree(alloc, member)?)?);
    }
    Ok(copies)
}
