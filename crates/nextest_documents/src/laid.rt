//! A tree laid upon another one without a copy, and taken off again.
ghost use Rattle.std.specs.Prelude.{◌≡◌, IfOk, OnOk, Some, option_map};
ghost use Rattle.std.specs.Option.{option_map_or};
ghost use Rattle.nextest_tree.specs.Node.{Node, Entries, IsSorted, EntriesAreSorted, get, put};
ghost use Rattle.nextest_tree.specs.View.{tree_view, entries_view};
ghost use Rattle.nextest_documents.specs.Displaced.{added, displaced_by, entries_displaced_by};
ghost use Rattle.nextest_documents.specs.DisplacedView.{displaced_view, displaced_entries_view};
ghost use Rattle.nextest_documents.specs.Laid.{IsLaid};
ghost use Rattle.nextest_documents.specs.Merge.{over, entries_over};

use nextest_tree::Tree;
use std::alloc::{AllocError, Global};
use std::collections::BTreeMap;
use std::mem;

/// A tree that was laid upon another one, and can be taken off again.
#[derive(Drop)]
pub struct Laid {
    /// The one over the other.
    pub tree: Tree,
    /// What was displaced in the lower one.
    pub displaced: Displaced,
}

/// What a tree displaced in another one, upon which it was laid.
#[derive(Drop)]
pub enum Displaced {
    /// All that was there.
    Replaced(Tree),
    /// Nothing, as nothing was there.
    Added,
    /// What each key of a table displaced in another table, in the order of the keys.
    Within(Vec<(String, Displaced)>),
}

/// Lays `above` upon `below` as `lay_over` does, but without a copy, and keeps what it displaces.
#[cycle(lay_upon)]
pub fn lay_upon(alloc: Global, above: Tree, below: Tree) -> Result<Laid, AllocError>
    ensures { IfOk result (IsLaid (tree_view above) (tree_view below)) }
{
    let Tree::Table(higher) = above else {
        return Ok(Laid {
            tree: above,
            displaced: Displaced::Replaced(below),
        });
    };
    let Tree::Table(lower) = below else {
        return Ok(Laid {
            tree: Tree::Table(higher),
            displaced: Displaced::Replaced(below),
        });
    };
    let (members, displaced) = unite(alloc, higher, lower)?;
    Ok(Laid {
        tree: Tree::Table(members),
        displaced: Displaced::Within(displaced),
    })
}

/// Lays the members of a table upon those of another.
#[cycle(lay_upon)]
fn unite(
    alloc: Global,
    higher: BTreeMap<String, Tree>,
    mut lower: BTreeMap<String, Tree>,
) -> Result<(BTreeMap<String, Tree>, Vec<(String, Displaced)>), AllocError>
    ensures members { IfOk result (λ laid. entries_view laid.0.entries
        ≡ entries_over (entries_view higher.entries) (entries_view lower.entries)) }
    ensures displaced { IfOk result (λ laid. displaced_entries_view laid.1.items
        ≡ entries_displaced_by (entries_view higher.entries) (entries_view lower.entries)) }
{
    let mut all_displaced = Vec::new(alloc);
    for (key, tree) in higher {
        let displaced = lay_member(alloc, tree, &mut lower, &key)?;
        all_displaced.push((key, displaced))?;
    }
    Ok((lower, all_displaced))
}

/// Lays a tree upon what a table has at a key.
#[cycle(lay_upon)]
fn lay_member(
    alloc: Global,
    above: Tree,
    members: &mut BTreeMap<String, Tree>,
    key: &str,
) -> Result<Displaced, AllocError>
    ensures members { let below = entries_view members.old.entries in
        OnOk result (entries_view members.new.entries ≡ put key.now (option_map_or
        (λ n. over (tree_view above) n) (get key.now below) (tree_view above)) below) }
    ensures displaced { let below = entries_view members.old.entries in
        IfOk result (λ displaced. displaced_view displaced ≡ option_map_or
        (λ n. displaced_by (tree_view above) n) (get key.now below) added) }
{
    match members.get_mut(key) {
        Some(found) => {
            let laid = lay_upon(alloc, above, mem::replace(found, Tree::Opaque))?;
            *found = laid.tree;
            Ok(laid.displaced)
        }
        None => {
            drop(members.insert(String::from_str(alloc, key)?, above)?);
            Ok(Displaced::Added)
        }
    }
}

impl Laid {
    /// Takes the upper tree off again. The lower one is the second.
    pub fn take_off(self, alloc: Global) -> Result<(Tree, Tree), AllocError>
        ensures { (above : Node) (below : Node) → IsSorted above → IsSorted below
            → IsLaid above below self
            → IfOk result (λ trees. (tree_view trees.0 ≡ above) × (tree_view trees.1 ≡ below)) }
    {
        part(alloc, self.displaced, self.tree)
    }
}

/// Parts a tree into an upper one and the one that it displaced, an opaque one if there was none.
#[cycle(part)]
fn part(alloc: Global, displaced: Displaced, tree: Tree) -> Result<(Tree, Tree), AllocError>
    ensures { (above : Node) (below : Node) → IsSorted above → IsSorted below
        → tree_view tree ≡ over above below → displaced_view displaced ≡ displaced_by above below
        → IfOk result (λ trees. (tree_view trees.0 ≡ above) × (tree_view trees.1 ≡ below)) }
{
    match displaced {
        Displaced::Replaced(below) => Ok((tree, below)),
        Displaced::Added => Ok((tree, Tree::Opaque)),
        Displaced::Within(displaced) => match tree {
            Tree::Table(members) => {
                let (higher, lower) = part_members(alloc, displaced, members)?;
                Ok((Tree::Table(higher), Tree::Table(lower)))
            }
            other => Ok((other, Tree::Opaque)),
        },
    }
}

/// Parts the members of a table into those of an upper one and those of the one below it.
#[cycle(part)]
fn part_members(
    alloc: Global,
    all_displaced: Vec<(String, Displaced)>,
    mut members: BTreeMap<String, Tree>,
) -> Result<(BTreeMap<String, Tree>, BTreeMap<String, Tree>), AllocError>
    ensures { (above : Entries) (below : Entries)
        → EntriesAreSorted above → EntriesAreSorted below
        → entries_view members.entries ≡ entries_over above below
        → displaced_entries_view all_displaced.items ≡ entries_displaced_by above below
        → IfOk result (λ maps. (entries_view maps.0.entries ≡ above)
        × (entries_view maps.1.entries ≡ below)) }
{
    let mut higher = BTreeMap::new(alloc);
    for (key, displaced) in all_displaced {
        if let Some(tree) = take_member(alloc, displaced, &mut members, &key)? {
            drop(higher.insert(key, tree)?);
        }
    }
    Ok((higher, members))
}

/// Takes what lies upon a table off it at a key.
#[cycle(part)]
fn take_member(
    alloc: Global,
    displaced: Displaced,
    members: &mut BTreeMap<String, Tree>,
    key: &str,
) -> Result<Option<Tree>, AllocError>
    ensures taken { (above : Node) (below : Entries) → IsSorted above → EntriesAreSorted below
        → entries_view members.old.entries
        ≡ put key.now (option_map_or (λ lower. over above lower) (get key.now below) above) below
        → displaced_view displaced
        ≡ option_map_or (λ lower. displaced_by above lower) (get key.now below) added
        → IfOk result (λ taken. option_map tree_view taken ≡ Some above) }
    ensures left { (above : Node) (below : Entries) → IsSorted above → EntriesAreSorted below
        → entries_view members.old.entries
        ≡ put key.now (option_map_or (λ lower. over above lower) (get key.now below) above) below
        → displaced_view displaced
        ≡ option_map_or (λ lower. displaced_by above lower) (get key.now below) added
        → OnOk result (entries_view members.new.entries ≡ below) }
{
    if let Displaced::Added = displaced {
        return Ok(members.remove(key));
    }
    match members.get_mut(key) {
        Some(found) => {
            let (above, below) = part(alloc, displaced, mem::replace(found, Tree::Opaque))?;
            *found = below;
            Ok(Some(above))
        }
        None => Ok(None),
    }
}
