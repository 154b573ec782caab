//! The reader of a map, whose keys are judged.
ghost use Rattle.std.specs.Prelude.{◌≡◌, IfOk};
ghost use Rattle.nextest_tree.specs.Node as Node;
ghost use Rattle.nextest_tree.specs.View.{tree_view, entries_view};
ghost use Rattle.nextest_tree.specs.Schema.{map_of};
ghost use Rattle.nextest_tree.specs.Reads.{IsMap, InTable, Gives, walk_view, reading};
ghost use Rattle.nextest_tree.specs.ReadSteps.{reading_entry, reading_entries};

use crate::element::{Element, Name};
use crate::fault::{ElementCause, ElementFault};
use crate::tree::Tree;
use crate::walk::Walk;
use std::alloc::Global;
use std::collections::BTreeMap;

#[tactic(auto, unfolding(crate::specs::ReadSteps::reading_entry))]
fn read_entry<K: Name, T: Element>(
    alloc: Global,
    key: &str,
    tree: &Tree,
    walk: &mut Walk,
) -> Result<(K, T), ElementFault>
    ensures name { IfOk result (λ e. K.text e.0 ≡ key.now) }
    ensures value { IfOk result (λ e. T.is_value (tree_view tree.now) e.1) }
    ensures reads { Gives result walk.new
        (reading_entry K.test T.schema key.now (tree_view tree.now) (walk_view walk.old)) }
{
    let outer = walk.enter(alloc, key)?;
    let name = K::read_name(alloc, key, walk)?;
    let value = T::read(alloc, tree, walk)?;
    walk.leave(outer);
    Ok((name, value))
}

/// Reads each entry of a map.
fn read_entries<K: Name, T: Element>(
    alloc: Global,
    members: &BTreeMap<String, Tree>,
    walk: &mut Walk,
) -> Result<BTreeMap<K, T>, ElementFault>
    ensures value { IfOk result
        (λ values. IsMap K.text T.is_value (entries_view members.now.entries) values.entries) }
    ensures reads { Gives result walk.new
        (reading_entries K.test T.schema (entries_view members.now.entries)
        (walk_view walk.old)) }
{
    let mut values = BTreeMap::new(alloc);
    for (key, tree) in members.iter() {
        let (name, value) = read_entry(alloc, key.as_str(), tree, walk)?;
        let Ok(_) = values.insert(name, value) else {
            return Err(ElementFault::memory(alloc));
        };
    }
    Ok(values)
}

#[tactic(auto, using(crate::proofs::Reading::reading_map))]
fn read_map<K: Name, T: Element>(
    alloc: Global,
    members: &BTreeMap<String, Tree>,
    walk: &mut Walk,
) -> Result<BTreeMap<K, T>, ElementFault>
    ensures value { IfOk result
        (λ values. IsMap K.text T.is_value (entries_view members.now.entries) values.entries) }
    ensures reads { Gives result walk.new
        (reading (map_of K.test T.schema) (Node.table (entries_view members.now.entries))
        (walk_view walk.old)) }
{
    let values = read_entries(alloc, members, walk)?;
    Ok(values)
}

#[tactic(auto, unfolding(crate::specs::Reads::reading, crate::specs::Reads::walk_view))]
impl<K: Name, T: Element> Element for BTreeMap<K, T> {
    ghost schema = { map_of K.test T.schema };

    ghost is_value = { λ n values.
        InTable (λ es xs. IsMap K.text T.is_value es xs) n values.entries };

    fn read(alloc: Global, tree: &Tree, walk: &mut Walk) -> Result<Self, ElementFault> {
        match tree {
            Tree::Table(members) => read_map(alloc, members, walk),
            _ => Err(walk.fault(alloc, ElementCause::WrongKind)),
        }
    }
}
