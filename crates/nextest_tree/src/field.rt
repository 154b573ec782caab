//! Readers of one field of a table: absent or there, required or not.
ghost use Rattle.std.specs.Prelude.{◌≡◌, IfOk, true, false, option_map, Some, IsSome};
ghost use Rattle.nextest_tree.specs.Node.{get};
ghost use Rattle.nextest_tree.specs.Key.{key_text};
ghost use Rattle.nextest_tree.specs.View.{tree_view, entries_view};
ghost use Rattle.nextest_tree.specs.Reads.{IsOptional, Gives, walk_view, reading_field};
ghost use Rattle.nextest_tree.specs.ReadSteps.{reading_below};

use crate::element::Element;
use crate::fault::ElementFault;
use crate::key::Key;
use crate::tree::Tree;
use crate::walk::Walk;
use std::alloc::Global;
use std::collections::BTreeMap;

/// What is at a key.
fn member<'a>(members: &'a BTreeMap<String, Tree>, key: &str) -> Option<&'a Tree>
    ensures { option_map (λ tree. tree_view tree.now) result
        ≡ get key.now (entries_view members.now.entries) }
{
    members.get(key)
}

/// Reads the value of a key of the tree that the walk is at.
#[tactic(auto, unfolding(crate::specs::ReadSteps::reading_below))]
pub fn read_below<T: Element>(
    alloc: Global,
    tree: &Tree,
    key: &str,
    walk: &mut Walk,
) -> Result<T, ElementFault>
    ensures value { IfOk result (T.is_value (tree_view tree.now)) }
    ensures reads { Gives result walk.new
        (reading_below key.now T.schema (tree_view tree.now) (walk_view walk.old)) }
{
    let outer = walk.enter(alloc, key)?;
    let value = T::read(alloc, tree, walk)?;
    walk.leave(outer);
    Ok(value)
}

/// A field that may be absent.
#[tactic(auto, using(crate::proofs::Reading::field_by))]
pub fn optional<T: Element>(
    alloc: Global,
    members: &BTreeMap<String, Tree>,
    key: Key,
    walk: &mut Walk,
) -> Result<Option<T>, ElementFault>
    ensures value { IfOk result
        (IsOptional T.is_value (get (key_text key) (entries_view members.now.entries))) }
    ensures reads { Gives result walk.new
        (reading_field key false T.schema (entries_view members.now.entries)
        (walk_view walk.old)) }
{
    match member(members, key.text()) {
        None => Ok(None),
        Some(tree) => {
            let value = read_below(alloc, tree, key.text(), walk)?;
            Ok(Some(value))
        }
    }
}

/// A field that has to be there.
#[tactic(auto, using(crate::proofs::Reading::field_by))]
pub fn required<T: Element>(
    alloc: Global,
    members: &BTreeMap<String, Tree>,
    key: Key,
    walk: &mut Walk,
) -> Result<T, ElementFault>
    ensures value { IfOk result (λ x. IsOptional T.is_value
        (get (key_text key) (entries_view members.now.entries)) (Some x)) }
    ensures reads { Gives result walk.new
        (reading_field key true T.schema (entries_view members.now.entries)
        (walk_view walk.old)) }
{
    match member(members, key.text()) {
        None => Err(walk.missing(alloc, key.text())),
        Some(tree) => {
            let value = read_below(alloc, tree, key.text(), walk)?;
            Ok(value)
        }
    }
}

/// A field that has to be there where `must` says so.
#[tactic(auto, using(crate::proofs::Reading::field_by))]
pub fn required_if<T: Element>(
    alloc: Global,
    members: &BTreeMap<String, Tree>,
    key: Key,
    must: bool,
    walk: &mut Walk,
) -> Result<Option<T>, ElementFault>
    ensures value { IfOk result
        (IsOptional T.is_value (get (key_text key) (entries_view members.now.entries))) }
    ensures there { IfOk result (λ value. must ≡ true → IsSome value) }
    ensures reads { Gives result walk.new
        (reading_field key must T.schema (entries_view members.now.entries)
        (walk_view walk.old)) }
{
    match member(members, key.text()) {
        None => {
            if must {
                return Err(walk.missing(alloc, key.text()));
            }
            Ok(None)
        }
        Some(tree) => {
            let value = read_below(alloc, tree, key.text(), walk)?;
            Ok(Some(value))
        }
    }
}
