//! Readers of a table of fields, and how its other keys are treated.
ghost use Rattle.std.specs.Prelude.{◌≡◌, [], IfOk, IfErr, OnOk, None, map};
ghost use Rattle.std.specs.Option.{option_copied};
ghost use Rattle.nextest_tree.specs.Node as Node;
ghost use Rattle.nextest_tree.specs.Key.{key_text};
ghost use Rattle.nextest_tree.specs.View.{tree_view, entries_view};
ghost use Rattle.nextest_tree.specs.Schema.{Schema, struct, closed_struct, are_noted, are_refused, first, others, is_one_of};
ghost use Rattle.nextest_tree.specs.Reads.{InTable, Gives, Fails, fault_view, walk_view, reading};
ghost use Rattle.nextest_tree.specs.ReadSteps.{noting_others, refusing_others};

use crate::element::Record;
use crate::fault::{ElementCause, ElementFault};
use crate::key::Key;
use crate::tree::Tree;
use crate::walk::Walk;
use std::alloc::Global;
use std::collections::BTreeMap;

/// Reads a table of fields that refuses its other keys: the first of them is refused before any
/// field is looked at.
///
/// The other schema says what may be in place of a table, which is not read here.
#[tactic(auto, using(crate::proofs::Reading::closed_table), unfolding(crate::specs::ReadSteps::reading_closed))]
pub fn read_closed_record<T: Record>(
    alloc: Global,
    members: &BTreeMap<String, Tree>,
    walk: &mut Walk,
) -> Result<T, ElementFault>
    ensures value { IfOk result (T.is_record (entries_view members.now.entries)) }
    ensures reads { let es = entries_view members.now.entries in (other : Schema)
        → Gives result walk.new
        (reading (closed_struct other T.fields) (Node.table es) (walk_view walk.old)) }
{
    refuse_others(alloc, members, T::keys(), walk)?;
    let value = T::read_fields(alloc, members, walk)?;
    Ok(value)
}

/// Reads a table of fields, and notes its other keys.
#[tactic(auto, using(crate::proofs::Reading::reading_table))]
pub fn read_record<T: Record>(
    alloc: Global,
    members: &BTreeMap<String, Tree>,
    walk: &mut Walk,
) -> Result<T, ElementFault>
    ensures value { IfOk result (T.is_record (entries_view members.now.entries)) }
    ensures reads { Gives result walk.new
        (reading (struct T.fields) (Node.table (entries_view members.now.entries))
        (walk_view walk.old)) }
{
    let value = T::read_fields(alloc, members, walk)?;
    note_others(alloc, members, T::keys(), walk)?;
    Ok(value)
}

/// Reads a value that only a table of fields spells: anything else is of the wrong kind.
#[tactic(auto, unfolding(crate::specs::Reads::reading, crate::specs::Reads::walk_view))]
pub fn read_table<T: Record>(alloc: Global, tree: &Tree, walk: &mut Walk) -> Result<T, ElementFault>
    ensures value { IfOk result (InTable T.is_record (tree_view tree.now)) }
    ensures reads { Gives result walk.new
        (reading (struct T.fields) (tree_view tree.now) (walk_view walk.old)) }
{
    match tree {
        Tree::Table(members) => read_record(alloc, members, walk),
        _ => Err(walk.fault(alloc, ElementCause::WrongKind)),
    }
}

/// The first of the keys, in their order, that is not among the names.
fn first_other<'a>(members: &'a BTreeMap<String, Tree>, names: &[Key]) -> Option<&'a str>
    ensures { option_copied result ≡ first (others names.now (entries_view members.now.entries)) }
{
    for key in members.keys() {
        if !is_among(names, key.as_str()) {
            return Some(key.as_str());
        }
    }
    None
}

/// Refuses the first of the keys, in their order, that is not among the names.
#[tactic(auto, using(crate::proofs::Reading::refusing_first))]
fn refuse_others(
    alloc: Global,
    members: &BTreeMap<String, Tree>,
    names: &[Key],
    walk: &mut Walk,
) -> Result<(), ElementFault>
    ensures { Gives result walk.new
        (refusing_others are_refused names.now (entries_view members.now.entries)
        (walk_view walk.old)) }
{
    match first_other(members, names) {
        None => Ok(()),
        Some(key) => {
            walk.enter(alloc, key)?;
            Err(walk.fault(alloc, ElementCause::UnknownField))
        }
    }
}

/// Notes the keys that are not among the names.
fn note_others(
    alloc: Global,
    members: &BTreeMap<String, Tree>,
    names: &[Key],
    walk: &mut Walk,
) -> Result<(), ElementFault>
    ensures ok { OnOk result (walk_view walk.new
        ≡ noting_others are_noted names.now (entries_view members.now.entries)
        (walk_view walk.old)) }
    ensures err { IfErr result (λ e. fault_view e ≡ None) }
{
    for key in members.keys() {
        if !is_among(names, key.as_str()) {
            walk.note(alloc, key.as_str())?;
        }
    }
    Ok(())
}

fn is_among(names: &[Key], key: &str) -> bool
    ensures { result ≡ is_one_of (map key_text names.now) key.now }
{
    for name in names {
        if name.text() == key {
            return true;
        }
    }
    false
}
