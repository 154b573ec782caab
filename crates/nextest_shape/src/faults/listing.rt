//! The list of the faults of a tree.
ghost use Rattle.std.specs.Prelude.{◌≡◌, ◌++◌, [], Some, OnOk, map, if◌then◌else◌};
ghost use Rattle.nextest_tree.specs.Key.{key_text};
ghost use Rattle.nextest_tree.specs.Node.{get};
ghost use Rattle.nextest_tree.specs.Schema.{each_entry, each_item, faults, field_faults, fields_faults, others_faults, are_refused, at, below, is_one_of, missing, names_of, unknown_field};
ghost use Rattle.nextest_tree.specs.View.{tree_view, nodes_view, entries_view};
ghost use Rattle.nextest_shape.specs.Faults.Found.{Adds, path_text, step_text};
ghost use Rattle.nextest_shape.specs.Faults.Places.{across_test, items_test, names_test, need_test, others_view, place_view, fields_view};

use crate::faults::across::{Across, AcrossItems, Names, Need, member};
use crate::faults::found::{FoundFault, add_at, longer};
use crate::faults::place::{Field, Others, Place};
use nextest_places::Step;
use nextest_tree::{ElementCause, Key, Tree};
use std::alloc::{AllocError, Global};
use std::collections::BTreeMap;

/// Whether a key is one of some fields'.
fn is_field(fields: &[Field<Place>], key: &str) -> bool
    ensures { result ≡ is_one_of (map key_text (names_of (fields_view fields.now))) key.now }
{
    for field in fields {
        if field.key.text() == key {
            return true;
        }
    }
    false
}

/// Adds that a table has a key that it refuses.
fn add_unknown_key<'t>(
    alloc: Global,
    key: &'t str,
    path: &[Step<'t>],
    found: &mut Vec<FoundFault<'t>>,
) -> Result<(), AllocError>
    ensures { OnOk result (Adds found.old.items found.new.items
        (at (below (path_text path.now) key.entry.now) (Some unknown_field))) }
{
    let path = longer(alloc, path, Step::Key(key))?;
    add_at(alloc, &path, Some(ElementCause::UnknownField), found)?;
    Ok(())
}

/// Adds each key of a table that is none of its fields.
pub(crate) fn add_unknown<'t>(
    alloc: Global,
    fields: &[Field<Place>],
    path: &[Step<'t>],
    members: &'t BTreeMap<String, Tree>,
    found: &mut Vec<FoundFault<'t>>,
) -> Result<(), AllocError>
    ensures { let es = entries_view members.entry.now.entries in
        OnOk result (Adds found.old.items found.new.items
        (others_faults are_refused (names_of (fields_view fields.now)) (path_text path.now) es)) }
{
    for key in members.keys() {
        if !is_field(fields, key.as_str()) {
            add_unknown_key(alloc, key.as_str(), path, found)?;
        }
    }
    Ok(())
}

/// Adds the faults of the keys of a table that are none of its fields.
fn add_others<'t>(
    alloc: Global,
    others: Others,
    fields: &[Field<Place>],
    path: &[Step<'t>],
    members: &'t BTreeMap<String, Tree>,
    found: &mut Vec<FoundFault<'t>>,
) -> Result<(), AllocError>
    ensures { let es = entries_view members.entry.now.entries in
        OnOk result (Adds found.old.items found.new.items
        (others_faults (others_view others) (names_of (fields_view fields.now))
        (path_text path.now) es)) }
{
    match others {
        Others::Noted => Ok(()),
        Others::Refused => add_unknown(alloc, fields, path, members, found),
    }
}

/// Adds that a table lacks a key.
fn add_missing<'t>(
    alloc: Global,
    key: Key,
    path: &[Step<'t>],
    found: &mut Vec<FoundFault<'t>>,
) -> Result<(), AllocError>
    ensures { OnOk result (Adds found.old.items found.new.items
        (at (path_text path.now) (Some (missing (key_text key))))) }
{
    let cause = ElementCause::Missing(String::from_str(alloc, key.text())?);
    add_at(alloc, path, Some(cause), found)?;
    Ok(())
}

/// Adds that a table lacks a key, if it needs it.
fn add_absent<'t>(
    alloc: Global,
    key: Key,
    is_needed: bool,
    path: &[Step<'t>],
    found: &mut Vec<FoundFault<'t>>,
) -> Result<(), AllocError>
    ensures { OnOk result (Adds found.old.items found.new.items
        (if is_needed then at (path_text path.now) (Some (missing (key_text key))) else [])) }
{
    if is_needed {
        add_missing(alloc, key, path, found)
    } else {
        Ok(())
    }
}

/// Adds the faults of a tree at a place.
#[cycle(listing)]
pub(crate) fn add_faults<'t>(
    alloc: Global,
    place: &Place,
    path: &[Step<'t>],
    tree: &'t Tree,
    found: &mut Vec<FoundFault<'t>>,
) -> Result<(), AllocError>
    ensures { OnOk result (Adds found.old.items found.new.items
        (faults (place_view place.now) (path_text path.now) (tree_view tree.entry.now))) }
{
    match place {
        Place::Anything => Ok(()),
        Place::Leaf(leaf) => add_at(alloc, path, leaf.cause(alloc, tree)?, found),
        Place::Table {
            others,
            other,
            fields,
            across,
        } => match tree.as_table() {
            Some(members) => add_table(alloc, *others, fields, *across, path, members, found),
            None => add_faults(alloc, other, path, tree, found),
        },
        Place::Map { names, values } => match tree.as_table() {
            Some(members) => add_entries(alloc, *names, values, path, members, found),
            None => add_at(alloc, path, Some(ElementCause::WrongKind), found),
        },
        Place::List {
            other,
            items,
            across,
        } => match tree.as_array() {
            Some(values) => add_list(alloc, items, *across, path, values, found),
            None => add_faults(alloc, other, path, tree, found),
        },
    }
}

/// Adds the faults of a tree at a place, one step below a path.
#[cycle(listing)]
fn add_below<'t>(
    alloc: Global,
    place: &Place,
    path: &[Step<'t>],
    step: Step<'t>,
    tree: &'t Tree,
    found: &mut Vec<FoundFault<'t>>,
) -> Result<(), AllocError>
    ensures { OnOk result (Adds found.old.items found.new.items
        (faults (place_view place.now) (below (path_text path.now) (step_text step.entry))
        (tree_view tree.entry.now))) }
{
    let path = longer(alloc, path, step)?;
    add_faults(alloc, place, &path, tree, found)?;
    Ok(())
}

/// Adds the faults of a table of fields: of its other keys, of its fields, and of several of these
/// together.
#[cycle(listing)]
fn add_table<'t>(
    alloc: Global,
    others: Others,
    fields: &Vec<Field<Place>>,
    across: Across,
    path: &[Step<'t>],
    members: &'t BTreeMap<String, Tree>,
    found: &mut Vec<FoundFault<'t>>,
) -> Result<(), AllocError>
    ensures { let fs = fields_view fields.now.items in let p = path_text path.now in
        let es = entries_view members.entry.now.entries in
        OnOk result (Adds found.old.items found.new.items
        (others_faults (others_view others) (names_of fs) p es
        ++ (fields_faults fs p es ++ at p (across_test across es)))) }
{
    add_others(alloc, others, fields, path, members, found)?;
    add_fields(alloc, fields, path, members, found)?;
    add_at(alloc, path, across.cause(members), found)?;
    Ok(())
}

/// Adds the faults of an array: of its items, and of all of them together.
#[cycle(listing)]
fn add_list<'t>(
    alloc: Global,
    items: &Place,
    across: AcrossItems,
    path: &[Step<'t>],
    values: &'t [Tree],
    found: &mut Vec<FoundFault<'t>>,
) -> Result<(), AllocError>
    ensures { let p = path_text path.now in let ns = nodes_view values.entry.now in
        OnOk result (Adds found.old.items found.new.items
        (each_item (faults (place_view items.now)) p 0 ns ++ at p (items_test across ns))) }
{
    add_items(alloc, items, path, values, found)?;
    add_at(alloc, path, across.cause(values), found)?;
    Ok(())
}

/// Adds the faults at one field of a table.
#[cycle(listing)]
fn add_field<'t>(
    alloc: Global,
    place: &Place,
    key: Key,
    need: Need,
    path: &[Step<'t>],
    members: &'t BTreeMap<String, Tree>,
    found: &mut Vec<FoundFault<'t>>,
) -> Result<(), AllocError>
    ensures { let es = entries_view members.entry.now.entries in
        OnOk result (Adds found.old.items found.new.items
        (field_faults key (need_test need es) (faults (place_view place.now))
        (path_text path.now) (get (key_text key) es))) }
{
    match member(members, key) {
        Some(tree) => add_below(alloc, place, path, Step::Key(key.text()), tree, found),
        None => add_absent(alloc, key, need.holds_in(members), path, found),
    }
}

/// Adds the faults at the fields of a table, each in turn.
#[cycle(listing)]
fn add_fields<'t>(
    alloc: Global,
    fields: &Vec<Field<Place>>,
    path: &[Step<'t>],
    members: &'t BTreeMap<String, Tree>,
    found: &mut Vec<FoundFault<'t>>,
) -> Result<(), AllocError>
    ensures { let es = entries_view members.entry.now.entries in
        OnOk result (Adds found.old.items found.new.items
        (fields_faults (fields_view fields.now.items) (path_text path.now) es)) }
{
    for field in fields {
        add_field(
            alloc,
            &field.place,
            field.key,
            field.need,
            path,
            members,
            found,
        )?;
    }
    Ok(())
}

/// Adds the faults of the name and of the value of an entry.
#[cycle(listing)]
fn add_entry<'t>(
    alloc: Global,
    names: Names,
    values: &Place,
    path: &[Step<'t>],
    key: &'t str,
    tree: &'t Tree,
    found: &mut Vec<FoundFault<'t>>,
) -> Result<(), AllocError>
    ensures { let p = below (path_text path.now) key.entry.now in
        OnOk result (Adds found.old.items found.new.items
        (at p (names_test names key.entry.now)
        ++ faults (place_view values.now) p (tree_view tree.entry.now))) }
{
    let path = longer(alloc, path, Step::Key(key))?;
    add_at(alloc, &path, names.cause(alloc, key)?, found)?;
    add_faults(alloc, values, &path, tree, found)?;
    Ok(())
}

/// Adds the faults of the entries of a table, each in turn.
#[cycle(listing)]
fn add_entries<'t>(
    alloc: Global,
    names: Names,
    values: &Place,
    path: &[Step<'t>],
    members: &'t BTreeMap<String, Tree>,
    found: &mut Vec<FoundFault<'t>>,
) -> Result<(), AllocError>
    ensures { let p = path_text path.now in let es = entries_view members.entry.now.entries in
        OnOk result (Adds found.old.items found.new.items
        (each_entry (λ k n. at (below p k) (names_test names k)
        ++ faults (place_view values.now) (below p k) n) es)) }
{
    for (key, tree) in members.iter() {
        add_entry(alloc, names, values, path, key.as_str(), tree, found)?;
    }
    Ok(())
}

/// Adds the faults of the items of an array, each in turn.
#[cycle(listing)]
fn add_items<'t>(
    alloc: Global,
    items: &Place,
    path: &[Step<'t>],
    values: &'t [Tree],
    found: &mut Vec<FoundFault<'t>>,
) -> Result<(), AllocError>
    ensures { OnOk result (Adds found.old.items found.new.items
        (each_item (faults (place_view items.now)) (path_text path.now) 0
        (nodes_view values.entry.now))) }
{
    for (position, tree) in values.iter().enumerate() {
        add_below(alloc, items, path, Step::Position(position), tree, found)?;
    }
    Ok(())
}
