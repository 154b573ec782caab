//! The list of the unknown keys of a tree.
ghost use Rattle.std.specs.Prelude.{◌++◌, OnOk};
ghost use Rattle.nextest_tree.specs.Key.{key_text};
ghost use Rattle.nextest_tree.specs.Node.{get};
ghost use Rattle.nextest_tree.specs.Schema.{below, each_entry, each_item, field_unknown, fields_unknown, names_of, others_unknown, unknown};
ghost use Rattle.nextest_tree.specs.View.{tree_view, nodes_view, entries_view};
ghost use Rattle.nextest_shape.specs.Faults.Found.{Adds, path_text, refused_at, step_text};
ghost use Rattle.nextest_shape.specs.Faults.Places.{others_view, place_view, fields_view};

use crate::faults::across::member;
use crate::faults::found::{FoundFault, longer};
use crate::faults::listing::add_unknown;
use crate::faults::place::{Field, Others, Place};
use nextest_places::Step;
use nextest_tree::{Key, Tree};
use std::alloc::{AllocError, Global};
use std::collections::BTreeMap;

/// Adds the keys of a table that are none of its fields, where it notes them.
fn add_noted<'t>(
    alloc: Global,
    others: Others,
    fields: &[Field<Place>],
    path: &[Step<'t>],
    members: &'t BTreeMap<String, Tree>,
    found: &mut Vec<FoundFault<'t>>,
) -> Result<(), AllocError>
    ensures { let es = entries_view members.entry.now.entries in
        OnOk result (Adds found.old.items found.new.items
        (refused_at (others_unknown (others_view others) (names_of (fields_view fields.now))
        (path_text path.now) es))) }
{
    match others {
        Others::Noted => add_unknown(alloc, fields, path, members, found),
        Others::Refused => Ok(()),
    }
}

/// Adds the unknown keys of a tree at a place.
#[cycle(unknown)]
pub(crate) fn add_unknown_keys<'t>(
    alloc: Global,
    place: &Place,
    path: &[Step<'t>],
    tree: &'t Tree,
    found: &mut Vec<FoundFault<'t>>,
) -> Result<(), AllocError>
    ensures { OnOk result (Adds found.old.items found.new.items (refused_at
        (unknown (place_view place.now) (path_text path.now) (tree_view tree.entry.now)))) }
{
    match place {
        Place::Anything => Ok(()),
        Place::Leaf(_) => Ok(()),
        Place::Table {
            others,
            other,
            fields,
            ..
        } => match tree.as_table() {
            Some(members) => add_table(alloc, *others, fields, path, members, found),
            None => add_unknown_keys(alloc, other, path, tree, found),
        },
        Place::Map { values, .. } => match tree.as_table() {
            Some(members) => add_entries(alloc, values, path, members, found),
            None => Ok(()),
        },
        Place::List { other, items, .. } => match tree.as_array() {
            Some(values) => add_items(alloc, items, path, values, found),
            None => add_unknown_keys(alloc, other, path, tree, found),
        },
    }
}

/// Adds the unknown keys of a tree at a place, one step below a path.
#[cycle(unknown)]
fn add_below<'t>(
    alloc: Global,
    place: &Place,
    path: &[Step<'t>],
    step: Step<'t>,
    tree: &'t Tree,
    found: &mut Vec<FoundFault<'t>>,
) -> Result<(), AllocError>
    ensures { OnOk result (Adds found.old.items found.new.items (refused_at
        (unknown (place_view place.now) (below (path_text path.now) (step_text step.entry))
        (tree_view tree.entry.now)))) }
{
    let path = longer(alloc, path, step)?;
    add_unknown_keys(alloc, place, &path, tree, found)?;
    Ok(())
}

/// Adds the unknown keys of a table of fields: those below its fields, and its own.
#[cycle(unknown)]
fn add_table<'t>(
    alloc: Global,
    others: Others,
    fields: &Vec<Field<Place>>,
    path: &[Step<'t>],
    members: &'t BTreeMap<String, Tree>,
    found: &mut Vec<FoundFault<'t>>,
) -> Result<(), AllocError>
    ensures { let fs = fields_view fields.now.items in let p = path_text path.now in
        let es = entries_view members.entry.now.entries in
        OnOk result (Adds found.old.items found.new.items (refused_at
        (fields_unknown fs p es ++ others_unknown (others_view others) (names_of fs) p es))) }
{
    add_fields(alloc, fields, path, members, found)?;
    add_noted(alloc, others, fields, path, members, found)?;
    Ok(())
}

/// Adds the unknown keys below one field of a table.
#[cycle(unknown)]
fn add_field<'t>(
    alloc: Global,
    place: &Place,
    key: Key,
    path: &[Step<'t>],
    members: &'t BTreeMap<String, Tree>,
    found: &mut Vec<FoundFault<'t>>,
) -> Result<(), AllocError>
    ensures { let es = entries_view members.entry.now.entries in
        OnOk result (Adds found.old.items found.new.items (refused_at
        (field_unknown key (unknown (place_view place.now)) (path_text path.now)
        (get (key_text key) es)))) }
{
    match member(members, key) {
        Some(tree) => add_below(alloc, place, path, Step::Key(key.text()), tree, found),
        None => Ok(()),
    }
}

/// Adds the unknown keys below the fields of a table, each in turn.
#[cycle(unknown)]
fn add_fields<'t>(
    alloc: Global,
    fields: &Vec<Field<Place>>,
    path: &[Step<'t>],
    members: &'t BTreeMap<String, Tree>,
    found: &mut Vec<FoundFault<'t>>,
) -> Result<(), AllocError>
    ensures { let es = entries_view members.entry.now.entries in
        OnOk result (Adds found.old.items found.new.items (refused_at
        (fields_unknown (fields_view fields.now.items) (path_text path.now) es))) }
{
    for field in fields {
        add_field(alloc, &field.place, field.key, path, members, found)?;
    }
    Ok(())
}

/// Adds the unknown keys of the entries of a table, each in turn.
#[cycle(unknown)]
fn add_entries<'t>(
    alloc: Global,
    values: &Place,
    path: &[Step<'t>],
    members: &'t BTreeMap<String, Tree>,
    found: &mut Vec<FoundFault<'t>>,
) -> Result<(), AllocError>
    ensures { let p = path_text path.now in let es = entries_view members.entry.now.entries in
        OnOk result (Adds found.old.items found.new.items (refused_at
        (each_entry (λ k n. unknown (place_view values.now) (below p k) n) es))) }
{
    for (key, tree) in members.iter() {
        add_below(alloc, values, path, Step::Key(key.as_str()), tree, found)?;
    }
    Ok(())
}

/// Adds the unknown keys of the items of an array, each in turn.
#[cycle(unknown)]
fn add_items<'t>(
    alloc: Global,
    items: &Place,
    path: &[Step<'t>],
    values: &'t [Tree],
    found: &mut Vec<FoundFault<'t>>,
) -> Result<(), AllocError>
    ensures { OnOk result (Adds found.old.items found.new.items (refused_at
        (each_item (unknown (place_view items.now)) (path_text path.now) 0
        (nodes_view values.entry.now)))) }
{
    for (position, tree) in values.iter().enumerate() {
        add_below(alloc, items, path, Step::Position(position), tree, found)?;
    }
    Ok(())
}
