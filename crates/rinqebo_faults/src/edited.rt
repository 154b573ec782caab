//! Documents as texts, with edits.
ghost use Rattle.std.specs.Prelude.{◌≡◌, ◌++◌, [], IfOk, OnOk, flat_map, option_map, string_bytes};
ghost use Rattle.std.specs.Option.{option_copied, option_map_or};
ghost use Rattle.nextest_places.specs.Spans.Paths.{path_step};
ghost use Rattle.nextest_tree.specs.View.{entries_view, nodes_view, tree_view};
ghost use Rattle.rinqebo_report.specs.TomlText.{quoted};
ghost use Rattle.rinqebo_faults.specs.Edits.{edits_view, mark_below};
ghost use Rattle.rinqebo_faults.specs.Edited.{edited_document_text, edited_text, entry_text, entry_texts, item_text, item_texts, scalar_text, table_text, text_at, with_part, written_text};

use crate::edits::{Edits, mark_below, mark_of_source};
use nextest_places::Step;
use nextest_tree::Tree;
use rinqebo_report::{Scalar, Value, value_text};
use std::alloc::{AllocError, Global};
use std::collections::BTreeMap;

/// A string, in quotes.
fn quoted(alloc: Global, text: &str) -> Result<String, AllocError>
    ensures { IfOk result (λ literal. string_bytes literal ≡ quoted text.now) }
{
    let text = String::from_str(alloc, text)?;
    value_text(alloc, &Value::Scalar(Scalar::Text(text)))
}

/// A value that is neither a table nor an array.
fn scalar_text(alloc: Global, tree: &Tree) -> Result<String, AllocError>
    ensures { IfOk result (λ text. string_bytes text ≡ scalar_text (tree_view tree.now)) }
{
    match tree {
        Tree::Text(text) => quoted(alloc, text.as_str()),
        Tree::Int(number) => format!(in alloc; "{number}"),
        Tree::Bool(flag) => format!(in alloc; "{flag}"),
        Tree::Opaque | Tree::Table(_) | Tree::Array(_) => String::from_str(alloc, "0.0"),
    }
}

/// Adds a part to a text, if there is one, behind a separator if the text has something.
fn add_part(text: &mut String, separator: &str, part: Option<&str>) -> Result<(), AllocError>
    ensures { OnOk result (string_bytes text.new
        ≡ with_part separator.now (string_bytes text.old) (option_copied part.entry)) }
{
    let Some(part) = part else {
        return Ok(());
    };
    if !text.is_empty() {
        text.push_str(separator)?;
    }
    text.push_str(part)
}

/// Adds an entry of a table to a text, if it has a value.
fn add_entry(
    alloc: Global,
    text: &mut String,
    separator: &str,
    key: &str,
    value: Option<String>,
) -> Result<(), AllocError>
    ensures { OnOk result (string_bytes text.new ≡ with_part separator.now (string_bytes text.old)
        (option_map (entry_text key.now) (option_map string_bytes value))) }
{
    let Some(value) = value else {
        return Ok(());
    };
    let name = quoted(alloc, key)?;
    let entry = format!(in alloc; "{name} = {value}")?;
    add_part(text, separator, Some(entry.as_str()))
}

/// Adds an item of an array to a text, if it has a value.
fn add_item(text: &mut String, value: Option<String>) -> Result<(), AllocError>
    ensures { OnOk result (string_bytes text.new ≡ string_bytes text.old
        ++ option_map_or item_text (option_map string_bytes value) []) }
{
    let Some(value) = value else {
        return Ok(());
    };
    text.push_str(value.as_str())?;
    text.push_str(", ")
}

/// A value with the edits at its mark and below.
#[cycle(edited)]
fn edited(alloc: Global, tree: &Tree, edits: &Edits, mark: &str) -> Result<String, AllocError>
    ensures { IfOk result (λ text. string_bytes text
        ≡ edited_text (edits_view edits.now) mark.now (tree_view tree.now)) }
{
    match edits.replacement(mark) {
        Some(text) => String::from_str(alloc, text),
        None => written(alloc, tree, edits, mark),
    }
}

/// A value as it is written, with the edits below its mark.
#[cycle(edited)]
fn written(alloc: Global, tree: &Tree, edits: &Edits, mark: &str) -> Result<String, AllocError>
    ensures { IfOk result (λ text. string_bytes text
        ≡ written_text (edits_view edits.now) mark.now (tree_view tree.now)) }
{
    match tree {
        Tree::Table(members) => {
            let entries = edited_members(alloc, members, edits, mark, ", ")?;
            format!(in alloc; "{{ {entries} }}")
        }
        Tree::Array(items) => {
            let items = edited_items(alloc, items, edits, mark)?;
            format!(in alloc; "[{items}]")
        }
        Tree::Text(_) | Tree::Int(_) | Tree::Bool(_) | Tree::Opaque => scalar_text(alloc, tree),
    }
}

/// The value one step below a mark with its edits, unless it is left out.
#[cycle(edited)]
fn edited_below(
    alloc: Global,
    tree: &Tree,
    edits: &Edits,
    mark: &str,
    step: Step<'_>,
) -> Result<Option<String>, AllocError>
    ensures { let edits = edits_view edits.now in
        let below = mark_below mark.now (path_step step.entry) in
        IfOk result (λ value. option_map string_bytes value
        ≡ text_at edits below (written_text edits below (tree_view tree.now))) }
{
    let below = mark_below(alloc, mark, step)?;
    if edits.removes(below.as_str()) {
        return Ok(None);
    }
    let value = edited(alloc, tree, edits, below.as_str())?;
    Ok(Some(value))
}

/// The items of an array, with edits.
#[cycle(edited)]
fn edited_items(
    alloc: Global,
    items: &[Tree],
    edits: &Edits,
    mark: &str,
) -> Result<String, AllocError>
    ensures { let view = edits_view edits.now in IfOk result (λ text. string_bytes text
        ≡ flat_map item_text (item_texts view mark.now 0 (nodes_view items.now))) }
{
    let mut text = String::new(alloc);
    for (position, item) in items.iter().enumerate() {
        let value = edited_below(alloc, item, edits, mark, Step::Position(position))?;
        add_item(&mut text, value)?;
    }
    Ok(text)
}

/// The entries of a table, with edits and something between them.
#[cycle(edited)]
fn edited_members(
    alloc: Global,
    members: &BTreeMap<String, Tree>,
    edits: &Edits,
    mark: &str,
    separator: &str,
) -> Result<String, AllocError>
    ensures { let view = edits_view edits.now in IfOk result (λ text. string_bytes text
        ≡ table_text separator.now (entry_texts view mark.now (entries_view members.now.entries))
        (view.added mark.now)) }
{
    let mut text = String::new(alloc);
    for (key, tree) in members.iter() {
        let name = key.as_str();
        let value = edited_below(alloc, tree, edits, mark, Step::Key(name))?;
        add_entry(alloc, &mut text, separator, name, value)?;
    }
    add_part(&mut text, separator, edits.additions(mark))?;
    Ok(text)
}

/// The document of the source at a place among the layers, with edits.
pub fn edited_document(
    alloc: Global,
    tree: &Tree,
    edits: &Edits,
    place: usize,
) -> Result<String, AllocError>
    ensures { IfOk result (λ text. string_bytes text
        ≡ edited_document_text (edits_view edits.now) place (tree_view tree.now)) }
{
    let mark = mark_of_source(alloc, place)?;
    match tree {
        Tree::Table(members) => edited_members(alloc, members, edits, mark.as_str(), "\n"),
        Tree::Text(_) | Tree::Int(_) | Tree::Bool(_) | Tree::Array(_) | Tree::Opaque => {
            Ok(String::new(alloc))
        }
    }
}
