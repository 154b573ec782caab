//! The nodes of a document that items lead to.
ghost use Rattle.std.specs.Prelude.{◌≡◌, IfOk};
ghost use Rattle.std.specs.Bool.{OnTrue};
ghost use Rattle.toml.specs.Data.{get};
ghost use Rattle.toml.specs.View.{view};
ghost use Rattle.nextest_places.specs.Spans.Nodes.{IsSame, ReadsAs, node_view, nodes_view};
ghost use Rattle.nextest_places.specs.Spans.Nodes as spec;

use crate::spans::item::{Item, Role};
use crate::spans::items::span_text;
use std::alloc::{AllocError, Global};
use toml::Value;

/// The node of a document that each item of its text leads to, if it leads to one: from the node of
/// the item that it is inside, or from the root, by its name or its position.
///
/// # Errors
/// Memory was refused.
pub fn nodes_of<'d>(
    alloc: Global,
    root: &'d Value,
    items: &[Item],
) -> Result<Vec<Option<&'d Value>>, AllocError>
    ensures { IfOk result
        (λ nodes. nodes_view nodes.items ≡ spec.nodes_of (view root.now) items.now) }
{
    let mut nodes = Vec::new(alloc);
    for item in items {
        let node = node_of(root, &nodes, item);
        nodes.push(node)?;
    }
    Ok(nodes)
}

/// The node that an item leads to, given those of the items before it.
fn node_of<'d>(root: &'d Value, nodes: &[Option<&'d Value>], item: &Item) -> Option<&'d Value>
    ensures { node_view result ≡ spec.node_of (view root.now) (nodes_view nodes.now) item.now }
{
    let base = base_of(root, nodes, item.parent)?;
    enter(&item.role, base)
}

/// The node that an item with this parent is inside.
fn base_of<'d>(
    root: &'d Value,
    nodes: &[Option<&'d Value>],
    parent: Option<usize>,
) -> Option<&'d Value>
    ensures { node_view result ≡ spec.base_of (view root.now) (nodes_view nodes.now) parent }
{
    match parent {
        None => Some(root),
        Some(parent) => match nodes.get(parent) {
            None => None,
            Some(node) => *node,
        },
    }
}

/// Where an item leads from the node that it is inside.
fn enter<'d>(role: &Role, node: &'d Value) -> Option<&'d Value>
    ensures { node_view result ≡ spec.enter role.now (view node.now) }
{
    match role {
        Role::Key { name, element, .. } => match name {
            None => None,
            Some(name) => match element {
                None => node.get(name.as_str()),
                Some(position) => element_of(node, name.as_str(), *position),
            },
        },
        Role::Value { position, .. } => match position {
            None => Some(node),
            Some(position) => node.get(*position),
        },
    }
}

/// The item of the list that a table has at a name.
fn element_of<'d>(node: &'d Value, name: &str, position: usize) -> Option<&'d Value>
    ensures { node_view result ≡ spec.element_of position (get name.now (view node.now)) }
{
    match node.get(name) {
        None => None,
        Some(list) => list.get(position),
    }
}

/// Whether the bytes of an item read as a node.
///
/// # Errors
/// Memory was refused.
pub fn reads_as(alloc: Global, text: &str, item: &Item, node: &Value) -> Result<bool, AllocError>
    ensures { IfOk result (λ reads. OnTrue reads (ReadsAs text.now item.now (view node.now))) }
{
    let Some(own) = span_text(text, item.span.start, item.span.end) else {
        return Ok(false);
    };
    match Value::from_str(alloc, own) {
        Ok(value) => Ok(is_same(&value, node)),
        Err(error) => {
            if error.is_memory() {
                Err(AllocError)
            } else {
                Ok(false)
            }
        }
    }
}

/// Whether a value and a node are the same, or of a float, a date-time, a list or a table of one
/// kind.
fn is_same(value: &Value, node: &Value) -> bool
    ensures { OnTrue result (IsSame (view value.now) (view node.now)) }
{
    match value {
        Value::String(text) => match node.as_str() {
            Some(other) => text.as_str() == other,
            None => false,
        },
        Value::Integer(number) => match node.as_integer() {
            Some(other) => *number == other,
            None => false,
        },
        Value::Boolean(flag) => match node.as_bool() {
            Some(other) => *flag == other,
            None => false,
        },
        Value::Float(_) => node.is_float(),
        Value::Datetime(_) => node.is_datetime(),
        Value::Array(_) => node.is_array(),
        Value::Table(_) => node.is_table(),
    }
}
