//! Trees of a document's values that are taken apart: their texts are moved, and not copied.
ghost use Rattle.std.specs.Prelude.{◌≡◌, IfOk};
ghost use Rattle.toml.specs.View.{view, array_view, table_view};
ghost use Rattle.nextest_tree.specs.Node.{IsSorted, NodesAreSorted, EntriesAreSorted};
ghost use Rattle.nextest_tree.specs.View.{tree_view, nodes_view, entries_view};
ghost use Rattle.nextest_tree.specs.Value.{from_data, from_items, from_members};

use crate::tree::Tree;
use std::alloc::{AllocError, Global};
use std::collections::BTreeMap;

impl Tree {
    /// The tree of a document's value, as `from_toml` returns it, but without a copy of its texts.
    pub fn from_value(alloc: Global, value: toml::Value) -> Result<Tree, AllocError>
        ensures is { IfOk result (λ tree. tree_view tree ≡ from_data (view value)) }
        ensures sorted { IfOk result (λ tree. IsSorted (tree_view tree)) }
    {
        take_tree(alloc, value)
    }
}

#[cycle(take_tree)]
fn take_tree(alloc: Global, value: toml::Value) -> Result<Tree, AllocError>
    ensures is { IfOk result (λ tree. tree_view tree ≡ from_data (view value)) }
    ensures sorted { IfOk result (λ tree. IsSorted (tree_view tree)) }
{
    match value {
        toml::Value::String(text) => Ok(Tree::Text(text)),
        toml::Value::Integer(number) => Ok(Tree::Int(number)),
        toml::Value::Float(_) => Ok(Tree::Opaque),
        toml::Value::Boolean(flag) => Ok(Tree::Bool(flag)),
        toml::Value::Datetime(_) => Ok(Tree::Opaque),
        toml::Value::Array(items) => Ok(Tree::Array(take_items(alloc, items)?)),
        toml::Value::Table(members) => Ok(Tree::Table(take_members(alloc, members)?)),
    }
}

#[cycle(take_tree)]
fn take_items(alloc: Global, items: toml::value::Array) -> Result<Vec<Tree>, AllocError>
    ensures is { IfOk result (λ trees. nodes_view trees.items ≡ from_items (array_view items)) }
    ensures sorted { IfOk result (λ trees. NodesAreSorted (nodes_view trees.items)) }
{
    let mut trees = Vec::new(alloc);
    for item in items {
        trees.push(take_tree(alloc, item)?)?;
    }
    Ok(trees)
}

#[cycle(take_tree)]
fn take_members(alloc: Global, members: toml::Table) -> Result<BTreeMap<String, Tree>, AllocError>
    ensures is { IfOk result
        (λ trees. entries_view trees.entries ≡ from_members (table_view members)) }
    ensures sorted { IfOk result (λ trees. EntriesAreSorted (entries_view trees.entries)) }
{
    let mut trees = BTreeMap::new(alloc);
    for (key, member) in members {
        drop(trees.insert(key, take_tree(alloc, member)?)?);
    }
    Ok(trees)
}
