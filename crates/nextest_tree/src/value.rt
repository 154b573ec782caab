//! Trees of a document's values.
ghost use Rattle.std.specs.Prelude.{◌≡◌, IfOk};
ghost use Rattle.toml.specs.View.{view, array_view, table_view};
ghost use Rattle.nextest_tree.specs.Node.{IsSorted, NodesAreSorted, EntriesAreSorted};
ghost use Rattle.nextest_tree.specs.View.{tree_view, nodes_view, entries_view};
ghost use Rattle.nextest_tree.specs.Value.{from_data, from_items, from_members};

use crate::tree::Tree;
use std::alloc::{AllocError, Global};
use std::collections::BTreeMap;

impl Tree {
    /// The tree of a document's value. A float, a date and a time are opaque.
    pub fn from_toml(alloc: Global, value: &toml::Value) -> Result<Tree, AllocError>
        ensures is { IfOk result (λ tree. tree_view tree ≡ from_data (view value.now)) }
        ensures sorted { IfOk result (λ tree. IsSorted (tree_view tree)) }
    {
        tree_from_value(alloc, value)
    }
}

#[cycle(tree_from_value)]
fn tree_from_value(alloc: Global, value: &toml::Value) -> Result<Tree, AllocError>
    ensures is { IfOk result (λ tree. tree_view tree ≡ from_data (view value.now)) }
    ensures sorted { IfOk result (λ tree. IsSorted (tree_view tree)) }
{
    match value {
        toml::Value::String(text) => Ok(Tree::Text(text.clone()?)),
        toml::Value::Integer(number) => Ok(Tree::Int(*number)),
        toml::Value::Float(_) => Ok(Tree::Opaque),
        toml::Value::Boolean(flag) => Ok(Tree::Bool(*flag)),
        toml::Value::Datetime(_) => Ok(Tree::Opaque),
        toml::Value::Array(items) => Ok(Tree::Array(trees_of(alloc, items)?)),
        toml::Value::Table(members) => Ok(Tree::Table(table_of(alloc, members)?)),
    }
}

#[cycle(tree_from_value)]
fn trees_of(alloc: Global, items: &toml::value::Array) -> Result<Vec<Tree>, AllocError>
    ensures is { IfOk result (λ trees. nodes_view trees.items ≡ from_items (array_view items.now)) }
    ensures sorted { IfOk result (λ trees. NodesAreSorted (nodes_view trees.items)) }
{
    let mut trees = Vec::new(alloc);
    for item in items {
        trees.push(tree_from_value(alloc, item)?)?;
    }
    Ok(trees)
}

#[cycle(tree_from_value)]
fn table_of(alloc: Global, members: &toml::Table) -> Result<BTreeMap<String, Tree>, AllocError>
    ensures is { IfOk result
        (λ trees. entries_view trees.entries ≡ from_members (table_view members.now)) }
    ensures sorted { IfOk result (λ trees. EntriesAreSorted (entries_view trees.entries)) }
{
    let mut trees = BTreeMap::new(alloc);
    for (key, member) in members.iter() {
        let name = key.clone()?;
        drop(trees.insert(name, tree_from_value(alloc, member)?)?);
    }
    Ok(trees)
}
