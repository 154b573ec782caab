//! The tree of a document: what its text says, without dates and floats.
ghost use Rattle.std.specs.Prelude.{◌≡◌, option_map};
ghost use Rattle.std.specs.Option.{option_copied};
ghost use Rattle.nextest_tree.specs.Node.{as_table, as_array, as_text, as_int, as_bool, member_of};
ghost use Rattle.nextest_tree.specs.View.{tree_view, nodes_view, entries_view};

use std::collections::BTreeMap;

/// A value of a configuration file.
///
/// Callers reach into it by the accessors, whose contracts speak of the tree's node alone.
#[derive(Debug, Drop)]
pub enum Tree {
    /// A table, by its keys.
    Table(BTreeMap<String, Tree>),
    /// An array, by position.
    Array(Vec<Tree>),
    /// A text.
    Text(String),
    /// An integer.
    Int(i64),
    /// A boolean.
    Bool(bool),
    /// A float, a date or a time: no setting of nextest is one.
    Opaque,
}

impl Tree {
    /// The entries of a table.
    pub fn as_table(&self) -> Option<&BTreeMap<String, Tree>>
        ensures { option_map (λ members. entries_view members.now.entries) result
            ≡ as_table (tree_view self.now) }
    {
        match self {
            Tree::Table(members) => Some(members),
            _ => None,
        }
    }

    /// The items of an array.
    pub fn as_array(&self) -> Option<&[Tree]>
        ensures { option_map (λ items. nodes_view items.now) result
            ≡ as_array (tree_view self.now) }
    {
        match self {
            Tree::Array(items) => Some(items),
            _ => None,
        }
    }

    /// A text.
    pub fn as_str(&self) -> Option<&str>
        ensures { option_copied result ≡ as_text (tree_view self.now) }
    {
        match self {
            Tree::Text(text) => Some(text.as_str()),
            _ => None,
        }
    }

    /// An integer.
    pub fn as_integer(&self) -> Option<i64>
        ensures { result ≡ as_int (tree_view self.now) }
    {
        match self {
            Tree::Int(number) => Some(*number),
            _ => None,
        }
    }

    /// A boolean.
    pub fn as_bool(&self) -> Option<bool>
        ensures { result ≡ as_bool (tree_view self.now) }
    {
        match self {
            Tree::Bool(flag) => Some(*flag),
            _ => None,
        }
    }

    /// What a table has at a key. Nothing but a table has anything there.
    pub fn get(&self, key: &str) -> Option<&Tree>
        ensures { option_map (λ tree. tree_view tree.now) result
            ≡ member_of key.now (tree_view self.now) }
    {
        match self {
            Tree::Table(members) => members.get(key),
            _ => None,
        }
    }
}
