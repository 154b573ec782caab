//! What is at a path of a file, in words.
ghost use Rattle.std.specs.Prelude.{◌≡◌, option_map};
ghost use Rattle.nextest_tree.specs.View.{entries_view, nodes_view, tree_view};
ghost use Rattle.nextest_places.specs.Path.{stands_at, step_into};
ghost use Rattle.rinqebo_faults.specs.Given.{is_empty_array, kind_words, profiles_in};

use nextest_places::Step;
use nextest_tree::Tree;
use std::collections::BTreeMap;

/// What is at a key, a name or a position below a tree.
fn below<'t>(tree: &'t Tree, step: Step<'_>) -> Option<&'t Tree>
    ensures { option_map (λ next. tree_view next.now) result
        ≡ step_into step.entry (tree_view tree.now) }
{
    match step {
        Step::Key(key) => tree.get(key),
        Step::Position(position) => tree.as_array()?.get(position),
    }
}

/// What is at a path below a tree.
pub fn tree_at<'t>(tree: &'t Tree, path: &[Step<'_>]) -> Option<&'t Tree>
    ensures { option_map (λ found. tree_view found.now) result
        ≡ stands_at path.now (tree_view tree.now) }
{
    let mut found = tree;
    for step in path {
        found = below(found, *step)?;
    }
    Some(found)
}

/// The profiles of a file.
pub fn profiles_of(tree: Option<&Tree>) -> Option<&BTreeMap<String, Tree>>
    ensures { option_map (λ profiles. entries_view profiles.now.entries) result
        ≡ profiles_in (option_map (λ tree. tree_view tree.now) tree.entry) }
{
    tree?.get("profile")?.as_table()
}

/// The kind of a value, in words.
pub fn kind_words(tree: &Tree) -> &'static str
    ensures { result.now ≡ kind_words (tree_view tree.now) }
{
    match tree {
        Tree::Table(_) => "a table",
        Tree::Array(_) => "an array",
        Tree::Text(_) => "a string",
        Tree::Int(_) => "an integer",
        Tree::Bool(_) => "a boolean",
        Tree::Opaque => "a float or a date",
    }
}

/// Whether an array has no items.
pub fn is_empty_array(items: &[Tree]) -> bool
    ensures { result ≡ is_empty_array (nodes_view items.now) }
{
    match items.split_first() {
        Some(_) => false,
        None => true,
    }
}
