//! What a tree has along a path.
ghost use Rattle.std.specs.Prelude.{◌≡◌, option_map};
ghost use Rattle.nextest_tree.specs.View.{tree_view};
ghost use Rattle.nextest_documents.specs.Along.{way_view, way_along, node_along, node_in, leaf_in};
ghost use Rattle.nextest_documents.specs.Layers.{layer_view, keys_view};

use nextest_tree::Tree;

/// Where the way along a path ends in a tree.
#[derive(Clone, Copy)]
pub(crate) enum Way {
    /// At a table that lacks the next key.
    Lost,
    /// At something that is not a table, before the path ends.
    Blocked,
    /// At the end of the path.
    Whole,
}

/// Where the way along a path ends in a tree.
fn way_in(tree: &Tree, path: &[&str]) -> Way
    ensures { way_view result ≡ way_along (keys_view path.now) (tree_view tree.now) }
{
    let mut node = tree;
    for key in path {
        if node.as_table().is_none() {
            return Way::Blocked;
        }
        match node.get(*key) {
            Some(next) => node = next,
            None => return Way::Lost,
        }
    }
    Way::Whole
}

/// Where the way along a path ends in a layer. One without a document is an empty table.
pub(crate) fn way_along(layer: Option<&Tree>, path: &[&str]) -> Way
    ensures { way_view result ≡ way_along (keys_view path.now) (layer_view layer.entry) }
{
    match layer {
        Some(tree) => way_in(tree, path),
        None if path.is_empty() => Way::Whole,
        None => Way::Lost,
    }
}

/// What is at a path of a tree.
fn node_along<'t>(tree: &'t Tree, path: &[&str]) -> Option<&'t Tree>
    ensures { option_map (λ node. tree_view node.now) result
        ≡ node_along (keys_view path.now) (tree_view tree.now) }
{
    let mut node = tree;
    for key in path {
        node = node.get(*key)?;
    }
    Some(node)
}

/// The node at a path of the document of the layer at a position.
pub(crate) fn node_in<'t>(
    layers: &[Option<&'t Tree>],
    position: usize,
    path: &[&str],
) -> Option<&'t Tree>
    ensures { option_map (λ node. tree_view node.now) result
        ≡ node_in layers.now position (keys_view path.now) }
{
    let layer = layers.get(position)?;
    node_along((*layer)?, path)
}

/// The leaf at a path in the document of the layer at a position.
pub(crate) fn leaf_in<'t>(
    layers: &[Option<&'t Tree>],
    position: usize,
    path: &[&str],
) -> Option<&'t Tree>
    ensures { option_map (λ leaf. tree_view leaf.now) result
        ≡ leaf_in layers.now position (keys_view path.now) }
{
    let node = node_in(layers, position, path)?;
    match node {
        Tree::Table(_) => None,
        _ => Some(node),
    }
}
