//! The layer that shows a path.
ghost use Rattle.std.specs.Prelude.{◌≡◌, ◌∷◌, List, MatchOption, is_some};
ghost use Rattle.nextest_tree.specs.Node.{Node};
ghost use Rattle.nextest_documents.specs.Merge.{merged};
ghost use Rattle.nextest_documents.specs.Shown.{node_at};
ghost use Rattle.nextest_documents.specs.Layers.{layers_view, keys_view, Stands, IsHighest};

use crate::along::{Way, way_along};
use nextest_tree::Tree;

/// The position of the highest layer that shows something at a path.
fn highest_layer(layers: &[Option<&Tree>], path: &[&str]) -> Option<usize>
    ensures { let all = layers_view layers.now in
        MatchOption result (¬ Stands all (keys_view path.now))
        (IsHighest all (keys_view path.now)) }
{
    let count = layers.len();
    'down: for back in 0..count {
        let position = count - 1 - back;
        match way_along(layers[position], path) {
            Way::Lost => {}
            Way::Blocked => return None,
            Way::Whole => return Some(position),
        }
    }
    None
}

/// The position of the highest layer that shows something at a path, counted from the lowest on.
///
/// There is none exactly if the layers, laid over one another, have nothing at the path.
pub fn layer_of(layers: &[Option<&Tree>], path: &[&str]) -> Option<usize>
    ensures shown { let all = layers_view layers.now in
        MatchOption result (¬ Stands all (keys_view path.now))
        (IsHighest all (keys_view path.now)) }
    ensures merged { (lowest : Node) (higher : List Node)
        → layers_view layers.now ≡ lowest ∷ higher
        → is_some result ≡ is_some (node_at (keys_view path.now) (merged lowest higher)) }
{
    highest_layer(layers, path)
}
