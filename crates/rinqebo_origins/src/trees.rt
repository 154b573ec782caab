//! The trees of the layers of a run.
ghost use Rattle.std.specs.Prelude.{◌≡◌, IfOk};
ghost use Rattle.nextest_documents.specs.Layers.{layers_view};
ghost use Rattle.rinqebo_origins.specs.Trees.{trees_of};

use nextest_tree::Tree;
use rinqebo_request::Layer;
use std::alloc::{AllocError, Global};

/// The trees of layers.
pub fn trees_of<'l>(
    alloc: Global,
    layers: &'l [Layer<'_>],
) -> Result<Vec<Option<&'l Tree>>, AllocError>
    ensures { IfOk result (λ trees. layers_view trees.items ≡ trees_of layers.entry.now) }
{
    let mut trees = Vec::new(alloc);
    for layer in layers {
        trees.push(layer.tree())?;
    }
    Ok(trees)
}
