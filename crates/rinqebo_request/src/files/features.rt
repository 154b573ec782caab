//! The experimental features of a run.
ghost use Rattle.std.specs.Option.{option_and_then};
ghost use Rattle.std.specs.Prelude.{◌≡◌, ◌-◌, IfOk, length, map, option_map, slice_get};
ghost use Rattle.nextest_tree.specs.View.{tree_view};
ghost use Rattle.rinqebo_request.specs.Files.Features.{AreFeaturesOf};
ghost use Rattle.rinqebo_request.specs.Files.Layers.{layer_tree, layer_view, layers_read};
ghost use Rattle.rinqebo_request.specs.declared.files.gathering.Gathered.{Gathered};

use crate::files::layers::Layer;
use nextest_elements::ConfigExperimental;
use nextest_tree::Tree;
use rinqebo_forms::features_by;
use std::alloc::AllocError;
use std::collections::BTreeSet;

/// Returns the tree of the highest layer, if it is a document.
fn highest_tree<'l>(layers: &'l [Layer]) -> Option<&'l Tree>
    ensures { option_map (λ tree. tree_view tree.now) result
        ≡ option_and_then layer_tree (slice_get layers.now (length layers.now - 1)) }
{
    match layers.last() {
        Some(layer) => layer.tree(),
        None => None,
    }
}

/// Returns the features of a run: those that words switch on, and those of the repository's file,
/// which is the highest of the layers.
pub fn features_of(
    named: &BTreeSet<ConfigExperimental>,
    layers: &[Layer],
) -> Result<BTreeSet<ConfigExperimental>, AllocError>
    ensures { (gathered : Gathered) → map layer_view layers.now ≡ layers_read gathered
        → IfOk result (AreFeaturesOf named.now gathered) }
{
    features_by(named, highest_tree(layers))
}
