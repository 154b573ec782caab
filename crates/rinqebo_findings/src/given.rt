//! What is at a path of the files of a run.
ghost use Rattle.std.specs.Prelude.{◌≡◌, option_map};
ghost use Rattle.nextest_tree.specs.View.{tree_view};
ghost use Rattle.rinqebo_findings.specs.Written.{highest_below, value_at, written_at};

use crate::findings::SourceAt;
use nextest_places::Step;
use nextest_tree::Tree;
use rinqebo_faults::tree_at;
use rinqebo_request::Layer;

/// What the layer at a place writes at a path.
fn written_at<'l>(layers: &'l [Layer<'_>], place: usize, path: &[Step<'_>]) -> Option<&'l Tree>
    ensures { option_map (λ tree. tree_view tree.now) result
        ≡ written_at layers.now path.now place }
{
    tree_at(layers.get(place)?.tree()?, path)
}

/// The place of the highest layer below a place that writes a path, and what it writes there.
pub fn highest_below<'l>(
    layers: &'l [Layer<'_>],
    end: usize,
    path: &[Step<'_>],
) -> Option<(usize, &'l Tree)>
    ensures { option_map (λ found. (found.0, tree_view found.1.now)) result
        ≡ highest_below layers.now path.now end }
{
    for place in (0..end).rev() {
        if let Some(found) = written_at(layers, place, path) {
            return Some((place, found));
        }
    }
    None
}

/// The value at a path in a source. A source that does not write the path is refused for what is
/// below it: the highest source that writes the path counts.
#[tactic(auto, unfolding(crate::specs::Written::value_at))]
pub fn value_at<'l>(source: SourceAt<'l, '_>, path: &[Step<'_>]) -> Option<&'l Tree>
    ensures { option_map (λ tree. tree_view tree.now) result
        ≡ value_at source.entry.layers.now source.entry.position path.now }
{
    if let Some(found) = tree_at(source.tree()?, path) {
        return Some(found);
    }
    let (_place, found) = highest_below(source.layers, source.layers.len(), path)?;
    Some(found)
}
