//! The layers from which a value of profiles comes.
ghost use Rattle.std.specs.Prelude.{◌≡◌, ◌++◌, ◌↔◌, IfOk, IsTrue, MatchOption};
ghost use Rattle.std.specs.List.{AllByRecursion};
ghost use Rattle.nextest_documents.specs.Grounds.{profile_path, Writes, ShowsLeaf, ShowsLeafBelow, AreGrounds, AreNearestGrounds};
ghost use Rattle.nextest_documents.specs.Layers.{layers_view, keys_view};

use crate::along::{leaf_in, node_in};
use crate::layer::layer_of;
use crate::leaves::add_leaf_paths;
use nextest_tree::Tree;
use std::alloc::{AllocError, Global};

/// From where a value of profiles comes.
#[derive(Debug, Drop)]
pub struct Grounds {
    /// The position in the chain of the profile that writes it, the nearest one that does.
    pub profile: usize,
    /// The positions of the layers that show leaves of it, counted from the lowest on, the highest
    /// first. A table without leaves has none.
    pub layers: Vec<usize>,
}

/// The path of a key in the table of a profile.
pub(crate) fn path_in_profile<'k>(
    alloc: Global,
    profile: &'k str,
    key: &[&'k str],
) -> Result<Vec<&'k str>, AllocError>
    ensures { IfOk result (λ path. keys_view path.items
        ≡ profile_path profile.now ++ keys_view key.now) }
{
    let mut path = Vec::new(alloc);
    path.push("profile")?;
    path.push(profile)?;
    path.extend_from_slice(key)?;
    Ok(path)
}

/// Whether the layer at a position shows a leaf at a path.
pub(crate) fn shows_leaf(layers: &[Option<&Tree>], position: usize, path: &[&str]) -> bool
    ensures { IsTrue result
        ↔ ShowsLeaf (layers_view layers.now) (keys_view path.now) position }
{
    let Some(highest) = layer_of(layers, path) else {
        return false;
    };
    if highest != position {
        return false;
    }
    leaf_in(layers, position, path).is_some()
}

/// Whether the layer at a position shows a leaf at a path or below it.
fn shows_leaf_below<'t>(
    alloc: Global,
    layers: &[Option<&'t Tree>],
    position: usize,
    path: &[&'t str],
) -> Result<bool, AllocError>
    ensures { IfOk result (λ shows. IsTrue shows
        ↔ ShowsLeafBelow (layers_view layers.now) (keys_view path.now) position) }
{
    let Some(node) = node_in(layers, position, path) else {
        return Ok(false);
    };
    let mut leaves = Vec::new(alloc);
    add_leaf_paths(alloc, node, path, &mut leaves)?;
    for leaf in &leaves {
        if shows_leaf(layers, position, leaf) {
            return Ok(true);
        }
    }
    Ok(false)
}

/// The positions of the layers that show leaves at a path or below it, the highest first.
fn layers_with_leaves<'t>(
    alloc: Global,
    layers: &[Option<&'t Tree>],
    path: &[&'t str],
) -> Result<Vec<usize>, AllocError>
    ensures { IfOk result (λ positions.
        AreGrounds (layers_view layers.now) (keys_view path.now) positions.items) }
{
    let mut positions = Vec::new(alloc);
    let count = layers.len();
    'down: for back in 0..count {
        let position = count - 1 - back;
        if shows_leaf_below(alloc, layers, position, path)? {
            positions.push(position)?;
        }
    }
    Ok(positions)
}

/// The layers that show leaves of what a profile writes at a key, if it writes something there.
fn layers_of_profile<'t>(
    alloc: Global,
    layers: &[Option<&'t Tree>],
    profile: &'t str,
    key: &[&'t str],
) -> Result<Option<Vec<usize>>, AllocError>
    ensures { let all = layers_view layers.now in
        IfOk result (λ found. MatchOption found
        (¬ Writes all (keys_view key.now) profile.now)
        (λ positions. Writes all (keys_view key.now) profile.now
        × AreGrounds all (profile_path profile.now ++ keys_view key.now) positions.items)) }
{
    let path = path_in_profile(alloc, profile, key)?;
    if layer_of(layers, &path).is_none() {
        return Ok(None);
    }
    let positions = layers_with_leaves(alloc, layers, &path)?;
    Ok(Some(positions))
}

/// From where the value at a key of profiles comes: the nearest profile of a chain that writes
/// something there, in whatever layer, and the layers that show leaves of it.
///
/// The nearest profile of the chain comes first. There are no grounds where no profile writes the
/// key: such a value is built in.
pub fn grounds_of<'t>(
    alloc: Global,
    layers: &[Option<&'t Tree>],
    chain: &[&'t str],
    key: &[&'t str],
) -> Result<Option<Grounds>, AllocError>
    ensures { let all = layers_view layers.now in
        IfOk result (λ found. MatchOption found
        (AllByRecursion (λ name. ¬ Writes all (keys_view key.now) name) (keys_view chain.now))
        (AreNearestGrounds all (keys_view chain.now) (keys_view key.now))) }
{
    for (profile, name) in chain.iter().enumerate() {
        if let Some(layers) = layers_of_profile(alloc, layers, *name, key)? {
            return Ok(Some(Grounds { profile, layers }));
        }
    }
    Ok(None)
}
