//! The leaves that files write at keys that are shown as they are written: the rules and the
//! archive of a profile, and beside the profiles features and the version of nextest.
ghost use Rattle.std.specs.Prelude.{◌≡◌, [], ◌∷◌, ◌++◌, Some, IfOk, OnOk, flat_map, length, map, option_and_then, option_map, slice_get};
ghost use Rattle.nextest_inheritance.specs.View.{borrowed_view};
ghost use Rattle.nextest_tree.specs.View.{entries_view, nodes_view, tree_view};
ghost use Rattle.rinqebo_request.specs.Files.Layers.{layer_tree};
ghost use Rattle.rinqebo_origins.specs.LeafValue.{are_texts};
ghost use Rattle.rinqebo_origins.specs.Origins.{key, position, step_view};
ghost use Rattle.rinqebo_origins.specs.SpelledLeaves.{all_leaves, all_spots, file_spots, item_leaves, leaves_in, member_leaves, profile_spots, spelled_view, spot_leaves, spot_node, spot_view, spots_at, value_at};

use nextest_places::Step;
use nextest_tree::Tree;
use rinqebo_request::Layer;
use std::alloc::{AllocError, Global};
use std::collections::BTreeMap;

/// Where something is written that is shown as it is written.
#[derive(Clone, Copy)]
pub(crate) struct Spot<'k> {
    /// The profile under which it is. Without one, it is beside the profiles.
    pub(crate) profile: Option<&'k str>,
    /// The key at which it is.
    pub(crate) key: &'static str,
    /// The position of the layer.
    pub(crate) layer: usize,
}

/// A leaf as a file spells it.
#[derive(Drop)]
pub(crate) struct SpelledLeaf<'t> {
    /// Where it is written.
    pub(crate) spot: Spot<'t>,
    /// The steps to it there.
    pub(crate) steps: Vec<Step<'t>>,
    /// Its value.
    pub(crate) value: &'t Tree,
}

/// Adds the places of a key in all layers, the highest first.
fn add_spots<'k>(
    profile: Option<&'k str>,
    key: &'static str,
    count: usize,
    spots: &mut Vec<Spot<'k>>,
) -> Result<(), AllocError>
    ensures { OnOk result (map spot_view spots.new.items ≡ map spot_view spots.old.items
        ++ spots_at (option_map (λ name. name.now) profile.entry) key.now count) }
{
    'down: for back in 0..count {
        let layer = count - 1 - back;
        spots.push(Spot {
            profile,
            key,
            layer,
        })?;
    }
    Ok(())
}

/// Adds the places under a profile.
fn add_profile_spots<'k>(
    name: &'k str,
    count: usize,
    spots: &mut Vec<Spot<'k>>,
) -> Result<(), AllocError>
    ensures { OnOk result (map spot_view spots.new.items ≡ map spot_view spots.old.items
        ++ profile_spots count name.entry.now) }
{
    add_spots(Some(name), "archive", count, spots)?;
    add_spots(Some(name), "overrides", count, spots)?;
    add_spots(Some(name), "scripts", count, spots)?;
    Ok(())
}

/// Adds the places beside the profiles.
fn add_file_spots(count: usize, spots: &mut Vec<Spot<'_>>) -> Result<(), AllocError>
    ensures { OnOk result (map spot_view spots.new.items ≡ map spot_view spots.old.items
        ++ file_spots count) }
{
    add_spots(None, "experimental", count, spots)?;
    add_spots(None, "nextest-version", count, spots)?;
    Ok(())
}

/// All places of a chain of profiles.
fn spots_of<'k>(alloc: Global, chain: &[&'k str], count: usize) -> Result<Vec<Spot<'k>>, AllocError>
    ensures { IfOk result (λ spots. map spot_view spots.items
        ≡ all_spots count (borrowed_view chain.now)) }
{
    let mut spots = Vec::new(alloc);
    for name in chain {
        add_profile_spots(*name, count, &mut spots)?;
    }
    add_file_spots(count, &mut spots)?;
    Ok(spots)
}

/// Steps with one more.
fn longer<'t>(
    alloc: Global,
    steps: &[Step<'t>],
    step: Step<'t>,
) -> Result<Vec<Step<'t>>, AllocError>
    ensures { IfOk result (λ longer. map step_view longer.items
        ≡ map step_view steps.now ++ step_view step.entry ∷ []) }
{
    let mut longer = Vec::from_slice(alloc, steps)?;
    longer.push(step)?;
    Ok(longer)
}

/// Whether items are texts alone.
fn are_texts(items: &[Tree]) -> bool
    ensures { result ≡ are_texts (nodes_view items.now) }
{
    for item in items {
        match item.as_str() {
            Some(_) => {}
            None => return false,
        }
    }
    true
}

/// Adds a leaf at some steps of a place.
fn add_leaf<'t>(
    alloc: Global,
    spot: Spot<'t>,
    steps: &[Step<'t>],
    value: &'t Tree,
    leaves: &mut Vec<SpelledLeaf<'t>>,
) -> Result<(), AllocError>
    ensures { OnOk result (map spelled_view leaves.new.items ≡ map spelled_view leaves.old.items
        ++ record {
          spot = spot_view spot.entry;
          steps = map step_view steps.now;
          value = tree_view value.now;
        } ∷ []) }
{
    leaves.push(SpelledLeaf {
        spot,
        steps: Vec::from_slice(alloc, steps)?,
        value,
    })?;
    Ok(())
}

/// Adds the leaves of a tree at some steps of a place.
#[cycle(add_leaves)]
fn add_leaves<'t>(
    alloc: Global,
    spot: Spot<'t>,
    steps: &[Step<'t>],
    tree: &'t Tree,
    leaves: &mut Vec<SpelledLeaf<'t>>,
) -> Result<(), AllocError>
    ensures { OnOk result (map spelled_view leaves.new.items ≡ map spelled_view leaves.old.items
        ++ leaves_in (spot_view spot.entry) (map step_view steps.now) (tree_view tree.now)) }
{
    match tree {
        Tree::Table(members) => add_members(alloc, spot, steps, members, leaves),
        Tree::Array(items) => {
            if are_texts(items) {
                add_leaf(alloc, spot, steps, tree, leaves)
            } else {
                add_items(alloc, spot, steps, items, leaves)
            }
        }
        _ => add_leaf(alloc, spot, steps, tree, leaves),
    }
}

/// Adds the leaves of the members of a table.
#[cycle(add_leaves)]
fn add_members<'t>(
    alloc: Global,
    spot: Spot<'t>,
    steps: &[Step<'t>],
    members: &'t BTreeMap<String, Tree>,
    leaves: &mut Vec<SpelledLeaf<'t>>,
) -> Result<(), AllocError>
    ensures { OnOk result (map spelled_view leaves.new.items ≡ map spelled_view leaves.old.items
        ++ member_leaves (spot_view spot.entry) (map step_view steps.now)
        (entries_view members.now.entries)) }
{
    for (key, member) in members.iter() {
        let longer = longer(alloc, steps, Step::Key(key.as_str()))?;
        add_leaves(alloc, spot, &longer, member, leaves)?;
    }
    Ok(())
}

/// Adds the leaves of the items of an array.
#[cycle(add_leaves)]
fn add_items<'t>(
    alloc: Global,
    spot: Spot<'t>,
    steps: &[Step<'t>],
    items: &'t [Tree],
    leaves: &mut Vec<SpelledLeaf<'t>>,
) -> Result<(), AllocError>
    ensures { OnOk result (map spelled_view leaves.new.items ≡ map spelled_view leaves.old.items
        ++ item_leaves (spot_view spot.entry) (map step_view steps.now) 0 (nodes_view items.now)) }
{
    for (position, item) in items.iter().enumerate() {
        let longer = longer(alloc, steps, Step::Position(position))?;
        add_leaves(alloc, spot, &longer, item, leaves)?;
    }
    Ok(())
}

/// The tree of the layer at a position.
pub(crate) fn tree_of<'l>(layers: &'l [Layer<'_>], position: usize) -> Option<&'l Tree>
    ensures { option_map (λ tree. tree_view tree.now) result
        ≡ option_and_then layer_tree (slice_get layers.now position) }
{
    layers.get(position)?.tree()
}

/// What a profile has at a key in a tree, or without one what is there beside the profiles.
fn value_at<'t>(tree: &'t Tree, profile: Option<&str>, key: &str) -> Option<&'t Tree>
    ensures { option_map (λ value. tree_view value.now) result
        ≡ value_at (option_map (λ name. name.now) profile.entry) key.now (tree_view tree.now) }
{
    match profile {
        Some(name) => tree.get("profile")?.get(name)?.get(key),
        None => tree.get(key),
    }
}

/// What is at a place in the layers.
fn spot_value<'l>(layers: &'l [Layer<'_>], spot: Spot<'_>) -> Option<&'l Tree>
    ensures { option_map (λ value. tree_view value.now) result
        ≡ spot_node layers.now (spot_view spot.entry) }
{
    let tree = tree_of(layers, spot.layer)?;
    value_at(tree, spot.profile, spot.key)
}

/// Adds the leaves at a place.
fn add_spot_leaves<'l>(
    alloc: Global,
    layers: &'l [Layer<'_>],
    spot: Spot<'l>,
    leaves: &mut Vec<SpelledLeaf<'l>>,
) -> Result<(), AllocError>
    ensures { OnOk result (map spelled_view leaves.new.items ≡ map spelled_view leaves.old.items
        ++ spot_leaves layers.now (spot_view spot.entry)) }
{
    match spot_value(layers, spot) {
        Some(tree) => add_leaves(alloc, spot, &[Step::Key(spot.key)], tree, leaves),
        None => Ok(()),
    }
}

/// All leaves of a chain of profiles that are shown as they are written.
pub(crate) fn spelled_leaves<'l>(
    alloc: Global,
    layers: &'l [Layer<'_>],
    chain: &[&'l str],
) -> Result<Vec<SpelledLeaf<'l>>, AllocError>
    ensures { IfOk result (λ leaves. map spelled_view leaves.items
        ≡ all_leaves layers.now (borrowed_view chain.now)) }
{
    let spots = spots_of(alloc, chain, layers.len())?;
    let mut leaves = Vec::new(alloc);
    for spot in &spots {
        add_spot_leaves(alloc, layers, *spot, &mut leaves)?;
    }
    Ok(leaves)
}
