//! What the files of origins have for a value.
ghost use Rattle.std.specs.Prelude.{◌≡◌, [], ◌∷◌, Some, option_and_then, option_map, slice_get, string_bytes};
ghost use Rattle.nextest_tree.specs.View.{tree_view};
ghost use Rattle.rinqebo_request.specs.Files.Layers.{layer_tree};
ghost use Rattle.rinqebo_origins.specs.AsWritten.{are_defaults, node_alone, node_at, origin_node};
ghost use Rattle.rinqebo_origins.specs.Origins.{key, position, key_steps, part_steps, profile_steps};

use crate::spelled::tree_of;
use nextest_tree::Tree;
use rinqebo_keys::SettingKey;
use rinqebo_report::{Origin, Part, Written};
use rinqebo_request::Layer;

/// The rule at a position of a list of a profile.
fn rule_node<'t>(profile: &'t Tree, list: &str, index: usize) -> Option<&'t Tree>
    ensures { option_map (λ tree. tree_view tree.now) result
        ≡ node_at (key list.now ∷ position index ∷ []) (Some (tree_view profile.now)) }
{
    profile.get(list)?.as_array()?.get(index)
}

/// A part of a profile: the profile itself, or one of its rules.
fn part_node(profile: &Tree, part: Part) -> Option<&Tree>
    ensures { option_map (λ tree. tree_view tree.now) result
        ≡ node_at (part_steps part) (Some (tree_view profile.now)) }
{
    match part {
        Part::Fields => Some(profile),
        Part::Override(index) => rule_node(profile, "overrides", index),
        Part::Script(index) => rule_node(profile, "scripts", index),
    }
}

/// A part of a profile in a tree.
#[tactic(auto, using(crate::proofs::OriginNodes::from_none))]
fn profile_node<'t>(tree: &'t Tree, profile: &str, part: Part) -> Option<&'t Tree>
    ensures { option_map (λ tree. tree_view tree.now) result
        ≡ node_at (profile_steps profile.now part) (Some (tree_view tree.now)) }
{
    let profile = tree.get("profile")?.get(profile)?;
    part_node(profile, part)
}

/// What a profile or a rule has at a key.
fn key_node(table: &Tree, key: SettingKey) -> Option<&Tree>
    ensures { option_map (λ tree. tree_view tree.now) result
        ≡ node_at (key_steps (option_map (λ table. table.now) key.table) key.key.now)
        (Some (tree_view table.now)) }
{
    match key.table {
        Some(name) => table.get(name)?.get(key.key),
        None => table.get(key.key),
    }
}

/// The profile or the rule of what is written in a file.
#[tactic(auto, using(crate::proofs::OriginNodes::from_none))]
fn written_node<'l>(layers: &'l [Layer<'_>], written: &Written) -> Option<&'l Tree>
    ensures { option_map (λ tree. tree_view tree.now) result
        ≡ node_at (profile_steps (string_bytes written.now.profile) written.now.part)
        (option_and_then layer_tree (slice_get layers.now written.now.place.source)) }
{
    let tree = tree_of(layers, written.place.source)?;
    profile_node(tree, written.profile.as_str(), written.part)
}

/// What the file of an origin has at a key of the origin's profile or rule. There is nothing where
/// the origin is not a place of a profile in a file.
#[tactic(auto, using(crate::proofs::OriginNodes::from_none))]
fn origin_node<'l>(layers: &'l [Layer<'_>], key: SettingKey, origin: &Origin) -> Option<&'l Tree>
    ensures { option_map (λ tree. tree_view tree.now) result ≡ origin_node layers.now
        (key_steps (option_map (λ table. table.now) key.table) key.key.now) origin.now }
{
    match origin {
        Origin::Written(written) => key_node(written_node(layers, written)?, key),
        Origin::BuiltIn | Origin::DefaultTable | Origin::File(_) => None,
    }
}

/// Whether origins are none, or the defaults alone.
fn are_defaults(origins: &[Origin]) -> bool
    ensures { result ≡ are_defaults origins.now }
{
    match origins {
        [] | [Origin::DefaultTable] => true,
        _ => false,
    }
}

/// What one file alone has at a key for a value that comes from an origin and perhaps from others,
/// beside what the defaults add. There is nothing where several files write the value.
pub fn node_alone<'l>(
    layers: &'l [Layer<'_>],
    key: SettingKey,
    origin: &Origin,
    others: &[Origin],
) -> Option<&'l Tree>
    ensures { option_map (λ tree. tree_view tree.now) result ≡ node_alone layers.now
        (key_steps (option_map (λ table. table.now) key.table) key.key.now)
        (origin.now ∷ others.now) }
{
    if are_defaults(others) {
        origin_node(layers, key, origin)
    } else {
        None
    }
}

/// What one file alone has at a key for a value that comes from some origins, the same way.
pub fn node_of_origins<'l>(
    layers: &'l [Layer<'_>],
    key: SettingKey,
    origins: &[Origin],
) -> Option<&'l Tree>
    ensures { option_map (λ tree. tree_view tree.now) result ≡ node_alone layers.now
        (key_steps (option_map (λ table. table.now) key.table) key.key.now) origins.now }
{
    match origins {
        [origin, others @ ..] => node_alone(layers, key, origin, others),
        [] => None,
    }
}
