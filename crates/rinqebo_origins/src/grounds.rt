//! Where values of profiles are written.
ghost use Rattle.std.specs.Prelude.{◌≡◌, ◌↔◌, [], ◌∷◌, IfOk, false, option_map};
ghost use Rattle.std.specs.List.{AllZip};
ghost use Rattle.nextest_documents.specs.Grounds.{AreNearestGrounds};
ghost use Rattle.nextest_documents.specs.Layers.{layers_view, keys_view};
ghost use Rattle.rinqebo_report.specs.declared.origin.Origin.TheVariants as kinds;
ghost use Rattle.rinqebo_origins.specs.ProfileOrigins.{AreIdleOrigins, AreOriginsWritten, AreProfileOrigins, HasNoReport, IsLayerOrigin, IsUnwritten, is_rule_key, key_path, report_path};
ghost use Rattle.rinqebo_origins.specs.Trees.{trees_of};

use crate::rule_places::setting_path;
use crate::trees::trees_of;
use nextest_documents::{Grounds, grounds_of};
use nextest_places::Step;
use nextest_tree::Tree;
use rinqebo_keys::SettingKey;
use rinqebo_report::{Origin, Part, Written};
use rinqebo_request::{Layer, path_place};
use std::alloc::{AllocError, Global};

/// The keys that lead to a setting in the table of a profile.
fn key_path<'k>(alloc: Global, key: SettingKey) -> Result<Vec<&'k str>, AllocError>
    ensures { IfOk result (λ path. keys_view path.items
        ≡ key_path (option_map (λ table. table.now) key.table) key.key.now) }
{
    let mut path = Vec::new(alloc);
    if let Some(name) = key.table {
        path.push(name)?;
    }
    path.push(key.key)?;
    Ok(path)
}

/// Whether rules alone write a key: a profile has no such key.
fn is_of_rules(key: SettingKey) -> bool
    ensures { result ≡ is_rule_key (option_map (λ table. table.now) key.table) key.key.now }
{
    match key.table {
        Some(_) => false,
        None => key.key == "priority" || key.key == "test-group" || key.key == "run-wrapper",
    }
}

/// Whether one of some profiles has a report written.
fn has_report<'t>(
    alloc: Global,
    trees: &[Option<&'t Tree>],
    chain: &[&'t str],
) -> Result<bool, AllocError>
    ensures { IfOk result (λ has_report. (has_report ≡ false)
        ↔ IsUnwritten (layers_view trees.now) (keys_view chain.now) report_path) }
{
    let grounds = grounds_of(alloc, trees, chain, &["junit", "path"])?;
    Ok(grounds.is_some())
}

/// Where a value comes from that no file writes.
pub fn built_in(alloc: Global) -> Result<Vec<Origin>, AllocError>
    ensures { IfOk result (λ origins. origins.items ≡ kinds.BuiltIn ∷ []) }
{
    let mut origins = Vec::new(alloc);
    origins.push(Origin::BuiltIn)?;
    Ok(origins)
}

/// What a profile writes at a key in the layer at a position. The lowest layer is the default
/// table.
fn origin_at(
    alloc: Global,
    layers: &[Layer],
    position: usize,
    profile: &str,
    key: SettingKey,
) -> Result<Origin, AllocError>
    ensures { IfOk result (IsLayerOrigin layers.now profile.now
        (option_map (λ table. table.now) key.table) key.key.now position) }
{
    if position == 0 {
        return Ok(Origin::DefaultTable);
    }
    let table = [Step::Key("profile"), Step::Key(profile)];
    let path = setting_path(alloc, &table, key)?;
    Ok(Origin::Written(Written {
        place: path_place(layers, position, &path),
        profile: String::from_str(alloc, profile)?,
        part: Part::Fields,
    }))
}

/// What a profile writes at a key in the layers at some positions.
fn origins_at(
    alloc: Global,
    layers: &[Layer],
    positions: &[usize],
    profile: &str,
    key: SettingKey,
) -> Result<Vec<Origin>, AllocError>
    ensures { IfOk result (λ origins. AllZip (IsLayerOrigin layers.now profile.now
        (option_map (λ table. table.now) key.table) key.key.now) positions.now origins.items) }
{
    let mut origins = Vec::new(alloc);
    for position in positions {
        origins.push(origin_at(alloc, layers, *position, profile, key)?)?;
    }
    Ok(origins)
}

/// Whether what is written at a key counts: without a report nothing is stored in one.
fn is_counted<'t>(
    alloc: Global,
    trees: &[Option<&'t Tree>],
    chain: &[&'t str],
    key: SettingKey,
) -> Result<bool, AllocError>
    ensures { IfOk result (λ is_counted. (is_counted ≡ false)
        ↔ HasNoReport (layers_view trees.now) (keys_view chain.now)
        (option_map (λ table. table.now) key.table)) }
{
    if !key.is_of_report() {
        return Ok(true);
    }
    has_report(alloc, trees, chain)
}

/// Where the value at a key comes from that a profile of a chain writes. A table without leaves
/// comes from nowhere.
fn written_origins(
    alloc: Global,
    layers: &[Layer],
    chain: &[&str],
    grounds: &Grounds,
    key: SettingKey,
) -> Result<Vec<Origin>, AllocError>
    ensures { let table = option_map (λ table. table.now) key.table in
        AreNearestGrounds (trees_of layers.now) (keys_view chain.now) (key_path table key.key.now)
        grounds.now
        → IfOk result (AreOriginsWritten layers.now (keys_view chain.now) table key.key.now) }
{
    let Some(profile) = chain.get(grounds.profile) else {
        return built_in(alloc);
    };
    if grounds.layers.is_empty() {
        return built_in(alloc);
    }
    origins_at(alloc, layers, &grounds.layers, *profile, key)
}

/// The origins of the value at a key that no rule sets: the layers that write the value of the
/// nearest profile, or none where the default is built in. A key of rules alone is none of a
/// profile, also where a file writes it there, and without a report nothing is stored in one.
pub fn profile_grounds(
    alloc: Global,
    layers: &[Layer],
    chain: &[&str],
    key: SettingKey,
) -> Result<Vec<Origin>, AllocError>
    ensures { IfOk result (λ origins. AreProfileOrigins layers.now (keys_view chain.now)
        (option_map (λ table. table.now) key.table) key.key.now origins.items) }
{
    if is_of_rules(key) {
        return built_in(alloc);
    }
    let trees = trees_of(alloc, layers)?;
    if !is_counted(alloc, &trees, chain, key)? {
        return built_in(alloc);
    }
    let path = key_path(alloc, key)?;
    match grounds_of(alloc, &trees, chain, &path)? {
        Some(grounds) => written_origins(alloc, layers, chain, &grounds, key),
        None => built_in(alloc),
    }
}

/// The origins of what files write at a key of the JUnit report that has no effect, since no
/// profile of the chain writes a report. There is none where a report is written.
pub fn idle_grounds(
    alloc: Global,
    layers: &[Layer],
    chain: &[&str],
    key: SettingKey,
) -> Result<Vec<Origin>, AllocError>
    ensures { IfOk result (AreIdleOrigins layers.now (keys_view chain.now)
        (option_map (λ table. table.now) key.table) key.key.now) }
{
    let trees = trees_of(alloc, layers)?;
    if is_counted(alloc, &trees, &*chain, key)? {
        return Ok(Vec::new(alloc));
    }
    let path = key_path(alloc, key)?;
    match grounds_of(alloc, &trees, chain, &path)? {
        Some(grounds) => written_origins(alloc, layers, chain, &grounds, key),
        None => Ok(Vec::new(alloc)),
    }
}
