//! The leaves that a configuration writes.
ghost use Rattle.std.specs.Prelude.{◌≡◌, ◌++◌, ◌↔◌, List, IfOk, OnOk, IsTrue, MatchOption, Contains, Some, false, map, option_map};
ghost use Rattle.std.specs.List.{AllByRecursion};
ghost use Rattle.std.specs.List.Sorted.{IsStrictlySortedBy};
ghost use Rattle.nextest_documents.specs.Shown.{Path};
ghost use Rattle.nextest_tree.specs.Node.{Node};
ghost use Rattle.nextest_tree.specs.View.{tree_view};
ghost use Rattle.nextest_documents.specs.Along.{leaf_in};
ghost use Rattle.nextest_documents.specs.Entries.{leaf_view, Counts, AreEntries, path_cmp};
ghost use Rattle.nextest_documents.specs.Grounds.{Writes};
ghost use Rattle.nextest_documents.specs.Layers.{layers_view, keys_view};
ghost use Rattle.nextest_documents.specs.Leaves.{paths_view};
ghost use Rattle.nextest_documents.specs.Sections.{section_view, base_path, nearer_than, value_path};
ghost use Rattle.nextest_documents.specs.Writers.{writer_view, writers_in, writers, IsToldAndAsked, IsFound, AddsFound, AreAllFound};

use crate::along::{leaf_in, node_in};
use crate::grounds::{grounds_of, shows_leaf};
use crate::leaves::add_leaf_paths;
use crate::section::{Section, front, is_told, path_in_section, value_path};
use crate::spelling::is_asked;
use nextest_tree::Tree;
use std::alloc::{AllocError, Global};
use std::collections::BTreeSet;

/// A leaf that a layer writes.
#[derive(Drop)]
pub struct LayerLeaf<'t> {
    /// The keys that lead to it, from the table of its profile on, or of a table beside the
    /// profiles from the root on.
    pub path: Vec<&'t str>,
    /// The value there, which is not a table.
    pub value: &'t Tree,
    /// The section of the layer that it is in.
    pub section: Section<'t>,
    /// The position of the layer, counted from the lowest on.
    pub layer: usize,
    /// Whether it does not count: a higher layer hides it, or a nearer profile writes the value
    /// that it is of.
    pub is_hidden: bool,
}

/// A section of a layer, which may write leaves.
#[derive(Clone, Copy)]
struct Writer<'t> {
    section: Section<'t>,
    /// The position of the layer.
    layer: usize,
}

/// What is requested.
#[derive(Clone, Copy)]
struct Query<'t> {
    layers: &'t [Option<&'t Tree>],
    keys: &'t [&'t str],
    with_hidden: bool,
}

/// Adds a section of each layer, the highest first.
fn add_writers<'t>(
    section: Section<'t>,
    count: usize,
    writers: &mut Vec<Writer<'t>>,
) -> Result<(), AllocError>
    ensures { OnOk result (map writer_view writers.new.items
        ≡ map writer_view writers.old.items ++ writers_in count (section_view section.entry)) }
{
    'down: for back in 0..count {
        let layer = count - 1 - back;
        writers.push(Writer { section, layer })?;
    }
    Ok(())
}

/// The sections of all layers: those of the nearest profile first.
fn writers_of<'t>(
    alloc: Global,
    chain: &'t [&'t str],
    count: usize,
) -> Result<Vec<Writer<'t>>, AllocError>
    ensures { IfOk result (λ all. map writer_view all.items
        ≡ writers (keys_view chain.entry.now) count) }
{
    let mut writers = Vec::new(alloc);
    for (i, name) in chain.iter().enumerate() {
        let section = Section::Profile {
            nearer: front(chain, i),
            name: *name,
        };
        add_writers(section, count, &mut writers)?;
    }
    add_writers(Section::Beside, count, &mut writers)?;
    Ok(writers)
}

/// Adds paths to a set.
fn insert_all<'t>(
    alloc: Global,
    paths: &[Vec<&'t str>],
    set: &mut BTreeSet<Vec<&'t str>>,
) -> Result<(), AllocError>
    ensures kept { OnOk result ((p : Path)
        → Contains (paths_view set.old.keys) p → Contains (paths_view set.new.keys) p) }
    ensures added { OnOk result ((p : Path)
        → Contains (paths_view paths.now) p → Contains (paths_view set.new.keys) p) }
{
    for path in paths {
        set.insert(Vec::from_slice(alloc, path)?)?;
    }
    Ok(())
}

/// Adds the paths of all leaves in a section of a layer to a set.
fn insert_written<'t>(
    alloc: Global,
    layers: &[Option<&'t Tree>],
    writer: Writer<'t>,
    set: &mut BTreeSet<Vec<&'t str>>,
) -> Result<(), AllocError>
    ensures kept { OnOk result ((p : Path)
        → Contains (paths_view set.old.keys) p → Contains (paths_view set.new.keys) p) }
    ensures added { OnOk result ((p : Path) (v : Node)
        → leaf_in layers.now writer.entry.layer
        (base_path (section_view writer.entry.section) ++ p) ≡ Some v
        → Contains (paths_view set.new.keys) p) }
{
    let base = path_in_section(alloc, writer.section, &[])?;
    let Some(node) = node_in(layers, writer.layer, &base) else {
        return Ok(());
    };
    let mut paths = Vec::new(alloc);
    add_leaf_paths(alloc, node, &[], &mut paths)?;
    insert_all(alloc, &paths, set)
}

/// The paths of all leaves in some sections of layers.
fn written_paths<'t>(
    alloc: Global,
    layers: &[Option<&'t Tree>],
    writers: &[Writer<'t>],
) -> Result<BTreeSet<Vec<&'t str>>, AllocError>
    ensures { IfOk result (λ set. AllByRecursion (λ writer. (p : Path) (v : Node)
        → leaf_in layers.now writer.1 (base_path writer.0 ++ p) ≡ Some v
        → Contains (paths_view set.keys) p) (map writer_view writers.now)) }
{
    let mut set = BTreeSet::new(alloc);
    for writer in writers {
        insert_written(alloc, layers, *writer, &mut set)?;
    }
    Ok(set)
}

/// Whether a profile that is nearer than a section writes the value that a leaf is of.
fn is_overruled<'t>(
    alloc: Global,
    layers: &[Option<&'t Tree>],
    section: Section<'t>,
    path: &[&'t str],
) -> Result<bool, AllocError>
    ensures { IfOk result (λ is_overruled. (is_overruled ≡ false)
        ↔ AllByRecursion (λ name. ¬ Writes (layers_view layers.now)
        (value_path (keys_view path.now)) name) (nearer_than (section_view section.entry))) }
{
    match section {
        Section::Profile { nearer, .. } => {
            let grounds = grounds_of(alloc, layers, nearer, value_path(path))?;
            Ok(grounds.is_some())
        }
        Section::Beside => Ok(false),
    }
}

/// Whether the leaf that a section has at a path does not count.
fn is_hidden<'t>(
    alloc: Global,
    layers: &[Option<&'t Tree>],
    writer: Writer<'t>,
    path: &[&'t str],
) -> Result<bool, AllocError>
    ensures { let region = section_view writer.entry.section in
        let p = keys_view path.now in
        IfOk result (λ is_hidden. (v : Node)
        → leaf_in layers.now writer.entry.layer (base_path region ++ p) ≡ Some v
        → (is_hidden ≡ false) ↔ Counts (layers_view layers.now) region p writer.entry.layer v) }
{
    let whole = path_in_section(alloc, writer.section, path)?;
    if !shows_leaf(layers, writer.layer, &whole) {
        return Ok(true);
    }
    is_overruled(alloc, layers, writer.section, path)
}

/// The leaf that a section of a layer has at a path.
fn written_leaf<'t>(
    alloc: Global,
    layers: &[Option<&'t Tree>],
    writer: Writer<'t>,
    path: &[&'t str],
) -> Result<Option<&'t Tree>, AllocError>
    ensures { IfOk result (λ leaf. option_map (λ tree. tree_view tree.now) leaf
        ≡ leaf_in layers.now writer.entry.layer
        (base_path (section_view writer.entry.section) ++ keys_view path.now)) }
{
    let whole = path_in_section(alloc, writer.section, path)?;
    Ok(leaf_in(layers, writer.layer, &whole))
}

/// Whether a leaf at a path is listed and requested.
fn is_wanted<'t>(
    alloc: Global,
    query: Query<'t>,
    section: Section<'t>,
    path: &[&'t str],
) -> Result<bool, AllocError>
    ensures { let p = keys_view path.now in
        IfOk result (λ is_wanted. IsTrue is_wanted
        ↔ IsToldAndAsked (section_view section.entry) (keys_view query.entry.keys.now) p) }
{
    if !is_told(section, path) {
        return Ok(false);
    }
    is_asked(alloc, query.keys, path)
}

/// What a section of a layer adds at a path.
fn entry_of<'t>(
    alloc: Global,
    query: Query<'t>,
    writer: Writer<'t>,
    path: &[&'t str],
) -> Result<Option<LayerLeaf<'t>>, AllocError>
    ensures { IfOk result (λ found. IsFound (layers_view query.entry.layers.now)
        (keys_view query.entry.keys.now) query.entry.with_hidden (keys_view path.now)
        (writer_view writer.entry) (option_map leaf_view found)) }
{
    if !is_wanted(alloc, query, writer.section, path)? {
        return Ok(None);
    }
    let Some(value) = written_leaf(alloc, query.layers, writer, path)? else {
        return Ok(None);
    };
    let is_hidden = is_hidden(alloc, query.layers, writer, path)?;
    if is_hidden && !query.with_hidden {
        return Ok(None);
    }
    Ok(Some(LayerLeaf {
        path: Vec::from_slice(alloc, path)?,
        value,
        section: writer.section,
        layer: writer.layer,
        is_hidden,
    }))
}

/// Adds what sections of layers have at a path.
fn add_entries<'t>(
    alloc: Global,
    query: Query<'t>,
    writers: &[Writer<'t>],
    path: &[&'t str],
    entries: &mut Vec<LayerLeaf<'t>>,
) -> Result<(), AllocError>
    ensures { OnOk result (AddsFound (IsFound (layers_view query.entry.layers.now)
        (keys_view query.entry.keys.now) query.entry.with_hidden (keys_view path.now))
        (map writer_view writers.now)
        (map leaf_view entries.old.items) (map leaf_view entries.new.items)) }
{
    for writer in writers {
        if let Some(entry) = entry_of(alloc, query, *writer, path)? {
            entries.push(entry)?;
        }
    }
    Ok(())
}

/// Adds what sections of layers have at the paths of a set, in order.
fn entries_at<'t>(
    alloc: Global,
    query: Query<'t>,
    writers: &[Writer<'t>],
    paths: &BTreeSet<Vec<&'t str>>,
) -> Result<Vec<LayerLeaf<'t>>, AllocError>
    ensures found { IfOk result (λ entries. AreAllFound
        (IsFound (layers_view query.entry.layers.now) (keys_view query.entry.keys.now)
        query.entry.with_hidden) (map writer_view writers.now) (paths_view paths.now.keys)
        (map leaf_view entries.items)) }
    ensures ascend { OnOk result (IsStrictlySortedBy path_cmp (paths_view paths.now.keys)) }
{
    let mut entries = Vec::new(alloc);
    for path in paths.iter() {
        add_entries(alloc, query, writers, path, &mut entries)?;
    }
    Ok(entries)
}

/// The leaves that layers write in the profiles of a chain, the nearest first, and in the tables
/// `scripts`, `store` and `test-groups`: those that count, and with `with_hidden` all.
///
/// Where keys are given, the list has a leaf if the keys of its path up to one of them, with dots
/// between them, spell one of these. It has no rules of profiles, and a parent for the nearest
/// profile alone. Leaves are sorted by their paths, and those of one path from the nearest profile
/// and the highest layer on.
pub fn entries_of<'t>(
    alloc: Global,
    layers: &'t [Option<&'t Tree>],
    chain: &'t [&'t str],
    keys: &'t [&'t str],
    with_hidden: bool,
) -> Result<Vec<LayerLeaf<'t>>, AllocError>
    ensures { IfOk result (λ entries. AreEntries (layers_view layers.entry.now)
        (keys_view chain.entry.now) (keys_view keys.entry.now) with_hidden
        (map leaf_view entries.items)) }
{
    let query = Query {
        layers,
        keys,
        with_hidden,
    };
    let writers = writers_of(alloc, chain, layers.len())?;
    let paths = written_paths(alloc, layers, &writers)?;
    entries_at(alloc, query, &writers, &paths)
}
