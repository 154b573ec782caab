//! The sources of a run, with their texts and trees.
ghost use Rattle.std.specs.Prelude.{◌≡◌, ◌++◌, ◌↔◌, Some, IfOk, IsTrue, MatchOption, OnOk, map, option_map, reverse, string_bytes};
ghost use Rattle.std.specs.List.{position};
ghost use Rattle.nextest_elements.specs.OwnerView.{owner_view};
ghost use Rattle.nextest_sources.specs.Sources.{path_view, source_kind_view, source_view};
ghost use Rattle.nextest_tree.specs.View.{tree_view};
ghost use Rattle.rinqebo_request.specs.Files.Layers.{default_layer, file_layer, layer_tree, layer_view, layers_read, organisation_layers, repository_layer, tool_layer};
ghost use Rattle.rinqebo_request.specs.Files.Origins.{HasNoFile, IsFileAt, reported_file, reported_kind};
ghost use Rattle.rinqebo_request.specs.Files.RuleTables.{host_spec, is_owned_by, lies_at, profile_node, rule_in, rule_node, target_spec, text_in};

use crate::files::document::{Document, NoDocument, read_document};
use crate::files::gathering::Gathered;
use nextest_elements::IdentifierOwner;
use nextest_sources::{ConfigPath, ConfigSource, ConfigSourceKind, FileInput, ToolConfigFile};
use nextest_tables::default_tree;
use nextest_tree::Tree;
use rinqebo_report::{Source, SourceKind};
use std::alloc::{AllocError, Global};

/// A source.
pub struct Layer<'t> {
    /// What brings it, and the path of its file, as reports show them.
    pub source: Source,
    /// The text of its file, if there is one, with its tree and with where the values at its paths
    /// are written. The defaults have none.
    pub places: Option<Document<'t>>,
    /// The table of the defaults, which have no text.
    pub defaults: Option<Tree>,
    /// Why its text is not a document, if it is not one.
    pub fault: Option<NoDocument>,
}

// Written out, so that the proof of a caller sees one call and not the drop of each part.
impl Drop for Layer<'_> {
    fn drop(self) {
        let Layer {
            source: _source,
            places: _places,
            defaults: _defaults,
            fault: _fault,
        } = self;
    }
}

impl Layer<'_> {
    /// The tree of its text, if that is a document, or of the defaults.
    pub fn tree(&self) -> Option<&Tree>
        ensures { option_map (λ tree. tree_view tree.now) result ≡ layer_tree self.now }
    {
        match &self.places {
            Some(document) => document.tree(),
            None => self.defaults.as_ref(),
        }
    }
}

/// The layer of a file that something brings.
fn layer_of<'t>(
    alloc: Global,
    kind: SourceKind,
    file: &'t FileInput,
) -> Result<Layer<'t>, AllocError>
    ensures { IfOk result (λ layer.
        layer_view layer ≡ file_layer (reported_kind kind) file.entry.now) }
{
    let (places, fault) = read_document(alloc, &file.outcome)?;
    Ok(Layer {
        source: Source {
            kind,
            path: Some(String::from_str(alloc, file.path.absolute_path())?),
        },
        places,
        defaults: None,
        fault,
    })
}

/// The layer of the defaults.
fn defaults_layer<'t>(alloc: Global) -> Result<Layer<'t>, AllocError>
    ensures { IfOk result (λ layer. layer_view layer ≡ default_layer) }
{
    Ok(Layer {
        source: Source {
            kind: SourceKind::Default,
            path: None,
        },
        places: None,
        defaults: Some(default_tree(alloc)?),
        fault: None,
    })
}

/// The layer of a tool's file.
fn layer_of_tool<'t>(alloc: Global, tool: &'t ToolConfigFile) -> Result<Layer<'t>, AllocError>
    ensures { IfOk result (λ layer. layer_view layer ≡ tool_layer tool.entry.now) }
{
    let kind = SourceKind::Tool(String::from_str(alloc, tool.tool.as_str())?);
    layer_of(alloc, kind, &tool.config_file)
}

/// The layer of the repository's file.
fn layer_of_repository<'t>(alloc: Global, gathered: &'t Gathered) -> Result<Layer<'t>, AllocError>
    ensures { IfOk result (λ layer. layer_view layer ≡ repository_layer gathered.entry.now) }
{
    match &gathered.config_file {
        Some(file) => layer_of(alloc, SourceKind::Explicit, file),
        None => layer_of(alloc, SourceKind::Discovered, &gathered.paths.shared),
    }
}

/// Adds the layers of tools: the first tool is the highest.
fn add_tools<'t>(
    alloc: Global,
    tools: &'t [ToolConfigFile],
    layers: &mut Vec<Layer<'t>>,
) -> Result<(), AllocError>
    ensures { OnOk result (map layer_view layers.new.items
        ≡ map layer_view layers.old.items ++ map tool_layer (reverse tools.entry.now)) }
{
    let count = tools.len();
    'down: for back in 0..count {
        let layer = layer_of_tool(alloc, &tools[count - 1 - back])?;
        layers.push(layer)?;
    }
    Ok(())
}

/// Adds the layer of the organisation's file, if there is one.
fn add_organisation<'t>(
    alloc: Global,
    file: &'t Option<FileInput>,
    layers: &mut Vec<Layer<'t>>,
) -> Result<(), AllocError>
    ensures { OnOk result (map layer_view layers.new.items
        ≡ map layer_view layers.old.items ++ organisation_layers file.entry.now) }
{
    let Some(file) = file else {
        return Ok(());
    };
    layers.push(layer_of(alloc, SourceKind::Organisation, file)?)?;
    Ok(())
}

/// The layers of a run, the lowest first: the defaults, the files of tools, the organisation's, and the
/// repository's.
pub fn layers_of<'t>(alloc: Global, gathered: &'t Gathered) -> Result<Vec<Layer<'t>>, AllocError>
    ensures { IfOk result (λ layers.
        map layer_view layers.items ≡ layers_read gathered.entry.now) }
{
    let mut layers = Vec::new(alloc);
    layers.push(defaults_layer(alloc)?)?;
    add_tools(alloc, &gathered.tools, &mut layers)?;
    add_organisation(alloc, &gathered.organisation_file, &mut layers)?;
    layers.push(layer_of_repository(alloc, gathered)?)?;
    Ok(layers)
}

/// A copy of a kind of source.
fn copied_kind(kind: &SourceKind) -> Result<SourceKind, AllocError>
    ensures { IfOk result (λ copy. reported_kind copy ≡ reported_kind kind.now) }
{
    match kind {
        SourceKind::Default => Ok(SourceKind::Default),
        SourceKind::Tool(name) => Ok(SourceKind::Tool(name.clone()?)),
        SourceKind::Organisation => Ok(SourceKind::Organisation),
        SourceKind::Explicit => Ok(SourceKind::Explicit),
        SourceKind::Discovered => Ok(SourceKind::Discovered),
    }
}

/// A copy of a path, if there is one.
fn copied_path(path: &Option<String>) -> Result<Option<String>, AllocError>
    ensures { IfOk result (λ copy.
        option_map string_bytes copy ≡ option_map string_bytes path.now) }
{
    match path {
        Some(path) => Ok(Some(path.clone()?)),
        None => Ok(None),
    }
}

/// A copy of a source.
fn copied(source: &Source) -> Result<Source, AllocError>
    ensures { IfOk result (λ copy. reported_file copy ≡ reported_file source.now) }
{
    Ok(Source {
        kind: copied_kind(&source.kind)?,
        path: copied_path(&source.path)?,
    })
}

/// The sources of layers.
pub fn sources_of(alloc: Global, layers: &[Layer]) -> Result<Vec<Source>, AllocError>
    ensures { IfOk result (λ sources. map reported_file sources.items
        ≡ map (λ layer. reported_file layer.source) layers.now) }
{
    let mut sources = Vec::new(alloc);
    for layer in layers {
        sources.push(copied(&layer.source)?)?;
    }
    Ok(sources)
}

/// Whether a report names what brings a file so.
fn is_kind(told: &SourceKind, kind: &ConfigSourceKind) -> bool
    ensures { IsTrue result ↔ (reported_kind told.now ≡ Some (source_kind_view kind.now)) }
{
    match (told, kind) {
        (SourceKind::Tool(name), ConfigSourceKind::Tool(tool)) => name.as_str() == tool.as_str(),
        (SourceKind::Organisation, ConfigSourceKind::Organisation) => true,
        (SourceKind::Explicit, ConfigSourceKind::ExplicitRepository) => true,
        (SourceKind::Discovered, ConfigSourceKind::DiscoveredRepository) => true,
        _ => false,
    }
}

/// Whether a file that is reported is a source of a load: of its kind, at its path.
fn is_source(told: &Source, source: &ConfigSource) -> bool
    ensures { IsTrue result ↔ (reported_file told.now ≡ Some (source_view source.now)) }
{
    let Some(path) = &told.path else {
        return false;
    };
    is_kind(&told.kind, source.kind()) && path.as_str() == source.path().absolute_path()
}

/// The place of a source of a load among layers.
pub fn place_of(layers: &[Layer], source: &ConfigSource) -> Option<usize>
    ensures { MatchOption result (HasNoFile layers.now (source_view source.now))
        (IsFileAt layers.now (source_view source.now)) }
{
    for (place, layer) in layers.iter().enumerate() {
        if is_source(&layer.source, source) {
            return Some(place);
        }
    }
    None
}

/// Whether a file that is reported is the one of an owner, a tool or the organisation, or with no
/// owner the repository's.
fn is_owned_by(kind: &SourceKind, owner: IdentifierOwner<'_>) -> bool
    ensures { result ≡ is_owned_by (owner_view owner.entry) (reported_kind kind.now) }
{
    match (kind, owner) {
        (SourceKind::Tool(name), IdentifierOwner::Tool(tool)) => name.as_str() == tool,
        (SourceKind::Organisation, IdentifierOwner::Organisation) => true,
        (SourceKind::Explicit | SourceKind::Discovered, IdentifierOwner::Nobody) => true,
        _ => false,
    }
}

/// Whether a file that is reported is the one of an owner at a path.
fn lies_at(reported: &Source, owner: IdentifierOwner<'_>, path: &ConfigPath) -> bool
    ensures { result
        ≡ lies_at (owner_view owner.entry) (path_view path.now) (reported_file reported.now) }
{
    match &reported.path {
        Some(reported_path) => {
            is_owned_by(&reported.kind, owner) && reported_path.as_str() == path.absolute_path()
        }
        None => false,
    }
}

/// The place among layers of the file of an owner, a tool or the organisation, or with no owner of
/// the repository's.
pub fn place_at(layers: &[Layer], owner: IdentifierOwner<'_>, path: &ConfigPath) -> Option<usize>
    ensures { result ≡ position (λ layer.
        lies_at (owner_view owner.entry) (path_view path.now) (reported_file layer.source))
        layers.now }
{
    layers
        .iter()
        .position(|layer| lies_at(&layer.source, owner, path))
}

/// The table of a profile in a tree.
pub fn profile_table<'t>(tree: &'t Tree, profile: &str) -> Option<&'t Tree>
    ensures { option_map (λ table. tree_view table.now) result
        ≡ profile_node profile.now (tree_view tree.now) }
{
    tree.get("profile")?.get(profile)
}

/// The rule at a position of a list of a profile.
pub fn rule_table<'t>(tree: &'t Tree, profile: &str, list: &str, index: usize) -> Option<&'t Tree>
    ensures { option_map (λ table. tree_view table.now) result
        ≡ rule_node profile.now list.now index (tree_view tree.now) }
{
    profile_table(tree, profile)?
        .get(list)?
        .as_array()?
        .get(index)
}

/// The table of a rule in the file at a place among layers.
pub fn rule_at<'t>(
    layers: &'t [Layer],
    place: Option<usize>,
    profile: &str,
    list: &str,
    index: usize,
) -> Option<&'t Tree>
    ensures { option_map (λ table. tree_view table.now) result
        ≡ rule_in layers.now place profile.now list.now index }
{
    let layer = layers.get(place?)?;
    rule_table(layer.tree()?, profile, list, index)
}

/// A text at a key of a table.
pub fn text_at<'t>(table: Option<&'t Tree>, key: &str) -> Option<&'t str>
    ensures { option_map (λ text. text.now) result
        ≡ text_in key.now (option_map (λ tree. tree_view tree.now) table.entry) }
{
    table?.get(key)?.as_str()
}

/// The text of what the host has to meet for a rule.
pub fn host_text(rule: Option<&Tree>) -> Option<&str>
    ensures { option_map (λ text. text.now) result
        ≡ host_spec (option_map (λ tree. tree_view tree.now) rule.entry) }
{
    text_at(rule?.get("platform"), "host")
}

/// The text of what the platform has to meet for a rule which a binary runs on.
pub fn target_text(rule: Option<&Tree>) -> Option<&str>
    ensures { option_map (λ text. text.now) result
        ≡ target_spec (option_map (λ tree. tree_view tree.now) rule.entry) }
{
    let platform = rule?.get("platform")?;
    match platform.as_str() {
        Some(text) => Some(text),
        None => text_at(Some(platform), "target"),
    }
}
