//! Reading the parts of the metadata from which a graph is made.
ghost use Rattle.std.specs.Prelude.{◌≡◌, map, flat_map, position, Ok};
ghost use Rattle.std.specs.Result.{result_map_both};
ghost use Rattle.std.specs.Str.{bytes_eq};
ghost use Rattle.serde_json.specs.View.{view};
ghost use Rattle.filter_inputs.specs.Packages.Metadata.{package_ids, package_names, package_of, member_at, members_of, edge_at, node_at, edges_of, text_under};
ghost use Rattle.filter_inputs.specs.Packages.Names.{names_view, ids_view};
ghost use Rattle.filter_inputs.specs.Packages.Results.{Reads, and_then, each};

use crate::fields::JsonField;
use crate::packages::edges::Edge;
use crate::packages::fault::{MetadataFault, MetadataPlace};
use serde_json::Value;
use std::alloc::Global;

/// Reads the string at a key.
pub fn text_under<'v>(
    value: &'v Value,
    key: &str,
    place: MetadataPlace,
) -> Result<&'v str, MetadataFault>
    ensures { result_map_both (λ text. text.now) (λ e. e) result
        ≡ text_under key.now place (view value.now) }
{
    Ok(JsonField::under(value, key, place).text()?)
}

/// Reads the ids of packages.
#[tactic(auto, using(crate::proofs::packages::Gathering::seen_start, crate::proofs::packages::Gathering::seen_all))]
pub fn package_ids(alloc: Global, packages: &[Value]) -> Result<Vec<&str>, MetadataFault>
    ensures { Reads (λ ids. ids_view ids.items) result (package_ids (map view packages.now)) }
{
    let mut ids = Vec::new(alloc);
    for (place, package) in packages.iter().enumerate() {
        let id = text_under(package, "id", MetadataPlace::PackageId(place))?;
        ids.push(id)?;
    }
    Ok(ids)
}

/// Reads the names of packages.
#[tactic(auto, using(crate::proofs::packages::Gathering::seen_start, crate::proofs::packages::Gathering::seen_all))]
pub fn package_names(alloc: Global, packages: &[Value]) -> Result<Vec<String>, MetadataFault>
    ensures { Reads (λ names. names_view names.items) result
        (package_names (map view packages.now)) }
{
    let mut names = Vec::new(alloc);
    for (place, package) in packages.iter().enumerate() {
        let name = text_under(package, "name", MetadataPlace::PackageName(place))?;
        names.push(String::from_str(alloc, name)?)?;
    }
    Ok(names)
}

/// Returns the index of an id, if it is in the list: the first, if there are several.
fn place_of(ids: &[&str], id: &str) -> Option<usize>
    ensures { result ≡ position (λ other. bytes_eq other.now id.now) ids.now }
{
    ids.iter().position(|other| *other == id)
}

/// Returns the index of the first package that has an id.
fn package_of(ids: &[&str], id: &str, place: MetadataPlace) -> Result<usize, MetadataFault>
    ensures { result ≡ package_of (ids_view ids.now) place id.now }
{
    place_of(ids, id).ok_or(MetadataFault::UnknownPackage(place))
}

/// Reads a member of the workspace, and returns the index of its package.
fn member_at(ids: &[&str], place: usize, value: &Value) -> Result<usize, MetadataFault>
    ensures { result ≡ member_at (ids_view ids.now) place (view value.now) }
{
    let place = MetadataPlace::WorkspaceMember(place);
    let id = JsonField {
        found: Some(value),
        place,
    };
    package_of(ids, id.text()?, place)
}

/// Reads the members that a list of ids names.
#[tactic(auto, using(crate::proofs::packages::Gathering::seen_start, crate::proofs::packages::Gathering::seen_step, crate::proofs::packages::Gathering::seen_all))]
fn member_list(alloc: Global, ids: &[&str], values: &[Value]) -> Result<Vec<usize>, MetadataFault>
    ensures { Reads (λ members. members.items) result
        (each (member_at (ids_view ids.now)) (map view values.now)) }
{
    let mut members = Vec::new(alloc);
    for (place, value) in values.iter().enumerate() {
        let member = member_at(ids, place, value)?;
        members.push(member)?;
    }
    Ok(members)
}

/// Reads the members of the workspace.
pub fn members_of(
    alloc: Global,
    ids: &[&str],
    metadata: &Value,
) -> Result<Vec<usize>, MetadataFault>
    ensures { Reads (λ members. members.items) result
        (members_of (ids_view ids.now) (view metadata.now)) }
{
    let values = JsonField::under(
        metadata,
        "workspace_members",
        MetadataPlace::WorkspaceMembers,
    )
    .list()?;
    member_list(alloc, ids, values)
}

/// Reads a dependency of a package.
fn edge_at(
    ids: &[&str],
    node: usize,
    from: usize,
    place: usize,
    value: &Value,
) -> Result<Edge, MetadataFault>
    ensures { result ≡ edge_at (ids_view ids.now) node from place (view value.now) }
{
    let place = MetadataPlace::Dependency(node, place);
    let id = text_under(value, "pkg", place)?;
    let to = package_of(ids, id, place)?;
    Ok(Edge { from, to })
}

/// Reads the dependencies of a package.
#[tactic(auto, using(crate::proofs::packages::Gathering::seen_start, crate::proofs::packages::Gathering::seen_step, crate::proofs::packages::Gathering::seen_all))]
fn edge_list(
    alloc: Global,
    ids: &[&str],
    node: usize,
    from: usize,
    values: &[Value],
) -> Result<Vec<Edge>, MetadataFault>
    ensures { Reads (λ edges. edges.items) result
        (each (edge_at (ids_view ids.now) node from) (map view values.now)) }
{
    let mut edges = Vec::new(alloc);
    for (place, value) in values.iter().enumerate() {
        let edge = edge_at(ids, node, from, place, value)?;
        edges.push(edge)?;
    }
    Ok(edges)
}

/// Reads the dependencies that a node lists.
fn node_at(
    alloc: Global,
    ids: &[&str],
    place: usize,
    value: &Value,
) -> Result<Vec<Edge>, MetadataFault>
    ensures { Reads (λ edges. edges.items) result
        (node_at (ids_view ids.now) place (view value.now)) }
{
    let id = text_under(value, "id", MetadataPlace::NodeId(place))?;
    let from = package_of(ids, id, MetadataPlace::NodeId(place))?;
    let values = JsonField::under(value, "deps", MetadataPlace::Dependencies(place)).list()?;
    edge_list(alloc, ids, place, from, values)
}

/// Reads the dependencies that some nodes list.
fn node_list(alloc: Global, ids: &[&str], nodes: &[Value]) -> Result<Vec<Edge>, MetadataFault>
    ensures { Reads (λ edges. edges.items) result
        (and_then (each (node_at (ids_view ids.now)) (map view nodes.now))
        (λ lists. Ok (flat_map (λ edges. edges) lists))) }
{
    let mut edges = Vec::new(alloc);
    for (place, node) in nodes.iter().enumerate() {
        let listed = node_at(alloc, ids, place, node)?;
        edges.extend_from_slice(&listed)?;
    }
    Ok(edges)
}

/// Reads the dependencies of all packages.
pub fn edges_of(alloc: Global, ids: &[&str], metadata: &Value) -> Result<Vec<Edge>, MetadataFault>
    ensures { Reads (λ edges. edges.items) result
        (edges_of (ids_view ids.now) (view metadata.now)) }
{
    let resolve = JsonField::under(metadata, "resolve", MetadataPlace::Resolve).object()?;
    let nodes = JsonField::under(resolve, "nodes", MetadataPlace::Nodes).list()?;
    node_list(alloc, ids, nodes)
}
