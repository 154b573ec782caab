//! The targets of a workspace's packages.
ghost use Rattle.std.specs.Prelude.{◌≡◌, ◌≢◌, Err, IfErr, IfOk, Ok, map, string_bytes};
ghost use Rattle.std.specs.List.{list_any};
ghost use Rattle.std.specs.Result.{result_map_both};
ghost use Rattle.std.specs.Str.{bytes_eq};
ghost use Rattle.serde_json.specs.View.{view};
ghost use Rattle.filter_inputs.specs.Packages.Names.{ids_view};
ghost use Rattle.filter_inputs.specs.Packages.Results.{Reads, each};
ghost use Rattle.filter_inputs.specs.Packages.Targets.{all_targets, binary_id, is_library, is_of_package, kind_in, member_ids, member_targets, target_at, targets_at, targets_of, targets_of_text};
ghost use Rattle.filter_inputs.specs.Packages.Metadata.{text_of};
ghost use Rattle.filter_inputs.specs.declared.packages.fault.MetadataPlace.TheVariants.{WorkspaceMember};
ghost use Rattle.filter_inputs.specs.Packages.TargetView.{target_view, targets_view};
ghost use Rattle.filter_inputs.specs.declared.packages.fault.MetadataFault.TheVariants.{Memory};

use crate::fields::JsonField;
use crate::packages::fault::{MetadataFault, MetadataPlace};
use crate::packages::metadata::text_under;
use serde_json::Value;
use std::alloc::{AllocError, Global};

/// A target of a member of the workspace.
#[derive(Debug, PartialEq, Eq, Drop)]
pub struct PackageTarget {
    /// The id of its package, as Cargo prints it.
    pub package_id: String,
    /// The name of its package.
    pub package_name: String,
    /// Its kind, as nextest names kinds: `lib` for each kind of library that is linked.
    pub kind: String,
    /// Its name.
    pub name: String,
}

impl PackageTarget {
    /// Returns whether it is the library of its package.
    fn is_of_package(&self) -> bool
        ensures { result ≡ is_of_package (string_bytes self.now.kind) }
    {
        matches!(self.kind.as_str(), "lib" | "proc-macro")
    }

    /// Returns the id of the binary that nextest builds from it: `p` from the library of a package
    /// `p`, `p::x` from an integration test, and as `p::bin/x` from others.
    pub fn binary_id(&self, alloc: Global) -> Result<String, AllocError>
        ensures { IfOk result (λ id. string_bytes id ≡ binary_id (target_view self.now)) }
    {
        let package = self.package_name.as_str();
        let name = self.name.as_str();
        if self.is_of_package() {
            return String::from_str(alloc, package);
        }
        match self.kind.as_str() {
            "test" => format!(in alloc; "{package}::{name}"),
            kind => format!(in alloc; "{package}::{kind}/{name}"),
        }
    }
}

/// Returns whether a value is the kind of a library that is linked.
fn is_library(value: &Value) -> bool
    ensures { result ≡ is_library (view value.now) }
{
    match value.as_str() {
        Some(kind) => matches!(kind, "lib" | "rlib" | "dylib" | "cdylib" | "staticlib"),
        None => false,
    }
}

/// Returns whether some values have the kind of a library that is linked.
fn has_library(kinds: &[Value]) -> bool
    ensures { result ≡ list_any (λ kind. is_library (view kind)) kinds.now }
{
    kinds.iter().any(|kind| is_library(kind))
}

/// Returns whether a target that is listed with some kinds is a library that is linked.
fn is_linked(kinds: &[Value]) -> bool
    ensures { result ≡ list_any is_library (map view kinds.now) }
{
    has_library(kinds)
}

/// Reads the kind of a target that is listed with some kinds.
fn kind_in(kinds: &[Value], place: MetadataPlace) -> Result<&str, MetadataFault>
    ensures { result_map_both (λ kind. kind.now) (λ e. e) result
        ≡ kind_in place (map view kinds.now) }
{
    if is_linked(kinds) {
        return Ok("lib");
    }
    let first = JsonField {
        found: kinds.first(),
        place,
    };
    Ok(first.text()?)
}

/// A member of the workspace: its index among the packages, its id and its name.
#[derive(Clone, Copy)]
struct Member<'v> {
    place: usize,
    id: &'v str,
    name: &'v str,
}

/// Reads a target of a member.
fn target_at(
    alloc: Global,
    member: Member<'_>,
    target: usize,
    value: &Value,
) -> Result<PackageTarget, MetadataFault>
    ensures { Reads target_view result
        (target_at member.entry.id.now member.entry.name.now member.entry.place target
        (view value.now)) }
{
    let place = member.place;
    let name = text_under(value, "name", MetadataPlace::TargetName(place, target))?;
    let kinds = JsonField::under(value, "kind", MetadataPlace::TargetKinds(place, target)).list()?;
    let kind = kind_in(kinds, MetadataPlace::TargetKind(place, target))?;
    Ok(PackageTarget {
        package_id: String::from_str(alloc, member.id)?,
        package_name: String::from_str(alloc, member.name)?,
        kind: String::from_str(alloc, kind)?,
        name: String::from_str(alloc, name)?,
    })
}

/// Reads targets of a member.
#[tactic(auto, using(crate::proofs::packages::Gathering::seen_start, crate::proofs::packages::Gathering::seen_all))]
fn target_list(
    alloc: Global,
    member: Member<'_>,
    values: &[Value],
) -> Result<Vec<PackageTarget>, MetadataFault>
    ensures { Reads (λ targets. targets_view targets.items) result
        (each (target_at member.entry.id.now member.entry.name.now member.entry.place)
        (map view values.now)) }
{
    let mut targets = Vec::new(alloc);
    for (place, value) in values.iter().enumerate() {
        let target = target_at(alloc, member, place, value)?;
        targets.push(target)?;
    }
    Ok(targets)
}

/// Reads the targets of a member with this id.
fn member_targets(
    alloc: Global,
    id: &str,
    place: usize,
    value: &Value,
) -> Result<Vec<PackageTarget>, MetadataFault>
    ensures { Reads (λ targets. targets_view targets.items) result
        (member_targets id.now place (view value.now)) }
{
    let name = text_under(value, "name", MetadataPlace::PackageName(place))?;
    let values = JsonField::under(value, "targets", MetadataPlace::Targets(place)).list()?;
    target_list(alloc, Member { place, id, name }, values)
}

/// Returns whether an id is in a list.
fn has_id(ids: &[&str], id: &str) -> bool
    ensures { result ≡ list_any (λ other. bytes_eq other.now id.now) ids.now }
{
    ids.iter().any(|other| *other == id)
}

/// Returns whether a package of an id is a member of the workspace.
fn is_member(members: &[&str], id: &str) -> bool
    ensures { result ≡ list_any (λ member. bytes_eq member id.now) (ids_view members.now) }
{
    has_id(members, id)
}

/// Reads the targets of a package, if it is a member of the workspace.
fn targets_at(
    alloc: Global,
    members: &[&str],
    place: usize,
    value: &Value,
) -> Result<Vec<PackageTarget>, MetadataFault>
    ensures { Reads (λ targets. targets_view targets.items) result
        (targets_at (ids_view members.now) place (view value.now)) }
{
    let id = text_under(value, "id", MetadataPlace::PackageId(place))?;
    if is_member(members, id) {
        member_targets(alloc, id, place, value)
    } else {
        Ok(Vec::new(alloc))
    }
}

/// Reads the targets of packages, of which some are members of the workspace.
fn all_targets(
    alloc: Global,
    members: &[&str],
    packages: &[Value],
) -> Result<Vec<PackageTarget>, MetadataFault>
    ensures { Reads (λ targets. targets_view targets.items) result
        (all_targets (ids_view members.now) (map view packages.now)) }
{
    let mut targets = Vec::new(alloc);
    for (place, package) in packages.iter().enumerate() {
        let mut listed = targets_at(alloc, members, place, package)?;
        targets.append(&mut listed)?;
    }
    Ok(targets)
}

/// Reads the id of a member of the workspace.
fn member_id(value: &Value, place: usize) -> Result<&str, MetadataFault>
    ensures { result_map_both (λ id. id.now) (λ e. e) result
        ≡ text_of (WorkspaceMember place) (view value.now) }
{
    let id = JsonField {
        found: Some(value),
        place: MetadataPlace::WorkspaceMember(place),
    };
    Ok(id.text()?)
}

/// Reads the ids of members of the workspace.
#[tactic(auto, using(crate::proofs::packages::Gathering::seen_start, crate::proofs::packages::Gathering::seen_all))]
fn id_list(alloc: Global, values: &[Value]) -> Result<Vec<&str>, MetadataFault>
    ensures { Reads (λ ids. ids_view ids.items) result
        (each (λ place. text_of (WorkspaceMember place)) (map view values.now)) }
{
    let mut ids = Vec::new(alloc);
    for (place, value) in values.iter().enumerate() {
        let id = member_id(value, place)?;
        ids.push(id)?;
    }
    Ok(ids)
}

/// Reads the ids of the members of the workspace.
fn member_ids(alloc: Global, metadata: &Value) -> Result<Vec<&str>, MetadataFault>
    ensures { Reads (λ ids. ids_view ids.items) result (member_ids (view metadata.now)) }
{
    let values = JsonField::under(
        metadata,
        "workspace_members",
        MetadataPlace::WorkspaceMembers,
    )
    .list()?;
    id_list(alloc, values)
}

/// Reads the targets of the workspace's members from a JSON value.
#[tactic(auto, unfolding(crate::specs::Packages::Targets::targets_of))]
fn targets_in(alloc: Global, metadata: &Value) -> Result<Vec<PackageTarget>, MetadataFault>
    ensures { Reads (λ targets. targets_view targets.items) result (targets_of (view metadata.now)) }
{
    let members = member_ids(alloc, metadata)?;
    let packages = JsonField::under(metadata, "packages", MetadataPlace::Packages).list()?;
    all_targets(alloc, &members, packages)
}

/// Reads the targets of the workspace's members, in the order of the packages, from the JSON that
/// `cargo metadata --format-version 1` prints.
///
/// # Errors
///
/// Returns the first fault in this order: the text isn't JSON; the members of the workspace; the
/// packages, for each its id, and for members their name and their targets, for each its name and
/// its kinds. Returns [`MetadataFault::Memory`] if an allocation fails.
pub fn targets_of(alloc: Global, text: &str) -> Result<Vec<PackageTarget>, MetadataFault>
    ensures targets { IfOk result (λ targets.
        targets_of_text text.now ≡ Ok (targets_view targets.items)) }
    ensures fault { IfErr result (λ fault. fault ≢ Memory → targets_of_text text.now ≡ Err fault) }
{
    match Value::from_str(alloc, text) {
        Ok(metadata) => targets_in(alloc, &metadata),
        Err(error) if error.is_memory() => Err(MetadataFault::Memory),
        Err(_) => Err(MetadataFault::NotJson),
    }
}
