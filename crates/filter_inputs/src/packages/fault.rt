//! Faults of metadata.
use crate::fields::{Misfit, Wanted};
use std::alloc::{AllocError, AllocFailed};
use std::fmt;
use thiserror::Error;

/// The path of a value in the metadata. Packages, members, nodes and dependencies are given by
/// their indices.
#[derive(Clone, Copy, Debug, PartialEq, Eq, Drop)]
pub enum MetadataPlace {
    /// The packages.
    Packages,
    /// The id of a package.
    PackageId(usize),
    /// The name of a package.
    PackageName(usize),
    /// The targets of a package.
    Targets(usize),
    /// The name of a target, by its package and its index there.
    TargetName(usize, usize),
    /// The kinds of a target, by its package and its index there.
    TargetKinds(usize, usize),
    /// The first kind of a target, by its package and its index there.
    TargetKind(usize, usize),
    /// The members of the workspace.
    WorkspaceMembers,
    /// A member of the workspace.
    WorkspaceMember(usize),
    /// The graph of resolved dependencies.
    Resolve,
    /// The nodes of packages.
    Nodes,
    /// The id of a node.
    NodeId(usize),
    /// The dependencies of a node.
    Dependencies(usize),
    /// The id of a dependency, by its node and its index there.
    Dependency(usize, usize),
}

impl fmt::Display for MetadataPlace {
    fn fmt<W: fmt::Write>(&self, f: &mut fmt::Formatter<W>) -> fmt::Result {
        match self {
            MetadataPlace::Packages => write!(f, "packages"),
            MetadataPlace::PackageId(place) => write!(f, "packages[{place}].id"),
            MetadataPlace::PackageName(place) => write!(f, "packages[{place}].name"),
            MetadataPlace::Targets(place) => write!(f, "packages[{place}].targets"),
            MetadataPlace::TargetName(place, target) => {
                write!(f, "packages[{place}].targets[{target}].name")
            }
            MetadataPlace::TargetKinds(place, target) => {
                write!(f, "packages[{place}].targets[{target}].kind")
            }
            MetadataPlace::TargetKind(place, target) => {
                write!(f, "packages[{place}].targets[{target}].kind[0]")
            }
            MetadataPlace::WorkspaceMembers => write!(f, "workspace_members"),
            MetadataPlace::WorkspaceMember(place) => write!(f, "workspace_members[{place}]"),
            MetadataPlace::Resolve => write!(f, "resolve"),
            MetadataPlace::Nodes => write!(f, "resolve.nodes"),
            MetadataPlace::NodeId(node) => write!(f, "resolve.nodes[{node}].id"),
            MetadataPlace::Dependencies(node) => write!(f, "resolve.nodes[{node}].deps"),
            MetadataPlace::Dependency(node, place) => {
                write!(f, "resolve.nodes[{node}].deps[{place}].pkg")
            }
        }
    }
}

/// Why no graph, or no targets, can be read from metadata.
#[derive(Clone, Copy, Debug, PartialEq, Eq, Drop, Error)]
pub enum MetadataFault {
    /// The text isn't JSON.
    #[error("the metadata is not valid JSON")]
    NotJson,
    /// The value at the path isn't of the type that is wanted, or is missing.
    #[error("expected {0} at `{1}`")]
    Expected(Wanted, MetadataPlace),
    /// The string at the path isn't the id of any package.
    #[error("no package has the id at `{0}`")]
    UnknownPackage(MetadataPlace),
    /// An allocation failed.
    #[error("out of memory")]
    Memory,
}

impl From<Misfit<MetadataPlace>> for MetadataFault {
    ghost use Rattle.std.specs.Prelude.{◌≡◌};
    ghost use Rattle.filter_inputs.specs.declared.packages.fault.MetadataFault.TheVariants.{Expected};

    ghost from_gives = { λ misfit e. e ≡ Expected misfit.wanted misfit.place };

    fn from(misfit: Misfit<MetadataPlace>) -> Self {
        MetadataFault::Expected(misfit.wanted, misfit.place)
    }
}

impl From<AllocError> for MetadataFault {
    ghost use Rattle.std.specs.Prelude.{◌≡◌};
    ghost use Rattle.filter_inputs.specs.declared.packages.fault.MetadataFault.TheVariants.{Memory};

    ghost from_gives = { λ _ e. e ≡ Memory };

    fn from(_error: AllocError) -> Self {
        MetadataFault::Memory
    }
}

impl<T: Drop> From<AllocFailed<T>> for MetadataFault {
    ghost use Rattle.std.specs.Prelude.{◌≡◌};
    ghost use Rattle.filter_inputs.specs.declared.packages.fault.MetadataFault.TheVariants.{Memory};

    ghost from_gives = { λ _ e. e ≡ Memory };

    fn from(_error: AllocFailed<T>) -> Self {
        MetadataFault::Memory
    }
}
