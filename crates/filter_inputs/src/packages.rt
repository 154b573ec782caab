//! The graph of a workspace's packages, as `cargo metadata` prints it, the sets of members that
//! dependencies reach in it, and the targets of the members.

mod edges;
mod fault;
mod graph;
mod laws;
mod member_set;
mod metadata;
mod search;
mod targets;

pub use crate::fields::Wanted;
pub use fault::{MetadataFault, MetadataPlace};
pub use graph::PackageGraph;
pub use laws::law_reaching;
pub use member_set::MemberSet;
pub use targets::{PackageTarget, targets_of};
