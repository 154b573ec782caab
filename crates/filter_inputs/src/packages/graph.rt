//! Graphs of packages.
ghost use Rattle.std.specs.Prelude.{◌<◌, All, length};
ghost use Rattle.filter_inputs.specs.Packages.Marks.{IsBelow};

use crate::fields::JsonField;
use crate::packages::edges::{Direction, Edge};
use crate::packages::fault::{MetadataFault, MetadataPlace};
use crate::packages::member_set::MemberSet;
use crate::packages::metadata::{edges_of, members_of, package_ids, package_names};
use crate::packages::search::reach;
use nextest_engines::NameMatcher;
use serde_json::Value;
use std::alloc::{AllocError, Global};
use std::collections::BTreeSet;

/// The packages of a workspace and those that they depend on.
#[derive(Debug, Drop)]
pub struct PackageGraph {
    names: Vec<String>,
    members: Vec<usize>,
    edges: Vec<Edge>,
    ghost members_within: { All (λ place. place < length names.items) members.items },
    ghost edges_within: { All (IsBelow (length names.items)) edges.items },
}

impl PackageGraph {
    ghost use Rattle.std.specs.Prelude.{◌≡◌, ◌≢◌, ◌↔◌, ℕ, List, IfOk, IfErr, IsTrue, Ok, Err, map, vec_len};
    ghost use Rattle.serde_json.specs.View.{view};
    ghost use Rattle.filter_inputs.specs.declared.packages.fault.MetadataFault.TheVariants.{Memory};
    ghost use Rattle.filter_inputs.specs.Packages.Edges.{Reaches, oriented};
    ghost use Rattle.filter_inputs.specs.Packages.Graph.{IsMemberNamed, IsMatched, IsDependency, IsDependent};
    ghost use Rattle.filter_inputs.specs.Packages.GraphView.{graph_view, has_member};
    ghost use Rattle.filter_inputs.specs.Packages.Marks.{IsMarked};
    ghost use Rattle.filter_inputs.specs.Packages.Metadata.{graph_of, graph_of_text};
    ghost use Rattle.filter_inputs.specs.Packages.Results.{Reads};

    /// Reads the graph from the JSON that `cargo metadata --format-version 1` prints.
    ///
    /// If several packages have the same id, it is the id of the first one. Members that the graph
    /// doesn't need are ignored.
    ///
    /// # Errors
    ///
    /// Returns the first fault in this order: the text isn't JSON; the list of packages; their ids;
    /// their names; the members of the workspace; the nodes of `resolve`, for each its id and then
    /// its dependencies. Returns [`MetadataFault::Memory`] if an allocation fails.
    pub fn from_metadata(alloc: Global, text: &str) -> Result<PackageGraph, MetadataFault>
        ensures graph { IfOk result (λ graph. graph_of_text text.now ≡ Ok (graph_view graph)) }
        ensures fault { IfErr result (λ fault. fault ≢ Memory
            → graph_of_text text.now ≡ Err fault) }
    {
        match Value::from_str(alloc, text) {
            Ok(metadata) => PackageGraph::from_value(alloc, &metadata),
            Err(error) if error.is_memory() => Err(MetadataFault::Memory),
            Err(_) => Err(MetadataFault::NotJson),
        }
    }

    /// Reads the graph from a JSON value.
    #[tactic(auto, unfolding(crate::specs::Packages::Metadata::graph_of))]
    fn from_value(alloc: Global, metadata: &Value) -> Result<PackageGraph, MetadataFault>
        ensures { Reads graph_view result (graph_of (view metadata.now)) }
    {
        let packages = JsonField::under(metadata, "packages", MetadataPlace::Packages).list()?;
        let ids = package_ids(alloc, packages)?;
        let names = package_names(alloc, packages)?;
        let members = members_of(alloc, &ids, metadata)?;
        let edges = edges_of(alloc, &ids, metadata)?;
        Ok(PackageGraph {
            names,
            members,
            edges,
        })
    }

    /// Marks the members whose name matches.
    fn matched<M: NameMatcher>(&self, alloc: Global, matcher: &M) -> Result<Vec<bool>, AllocError>
        ensures length { IfOk result (λ marks. vec_len marks ≡ length self.now.names.items) }
        ensures matched { IfOk result (λ marks. (place : ℕ) → IsMarked marks.items place
            ↔ IsMatched (graph_view self.now) (M.accepts matcher.now) place) }
    {
        let mut marks = Vec::from_elem(alloc, false, self.names.len())?;
        for place in &self.members {
            marks[*place] = matcher.is_match(&self.names[*place]);
        }
        Ok(marks)
    }

    /// Returns the names of the marked members.
    fn marked_members(&self, alloc: Global, marks: &[bool]) -> Result<MemberSet, AllocError>
        requires { length marks.now ≡ length self.now.names.items }
        ensures { IfOk result (λ set. (name : List ℕ) → IsTrue (has_member set name)
            ↔ ((place : ℕ) × IsMemberNamed (graph_view self.now) name place
            × IsMarked marks.now place)) }
    {
        let mut names = BTreeSet::new(alloc);
        for place in &self.members {
            if !marks[*place] {
                continue;
            }
            names.insert(self.names[*place].clone()?)?;
        }
        Ok(MemberSet { names })
    }

    /// Returns the members that a search reaches from those whose name matches.
    fn found_from<M: NameMatcher>(
        &self,
        alloc: Global,
        matcher: &M,
        direction: Direction,
    ) -> Result<MemberSet, AllocError>
        ensures { let graph = graph_view self.now in
            IfOk result (λ set. (name : List ℕ) → IsTrue (has_member set name)
            ↔ ((a b : ℕ) × IsMatched graph (M.accepts matcher.now) a × IsMemberNamed graph name b
            × Reaches (map (oriented direction) graph.edges) a b)) }
    {
        let mut marks = self.matched(alloc, matcher)?;
        reach(&self.edges, direction, &mut marks);
        self.marked_members(alloc, &marks)
    }

    /// Returns the members whose name matches, and the members on which they depend, directly or
    /// indirectly.
    pub fn dependencies_of<M: NameMatcher>(
        &self,
        alloc: Global,
        matcher: &M,
    ) -> Result<MemberSet, AllocError>
        ensures { IfOk result (λ set. (name : List ℕ) → IsTrue (has_member set name)
            ↔ IsDependency (graph_view self.now) (M.accepts matcher.now) name) }
    {
        self.found_from(alloc, matcher, Direction::Dependencies)
    }

    /// Returns the members whose name matches, and the members that depend on them, directly or
    /// indirectly.
    pub fn dependents_of<M: NameMatcher>(
        &self,
        alloc: Global,
        matcher: &M,
    ) -> Result<MemberSet, AllocError>
        ensures { IfOk result (λ set. (name : List ℕ) → IsTrue (has_member set name)
            ↔ IsDependent (graph_view self.now) (M.accepts matcher.now) name) }
    {
        self.found_from(alloc, matcher, Direction::Dependents)
    }
}
