//! What predicates test of fields.
ghost use Rattle.std.specs.Prelude.{◌≡◌, List, ℕ, Bool, IfOk};
ghost use Rattle.filter_engine.specs.Matches.{question_of};
ghost use Rattle.filter_inputs.specs.Packages.GraphView.{graph_view};
ghost use Rattle.filter_engine.specs.Compiling.{names_of, sought_with, sought_openly, sought, reads_packages, compiled_in};
ghost use Rattle.filter_engine.specs.Engine.{is_among};
ghost use Rattle.filter_engine.specs.Members.{is_dependency, is_dependent};
ghost use Rattle.filter_engine.specs.Names.{asks};

use crate::engine::{NextestFilters, Packages};
use crate::names::NamePattern;
use filter_inputs::{MemberSet, PackageGraph};
use filter_language::{Field, Matchers, PatternFault, Sign};
use nextest_engines::NameMatcher as NameTest;
use std::alloc::{AllocError, Global};

/// What a predicate requires of the name that a field has.
#[derive(Drop)]
pub enum FieldMatcher {
    /// That a pattern matches it.
    Name(NamePattern),
    /// That a member of the workspace in a set has it.
    Members(MemberSet),
    /// That a member of a set has it that was not looked up. No name is in it.
    Open,
}

/// The members that a member with a matching name reaches.
#[tactic(auto, using(crate::proofs::Members::dependencies_are))]
fn dependencies(
    alloc: Global,
    graph: &PackageGraph,
    pattern: &NamePattern,
) -> Result<FieldMatcher, AllocError>
    ensures { IfOk result (λ matcher. names_of matcher
        ≡ is_dependency (graph_view graph.now) (asks (question_of pattern.now.matcher))) }
{
    let members = graph.dependencies_of(alloc, pattern)?;
    Ok(FieldMatcher::Members(members))
}

/// The members that reach a member with a matching name.
#[tactic(auto, using(crate::proofs::Members::dependents_are))]
fn dependents(
    alloc: Global,
    graph: &PackageGraph,
    pattern: &NamePattern,
) -> Result<FieldMatcher, AllocError>
    ensures { IfOk result (λ matcher. names_of matcher
        ≡ is_dependent (graph_view graph.now) (asks (question_of pattern.now.matcher))) }
{
    let members = graph.dependents_of(alloc, pattern)?;
    Ok(FieldMatcher::Members(members))
}

/// What a pattern tests of a field, where there is a package graph.
fn field_matcher(
    alloc: Global,
    graph: &PackageGraph,
    field: Field,
    pattern: NamePattern,
) -> Result<FieldMatcher, AllocError>
    ensures { IfOk result (λ matcher. names_of matcher
        ≡ sought_with graph.now field (asks (question_of pattern.matcher))) }
{
    match field {
        Field::Deps => dependencies(alloc, graph, &pattern),
        Field::Rdeps => dependents(alloc, graph, &pattern),
        Field::TestName
        | Field::Package
        | Field::BinaryId
        | Field::BinaryName
        | Field::Kind
        | Field::Group => Ok(FieldMatcher::Name(pattern)),
    }
}

/// What a pattern tests of a field, where sets of packages are left open.
fn open_matcher(field: Field, pattern: NamePattern) -> FieldMatcher
    ensures { names_of result ≡ sought_openly field (asks (question_of pattern.matcher)) }
{
    match field {
        Field::Deps | Field::Rdeps => FieldMatcher::Open,
        Field::TestName
        | Field::Package
        | Field::BinaryId
        | Field::BinaryName
        | Field::Kind
        | Field::Group => FieldMatcher::Name(pattern),
    }
}

impl NextestFilters {
    /// What a pattern tests of a field.
    #[tactic(auto, using(crate::proofs::Sought::sought_known, crate::proofs::Sought::sought_unknown, crate::proofs::Sought::sought_open))]
    fn matcher(
        &self,
        alloc: Global,
        field: Field,
        pattern: NamePattern,
    ) -> Result<FieldMatcher, AllocError>
        ensures { IfOk result (λ matcher. names_of matcher
            ≡ sought self.now.packages field (asks (question_of pattern.matcher))) }
    {
        match &self.packages {
            Packages::Known(graph) => field_matcher(alloc, graph, field, pattern),
            Packages::Unknown => Ok(FieldMatcher::Name(pattern)),
            Packages::Open => Ok(open_matcher(field, pattern)),
        }
    }
}

impl Matchers for NextestFilters {
    type Matcher = FieldMatcher;

    ghost Meaning = { List ℕ → Bool };

    ghost meaning = { names_of };

    ghost accepts = { is_among };

    ghost compiled = { compiled_in };

    ghost knows_packages = { λ engine. reads_packages engine.packages };

    #[tactic(auto, using(crate::proofs::Sought::compiled_ok, crate::proofs::Sought::compiled_err))]
    fn compile(
        &self,
        alloc: Global,
        field: Field,
        sign: Sign,
        text: &str,
    ) -> Result<Result<FieldMatcher, PatternFault>, AllocError> {
        match NamePattern::compile(alloc, sign, text, self.table)? {
            Ok(pattern) => Ok(Ok(self.matcher(alloc, field, pattern)?)),
            Err(fault) => Ok(Err(fault)),
        }
    }

    fn is_match(matcher: &FieldMatcher, name: &str) -> bool {
        match matcher {
            FieldMatcher::Name(pattern) => pattern.is_match(name),
            FieldMatcher::Members(members) => members.contains(name),
            FieldMatcher::Open => false,
        }
    }

    fn has_package_graph(&self) -> bool {
        match &self.packages {
            Packages::Known(_) | Packages::Open => true,
            Packages::Unknown => false,
        }
    }
}
