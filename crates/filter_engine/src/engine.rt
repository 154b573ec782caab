//! The engine of filters.
ghost use Rattle.std.specs.Prelude.{◌≡◌, ◌+◌, ◌<◌, ◌^◌, [], Ok, Err, IfOk, IfErr, refl};
ghost use Rattle.filter_language.specs.Filtersets.{marks_view};
ghost use Rattle.filter_language.specs.Leaves.{leaves};
ghost use Rattle.nextest_engines.specs.Engines.{span_view, refusal_view, IfFilterRefused, PointsInto};
ghost use Rattle.filter_engine.specs.Compiling.{names_of};
ghost use Rattle.filter_engine.specs.Open.{asks_for_packages, is_open, leaves_open};
ghost use Rattle.filter_engine.specs.declared.engine.Packages.TheVariants.{Known, Unknown, Open};
ghost use Rattle.filter_engine.specs.Decided.{default_filter_answers, filters_speak};
ghost use Rattle.filter_engine.specs.Engine.{Filter, read_filter, everything, filter_holds, filter_holds_binary};
ghost use Rattle.filter_engine.specs.Refusals.{fault_span, fault_refusal};

use crate::compiling::FieldMatcher;
use crate::machine::SearchTable;
use filter_inputs::PackageGraph;
use filter_language::{Field, Filterset, FiltersetFault, ParseFault};
use nextest_engines::history::RuleHistory;
use nextest_engines::{
    BinaryQuery, EvalContext, FilterFault, Filters, FiltersetKind, LabeledSpan, Refusal, Tally,
    TestQuery,
};
use std::alloc::{AllocError, Global};

/// The rules that were evaluated. It has no bytes.
#[derive(Drop)]
pub struct NextestTally {
    rules: RuleHistory,
}

impl Tally for NextestTally {
    ghost numbers = { λ tally. tally.rules };
}

impl NextestTally {
    /// No rule yet.
    pub fn new() -> NextestTally
        ensures { result.rules ≡ [] }
    {
        NextestTally {
            rules: RuleHistory::new(),
        }
    }
}

/// What the engine knows of the packages of a workspace.
#[derive(Debug, Drop)]
pub enum Packages {
    /// Their graph, by which `deps` and `rdeps` are looked up.
    Known(PackageGraph),
    /// Nothing: `deps` and `rdeps` are refused.
    Unknown,
    /// Nothing, but `deps` and `rdeps` are read. They match no package, so what a filter with one of
    /// them says is not known ([`NextestFilters::leaves_open`]).
    Open,
}

/// The engine of filters, with what it knows of packages.
#[derive(Debug, Drop)]
pub struct NextestFilters {
    pub(crate) packages: Packages,
    pub(crate) table: SearchTable,
}

impl NextestFilters {
    /// Without a package graph: `deps` and `rdeps` are refused.
    pub fn new() -> NextestFilters
        ensures { result.packages ≡ Unknown }
    {
        NextestFilters {
            packages: Packages::Unknown,
            table: SearchTable::Made,
        }
    }

    /// Without a package graph: `deps` and `rdeps` are read, and left open.
    pub fn open() -> NextestFilters
        ensures { result.packages ≡ Open }
    {
        NextestFilters {
            packages: Packages::Open,
            table: SearchTable::Made,
        }
    }

    /// With the package graph by which `deps` and `rdeps` are looked up.
    pub fn with_graph(graph: PackageGraph) -> NextestFilters
        ensures { result.packages ≡ Known graph }
    {
        NextestFilters {
            packages: Packages::Known(graph),
            table: SearchTable::Made,
        }
    }

    /// The same filters for a few names: patterns are read without tables of searches, which takes
    /// less than reading them with tables, and matching takes more.
    pub fn for_few_names(self) -> NextestFilters
        ensures { result.packages ≡ self.packages }
    {
        NextestFilters {
            packages: self.packages,
            table: SearchTable::LeftOut,
        }
    }

    /// Whether `deps` and `rdeps` are read and left open.
    pub fn is_open(&self) -> bool
        ensures { result ≡ is_open self.now.packages }
    {
        match &self.packages {
            Packages::Open => true,
            Packages::Known(_) | Packages::Unknown => false,
        }
    }

    /// Whether a filter that it read has a set of packages that it did not look up: `deps` or `rdeps`,
    /// where it leaves them open. What such a filter says is not known.
    pub fn leaves_open(&self, filter: &Filterset<FieldMatcher>) -> bool
        ensures { result ≡ leaves_open self.now.packages (marks_view names_of filter.now) }
    {
        self.is_open() && asks_for_packages(filter)
    }
}

/// Whether a filter uses a set of packages.
fn asks_for_packages(filter: &Filterset<FieldMatcher>) -> bool
    ensures { result ≡ asks_for_packages (marks_view names_of filter.now) }
{
    filter.asks::<NextestFilters>(Field::Deps) || filter.asks::<NextestFilters>(Field::Rdeps)
}

/// The bytes of a fault, and what is wrong with them.
fn span_of(alloc: Global, fault: FiltersetFault) -> Result<LabeledSpan, AllocError>
    requires { fault.span.start + fault.span.length < 2 ^ 64 }
    ensures { IfOk result (λ span. span_view span ≡ fault_span fault) }
{
    let start = fault.span.start;
    Ok(LabeledSpan {
        bytes: start..start + fault.span.length,
        label: String::from_str(alloc, fault.kind.label())?,
    })
}

/// The refusal that says what a fault is, and where.
fn refusal_of(alloc: Global, fault: FiltersetFault) -> Result<Refusal, AllocError>
    requires { fault.span.start + fault.span.length < 2 ^ 64 }
    ensures { IfOk result (λ refusal. refusal_view refusal ≡ fault_refusal fault) }
{
    let message = format!(in alloc; "{fault}")?;
    Ok(Refusal {
        message,
        span: Some(span_of(alloc, fault)?),
    })
}

/// The refusal of a text that has a fault.
fn refused(alloc: Global, fault: FiltersetFault) -> FilterFault
    requires { fault.span.start + fault.span.length < 2 ^ 64 }
    ensures { IfFilterRefused result (λ refusal. refusal ≡ fault_refusal fault) }
{
    match refusal_of(alloc, fault) {
        Ok(refusal) => FilterFault::Refused(refusal),
        Err(_) => FilterFault::Memory,
    }
}

impl Filters for NextestFilters {
    type Expr = Filterset<FieldMatcher>;

    type Tally = NextestTally;

    ghost Meaning = { Filter };

    ghost meaning = { marks_view names_of };

    ghost read = { read_filter };

    ghost match_all = { everything };

    ghost holds = { filter_holds };

    ghost holds_binary = { filter_holds_binary };

    ghost leaves = { leaves };

    #[tactic(auto, using(crate::proofs::Readings::read_ok, crate::proofs::Readings::read_err, crate::proofs::Readings::points_into))]
    fn parse(
        &self,
        alloc: Global,
        text: &str,
        kind: FiltersetKind,
    ) -> Result<Filterset<FieldMatcher>, FilterFault>
        ensures ok { IfOk result
            (λ filter. read_filter self.now kind text.now ≡ Ok (marks_view names_of filter)) }
        ensures err { IfErr result (λ fault. IfFilterRefused fault
            (λ refusal. read_filter self.now kind text.now ≡ Err refusal)) }
        ensures span { IfErr result (λ fault. IfFilterRefused fault (PointsInto text.now)) }
    {
        match Filterset::parse(self, alloc, text, kind) {
            Ok(filter) => Ok(filter),
            Err(ParseFault::Refused(fault)) => Err(refused(alloc, fault)),
            Err(ParseFault::Memory) => Err(FilterFault::Memory),
        }
    }

    fn all(&self) -> Filterset<FieldMatcher> {
        Filterset::Everything
    }

    fn matches_test(
        expr: &Filterset<FieldMatcher>,
        rule: usize,
        query: &TestQuery<'_>,
        cx: &EvalContext<'_, Filterset<FieldMatcher>>,
        tally: &mut NextestTally,
    ) -> bool {
        tally.rules.push(rule);
        expr.matches_test::<NextestFilters>(query, cx.default_filter)
    }

    fn matches_binary(
        expr: &Filterset<FieldMatcher>,
        rule: usize,
        query: &BinaryQuery<'_>,
        cx: &EvalContext<'_, Filterset<FieldMatcher>>,
        tally: &mut NextestTally,
    ) -> Option<bool> {
        tally.rules.push(rule);
        expr.matches_binary::<NextestFilters>(query, cx.default_filter)
    }

    fn runtime_only_leaves(
        alloc: Global,
        expr: &Filterset<FieldMatcher>,
    ) -> Result<Vec<String>, AllocError> {
        expr.runtime_only_leaves::<NextestFilters>(alloc)
    }

    ghost match_all_matches = { λ _ _. refl };

    ghost match_all_matches_binaries = { λ _ _. refl };

    ghost binaries_speak = { filters_speak };

    ghost default_filters_answer = { default_filter_answers };
}
