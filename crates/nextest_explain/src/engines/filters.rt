//! The engine of filters.
ghost use Rattle.std.specs.Prelude.{◌≡◌, ◌++◌, ◌∷◌, [], None, Ok, Err, IfOk, IfErr, map, refl, string_bytes};
ghost use Rattle.std.specs.List.{flat_map, list_any};
ghost use Rattle.nextest_engines.specs.Engines.{without_span, IfFilterRefused};
ghost use Rattle.nextest_explain.specs.Engines.FilterValues.{Filter, match_all as nothing_asked, term_of, lists_of, filter_of, subject_of};
ghost use Rattle.nextest_explain.specs.Engines.Filters as messages;
ghost use Rattle.nextest_explain.specs.Engines.Filters.{filter_read, read_for, filter_matches, filter_holds_binary, filter_leaves, term_leaves, value_beside as value_beside_default, asks_default, is_default_term as asks_for_default};
ghost use Rattle.nextest_explain.specs.Engines.Decided.{default_filter_decides, filters_speak};

use crate::engines::expr::{Leaf, Subject, Term, ToyExpr};
use crate::engines::parse::{Reading, read_filter};
use nextest_engines::history::RuleHistory;
use nextest_engines::{
    BinaryQuery, EvalContext, FilterFault, Filters, FiltersetKind, Refusal, Tally, TestQuery,
};
use std::alloc::{AllocError, Global};

/// How many numbers of rules a tally keeps, at most.
const KEPT_COUNT: usize = 32;

/// The rules that were evaluated, and the numbers of the first of them.
#[derive(Drop)]
pub struct ToyTally {
    first: [usize; KEPT_COUNT],
    count: usize,
    rules: RuleHistory,
}

impl Tally for ToyTally {
    ghost numbers = { λ tally. tally.rules };
}

impl ToyTally {
    /// No rule yet.
    pub fn new() -> ToyTally
        ensures { result.rules ≡ [] }
    {
        ToyTally {
            first: [0; KEPT_COUNT],
            count: 0,
            rules: RuleHistory::new(),
        }
    }

    /// Adds a rule's number, which is kept if there is room.
    fn note(&mut self, rule: usize)
        ensures { self.new.rules ≡ self.old.rules ++ rule ∷ [] }
    {
        if let Some(number) = self.first.get_mut(self.count) {
            *number = rule;
            self.count = self.count.saturating_add(1);
        }
        self.rules.push(rule);
    }

    /// The numbers of the rules that were evaluated first, in order.
    pub fn first_rules(&self) -> &[usize] {
        &self.first[..self.count.min(KEPT_COUNT)]
    }
}

/// The engine of filters.
#[derive(Drop)]
pub struct ToyFilters;

fn is_default(term: &Term) -> bool
    ensures { result ≡ asks_for_default (term_of term.now) }
{
    matches!(&term.leaf, Leaf::Default)
}

fn has_default(terms: &[Term]) -> bool
    ensures { result ≡ list_any (λ term. asks_for_default (term_of term)) terms.now }
{
    terms.iter().any(|term| is_default(term))
}

fn any_has_default(lists: &[Vec<Term>]) -> bool
    ensures { result ≡ list_any
        (λ terms. list_any (λ term. asks_for_default (term_of term)) terms.items) lists.now }
{
    lists.iter().any(|terms| has_default(terms))
}

/// Adds the leaves of some terms that only a test can decide.
fn with_leaves(alloc: Global, found: Vec<String>, terms: &[Term]) -> Result<Vec<String>, AllocError>
    ensures { IfOk result (λ all. map string_bytes all.items
        ≡ map string_bytes found.items ++ flat_map term_leaves (map term_of terms.now)) }
{
    let mut found = found;
    for term in terms {
        if let Leaf::Test(part) = &term.leaf {
            found.push(format!(in alloc; "test({part})")?)?;
        }
    }
    Ok(found)
}

/// The refusal of a text that breaks at a piece.
fn no_filter(alloc: Global, text: &str, piece: &str) -> FilterFault
    ensures refusal { IfFilterRefused result
        (λ refusal. refusal ≡ without_span (messages.no_filter text.now piece.now)) }
    ensures span { IfFilterRefused result (λ refusal. refusal.span ≡ None) }
{
    match format!(in alloc; "`{text}` is no filter: it breaks at `{piece}`") {
        Ok(message) => FilterFault::Refused(Refusal {
            message,
            span: None,
        }),
        Err(_) => FilterFault::Memory,
    }
}

/// The refusal of a default filter that uses itself.
fn default_in_default(alloc: Global, text: &str) -> FilterFault
    ensures refusal { IfFilterRefused result
        (λ refusal. refusal ≡ without_span (messages.default_in_default text.now)) }
    ensures span { IfFilterRefused result (λ refusal. refusal.span ≡ None) }
{
    let message = format!(in alloc;
        "`{text}` asks for the default filter, which a default filter may not"
    );
    match message {
        Ok(message) => FilterFault::Refused(Refusal {
            message,
            span: None,
        }),
        Err(_) => FilterFault::Memory,
    }
}

/// The filter of the lists of terms that a text writes, unless a default filter uses itself.
#[tactic(auto, using(crate::proofs::engines::Lists::asks_default_by_terms))]
fn for_kind(
    alloc: Global,
    kind: FiltersetKind,
    text: &str,
    lists: Vec<Vec<Term>>,
) -> Result<ToyExpr, FilterFault>
    ensures ok { IfOk result
        (λ expr. read_for kind text.now (Ok (lists_of lists.items)) ≡ Ok (filter_of expr)) }
    ensures err { IfErr result (λ fault. IfFilterRefused fault
        (λ refusal. read_for kind text.now (Ok (lists_of lists.items)) ≡ Err refusal)) }
    ensures span { IfErr result
        (λ fault. IfFilterRefused fault (λ refusal. refusal.span ≡ None)) }
{
    match kind {
        FiltersetKind::DefaultFilter => {
            if any_has_default(&lists) {
                return Err(default_in_default(alloc, text));
            }
            Ok(ToyExpr::AnyOf(lists))
        }
        FiltersetKind::Test | FiltersetKind::OverrideFilter => Ok(ToyExpr::AnyOf(lists)),
    }
}

fn value_beside(expr: &ToyExpr, subject: Subject<'_>, cx: &EvalContext<'_, ToyExpr>) -> Option<bool>
    ensures { result ≡ value_beside_default (subject_of subject.entry)
        (filter_of cx.now.default_filter.now) (filter_of expr.now) }
{
    let default = cx.default_filter.value(subject, Some(true));
    expr.value(subject, default)
}

impl Filters for ToyFilters {
    type Expr = ToyExpr;

    type Tally = ToyTally;

    ghost Meaning = { Filter };

    ghost meaning = { filter_of };

    ghost read = { λ _ kind text. filter_read kind text };

    ghost match_all = { nothing_asked };

    ghost holds = { filter_matches };

    ghost holds_binary = { filter_holds_binary };

    ghost leaves = { filter_leaves };

    fn parse(
        &self,
        alloc: Global,
        text: &str,
        kind: FiltersetKind,
    ) -> Result<ToyExpr, FilterFault> {
        match read_filter(alloc, text) {
            Ok(Reading::Filter(lists)) => for_kind(alloc, kind, text, lists),
            Ok(Reading::BreaksAt(piece)) => Err(no_filter(alloc, text, piece)),
            Err(_) => Err(FilterFault::Memory),
        }
    }

    fn all(&self) -> ToyExpr {
        ToyExpr::Everything
    }

    fn matches_test(
        expr: &ToyExpr,
        rule: usize,
        query: &TestQuery<'_>,
        cx: &EvalContext<'_, ToyExpr>,
        tally: &mut ToyTally,
    ) -> bool {
        tally.note(rule);
        let subject = Subject {
            binary_id: query.binary_query.binary_id,
            test_name: Some(query.test_name),
        };
        value_beside(expr, subject, cx).unwrap_or(false)
    }

    fn matches_binary(
        expr: &ToyExpr,
        rule: usize,
        query: &BinaryQuery<'_>,
        cx: &EvalContext<'_, ToyExpr>,
        tally: &mut ToyTally,
    ) -> Option<bool> {
        tally.note(rule);
        let subject = Subject {
            binary_id: query.binary_id,
            test_name: None,
        };
        value_beside(expr, subject, cx)
    }

    fn runtime_only_leaves(alloc: Global, expr: &ToyExpr) -> Result<Vec<String>, AllocError> {
        let mut found = Vec::new(alloc);
        if let ToyExpr::AnyOf(lists) = expr {
            for terms in lists {
                found = with_leaves(alloc, found, terms)?;
            }
        }
        Ok(found)
    }

    ghost match_all_matches = { λ _ _. refl };

    ghost match_all_matches_binaries = { λ _ _. refl };

    ghost binaries_speak = { filters_speak };

    ghost default_filters_answer = { λ _. default_filter_decides };
}
