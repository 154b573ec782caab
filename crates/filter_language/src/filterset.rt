//! Filters.
ghost use Rattle.std.specs.Prelude.{◌≡◌, ◌↔◌, ◌+◌, ◌≤◌, ◌++◌, true, length, map, string_bytes, option_map, Some, None, Ok, Err, IfOk, IfErr};
ghost use Rattle.filter_language.specs.Formula.{Formula};
ghost use Rattle.filter_language.specs.Grammar.{mark_view, Spells, NestsWithin};
ghost use Rattle.filter_language.specs.Truth.{HoldsBeside};
ghost use Rattle.filter_language.specs.Writing.{IsFilter, IsNoFilter};
ghost use Rattle.filter_language.specs.Filters.{refusal_at, filter_in};
ghost use Rattle.filter_language.specs.Leaves.{mark_leaves, leaves};
ghost use Rattle.filter_language.specs.Places.{IfMisread, StandsIn, IfRefused};
ghost use Rattle.nextest_engines.specs.Engines.{binary_view, test_view};
ghost use Rattle.filter_language.specs.Values.{answer, of_test, subject_view};
ghost use Rattle.filter_language.specs.Evaluation.{marks_value};
ghost use Rattle.filter_language.specs.Filtersets.{marks_view, names_default, subject_of, marks_value_beside, says_true};

use crate::evaluation::{Subject, value_of};
use crate::fault::{FiltersetFault, ParseFault, Span, Stop};
use crate::filter_marks::FilterMarks;
use crate::mark::{Mark, Question};
use crate::matchers::Matchers;
use crate::reading::read_marks;
use crate::words::Field;
use nextest_engines::{BinaryQuery, FiltersetKind, TestQuery};
use std::alloc::{AllocError, Global};

/// A filter.
#[derive(Drop)]
pub enum Filterset<M> {
    /// What matches everything.
    Everything,
    /// What was written, mark by mark.
    Marks(FilterMarks<M>),
}

/// The refusal of a text.
fn refused(text: &str, stop: Stop<'_>) -> ParseFault
    requires { IfMisread stop (StandsIn text.now) }
    ensures value { result ≡ refusal_at text.now stop.entry }
    ensures span { IfRefused result (λ refusal.
        refusal.span.start + refusal.span.length ≤ length text.now) }
{
    match stop {
        Stop::Misread(misread) => ParseFault::Refused(FiltersetFault {
            kind: misread.kind,
            span: Span {
                start: text.len() - misread.from.len(),
                length: misread.from.len() - misread.until.len(),
            },
        }),
        Stop::Memory => ParseFault::Memory,
    }
}

/// What a filter says.
fn value<E: Matchers>(filter: &Filterset<E::Matcher>, subject: Subject<'_>) -> Option<bool>
    ensures { result ≡ marks_value (answer E.accepts (subject_view subject.entry))
        (marks_view E.meaning filter.now) }
{
    match filter {
        Filterset::Everything => Some(true),
        Filterset::Marks(marks) => value_of::<E>(&marks.marks, subject),
    }
}

/// Whether a filter names the default filter.
fn names_default<M>(filter: &Filterset<M>) -> bool
    ensures { result ≡ names_default filter.now }
{
    match filter {
        Filterset::Everything => false,
        Filterset::Marks(marks) => marks.names_default,
    }
}

/// What a filter says beside a default filter, which is evaluated where the filter names it.
fn value_beside<E: Matchers>(
    filter: &Filterset<E::Matcher>,
    default: &Filterset<E::Matcher>,
    binary: BinaryQuery<'_>,
    test_name: Option<&str>,
) -> Option<bool>
    ensures { result ≡ marks_value_beside E.accepts
        (subject_of (binary_view binary.entry) (option_map (λ name. name.now) test_name.entry))
        (marks_view E.meaning default.now) (marks_view E.meaning filter.now) }
{
    let alone = Subject {
        binary,
        test_name,
        default: Some(true),
    };
    if !names_default(filter) {
        return value::<E>(filter, alone);
    }
    let beside = Subject {
        default: value::<E>(default, alone),
        ..alone
    };
    value::<E>(filter, beside)
}

/// Whether a value is known and true.
fn is_true(value: Option<bool>) -> bool
    ensures { result ≡ says_true value }
{
    match value {
        Some(known) => known,
        None => false,
    }
}

/// One more leaf, where a mark is one.
fn with_leaf<E: Matchers>(
    found: Vec<String>,
    mark: &Mark<E::Matcher>,
) -> Result<Vec<String>, AllocError>
    ensures { IfOk result (λ all. map string_bytes all.items
        ≡ map string_bytes found.items ++ mark_leaves (mark_view E.meaning mark.now)) }
{
    let mut found = found;
    if let Mark::Predicate(Question::Matches(matching)) = mark {
        if matching.field == Field::TestName {
            found.push(matching.written.clone()?)?;
        }
    }
    Ok(found)
}

/// The leaves of marks.
fn leaves_of<E: Matchers>(
    alloc: Global,
    marks: &[Mark<E::Matcher>],
) -> Result<Vec<String>, AllocError>
    ensures { IfOk result (λ found. map string_bytes found.items
        ≡ leaves (map (mark_view E.meaning) marks.now)) }
{
    let mut found = Vec::new(alloc);
    for mark in marks {
        found = with_leaf::<E>(found, mark)?;
    }
    Ok(found)
}

impl<M: Drop> Filterset<M> {
    /// Reads a filter: the one that a text writes for a kind, or else its first fault, from left to
    /// right.
    ///
    /// # Errors
    ///
    /// [`ParseFault::Refused`] with what is wrong and where, and [`ParseFault::Memory`] where a growth
    /// of memory was refused.
    pub fn parse<E: Matchers<Matcher = M>>(
        engine: &E,
        alloc: Global,
        text: &str,
        kind: FiltersetKind,
    ) -> Result<Filterset<M>, ParseFault>
        ensures ok { IfOk result (λ filter.
            filter_in (E.compiled engine.now) (E.knows_packages engine.now) kind text.now
            ≡ Ok (marks_view E.meaning filter)) }
        ensures err { IfErr result (λ fault. IfRefused fault (λ refusal.
            filter_in (E.compiled engine.now) (E.knows_packages engine.now) kind text.now
            ≡ Err refusal)) }
        ensures written { IfOk result (λ filter.
            IsFilter (E.compiled engine.now) (E.knows_packages engine.now) kind text.now
            (marks_view E.meaning filter)) }
        ensures unwritten { IfErr result (λ fault. IfRefused fault (λ _.
            IsNoFilter (E.compiled engine.now) (E.knows_packages engine.now) kind text.now)) }
        ensures span { IfErr result (λ fault. IfRefused fault (λ refusal.
            refusal.span.start + refusal.span.length ≤ length text.now)) }
    {
        match read_marks(engine, alloc, text, kind) {
            Ok(marks) => Ok(Filterset::Marks(FilterMarks::new(marks))),
            Err(stop) => Err(refused(text, stop)),
        }
    }

    /// Whether it matches a test. A `default()` matches where the default filter does.
    pub fn matches_test<E: Matchers<Matcher = M>>(
        &self,
        query: &TestQuery<'_>,
        default: &Filterset<M>,
    ) -> bool
        ensures value { result ≡ says_true (marks_value_beside E.accepts
            (of_test (test_view query.now))
            (marks_view E.meaning default.now) (marks_view E.meaning self.now)) }
        ensures truth { (g f : Formula E.Meaning)
            → Spells (marks_view E.meaning default.now) g → NestsWithin g
            → Spells (marks_view E.meaning self.now) f → NestsWithin f
            → (result ≡ true) ↔ HoldsBeside E.accepts g f (test_view query.now) }
    {
        is_true(value_beside::<E>(self, default, query.binary_query, Some(query.test_name)))
    }

    /// Whether it matches a binary, or `None` where that depends on the test.
    pub fn matches_binary<E: Matchers<Matcher = M>>(
        &self,
        query: &BinaryQuery<'_>,
        default: &Filterset<M>,
    ) -> Option<bool>
        ensures { result ≡ marks_value_beside E.accepts (subject_of (binary_view query.now) None)
            (marks_view E.meaning default.now) (marks_view E.meaning self.now) }
    {
        value_beside::<E>(self, default, *query, None)
    }

    /// The predicates that only a test can decide, as they are written.
    pub fn runtime_only_leaves<E: Matchers<Matcher = M>>(
        &self,
        alloc: Global,
    ) -> Result<Vec<String>, AllocError>
        ensures { IfOk result (λ found. map string_bytes found.items
            ≡ leaves (marks_view E.meaning self.now)) }
    {
        match self {
            Filterset::Everything => Ok(Vec::new(alloc)),
            Filterset::Marks(marks) => leaves_of::<E>(alloc, &marks.marks),
        }
    }
}
