//! What a filter says of a test or a binary.
ghost use Rattle.std.specs.Prelude.{◌≡◌, [], map, MatchOption};
ghost use Rattle.filter_language.specs.Formula.{pattern_view, question_view};
ghost use Rattle.filter_language.specs.Grammar.{Asked, mark_view};
ghost use Rattle.filter_language.specs.Values.{known_and, known_or, package_name, subject_view, field_answer, answer};
ghost use Rattle.filter_language.specs.Evaluation.{Stack, known_view, stack_view, fresh, said, flipped_if, with_operand, flipped as flipped_of, behind, opened, closed_by, with_mark, marks_value};
ghost use Rattle.filter_language.specs.FilterMarks.{depth_behind};
ghost use Rattle.filter_language.specs.Skipping.{is_decided, Agree};

use crate::mark::{Mark, Match, Question};
use crate::matchers::Matchers;
use crate::reading::MAX_NESTING;
use crate::words::Field;
use arrayvec::ArrayVec;
use nextest_engines::BinaryQuery;

/// What a filter is evaluated for: a test, or a binary without regard to its tests.
#[derive(Clone, Copy)]
pub struct Subject<'a> {
    pub binary: BinaryQuery<'a>,
    pub test_name: Option<&'a str>,
    /// What the default filter says.
    pub default: Option<bool>,
}

fn and(left: Option<bool>, right: Option<bool>) -> Option<bool>
    ensures { result ≡ known_and left right }
{
    match (left, right) {
        (Some(false), _) | (_, Some(false)) => Some(false),
        (Some(true), Some(true)) => Some(true),
        _ => None,
    }
}

fn or(left: Option<bool>, right: Option<bool>) -> Option<bool>
    ensures { result ≡ known_or left right }
{
    match (left, right) {
        (Some(true), _) | (_, Some(true)) => Some(true),
        (Some(false), Some(false)) => Some(false),
        _ => None,
    }
}

/// A value, the other way round where something is true.
fn negate_if(negated: bool, value: Option<bool>) -> Option<bool>
    ensures { result ≡ flipped_if negated value }
{
    if negated {
        value.map(|known| !known)
    } else {
        value
    }
}

/// What is around the first `::` of an id.
fn around_package(binary_id: &str) -> Option<(&str, &str)>
    ensures { MatchOption result (package_name binary_id.now ≡ binary_id.now)
        (λ parts. package_name binary_id.now ≡ parts.0.now) }
{
    binary_id.split_once("::")
}

/// The package of a binary: its id up to the first `::`.
fn package_of(binary_id: &str) -> &str
    ensures { result.now ≡ package_name binary_id.now }
{
    match around_package(binary_id) {
        Some((package, _)) => package,
        None => binary_id,
    }
}

/// The value of a pattern, or `None` where that depends on the test.
fn match_value<E: Matchers>(matching: &Match<E::Matcher>, subject: Subject<'_>) -> Option<bool>
    ensures { result ≡ field_answer (E.accepts (E.meaning matching.now.matcher))
        (subject_view subject.entry) matching.now.field }
{
    let binary = subject.binary;
    let matcher = &matching.matcher;
    match matching.field {
        Field::TestName => match subject.test_name {
            Some(name) => Some(E::is_match(matcher, name)),
            None => None,
        },
        Field::Package | Field::Deps | Field::Rdeps => {
            Some(E::is_match(matcher, package_of(binary.binary_id)))
        }
        Field::BinaryId => Some(E::is_match(matcher, binary.binary_id)),
        Field::BinaryName => Some(E::is_match(matcher, binary.binary_name)),
        Field::Kind => Some(E::is_match(matcher, binary.kind)),
        Field::Group => Some(false),
    }
}

/// The value of a predicate, or `None` where that depends on the test.
fn question_value<E: Matchers>(
    question: &Question<E::Matcher>,
    subject: Subject<'_>,
) -> Option<bool>
    ensures { result ≡ answer E.accepts (subject_view subject.entry)
        (question_view E.meaning question.now) }
{
    match question {
        Question::All => Some(true),
        Question::Nothing => Some(false),
        Question::Default => subject.default,
        Question::Platform(platform) => Some(subject.binary.platform == *platform),
        Question::Matches(matching) => match_value::<E>(matching, subject),
    }
}

/// What is known so far within one pair of parentheses.
#[derive(Clone, Copy)]
pub struct Level {
    /// What the sides left of the last `or` say.
    pub either: Option<bool>,
    /// What the operands since then say together.
    pub both: Option<bool>,
    /// Whether the next operand counts the other way round.
    pub negated: bool,
}

impl Default for Level {
    /// Nothing was said.
    fn default() -> Level
        ensures { known_view result ≡ fresh }
    {
        Level::behind(Some(false))
    }
}

impl Level {
    /// Behind an `or` whose left sides say something.
    fn behind(either: Option<bool>) -> Level
        ensures { known_view result ≡ behind either }
    {
        Level {
            either,
            both: Some(true),
            negated: false,
        }
    }

    /// Whether no operand before the next `or` changes what is said.
    fn is_decided(self) -> bool
        ensures { result ≡ is_decided (known_view self) }
    {
        matches!((self.either, self.both), (Some(true), _) | (_, Some(false)))
    }

    /// What is said so far.
    fn value(self) -> Option<bool>
        ensures { result ≡ said (known_view self) }
    {
        or(self.either, self.both)
    }

    /// With one more operand.
    fn with(self, operand: Option<bool>) -> Level
        ensures { known_view result ≡ with_operand (known_view self) operand }
    {
        Level {
            either: self.either,
            both: and(self.both, negate_if(self.negated, operand)),
            negated: false,
        }
    }

    /// With a next operand that counts the other way round.
    fn flipped(self) -> Level
        ensures { known_view result ≡ flipped_of (known_view self) }
    {
        Level {
            either: self.either,
            both: self.both,
            negated: !self.negated,
        }
    }
}

/// What is known so far: of the innermost level, and of those around it, the outermost first.
#[derive(Drop)]
pub struct Levels {
    pub inner: Level,
    pub outer: ArrayVec<Level, MAX_NESTING>,
}

impl Levels {
    /// Nothing was said.
    fn new() -> Levels
        ensures { stack_view result ≡ record { inner = fresh; outer = [] } }
    {
        Levels {
            inner: Level::behind(Some(false)),
            outer: ArrayVec::new(),
        }
    }

    /// A `(`. Where the level around it is decided, so is the new one from its start, and nothing in
    /// it is evaluated.
    fn open(&mut self)
        ensures { (all : Stack) → Agree (stack_view self.old) all
            → Agree (stack_view self.new) (opened all) }
    {
        if !self.outer.is_full() {
            self.outer.push(self.inner);
            self.inner = Level::behind(Some(self.inner.is_decided()));
        }
    }

    /// A `)`.
    fn close(&mut self)
        ensures { stack_view self.new
            ≡ closed_by (stack_view self.old).inner (stack_view self.old).outer }
    {
        if let Some(outer) = self.outer.pop() {
            self.inner = outer.with(self.inner.value());
        }
    }

    /// A question. It is not evaluated where the level is decided.
    fn ask<E: Matchers>(&mut self, question: &Question<E::Matcher>, subject: Subject<'_>)
        ensures { (all : Stack) → Agree (stack_view self.old) all
            → Agree (stack_view self.new)
            (with_mark (answer E.accepts (subject_view subject.entry)) all
            (Asked (question_view E.meaning question.now))) }
    {
        if !self.inner.is_decided() {
            self.inner = self.inner.with(question_value::<E>(question, subject));
        }
    }

    /// A mark.
    fn add<E: Matchers>(&mut self, mark: &Mark<E::Matcher>, subject: Subject<'_>)
        ensures { (all : Stack) → Agree (stack_view self.old) all
            → Agree (stack_view self.new)
            (with_mark (answer E.accepts (subject_view subject.entry)) all
            (mark_view E.meaning mark.now)) }
    {
        match mark {
            Mark::Predicate(question) => self.ask::<E>(question, subject),
            Mark::Not | Mark::Minus => self.inner = self.inner.flipped(),
            Mark::Open => self.open(),
            Mark::Close => self.close(),
            Mark::And => {}
            Mark::Or => self.inner = Level::behind(self.inner.value()),
        }
    }
}

/// What the marks of a filter say, or `None` where that depends on the test.
pub fn value_of<E: Matchers>(marks: &[Mark<E::Matcher>], subject: Subject<'_>) -> Option<bool>
    requires { depth_behind 0 marks.now ≡ 0 }
    ensures { result ≡ marks_value (answer E.accepts (subject_view subject.entry))
        (map (mark_view E.meaning) marks.now) }
{
    let mut levels = Levels::new();
    for mark in marks {
        levels.add::<E>(mark, subject);
    }
    levels.inner.value()
}
