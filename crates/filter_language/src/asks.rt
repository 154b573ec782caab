//! What filters depend on.
ghost use Rattle.std.specs.Prelude.{◌≡◌};
ghost use Rattle.std.specs.List.{list_any};
ghost use Rattle.filter_language.specs.Asks.{mark_is_about, asks, asks_default_filter};
ghost use Rattle.filter_language.specs.Filtersets.{marks_view};
ghost use Rattle.filter_language.specs.Grammar.{mark_view};

use crate::filterset::Filterset;
use crate::mark::{Mark, Question};
use crate::matchers::Matchers;
use crate::words::Field;

/// Whether a mark is a predicate about a field.
fn is_about<E: Matchers>(mark: &Mark<E::Matcher>, field: Field) -> bool
    ensures { result ≡ mark_is_about field (mark_view E.meaning mark.now) }
{
    if let Mark::Predicate(Question::Matches(matching)) = mark {
        return matching.field == field;
    }
    false
}

/// Whether one of the marks is.
fn is_any_about<E: Matchers>(marks: &[Mark<E::Matcher>], field: Field) -> bool
    ensures { result ≡ list_any (λ mark. mark_is_about field (mark_view E.meaning mark)) marks.now }
{
    marks.iter().any(|mark| is_about::<E>(mark, field))
}

impl<M> Filterset<M> {
    /// Whether one of its predicates is about a field.
    pub fn asks<E: Matchers<Matcher = M>>(&self, field: Field) -> bool
        ensures { result ≡ asks field (marks_view E.meaning self.now) }
    {
        match self {
            Filterset::Everything => false,
            Filterset::Marks(marks) => is_any_about::<E>(&marks.marks, field),
        }
    }

    /// Whether one of its predicates is `default()`.
    pub fn names_default<E: Matchers<Matcher = M>>(&self) -> bool
        ensures { result ≡ asks_default_filter (marks_view E.meaning self.now) }
    {
        match self {
            Filterset::Everything => false,
            Filterset::Marks(marks) => marks.names_default,
        }
    }
}
