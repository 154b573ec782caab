//! The language of filters.
ghost use Rattle.std.specs.Prelude.{◌≡◌, map, option_map, not};
ghost use Rattle.nextest_explain.specs.Engines.FilterValues.{atom_of, term_of, filter_of, subject_of, atom_value, term_value, terms_value, filter_value, known_and, known_or};

use crate::engines::texts::contains;

/// What a filter matches in a test or a binary.
#[derive(Debug, Drop)]
pub enum Leaf {
    /// `all()`, which holds.
    All,
    /// `none()`, which doesn't hold.
    Nothing,
    /// `default()`, which means the default filter.
    Default,
    /// `test(T)`, which holds where T is a part of the test's name.
    Test(String),
    /// `binary_id(T)`, which holds where T is the binary's id.
    BinaryId(String),
}

/// A leaf behind a number of `not`s.
#[derive(Debug, Drop)]
pub struct Term {
    pub negations: usize,
    pub leaf: Leaf,
}

/// A filter.
#[derive(Debug, Drop)]
pub enum ToyExpr {
    /// Holds of match_all.
    Everything,
    /// Holds where each term of one of the lists does.
    AnyOf(Vec<Vec<Term>>),
}

/// What a filter is evaluated for: a test, or a binary without regard to its tests.
#[derive(Clone, Copy)]
pub struct Subject<'a> {
    pub binary_id: &'a str,
    pub test_name: Option<&'a str>,
}

fn and(left: Option<bool>, right: Option<bool>) -> Option<bool>
    ensures { result ≡ known_and left right }
{
    match (left, right) {
        (Some(false), _) | (_, Some(false)) => Some(false),
        (Some(true), Some(true)) => Some(true),
        _ => None,
    }
}

fn or(left: Option<bool>, right: Option<bool>) -> Option<bool>
    ensures { result ≡ known_or left right }
{
    match (left, right) {
        (Some(true), _) | (_, Some(true)) => Some(true),
        (Some(false), Some(false)) => Some(false),
        _ => None,
    }
}

fn negate(value: Option<bool>) -> Option<bool>
    ensures { result ≡ option_map not value }
{
    value.map(|known| !known)
}

impl Leaf {
    /// Whether it holds, or `None` where that is unknown. `default` is the value of `default()`.
    fn value(&self, subject: Subject<'_>, default: Option<bool>) -> Option<bool>
        ensures { result ≡ atom_value (subject_of subject.entry) default (atom_of self.now) }
    {
        match self {
            Leaf::All => Some(true),
            Leaf::Nothing => Some(false),
            Leaf::Default => default,
            Leaf::Test(part) => match subject.test_name {
                Some(name) => Some(contains(name, part.as_str())),
                None => None,
            },
            Leaf::BinaryId(id) => Some(subject.binary_id == id.as_str()),
        }
    }
}

impl Term {
    /// Whether it holds, or `None` where that is unknown.
    fn value(&self, subject: Subject<'_>, default: Option<bool>) -> Option<bool>
        ensures { result ≡ term_value (subject_of subject.entry) default (term_of self.now) }
    {
        let value = self.leaf.value(subject, default);
        if self.negations % 2 == 0 {
            value
        } else {
            negate(value)
        }
    }
}

/// Whether each term holds, or `None` where that is unknown.
fn value_of_terms(terms: &[Term], subject: Subject<'_>, default: Option<bool>) -> Option<bool>
    ensures { result ≡ terms_value (subject_of subject.entry) default (map term_of terms.now) }
{
    terms.iter().fold(
        Some(true),
        |known, term| and(known, term.value(subject, default)),
    )
}

impl ToyExpr {
    /// Whether it holds, or `None` where that is unknown. `default` is the value of `default()`.
    pub fn value(&self, subject: Subject<'_>, default: Option<bool>) -> Option<bool>
        ensures { result ≡ filter_value (subject_of subject.entry) default (filter_of self.now) }
    {
        match self {
            ToyExpr::Everything => Some(true),
            ToyExpr::AnyOf(alternatives) => alternatives.iter().fold(
                Some(false),
                |known, terms| or(known, value_of_terms(terms, subject, default)),
            ),
        }
    }
}
