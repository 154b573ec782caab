//! Expressions of a text: their keys, and the lines that bring them.
ghost use Rattle.std.specs.Prelude.{◌≡◌};
ghost use Rattle.toml_parser.specs.Reading.{path_view};
ghost use Rattle.nextest_places.specs.Entries.{aim_along, aim_at_key};

use crate::place::Lines;
use crate::step::Step;

/// What an expression is.
#[derive(Clone, Copy)]
pub(crate) enum Kind {
    /// A key and a value.
    Pair,
    /// A header of a table.
    Table,
    /// A header in double brackets, which begins a new element of an array.
    Element,
}

/// An expression of a text.
#[derive(Drop)]
pub(crate) struct Entry {
    pub(crate) kind: Kind,
    /// The parts of its key, from the root on.
    pub(crate) parts: Vec<String>,
    pub(crate) lines: Lines,
}

/// What an expression has to do with a path of keys.
#[derive(Clone, Copy)]
pub(crate) enum Aim {
    /// It brings nothing on the way of the path that was not there.
    Elsewhere,
    /// It defines the value at the path.
    Brings,
}

/// What an expression, by its kind and the parts of its key, has to do with a path of keys.
pub(crate) fn aim_of(kind: Kind, parts: &[String], path: &[Step]) -> Aim
    ensures { result ≡ aim_along kind (path_view parts.now) path.now }
{
    for (at, step) in path.iter().enumerate() {
        match step {
            Step::Key(key) => match parts.get(at) {
                Some(part) if *key == part.as_str() => {}
                Some(_) => return Aim::Elsewhere,
                None => return at_key(kind),
            },
            Step::Position(_) => return Aim::Elsewhere,
        }
    }
    Aim::Brings
}

/// What an expression has to do with a path that goes on by a key behind the expression's own.
fn at_key(kind: Kind) -> Aim
    ensures { result ≡ aim_at_key kind }
{
    match kind {
        Kind::Pair => Aim::Brings,
        Kind::Table | Kind::Element => Aim::Elsewhere,
    }
}
