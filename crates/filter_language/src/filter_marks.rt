//! The marks of a filter.
ghost use Rattle.std.specs.Prelude.{◌≡◌};
ghost use Rattle.std.specs.List.{list_any};
ghost use Rattle.filter_language.specs.FilterMarks.{is_default, depth_behind};

use crate::mark::{Mark, Question};

/// Whether a mark is `default()`.
fn is_default<M>(mark: &Mark<M>) -> bool
    ensures { result ≡ is_default mark.now }
{
    matches!(mark, Mark::Predicate(Question::Default))
}

/// Whether one of the marks is.
fn names_default<M>(marks: &[Mark<M>]) -> bool
    ensures { result ≡ list_any is_default marks.now }
{
    marks.iter().any(|mark| is_default(mark))
}

/// The marks of a filter, in the order in which they are written.
#[derive(Drop)]
pub struct FilterMarks<M> {
    pub marks: Vec<Mark<M>>,
    /// Whether one of them is `default()`.
    pub names_default: bool,
    ghost default_is_named: { names_default ≡ list_any is_default marks.items },
    /// No parenthesis is left open.
    ghost closed: { depth_behind 0 marks.items ≡ 0 },
}

impl<M> FilterMarks<M> {
    /// The marks of a filter that was read.
    pub fn new(marks: Vec<Mark<M>>) -> FilterMarks<M>
        requires { depth_behind 0 marks.items ≡ 0 }
        ensures { result.marks ≡ marks }
    {
        let names_default = names_default(&marks);
        FilterMarks {
            marks,
            names_default,
        }
    }
}
