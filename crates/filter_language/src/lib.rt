//! The language of filters: what a text of it writes, where a text breaks, and what a filter says
//! of a test and of a binary.
//!
//! A filter is kept as the list of its marks, in the order in which they are written. Reading and
//! evaluation each go once over that list with the open levels on a stack of their own, so no call
//! nests as deep as a text, and an evaluation takes no memory. It steps over each mark, and does not
//! evaluate a predicate that can no longer change the value.
//!
//! # The seam
//!
//! What names a pattern matches is not decided in this crate: an engine implements [`Matchers`].
//! The reader calls [`Matchers::compile`] once for each argument, at its end: with the predicate's
//! field, the sign that is before the text or that the field has by default, and the text with its
//! escapes resolved (of a regex `\/` alone). A fault says that the pattern is malformed or too
//! large, and the reader reports `InvalidGlob`, `InvalidRegex` or `TooLarge` with the argument's
//! span. [`Matchers::has_package_graph`] says whether `deps` and `rdeps` are resolved; where it is
//! false, a text with one is refused by `NoPackageGraph` after it was read whole, so `compile` is
//! called for their patterns too.
//!
//! A compiled matcher is called with one name: that of the test, of the binary or its id, of its kind, or
//! of its package. For `deps` and `rdeps` that is the package's name too, and the matcher is the
//! set of the members' names that they mean.
#![tactic(auto)]

mod asks;
mod evaluation;
mod fault;
mod filter_marks;
mod filterset;
mod laws;
mod mark;
mod matchers;
mod notation;
mod reading;
mod words;

pub use fault::{Ban, FaultKind, FiltersetFault, ParseFault, Span};
pub use filterset::Filterset;
pub use laws::{
    law_binaries, law_decided, law_first_fault, law_grammar, law_marks, law_one_filter,
    law_opposites, law_texts, law_values,
};
pub use matchers::{Matchers, PatternFault};
pub use words::{Field, Sign};
