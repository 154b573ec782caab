//! The engine of nextest's filter language: its matchers of names, and the packages of a workspace.
//!
//! A [`Filterset`] is read from a text for a kind, and says of a test or of a binary whether it
//! matches. [`NextestFilters`] is the engine that a configuration reads its filters with. With a
//! package graph it looks `deps` and `rdeps` up. Without one it refuses them, or reads them and
//! leaves them open.
//!
//! A filter requires of a name to equal a text, to have it as a part, to match a glob or a regular
//! expression. A pattern is compiled once. A name is matched with no memory but the stack's.
#![tactic(auto)]

mod compiling;
mod engine;
mod glob;
mod laws;
mod machine;
mod name_matcher;
mod names;
mod part_matcher;
mod regex_matcher;
mod regex_size;

pub use compiling::FieldMatcher;
pub use engine::{NextestFilters, NextestTally, Packages};
pub use filter_inputs::{MetadataFault, PackageGraph};
pub use filter_language::{
    Ban, FaultKind, Field, Filterset, FiltersetFault, ParseFault, PatternFault, Span,
};
pub use glob::{GlobFault, GlobMatcher};
pub use laws::{
    law_deps, law_equality, law_filters, law_glob, law_predicates, law_regex, law_substring,
};
pub use machine::SearchTable;
pub use name_matcher::{PatternMatcher, law_decided_globs, law_plain_glob};
pub use names::NamePattern;
pub use part_matcher::PartMatcher;
pub use regex_matcher::{RegexFault, RegexMatcher};
