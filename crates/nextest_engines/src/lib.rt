//! What a configuration needs from the languages that its texts are written in: of filters, of
//! platforms and of names.
//!
//! An engine implements [`Filters`] or [`Specs`] and depends on this crate alone.
#![tactic(auto)]

mod filters;
pub mod history;
mod names;
mod parse_context;
mod platforms;
mod queries;
mod refusal;

pub use filters::{FilterFault, Filters, Tally};
pub use names::NameMatcher;
pub use parse_context::ParseContext;
pub use platforms::{SpecFault, Specs};
pub use queries::{
    BinaryQuery, BuildPlatform, BuildPlatforms, EvalContext, FiltersetKind, TestQuery,
};
pub use refusal::{LabeledSpan, Refusal};
