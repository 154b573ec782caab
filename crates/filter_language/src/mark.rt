//! The marks of which filters are written.
use crate::words::{Field, Sign};
use nextest_engines::BuildPlatform;

/// A predicate with a pattern.
#[derive(Drop)]
pub struct Match<M> {
    pub field: Field,
    pub sign: Sign,
    /// Whether no sign was written.
    pub is_default: bool,
    /// The text, with its escapes resolved.
    pub text: String,
    /// The predicate as it was written, from its word to its `)`.
    pub written: String,
    pub matcher: M,
}

/// A predicate of a test or a binary.
#[derive(Drop)]
pub enum Question<M> {
    /// `all()`
    All,
    /// `none()`
    Nothing,
    /// `default()`
    Default,
    /// `platform(host)`, `platform(target)`
    Platform(BuildPlatform),
    /// A field with a name that a pattern matches.
    Matches(Match<M>),
}

/// A mark.
#[derive(Drop)]
pub enum Mark<M> {
    /// A predicate, with all that is between its parentheses.
    Predicate(Question<M>),
    /// `not` or `!`
    Not,
    /// `(`
    Open,
    /// `)`
    Close,
    /// `and` or `&`
    And,
    /// `or`, `|` or `+`
    Or,
    /// `-`
    Minus,
}
