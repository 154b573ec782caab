//! Why an engine refuses a text.
use std::ops::Range;
use thiserror::Error;

/// Bytes of a refused text, and what is wrong with them.
#[derive(Debug, Drop)]
pub struct LabeledSpan {
    /// The bytes of the text that are at fault.
    pub bytes: Range<usize>,
    /// What is wrong with them.
    pub label: String,
}

/// Why an engine refuses a text.
#[derive(Debug, Drop, Error)]
#[error("{message}")]
pub struct Refusal {
    /// The whole message, for people to read.
    pub message: String,
    /// The part of the text that is at fault, if the engine says so.
    pub span: Option<LabeledSpan>,
}
