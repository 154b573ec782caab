//! Where the values at paths are written, as text.
//!
//! A path is its steps with spaces between them: a position in digits, or else a key. It
//! prints the lines, the bytes of the key and those of the value, or `-` if there are none:
//! `2..2 key 13..20 value 23..24`. A path without a place prints `none`.

use nextest_places::{Lines, PathSpans, Span, Step};
use std::alloc::{AllocError, Global};

/// Where the value at a path is written in a text.
pub fn shown_at(alloc: Global, path: &str, text: &str) -> Result<String, AllocError> {
    let mut steps = Vec::new(alloc);
    for word in path.split(' ') {
        steps.push(step_of(word))?;
    }
    let spans = PathSpans::of(alloc, text)?;
    let Some(found) = spans.at(&steps) else {
        return String::from_str(alloc, "none");
    };
    let Lines { first, last } = found.lines;
    let key = shown_span(alloc, found.key)?;
    let value = shown_span(alloc, found.value)?;
    format!(in alloc; "{first}..{last} key {key} value {value}")
}

/// The step that a word writes.
fn step_of(word: &str) -> Step<'_> {
    match word.parse::<usize>() {
        Ok(position) => Step::Position(position),
        Err(_) => Step::Key(word),
    }
}

fn shown_span(alloc: Global, span: Option<Span>) -> Result<String, AllocError> {
    match span {
        Some(Span { start, end }) => format!(in alloc; "{start}..{end}"),
        None => String::from_str(alloc, "-"),
    }
}
