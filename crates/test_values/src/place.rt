//! The lines of a path in a text.
//!
//! A row is a text, a tab and a path. In the text `\n`, `\r`, `\t` and `\\` are written for a newline,
//! a carriage return, a tab and a backslash. The path is keys and positions with a space between them;
//! a position has `#` before it, and no word at all is the path of the root.
//!
//! The row prints the first and the last line of the place, with a tab between them, or `none`.
use crate::escapes::{Escapes, unescaped};
use crate::row::RowError;
use nextest_places::{Places, Step};
use std::alloc::Global;

/// The place of a row's path in its text.
pub fn answer_to(alloc: Global, row: &str) -> Result<String, RowError> {
    let (text, words) = row.split_once('\t').ok_or(RowError::NoRow)?;
    let text = unescaped(alloc, text, Escapes::Named)?;
    let path = path_of(alloc, words)?;
    match Places::of(alloc, text.as_str())?.lines_at(&path) {
        Some(place) => Ok(format!(in alloc; "{}\t{}", place.first, place.last)?),
        None => Ok(String::from_str(alloc, "none")?),
    }
}

/// The path that some words spell.
fn path_of(alloc: Global, words: &str) -> Result<Vec<Step>, RowError> {
    let mut path = Vec::new(alloc);
    if words.is_empty() {
        return Ok(path);
    }
    for word in words.split(' ') {
        path.push(step_of(word)?)?;
    }
    Ok(path)
}

/// The step that a word spells.
fn step_of(word: &str) -> Result<Step, RowError> {
    match word.strip_prefix('#') {
        Some(digits) => match digits.parse::<usize>() {
            Ok(position) => Ok(Step::Position(position)),
            Err(_) => Err(RowError::NoRow),
        },
        None => Ok(Step::Key(word)),
    }
}
