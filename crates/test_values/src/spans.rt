//! Where the keys and values of a text are.
//!
//! A row is a word, a tab and a text, in which `\n`, `\r`, `\t` and `\\` are written for a newline,
//! a carriage return, a tab and a backslash.
//!
//! | Word | What is printed |
//! |---|---|
//! | `items` | the items of the text (`shown.rt`) |
//! | `tokens` | its tokens |
//! | `nodes` | whether each item of a document reads as its node |
//! | `cuts` | how many items each front of it has, from the empty one on |
//! | `at` | where the value at a path is written: the path and a tab come first (`paths.rt`) |
mod paths;
mod shown;

use crate::escapes::{Escapes, unescaped};
use crate::row::RowError;
use paths::shown_at;
use shown::{cuts_of, shown_items, shown_nodes, shown_tokens};
use std::alloc::Global;

/// What is printed for a row.
pub fn answer_to(alloc: Global, row: &str) -> Result<String, RowError> {
    let (word, row) = row.split_once('\t').ok_or(RowError::NoRow)?;
    if word == "at" {
        let (path, row) = row.split_once('\t').ok_or(RowError::NoRow)?;
        let text = unescaped(alloc, row, Escapes::Named)?;
        return Ok(shown_at(alloc, path, text.as_str())?);
    }
    let text = unescaped(alloc, row, Escapes::Named)?;
    match word {
        "items" => Ok(shown_items(alloc, text.as_str())?),
        "tokens" => Ok(shown_tokens(alloc, text.as_str())?),
        "nodes" => Ok(shown_nodes(alloc, text.as_str())?),
        "cuts" => Ok(cuts_of(alloc, text.as_str())?),
        _ => Err(RowError::NoRow),
    }
}
