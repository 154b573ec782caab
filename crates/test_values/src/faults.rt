//! The faults of the elements of a file.
//!
//! A row is the text of a file. In it `\n`, `\r`, `\t` and `\\` are written for a newline, a carriage
//! return, a tab and a backslash.
//!
//! The row prints each fault, with `; ` between them: its path, `: ` and what is wrong there. The
//! path is keys and positions with dots between them. A file without a fault prints `none`.
use crate::escapes::{Escapes, unescaped};
use crate::row::RowError;
use nextest_documents::{lay_over, tree_from_text};
use nextest_places::Step;
use nextest_shape::{FoundFault, file_faults};
use nextest_tables::default_tree;
use std::alloc::{AllocError, Global};

/// The faults of a row's file.
pub fn answer_to(alloc: Global, row: &str) -> Result<String, RowError> {
    let text = unescaped(alloc, row, Escapes::Named)?;
    let document = tree_from_text(alloc, text.as_str())?;
    let tree = lay_over(alloc, &document, default_tree(alloc)?)?;
    let found = file_faults(alloc, &tree)?;
    if found.is_empty() {
        return Ok(String::from_str(alloc, "none")?);
    }
    let mut line = String::new(alloc);
    for fault in &found {
        if !line.is_empty() {
            line.push_str("; ")?;
        }
        push_fault(alloc, &mut line, fault)?;
    }
    Ok(line)
}

/// Adds a fault to a line.
fn push_fault(alloc: Global, line: &mut String, fault: &FoundFault) -> Result<(), AllocError> {
    for (place, step) in fault.path.iter().enumerate() {
        if place > 0 {
            line.push('.')?;
        }
        match step {
            Step::Key(key) => line.push_str(key)?,
            Step::Position(position) => {
                let digits = format!(in alloc; "{position}")?;
                line.push_str(digits.as_str())?;
            }
        }
    }
    let cause = format!(in alloc; ": {}", fault.cause)?;
    line.push_str(cause.as_str())
}
