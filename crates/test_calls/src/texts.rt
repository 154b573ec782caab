//! Texts that are generated.
use std::alloc::{AllocError, Global};

/// Appends a number between two texts.
pub fn add_number(
    alloc: Global,
    text: &mut String,
    before: &str,
    number: usize,
    behind: &str,
) -> Result<(), AllocError> {
    text.push_str(before)?;
    text.push_str(number.to_string(alloc)?.as_str())?;
    text.push_str(behind)
}
