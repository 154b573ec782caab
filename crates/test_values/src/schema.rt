//! The shape of a configuration file at its places.
//!
//! | Row | Prints |
//! |---|---|
//! | a JSON pointer, which begins with `/` | what it points at in the JSON schema, as JSON without spaces between its marks, or `none` |
//! | `keys` and the parts of a path, with a space before each | the keys that the table there knows, with a space between them, or `none` |
//! | `page` | the whole page of the schema |
use crate::row::RowError;
use nextest_shape::{Shape, file_shape, json_schema, keys_of, schema_page};
use std::alloc::Global;

/// The shape of a file at a row's place.
pub fn answer_to(alloc: Global, row: &str) -> Result<String, RowError> {
    if row == "page" {
        let page = schema_page(alloc)?;
        return Ok(String::from_str(alloc, page.trim_end())?);
    }
    let shape = file_shape(alloc)?;
    if let Some(path) = row.strip_prefix("keys") {
        return keys_line(alloc, &shape, path);
    }
    match json_schema(alloc, &shape)?.pointer(row) {
        Some(part) => Ok(format!(in alloc; "{part}")?),
        None => Ok(String::from_str(alloc, "none")?),
    }
}

/// The keys of the table at a path of a file, with a space between them.
fn keys_line(alloc: Global, shape: &Shape, path: &str) -> Result<String, RowError> {
    let mut parts = Vec::new(alloc);
    for part in path.split(' ') {
        if !part.is_empty() {
            parts.push(part)?;
        }
    }
    let mut line = String::new(alloc);
    for key in &keys_of(alloc, shape, &parts)? {
        if !line.is_empty() {
            line.push(' ')?;
        }
        line.push_str(key)?;
    }
    if line.is_empty() {
        line.push_str("none")?;
    }
    Ok(line)
}
