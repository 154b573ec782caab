//! What a program wrote.
use std::alloc::{AllocError, Global};

/// Returns the text of bytes that a program wrote.
pub fn text_of(alloc: Global, bytes: Vec<u8>) -> Result<String, AllocError> {
    match String::from_utf8(bytes) {
        Ok(text) => Ok(text),
        Err(_) => String::from_str(alloc, "bytes that are not UTF-8"),
    }
}
