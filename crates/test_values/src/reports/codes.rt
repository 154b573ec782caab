//! What is printed of the codes of findings.
use rinqebo_report::{code_page, codes_document, codes_list, find_code};
use std::alloc::{AllocError, Global};

/// The document of all codes, and then their list.
pub fn all_codes(alloc: Global) -> Result<String, AllocError> {
    let document = codes_document(alloc)?;
    let list = codes_list(alloc)?;
    format!(in alloc; "{document}----\n{list}")
}

/// The page of a word, or that no code has it.
pub fn page_of(alloc: Global, word: &str) -> Result<String, AllocError> {
    match find_code(word) {
        Some(code) => {
            let page = code_page(alloc, code)?;
            format!(in alloc; "----\n{page}")
        }
        None => format!(in alloc; "----\nno code is `{word}`\n"),
    }
}
