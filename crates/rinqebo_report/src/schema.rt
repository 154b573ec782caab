//! The JSON schema of documents, as texts.
mod diffs;
mod objects;
mod parts;
mod reports;

use diffs::DIFFS;
use objects::OBJECTS;
use parts::PARTS;
use reports::REPORTS;

/// The JSON schema (draft 2020-12) of every document that the program prints with `--format json`
/// and that the library returns, in texts that follow one another. The last one ends with the end
/// of a line.
pub const DOCUMENT_SCHEMA: [&str; 4] = [REPORTS, DIFFS, OBJECTS, PARTS];
