//! The codes of findings: what each means, an example and its correction, as a page for each and as
//! a document of all.

mod code;
mod page;
mod table;

pub use code::{CODES, Code, find_code, law_all_codes};
pub use page::{code_page, codes_document, codes_list};
