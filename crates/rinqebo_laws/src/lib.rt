//! Laws of what the commands of `rinqebo` report: they agree on each test, and what is valid by the
//! schema that they print is what the shape of files accepts.
#![tactic(auto)]

mod laws;
mod schema;
mod verdicts;
mod whole_lines;

pub use laws::{law_list_agrees, law_why_agrees, law_why_runs_agrees};
pub use schema::{law_loaded_file_is_valid, law_schema_validates};
pub use verdicts::law_rule_verdicts;
pub use whole_lines::{law_concise_lines, law_github_lines, law_page_lines};
