//! What the program `rinqebo` prints: the settings of a test or of each test, the rules of a
//! setting, the leaves of a configuration, and what is wrong with files, as a text, with colours or
//! without, and in three forms for other programs; the codes of findings (`codes`), and the JSON
//! schema of its documents (`schema`).
#![tactic(auto)]

mod advice;
mod check_page;
mod codes;
mod config_page;
mod duration;
mod exact_value;
mod excerpt;
mod explain_page;
mod filled;
mod finding;
mod finding_page;
mod format;
mod github;
mod group_page;
mod header;
mod hint;
mod json_document;
mod json_findings;
mod json_parts;
mod json_request;
mod json_requested;
mod laws;
mod layout;
mod list_page;
mod origin;
mod origin_text;
mod piece;
mod report;
mod reported_request;
mod schema;
mod toml_text;
mod value;
mod why_page;

pub use codes::{CODES, Code, code_page, codes_document, codes_list, find_code, law_all_codes};
pub use exact_value::ExactValue;
pub use finding::{
    CharSpan, Finding, FindingStep, HelpPlace, Level, LinePart, RefusedExpression, Sign, SourceLine,
};
pub use format::{Format, render, render_findings};
pub use github::{add_file, add_message, add_property};
pub use hint::nearest_name;
pub use json_document::{document, render_json};
pub use json_parts::{
    optional_text_json, optional_value_json, origins_json, sources_json, test_id_json, texts_json,
    wrappers_json,
};
pub use json_requested::put_text;
pub use laws::{law_colours, law_durations};
pub use layout::Paper;
pub use list_page::{render_list_end, render_list_head, render_listed};
pub use origin::{
    FileLines, FilePlace, Origin, Part, Position, Range, Source, SourceKind, Written,
};
pub use origin_text::{add_origins, path_at};
pub use piece::{Colour, Piece, Style, add_pieces};
pub use report::{
    Asked, BuiltFor, Condition, ConditionAnswer, Content, Entry, ListScripts, ListWrapper, Report,
    Rule, RunMode, SettingRow, TestId, TestRows, Unreached, Verdict,
};
pub use reported_request::{NamedTest, ReportCommand, ReportedRequest};
pub use schema::DOCUMENT_SCHEMA;
pub use toml_text::value_text;
pub use value::{ReportedDuration, Scalar, TableMember, Value};
