//! Faults of files: what refused texts, values and names are called, in words, what is expected in
//! their place, and the lines that show them; the checks of a load; and what files are read without
//! so that later checks go on.
//!
//! [`filter_words`], [`platform_words`] and [`line_words`] word refused texts, and
//! [`wrong_element`], [`wanted`] and [`advice`] refused values. [`Edits`] are what is left out of
//! files, and [`edited_document`] is a document without it.
#![tactic(auto)]

mod checks;
mod edited;
mod edits;
mod element_repairs;
mod element_words;
mod expected;
mod feature_words;
mod given;
mod headers;
mod hints;
mod left_out;
mod lines;
mod meant;
mod namings;
mod order;
mod paths;
mod positions;
mod refusal_repairs;
mod refused_filters;
mod refused_platforms;
mod refused_values;
mod regex_words;
mod shapes;
mod spellings;
mod tables;
mod toml_lines;
mod unknown_keys;
mod unreached;
mod ways;
mod worded;
mod words;

pub use checks::{Check, Scope, check_of, scope_of};
pub use edited::edited_document;
pub use edits::{Edits, mark_below, mark_of};
pub use element_repairs::{leave_out_element, leave_out_setting};
pub use element_words::{advice, element_notes, lack_text, wanted, wrong_element};
pub use feature_words::{feature_help, feature_path};
pub use given::{kind_words, profiles_of, tree_at};
pub use headers::header_text;
pub use hints::{names_of, near_hint};
pub use left_out::{LeftOut, Names};
pub use lines::{Mark, lines_of};
pub use meant::{BadLine, LineWords, line_words};
pub use namings::{Namings, law_first_naming};
pub use order::in_order;
pub use paths::{
    parent_path, parted, path_text, path_with, profile_path, script_path, section_path, spelled_in,
};
pub use positions::{char_span, expression, range_in};
pub use refusal_repairs::{
    leave_out_foreign_groups, leave_out_groups, leave_out_old_scripts, leave_out_parents,
    leave_out_script_rules, leave_out_scripts, leave_out_sections,
};
pub use refused_filters::{filter_help, filter_words};
pub use refused_platforms::platform_words;
pub use refused_values::Fault;
pub use tables::{called, keys_note, known_note, script_header, stray_key, unknown_key_text};
pub use toml_lines::{
    earlier_definition, first_note, line_at, lines_with_first, on_one_line, range_from, start_of,
};
pub use unknown_keys::unknown_key_help;
pub use unreached::{names_after, only};
pub use worded::{Stopped, Worded};
pub use words::{is_among, is_number, owned, quoted};
