//! The results of requests: what each command reports, its exit status, and how a list is written.
#![tactic(auto)]

mod answer;
mod asked;
mod condition_texts;
mod id_note;
mod idle;
mod in_force;
mod leaves;
mod list_objects;
mod list_origins;
mod list_page;
mod list_report;
mod list_scripts;
mod list_stop;
mod list_text;
mod looked_up;
mod note_lines;
mod printing;
mod profile;
mod progress;
mod refusing;
mod reporting;
mod status;
mod streams;

pub use answer::Answer;
pub use asked::requested_of;
pub use condition_texts::{
    condition, default_text, filter_text, host_text, no_condition, target_text,
};
pub use leaves::{entries_in, show};
pub use list_page::RequestedList;
pub use list_report::{Profile, list, profile_on};
pub use list_stop::ListStop;
pub use list_text::write_list;
pub use looked_up::config_looked_up;
pub use note_lines::{is_json, push_note};
pub use printing::{print_text, print_texts, refuse_for_memory, refuse_message};
pub use profile::{Early, early_profile};
pub use progress::ProgressLine;
pub use refusing::{error_line, refuse, refuse_in};
pub use reporting::answer_on_test;
pub use status::Status;
