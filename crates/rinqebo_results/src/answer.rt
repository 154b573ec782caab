//! The result of a run.
use rinqebo_report::Report;

/// The result of a run.
#[derive(Drop)]
pub struct Answer {
    /// What goes to standard output.
    pub report: Report,
    /// The exit status.
    pub status: u8,
    /// What a note on standard error says, if the report is written as a text.
    pub note: Option<String>,
}
