//! Runs of `config_explain` over the files of a case.
//!
//! Each line of such a case that is not about its files is one of these:
//!
//! | Line | What it says |
//! |---|---|
//! | `show WORD ..` | of standard output, only lines with one of these words are printed, with a count of the lines |
//! | `without-details` | of standard error, lines that begin with two spaces aren't printed |
//! | `cuts WORD ..` | a run over each beginning of the last file's text, of which those are counted that end with neither a configuration nor one refusal by name |
//! | `args WORD ..` | the command line of a run over the case's files, its words parted by one space |
//!
//! For each run the case's name, the words, the status, and what was written to the two streams are
//! printed.
mod case;
mod report;

pub use case::Setup;
pub use report::report_of;
use test_cases::Case;

/// Whether a case has a line that runs `config_explain`.
pub fn is_run_by(case: &Case<'_>) -> bool {
    case.lines.iter().any(|line| line.starts_with("args ") || line.starts_with("cuts "))
}
