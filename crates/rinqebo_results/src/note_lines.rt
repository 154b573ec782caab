//! Lines of notes, for standard error.
ghost use Rattle.std.specs.Prelude.{◌≡◌, ◌++◌, OnOk, string_bytes};
ghost use Rattle.rinqebo_results.specs.StandardError.{is_json, note_line};

use rinqebo_report::Format;
use std::alloc::AllocError;

/// Whether a request is for JSON, which has no notes beside it.
pub fn is_json(format: Format<'_>) -> bool
    ensures { result ≡ is_json format.entry }
{
    match format {
        Format::Json => true,
        Format::Text | Format::Grouped | Format::Concise | Format::Github(_) => false,
    }
}

/// Adds a note, as a line of its own.
pub fn push_note(said: &str, notes: &mut String) -> Result<(), AllocError>
    ensures { OnOk result (string_bytes notes.new ≡ string_bytes notes.old ++ note_line said.now) }
{
    notes.push_str("note: ")?;
    notes.push_str(said)?;
    notes.push_str("\n")?;
    Ok(())
}
