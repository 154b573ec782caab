//! Texts of the pages of a diff.
ghost use Rattle.std.specs.Prelude.{◌≡◌, IfOk, string_bytes};
ghost use Rattle.rinqebo_changes.specs.Pages.{setting_text, origins_text, source_text, has_source, other_key};

use crate::change::{RowChange, SideRow};
use crate::diff::Side;
use rinqebo_report::{Origin, Value, add_origins, value_text};
use std::alloc::{AllocError, Global};

/// What a page shows where there is no value and no origin.
const NONE: &str = "none";

/// A value as a text.
pub fn setting_text(alloc: Global, value: &Option<Value>) -> Result<String, AllocError>
    ensures { IfOk result (λ text. string_bytes text ≡ setting_text value.now) }
{
    match value {
        Some(value) => value_text(alloc, value),
        None => String::from_str(alloc, NONE),
    }
}

/// Origins of a side, as a text.
fn origins_text(alloc: Global, side: &Side, origins: &[Origin]) -> Result<String, AllocError>
    ensures { IfOk result (λ text. string_bytes text ≡ origins_text side.now origins.now) }
{
    if origins.is_empty() {
        return String::from_str(alloc, NONE);
    }
    let mut text = String::new(alloc);
    add_origins(&mut text, side.root.as_str(), &side.sources, origins)?;
    Ok(text)
}

/// What a page shows in place of the origins of a test that a list gives as ignored.
const IGNORED: &str = "ignored in LIST";

/// Where the value of a side comes from, as a text.
pub fn source_text(alloc: Global, side: &Side, given: &SideRow) -> Result<String, AllocError>
    ensures { IfOk result (λ text. string_bytes text ≡ source_text side.now given.now) }
{
    if given.is_ignored {
        String::from_str(alloc, IGNORED)
    } else {
        origins_text(alloc, side, &given.row.origins)
    }
}

/// Whether it is known where the value of a side comes from.
pub fn has_source(given: &SideRow) -> bool
    ensures { result ≡ has_source given.now }
{
    given.is_ignored || !given.row.origins.is_empty()
}

/// The key of the right side, where it is another one.
pub fn other_key(alloc: Global, row: &RowChange) -> Result<String, AllocError>
    ensures { IfOk result (λ text. string_bytes text ≡ other_key row.now) }
{
    if row.from.row.key.as_str() == row.to.row.key.as_str() {
        return Ok(String::new(alloc));
    }
    let mut text = String::from_str(alloc, row.to.row.key.as_str())?;
    text.push_str(": ")?;
    Ok(text)
}
