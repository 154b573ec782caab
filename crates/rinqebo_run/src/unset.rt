//! The note of `show-config` where nothing is set under its keys.
ghost use Rattle.std.specs.Prelude.{◌≡◌, false, OnOk, string_bytes};
ghost use Rattle.rinqebo_results.specs.StandardError.{AddsNotes, is_json};
ghost use Rattle.rinqebo_run.specs.CheckNotes.{IsCheck};

use nextest_config::NextestRunMode;
use nextest_shape::{Shape, file_shape, keys_of};
use rinqebo_keys::all_keys;
use rinqebo_report::{Content, Report};
use rinqebo_request::{Question, Request, text_hint};
use rinqebo_results::{Answer, is_json, push_note};
use std::alloc::{AllocError, Global};

/// The keys beside those of a profile.
const OTHER_KEYS: [&str; 5] = [
    "experimental",
    "nextest-version",
    "scripts",
    "store",
    "test-groups",
];

/// Adds the keys of the table at a path, each behind a prefix.
fn add_keys(
    alloc: Global,
    shape: &Shape,
    path: &[&str],
    prefix: &str,
    known: &mut Vec<String>,
) -> Result<(), AllocError> {
    for name in &keys_of(alloc, shape, path)? {
        known.push(format!(in alloc; "{prefix}{name}")?)?;
    }
    Ok(())
}

/// Adds the keys of the table that a user spells, of a profile or beside the profiles.
fn add_table_keys(
    alloc: Global,
    shape: &Shape,
    table: &str,
    known: &mut Vec<String>,
) -> Result<(), AllocError> {
    let prefix = format!(in alloc; "{table}.")?;
    let mut beside = Vec::new(alloc);
    let mut within = Vec::new(alloc);
    within.push("profile")?;
    within.push("default")?;
    for part in table.split('.') {
        beside.push(part)?;
        within.push(part)?;
    }
    add_keys(alloc, shape, &within, prefix.as_str(), known)?;
    add_keys(alloc, shape, &beside, prefix.as_str(), known)
}

/// The keys that a file may have where a user names a key.
fn known_keys(alloc: Global, key: &str) -> Result<Vec<String>, AllocError> {
    let shape = file_shape(alloc)?;
    let mut known = all_keys(alloc, NextestRunMode::Test)?;
    add_keys(alloc, &shape, &["profile", "default"], "", &mut known)?;
    for name in &OTHER_KEYS {
        known.push(String::from_str(alloc, *name)?)?;
    }
    if let Some((table, _)) = key.rsplit_once('.') {
        add_table_keys(alloc, &shape, table, &mut known)?;
    }
    Ok(known)
}

/// The hint of the key that a user means, which a file may have, if one is near, and the key itself
/// is none.
fn key_hint(alloc: Global, key: &str) -> Result<Option<String>, AllocError> {
    let known = known_keys(alloc, key)?;
    if known.iter().any(|name| name.as_str() == key) {
        return Ok(None);
    }
    text_hint(alloc, key, &known)
}

/// Adds the note that nothing is set under a key.
fn add_note(alloc: Global, key: &str, notes: &mut String) -> Result<(), AllocError>
    ensures { OnOk result (AddsNotes false (string_bytes notes.old) (string_bytes notes.new)) }
{
    let said = match key_hint(alloc, key)? {
        Some(hint) => format!(in alloc; "nothing is set under `{key}`; {hint}")?,
        None => format!(in alloc; "nothing is set under `{key}`")?,
    };
    push_note(said.as_str(), notes)
}

/// Whether the key of a leaf is a key, or is in the table of that key.
fn is_under(leaf: &str, key: &str) -> bool {
    match leaf.strip_prefix(key) {
        Some(rest) => rest.is_empty() || rest.starts_with('.'),
        None => false,
    }
}

/// Whether a report shows a leaf under a key.
fn shows_under(report: &Report, key: &str) -> bool {
    match &report.content {
        Content::ShowConfig { entries, .. } => entries
            .iter()
            .any(|entry| is_under(entry.key.as_str(), key)),
        Content::Explain { .. } | Content::Why { .. } | Content::List { .. } | Content::Check => {
            false
        }
    }
}

/// Adds the note on a key, if a report shows nothing under it.
fn add_if_unset(
    alloc: Global,
    report: &Report,
    key: &str,
    notes: &mut String,
) -> Result<(), AllocError>
    ensures { OnOk result (AddsNotes false (string_bytes notes.old) (string_bytes notes.new)) }
{
    if shows_under(report, key) {
        return Ok(());
    }
    add_note(alloc, key, notes)
}

/// Adds a note for each key under which a report shows nothing.
fn add_notes(
    alloc: Global,
    report: &Report,
    keys: &[&str],
    notes: &mut String,
) -> Result<(), AllocError>
    ensures { OnOk result (AddsNotes false (string_bytes notes.old) (string_bytes notes.new)) }
{
    for key in keys {
        add_if_unset(alloc, report, *key, notes)?;
    }
    Ok(())
}

/// Adds a note for each key of a request under which its result shows nothing. A document of JSON
/// shows it by itself.
pub fn add_unset(
    alloc: Global,
    request: &Request<'_>,
    answer: &Answer,
    notes: &mut String,
) -> Result<(), AllocError>
    ensures notes { OnOk result (AddsNotes (is_json request.now.format) (string_bytes notes.old)
        (string_bytes notes.new)) }
    ensures check { IsCheck request.now.question
        → OnOk result (string_bytes notes.new ≡ string_bytes notes.old) }
{
    let Question::ShowConfig { keys, .. } = &request.question else {
        return Ok(());
    };
    if is_json(request.format) {
        return Ok(());
    }
    add_notes(alloc, &answer.report, keys, notes)
}
