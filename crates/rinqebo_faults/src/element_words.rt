//! What is wrong with values that a file may not have, in words.
ghost use Rattle.std.specs.Prelude.{◌≡◌, Some, IfOk, map, option_map, string_bytes};
ghost use Rattle.std.specs.Option.{option_copied};
ghost use Rattle.nextest_tree.specs.View.{nodes_view, tree_view};
ghost use Rattle.rinqebo_faults.specs.Elements.{bad_text, element_notes, is_text, lack_text, out_of_range, refused_notes, text_there, wanted, wanted_text, wrong_element, wrong_kind, wrong_length, IsAdvice, IsTextAdvice, spelled};
ghost use Rattle.rinqebo_report.specs.declared.finding.HelpPlace.{HelpPlace};
ghost use Rattle.rinqebo_faults.specs.UnknownKeys.{IsUnknownKeyHelp};

use crate::expected::{expected_at, expected_name, expected_text};
use crate::given::{is_empty_array, kind_words};
use crate::headers::header_text;
use crate::hints::word_hint;
use crate::shapes::shape_at;
use crate::spellings::spelling;
use crate::tables::{called, keys_note, unknown_key_text};
use crate::unknown_keys::unknown_key_help;
use nextest_places::Step;
use nextest_shape::file_shape;
use nextest_tree::{ElementCause, Tree};
use std::alloc::{AllocError, Global};

/// What is wrong with a value of a wrong kind: the kind that it has.
fn wrong_kind(alloc: Global, name: &str, given: Option<&Tree>) -> Result<String, AllocError>
    ensures { IfOk result (λ text. string_bytes text
        ≡ wrong_kind name.now (option_map (λ tree. tree_view tree.now) given.entry)) }
{
    match given {
        Some(tree) => {
            let kind = kind_words(tree);
            format!(in alloc; "{name} is {kind}")
        }
        None => format!(in alloc; "{name} has the wrong kind"),
    }
}

/// What is wrong with an array that is out of its range: it is empty.
fn wrong_length(alloc: Global, name: &str, items: &[Tree]) -> Result<String, AllocError>
    ensures { IfOk result (λ text. string_bytes text
        ≡ wrong_length name.now (nodes_view items.now)) }
{
    if is_empty_array(items) {
        return format!(in alloc; "{name} is empty");
    }
    format!(in alloc; "{name} is out of range")
}

/// What is wrong with a value that there is and that is out of its range: the value.
fn wrong_value(alloc: Global, name: &str, given: &Tree) -> Result<String, AllocError>
    ensures { IfOk result (λ text. string_bytes text
        ≡ out_of_range name.now (Some (tree_view given.now))) }
{
    match given {
        Tree::Int(number) => format!(in alloc; "{name} is {number}"),
        Tree::Array(items) => wrong_length(alloc, name, items),
        Tree::Text(text) => {
            let text = text.as_str();
            format!(in alloc; "{name} is `{text}`")
        }
        Tree::Table(_) | Tree::Bool(_) | Tree::Opaque => {
            format!(in alloc; "{name} is out of range")
        }
    }
}

/// What is wrong with a value that is out of its range: the value.
fn out_of_range(alloc: Global, name: &str, given: Option<&Tree>) -> Result<String, AllocError>
    ensures { IfOk result (λ text. string_bytes text
        ≡ out_of_range name.now (option_map (λ tree. tree_view tree.now) given.entry)) }
{
    match given {
        Some(tree) => wrong_value(alloc, name, tree),
        None => format!(in alloc; "{name} is out of range"),
    }
}

/// Whether the value at a path is a text.
#[tactic(auto, unfolding(crate::specs::Elements::is_text))]
pub fn is_text(found: Option<&Tree>, given: &str) -> bool
    ensures { result ≡ is_text (option_map (λ tree. tree_view tree.now) found.entry) given.now }
{
    match found {
        Some(Tree::Text(text)) => text.as_str() == given,
        _ => false,
    }
}

/// The name of a value, and the text that it is.
fn text_there(alloc: Global, name: &str, given: &str) -> Result<String, AllocError>
    ensures { IfOk result (λ text. string_bytes text ≡ text_there name.now given.now) }
{
    if given.is_empty() {
        return format!(in alloc; "{name} is empty");
    }
    format!(in alloc; "{name} is `{given}`")
}

/// What is wrong with a text that is not taken: the text, or the name that it is.
#[tactic(auto, unfolding(crate::specs::Elements::bad_text))]
fn bad_text(
    alloc: Global,
    name: &str,
    given: &str,
    found: Option<&Tree>,
) -> Result<String, AllocError>
    ensures { IfOk result (λ text. string_bytes text
        ≡ bad_text name.now given.now (option_map (λ tree. tree_view tree.now) found.entry)) }
{
    if is_text(found, given) {
        return text_there(alloc, name, given);
    }
    format!(in alloc; "`{given}` is not a valid name here")
}

/// What is wrong with the value at a path, if there is one.
pub fn wrong_element(
    alloc: Global,
    found: Option<&Tree>,
    cause: &ElementCause,
    path: &[Step<'_>],
) -> Result<String, AllocError>
    ensures { IfOk result (λ text. string_bytes text
        ≡ wrong_element (option_map (λ tree. tree_view tree.now) found.entry) cause.now path.now) }
{
    let name = called(alloc, path)?;
    let name = name.as_str();
    match cause {
        ElementCause::WrongKind => wrong_kind(alloc, name, found),
        ElementCause::Missing(key) => format!(in alloc; "{name} needs `{key}`"),
        ElementCause::BadValue { given, .. } => bad_text(alloc, name, given.as_str(), found),
        ElementCause::OutOfRange => out_of_range(alloc, name, found),
        ElementCause::UnknownField => unknown_key_text(alloc, path),
        ElementCause::Memory => String::from_str(alloc, "out of memory"),
    }
}

/// What is expected in place of a text that is refused, as the shape of a file has it, or else as a
/// reader words it. The text is the value at the path, or else the key that ends it.
#[tactic(auto, unfolding(crate::specs::Elements::wanted_text))]
fn wanted_text(
    alloc: Global,
    found: Option<&Tree>,
    path: &[Step<'_>],
    given: &str,
    expected: &str,
) -> Result<Option<String>, AllocError>
    ensures { IfOk result (λ words. option_map string_bytes words ≡ Some (wanted_text
        (option_map (λ tree. tree_view tree.now) found.entry) path.now given.now expected.now)) }
{
    let words = if is_text(found, given) {
        expected_text(alloc, path)?
    } else {
        expected_name(alloc, path)?
    };
    match words {
        Some(words) => Ok(Some(words)),
        None => Ok(Some(String::from_str(alloc, expected)?)),
    }
}

/// What is expected in place of a value that is refused: the one at a path, if there is one.
pub fn wanted(
    alloc: Global,
    found: Option<&Tree>,
    cause: &ElementCause,
    path: &[Step<'_>],
) -> Result<Option<String>, AllocError>
    ensures { IfOk result (λ words. option_map string_bytes words
        ≡ wanted (option_map (λ tree. tree_view tree.now) found.entry) cause.now path.now) }
{
    match cause {
        ElementCause::BadValue { given, expected } => {
            wanted_text(alloc, found, path, given.as_str(), *expected)
        }
        ElementCause::WrongKind
        | ElementCause::Missing(_)
        | ElementCause::OutOfRange
        | ElementCause::UnknownField
        | ElementCause::Memory => expected_at(alloc, cause, path),
    }
}

/// How the value at a path is meant to be spelled, where that is plain.
#[tactic(auto, unfolding(crate::specs::Elements::spelled))]
fn spelled(
    alloc: Global,
    found: Option<&Tree>,
    path: &[Step<'_>],
) -> Result<Option<String>, AllocError>
    ensures { IfOk result (λ words. option_map string_bytes words
        ≡ spelled (option_map (λ tree. tree_view tree.now) found.entry) path.now) }
{
    let file = file_shape(alloc)?;
    let header = header_text(alloc, path)?;
    match (shape_at(&file, path), found) {
        (Some(shape), Some(tree)) => spelling(alloc, shape, tree, header.as_str()),
        _ => Ok(None),
    }
}

/// What to do about a text that is refused.
fn text_advice(
    alloc: Global,
    found: Option<&Tree>,
    given: &str,
    path: &[Step<'_>],
) -> Result<Option<String>, AllocError>
    ensures { IfOk result (λ advice. IsTextAdvice
        (option_map (λ tree. tree_view tree.now) found.entry) given.now path.now
        (option_map string_bytes advice)) }
{
    match word_hint(alloc, given, path)? {
        Some(hint) => Ok(Some(hint)),
        None => spelled(alloc, found, path),
    }
}

/// What to do about the key at the end of a path, which its table refuses.
fn key_advice(alloc: Global, path: &[Step<'_>]) -> Result<Option<String>, AllocError>
    ensures { IfOk result (λ advice. (place : HelpPlace)
        × IsUnknownKeyHelp path.now (option_map string_bytes advice) place) }
{
    let (help, _place) = unknown_key_help(alloc, path)?;
    Ok(help)
}

/// What to do about a value that is refused: the one at a path, if there is one.
pub fn advice(
    alloc: Global,
    found: Option<&Tree>,
    cause: &ElementCause,
    path: &[Step<'_>],
) -> Result<Option<String>, AllocError>
    ensures { IfOk result (λ advice. IsAdvice (option_map (λ tree. tree_view tree.now) found.entry)
        cause.now path.now (option_map string_bytes advice)) }
{
    match cause {
        ElementCause::BadValue { given, .. } => text_advice(alloc, found, given.as_str(), path),
        ElementCause::UnknownField => key_advice(alloc, path),
        ElementCause::WrongKind
        | ElementCause::Missing(_)
        | ElementCause::OutOfRange
        | ElementCause::Memory => spelled(alloc, found, path),
    }
}

/// The notes about the key at the end of a path, which its table refuses.
#[tactic(auto, unfolding(crate::specs::Elements::refused_notes))]
fn refused_notes(alloc: Global, path: &[Step<'_>]) -> Result<Vec<String>, AllocError>
    ensures { IfOk result (λ notes. map string_bytes notes.items ≡ refused_notes path.now) }
{
    let mut notes = Vec::new(alloc);
    if let Some((_key, table)) = path.split_last() {
        if let Some(note) = keys_note(alloc, table)? {
            notes.push(note)?;
        }
    }
    Ok(notes)
}

/// The notes about a value that is refused: the keys that its table has, where it is a key.
pub fn element_notes(
    alloc: Global,
    cause: &ElementCause,
    path: &[Step<'_>],
) -> Result<Vec<String>, AllocError>
    ensures { IfOk result (λ notes. map string_bytes notes.items
        ≡ element_notes cause.now path.now) }
{
    match cause {
        ElementCause::UnknownField => refused_notes(alloc, path),
        ElementCause::WrongKind
        | ElementCause::Missing(_)
        | ElementCause::BadValue { .. }
        | ElementCause::OutOfRange
        | ElementCause::Memory => Ok(Vec::new(alloc)),
    }
}

/// That the table at a path lacks a key, and may have another one in its place.
pub fn lack_text(
    alloc: Global,
    key: &str,
    table: &[Step<'_>],
    stray: Option<&str>,
) -> Result<String, AllocError>
    ensures { IfOk result (λ text. string_bytes text
        ≡ lack_text key.now table.now (option_copied stray.entry)) }
{
    let name = called(alloc, table)?;
    match stray {
        Some(stray) => format!(in alloc; "{name} needs `{key}`, not `{stray}`"),
        None if key == "delay" => {
            format!(in alloc; "{name} needs `delay`, as `backoff` is `exponential`")
        }
        None => format!(in alloc; "{name} needs `{key}`"),
    }
}
