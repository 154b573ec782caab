//! Findings of values that a file may not have where it writes them.
ghost use Rattle.std.specs.Prelude.{◌≡◌, ℕ, List, Option, IfOk, OnOk, option_map, string_bytes};
ghost use Rattle.std.specs.Borrow.{Bor};
ghost use Rattle.std.specs.Option.{option_and_then, option_copied};
ghost use Rattle.nextest_tree.specs.Node.{as_table};
ghost use Rattle.rinqebo_faults.specs.Tables.{IsStray};
ghost use Rattle.rinqebo_findings.specs.Later.{AddsElement};
ghost use Rattle.rinqebo_findings.specs.Subjects.{IsElementFinding, IsErrorAt, IsGivenFinding, IsLackFinding, IsStrayFor, IsValueFinding, code_of, part_of};
ghost use Rattle.rinqebo_findings.specs.Words.{SaysLack, lack_help, words_of};
ghost use Rattle.rinqebo_findings.specs.Written.{is_table, value_at};

use crate::below::below_notes;
use crate::delays::delays_finding;
use crate::findings::{SourceAt, with_note};
use crate::given::value_at;
use crate::paths::spelled_path;
use crate::refused::Refused;
use nextest_places::Step;
use nextest_tree::{ElementCause, ElementFault, Tree};
use rinqebo_faults::{
    Fault, advice, element_notes, keys_note, lack_text, path_with, script_header, stray_key,
    wanted, wrong_element,
};
use rinqebo_report::{Code, Finding, HelpPlace};
use rinqebo_request::SpanPart;
use std::alloc::{AllocError, Global};

/// Whether the key is wrong or the value.
fn wrong_part(cause: &ElementCause) -> SpanPart
    ensures { result ≡ part_of cause.now }
{
    match cause {
        ElementCause::UnknownField => SpanPart::Key,
        ElementCause::WrongKind
        | ElementCause::Missing(_)
        | ElementCause::BadValue { .. }
        | ElementCause::OutOfRange
        | ElementCause::Memory => SpanPart::Value,
    }
}

/// The code of a value that is refused.
fn element_code(cause: &ElementCause) -> Code
    ensures { result ≡ code_of cause.now }
{
    match cause {
        ElementCause::WrongKind => Code::WrongKind,
        ElementCause::Missing(_) => Code::MissingKey,
        ElementCause::BadValue { .. } => Code::InvalidValue,
        ElementCause::OutOfRange | ElementCause::Memory => Code::OutOfRange,
        ElementCause::UnknownField => Code::RefusedKey,
    }
}

/// The finding of a value that is refused.
fn value_finding(
    refused: &Refused<'_, '_>,
    cause: &ElementCause,
    path: &[Step<'_>],
) -> Result<Finding, AllocError>
    ensures { IfOk result (IsValueFinding refused.now.source.layers.now
        refused.now.source.position cause.now path.now) }
{
    let alloc = refused.alloc;
    let given = value_at(refused.source, path);
    let wrong = wrong_element(alloc, given, cause, path)?;
    let expected = wanted(alloc, given, cause, path)?;
    let help = advice(alloc, given, cause, path)?;
    let notes = element_notes(alloc, cause, path)?;
    let code = element_code(cause);
    let mut found = refused.part_at(code, path, wrong_part(cause), wrong.as_str())?;
    found.expected = expected;
    found.help = help;
    found.notes = notes;
    Ok(found)
}

/// Whether there is a table at a path.
fn has_table(source: SourceAt<'_, '_>, path: &[Step<'_>]) -> bool
    ensures { result
        ≡ is_table (value_at source.entry.layers.now source.entry.position path.now) }
{
    matches!(value_at(source, path), Some(Tree::Table(_)))
}

/// The finding that a value is out of range: if it is a table, its delays are.
fn range_finding(refused: &Refused<'_, '_>, path: &[Step<'_>]) -> Result<Finding, AllocError>
    ensures { IfOk result (IsGivenFinding refused.now.source.layers.now
        refused.now.source.position ElementCause.OutOfRange path.now) }
{
    if has_table(refused.source, path) {
        return Ok(delays_finding(refused, path)?);
    }
    Ok(value_finding(refused, &ElementCause::OutOfRange, path)?)
}

/// The finding of a value that is refused, other than that of a table that lacks a key.
fn element_finding(
    refused: &Refused<'_, '_>,
    cause: &ElementCause,
    path: &[Step<'_>],
) -> Result<Finding, AllocError>
    ensures { IfOk result (IsGivenFinding refused.now.source.layers.now
        refused.now.source.position cause.now path.now) }
{
    match cause {
        ElementCause::OutOfRange => Ok(range_finding(refused, path)?),
        cause => Ok(value_finding(refused, cause, path)?),
    }
}

/// What to do about a key that the table at a path lacks, and where that is shown: it may have
/// another one in its place.
fn lack_help(
    refused: &Refused<'_, '_>,
    key: &str,
    table: &[Step<'_>],
    has_stray: bool,
) -> Result<(Option<String>, HelpPlace), AllocError>
    ensures { IfOk result (λ help. (option_map string_bytes help.0, help.1)
        ≡ lack_help key.now table.now has_stray
        (value_at refused.now.source.layers.now refused.now.source.position table.now)) }
{
    let alloc = refused.alloc;
    if has_stray {
        let hint = format!(in alloc; "did you mean `{key}`?")?;
        return Ok((Some(hint), HelpPlace::Beside));
    }
    let help = script_header(alloc, table, value_at(refused.source, table))?;
    Ok((help, HelpPlace::Below))
}

/// The finding, at a path, that the table at another one lacks a key: at the key that it has in its
/// place, or at the table itself.
fn lack_finding(
    refused: &Refused<'_, '_>,
    key: &str,
    table: &[Step<'_>],
    at: &[Step<'_>],
    part: SpanPart,
    stray: Option<&str>,
) -> Result<Finding, AllocError>
    ensures error { IfOk result (IsErrorAt refused.now.source.layers.now
        refused.now.source.position Code.MissingKey part at.now) }
    ensures words { IfOk result (λ found. SaysLack refused.now.source.layers.now
        refused.now.source.position key.now table.now (option_copied stray.entry)
        (words_of found)) }
{
    let wrong = lack_text(refused.alloc, key, table, stray)?;
    let (help, help_place) = lack_help(refused, key, table, stray.is_some())?;
    let note = keys_note(refused.alloc, table)?;
    let notes = below_notes(refused.alloc, refused.source, table)?;
    let mut found = refused.part_at(Code::MissingKey, at, part, wrong.as_str())?;
    found.help = help;
    found.help_place = help_place;
    found.notes = notes;
    Ok(with_note(found, note)?)
}

/// The finding that the table at a path lacks a key: at the key that it has in its place, if it has
/// one.
fn missing_finding<'x>(
    refused: &Refused<'_, '_>,
    key: &str,
    table: &[Step<'x>],
    stray: Option<&'x str>,
) -> Result<Finding, AllocError>
    ensures { IfOk result (IsLackFinding refused.now.source.layers.now
        refused.now.source.position key.now table.now stray.entry) }
{
    match stray {
        Some(stray) => {
            let at = path_with(refused.alloc, table, stray)?;
            Ok(lack_finding(refused, key, table, &at, SpanPart::Key, Some(stray))?)
        }
        None => Ok(lack_finding(refused, key, table, table, SpanPart::Value, None)?),
    }
}

/// The finding of a fault of a value at a path. A table that lacks a key may have another one in
/// its place.
pub fn fault_finding<'x>(
    refused: &Refused<'_, '_>,
    cause: &ElementCause,
    path: &[Step<'x>],
    stray: Option<&'x str>,
) -> Result<Finding, AllocError>
    ensures { IfOk result (IsElementFinding refused.now.source.layers.now
        refused.now.source.position cause.now path.now stray.entry) }
{
    match cause {
        ElementCause::Missing(key) => { Ok(missing_finding(refused, key.as_str(), path, stray)?) }
        cause => Ok(element_finding(refused, cause, path)?),
    }
}

/// The key that the table at a path of a source has in place of one that it lacks, if one is near
/// that it does not know.
fn stray_at<'s>(
    alloc: Global,
    source: SourceAt<'s, '_>,
    key: &str,
    table: &[Step<'_>],
) -> Result<Option<&'s str>, AllocError>
    ensures { IfOk result (IsStray table.now (option_and_then as_table
        (value_at source.entry.layers.now source.entry.position table.now)) key.now) }
{
    match value_at(source, table) {
        Some(tree) => stray_key(alloc, table, tree, key),
        None => Ok(None),
    }
}

/// The finding that the table at a path of a source lacks a key: at a key that it does not know, if
/// one is near.
fn missing_in_source<'s>(
    refused: &Refused<'_, '_>,
    source: SourceAt<'s, '_>,
    key: &str,
    table: &[Step<'s>],
) -> Result<Finding, AllocError>
    ensures { IfOk result (λ found. (stray : Option (Bor (List ℕ)))
        × IsStray table.now (option_and_then as_table
        (value_at source.entry.layers.now source.entry.position table.now)) key.now stray
        × IsLackFinding refused.now.source.layers.now refused.now.source.position key.now
        table.now stray found) }
{
    let stray = stray_at(refused.alloc, source, key, table)?;
    Ok(missing_finding(refused, key, table, stray)?)
}

/// The finding of a fault of the value at a path of a source.
fn finding_in_source<'s>(
    refused: &Refused<'_, '_>,
    source: SourceAt<'s, '_>,
    cause: &ElementCause,
    path: &[Step<'s>],
) -> Result<Finding, AllocError>
    ensures { IfOk result (λ found. (stray : Option (Bor (List ℕ)))
        × IsStrayFor source.entry.layers.now source.entry.position cause.now path.now stray
        × IsElementFinding refused.now.source.layers.now refused.now.source.position cause.now
        path.now stray found) }
{
    match cause {
        ElementCause::Missing(key) => Ok(missing_in_source(refused, source, key.as_str(), path)?),
        cause => Ok(element_finding(refused, cause, path)?),
    }
}

/// Adds that a value is refused.
pub fn add_element(
    refused: &Refused<'_, '_>,
    findings: &mut Vec<Finding>,
    fault: &ElementFault,
) -> Result<(), AllocError>
    ensures { OnOk result (AddsElement refused.now.source.layers.now refused.now.source.position
        fault.now.cause findings.old.items findings.new.items) }
{
    let about = Fault::Value(&fault.cause);
    let source = refused.source;
    let path = spelled_path(refused.alloc, source, fault.path.as_str(), about)?;
    let found = finding_in_source(refused, source, &fault.cause, &path)?;
    refused.add_finding(findings, found)?;
    Ok(())
}
