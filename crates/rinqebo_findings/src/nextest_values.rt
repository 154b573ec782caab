//! Findings of values that nextest refuses, and of keys that it does not know.
ghost use Rattle.std.specs.Prelude.{OnOk, map};
ghost use Rattle.nextest_places.specs.Spans.Paths.{path_step};
ghost use Rattle.nextest_tree.specs.Schema.{is_one_of};
ghost use Rattle.nextest_tree.specs.View.{entries_view, tree_view};
ghost use Rattle.rinqebo_report.specs.declared.codes.code.Code.TheVariants as codes;
ghost use Rattle.rinqebo_findings.specs.NextestForms.{AddsForms, refused_value, text_faults, unknown_key, unknown_keys, wrong_kind};

use crate::findings::{UNKNOWN_KEY, key_warning};
use crate::refused::Refused;
use nextest_places::Step;
use nextest_tree::Tree;
use rinqebo_faults::{called, is_among, kind_words, known_note, near_hint, path_with, quoted};
use rinqebo_report::{Code, Finding, HelpPlace};
use std::alloc::AllocError;
use std::collections::BTreeMap;

/// Adds that a value is of a wrong kind.
pub fn add_kind(
    refused: &Refused<'_, '_>,
    findings: &mut Vec<Finding>,
    path: &[Step<'_>],
    given: &Tree,
    expected: &str,
) -> Result<(), AllocError>
    ensures { OnOk result (AddsForms refused.now.source.layers.now refused.now.source.position
        (wrong_kind (map path_step path.now)) findings.old.items findings.new.items) }
{
    let alloc = refused.alloc;
    let name = called(alloc, path)?;
    let kind = kind_words(given);
    let wrong = format!(in alloc; "{name} is {kind}")?;
    refused.add_value(
        findings,
        Code::WrongKind,
        path,
        wrong.as_str(),
        expected,
        None,
    )
}

/// Adds that a string is none that a path may have.
pub fn add_text(
    refused: &Refused<'_, '_>,
    findings: &mut Vec<Finding>,
    path: &[Step<'_>],
    given: &str,
    expected: &str,
    help: Option<String>,
) -> Result<(), AllocError>
    ensures { OnOk result (AddsForms refused.now.source.layers.now refused.now.source.position
        (refused_value codes.InvalidValue (map path_step path.now)) findings.old.items
        findings.new.items) }
{
    let alloc = refused.alloc;
    let name = called(alloc, path)?;
    let wrong = format!(in alloc; "{name} is `{given}`")?;
    refused.add_value(
        findings,
        Code::InvalidValue,
        path,
        wrong.as_str(),
        expected,
        help,
    )
}

/// Adds that a string is none of some words.
fn add_other_word(
    refused: &Refused<'_, '_>,
    findings: &mut Vec<Finding>,
    path: &[Step<'_>],
    given: &str,
    words: &[&str],
    expected: &str,
) -> Result<(), AllocError>
    ensures { OnOk result (AddsForms refused.now.source.layers.now refused.now.source.position
        (refused_value codes.InvalidValue (map path_step path.now)) findings.old.items
        findings.new.items) }
{
    let help = near_hint(refused.alloc, given, words)?;
    add_text(refused, findings, path, given, expected, help)
}

/// Adds what is wrong with a value that is one of some words.
pub fn add_word(
    refused: &Refused<'_, '_>,
    findings: &mut Vec<Finding>,
    path: &[Step<'_>],
    given: &Tree,
    words: &[&str],
) -> Result<(), AllocError>
    ensures { OnOk result (AddsForms refused.now.source.layers.now refused.now.source.position
        (text_faults (is_one_of (map (λ word. word.now) words.now)) (map path_step path.now)
        (tree_view given.now)) findings.old.items findings.new.items) }
{
    let expected = quoted(refused.alloc, words, " or ")?;
    match given.as_str() {
        Some(text) if is_among(words, text) => Ok(()),
        Some(text) => add_other_word(refused, findings, path, text, words, expected.as_str()),
        None => add_kind(refused, findings, path, given, expected.as_str()),
    }
}

/// Warns of a key of a table that is none of some.
fn warn_of_other<'x>(
    refused: &Refused<'_, '_>,
    findings: &mut Vec<Finding>,
    path: &[Step<'x>],
    key: &'x str,
    known: &[&str],
) -> Result<(), AllocError>
    ensures { OnOk result (AddsForms refused.now.source.layers.now refused.now.source.position
        (unknown_key (map path_step path.now) key.entry.now) findings.old.items
        findings.new.items) }
{
    let alloc = refused.alloc;
    let help = near_hint(alloc, key, known)?;
    let table = called(alloc, path)?;
    let note = known_note(alloc, table.as_str(), known)?;
    let message = format!(in alloc; "`{key}` is not a key of {table}")?;
    let at = path_with(alloc, path, key)?;
    let mut found = key_warning(alloc, UNKNOWN_KEY, refused.source, &at, message)?;
    found.help = help;
    found.help_place = HelpPlace::Beside;
    refused.add_noted(findings, found, note)
}

/// Warns of the keys of a table that are none of some.
pub fn warn_of_others<'x>(
    refused: &Refused<'_, '_>,
    findings: &mut Vec<Finding>,
    path: &[Step<'x>],
    members: &'x BTreeMap<String, Tree>,
    known: &[&str],
) -> Result<(), AllocError>
    ensures { OnOk result (AddsForms refused.now.source.layers.now refused.now.source.position
        (unknown_keys (map (λ key. key.now) known.now) (map path_step path.now)
        (entries_view members.entry.now.entries)) findings.old.items findings.new.items) }
{
    for (key, _tree) in members.iter() {
        if !is_among(known, key.as_str()) {
            warn_of_other(refused, findings, path, key.as_str(), known)?;
        }
    }
    Ok(())
}
