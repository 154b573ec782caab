//! What nextest refuses of the archives of profiles, and a load does not look at.
ghost use Rattle.std.specs.Prelude.{OnOk, codes, map};
ghost use Rattle.std.specs.Str.{bytes_eq};
ghost use Rattle.nextest_places.specs.Spans.Paths.{path_step};
ghost use Rattle.nextest_tree.specs.Node.{member_of};
ghost use Rattle.nextest_tree.specs.Schema.{is_one_of};
ghost use Rattle.nextest_tree.specs.View.{nodes_view, tree_view};
ghost use Rattle.rinqebo_report.specs.declared.codes.code.Code.TheVariants.{MissingKey, OutOfRange};
ghost use Rattle.rinqebo_findings.specs.NextestForms.{AddsForms, any_text_faults, archive_faults, depth_faults, each_position, entry_faults, if_given, include_faults, include_path, include_roots, item_in, key_in, on_missing_words, or_missing, refused_value, text_faults};

use crate::nextest_values::{add_kind, add_text, add_word, warn_of_others};
use crate::refused::Refused;
use nextest_places::Step;
use nextest_tree::Tree;
use rinqebo_faults::{known_note, path_with, profile_path};
use rinqebo_report::{Code, Finding};
use std::alloc::AllocError;

/// What an archive does about a path that is missing.
const ON_MISSING: [&str; 3] = ["ignore", "warn", "error"];

/// The keys of an entry of what an archive includes.
const INCLUDE_KEYS: [&str; 4] = ["path", "relative-to", "depth", "on-missing"];

/// A depth of an entry of what an archive includes, in words.
const DEPTH: &str = "an integer of at least 0, or `infinite`";

/// Adds that an entry of what an archive includes lacks a key.
fn add_missing(
    refused: &Refused<'_, '_>,
    findings: &mut Vec<Finding>,
    path: &[Step<'_>],
    key: &str,
) -> Result<(), AllocError>
    ensures { OnOk result (AddsForms refused.now.source.layers.now refused.now.source.position
        (refused_value MissingKey (map path_step path.now)) findings.old.items
        findings.new.items) }
{
    let alloc = refused.alloc;
    let note = known_note(alloc, "an item of `include`", &INCLUDE_KEYS)?;
    let wrong = format!(in alloc; "an item of `include` needs `{key}`")?;
    let found = refused.at(Code::MissingKey, path, wrong.as_str())?;
    refused.add_noted(findings, found, note)
}

/// Adds what is wrong with the path of an entry of what an archive includes.
fn add_path(
    refused: &Refused<'_, '_>,
    findings: &mut Vec<Finding>,
    path: &[Step<'_>],
    given: &Tree,
) -> Result<(), AllocError>
    ensures { OnOk result (AddsForms refused.now.source.layers.now refused.now.source.position
        (any_text_faults (key_in (map path_step path.now) (codes "path")) (tree_view given.now))
        findings.old.items findings.new.items) }
{
    if given.as_str().is_some() {
        return Ok(());
    }
    let path = path_with(refused.alloc, path, "path")?;
    add_kind(refused, findings, &path, given, "a string")
}

/// Adds what is wrong with the path of an entry of what an archive includes, or that it has none.
fn add_needed_path(
    refused: &Refused<'_, '_>,
    findings: &mut Vec<Finding>,
    path: &[Step<'_>],
    entry: &Tree,
) -> Result<(), AllocError>
    ensures { OnOk result (AddsForms refused.now.source.layers.now refused.now.source.position
        (or_missing any_text_faults (map path_step path.now) (codes "path")
        (member_of (codes "path") (tree_view entry.now))) findings.old.items
        findings.new.items) }
{
    match entry.get("path") {
        Some(given) => add_path(refused, findings, path, given),
        None => add_missing(refused, findings, path, "path"),
    }
}

/// Adds what is wrong with the value at a key of an entry of what an archive includes, which is one
/// of some words.
fn add_word_at(
    refused: &Refused<'_, '_>,
    findings: &mut Vec<Finding>,
    path: &[Step<'_>],
    key: &'static str,
    given: &Tree,
    words: &[&str],
) -> Result<(), AllocError>
    ensures { OnOk result (AddsForms refused.now.source.layers.now refused.now.source.position
        (text_faults (is_one_of (map (λ word. word.now) words.now))
        (key_in (map path_step path.now) key.now) (tree_view given.now)) findings.old.items
        findings.new.items) }
{
    let path = path_with(refused.alloc, path, key)?;
    add_word(refused, findings, &path, given, words)
}

/// Adds what is wrong with what the path of an entry of what an archive includes is relative to, or
/// that it says nothing of that.
fn add_needed_root(
    refused: &Refused<'_, '_>,
    findings: &mut Vec<Finding>,
    path: &[Step<'_>],
    entry: &Tree,
) -> Result<(), AllocError>
    ensures { OnOk result (AddsForms refused.now.source.layers.now refused.now.source.position
        (or_missing (text_faults (is_one_of include_roots)) (map path_step path.now)
        (codes "relative-to") (member_of (codes "relative-to") (tree_view entry.now)))
        findings.old.items findings.new.items) }
{
    let key = "relative-to";
    match entry.get(key) {
        Some(given) => add_word_at(refused, findings, path, key, given, &["target"]),
        None => add_missing(refused, findings, path, key),
    }
}

/// Adds that the depth of an entry of what an archive includes is below 0.
fn add_negative_depth(
    refused: &Refused<'_, '_>,
    findings: &mut Vec<Finding>,
    path: &[Step<'_>],
    number: i64,
) -> Result<(), AllocError>
    ensures { OnOk result (AddsForms refused.now.source.layers.now refused.now.source.position
        (refused_value OutOfRange (map path_step path.now)) findings.old.items
        findings.new.items) }
{
    let wrong = format!(in refused.alloc; "`depth` is {number}")?;
    refused.add_value(
        findings,
        Code::OutOfRange,
        path,
        wrong.as_str(),
        DEPTH,
        None,
    )
}

/// Adds what is wrong with the depth of an entry of what an archive includes, which is not a number.
fn add_depth_word(
    refused: &Refused<'_, '_>,
    findings: &mut Vec<Finding>,
    path: &[Step<'_>],
    given: &Tree,
) -> Result<(), AllocError>
    ensures { OnOk result (AddsForms refused.now.source.layers.now refused.now.source.position
        (text_faults (bytes_eq (codes "infinite")) (map path_step path.now)
        (tree_view given.now)) findings.old.items findings.new.items) }
{
    match given.as_str() {
        Some(text) if text == "infinite" => Ok(()),
        Some(text) => add_text(refused, findings, path, text, DEPTH, None),
        None => add_kind(refused, findings, path, given, DEPTH),
    }
}

/// Adds what is wrong with the depth of an entry of what an archive includes.
fn add_depth(
    refused: &Refused<'_, '_>,
    findings: &mut Vec<Finding>,
    path: &[Step<'_>],
    given: &Tree,
) -> Result<(), AllocError>
    ensures { OnOk result (AddsForms refused.now.source.layers.now refused.now.source.position
        (depth_faults (map path_step path.now) (tree_view given.now)) findings.old.items
        findings.new.items) }
{
    match given.as_integer() {
        Some(number) if number < 0 => add_negative_depth(refused, findings, path, number),
        Some(_) => Ok(()),
        None => add_depth_word(refused, findings, path, given),
    }
}

/// Adds what is wrong with the depth of an entry of what an archive includes, if it has one.
fn add_depth_at(
    refused: &Refused<'_, '_>,
    findings: &mut Vec<Finding>,
    path: &[Step<'_>],
    entry: &Tree,
) -> Result<(), AllocError>
    ensures { OnOk result (AddsForms refused.now.source.layers.now refused.now.source.position
        (if_given (depth_faults (key_in (map path_step path.now) (codes "depth")))
        (member_of (codes "depth") (tree_view entry.now))) findings.old.items
        findings.new.items) }
{
    let Some(given) = entry.get("depth") else {
        return Ok(());
    };
    let path = path_with(refused.alloc, path, "depth")?;
    add_depth(refused, findings, &path, given)
}

/// Adds what is wrong with what an archive does about an entry that is missing, if it says so.
fn add_on_missing(
    refused: &Refused<'_, '_>,
    findings: &mut Vec<Finding>,
    path: &[Step<'_>],
    entry: &Tree,
) -> Result<(), AllocError>
    ensures { OnOk result (AddsForms refused.now.source.layers.now refused.now.source.position
        (if_given (text_faults (is_one_of on_missing_words)
        (key_in (map path_step path.now) (codes "on-missing")))
        (member_of (codes "on-missing") (tree_view entry.now))) findings.old.items
        findings.new.items) }
{
    let key = "on-missing";
    match entry.get(key) {
        Some(given) => add_word_at(refused, findings, path, key, given, &ON_MISSING),
        None => Ok(()),
    }
}

/// Adds what is wrong with an entry of what an archive includes.
fn add_entry<'x>(
    refused: &Refused<'_, '_>,
    findings: &mut Vec<Finding>,
    path: &[Step<'x>],
    entry: &'x Tree,
) -> Result<(), AllocError>
    ensures { OnOk result (AddsForms refused.now.source.layers.now refused.now.source.position
        (entry_faults (map path_step path.now) (tree_view entry.entry.now)) findings.old.items
        findings.new.items) }
{
    let Some(members) = entry.as_table() else {
        return add_kind(refused, findings, path, entry, "a table");
    };
    warn_of_others(refused, findings, path, members, &INCLUDE_KEYS)?;
    add_needed_path(refused, findings, path, entry)?;
    add_needed_root(refused, findings, path, entry)?;
    add_depth_at(refused, findings, path, entry)?;
    add_on_missing(refused, findings, path, entry)
}

/// Adds what is wrong with the entries of what the archive of a profile includes.
fn add_entries<'x>(
    refused: &Refused<'_, '_>,
    findings: &mut Vec<Finding>,
    profile: &'x str,
    entries: &'x [Tree],
) -> Result<(), AllocError>
    ensures { OnOk result (AddsForms refused.now.source.layers.now refused.now.source.position
        (each_position (λ position. entry_faults
        (item_in (include_path profile.entry.now) position)) 0 (nodes_view entries.entry.now))
        findings.old.items findings.new.items) }
{
    for (position, entry) in entries.iter().enumerate() {
        let path = [
            Step::Key("profile"),
            Step::Key(profile),
            Step::Key("archive"),
            Step::Key("include"),
            Step::Position(position),
        ];
        add_entry(refused, findings, &path, entry)?;
    }
    Ok(())
}

/// Adds what is wrong with what the archive of a profile includes.
fn add_include<'x>(
    refused: &Refused<'_, '_>,
    findings: &mut Vec<Finding>,
    profile: &'x str,
    include: &'x Tree,
) -> Result<(), AllocError>
    ensures { OnOk result (AddsForms refused.now.source.layers.now refused.now.source.position
        (include_faults profile.entry.now (tree_view include.entry.now)) findings.old.items
        findings.new.items) }
{
    let path = [
        Step::Key("profile"),
        Step::Key(profile),
        Step::Key("archive"),
        Step::Key("include"),
    ];
    match include.as_array() {
        Some(entries) => add_entries(refused, findings, profile, entries),
        None => add_kind(refused, findings, &path, include, "an array of tables"),
    }
}

/// Adds what is wrong with what the archive of a profile includes, if it says so.
fn add_include_at<'x>(
    refused: &Refused<'_, '_>,
    findings: &mut Vec<Finding>,
    profile: &'x str,
    archive: &'x Tree,
) -> Result<(), AllocError>
    ensures { OnOk result (AddsForms refused.now.source.layers.now refused.now.source.position
        (if_given (include_faults profile.entry.now)
        (member_of (codes "include") (tree_view archive.entry.now))) findings.old.items
        findings.new.items) }
{
    match archive.get("include") {
        Some(include) => add_include(refused, findings, profile, include),
        None => Ok(()),
    }
}

/// Adds what is wrong with the archive of a profile.
fn add_archive_form<'x>(
    refused: &Refused<'_, '_>,
    findings: &mut Vec<Finding>,
    profile: &'x str,
    archive: &'x Tree,
) -> Result<(), AllocError>
    ensures { OnOk result (AddsForms refused.now.source.layers.now refused.now.source.position
        (archive_faults profile.entry.now (tree_view archive.entry.now)) findings.old.items
        findings.new.items) }
{
    let path = profile_path(profile, "archive");
    let Some(members) = archive.as_table() else {
        return add_kind(refused, findings, &path, archive, "a table");
    };
    warn_of_others(refused, findings, &path, members, &["include"])?;
    add_include_at(refused, findings, profile, archive)
}

/// Adds what is wrong with the archive of a profile, if it has one.
pub fn add_archive<'x>(
    refused: &Refused<'_, '_>,
    findings: &mut Vec<Finding>,
    profile: &'x str,
    table: &'x Tree,
) -> Result<(), AllocError>
    ensures { OnOk result (AddsForms refused.now.source.layers.now refused.now.source.position
        (if_given (archive_faults profile.entry.now)
        (member_of (codes "archive") (tree_view table.entry.now))) findings.old.items
        findings.new.items) }
{
    match table.get("archive") {
        Some(archive) => add_archive_form(refused, findings, profile, archive),
        None => Ok(()),
    }
}
