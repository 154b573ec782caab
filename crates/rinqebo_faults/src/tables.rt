//! What tables and values are called, and the keys that tables have.
ghost use Rattle.std.specs.Prelude.{◌≡◌, ◌-◌, ◌++◌, None, IfOk, filter, length, map, not, option_map, string_bytes, take, if◌then◌else◌};
ghost use Rattle.std.specs.Option.{option_copied};
ghost use Rattle.nextest_shape.specs.Keys.{keys_at};
ghost use Rattle.nextest_shape.specs.View.{shape_view};
ghost use Rattle.nextest_tree.specs.Node.{as_table, keys};
ghost use Rattle.nextest_tree.specs.Schema.{first, is_one_of};
ghost use Rattle.nextest_tree.specs.View.{entries_view, tree_view};
ghost use Rattle.rinqebo_faults.specs.Tables.{called, called_by_key, has_key, is_script_kind, IsStray, key_at, keys_note, known_keys, known_note, name_in_profile, name_in_scripts, name_in_section, part_text, script_header, table_name, unknown_key_text};

use crate::words::{is_among, quoted};
use nextest_places::Step;
use nextest_shape::{Shape, file_shape, keys_of};
use nextest_tree::Tree;
use rinqebo_report::nearest_name;
use std::alloc::{AllocError, Global};
use std::collections::BTreeMap;

/// The key of the step at a place of a path, if it is one to a key.
#[tactic(auto, unfolding(crate::specs::Tables::key_at))]
pub fn key_at<'p>(path: &[Step<'p>], place: usize) -> Option<&'p str>
    ensures { option_copied result ≡ key_at path.now place }
{
    match path.get(place) {
        Some(Step::Key(key)) => Some(*key),
        Some(Step::Position(_)) | None => None,
    }
}

/// Whether the step at a place of a path is one to a key.
#[tactic(auto, unfolding(crate::specs::Tables::has_key))]
pub fn has_key(path: &[Step<'_>], place: usize, key: &str) -> bool
    ensures { result ≡ has_key path.now place key.now }
{
    match key_at(path, place) {
        Some(own) => own == key,
        None => false,
    }
}

/// What a table of a section of files is called.
#[tactic(auto, unfolding(crate::specs::Tables::name_in_section))]
fn name_in_section(path: &[Step<'_>]) -> Option<&'static str>
    ensures { option_copied result ≡ name_in_section path.now }
{
    if has_key(path, 0, "profile") {
        return Some("a profile");
    }
    if has_key(path, 0, "test-groups") {
        return Some("a test group");
    }
    if has_key(path, 0, "script") {
        return Some("a setup script");
    }
    None
}

/// What a table of the scripts of files is called.
#[tactic(auto, unfolding(crate::specs::Tables::name_in_scripts))]
fn name_in_scripts(path: &[Step<'_>]) -> Option<&'static str>
    ensures { option_copied result ≡ name_in_scripts path.now }
{
    if !has_key(path, 0, "scripts") {
        return None;
    }
    if has_key(path, 1, "setup") {
        return Some("a setup script");
    }
    if has_key(path, 1, "wrapper") {
        return Some("a wrapper script");
    }
    None
}

/// What a table of a list of a profile is called.
#[tactic(auto, unfolding(crate::specs::Tables::name_in_profile))]
fn name_in_profile(path: &[Step<'_>]) -> Option<&'static str>
    ensures { option_copied result ≡ name_in_profile path.now }
{
    if !has_key(path, 0, "profile") {
        return None;
    }
    if has_key(path, 2, "overrides") {
        return Some("an override");
    }
    if has_key(path, 2, "scripts") {
        return Some("a script rule");
    }
    None
}

/// What the table at a path is called, if files have tables of a name there.
#[tactic(auto, unfolding(crate::specs::Tables::table_name))]
fn table_name(path: &[Step<'_>]) -> Option<&'static str>
    ensures { option_copied result ≡ table_name path.now }
{
    match path.len() {
        0 => Some("a configuration file"),
        2 => name_in_section(path),
        3 => name_in_scripts(path),
        4 => name_in_profile(path),
        _ => None,
    }
}

/// What the value at a path is called by the last key of the path.
#[tactic(auto, unfolding(crate::specs::Tables::called_by_key))]
fn called_by_key(alloc: Global, path: &[Step<'_>]) -> Result<String, AllocError>
    ensures { IfOk result (λ name. string_bytes name ≡ called_by_key path.now) }
{
    match path.last() {
        Some(Step::Key(key)) => format!(in alloc; "`{key}`"),
        Some(Step::Position(_)) => match key_at(path, path.len().saturating_sub(2)) {
            Some(key) => format!(in alloc; "an item of `{key}`"),
            None => String::from_str(alloc, "an item"),
        },
        None => String::from_str(alloc, "the file"),
    }
}

/// What the value at a path is called: by the name of such tables, or else by its key.
#[tactic(auto, unfolding(crate::specs::Tables::called))]
pub fn called(alloc: Global, path: &[Step<'_>]) -> Result<String, AllocError>
    ensures { IfOk result (λ name. string_bytes name ≡ called path.now) }
{
    match table_name(path) {
        Some(name) => String::from_str(alloc, name),
        None => called_by_key(alloc, path),
    }
}

/// A step as the shape of a file has it: any position is that of all items of a list.
fn part_of<'s>(step: Step<'s>) -> &'s str
    ensures { result.now ≡ part_text step.entry }
{
    match step {
        Step::Key(key) => key,
        Step::Position(_) => "0",
    }
}

/// The keys that the table at a path of a file of a shape knows.
pub fn keys_at(
    alloc: Global,
    file: &Shape,
    path: &[Step<'_>],
) -> Result<Vec<&'static str>, AllocError>
    ensures { IfOk result (λ keys. map (λ key. key.now) keys.items
        ≡ keys_at (shape_view file.now) (map part_text path.now)) }
{
    let mut parts = Vec::new(alloc);
    for step in path {
        parts.push(part_of(*step))?;
    }
    keys_of(alloc, file, &parts)
}

/// The keys that the table at a path knows.
#[tactic(auto, unfolding(crate::specs::Tables::known_keys))]
pub fn known_keys(alloc: Global, path: &[Step<'_>]) -> Result<Vec<&'static str>, AllocError>
    ensures { IfOk result (λ keys. map (λ key. key.now) keys.items ≡ known_keys path.now) }
{
    keys_at(alloc, &file_shape(alloc)?, path)
}

/// The note that lists the keys of a table.
pub fn known_note(alloc: Global, table: &str, known: &[&str]) -> Result<String, AllocError>
    ensures { IfOk result (λ note. string_bytes note
        ≡ known_note table.now (map (λ key. key.now) known.now)) }
{
    let keys = quoted(alloc, known, ", ")?;
    format!(in alloc; "keys of {table}: {keys}")
}

/// The note that lists the keys which the table at a path knows, if it knows some.
#[tactic(auto, unfolding(crate::specs::Tables::keys_note))]
pub fn keys_note(alloc: Global, path: &[Step<'_>]) -> Result<Option<String>, AllocError>
    ensures { IfOk result (λ note. option_map string_bytes note ≡ keys_note path.now) }
{
    let keys = known_keys(alloc, path)?;
    if keys.is_empty() {
        return Ok(None);
    }
    let table = called(alloc, path)?;
    Ok(Some(known_note(alloc, table.as_str(), &keys)?))
}

/// The keys of a table that are not among those which it knows.
fn strays_of<'t>(
    alloc: Global,
    known: &[&str],
    members: &'t BTreeMap<String, Tree>,
) -> Result<Vec<&'t str>, AllocError>
    ensures { IfOk result (λ strays. map (λ key. key.now) strays.items
        ≡ filter (λ key. not (is_one_of (map (λ known. known.now) known.now) key))
        (keys (entries_view members.entry.now.entries))) }
{
    let mut strays = Vec::new(alloc);
    for (key, _tree) in members.iter() {
        if !is_among(known, key.as_str()) {
            strays.push(key.as_str())?;
        }
    }
    Ok(strays)
}

/// The key of a table that it does not know, and that is nearest to a key which it lacks, if one is
/// near.
pub fn stray_key<'t>(
    alloc: Global,
    path: &[Step<'_>],
    table: &'t Tree,
    missing: &str,
) -> Result<Option<&'t str>, AllocError>
    ensures { IfOk result (λ found. IsStray path.now (as_table (tree_view table.now)) missing.now
        found) }
{
    let Some(members) = table.as_table() else {
        return Ok(None);
    };
    let known = known_keys(alloc, path)?;
    let strays = strays_of(alloc, &known, members)?;
    nearest_name(alloc, missing, &strays)
}

/// Whether a path is that of `script.setup` or `script.wrapper`, which is meant as a table of scripts.
#[tactic(auto, unfolding(crate::specs::Tables::is_script_kind))]
pub fn is_script_kind(path: &[Step<'_>]) -> bool
    ensures { result ≡ is_script_kind path.now }
{
    path.len() == 2
        && has_key(path, 0, "script")
        && (has_key(path, 1, "setup") || has_key(path, 1, "wrapper"))
}

/// The kind of scripts that a path names in the old way: `setup` of `script.setup`.
fn script_kind<'p>(path: &[Step<'p>]) -> Option<&'p str>
    ensures { option_copied result ≡ (if is_script_kind path.now then key_at path.now 1 else None) }
{
    if is_script_kind(path) {
        key_at(path, 1)
    } else {
        None
    }
}

/// The first key of a table.
fn first_key<'t>(members: &'t BTreeMap<String, Tree>) -> Option<&'t str>
    ensures { option_copied result ≡ first (keys (entries_view members.entry.now.entries)) }
{
    match members.iter().next() {
        Some((key, _tree)) => Some(key.as_str()),
        None => None,
    }
}

/// The header of the script that is meant by the first key of a table at `script.setup` or
/// `script.wrapper`.
#[tactic(auto, unfolding(crate::specs::Tables::script_header))]
pub fn script_header(
    alloc: Global,
    path: &[Step<'_>],
    table: Option<&Tree>,
) -> Result<Option<String>, AllocError>
    ensures { IfOk result (λ header. option_map string_bytes header
        ≡ script_header path.now (option_map (λ table. tree_view table.now) table.entry)) }
{
    let Some(kind) = script_kind(path) else {
        return Ok(None);
    };
    let Some(Tree::Table(members)) = table else {
        return Ok(None);
    };
    match first_key(members) {
        Some(key) => Ok(Some(format!(in alloc; "write `[scripts.{kind}.{key}]`")?)),
        None => Ok(None),
    }
}

/// A path with more steps.
pub fn longer<'p>(
    alloc: Global,
    path: &[Step<'p>],
    rest: &[Step<'p>],
) -> Result<Vec<Step<'p>>, AllocError>
    ensures { IfOk result (λ longer. longer.items ≡ path.now ++ rest.now) }
{
    let mut longer = Vec::from_slice(alloc, path)?;
    for step in rest {
        longer.push(*step)?;
    }
    Ok(longer)
}

/// Whether the table at a path knows a key.
pub fn knows(alloc: Global, path: &[Step<'_>], key: &str) -> Result<bool, AllocError>
    ensures { IfOk result (λ known. known ≡ is_one_of (known_keys path.now) key.now) }
{
    let known = known_keys(alloc, path)?;
    Ok(is_among(&known, key))
}

/// The key that ends a path, if the path ends with one.
pub fn last_key<'p>(path: &[Step<'p>]) -> Option<&'p str>
    ensures { option_copied result ≡ key_at path.now (length path.now - 1) }
{
    key_at(path, path.len().saturating_sub(1))
}

/// The path without its last step.
pub fn without_last<'s, 'p>(path: &'s [Step<'p>]) -> &'s [Step<'p>]
    ensures { result.now ≡ take (length path.entry.now - 1) path.entry.now }
{
    let end = path.len().saturating_sub(1);
    &path[..end]
}

/// What is wrong with a key that its table does not know.
#[tactic(auto, unfolding(crate::specs::Tables::unknown_key_text))]
pub fn unknown_key_text(alloc: Global, path: &[Step<'_>]) -> Result<String, AllocError>
    ensures { IfOk result (λ text. string_bytes text ≡ unknown_key_text path.now) }
{
    let Some(key) = last_key(path) else {
        return String::from_str(alloc, "this key is not known");
    };
    let table = called(alloc, without_last(path))?;
    format!(in alloc; "`{key}` is not a key of {table}")
}
