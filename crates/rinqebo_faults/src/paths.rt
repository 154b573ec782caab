//! Paths into files, as lists of steps, and the texts that spell them.
ghost use Rattle.std.specs.Prelude.{◌≡◌, ◌++◌, ◌∷◌, [], IfOk, OnOk, string_bytes, ◌==◌, codes, map, option_map};
ghost use Rattle.nextest_shape.specs.Faults.Found.{step_text};
ghost use Rattle.rinqebo_faults.specs.Paths.{shown_path, has_script, profile_path, script_kind, script_path, section_path};
ghost use Rattle.std.specs.Option.{option_copied};
ghost use Rattle.nextest_places.specs.Spans.Paths.{path_step};
ghost use Rattle.nextest_tree.specs.View.{tree_view};
ghost use Rattle.std.specs.List.{slice_split};
ghost use Rattle.nextest_places.specs.Spans.Paths as paths;

use crate::refused_values::{Fault, is_at_fault};
use crate::ways::ways_of;
use nextest_places::Step;
use nextest_shape::Shape;
use nextest_sources::ConfigCompileSection;
use nextest_tree::Tree;
use std::alloc::{AllocError, Global};

/// Adds a step to a text, as findings show it.
fn push_step(alloc: Global, text: &mut String, step: &Step<'_>) -> Result<(), AllocError>
    ensures { OnOk result
        (string_bytes text.new ≡ string_bytes text.old ++ step_text step.now) }
{
    match step {
        Step::Key(key) => text.push_str(*key),
        Step::Position(position) => {
            let number = format!(in alloc; "{position}")?;
            text.push_str(number.as_str())
        }
    }
}

/// A path as findings show it: its keys and positions with dots between them.
pub fn path_text(alloc: Global, path: &[Step<'_>]) -> Result<String, AllocError>
    ensures { IfOk result (λ text. string_bytes text ≡ shown_path path.now) }
{
    let mut text = String::new(alloc);
    let Some((first, rest)) = path.split_first() else {
        return Ok(text);
    };
    push_step(alloc, &mut text, first)?;
    for step in rest {
        text.push('.')?;
        push_step(alloc, &mut text, step)?;
    }
    Ok(text)
}

/// The path of a key of the table at a path.
pub fn path_with<'p>(
    alloc: Global,
    table: &[Step<'p>],
    key: &'p str,
) -> Result<Vec<Step<'p>>, AllocError>
    ensures { IfOk result (λ path. path.items ≡ table.now ++ Step.Key key.entry ∷ []) }
{
    let mut path = Vec::from_slice(alloc, table)?;
    path.push(Step::Key(key))?;
    Ok(path)
}

/// The path of a key of a profile.
pub fn profile_path<'p>(profile: &'p str, key: &'p str) -> [Step<'p>; 3]
    ensures { map path_step result ≡ profile_path profile.entry.now key.entry.now }
{
    [Step::Key("profile"), Step::Key(profile), Step::Key(key)]
}

/// The path of the parent that a profile names.
pub fn parent_path<'p>(profile: &'p str) -> [Step<'p>; 3]
    ensures { map path_step result ≡ profile_path profile.entry.now (codes "inherits") }
{
    profile_path(profile, "inherits")
}

/// The path of a section of a profile.
pub fn section_path<'p>(
    alloc: Global,
    profile: &'p str,
    section: ConfigCompileSection,
) -> Result<Vec<Step<'p>>, AllocError>
    ensures { IfOk result (λ path. map path_step path.items
        ≡ section_path profile.entry.now section) }
{
    let (root, name) = (Step::Key("profile"), Step::Key(profile));
    let (list, index) = match section {
        ConfigCompileSection::DefaultFilter => {
            return Vec::from_slice(alloc, &[root, name, Step::Key("default-filter")]);
        }
        ConfigCompileSection::Override(index) => ("overrides", index),
        ConfigCompileSection::Script(index) => ("scripts", index),
    };
    Vec::from_slice(alloc, &[root, name, Step::Key(list), Step::Position(index)])
}

/// Whether scripts of a kind have one of a name.
#[tactic(auto, unfolding(crate::specs::Paths::has_script))]
fn has_script(tree: &Tree, kind: &str, name: &str) -> bool
    ensures { result ≡ has_script (tree_view tree.now) kind.now name.now }
{
    let Some(scripts) = tree.get("scripts") else {
        return false;
    };
    match scripts.get(kind) {
        Some(scripts) => scripts.get(name).is_some(),
        None => false,
    }
}

/// The kind of the scripts of a file among which one has a name, unless it is one of the old table.
fn script_kind(tree: Option<&Tree>, name: &str) -> Option<&'static str>
    ensures { option_copied result
        ≡ script_kind (option_map (λ tree. tree_view tree.now) tree.entry) name.now }
{
    match tree {
        Some(tree) if has_script(tree, "setup", name) => Some("setup"),
        Some(tree) if has_script(tree, "wrapper", name) => Some("wrapper"),
        _ => None,
    }
}

/// The path of the script of a name in a file.
pub fn script_path<'p>(
    alloc: Global,
    tree: Option<&Tree>,
    name: &'p str,
) -> Result<Vec<Step<'p>>, AllocError>
    ensures { IfOk result (λ path. map path_step path.items
        ≡ script_path (option_map (λ tree. tree_view tree.now) tree.entry) name.entry.now) }
{
    match script_kind(tree, name) {
        Some(kind) => {
            Vec::from_slice(
                alloc,
                &[Step::Key("scripts"), Step::Key(kind), Step::Key(name)],
            )
        }
        None => Vec::from_slice(alloc, &[Step::Key("script"), Step::Key(name)]),
    }
}

/// The parts of a text between its dots.
fn parts_of<'s>(alloc: Global, text: &'s str) -> Result<Vec<&'s str>, AllocError>
    ensures { IfOk result (λ parts. map (λ part. part.now) parts.items
        ≡ slice_split (λ b. b == 46) text.entry.now) }
{
    text.split('.').collect(alloc)
}

/// The keys of a text that no file has: parted at its dots.
pub fn parted<'s>(alloc: Global, text: &'s str) -> Result<Vec<Step<'s>>, AllocError>
    ensures { IfOk result (λ steps. map path_step steps.items
        ≡ map paths.key (slice_split (λ b. b == 46) text.entry.now)) }
{
    let parts = parts_of(alloc, text)?;
    let mut steps = Vec::new(alloc);
    for part in &parts {
        steps.push(Step::Key(*part))?;
    }
    Ok(steps)
}

/// The path that a text spells in a document. Of several it is the one that a fault is about, if
/// the shape of a file says which.
pub fn spelled_in<'s>(
    alloc: Global,
    tree: &'s Tree,
    text: &'s str,
    fault: Fault<'_>,
    file: &Shape,
) -> Result<Option<Vec<Step<'s>>>, AllocError> {
    let mut first = None;
    for way in ways_of(alloc, tree, text)? {
        if is_at_fault(file, &way, fault) {
            return Ok(Some(way.steps));
        }
        if first.is_none() {
            first = Some(way.steps);
        }
    }
    Ok(first)
}
