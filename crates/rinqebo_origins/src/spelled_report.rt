//! What files write under keys, as a report shows it: rules, archives, features and versions of
//! nextest.
ghost use Rattle.std.specs.Prelude.{◌≡◌, ◌++◌, false, true, IfOk, MatchOption, filter, map, option_map, string_bytes};
ghost use Rattle.std.specs.List.{AllZip, list_any};
ghost use Rattle.nextest_documents.specs.Layers.{keys_view};
ghost use Rattle.nextest_inheritance.specs.View.{borrowed_view};
ghost use Rattle.rinqebo_origins.specs.Origins.{step_view};
ghost use Rattle.rinqebo_origins.specs.SpelledLeaves.{AreSpelledOut, IsEntryOfLeaf, IsOriginOfLeaf, IsPlacedOrigin, base_steps, ends_or_dot, is_spelled_out, is_under, part_at, rule_part, spelled_view, step_text, steps_text};

use crate::leaf_value::reported_value;
use crate::spelled::{SpelledLeaf, spelled_leaves};
use nextest_places::Step;
use rinqebo_report::{Entry, FilePlace, Origin, Part, Written};
use rinqebo_request::{Layer, path_place};
use std::alloc::{AllocError, Global};

/// A step, as a user spells it.
fn step_text(alloc: Global, step: Step<'_>) -> Result<String, AllocError>
    ensures { IfOk result (λ text. string_bytes text ≡ step_text (step_view step.entry)) }
{
    match step {
        Step::Key(key) => String::from_str(alloc, key),
        Step::Position(position) => format!(in alloc; "{position}"),
    }
}

/// Steps as a user spells them.
fn step_texts(alloc: Global, steps: &[Step<'_>]) -> Result<Vec<String>, AllocError>
    ensures { IfOk result (λ texts. map string_bytes texts.items
        ≡ map step_text (map step_view steps.now)) }
{
    let mut texts = Vec::new(alloc);
    for step in steps {
        texts.push(step_text(alloc, *step)?)?;
    }
    Ok(texts)
}

/// Steps as a user spells them, with dots between them.
fn steps_text(alloc: Global, steps: &[Step<'_>]) -> Result<String, AllocError>
    ensures { IfOk result (λ text. string_bytes text ≡ steps_text (map step_view steps.now)) }
{
    let texts = step_texts(alloc, steps)?;
    texts.join(alloc, ".")
}

/// Whether a text ends, or goes on with a dot.
fn ends_or_dot(rest: &[u8]) -> bool
    ensures { result ≡ ends_or_dot rest.now }
{
    match rest {
        [] => true,
        [next, ..] => *next == b'.',
    }
}

/// Whether a text is a key, or goes on behind it with a dot.
fn is_under(text: &str, key: &str) -> bool
    ensures { result ≡ is_under text.now key.now }
{
    match text.as_bytes().strip_prefix(key.as_bytes()) {
        Some(rest) => ends_or_dot(rest),
        None => false,
    }
}

/// Whether a text is under one of some keys.
fn is_asked(text: &str, keys: &[&str]) -> bool
    ensures { result ≡ list_any (λ name. is_under text.now name.now) keys.now }
{
    keys.iter().any(|key| is_under(text, *key))
}

/// The rule at a position below a key of a profile, or its own fields where the key has no rules.
fn rule_part(key: &str, index: usize) -> Part
    ensures { result ≡ rule_part key.now index }
{
    if key == "overrides" {
        Part::Override(index)
    } else if key == "scripts" {
        Part::Script(index)
    } else {
        Part::Fields
    }
}

/// Which part of a profile steps lead into.
fn part_at(steps: &[Step<'_>]) -> Part
    ensures { result ≡ part_at (map step_view steps.now) }
{
    match steps {
        [Step::Key(key), Step::Position(index), ..] => rule_part(*key, *index),
        _ => Part::Fields,
    }
}

/// The steps to the table of a profile, if there is one.
fn base_steps<'t>(alloc: Global, profile: Option<&'t str>) -> Result<Vec<Step<'t>>, AllocError>
    ensures { IfOk result (λ path. map step_view path.items
        ≡ base_steps (option_map (λ name. name.now) profile.entry)) }
{
    let mut path = Vec::new(alloc);
    if let Some(name) = profile {
        path.push(Step::Key("profile"))?;
        path.push(Step::Key(name))?;
    }
    Ok(path)
}

/// The steps to a leaf from the root of its file.
fn path_of<'t>(alloc: Global, leaf: &SpelledLeaf<'t>) -> Result<Vec<Step<'t>>, AllocError>
    ensures { let leaf = spelled_view leaf.now in
        IfOk result (λ path. map step_view path.items
        ≡ base_steps leaf.spot.profile ++ leaf.steps) }
{
    let mut path = base_steps(alloc, leaf.spot.profile)?;
    for step in &leaf.steps {
        path.push(*step)?;
    }
    Ok(path)
}

/// What is written at a place, under a profile or without one beside the profiles.
fn placed_origin(
    alloc: Global,
    profile: Option<&str>,
    part: Part,
    place: FilePlace,
) -> Result<Origin, AllocError>
    ensures { IfOk result (IsPlacedOrigin (option_map (λ name. name.now) profile.entry) part
        place) }
{
    match profile {
        Some(name) => Ok(Origin::Written(Written {
            place,
            profile: String::from_str(alloc, name)?,
            part,
        })),
        None => Ok(Origin::File(place)),
    }
}

/// Where a leaf is written.
fn origin_of(alloc: Global, layers: &[Layer], leaf: &SpelledLeaf<'_>) -> Result<Origin, AllocError>
    ensures { IfOk result (IsOriginOfLeaf layers.now (spelled_view leaf.now)) }
{
    let layer = leaf.spot.layer;
    if layer == 0 {
        return Ok(Origin::DefaultTable);
    }
    let path = path_of(alloc, leaf)?;
    let place = path_place(layers, layer, &path);
    let part = part_at(&leaf.steps);
    placed_origin(alloc, leaf.spot.profile, part, place)
}

/// A leaf, as it is reported, if it is under one of some keys and its value can be reported.
fn spelled_entry(
    alloc: Global,
    layers: &[Layer],
    keys: &[&str],
    leaf: &SpelledLeaf<'_>,
) -> Result<Option<Entry>, AllocError>
    ensures { let leaf = spelled_view leaf.now in
        IfOk result (λ told. MatchOption told (is_spelled_out (keys_view keys.now) leaf ≡ false)
        (λ told. (is_spelled_out (keys_view keys.now) leaf ≡ true)
        × IsEntryOfLeaf layers.now leaf told)) }
{
    let key = steps_text(alloc, &leaf.steps)?;
    if !is_asked(key.as_str(), keys) {
        return Ok(None);
    }
    let Some(value) = reported_value(alloc, leaf.value)? else {
        return Ok(None);
    };
    Ok(Some(Entry {
        key,
        value,
        origin: origin_of(alloc, layers, leaf)?,
        is_hidden: false,
    }))
}

/// Those of some leaves that are under keys, as they are reported.
fn entries_of_leaves(
    alloc: Global,
    layers: &[Layer],
    keys: &[&str],
    leaves: &[SpelledLeaf<'_>],
) -> Result<Vec<Entry>, AllocError>
    ensures { IfOk result (λ entries. AllZip (IsEntryOfLeaf layers.now)
        (filter (is_spelled_out (keys_view keys.now)) (map spelled_view leaves.now))
        entries.items) }
{
    let mut entries = Vec::new(alloc);
    for leaf in leaves {
        match spelled_entry(alloc, layers, keys, leaf)? {
            Some(entry) => entries.push(entry)?,
            None => {}
        }
    }
    Ok(entries)
}

/// What the files write under keys for a chain of profiles, as it is written: the overrides, the
/// script rules and the archives of the profiles, and beside them the experimental features and the
/// required version of nextest.
pub fn spelled_entries(
    alloc: Global,
    layers: &[Layer],
    chain: &[&str],
    keys: &[&str],
) -> Result<Vec<Entry>, AllocError>
    ensures { IfOk result (λ entries.
        AreSpelledOut layers.now (borrowed_view chain.now) (keys_view keys.now) entries.items) }
{
    let leaves = spelled_leaves(alloc, layers, chain)?;
    entries_of_leaves(alloc, layers, keys, &leaves)
}
