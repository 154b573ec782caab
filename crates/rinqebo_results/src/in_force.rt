//! The default filter that counts, in place of those that it overrides: that of an override whose
//! platforms hold.
ghost use Rattle.std.specs.Prelude.{◌≡◌, ◌==◌, ◌||◌, [], IfOk, codes, filter, length, map, not, option_map, unwrap_or};
ghost use Rattle.std.specs.List.{list_any};
ghost use Rattle.std.specs.Option.{option_copied};
ghost use Rattle.std.specs.Str.{bytes_eq};
ghost use Rattle.nextest_documents.specs.Layers.{keys_view};
ghost use Rattle.nextest_tree.specs.Node.{text};
ghost use Rattle.rinqebo_origins.specs.LeafValue.{value_node};
ghost use Rattle.rinqebo_origins.specs.RulePlaces.{place_view};
ghost use Rattle.rinqebo_results.specs.InForce.{IsDefaultEntry, IsInForce, hide, is_default, overridden};

use crate::condition_texts::default_text;
use rinqebo_origins::RulePlace;
use rinqebo_report::{Entry, Scalar, Value};
use rinqebo_request::Layer;
use rinqebo_rules::default_filter_key;
use std::alloc::{AllocError, Global};

/// The key of a default filter.
const DEFAULT_FILTER: &str = "default-filter";

/// Whether an entry is a default filter of a profile.
fn is_default(entry: &Entry) -> bool
    ensures { result ≡ is_default entry.now }
{
    entry.key.as_str() == DEFAULT_FILTER
}

/// Whether a name is among keys.
fn names(keys: &[&str], name: &str) -> bool
    ensures { result ≡ list_any (λ key. bytes_eq key.now name.now) keys.now }
{
    keys.iter().any(|key| *key == name)
}

/// Whether keys select the default filter: there are none, or one is its key.
fn asks_for_default(keys: &[&str]) -> bool
    ensures { result ≡ ((length keys.now == 0)
        || list_any (λ key. bytes_eq key.now (codes "default-filter")) keys.now) }
{
    keys.is_empty() || names(keys, DEFAULT_FILTER)
}

/// An entry, which is hidden if it is a default filter.
fn hide(entry: Entry) -> Entry
    ensures { result ≡ hide entry }
{
    let is_hidden = entry.is_hidden || is_default(&entry);
    Entry {
        key: entry.key,
        value: entry.value,
        origin: entry.origin,
        is_hidden,
    }
}

/// Entries, with their default filters hidden.
fn hidden(alloc: Global, entries: Vec<Entry>) -> Result<Vec<Entry>, AllocError>
    ensures { IfOk result (λ told. told.items ≡ map hide entries.items) }
{
    let mut told = Vec::new(alloc);
    for entry in entries {
        told.push(hide(entry))?;
    }
    Ok(told)
}

/// The entries that are not default filters.
fn without_default(alloc: Global, entries: Vec<Entry>) -> Result<Vec<Entry>, AllocError>
    ensures { IfOk result (λ told. told.items
        ≡ filter (λ entry. not (is_default entry)) entries.items) }
{
    let mut told = Vec::new(alloc);
    for entry in entries {
        if !is_default(&entry) {
            told.push(entry)?;
        }
    }
    Ok(told)
}

/// Entries whose default filters are overridden: these are hidden, or left out.
fn overridden(
    alloc: Global,
    entries: Vec<Entry>,
    with_hidden: bool,
) -> Result<Vec<Entry>, AllocError>
    ensures { IfOk result (λ told. told.items ≡ overridden with_hidden entries.items) }
{
    if with_hidden {
        hidden(alloc, entries)
    } else {
        without_default(alloc, entries)
    }
}

/// A text as a value: an empty one where there is none.
fn text_value(alloc: Global, written: Option<&str>) -> Result<Value, AllocError>
    ensures { IfOk result (λ value. value_node value
        ≡ text (unwrap_or (option_copied written.entry) [])) }
{
    let text = String::from_str(alloc, written.unwrap_or(""))?;
    Ok(Value::Scalar(Scalar::Text(text)))
}

/// The default filter of the override at a place.
fn default_entry(alloc: Global, layers: &[Layer], place: RulePlace<'_>) -> Result<Entry, AllocError>
    ensures { IfOk result (IsDefaultEntry layers.now (place_view place.entry)) }
{
    let key = String::from_str(alloc, DEFAULT_FILTER)?;
    let origin = place.origin_at_key(alloc, layers, default_filter_key())?;
    let value = text_value(alloc, default_text(layers, &origin))?;
    Ok(Entry {
        key,
        value,
        origin,
        is_hidden: false,
    })
}

/// Entries of a chain of profiles below keys, with the default filter that counts: where it is that
/// of the override at a place, it is before them, and theirs are overridden.
pub fn with_default_in_force(
    alloc: Global,
    layers: &[Layer],
    place: Option<RulePlace<'_>>,
    keys: &[&str],
    with_hidden: bool,
    entries: Vec<Entry>,
) -> Result<Vec<Entry>, AllocError>
    ensures { IfOk result (λ told. IsInForce layers.now (option_map place_view place.entry)
        (keys_view keys.now) with_hidden entries.items told.items) }
{
    let Some(place) = place else {
        return Ok(entries);
    };
    if !asks_for_default(keys) {
        return Ok(entries);
    }
    let mut told = Vec::new(alloc);
    told.push(default_entry(alloc, layers, place)?)?;
    let mut rest = overridden(alloc, entries, with_hidden)?;
    told.append(&mut rest)?;
    Ok(told)
}
