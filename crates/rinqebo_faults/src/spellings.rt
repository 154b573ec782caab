//! How a value that is refused is meant to be spelled, where that is plain.
ghost use Rattle.std.specs.Prelude.{◌≡◌, ◌<◌, ◌≤◌, IfOk, IsTrue, length, option_map, string_bytes};
ghost use Rattle.std.specs.Str.Parse.{digits_value};
ghost use Rattle.nextest_shape.specs.View.{shape_view, shapes_view};
ghost use Rattle.nextest_tree.specs.View.{tree_view};
ghost use Rattle.rinqebo_faults.specs.Spellings.{are_strings, are_tables, duration_of, has_fields, is_boolean, is_integer, is_of, is_one, is_string, is_truth, milliseconds, parted_seconds, scaled, seconds_of, spelled_number, spelled_table, spelled_text, spelling, takes, without_unit};
ghost use Rattle.rinqebo_faults.specs.Words.{is_number};

use crate::expected::takes_duration;
use crate::words::is_number;
use nextest_shape::Shape;
use nextest_tree::Tree;
use std::alloc::{AllocError, Global};

/// A kind of value that a key takes.
#[derive(Clone, Copy)]
enum Wanted {
    /// An integer.
    Integer,
    /// A boolean.
    Boolean,
    /// An array of strings.
    Texts,
    /// An array of tables.
    Tables,
}

/// Whether a shape is that of integers.
fn is_integer(shape: &Shape) -> bool
    ensures { result ≡ is_integer (shape_view shape.now) }
{
    matches!(shape, Shape::Integer { .. })
}

/// Whether a shape is that of booleans.
fn is_boolean(shape: &Shape) -> bool
    ensures { result ≡ is_boolean (shape_view shape.now) }
{
    matches!(shape, Shape::Boolean)
}

/// Whether a shape is that of strings.
fn is_string(shape: &Shape) -> bool
    ensures { result ≡ is_string (shape_view shape.now) }
{
    matches!(shape, Shape::Text(_))
}

/// Whether a shape is that of tables with fields.
fn has_fields(shape: &Shape) -> bool
    ensures { result ≡ has_fields (shape_view shape.now) }
{
    matches!(shape, Shape::Table(_))
}

/// Whether a shape is that of arrays of strings.
fn are_strings(shape: &Shape) -> bool
    ensures { result ≡ are_strings (shape_view shape.now) }
{
    match shape {
        Shape::List { items, .. } => is_string(items),
        _ => false,
    }
}

/// Whether a shape is that of arrays of tables.
pub fn are_tables(shape: &Shape) -> bool
    ensures { result ≡ are_tables (shape_view shape.now) }
{
    match shape {
        Shape::List { items, .. } => has_fields(items),
        _ => false,
    }
}

/// Whether a shape is of a kind of values.
fn is_of(wanted: Wanted, shape: &Shape) -> bool
    ensures { result ≡ is_of wanted (shape_view shape.now) }
{
    match wanted {
        Wanted::Integer => is_integer(shape),
        Wanted::Boolean => is_boolean(shape),
        Wanted::Texts => are_strings(shape),
        Wanted::Tables => are_tables(shape),
    }
}

/// Whether one of some shapes is of a kind of values.
fn is_one(wanted: Wanted, shapes: &Vec<Shape>) -> bool
    ensures { result ≡ is_one (is_of wanted) (shapes_view shapes.now.items) }
{
    for shape in shapes {
        if is_of(wanted, shape) {
            return true;
        }
    }
    false
}

/// Whether a shape takes a kind of values.
fn takes(wanted: Wanted, shape: &Shape) -> bool
    ensures { result ≡ takes (is_of wanted) (shape_view shape.now) }
{
    match shape {
        Shape::Either(shapes) => is_one(wanted, shapes),
        one => is_of(wanted, one),
    }
}

/// The number that up to three digits write.
fn small_number(digits: &str) -> u64
    ensures number { IsTrue (is_number digits.now) → length digits.now ≤ 3
        → result ≡ digits_value 10 digits.now }
    ensures small { IsTrue (is_number digits.now) → length digits.now ≤ 3 → result < 1000 }
{
    match digits.parse::<u64>() {
        Ok(number) => number,
        Err(_) => 0,
    }
}

/// The milliseconds of up to three digits behind a point.
#[tactic(auto, unfolding(crate::specs::Spellings::scaled))]
fn scaled(digits: &str) -> Option<u64>
    ensures { IsTrue (is_number digits.now) → result ≡ scaled digits.now }
{
    match digits.len() {
        1 => Some(small_number(digits).saturating_mul(100)),
        2 => Some(small_number(digits).saturating_mul(10)),
        3 => Some(small_number(digits)),
        _ => None,
    }
}

/// The milliseconds of a text behind a point that has up to three digits alone.
#[tactic(auto, unfolding(crate::specs::Spellings::milliseconds))]
fn milliseconds(text: &str) -> Option<u64>
    ensures { result ≡ milliseconds text.now }
{
    if !is_number(text) {
        return None;
    }
    scaled(text)
}

/// Seconds and milliseconds behind a point, as a duration has them.
#[tactic(auto, unfolding(crate::specs::Spellings::seconds_of))]
fn seconds_of(alloc: Global, seconds: &str, fraction: &str) -> Result<Option<String>, AllocError>
    ensures { IfOk result (λ text. option_map string_bytes text
        ≡ seconds_of seconds.now fraction.now) }
{
    if !is_number(seconds) {
        return Ok(None);
    }
    match milliseconds(fraction) {
        Some(rest) => Ok(Some(format!(in alloc; "write `\"{seconds}s {rest}ms\"`")?)),
        None => Ok(None),
    }
}

/// A text without the letter `s` at its end.
#[tactic(auto, unfolding(crate::specs::Spellings::without_unit))]
fn without_unit(text: &str) -> &str
    ensures { result.now ≡ without_unit text.now }
{
    text.strip_suffix("s").unwrap_or(text)
}

/// Seconds with digits behind a point, as a duration has them.
#[tactic(auto, unfolding(crate::specs::Spellings::parted_seconds))]
fn parted_seconds(alloc: Global, text: &str) -> Result<Option<String>, AllocError>
    ensures { IfOk result (λ parted. option_map string_bytes parted ≡ parted_seconds text.now) }
{
    match without_unit(text).split_once('.') {
        Some((seconds, fraction)) => seconds_of(alloc, seconds, fraction),
        None => Ok(None),
    }
}

/// How a text is spelled where a duration is wanted.
#[tactic(auto, unfolding(crate::specs::Spellings::duration_of))]
fn duration_of(alloc: Global, text: &str) -> Result<Option<String>, AllocError>
    ensures { IfOk result (λ spelled. option_map string_bytes spelled ≡ duration_of text.now) }
{
    if is_number(text) {
        return Ok(Some(format!(in alloc; "write `\"{text}s\"`")?));
    }
    parted_seconds(alloc, text)
}

/// Whether a text is one of the booleans.
#[tactic(auto, unfolding(crate::specs::Spellings::is_truth))]
fn is_truth(text: &str) -> bool
    ensures { result ≡ is_truth text.now }
{
    text == "true" || text == "false"
}

/// How a text is spelled that is refused by a shape.
#[tactic(auto, unfolding(crate::specs::Spellings::spelled_text))]
fn spelled_text(alloc: Global, shape: &Shape, text: &str) -> Result<Option<String>, AllocError>
    ensures { IfOk result (λ spelled. option_map string_bytes spelled
        ≡ spelled_text (shape_view shape.now) text.now) }
{
    if takes(Wanted::Texts, shape) {
        return Ok(Some(format!(in alloc; "write `[\"{text}\"]`")?));
    }
    if takes(Wanted::Integer, shape) && is_number(text) {
        return Ok(Some(format!(in alloc; "write `{text}`")?));
    }
    if takes(Wanted::Boolean, shape) && is_truth(text) {
        return Ok(Some(format!(in alloc; "write `{text}`")?));
    }
    if takes_duration(shape) {
        return duration_of(alloc, text);
    }
    Ok(None)
}

/// How a number is spelled that is refused by a shape.
#[tactic(auto, unfolding(crate::specs::Spellings::spelled_number))]
fn spelled_number(alloc: Global, shape: &Shape, number: i64) -> Result<Option<String>, AllocError>
    ensures { IfOk result (λ spelled. option_map string_bytes spelled
        ≡ spelled_number (shape_view shape.now) number) }
{
    if takes_duration(shape) && number >= 0 {
        return Ok(Some(format!(in alloc; "write `\"{number}s\"`")?));
    }
    Ok(None)
}

/// How a table at a header is spelled that is refused by a shape.
#[tactic(auto, unfolding(crate::specs::Spellings::spelled_table))]
fn spelled_table(alloc: Global, shape: &Shape, header: &str) -> Result<Option<String>, AllocError>
    ensures { IfOk result (λ spelled. option_map string_bytes spelled
        ≡ spelled_table (shape_view shape.now) header.now) }
{
    if takes(Wanted::Tables, shape) {
        return Ok(Some(format!(in alloc; "write `[[{header}]]`")?));
    }
    Ok(None)
}

/// How a value is spelled that a shape refuses.
pub fn spelling(
    alloc: Global,
    shape: &Shape,
    tree: &Tree,
    header: &str,
) -> Result<Option<String>, AllocError>
    ensures { IfOk result (λ spelled. option_map string_bytes spelled
        ≡ spelling (shape_view shape.now) (tree_view tree.now) header.now) }
{
    match tree {
        Tree::Text(text) => spelled_text(alloc, shape, text.as_str()),
        Tree::Int(number) => spelled_number(alloc, shape, *number),
        Tree::Table(_) => spelled_table(alloc, shape, header),
        Tree::Array(_) | Tree::Bool(_) | Tree::Opaque => Ok(None),
    }
}
