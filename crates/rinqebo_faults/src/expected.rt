//! What the shape of a file wants at a path, in words.
ghost use Rattle.std.specs.Prelude.{◌≡◌, [], ◌++◌, IfOk, OnOk, codes, map, option_map, string_bytes};
ghost use Rattle.std.specs.Option.{option_and_then};
ghost use Rattle.nextest_tree.specs.Schema.{is_one_of};
ghost use Rattle.nextest_shape.specs.View.{fields_view, shape_view, shapes_view, text_view};
ghost use Rattle.rinqebo_faults.specs.Expected.{all_words, expected_at, expected_by, expected_name, expected_text, form_words, has_duration, is_duration, keyed_words, list_words, name_words, number_words, pattern_words, required_keys, takes_duration, text_words, with_all, with_each, with_form, with_one, with_own};
ghost use Rattle.rinqebo_faults.specs.Shapes.{wanted_at};
ghost use Rattle.rinqebo_faults.specs.Words.{backquoted, listed};

use crate::shapes::shape_at;
use crate::tables::{last_key, without_last};
use crate::words::{listed, quoted};
use nextest_places::Step;
use nextest_shape::{Field, Pattern, Shape, TextShape, file_shape};
use nextest_tree::ElementCause;
use std::alloc::{AllocError, Global};

/// The longest duration, in words.
const LONGEST: &str = "a duration of at most 18446744073709551615 seconds";

/// An integer in its range, in words.
fn number_words(
    alloc: Global,
    least: Option<i64>,
    greatest: Option<i64>,
) -> Result<String, AllocError>
    ensures { IfOk result (λ words. string_bytes words ≡ number_words least greatest) }
{
    match (least, greatest) {
        (Some(least), Some(greatest)) => {
            format!(in alloc; "an integer from {least} to {greatest}")
        }
        (Some(least), None) => format!(in alloc; "an integer of at least {least}"),
        (None, Some(greatest)) => format!(in alloc; "an integer of at most {greatest}"),
        (None, None) => String::from_str(alloc, "an integer"),
    }
}

/// A string of a pattern, in words.
fn pattern_words(pattern: Pattern) -> &'static str
    ensures { result.now ≡ pattern_words pattern }
{
    match pattern {
        Pattern::Duration => "a duration such as `1h 30m`",
        Pattern::Identifier => "an identifier (letters, digits, `-` and `_`)",
        Pattern::TestGroup => "`@global`, or an identifier (letters, digits, `-` and `_`)",
        Pattern::CommandLine => "a command line with a program and closed quotes",
        Pattern::EnvironmentKey =>
            "the name of an environment variable that does not begin with `NEXTEST`",
    }
}

/// A string, in words.
fn text_words(alloc: Global, text: TextShape) -> Result<String, AllocError>
    ensures { IfOk result (λ words. string_bytes words ≡ text_words (text_view text)) }
{
    match text {
        TextShape::Any => String::from_str(alloc, "a string"),
        TextShape::OneOf(words) => quoted(alloc, words, " or "),
        TextShape::Of(pattern) => String::from_str(alloc, pattern_words(pattern)),
    }
}

/// An array with at least so many items of a shape, in words.
fn list_words(least: u64, items: &Shape) -> &'static str
    ensures { result.now ≡ list_words least (shape_view items.now) }
{
    match items {
        Shape::Text(_) if least > 0 => "an array of at least one string",
        Shape::Text(_) => "an array of strings",
        Shape::Table(_) => "an array of tables",
        Shape::Anything
        | Shape::Boolean
        | Shape::Integer { .. }
        | Shape::List { .. }
        | Shape::Map { .. }
        | Shape::Either(_) => "an array",
    }
}

/// A table that has to have some keys, in words.
fn keyed_words(alloc: Global, keys: &[&str]) -> Result<String, AllocError>
    ensures { IfOk result (λ words. string_bytes words
        ≡ keyed_words (map (λ key. key.now) keys.now)) }
{
    match keys.split_first() {
        Some(_) => {
            let keys = quoted(alloc, keys, " and ")?;
            format!(in alloc; "a table with {keys}")
        }
        None => String::from_str(alloc, "a table"),
    }
}

/// A table with fields, in words: those that it has to have.
fn table_words(alloc: Global, fields: &[Field<Shape>]) -> Result<String, AllocError>
    ensures { IfOk result (λ words. string_bytes words
        ≡ keyed_words (required_keys (fields_view fields.now))) }
{
    let mut keys = Vec::new(alloc);
    for field in fields {
        if field.is_required {
            keys.push(field.key.text())?;
        }
    }
    keyed_words(alloc, &keys)
}

/// What one shape takes, in words.
fn shape_words(alloc: Global, shape: &Shape) -> Result<String, AllocError>
    ensures { IfOk result (λ words. string_bytes words ≡ form_words (shape_view shape.now)) }
{
    match shape {
        Shape::Boolean => String::from_str(alloc, "a boolean"),
        Shape::Integer { least, greatest } => number_words(alloc, *least, *greatest),
        Shape::Text(text) => text_words(alloc, *text),
        Shape::List { least, items } => String::from_str(alloc, list_words(*least, items)),
        Shape::Table(fields) => table_words(alloc, fields),
        Shape::Map { .. } => String::from_str(alloc, "a table"),
        Shape::Anything | Shape::Either(_) => String::from_str(alloc, "any value"),
    }
}

/// Whether a text is one of some others.
fn has_words(others: &[String], text: &str) -> bool
    ensures { result ≡ is_one_of (map string_bytes others.now) text.now }
{
    for other in others {
        if other.as_str() == text {
            return true;
        }
    }
    false
}

/// Adds words between backquotes.
fn add_known(alloc: Global, known: &[&str], words: &mut Vec<String>) -> Result<(), AllocError>
    ensures { OnOk result (map string_bytes words.new.items ≡ map string_bytes words.old.items
        ++ map backquoted (map (λ word. word.now) known.now)) }
{
    for word in known {
        words.push(format!(in alloc; "`{word}`")?)?;
    }
    Ok(())
}

/// Adds some words, unless they are among those before.
fn add_own(own: String, words: &mut Vec<String>) -> Result<(), AllocError>
    ensures { OnOk result (map string_bytes words.new.items
        ≡ with_own (map string_bytes words.old.items) (string_bytes own)) }
{
    if !has_words(words, own.as_str()) {
        words.push(own)?;
    }
    Ok(())
}

/// Adds what one shape takes to others, in words, unless it is among them.
fn add_words(alloc: Global, shape: &Shape, words: &mut Vec<String>) -> Result<(), AllocError>
    ensures { OnOk result (map string_bytes words.new.items
        ≡ with_one (map string_bytes words.old.items) (shape_view shape.now)) }
{
    match shape {
        Shape::Text(TextShape::OneOf(known)) => add_known(alloc, *known, words),
        other => add_own(shape_words(alloc, other)?, words),
    }
}

/// Adds what each of some shapes takes, in words.
fn add_each(alloc: Global, shapes: &Vec<Shape>, words: &mut Vec<String>) -> Result<(), AllocError>
    ensures { OnOk result (map string_bytes words.new.items
        ≡ with_each (map string_bytes words.old.items) (shapes_view shapes.now.items)) }
{
    for shape in shapes {
        add_words(alloc, shape, words)?;
    }
    Ok(())
}

/// Adds what a shape takes, in words. It may be one of several shapes.
fn add_form(alloc: Global, shape: &Shape, words: &mut Vec<String>) -> Result<(), AllocError>
    ensures { OnOk result (map string_bytes words.new.items
        ≡ with_form (map string_bytes words.old.items) (shape_view shape.now)) }
{
    match shape {
        Shape::Either(inner) => add_each(alloc, inner, words),
        one => add_words(alloc, one, words),
    }
}

/// What each of some shapes takes, in words. One of them may itself be one of several shapes.
fn words_of_each(alloc: Global, shapes: &Vec<Shape>) -> Result<String, AllocError>
    ensures { IfOk result (λ words. string_bytes words
        ≡ listed (codes ", or ") (with_all [] (shapes_view shapes.now.items))) }
{
    let mut words = Vec::new(alloc);
    for shape in shapes {
        add_form(alloc, shape, &mut words)?;
    }
    listed(alloc, &words, ", or ")
}

/// Whether a shape is that of durations.
fn is_duration(shape: &Shape) -> bool
    ensures { result ≡ is_duration (shape_view shape.now) }
{
    matches!(shape, Shape::Text(TextShape::Of(Pattern::Duration)))
}

/// Whether one of some shapes is that of durations.
fn has_duration(shapes: &Vec<Shape>) -> bool
    ensures { result ≡ has_duration (shapes_view shapes.now.items) }
{
    for shape in shapes {
        if is_duration(shape) {
            return true;
        }
    }
    false
}

/// Whether a shape takes durations.
pub fn takes_duration(shape: &Shape) -> bool
    ensures { result ≡ takes_duration (shape_view shape.now) }
{
    match shape {
        Shape::Either(shapes) => has_duration(shapes),
        one => is_duration(one),
    }
}

/// What a shape takes, in words, unless that is any value.
fn all_words(alloc: Global, shape: &Shape) -> Result<Option<String>, AllocError>
    ensures { IfOk result (λ words. option_map string_bytes words
        ≡ all_words (shape_view shape.now)) }
{
    match shape {
        Shape::Anything => Ok(None),
        Shape::Either(shapes) => Ok(Some(words_of_each(alloc, shapes)?)),
        one => Ok(Some(shape_words(alloc, one)?)),
    }
}

/// What is expected by a shape in place of a value that is refused, if it says that.
fn expected_by(
    alloc: Global,
    cause: &ElementCause,
    shape: &Shape,
) -> Result<Option<String>, AllocError>
    ensures { IfOk result (λ words. option_map string_bytes words
        ≡ expected_by cause.now (shape_view shape.now)) }
{
    match cause {
        ElementCause::WrongKind => all_words(alloc, shape),
        ElementCause::OutOfRange if takes_duration(shape) => {
            Ok(Some(String::from_str(alloc, LONGEST)?))
        }
        ElementCause::OutOfRange => all_words(alloc, shape),
        ElementCause::Missing(_)
        | ElementCause::BadValue { .. }
        | ElementCause::UnknownField
        | ElementCause::Memory => Ok(None),
    }
}

/// What is expected at a path in place of a value that is refused, if the shape of a file has it.
#[tactic(auto, unfolding(crate::specs::Expected::expected_at))]
pub fn expected_at(
    alloc: Global,
    cause: &ElementCause,
    path: &[Step<'_>],
) -> Result<Option<String>, AllocError>
    ensures { IfOk result (λ words. option_map string_bytes words
        ≡ expected_at cause.now path.now) }
{
    let file = file_shape(alloc)?;
    match shape_at(&file, path) {
        Some(shape) => expected_by(alloc, cause, shape),
        None => Ok(None),
    }
}

/// What is expected at a path in place of a string that is refused, if the shape of a file has it.
#[tactic(auto, unfolding(crate::specs::Expected::expected_text))]
pub fn expected_text(alloc: Global, path: &[Step<'_>]) -> Result<Option<String>, AllocError>
    ensures { IfOk result (λ words. option_map string_bytes words ≡ expected_text path.now) }
{
    let file = file_shape(alloc)?;
    match shape_at(&file, path) {
        Some(shape) => all_words(alloc, shape),
        None => Ok(None),
    }
}

/// What a name of a map is, in words.
fn name_words(alloc: Global, shape: &Shape) -> Result<Option<String>, AllocError>
    ensures { IfOk result (λ words. option_map string_bytes words
        ≡ name_words (shape_view shape.now)) }
{
    match shape {
        Shape::Map { names, .. } => Ok(Some(text_words(alloc, *names)?)),
        Shape::Anything
        | Shape::Boolean
        | Shape::Integer { .. }
        | Shape::Text(_)
        | Shape::List { .. }
        | Shape::Table(_)
        | Shape::Either(_) => Ok(None),
    }
}

/// What is expected in place of a name below the table at a path, if the shape of a file has it.
fn names_below(alloc: Global, table: &[Step<'_>]) -> Result<Option<String>, AllocError>
    ensures { IfOk result (λ words. option_map string_bytes words
        ≡ option_and_then name_words (wanted_at table.now)) }
{
    let file = file_shape(alloc)?;
    match shape_at(&file, table) {
        Some(shape) => name_words(alloc, shape),
        None => Ok(None),
    }
}

/// What is expected in place of the key at the end of a path, which is a name, if the shape of a
/// file has it.
#[tactic(auto, unfolding(crate::specs::Expected::expected_name))]
pub fn expected_name(alloc: Global, path: &[Step<'_>]) -> Result<Option<String>, AllocError>
    ensures { IfOk result (λ words. option_map string_bytes words ≡ expected_name path.now) }
{
    match last_key(path) {
        Some(_key) => names_below(alloc, without_last(path)),
        None => Ok(None),
    }
}
