//! Hints of findings: which known name, or key of the same table, a wrong one most likely means.
ghost use Rattle.std.specs.Prelude.{◌≡◌, ◌-◌, ◌^◌, ◌==◌, IfOk, count_by, length, map, min, not, option_map, string_bytes};
ghost use Rattle.std.specs.List.{list_any, zip};
ghost use Rattle.std.specs.Option.{option_copied};
ghost use Rattle.std.specs.Str.{chars, str_eq_ignore_ascii_case};
ghost use Rattle.nextest_shape.specs.View.{shape_view, shapes_view};
ghost use Rattle.rinqebo_faults.specs.Hints.{are_among, begins, differences, first_mistaken, is_mistaken, is_swapped, IsHint, IsHintAt, IsMeant, IsNear, name_by_front, own_words, texts, words_of, words_of_each};

use crate::shapes::shape_at;
use nextest_places::Step;
use nextest_shape::{Shape, TextShape, file_shape};
use rinqebo_report::nearest_name;
use std::alloc::{AllocError, Global};
use std::collections::BTreeSet;

/// Whether one of two texts, which has three bytes at least, begins the other.
#[tactic(auto, using(std::proofs::lemmas::Str::Pattern::starts_text), unfolding(crate::specs::Hints::begins))]
fn begins(one: &str, other: &str) -> bool
    ensures { result ≡ begins one.now other.now }
{
    let shorter = one.len().min(other.len());
    shorter >= 3 && (one.starts_with(other) || other.starts_with(one))
}

/// How many characters a text has.
fn char_count(text: &str) -> usize
    ensures { result ≡ length (chars text.now) }
{
    text.chars().count()
}

/// How many characters of two texts are others at the same places.
fn unlike(one: &str, other: &str) -> usize
    ensures { result ≡ count_by (λ p. not (p.0 == p.1)) (zip (chars one.now) (chars other.now)) }
{
    one.chars()
        .zip(other.chars())
        .filter(|(c, d)| c != d)
        .count()
}

/// How many characters of a text are others than those at the same places of another one, which may
/// have fewer.
#[tactic(auto, unfolding(crate::specs::Hints::differences))]
fn differences(one: &str, other: &str) -> usize
    ensures { result ≡ min (differences (chars one.now) (chars other.now)) (2 ^ 64 - 1) }
{
    let more = char_count(one).saturating_sub(char_count(other));
    unlike(one, other).saturating_add(more)
}

/// Whether a character is one of a text.
fn has_char(text: &str, c: char) -> bool
    ensures { result ≡ list_any (λ d. d == c) (chars text.now) }
{
    text.chars().any(|d| d == c)
}

/// Whether each character of a text is one of another text.
fn are_among(text: &str, other: &str) -> bool
    ensures { result ≡ are_among (chars text.now) (chars other.now) }
{
    text.chars().all(|c| has_char(other, c))
}

/// Whether two texts are the same but for two characters that are swapped.
#[tactic(auto, unfolding(crate::specs::Hints::is_swapped))]
fn is_swapped(one: &str, other: &str) -> bool
    ensures { result ≡ is_swapped one.now other.now }
{
    one.len() == other.len()
        && differences(one, other) == 2
        && are_among(one, other)
        && are_among(other, one)
}

/// Whether two names are the same but for the case of their letters.
fn is_same_word(name: &str, known: &str) -> bool
    ensures { result ≡ str_eq_ignore_ascii_case name.now known.now }
{
    name.eq_ignore_ascii_case(known)
}

/// Whether two names differ as names do that are mistaken: in case, or by swapped characters.
#[tactic(auto, unfolding(crate::specs::Hints::is_mistaken))]
fn is_mistaken(name: &str, known: &str) -> bool
    ensures { result ≡ is_mistaken name.now known.now }
{
    is_same_word(name, known) || is_swapped(name, known)
}

/// The first known name that a slip of the hand makes a name.
fn mistaken_name<'k>(name: &str, known: &[&'k str]) -> Option<&'k str>
    ensures { option_copied result ≡ first_mistaken name.now (texts known.now) }
{
    for other in known {
        if is_mistaken(name, *other) {
            return Some(*other);
        }
    }
    None
}

/// The known name that is nearest to a name, if one is near, or that a slip of the hand makes it.
pub fn near_name<'k>(
    alloc: Global,
    name: &str,
    known: &[&'k str],
) -> Result<Option<&'k str>, AllocError>
    ensures { IfOk result (λ near. IsNear name.now known.now (option_copied near)) }
{
    if let Some(near) = nearest_name(alloc, name, known)? {
        return Ok(Some(near));
    }
    Ok(mistaken_name(name, known))
}

/// The known name that begins a name, or that it begins.
pub fn name_by_front<'k>(name: &str, known: &[&'k str]) -> Option<&'k str>
    ensures { option_copied result ≡ name_by_front name.now (texts known.now) }
{
    for other in known {
        if begins(*other, name) {
            return Some(*other);
        }
    }
    None
}

/// The known name that is meant by a name: one that is near, or else one with the same front.
fn meant_name<'k>(
    alloc: Global,
    name: &str,
    known: &[&'k str],
) -> Result<Option<&'k str>, AllocError>
    ensures { IfOk result (λ meant. IsMeant name.now known.now (option_copied meant)) }
{
    match near_name(alloc, name, known)? {
        Some(near) => Ok(Some(near)),
        None => Ok(name_by_front(name, known)),
    }
}

/// The hint that one of some known names is meant, if one is near or has the same front.
pub fn near_hint(alloc: Global, name: &str, known: &[&str]) -> Result<Option<String>, AllocError>
    ensures { IfOk result (λ hint. IsHint name.now known.now (option_map string_bytes hint)) }
{
    match meant_name(alloc, name, known)? {
        Some(near) => Ok(Some(format!(in alloc; "did you mean `{near}`?")?)),
        None => Ok(None),
    }
}

/// The names of a set.
pub fn names_of<'k>(alloc: Global, known: &'k BTreeSet<String>) -> Result<Vec<&'k str>, AllocError>
    ensures { IfOk result (λ names. texts names.items ≡ map string_bytes known.entry.now.keys) }
{
    let mut names = Vec::new(alloc);
    for known in known.iter() {
        names.push(known.as_str())?;
    }
    Ok(names)
}

/// The words of which one shape takes one, if it is a text of some words.
fn words_of_one(shape: &Shape) -> &'static [&'static str]
    ensures { texts result.now ≡ own_words (shape_view shape.now) }
{
    match shape {
        Shape::Text(TextShape::OneOf(words)) => *words,
        Shape::Text(TextShape::Any | TextShape::Of(_))
        | Shape::Anything
        | Shape::Boolean
        | Shape::Integer { .. }
        | Shape::List { .. }
        | Shape::Table(_)
        | Shape::Map { .. }
        | Shape::Either(_) => &[],
    }
}

/// The words of which some shapes take one each.
fn words_of_each(alloc: Global, shapes: &Vec<Shape>) -> Result<Vec<&'static str>, AllocError>
    ensures { IfOk result (λ words. texts words.items
        ≡ words_of_each (shapes_view shapes.now.items)) }
{
    let mut words = Vec::new(alloc);
    for shape in shapes {
        words.extend_from_slice(words_of_one(shape))?;
    }
    Ok(words)
}

/// The words of which a shape takes one.
fn words_of(alloc: Global, shape: &Shape) -> Result<Vec<&'static str>, AllocError>
    ensures { IfOk result (λ words. texts words.items ≡ words_of (shape_view shape.now)) }
{
    match shape {
        Shape::Either(shapes) => words_of_each(alloc, shapes),
        one => Vec::from_slice(alloc, words_of_one(one)),
    }
}

/// The hint that one of the words is meant of which the shape of a file takes one at a path, if one
/// is near.
pub fn word_hint(alloc: Global, word: &str, path: &[Step<'_>]) -> Result<Option<String>, AllocError>
    ensures { IfOk result (λ hint. IsHintAt word.now path.now (option_map string_bytes hint)) }
{
    match shape_at(&file_shape(alloc)?, path) {
        Some(shape) => near_hint(alloc, word, &words_of(alloc, shape)?),
        None => Ok(None),
    }
}
