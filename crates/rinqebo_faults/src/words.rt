//! Lists in words.
ghost use Rattle.std.specs.Prelude.{◌≡◌, ◌++◌, IfOk, OnOk, map, option_map, string_bytes};
ghost use Rattle.std.specs.Option.{option_copied};
ghost use Rattle.nextest_tree.specs.Schema.{is_one_of};
ghost use Rattle.rinqebo_faults.specs.Words.{is_number, listed, mark_before, quoted};

use std::alloc::{AllocError, Global};

/// What is written before an item behind the first one: commas, and something else before the last
/// one.
fn mark_before(is_last: bool, last: &'static str) -> &'static str
    ensures { result.now ≡ mark_before is_last last.now }
{
    if is_last { last } else { ", " }
}

/// Adds an item behind others.
fn push_item(
    text: &mut String,
    is_last: bool,
    last: &'static str,
    item: &String,
) -> Result<(), AllocError>
    ensures { OnOk result (string_bytes text.new
        ≡ (string_bytes text.old ++ mark_before is_last last.now) ++ string_bytes item.now) }
{
    text.push_str(mark_before(is_last, last))?;
    text.push_str(item.as_str())
}

/// Items with commas between them, and something else before the last one.
#[tactic(auto, unfolding(crate::specs::Words::listed))]
pub fn listed(alloc: Global, items: &[String], last: &'static str) -> Result<String, AllocError>
    ensures { IfOk result (λ text. string_bytes text
        ≡ listed last.now (map string_bytes items.now)) }
{
    let mut text = String::new(alloc);
    let Some((first, rest)) = items.split_first() else {
        return Ok(text);
    };
    text.push_str(first.as_str())?;
    for i in 0..rest.len() {
        push_item(&mut text, i + 1 == rest.len(), last, &rest[i])?;
    }
    Ok(text)
}

/// Words between backquotes with commas between them, and something else before the last one.
pub fn quoted(alloc: Global, words: &[&str], last: &'static str) -> Result<String, AllocError>
    ensures { IfOk result (λ text. string_bytes text
        ≡ quoted last.now (map (λ word. word.now) words.now)) }
{
    let mut texts = Vec::new(alloc);
    for word in words {
        texts.push(format!(in alloc; "`{word}`")?)?;
    }
    listed(alloc, &texts, last)
}

/// Whether a word is one of some others.
pub fn is_among(words: &[&str], word: &str) -> bool
    ensures { result ≡ is_one_of (map (λ word. word.now) words.now) word.now }
{
    for other in words {
        if *other == word {
            return true;
        }
    }
    false
}

/// Whether a text has digits alone.
#[tactic(auto, unfolding(crate::specs::Words::is_number))]
pub fn is_number(text: &str) -> bool
    ensures { result ≡ is_number text.now }
{
    let bytes = text.as_bytes();
    for byte in bytes {
        if !byte.is_ascii_digit() {
            return false;
        }
    }
    !text.is_empty()
}

/// A text of its own, if there is one.
pub fn owned(alloc: Global, text: Option<&str>) -> Result<Option<String>, AllocError>
    ensures { IfOk result (λ own. option_map string_bytes own ≡ option_copied text.entry) }
{
    match text {
        Some(text) => Ok(Some(String::from_str(alloc, text)?)),
        None => Ok(None),
    }
}
