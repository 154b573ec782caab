//! The marks of which the body of an expression is written.
ghost use Rattle.std.specs.Prelude.{◌≡◌, ◌<◌, length, slice_index, take, drop, not, position, option_map};
ghost use Rattle.platform_language.specs.Marks.{mark_view, front_view, front, word_len as word_len_of, cut};
ghost use Rattle.platform_language.specs.Marks.{is_word_start as word_start_test, is_word_byte as word_byte_test, word_mark as word_mark_of, word_front as word_front_of, value_front as value_front_of};

use crate::expression::Function;

/// A mark.
#[derive(Clone, Copy, Debug)]
pub enum Mark<'t> {
    /// `(`
    Open,
    /// `)`
    Close,
    /// `,`
    Comma,
    /// `=`
    Equals,
    /// `all`, `any` or `not`.
    Function(Function),
    /// Any other word.
    Name(&'t str),
    /// What is between two `"`.
    Value(&'t str),
}

/// What a text begins with.
#[derive(Clone, Copy, Debug)]
pub enum Front<'t> {
    /// A mark, and the text behind it.
    Mark(Mark<'t>, &'t str),
    /// A `"` without a second one.
    Unclosed,
    /// No mark begins so.
    Foreign,
}

fn is_word_start(byte: u8) -> bool
    ensures { result ≡ word_start_test byte }
{
    byte.is_ascii_alphabetic() || byte == b'_'
}

fn is_word_byte(byte: u8) -> bool
    ensures { result ≡ word_byte_test byte }
{
    byte.is_ascii_alphanumeric() || byte == b'_'
}

/// The text behind its first byte.
fn behind_byte(text: &str) -> &str
    requires { 0 < length text.now × slice_index text.now 0 < 128 }
    ensures { result.now ≡ drop 1 text.now }
{
    &text[1..]
}

/// Where the first byte is that no word has, if any.
fn word_end(text: &str) -> Option<usize>
    ensures { result ≡ position (λ c. not (word_byte_test c)) text.now }
{
    text.as_bytes().iter().position(|byte| !is_word_byte(*byte))
}

/// How many bytes of a word a text begins with.
#[tactic(auto, using(crate::proofs::Words::word_ends))]
fn word_len(text: &str) -> usize
    ensures { result ≡ word_len_of text.now }
{
    word_end(text).unwrap_or(text.len())
}

/// The word that a text begins with, as long as it can be, and the text behind it.
fn split_word(text: &str) -> (&str, &str)
    ensures word { result.0.now ≡ take (word_len_of text.now) text.now }
    ensures behind { result.1.now ≡ drop (word_len_of text.now) text.now }
{
    text.split_at(word_len(text))
}

/// The mark that a word is.
fn word_mark(word: &str) -> Mark<'_>
    ensures { mark_view result ≡ word_mark_of word.now }
{
    if word == "all" {
        return Mark::Function(Function::All);
    }
    if word == "any" {
        return Mark::Function(Function::Any);
    }
    if word == "not" {
        return Mark::Function(Function::Not);
    }
    Mark::Name(word)
}

fn word_front(text: &str) -> Front<'_>
    ensures { front_view result ≡ word_front_of text.now }
{
    let (word, behind) = split_word(text);
    Front::Mark(word_mark(word), behind)
}

/// What is before the first `"` of a text, and behind it.
fn split_quote(text: &str) -> Option<(&str, &str)>
    ensures { option_map (λ parts. (parts.0.now, parts.1.now)) result ≡ cut text.now }
{
    text.split_once('"')
}

/// The value whose first `"` is before the text.
fn value_front(text: &str) -> Front<'_>
    ensures { front_view result ≡ value_front_of text.now }
{
    match split_quote(text) {
        Some((value, behind)) => Front::Mark(Mark::Value(value), behind),
        None => Front::Unclosed,
    }
}

/// What a text without blanks in front begins with.
pub fn front_of(text: &str) -> Front<'_>
    ensures { front_view result ≡ front text.now }
{
    let Some(byte) = text.as_bytes().first() else {
        return Front::Foreign;
    };
    match *byte {
        b'(' => Front::Mark(Mark::Open, behind_byte(text)),
        b')' => Front::Mark(Mark::Close, behind_byte(text)),
        b',' => Front::Mark(Mark::Comma, behind_byte(text)),
        b'=' => Front::Mark(Mark::Equals, behind_byte(text)),
        b'"' => value_front(behind_byte(text)),
        other if is_word_start(other) => word_front(text),
        _ => Front::Foreign,
    }
}
