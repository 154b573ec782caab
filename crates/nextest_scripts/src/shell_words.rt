//! Words of a command line, as a shell would split it.

ghost use Rattle.std.specs.Prelude.{◌≡◌, ◌↔◌, ◌<◌, ◌≤◌, ◌++◌, ◌∷◌, [], ℕ, List, None, Some, Ok, Err, length, map, IfOk, OnOk, IfSome, IsTrue, IsFalse, MatchOption};
ghost use Rattle.std.specs.Str.{chars};
ghost use Rattle.std.specs.String.{string_bytes};
ghost use Rattle.nextest_scripts.specs.ShellReading.{behind, words_in, words_from, words_from_comment, words_from_double, words_from_double_escape, words_from_escape, words_from_single};
ghost use Rattle.nextest_scripts.specs.ShellWords.{SplitsInto, is_delimiter, is_escapable, texts_of};

use std::alloc::{AllocError, AllocFailed, Global};
use thiserror::Error;

/// Why a command line has no words.
#[derive(Clone, Copy, Debug, PartialEq, Eq, Error)]
pub enum ShellWordsError {
    /// A single or a double quote is not closed.
    #[error("a quote is not closed")]
    Unclosed,
    /// There was no memory for the words.
    #[error("out of memory")]
    Memory,
}

impl From<AllocError> for ShellWordsError {
    ghost use Rattle.nextest_scripts.specs.declared.shell_words.ShellWordsError.TheVariants.{Memory};

    ghost from_gives = { λ _ e. e ≡ Memory };

    fn from(_error: AllocError) -> Self {
        ShellWordsError::Memory
    }
}

impl<T: Drop> From<AllocFailed<T>> for ShellWordsError {
    ghost use Rattle.nextest_scripts.specs.declared.shell_words.ShellWordsError.TheVariants.{Memory};

    ghost from_gives = { λ _ e. e ≡ Memory };

    fn from(_error: AllocFailed<T>) -> Self {
        ShellWordsError::Memory
    }
}

/// Splits a command line into words, in one pass.
///
/// Spaces, tabs and line feeds part words, and `#` where a word could begin starts a comment.
/// Quotes and backslashes make characters literal; nothing is expanded.
pub fn split_shell_words(alloc: Global, text: &str) -> Result<Vec<String>, ShellWordsError>
    ensures words { IfOk result (λ words. SplitsInto (chars text.now) (texts_of words)) }

    // No other list of words would do.
    ensures alone { IfOk result (λ words. (others : List (List ℕ))
        → SplitsInto (chars text.now) others → others ≡ texts_of words) }
    ensures unclosed { result ≡ Err ShellWordsError.Unclosed → (words : List (List ℕ))
        → ¬ SplitsInto (chars text.now) words }
{
    let mut words = Vec::new(alloc);
    let mut rest = text;
    while let Some((first, after)) = next_word(rest) {
        let (word, next) = read_word(alloc, first, after)?;
        words.push(word)?;
        rest = next;
    }
    Ok(words)
}

/// The words that are read of a line are those that it splits into.
pub fn law_shell_words()
    ensures { (text : List ℕ) (words : List (List ℕ))
        → (words_in text ≡ Some words) ↔ SplitsInto text words }
{}

/// The first character of the next word, past delimiters, comments, and backslashes before a line
/// feed; and what follows it.
#[tactic(auto, using(crate::proofs::ShellSteps::none_steps))]
fn next_word(text: &str) -> Option<(char, &str)>
    ensures ended { result ≡ None → words_from None (chars text.now) ≡ Some [] }
    ensures begins { IfSome result (λ found. words_from None (chars text.now)
        ≡ words_from (Some []) (found.0 ∷ chars found.1.now)) }
    ensures in_word { IfSome result (λ found. IsFalse (is_delimiter found.0)) }
    ensures shorter { let before = length (chars text.now) in
        IfSome result (λ found. length (chars found.1.now) < before) }
{
    let mut rest = text;
    while let Some((first, after)) = split_first(rest) {
        match first {
            ' ' | '\t' | '\n' => rest = after,
            '#' => rest = skip_comment(after),
            '\\' => match split_first(after) {
                Some(('\n', next)) => rest = next,
                _ => return Some((first, after)),
            },
            _ => return Some((first, after)),
        }
    }
    None
}

/// What follows a comment and its line feed.
#[tactic(auto, using(crate::proofs::ShellSteps::comment_steps))]
fn skip_comment(text: &str) -> &str
    ensures words { words_from_comment (chars text.now) ≡ words_from None (chars result.now) }
    ensures within { length (chars result.now) ≤ length (chars text.now) }
{
    let mut rest = text;
    while let Some((first, after)) = split_first(rest) {
        if first == '\n' {
            return after;
        }
        rest = after;
    }
    rest
}

/// The word that begins with a character, and what follows it: nothing, or a text that begins with
/// a delimiter.
#[tactic(auto, using(crate::proofs::ShellSteps::end_steps))]
fn read_word(alloc: Global, first: char, text: &str) -> Result<(String, &str), ShellWordsError>
    requires { IsFalse (is_delimiter first) }
    ensures read { IfOk result (λ found. words_from (Some []) (first ∷ chars text.now)
        ≡ behind (Some (chars (string_bytes found.0))) (words_from None (chars found.1.now))) }
    ensures within { IfOk result (λ found. length (chars found.1.now) ≤ length (chars text.now)) }
    ensures unclosed { result ≡ Err ShellWordsError.Unclosed
        → words_from (Some []) (first ∷ chars text.now) ≡ None }
{
    let mut word = String::new(alloc);
    let mut rest = read_piece(&mut word, first, text)?;
    while let Some((next, after)) = split_first(rest) {
        if is_delimiter(next) {
            break;
        }
        rest = read_piece(&mut word, next, after)?;
    }
    Ok((word, rest))
}

/// Reads the piece that begins with a character, and returns what follows it.
#[tactic(auto, using(crate::proofs::ShellSteps::some_steps))]
fn read_piece<'a>(word: &mut String, first: char, text: &'a str) -> Result<&'a str, ShellWordsError>
    requires { IsFalse (is_delimiter first) }
    ensures read { IfOk result (λ rest.
        words_from (Some (chars (string_bytes word.old))) (first ∷ chars text.now)
        ≡ words_from (Some (chars (string_bytes word.new))) (chars rest.now)) }
    ensures within { IfOk result (λ rest. length (chars rest.now) ≤ length (chars text.now)) }
    ensures unclosed { result ≡ Err ShellWordsError.Unclosed
        → words_from (Some (chars (string_bytes word.old))) (first ∷ chars text.now) ≡ None }
{
    match first {
        '\'' => read_single_quoted(word, text),
        '"' => read_double_quoted(word, text),
        '\\' => Ok(read_escaped(word, text)?),
        _ => {
            push_literal(word, first)?;
            Ok(text)
        }
    }
}

/// Reads up to the next single quote, and returns what follows it.
#[tactic(auto, using(crate::proofs::ShellSteps::single_steps))]
fn read_single_quoted<'a>(word: &mut String, text: &'a str) -> Result<&'a str, ShellWordsError>
    ensures read { IfOk result (λ rest.
        words_from_single (chars (string_bytes word.old)) (chars text.now)
        ≡ words_from (Some (chars (string_bytes word.new))) (chars rest.now)) }
    ensures within { IfOk result (λ rest. length (chars rest.now) ≤ length (chars text.now)) }
    ensures unclosed { result ≡ Err ShellWordsError.Unclosed
        → words_from_single (chars (string_bytes word.old)) (chars text.now) ≡ None }
{
    let mut rest = text;
    while let Some((next, after)) = split_first(rest) {
        if next == '\'' {
            return Ok(after);
        }
        push_literal(word, next)?;
        rest = after;
    }
    Err(ShellWordsError::Unclosed)
}

/// Reads up to the next double quote that no backslash escapes, and returns what follows it.
#[tactic(auto, using(crate::proofs::ShellSteps::double_steps))]
fn read_double_quoted<'a>(word: &mut String, text: &'a str) -> Result<&'a str, ShellWordsError>
    ensures read { IfOk result (λ rest.
        words_from_double (chars (string_bytes word.old)) (chars text.now)
        ≡ words_from (Some (chars (string_bytes word.new))) (chars rest.now)) }
    ensures within { IfOk result (λ rest. length (chars rest.now) ≤ length (chars text.now)) }
    ensures unclosed { result ≡ Err ShellWordsError.Unclosed
        → words_from_double (chars (string_bytes word.old)) (chars text.now) ≡ None }
{
    let mut rest = text;
    while let Some((next, after)) = split_first(rest) {
        match next {
            '"' => return Ok(after),
            '\\' => rest = read_quoted_escape(word, after)?,
            _ => {
                push_literal(word, next)?;
                rest = after;
            }
        }
    }
    Err(ShellWordsError::Unclosed)
}

/// Reads what follows a backslash in double quotes.
#[tactic(auto, using(crate::proofs::ShellSteps::double_escape_steps))]
fn read_quoted_escape<'a>(word: &mut String, text: &'a str) -> Result<&'a str, ShellWordsError>
    ensures read { IfOk result (λ rest.
        words_from_double_escape (chars (string_bytes word.old)) (chars text.now)
        ≡ words_from_double (chars (string_bytes word.new)) (chars rest.now)) }
    ensures within { IfOk result (λ rest. length (chars rest.now) ≤ length (chars text.now)) }
    ensures unclosed { result ≡ Err ShellWordsError.Unclosed
        → words_from_double_escape (chars (string_bytes word.old)) (chars text.now) ≡ None }
{
    let Some((next, rest)) = split_first(text) else {
        return Err(ShellWordsError::Unclosed);
    };
    if next == '\n' {
        return Ok(rest);
    }
    if !is_escapable(next) {
        push_literal(word, '\\')?;
    }
    push_literal(word, next)?;
    Ok(rest)
}

/// Reads what follows a backslash outside quotes.
#[tactic(auto, using(crate::proofs::ShellSteps::escape_steps))]
fn read_escaped<'a>(word: &mut String, text: &'a str) -> Result<&'a str, AllocError>
    ensures read { IfOk result (λ rest.
        words_from_escape (Some (chars (string_bytes word.old))) (chars text.now)
        ≡ words_from (Some (chars (string_bytes word.new))) (chars rest.now)) }
    ensures within { IfOk result (λ rest. length (chars rest.now) ≤ length (chars text.now)) }
{
    let Some((next, rest)) = split_first(text) else {
        push_literal(word, '\\')?;
        return Ok(text);
    };
    if next != '\n' {
        push_literal(word, next)?;
    }
    Ok(rest)
}

/// Adds a character to a word.
fn push_literal(word: &mut String, c: char) -> Result<(), AllocError>
    ensures { OnOk result
        (chars (string_bytes word.new) ≡ chars (string_bytes word.old) ++ c ∷ []) }
{
    word.push(c)?;
    Ok(())
}

/// The first character, and what follows it.
fn split_first(text: &str) -> Option<(char, &str)>
    ensures { MatchOption result (chars text.now ≡ [])
        (λ found. chars text.now ≡ found.0 ∷ chars found.1.now) }
{
    let mut rest = text.chars();
    let first = rest.next()?;
    Some((first, rest.as_str()))
}

/// Whether a backslash in double quotes escapes the character.
fn is_escapable(c: char) -> bool
    ensures { result ≡ is_escapable c }
{
    matches!(c, '$' | '`' | '"' | '\\')
}

fn is_delimiter(c: char) -> bool
    ensures { result ≡ is_delimiter c }
{
    matches!(c, ' ' | '\t' | '\n')
}
