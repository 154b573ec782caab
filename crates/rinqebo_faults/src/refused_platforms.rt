//! What is wrong with platforms that are refused, in words: the part that is at fault, what is
//! expected there, and what to do.
ghost use Rattle.std.specs.Prelude.{◌≡◌, IfOk, option_map};
ghost use Rattle.rinqebo_faults.specs.Platforms.{HasPairWords, first_byte, is_open, pair_words};

use crate::hints::near_hint;
use crate::worded::{Stopped, Worded};
use crate::words::{owned, quoted};
use std::alloc::{AllocError, Global};

/// The keys of targets.
const TARGET_KEYS: [&str; 10] = [
    "target_os",
    "target_arch",
    "target_family",
    "target_env",
    "target_abi",
    "target_vendor",
    "target_endian",
    "target_pointer_width",
    "target_has_atomic",
    "target_feature",
];

/// What `cfg(..)` has, in words.
const AN_EXPRESSION: &str = "a key, `all(..)`, `any(..)` or `not(..)`";

/// What a value is, in words.
const A_VALUE: &str = "a value in quotes, as in `target_os = \"linux\"`";

/// Whether a text is a name without quotes.
fn is_name(text: &str) -> bool {
    !text.is_empty()
        && text
            .chars()
            .all(|c| c.is_ascii_alphanumeric() || c == '_' || c == '-')
}

/// What was read of the parts of a function.
#[derive(Clone, Copy)]
struct Parts {
    /// How many parentheses are open.
    depth: usize,
    /// Whether a string is open.
    in_quotes: bool,
    /// How many commas part them.
    commas: usize,
}

/// How many parentheses are open behind a character.
fn depth_behind(depth: usize, c: char) -> usize {
    match c {
        '(' => depth.saturating_add(1),
        ')' => depth.saturating_sub(1),
        _ => depth,
    }
}

/// Reads a character of a function.
fn with_character(parts: Parts, c: char) -> Parts {
    let mut next = parts;
    if c == '"' {
        next.in_quotes = !parts.in_quotes;
    } else if !parts.in_quotes {
        next.depth = depth_behind(parts.depth, c);
        if c == ',' && parts.depth == 1 {
            next.commas = parts.commas.saturating_add(1);
        }
    }
    next
}

/// How many parts the function has that a text is.
fn count_parts(function: &str) -> usize {
    let inside = match function.split_once('(') {
        Some((_name, inside)) => inside.trim_end_matches(')').trim(),
        None => return 0,
    };
    if inside.is_empty() {
        return 0;
    }
    let mut parts = Parts {
        depth: 0,
        in_quotes: false,
        commas: 0,
    };
    for c in function.chars() {
        parts = with_character(parts, c);
    }
    parts.commas.saturating_add(1)
}

/// The place of the first character of the part at fault, which has one byte.
fn first_byte(stopped: Stopped<'_>) -> (usize, usize)
    ensures { result ≡ first_byte stopped.entry.start }
{
    (stopped.start, stopped.start.saturating_add(1))
}

/// A key of targets is not known.
fn unknown_key(alloc: Global, stopped: Stopped<'_>) -> Result<Worded, AllocError> {
    let key = stopped.part();
    let message = format!(in alloc; "`{key}` is not a key of targets")?;
    let expected = quoted(alloc, &TARGET_KEYS, " or ")?;
    let help = near_hint(alloc, key, &TARGET_KEYS)?;
    let place = (stopped.start, stopped.end);
    Ok(Worded::of(alloc, place, message, expected.as_str())?.advised(help))
}

/// There are several expressions.
fn several(alloc: Global, stopped: Stopped<'_>) -> Result<Worded, AllocError> {
    let parts = stopped.part().trim();
    let help = format!(in alloc; "write `all({parts})` or `any({parts})`")?;
    let place = (stopped.start, stopped.end);
    let message = "`cfg(..)` has several expressions";
    Ok(Worded::plain(alloc, place, message, "one expression")?.advised(Some(help)))
}

/// A function of one part has several, or none.
fn not_one(alloc: Global, stopped: Stopped<'_>) -> Result<Worded, AllocError> {
    let count = count_parts(stopped.part());
    let message = format!(in alloc; "`not(..)` has {count} parts")?;
    Worded::of(alloc, (stopped.start, stopped.end), message, "one part")
}

/// What is wrong with a value.
fn bad_value(
    alloc: Global,
    stopped: Stopped<'_>,
    what: &str,
    expected: &str,
) -> Result<Worded, AllocError> {
    let value = stopped.part();
    let message = format!(in alloc; "`{value}` is not {what}")?;
    Worded::of(alloc, (stopped.start, stopped.end), message, expected)
}

/// A character is none that a text may have.
fn bad_character(
    alloc: Global,
    stopped: Stopped<'_>,
    what: &str,
    expected: &str,
) -> Result<Worded, AllocError> {
    let c = stopped.first();
    let message = format!(in alloc; "`{c}` is not a character of {what}")?;
    Worded::of(alloc, (stopped.start, stopped.end), message, expected)
}

/// A key has no value.
fn value_wanted(alloc: Global, stopped: Stopped<'_>) -> Result<Worded, AllocError> {
    let key = stopped.part();
    let message = format!(in alloc; "`{key}` has no value")?;
    let expected = format!(in alloc; "`{key} = \"..\"`")?;
    let place = (stopped.start, stopped.end);
    Worded::of(alloc, place, message, expected.as_str())
}

/// A value may have no quotes, or is missing.
fn no_value(alloc: Global, stopped: Stopped<'_>) -> Result<Worded, AllocError> {
    let part = stopped.part();
    let place = (stopped.start, stopped.end);
    if !is_name(part) {
        return Worded::plain(alloc, place, "the value is missing", A_VALUE);
    }
    let message = format!(in alloc; "the value `{part}` has no quotes")?;
    let help = format!(in alloc; "write `\"{part}\"`")?;
    Ok(Worded::of(alloc, place, message, A_VALUE)?.advised(Some(help)))
}

/// Something else is there than a reader expects, which says so.
fn unexpected(alloc: Global, stopped: Stopped<'_>) -> Result<Option<Worded>, AllocError> {
    let Some(rest) = stopped.label.strip_prefix("expected ") else {
        return Ok(None);
    };
    let expected = rest.strip_suffix(" here").unwrap_or(rest);
    let expected = expected.strip_prefix("one of ").unwrap_or(expected);
    let part = stopped.part();
    let place = (stopped.start, stopped.end);
    let message = if part.is_empty() {
        String::from_str(alloc, "the platform ends too early")?
    } else {
        format!(in alloc; "`{part}` cannot be here")?
    };
    Ok(Some(Worded::of(alloc, place, message, expected)?))
}

/// Whether a text begins an expression and does not end it.
#[tactic(auto, using(std::proofs::lemmas::Str::Pattern::starts_text, std::proofs::lemmas::Str::Pattern::ends_text), unfolding(crate::specs::Platforms::is_open))]
fn is_open(text: &str) -> bool
    ensures { result ≡ is_open text.now }
{
    text.starts_with("cfg(") && !text.ends_with(")")
}

/// What is wrong with parentheses or quotes, and what is expected, by what a reader says.
#[tactic(auto, unfolding(crate::specs::Platforms::pair_words))]
fn pair_words(stopped: Stopped<'_>) -> Option<(&'static str, &'static str)>
    ensures { option_map (λ words. (words.0.now, words.1.now)) result
        ≡ pair_words stopped.entry.text.now stopped.entry.label.now }
{
    if is_open(stopped.text) {
        return Some(("`(` is not closed", "a closing `)`"));
    }
    match stopped.label {
        "unclosed quotes" => Some(("`\"` is not closed", "a closing `\"`")),
        "unclosed parentheses" => Some(("`(` is not closed", "a closing `)`")),
        "unopened parentheses" => Some((
            "`)` closes nothing",
            "the end of the platform, or a `(` before it",
        )),
        _ => None,
    }
}

/// What a value is not, and what is expected, by what a reader says.
fn value_words(label: &str) -> Option<(&'static str, &'static str)> {
    match label {
        "this key takes no value" => Some(("due here", "the key alone")),
        "expected a feature" => Some(("a feature", "the name of a feature")),
        "expected `big` or `little`" => Some(("a byte order", "`big` or `little`")),
        "expected a number to 255" => Some(("a width of pointers", "an integer from 0 to 255")),
        "expected `ptr` or a number to 65535" => Some((
            "a width of atomics",
            "`ptr`, or an integer from 0 to 65535",
        )),
        _ => None,
    }
}

/// What has no such character as is there, and what is expected, by what a reader says.
fn character_words(label: &str) -> Option<(&'static str, &'static str)> {
    match label {
        "expected a letter, a digit, `_`, `-` or `.`" => Some((
            "target triples",
            "a triple of letters, digits, `_`, `-` and `.`, or `cfg(..)`",
        )),
        "foreign character" => Some(("`cfg(..)`", AN_EXPRESSION)),
        _ => None,
    }
}

/// What is wrong with a platform as a whole, and what is expected, by what a reader says.
fn whole_words(label: &str) -> Option<(&'static str, &'static str)> {
    match label {
        "expected a triple or `cfg(`" => Some((
            "the platform is empty",
            "a target triple, or `cfg(..)`",
        )),
        "expected an expression" => Some(("`cfg(..)` is empty", AN_EXPRESSION)),
        "functions nest more than 128 deep" => Some((
            "the platform is nested too deep",
            "at most 128 levels",
        )),
        _ => None,
    }
}

/// What is wrong with a key or with the parts of a function.
fn bad_part(alloc: Global, stopped: Stopped<'_>) -> Result<Option<Worded>, AllocError> {
    let worded = match stopped.label {
        "unknown key" => unknown_key(alloc, stopped),
        "expected `= \"<value>\"` behind this key" => value_wanted(alloc, stopped),
        "expected a `\"` here" | "expected a `\"<value>\"` here" => no_value(alloc, stopped),
        "expected one expression, and not several" => several(alloc, stopped),
        "`not` takes one part" => not_one(alloc, stopped),
        _ => return unexpected(alloc, stopped),
    };
    Ok(Some(worded?))
}

/// What is meant by a text that is not a triple, where that is plain.
fn platform_meant(text: &str) -> Option<&'static str> {
    match text.trim() {
        "windows" => Some("write `cfg(windows)`"),
        "unix" => Some("write `cfg(unix)`"),
        "linux" => Some("write `cfg(target_os = \"linux\")`"),
        "macos" | "osx" | "darwin" => Some("write `cfg(target_os = \"macos\")`"),
        _ => None,
    }
}

/// What is wrong with a platform of which a reader says so, in words, where these are plainer than
/// the reader's.
fn plain_words(alloc: Global, stopped: Stopped<'_>) -> Result<Option<Worded>, AllocError>
    ensures { IfOk result (λ words. HasPairWords
        (pair_words stopped.entry.text.now stopped.entry.label.now) stopped.entry.start words) }
{
    let place = (stopped.start, stopped.end);
    let worded = if let Some((message, expected)) = pair_words(stopped) {
        Worded::plain(alloc, first_byte(stopped), message, expected)
    } else if let Some((what, expected)) = value_words(stopped.label) {
        bad_value(alloc, stopped, what, expected)
    } else if let Some((what, expected)) = character_words(stopped.label) {
        bad_character(alloc, stopped, what, expected)
    } else if let Some((message, expected)) = whole_words(stopped.label) {
        Worded::plain(alloc, place, message, expected)
    } else {
        return bad_part(alloc, stopped);
    };
    Ok(Some(worded?))
}

/// What is wrong with a platform of which a reader says so, in words. There are none for what the
/// reader words well.
pub fn platform_words(alloc: Global, stopped: Stopped<'_>) -> Result<Option<Worded>, AllocError>
    ensures { IfOk result (λ words. HasPairWords
        (pair_words stopped.entry.text.now stopped.entry.label.now) stopped.entry.start words) }
{
    let Some(worded) = plain_words(alloc, stopped)? else {
        return Ok(None);
    };
    if worded.help.is_some() {
        return Ok(Some(worded));
    }
    let help = owned(alloc, platform_meant(stopped.text))?;
    Ok(Some(worded.advised(help)))
}
