//! Expressions of a document: their keys are read, and their values are passed over.
ghost use Rattle.std.specs.Prelude.{◌≡◌, ℕ, ◌<◌, ◌≤◌, true, false, Some, length, IfOk};
ghost use Rattle.toml.specs.Parse as grammar;
ghost use Rattle.toml_parser.specs.Reading.{Shortens, key_view};
ghost use Rattle.nextest_places.specs.Expressions as spec;
ghost use Rattle.nextest_places.specs.Contents.{Holds, definition_view};

use std::alloc::{AllocError, Global};
use toml_parser::text::{byte_at, first, skip, skip_blank, skip_ws};
use toml_parser::{
    ErrorKind, Key, ParseError, RECURSION_LIMIT, dotted_key, quoted, starts_string, unquoted,
};

/// A key that an expression defines.
#[derive(Drop)]
pub(crate) struct Definition {
    /// The key, as it is written.
    pub(crate) key: Key,
    /// Whether a header has the key, or else a pair.
    pub(crate) is_header: bool,
}

/// What whole lines hold.
#[derive(Drop)]
pub(crate) enum Content {
    /// White space and comments.
    Blank,
    /// One expression.
    Expression(Definition),
    /// Less than one expression, or more.
    Other,
}

/// What some whole lines hold.
pub(crate) fn content_of(alloc: Global, lines: &str) -> Result<Content, AllocError>
    ensures { IfOk result (Holds lines.now) }
{
    let start = skip_blank(lines, true);
    if start.is_empty() {
        return Ok(Content::Blank);
    }
    match read_definition(alloc, start) {
        Ok((definition, rest)) if skip_blank(rest, true).is_empty() => {
            Ok(Content::Expression(definition))
        }
        Ok(_) => Ok(Content::Other),
        Err(ParseError::OutOfMemory) => Err(AllocError),
        Err(_) => Ok(Content::Other),
    }
}

/// A guess at how many lines the expression at the front of a text takes, the blank ones before it
/// among them. Whether these lines are one expression by themselves shows when they are read.
pub(crate) fn line_count_of(alloc: Global, text: &str) -> Result<usize, AllocError>
    ensures { IfOk result (λ count. 0 < count) }
{
    match read_definition(alloc, skip_blank(text, true)) {
        Ok((_, rest)) => Ok(breaks_within(text, text.len().saturating_sub(rest.len()))),
        Err(ParseError::OutOfMemory) => Err(AllocError),
        Err(_) => Ok(1),
    }
}

/// One more than there are line feeds among the first `len` bytes of a text.
fn breaks_within(text: &str, len: usize) -> usize
    ensures { 0 < result }
{
    let mut count: usize = 1;
    for byte in text.as_bytes().iter().take(len) {
        if *byte == b'\n' {
            count = count.saturating_add(1);
        }
    }
    count
}

/// The key of the expression at the front of a text, and what follows the expression.
fn read_definition(alloc: Global, s: &str) -> Result<(Definition, &str), ParseError>
    ensures { IfOk result (λ read.
        spec.key_of s.now ≡ Some (definition_view read.0, read.1.now)) }
{
    if first(s) == b'[' && byte_at(s, 1) == b'[' {
        let (key, rest) = header_key(alloc, skip(s, 2))?;
        if first(rest) != b']' {
            return Err(ParseError::at(ErrorKind::UnclosedArrayTable, rest));
        }
        Ok((header(key), skip(rest, 1)))
    } else if first(s) == b'[' {
        let (key, rest) = header_key(alloc, skip(s, 1))?;
        Ok((header(key), rest))
    } else {
        let (key, at_value) = key_equals(alloc, s)?;
        let rest = after_value(alloc, at_value, RECURSION_LIMIT)?;
        Ok((pair(key), rest))
    }
}

fn header(key: Key) -> Definition
    ensures { definition_view result ≡ (key_view key, true) }
{
    Definition {
        key,
        is_header: true,
    }
}

fn pair(key: Key) -> Definition
    ensures { definition_view result ≡ (key_view key, false) }
{
    Definition {
        key,
        is_header: false,
    }
}

/// The key of a header and its first closing bracket.
fn header_key(alloc: Global, s: &str) -> Result<(Key, &str), ParseError>
    ensures { IfOk result (λ read.
        grammar.header_key s.now ≡ Some (key_view read.0, read.1.now)) }
{
    let (key, rest) = dotted_key(alloc, skip_ws(s))?;
    if first(rest) != b']' {
        return Err(ParseError::at(ErrorKind::UnclosedTable, rest));
    }
    Ok((key, skip(rest, 1)))
}

/// A key, `=` and the white space after it.
fn key_equals(alloc: Global, s: &str) -> Result<(Key, &str), ParseError>
    ensures value { IfOk result (λ read.
        grammar.key_equals s.now ≡ Some (key_view read.0, read.1.now)) }
    ensures shorter { Shortens s.now result }
{
    let (key, rest) = dotted_key(alloc, s)?;
    if first(rest) != b'=' {
        return Err(ParseError::at(ErrorKind::MissingEquals, rest));
    }
    Ok((key, skip_ws(skip(rest, 1))))
}

/// What follows a value with arrays and inline tables at most `depth` deep.
#[cycle(after_value)]
fn after_value(alloc: Global, s: &str, depth: usize) -> Result<&str, ParseError>
    ensures value { IfOk result (λ rest. spec.after_value depth s.now ≡ Some rest.now) }
    ensures shorter { IfOk result (λ rest. length rest.now < length s.now) }
{
    let byte = first(s);
    if byte != b'[' && byte != b'{' {
        return after_atom(alloc, s);
    }
    if depth == 0 {
        return Err(ParseError::at(ErrorKind::Recursion, s));
    }
    if byte == b'[' {
        after_items(alloc, skip(s, 1), depth - 1)
    } else {
        after_members(alloc, skip(s, 1), depth - 1)
    }
}

/// What follows a string or a scalar.
fn after_atom(alloc: Global, s: &str) -> Result<&str, ParseError>
    ensures value { IfOk result (λ rest. spec.after_atom s.now ≡ Some rest.now) }
    ensures shorter { IfOk result (λ rest. length rest.now < length s.now) }
{
    if starts_string(s) {
        let (_, rest) = quoted(alloc, s)?;
        Ok(rest)
    } else {
        let (_, rest) = unquoted(alloc, s)?;
        Ok(rest)
    }
}

/// What follows the rest of an array.
#[cycle(after_value)]
fn after_items(alloc: Global, s: &str, depth: usize) -> Result<&str, ParseError>
    ensures value { (n : ℕ) → length s.now < n
        → IfOk result (λ rest. spec.after_items (spec.after_value depth) n s.now ≡ Some rest.now) }
    ensures shorter { IfOk result (λ rest. length rest.now < length s.now) }
{
    let mut rest = s;
    'items: loop {
        let start = skip_blank(rest, true);
        if first(start) == b']' {
            return Ok(skip(start, 1));
        }
        let after = after_value(alloc, start, depth)?;
        rest = after_element(after, b']', ErrorKind::Array)?;
    }
}

/// What follows the rest of an inline table.
#[cycle(after_value)]
fn after_members(alloc: Global, s: &str, depth: usize) -> Result<&str, ParseError>
    ensures value { (n : ℕ) → length s.now < n → IfOk result (λ rest.
        spec.after_members (spec.after_value depth) n s.now ≡ Some rest.now) }
    ensures shorter { IfOk result (λ rest. length rest.now < length s.now) }
{
    let mut rest = s;
    'members: loop {
        let start = skip_blank(rest, true);
        if first(start) == b'}' {
            return Ok(skip(start, 1));
        }
        let (_, at_value) = key_equals(alloc, start)?;
        let after = after_value(alloc, at_value, depth)?;
        rest = after_element(after, b'}', ErrorKind::InlineTable)?;
    }
}

/// After a comma, or at the closing bracket.
fn after_element(s: &str, closing: u8, missing: ErrorKind) -> Result<&str, ParseError>
    ensures value { IfOk result (λ rest. grammar.after_element closing s.now ≡ Some rest.now) }
    ensures within { IfOk result (λ rest. length rest.now ≤ length s.now) }
{
    let rest = skip_blank(s, true);
    if first(rest) == b',' {
        Ok(skip(rest, 1))
    } else if first(rest) == closing {
        Ok(rest)
    } else {
        Err(ParseError::at(missing, rest))
    }
}
