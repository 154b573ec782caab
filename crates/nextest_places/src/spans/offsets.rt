//! Where the token of a string writes each character.
ghost use Rattle.std.specs.Prelude.{◌≡◌, ◌↔◌, true, IfOk, IsTrue, MatchOption};
ghost use Rattle.toml_parser.specs.Strings.{starts_string};
ghost use Rattle.nextest_places.specs.Spans.Offsets.{AreOffsets, IsString, content_of, is_multi};

use crate::spans::piece::{Quotes, next_piece};
use std::alloc::{AllocError, Global};
use toml_parser::text::{byte_at, first, skip, starts_newline};
use toml_parser::{ParseError, quoted, starts_string};

/// The bytes of a string's token at which its characters are written, and last that of its closing
/// delimiter. It returns `None` if the token is not exactly one string of TOML.
///
/// In `"\u00e9x"`, the first character is written at byte 1 and the second one at byte 7, and the
/// string closes at byte 8. A backslash at the end of a line and the white space behind it write
/// nothing, nor does a newline right behind the opening delimiter.
///
/// # Errors
/// Memory was refused.
pub fn offsets_of(alloc: Global, token: &str) -> Result<Option<Vec<usize>>, AllocError>
    ensures { IfOk result (λ found. MatchOption found (¬ IsString token.now)
        (λ offsets. AreOffsets token.now offsets.items)) }
{
    if !is_string(alloc, token)? {
        return Ok(None);
    }
    let quotes = Quotes {
        delim: first(token),
        is_multi: is_multi(token),
    };
    let mut rest = content_of(token);
    let mut offsets = Vec::new(alloc);
    'pieces: while let Some(piece) = next_piece(rest, quotes) {
        if !piece.is_gap {
            offsets.push(token.len() - rest.len())?;
        }
        rest = piece.rest;
    }
    offsets.push(token.len() - rest.len())?;
    Ok(Some(offsets))
}

/// Whether the token is one string of TOML and nothing more.
fn is_string(alloc: Global, token: &str) -> Result<bool, AllocError>
    ensures { IfOk result (λ is. IsTrue is ↔ IsString token.now) }
{
    if !starts_string(token) {
        return Ok(false);
    }
    match quoted(alloc, token) {
        Ok((_, rest)) => Ok(rest.is_empty()),
        Err(ParseError::At(..)) => Ok(false),
        Err(ParseError::OutOfMemory) => Err(AllocError),
    }
}

/// Whether three delimiters open the string.
fn is_multi(token: &str) -> bool
    ensures { result ≡ is_multi token.now }
{
    let delim = first(token);
    byte_at(token, 1) == delim && byte_at(token, 2) == delim
}

/// What follows the opening delimiter, and a newline right behind three of them.
fn content_of(token: &str) -> &str
    requires { starts_string token.now ≡ true }
    ensures { result.now ≡ content_of token.now }
{
    if !is_multi(token) {
        return skip(token, 1);
    }
    let content = skip(token, 3);
    if first(content) == b'\n' {
        skip(content, 1)
    } else if starts_newline(content) {
        skip(content, 2)
    } else {
        content
    }
}
