//! Pieces of a text: blank lines, and those of one expression.
ghost use Rattle.std.specs.Prelude.{◌≡◌, ◌==◌, [], length, IfOk, IfSome};
ghost use Rattle.toml_parser.specs.Lexical as lexical;
ghost use Rattle.nextest_places.specs.Lines.{first_lines};
ghost use Rattle.std.specs.Bool.{OnTrue};
ghost use Rattle.nextest_places.specs.Pieces.{IsClosed, IsPiece, is_double, read_lines};

use crate::expression::{Content, Definition, content_of, line_count_of};
use crate::lines::split_lines;
use std::alloc::{AllocError, Global};
use toml_parser::text::{byte_at, first, skip_blank};

/// Some whole lines at the front of a text that are blank or hold one expression.
#[derive(Drop)]
pub(crate) struct Piece<'a> {
    pub(crate) count: usize,
    /// The lines, as they are read: without a byte order mark.
    pub(crate) lines: &'a str,
    /// The key that is defined on them, unless they are blank.
    pub(crate) definition: Option<Definition>,
    /// What follows them.
    pub(crate) rest: &'a str,
}

/// The piece at the front of a text, if one is found: a line alone, or all lines of an expression,
/// of which neither the first nor the last one is blank. At the start of a document a byte order
/// mark may be before it.
pub(crate) fn next_piece<'a>(
    alloc: Global,
    text: &'a str,
    is_start: bool,
) -> Result<Option<Piece<'a>>, AllocError>
    ensures { IfOk result (λ piece. IfSome piece (IsPiece is_start text.now)) }
{
    let (line, rest) = split_lines(text, 1);
    let lines = without_mark(line, is_start);
    if is_blank(lines) {
        return Ok(Some(Piece {
            count: 1,
            lines,
            definition: None,
            rest,
        }));
    }
    match content_of(alloc, lines)? {
        Content::Expression(definition) => Ok(Some(Piece {
            count: 1,
            lines,
            definition: Some(definition),
            rest,
        })),
        Content::Blank | Content::Other => long_piece(alloc, text, is_start),
    }
}

/// The piece of the expression that goes over several lines at the front of a text, if it is found.
fn long_piece<'a>(
    alloc: Global,
    text: &'a str,
    is_start: bool,
) -> Result<Option<Piece<'a>>, AllocError>
    requires { ¬ (lexical.skip_blank (read_lines is_start (first_lines 1 text.now)) ≡ []) }
    ensures { IfOk result (λ piece. IfSome piece (IsPiece is_start text.now)) }
{
    let count = line_count_of(alloc, without_mark(text, is_start))?;
    let (lines, rest) = split_lines(text, count);
    let (_, last) = split_lines(lines, count - 1);
    if is_blank(last) {
        return Ok(None);
    }
    let lines = without_mark(lines, is_start);
    match content_of(alloc, lines)? {
        Content::Expression(definition) => Ok(Some(Piece {
            count,
            lines,
            definition: Some(definition),
            rest,
        })),
        Content::Blank | Content::Other => Ok(None),
    }
}

/// Lines without a byte order mark, which may begin a document.
fn without_mark(lines: &str, is_start: bool) -> &str
    ensures { result.now ≡ read_lines is_start lines.now }
{
    if is_start && first(lines) == 0xEF && byte_at(lines, 1) == 0xBB && byte_at(lines, 2) == 0xBF {
        &lines[3..]
    } else {
        lines
    }
}

/// Whether a text is white space and comments alone.
fn is_blank(text: &str) -> bool
    ensures { result ≡ (length (lexical.skip_blank text.now) == 0) }
{
    skip_blank(text, true).is_empty()
}

/// Whether the first expression of a text begins with two brackets.
pub(crate) fn begins_element(lines: &str) -> bool
    ensures { result ≡ is_double (lexical.skip_blank lines.now) }
{
    let start = skip_blank(lines, true);
    first(start) == b'[' && byte_at(start, 1) == b'['
}

/// Whether text follows the first lines of a text, or else the text ends with a newline.
pub(crate) fn is_closed(text: &str, behind: &str) -> bool
    ensures { OnTrue result (IsClosed text.now behind.now) }
{
    if !behind.is_empty() {
        return true;
    }
    if text.is_empty() {
        return false;
    }
    byte_at(text, text.len() - 1) == b'\n'
}
