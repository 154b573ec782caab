//! Tokens of a text.
ghost use Rattle.std.specs.Prelude.{IfOk};
ghost use Rattle.nextest_places.specs.Spans.Tokens.{IsNamed};

use std::alloc::{AllocError, Global};
use toml_parser::{Key, ParseError, dotted_key};

/// Some bytes of a text.
#[derive(Clone, Copy, Debug, PartialEq, Eq)]
pub struct Span {
    /// The first of them.
    pub start: usize,
    /// The one behind the last.
    pub end: usize,
}

/// What holds other values.
#[derive(Clone, Copy, Debug, PartialEq, Eq)]
pub enum Container {
    /// A list, in square brackets.
    List,
    /// A table, in braces.
    Table,
}

/// What a token is.
#[derive(Debug, Drop)]
pub enum TokenKind {
    /// The bracket that opens the header of a table.
    TableHeader,
    /// The two brackets that open a header of an element.
    ElementHeader,
    /// The first part of a key, with the name that it reads as, if it does.
    Key(Option<String>),
    /// A part of a key behind a dot, likewise.
    Dotted(Option<String>),
    /// The bracket or brace that opens a value.
    Open(Container),
    /// The bracket or brace that closes a value.
    Close(Container),
    /// A string.
    String,
    /// A number, a boolean, a date or any other text in place of a value.
    Word,
    /// Some bytes that are in no place of a token.
    Other,
}

/// A token of a text.
#[derive(Debug, Drop)]
pub struct Token {
    /// What it is.
    pub kind: TokenKind,
    /// Where it is.
    pub span: Span,
}

/// The name that a text reads as, if it is a key of one part.
pub(crate) fn name_of(alloc: Global, text: &str) -> Result<Option<String>, AllocError>
    ensures { IfOk result (IsNamed text.now) }
{
    match dotted_key(alloc, text) {
        Ok((Key { path, last }, rest)) => {
            if path.is_empty() && rest.is_empty() {
                Ok(Some(last))
            } else {
                Ok(None)
            }
        }
        Err(ParseError::At(..)) => Ok(None),
        Err(ParseError::OutOfMemory) => Err(AllocError),
    }
}
