//! The scan of a text.
ghost use Rattle.std.specs.Prelude.{◌≡◌, [], IfOk, length};
ghost use Rattle.nextest_places.specs.Spans.Tokens.{AreTokens, IsRest, IsRightPiece, IsTaken, at};
ghost use Rattle.nextest_places.specs.Spans.Nesting.{IsOfRaw, Nests};
ghost use Rattle.std.specs.List.{between};

use crate::spans::cut::cut;
use crate::spans::gap::{begins_word, closes, is_gap, opens};
use crate::spans::state::{Raw, State};
use crate::spans::token::{Span, Token, TokenKind, name_of};
use std::alloc::{AllocError, Global};
use toml_parser::starts_string;

/// The tokens of a text in order. Between them are only white space, comments and separators.
/// The text need not be a document.
///
/// # Errors
/// Memory was refused.
pub fn tokens_of(alloc: Global, text: &str) -> Result<Vec<Token>, AllocError>
    ensures { IfOk result (λ tokens. AreTokens text.now 0 tokens.items (length text.now)) }
{
    let mut tokens = Vec::new(alloc);
    let mut state = State::new(alloc);
    let mut rest = text;
    'tokens: while !rest.is_empty() {
        let (token, _, behind) = next_token(alloc, &mut state, text, rest)?;
        match token {
            None => {}
            Some(token) => tokens.push(token)?,
        }
        rest = behind;
    }
    Ok(tokens)
}

/// The token at the front of what is left of a text, if one is there, with the bytes that were
/// read, and what follows them.
pub(crate) fn next_token<'a>(
    alloc: Global,
    state: &mut State,
    text: &str,
    rest: &'a str,
) -> Result<(Option<Token>, &'a str, &'a str), AllocError>
    requires some { ¬ (rest.now ≡ []) }
    requires place { IsRest text.now rest.now }
    ensures taken { IfOk result (λ found. IsTaken text.now rest.now found.0 found.2.now) }
    ensures own { IfOk result (λ found. found.1.now
        ≡ between (at text.now rest.now) (at text.now found.2.now) text.now) }
    ensures nests { IfOk result (λ found. Nests found.0 state.old.nest.items state.new.nest.items) }
{
    let front = state.take(rest);
    let (own, behind) = cut(rest, front.len);
    let kind = match kind_of(alloc, front.raw, own)? {
        None => return Ok((None, own, behind)),
        Some(kind) => kind,
    };
    state.follow(&kind)?;
    let start = text.len() - rest.len();
    let end = text.len() - behind.len();
    let span = Span { start, end };
    Ok((Some(Token { kind, span }), own, behind))
}

/// What a piece of a text is: a token where it can be what the state says, or else a gap or other
/// bytes. A part of a key has the name that it reads as.
fn kind_of(alloc: Global, raw: Raw, text: &str) -> Result<Option<TokenKind>, AllocError>
    ensures piece { IfOk result (IsRightPiece text.now) }
    ensures closes { IfOk result (IsOfRaw raw) }
{
    let kind = match raw {
        Raw::TableHeader if text == "[" => TokenKind::TableHeader,
        Raw::ElementHeader if text == "[[" => TokenKind::ElementHeader,
        Raw::Key => TokenKind::Key(name_of(alloc, text)?),
        Raw::Dotted => TokenKind::Dotted(name_of(alloc, text)?),
        Raw::Open(container) if opens(container, text) => TokenKind::Open(container),
        Raw::Close(container) if closes(container, text) => TokenKind::Close(container),
        Raw::String if starts_string(text) => TokenKind::String,
        Raw::Word if begins_word(text) => TokenKind::Word,
        _ if is_gap(text) => return Ok(None),
        _ => TokenKind::Other,
    };
    Ok(Some(kind))
}
