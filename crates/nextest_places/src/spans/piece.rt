//! The pieces that the content of a string is made of.
ghost use Rattle.std.specs.Prelude.{◌≡◌, ◌+◌, ◌==◌, ℕ, List, MatchOption};
ghost use Rattle.std.specs.List.{prefix_len};
ghost use Rattle.std.specs.Str.{IsUtf8};
ghost use Rattle.toml_parser.specs.Strings.{escape, hex_len};
ghost use Rattle.nextest_places.specs.Spans.Offsets.{ReadsOn, cuts_line, starts_escape};
ghost use Rattle.nextest_places.specs.Spans.Pieces.{IsClosing, IsContent, IsDelim, IsEscape, IsPiece, closes};

use toml_parser::text::{first, skip, skip_blank, skip_ws, starts_newline};

/// How a string is delimited.
#[derive(Clone, Copy)]
pub(crate) struct Quotes {
    /// A quote or an apostrophe.
    pub(crate) delim: u8,
    /// Whether there are three delimiters at each end.
    pub(crate) is_multi: bool,
}

/// What the content of a string begins with.
#[derive(Clone, Copy)]
pub(crate) struct Piece<'a> {
    /// The content behind it.
    pub(crate) rest: &'a str,
    /// Whether it is a backslash with the white space that it leaves out. Any other piece writes
    /// one character.
    pub(crate) is_gap: bool,
}

/// The piece at the front of a string's content, or `None` at the closing delimiter.
pub(crate) fn next_piece(content: &str, quotes: Quotes) -> Option<Piece<'_>>
    requires delim { IsDelim quotes.delim }
    requires content { IsContent quotes.delim quotes.is_multi content.now }
    ensures { (bytes : List ℕ) → ReadsOn quotes.delim quotes.is_multi content.now bytes
        → MatchOption result (IsClosing quotes.delim quotes.is_multi content.now bytes)
        (λ piece. IsPiece quotes.delim quotes.is_multi content.now bytes
        piece.is_gap piece.rest.now) }
{
    if closes(content, quotes) {
        return None;
    }
    if starts_escape(content, quotes) {
        return Some(escape_piece(skip(content, 1), quotes.is_multi));
    }
    let c = content.chars().next()?;
    let len = c.len_utf8();
    Some(Piece {
        rest: &content[len..],
        is_gap: false,
    })
}

/// Whether the content begins with the delimiters that close the string. In a string of several
/// lines, one or two are text, and so are the first ones of four or five.
fn closes(content: &str, quotes: Quotes) -> bool
    ensures { result ≡ closes quotes.delim quotes.is_multi content.now }
{
    first(content) == quotes.delim && (!quotes.is_multi || run_len(content, quotes.delim) == 3)
}

/// The number of copies of a byte at the front of a text.
fn run_len(text: &str, byte: u8) -> usize
    ensures { result ≡ prefix_len (λ c. c == byte) text.now }
{
    text.as_bytes().iter().take_while(|b| **b == byte).count()
}

/// Whether the content begins with an escape.
fn starts_escape(content: &str, quotes: Quotes) -> bool
    ensures { result ≡ starts_escape quotes.delim content.now }
{
    first(content) == b'\\' && quotes.delim == b'"'
}

/// The piece that a backslash begins, from the text behind the backslash.
fn escape_piece(text: &str, is_multi: bool) -> Piece<'_>
    requires { IsEscape is_multi text.now }
    ensures gap { result.is_gap ≡ cuts_line is_multi text.now }
    ensures utf8 { IsUtf8 result.rest.now }
    ensures rest { (p : List ℕ × List ℕ) → escape is_multi text.now ≡ Some p
        → result.rest.now ≡ p.1 }
{
    if cuts_line(text, is_multi) {
        return Piece {
            rest: skip_blank(text, false),
            is_gap: true,
        };
    }
    Piece {
        rest: skip(text, escape_len(first(text))),
        is_gap: false,
    }
}

/// Whether the text behind a backslash leaves out the end of its line.
fn cuts_line(text: &str, is_multi: bool) -> bool
    ensures { result ≡ cuts_line is_multi text.now }
{
    is_multi && starts_newline(skip_ws(text))
}

/// The length of an escape that begins with the letter, without its backslash.
fn escape_len(letter: u8) -> usize
    ensures { result ≡ 1 + hex_len letter }
{
    match letter {
        b'x' => 3,
        b'u' => 5,
        b'U' => 9,
        _ => 1,
    }
}
