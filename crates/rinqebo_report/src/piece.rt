//! Pieces of a page, and how they are painted.
ghost use Rattle.std.specs.Prelude.{◌≡◌, [], ◌∷◌, ◌++◌, IfSome, OnOk, map, flat_map, replicate, string_bytes};
ghost use Rattle.std.specs.List.{list_all};
ghost use Rattle.std.specs.Str.{chars};
ghost use Rattle.rinqebo_report.specs.Pieces.{is_printable_byte, shown_char, shown_text, escape_of, style_code, painted_text, painted, page_text, ending};
ghost use Rattle.rinqebo_report.specs.PieceView.{piece_view};

use std::alloc::AllocError;
use std::fmt::Write;

/// Whether a page has colours.
#[derive(Clone, Copy, PartialEq, Eq)]
pub enum Colour {
    /// It has none.
    Plain,
    /// It has the escapes of terminals.
    Coloured,
}

/// What a text of a page is.
#[derive(Clone, Copy, PartialEq, Eq)]
pub enum Style {
    /// A text without colours.
    Plain,
    /// The name of a setting.
    Key,
    /// A remark.
    Remark,
    /// A rule that decides.
    Good,
    /// An error.
    Error,
    /// A warning.
    Warning,
    /// A help.
    Help,
}

/// A piece of a page.
#[derive(Clone, Copy)]
pub enum Piece<'a> {
    /// A text in a style.
    Text(Style, &'a str),
    /// A character, so many times.
    Repeat(char, usize),
    /// A number, in decimal digits.
    Number(u64),
    /// The end of a line.
    End,
}

impl Style {
    /// The parameters with which a terminal shows it.
    fn code(self) -> &'static str
        ensures { result.now ≡ style_code self }
    {
        match self {
            Style::Plain => "",
            Style::Key => "1",
            Style::Remark => "2",
            Style::Good => "32",
            Style::Error => "1;31",
            Style::Warning => "1;33",
            Style::Help => "36",
        }
    }
}

/// Writes a character: a control character is spelled as an escape.
pub(crate) fn add_char(out: &mut String, c: char) -> Result<(), AllocError>
    ensures { OnOk result (string_bytes out.new ≡ string_bytes out.old ++ shown_char c) }
{
    if c.is_control() {
        let number = u32::from(c);
        write!(out, "\\u{{{number:x}}}")
    } else {
        out.push(c)
    }
}

/// Whether each byte of a text is a printable character of ASCII.
fn is_printable(text: &str) -> bool
    ensures { result ≡ list_all is_printable_byte text.now }
{
    text.as_bytes()
        .iter()
        .all(|byte| matches!(*byte, b' '..=b'~'))
}

/// Writes a text character by character. Control characters are spelled as escapes.
fn add_spelled(out: &mut String, text: &str) -> Result<(), AllocError>
    ensures { OnOk result (string_bytes out.new ≡ string_bytes out.old ++ shown_text text.now) }
{
    for c in text.chars() {
        add_char(out, c)?;
    }
    Ok(())
}

/// Writes a text, in which control characters are spelled as escapes. Most texts have none, and are
/// written as they are.
#[tactic(auto, using(crate::proofs::Printable::shown_as_is))]
fn add_shown(out: &mut String, text: &str) -> Result<(), AllocError>
    ensures { OnOk result (string_bytes out.new ≡ string_bytes out.old ++ shown_text text.now) }
{
    if is_printable(text) {
        out.push_str(text)
    } else {
        add_spelled(out, text)
    }
}

/// Writes a text in its style.
fn add_text(out: &mut String, colour: Colour, style: Style, text: &str) -> Result<(), AllocError>
    ensures { OnOk result (string_bytes out.new
        ≡ string_bytes out.old ++ painted_text colour style text.now) }
{
    if colour == Colour::Plain || style == Style::Plain {
        return add_shown(out, text);
    }
    out.push_str("\u{1b}[")?;
    out.push_str(style.code())?;
    out.push_str("m")?;
    add_shown(out, text)?;
    out.push_str("\u{1b}[0m")
}

/// Writes a character so many times, one by one.
fn add_each(out: &mut String, c: char, count: usize) -> Result<(), AllocError>
    ensures { OnOk result (string_bytes out.new
        ≡ string_bytes out.old ++ flat_map shown_char (replicate count c)) }
{
    for _index in 0..count {
        add_char(out, c)?;
    }
    Ok(())
}

/// Some blanks: more than most rows have between their parts.
const BLANKS: &str = "                                                                ";

/// So many blanks, if there are as many.
#[tactic(auto, using(crate::proofs::Printable::blanks_are))]
fn blanks(count: usize) -> Option<&'static str>
    ensures { IfSome result (λ text. text.now ≡ flat_map shown_char (replicate count 32)) }
{
    BLANKS.get(..count)
}

/// Writes a character so many times. Blanks are written at once.
fn add_repeated(out: &mut String, c: char, count: usize) -> Result<(), AllocError>
    ensures { OnOk result (string_bytes out.new
        ≡ string_bytes out.old ++ flat_map shown_char (replicate count c)) }
{
    if c == ' '
        && let Some(text) = blanks(count)
    {
        return out.push_str(text);
    }
    add_each(out, c, count)
}

/// Writes a piece.
fn add_piece(out: &mut String, colour: Colour, piece: &Piece<'_>) -> Result<(), AllocError>
    ensures { OnOk result (string_bytes out.new
        ≡ string_bytes out.old ++ painted colour (piece_view piece.now)) }
{
    match *piece {
        Piece::Text(style, text) => add_text(out, colour, style, text),
        Piece::Repeat(c, count) => add_repeated(out, c, count),
        Piece::Number(number) => write!(out, "{number}"),
        Piece::End => out.push('\n'),
    }
}

/// Writes pieces, one behind another.
pub fn add_pieces(out: &mut String, colour: Colour, pieces: &[Piece<'_>]) -> Result<(), AllocError>
    ensures { OnOk result (string_bytes out.new
        ≡ string_bytes out.old ++ page_text colour (map piece_view pieces.now)) }
{
    for piece in pieces {
        add_piece(out, colour, piece)?;
    }
    Ok(())
}

/// Writes the end of a line.
pub(crate) fn add_end(out: &mut String, colour: Colour) -> Result<(), AllocError>
    ensures { OnOk result (string_bytes out.new
        ≡ string_bytes out.old ++ page_text colour (ending ∷ [])) }
{
    add_pieces(out, colour, &[Piece::End])
}
