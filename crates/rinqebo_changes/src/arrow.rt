//! Rows of two things with an arrow between them: on one line if it fits, and else on two.
ghost use Rattle.std.specs.Prelude.{◌≡◌, nat_le, [], ◌∷◌, ◌++◌, OnOk, IfOk, map, string_bytes};
ghost use Rattle.rinqebo_report.specs.Layout.{width, fits};
ghost use Rattle.rinqebo_report.specs.PieceView.{piece_view};
ghost use Rattle.rinqebo_report.specs.Pieces.{ending, page_text};
ghost use Rattle.rinqebo_changes.specs.Arrows.{arrow_line, behind_arrow, arrow_runs};

use rinqebo_report::{Colour, Paper, Piece, Style, add_pieces};
use std::alloc::{AllocError, Global};
use unicode_width::UnicodeWidthStr;

/// How an arrow is written.
#[derive(Clone, Copy)]
pub(crate) struct Arrow {
    /// How it is shown.
    pub style: Style,
    /// How many blanks are before it where it begins a line.
    pub indent: usize,
}

/// Whether a text takes no more columns in a terminal than these.
fn is_within(columns: usize, text: &str) -> bool
    ensures { result ≡ nat_le (width text.now) columns }
{
    UnicodeWidthStr::width(text) <= columns
}

/// Whether pieces take no more columns than these.
pub(crate) fn fits(alloc: Global, columns: usize, line: &[Piece<'_>]) -> Result<bool, AllocError>
    ensures { IfOk result (λ is. is ≡ fits columns (map piece_view line.now)) }
{
    let mut text = String::new(alloc);
    add_pieces(&mut text, Colour::Plain, line)?;
    Ok(is_within(columns, text.as_str()))
}

/// Writes two things with an arrow between them, without the end of the line.
fn add_beside(
    out: &mut String,
    colour: Colour,
    style: Style,
    left: &[Piece<'_>],
    right: &[Piece<'_>],
) -> Result<(), AllocError>
    ensures { OnOk result (string_bytes out.new ≡ string_bytes out.old ++ page_text colour
        (arrow_line style (map piece_view left.now) (map piece_view right.now))) }
{
    add_pieces(out, colour, left)?;
    add_pieces(out, colour, &[Piece::Text(style, " -> ")])?;
    add_pieces(out, colour, right)
}

/// Whether two things fit on one line, with an arrow between them.
fn fits_beside(
    alloc: Global,
    columns: usize,
    style: Style,
    left: &[Piece<'_>],
    right: &[Piece<'_>],
) -> Result<bool, AllocError>
    ensures { IfOk result (λ is. is ≡ fits columns
        (arrow_line style (map piece_view left.now) (map piece_view right.now))) }
{
    let mut line = String::new(alloc);
    add_beside(&mut line, Colour::Plain, style, left, right)?;
    Ok(is_within(columns, line.as_str()))
}

/// Writes two things on one line, with an arrow between them.
fn add_one_line(
    out: &mut String,
    colour: Colour,
    style: Style,
    left: &[Piece<'_>],
    right: &[Piece<'_>],
) -> Result<(), AllocError>
    ensures { OnOk result (string_bytes out.new ≡ string_bytes out.old ++ page_text colour
        (arrow_line style (map piece_view left.now) (map piece_view right.now) ++ ending ∷ [])) }
{
    add_beside(out, colour, style, left, right)?;
    add_pieces(out, colour, &[Piece::End])
}

/// Writes an arrow at the beginning of a line, and what is behind it.
fn add_behind(
    out: &mut String,
    colour: Colour,
    arrow: Arrow,
    right: &[Piece<'_>],
) -> Result<(), AllocError>
    ensures { OnOk result (string_bytes out.new ≡ string_bytes out.old ++ page_text colour
        (behind_arrow arrow.indent arrow.style (map piece_view right.now) ++ ending ∷ [])) }
{
    add_pieces(
        out,
        colour,
        &[
            Piece::Repeat(' ', arrow.indent),
            Piece::Text(arrow.style, "-> "),
        ],
    )?;
    add_pieces(out, colour, right)?;
    add_pieces(out, colour, &[Piece::End])
}

/// Writes two things on two lines, of which an arrow begins the second.
fn add_two_lines(
    out: &mut String,
    colour: Colour,
    arrow: Arrow,
    left: &[Piece<'_>],
    right: &[Piece<'_>],
) -> Result<(), AllocError>
    ensures { OnOk result (string_bytes out.new ≡ string_bytes out.old ++ page_text colour
        (map piece_view left.now ++ (ending ∷ (behind_arrow arrow.indent arrow.style
        (map piece_view right.now) ++ ending ∷ [])))) }
{
    add_pieces(out, colour, left)?;
    add_pieces(out, colour, &[Piece::End])?;
    add_behind(out, colour, arrow, right)
}

/// Writes two things with an arrow between them: on one line if it fits, and else on two.
pub(crate) fn add_arrow(
    alloc: Global,
    out: &mut String,
    paper: Paper,
    arrow: Arrow,
    left: &[Piece<'_>],
    right: &[Piece<'_>],
) -> Result<(), AllocError>
    ensures { OnOk result (string_bytes out.new ≡ string_bytes out.old ++ page_text paper.colour
        (arrow_runs paper.columns arrow.indent arrow.style (map piece_view left.now)
        (map piece_view right.now))) }
{
    if fits_beside(alloc, paper.columns, arrow.style, left, right)? {
        add_one_line(out, paper.colour, arrow.style, left, right)
    } else {
        add_two_lines(out, paper.colour, arrow, left, right)
    }
}
