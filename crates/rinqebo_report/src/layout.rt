//! Rows within the columns of a page: the remarks of a row are beside it, or else below it.
ghost use Rattle.std.specs.Prelude.{◌≡◌, [], ◌∷◌, ◌++◌, OnOk, IfOk, codes, flat_map, map, string_bytes};
ghost use Rattle.rinqebo_report.specs.Joined.{joined};
ghost use Rattle.rinqebo_report.specs.Layout.{width, fits, remark_line, said_view, mark_text, mark_style, said_text, row_line, own_line_runs, below_runs, remarked_runs};
ghost use Rattle.rinqebo_report.specs.Pieces.{ending, page_text, repeated, styled};
ghost use Rattle.rinqebo_report.specs.PieceView.{piece_view};

use crate::piece::{Colour, Piece, Style, add_end, add_pieces};
use std::alloc::{AllocError, Global};
use unicode_width::UnicodeWidthStr;

/// The colours of pages, and their width.
#[derive(Clone, Copy)]
pub struct Paper {
    /// Whether pages have colours.
    pub colour: Colour,
    /// How many columns a line has.
    pub columns: usize,
}

/// The column with the keys of rows.
#[derive(Clone, Copy)]
pub(crate) struct KeyColumn {
    /// How many blanks are before it.
    pub indent: u8,
    /// How many columns it takes.
    pub width: usize,
}

/// How remarks are marked.
#[derive(Clone, Copy)]
pub(crate) enum Mark {
    /// With a number sign, as a comment.
    Comment,
    /// Without a mark.
    Bare,
}

/// The remarks of a row.
#[derive(Drop)]
pub(crate) struct Remarks {
    /// How they are marked.
    pub mark: Mark,
    /// How many blanks are between the row and remarks beside it.
    pub gap: usize,
    /// How many blanks are before remarks on a line below the row.
    pub indent: usize,
    /// Their texts.
    pub texts: Vec<String>,
}

/// The number of columns that a text takes in a terminal.
pub(crate) fn width(text: &str) -> usize
    ensures { result ≡ width text.now }
{
    UnicodeWidthStr::width(text)
}

/// Whether pieces take at most so many columns.
pub(crate) fn fits(alloc: Global, columns: usize, line: &[Piece<'_>]) -> Result<bool, AllocError>
    ensures { IfOk result (λ is. is ≡ fits columns (map piece_view line.now)) }
{
    let mut text = String::new(alloc);
    add_pieces(&mut text, Colour::Plain, line)?;
    Ok(width(text.as_str()) <= columns)
}

/// Writes a remark, in a line.
pub(crate) fn add_remark<'x>(
    out: &mut String,
    colour: Colour,
    text: &'x str,
) -> Result<(), AllocError>
    ensures { OnOk result (string_bytes out.new ≡ string_bytes out.old
        ++ page_text colour (remark_line text.now)) }
{
    add_pieces(out, colour, &[Piece::Text(Style::Remark, text), Piece::End])
}

/// Writes texts, with commas between them.
pub(crate) fn add_joined(out: &mut String, texts: &[String]) -> Result<(), AllocError>
    ensures { OnOk result (string_bytes out.new
        ≡ string_bytes out.old ++ joined (codes ", ") string_bytes texts.now) }
{
    let mut separator = "";
    for text in texts {
        out.push_str(separator)?;
        out.push_str(text.as_str())?;
        separator = ", ";
    }
    Ok(())
}

impl Mark {
    /// What a line of remarks begins with.
    fn text(self) -> &'static str
        ensures { result.now ≡ mark_text self }
    {
        match self {
            Mark::Comment => "# ",
            Mark::Bare => "",
        }
    }

    /// The style in which pages show remarks.
    fn style(self) -> Style
        ensures { result ≡ mark_style self }
    {
        match self {
            Mark::Comment => Style::Remark,
            Mark::Bare => Style::Plain,
        }
    }
}

impl Remarks {
    /// All remarks on one line, with commas between them.
    #[tactic(auto, using(crate::proofs::Joined::joined_mapped))]
    fn text(&self, alloc: Global) -> Result<String, AllocError>
        ensures { IfOk result (λ text. string_bytes text ≡ said_text (said_view self.now)) }
    {
        let mut text = String::from_str(alloc, self.mark.text())?;
        add_joined(&mut text, &self.texts)?;
        Ok(text)
    }
}

/// Writes a row and a text beside it, without the end of the line.
fn add_beside(
    out: &mut String,
    colour: Colour,
    front: &[Piece<'_>],
    remarks: &Remarks,
    text: &str,
) -> Result<(), AllocError>
    ensures { OnOk result (string_bytes out.new ≡ string_bytes out.old
        ++ page_text colour (map piece_view front.now ++ repeated 32 remarks.now.gap
        ∷ styled (mark_style remarks.now.mark) text.now ∷ [])) }
{
    add_pieces(out, colour, front)?;
    add_pieces(
        out,
        colour,
        &[
            Piece::Repeat(' ', remarks.gap),
            Piece::Text(remarks.mark.style(), text),
        ],
    )
}

/// Whether a row and a text beside it fit on one line.
fn fits_beside(
    alloc: Global,
    columns: usize,
    front: &[Piece<'_>],
    remarks: &Remarks,
    text: &str,
) -> Result<bool, AllocError>
    ensures { IfOk result (λ is. is ≡ fits columns (map piece_view front.now
        ++ repeated 32 remarks.now.gap ∷ styled (mark_style remarks.now.mark) text.now ∷ [])) }
{
    let mut line = String::new(alloc);
    add_beside(&mut line, Colour::Plain, front, remarks, text)?;
    Ok(width(line.as_str()) <= columns)
}

/// Writes a text on a line below a row.
fn add_line_below<'x>(
    out: &mut String,
    colour: Colour,
    remarks: &Remarks,
    text: &'x str,
) -> Result<(), AllocError>
    ensures { OnOk result (string_bytes out.new ≡ string_bytes out.old
        ++ page_text colour (repeated 32 remarks.now.indent
        ∷ styled (mark_style remarks.now.mark) text.now ∷ ending ∷ [])) }
{
    add_pieces(
        out,
        colour,
        &[
            Piece::Repeat(' ', remarks.indent),
            Piece::Text(remarks.mark.style(), text),
            Piece::End,
        ],
    )
}

/// Writes a remark on a line of its own.
fn add_text_below(
    alloc: Global,
    out: &mut String,
    colour: Colour,
    remarks: &Remarks,
    text: &str,
) -> Result<(), AllocError>
    ensures { OnOk result (string_bytes out.new ≡ string_bytes out.old
        ++ page_text colour (own_line_runs (said_view remarks.now) text.now)) }
{
    let mark = remarks.mark.text();
    let line = format!(in alloc; "{mark}{text}")?;
    add_line_below(out, colour, remarks, line.as_str())
}

/// Writes each remark on a line of its own.
fn add_apart(
    alloc: Global,
    out: &mut String,
    colour: Colour,
    remarks: &Remarks,
) -> Result<(), AllocError>
    ensures { OnOk result (string_bytes out.new ≡ string_bytes out.old
        ++ page_text colour (flat_map (own_line_runs (said_view remarks.now))
        (map string_bytes remarks.now.texts.items))) }
{
    for text in &remarks.texts {
        add_text_below(alloc, out, colour, remarks, text.as_str())?;
    }
    Ok(())
}

/// Whether a text fits on a line below a row.
fn fits_below(
    alloc: Global,
    columns: usize,
    remarks: &Remarks,
    text: &str,
) -> Result<bool, AllocError>
    ensures { IfOk result (λ is. is ≡ fits columns (repeated 32 remarks.now.indent
        ∷ styled (mark_style remarks.now.mark) text.now ∷ [])) }
{
    let style = remarks.mark.style();
    fits(
        alloc,
        columns,
        &[Piece::Repeat(' ', remarks.indent), Piece::Text(style, text)],
    )
}

/// Writes the remarks of a row below it: on one line if they fit, and else each on its own line.
fn add_below(
    alloc: Global,
    out: &mut String,
    paper: Paper,
    remarks: &Remarks,
) -> Result<(), AllocError>
    ensures { OnOk result (string_bytes out.new ≡ string_bytes out.old
        ++ page_text paper.colour (below_runs paper.columns (said_view remarks.now))) }
{
    let text = remarks.text(alloc)?;
    if fits_below(alloc, paper.columns, remarks, text.as_str())? {
        add_line_below(out, paper.colour, remarks, text.as_str())
    } else {
        add_apart(alloc, out, paper.colour, remarks)
    }
}

/// Writes a row with its remarks beside it.
fn add_one_line(
    out: &mut String,
    colour: Colour,
    front: &[Piece<'_>],
    remarks: &Remarks,
    text: &str,
) -> Result<(), AllocError>
    ensures { OnOk result (string_bytes out.new ≡ string_bytes out.old
        ++ page_text colour ((map piece_view front.now ++ repeated 32 remarks.now.gap
        ∷ styled (mark_style remarks.now.mark) text.now ∷ []) ++ ending ∷ [])) }
{
    add_beside(out, colour, front, remarks, text)?;
    add_end(out, colour)
}

/// Writes a row with its remarks below it.
fn add_lines(
    alloc: Global,
    out: &mut String,
    paper: Paper,
    front: &[Piece<'_>],
    remarks: &Remarks,
) -> Result<(), AllocError>
    ensures { OnOk result (string_bytes out.new ≡ string_bytes out.old
        ++ page_text paper.colour (map piece_view front.now
        ++ (ending ∷ below_runs paper.columns (said_view remarks.now)))) }
{
    add_pieces(out, paper.colour, front)?;
    add_end(out, paper.colour)?;
    add_below(alloc, out, paper, remarks)
}

/// Writes a row and its remarks: beside it if they fit on its line, and else below it.
pub(crate) fn add_remarked(
    alloc: Global,
    out: &mut String,
    paper: Paper,
    front: &[Piece<'_>],
    remarks: &Remarks,
) -> Result<(), AllocError>
    ensures { OnOk result (string_bytes out.new ≡ string_bytes out.old
        ++ page_text paper.colour (remarked_runs paper.columns (map piece_view front.now)
        (said_view remarks.now))) }
{
    let text = remarks.text(alloc)?;
    if fits_beside(alloc, paper.columns, front, remarks, text.as_str())? {
        add_one_line(out, paper.colour, front, remarks, text.as_str())
    } else {
        add_lines(alloc, out, paper, front, remarks)
    }
}
