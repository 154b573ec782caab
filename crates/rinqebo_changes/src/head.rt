//! The first lines of the page of a diff: what is requested of each side, and its file.
ghost use Rattle.std.specs.Prelude.{◌≡◌, ◌++◌, OnOk, IfOk, bytes_eq, codes, map, string_bytes};
ghost use Rattle.rinqebo_report.specs.Headers.{ended_runs, has_room, header_runs, host_text, line_with, mode_part, profiles_part};
ghost use Rattle.rinqebo_report.specs.Joined.{joined};
ghost use Rattle.rinqebo_report.specs.Layout.{remark_line};
ghost use Rattle.rinqebo_report.specs.Pieces.{page_text};
ghost use Rattle.rinqebo_changes.specs.Heads.{head_view, other_parts, asked_parts, file_text, file_parts, one_text, side_runs, both_text, apart_runs, both_runs, head_runs};

use crate::arrow::fits;
use crate::diff::{Diff, Side};
use rinqebo_report::{Asked, Colour, Paper, Piece, Style, add_pieces, path_at};
use std::alloc::{AllocError, Global};

/// The parts of a side's header.
#[derive(Drop)]
struct Head {
    /// The first part.
    first: String,
    /// The other parts.
    others: Vec<String>,
}

/// Writes a remark on a line of its own.
pub(crate) fn add_remark<'x>(
    out: &mut String,
    colour: Colour,
    text: &'x str,
) -> Result<(), AllocError>
    ensures { OnOk result (string_bytes out.new ≡ string_bytes out.old
        ++ page_text colour (remark_line text.now)) }
{
    add_pieces(out, colour, &[Piece::Text(Style::Remark, text), Piece::End])
}

/// Whether a line fits with one more part.
fn has_room(alloc: Global, columns: usize, line: &str, part: &str) -> Result<bool, AllocError>
    ensures { IfOk result (λ has. has ≡ has_room columns line.now part.now) }
{
    let longer = format!(in alloc; "{line} {part}")?;
    fits(
        alloc,
        columns,
        &[Piece::Text(Style::Remark, longer.as_str())],
    )
}

/// Appends a part to a line if there is room, and else writes the line and begins another.
fn add_part(
    alloc: Global,
    out: &mut String,
    paper: Paper,
    line: &str,
    part: &str,
) -> Result<String, AllocError>
    ensures written { OnOk result (string_bytes out.new ≡ string_bytes out.old
        ++ page_text paper.colour (ended_runs paper.columns line.now part.now)) }
    ensures line { IfOk result (λ next.
        string_bytes next ≡ line_with paper.columns line.now part.now) }
{
    if has_room(alloc, paper.columns, line, part)? {
        format!(in alloc; "{line} {part}")
    } else {
        add_remark(out, paper.colour, line)?;
        format!(in alloc; "# {part}")
    }
}

/// Writes lines that begin with a number sign and have as many parts as fit.
fn add_parts(
    alloc: Global,
    out: &mut String,
    paper: Paper,
    first: &str,
    others: &[String],
) -> Result<(), AllocError>
    ensures { OnOk result (string_bytes out.new ≡ string_bytes out.old
        ++ page_text paper.colour (header_runs paper.columns first.now
        (map string_bytes others.now))) }
{
    let mut line = format!(in alloc; "# {first}")?;
    for part in others {
        line = add_part(alloc, out, paper, line.as_str(), part.as_str())?;
    }
    add_remark(out, paper.colour, line.as_str())
}

/// Writes profiles, the nearest first.
fn add_chain(out: &mut String, chain: &[String]) -> Result<(), AllocError>
    ensures { OnOk result (string_bytes out.new
        ≡ string_bytes out.old ++ joined (codes " < ") string_bytes chain.now) }
{
    let mut separator = "";
    for profile in chain {
        out.push_str(separator)?;
        out.push_str(profile.as_str())?;
        separator = " < ";
    }
    Ok(())
}

/// The profiles of a side, the nearest first.
fn profiles_part(alloc: Global, asked: &Asked) -> Result<String, AllocError>
    ensures { IfOk result (λ part. string_bytes part ≡ profiles_part asked.now) }
{
    let mut part = String::from_str(alloc, "profile ")?;
    add_chain(&mut part, &asked.chain)?;
    part.push_str(",")?;
    Ok(part)
}

/// The mode of a side.
fn mode_part(alloc: Global, asked: &Asked) -> Result<String, AllocError>
    ensures { IfOk result (λ part. string_bytes part ≡ mode_part asked.now) }
{
    let mut part = String::from_str(alloc, asked.mode.word())?;
    part.push_str(",")?;
    Ok(part)
}

/// The triple of the host, with a remark if it is only assumed.
fn host_text(alloc: Global, asked: &Asked) -> Result<String, AllocError>
    ensures { IfOk result (λ text. string_bytes text ≡ host_text asked.now) }
{
    let mut text = String::from_str(alloc, asked.host.as_str())?;
    if asked.assumes_host {
        text.push_str(" (assumed)")?;
    }
    Ok(text)
}

/// The parts behind the profiles of a side: its mode, and the triples of its build: that of the
/// host alone if there is no target.
fn other_parts(alloc: Global, asked: &Asked) -> Result<Vec<String>, AllocError>
    ensures { IfOk result (λ parts. map string_bytes parts.items ≡ other_parts asked.now) }
{
    let mode = mode_part(alloc, asked)?;
    let host = host_text(alloc, asked)?;
    match &asked.target {
        Some(target) => {
            let host = format!(in alloc; "host {host},")?;
            let target = format!(in alloc; "target {target}")?;
            Ok(vec![in alloc; mode, host, target]?)
        }
        None => Ok(vec![in alloc; mode, host]?),
    }
}

/// The profiles, the mode and the platforms of a side.
fn asked_head(alloc: Global, asked: &Asked) -> Result<Head, AllocError>
    ensures { IfOk result (λ head. head_view head ≡ asked_parts asked.now) }
{
    let first = profiles_part(alloc, asked)?;
    let others = other_parts(alloc, asked)?;
    Ok(Head { first, others })
}

/// The highest file of a side, as a text, or the defaults if it has no file.
fn file_text<'s>(side: &'s Side) -> &'s str
    ensures { result.now ≡ file_text side.now }
{
    let last = side.sources.len().saturating_sub(1);
    path_at(side.root.as_str(), &side.sources, last)
}

/// The highest file of a side.
fn file_head(alloc: Global, side: &Side) -> Result<Head, AllocError>
    ensures { IfOk result (λ head. head_view head ≡ file_parts side.now) }
{
    let first = String::from_str(alloc, file_text(side))?;
    let others = Vec::new(alloc);
    Ok(Head { first, others })
}

impl Head {
    /// All parts as one text.
    fn text(&self, alloc: Global) -> Result<String, AllocError>
        ensures { IfOk result (λ text. string_bytes text ≡ one_text (head_view self.now)) }
    {
        let mut text = String::from_str(alloc, self.first.as_str())?;
        for part in &self.others {
            text.push_str(" ")?;
            text.push_str(part.as_str())?;
        }
        Ok(text)
    }

    /// Writes a word and the parts, as many on each line as fit.
    fn add_lines(
        &self,
        alloc: Global,
        out: &mut String,
        paper: Paper,
        word: &str,
    ) -> Result<(), AllocError>
        ensures { OnOk result (string_bytes out.new ≡ string_bytes out.old
            ++ page_text paper.colour (side_runs paper.columns word.now (head_view self.now))) }
    {
        let mut first = String::from_str(alloc, word)?;
        first.push_str(self.first.as_str())?;
        add_parts(alloc, out, paper, first.as_str(), &self.others)
    }
}

/// Writes the header of each side on lines of its own.
fn add_each(
    alloc: Global,
    out: &mut String,
    paper: Paper,
    from: &Head,
    to: &Head,
) -> Result<(), AllocError>
    ensures { OnOk result (string_bytes out.new ≡ string_bytes out.old ++ page_text paper.colour
        (side_runs paper.columns (codes "from ") (head_view from.now)
        ++ side_runs paper.columns (codes "to ") (head_view to.now))) }
{
    from.add_lines(alloc, out, paper, "from ")?;
    to.add_lines(alloc, out, paper, "to ")
}

/// The headers of both sides, on one line.
fn both_text(alloc: Global, from: &Head, to: &Head) -> Result<String, AllocError>
    ensures { IfOk result (λ text. string_bytes text
        ≡ both_text (head_view from.now) (head_view to.now)) }
{
    let from = from.text(alloc)?;
    let to = to.text(alloc)?;
    format!(in alloc; "# from {from}  to {to}")
}

/// Writes the headers of both sides: on one line if they fit, and else on lines of their own.
fn add_apart(
    alloc: Global,
    out: &mut String,
    paper: Paper,
    from: &Head,
    to: &Head,
) -> Result<(), AllocError>
    ensures { OnOk result (string_bytes out.new ≡ string_bytes out.old ++ page_text paper.colour
        (apart_runs paper.columns (head_view from.now) (head_view to.now))) }
{
    let line = both_text(alloc, from, to)?;
    let line = line.as_str();
    if fits(alloc, paper.columns, &[Piece::Text(Style::Remark, line)])? {
        add_remark(out, paper.colour, line)
    } else {
        add_each(alloc, out, paper, from, to)
    }
}

/// Whether both sides have the same header.
fn is_same(alloc: Global, from: &Head, to: &Head) -> Result<bool, AllocError>
    ensures { IfOk result (λ is. is
        ≡ bytes_eq (one_text (head_view from.now)) (one_text (head_view to.now))) }
{
    let from = from.text(alloc)?;
    let to = to.text(alloc)?;
    Ok(from.as_str() == to.as_str())
}

/// Writes the header that both sides have, or else that of each.
fn add_both(
    alloc: Global,
    out: &mut String,
    paper: Paper,
    from: &Head,
    to: &Head,
) -> Result<(), AllocError>
    ensures { OnOk result (string_bytes out.new ≡ string_bytes out.old ++ page_text paper.colour
        (both_runs paper.columns (head_view from.now) (head_view to.now))) }
{
    if is_same(alloc, from, to)? {
        from.add_lines(alloc, out, paper, "")
    } else {
        add_apart(alloc, out, paper, from, to)
    }
}

/// Writes what is requested of each side.
fn add_asked(
    alloc: Global,
    out: &mut String,
    paper: Paper,
    from: &Asked,
    to: &Asked,
) -> Result<(), AllocError>
    ensures { OnOk result (string_bytes out.new ≡ string_bytes out.old ++ page_text paper.colour
        (both_runs paper.columns (asked_parts from.now) (asked_parts to.now))) }
{
    let from = asked_head(alloc, from)?;
    let to = asked_head(alloc, to)?;
    add_both(alloc, out, paper, &from, &to)
}

/// Writes the file of each side.
fn add_files(
    alloc: Global,
    out: &mut String,
    paper: Paper,
    from: &Side,
    to: &Side,
) -> Result<(), AllocError>
    ensures { OnOk result (string_bytes out.new ≡ string_bytes out.old ++ page_text paper.colour
        (both_runs paper.columns (file_parts from.now) (file_parts to.now))) }
{
    let from = file_head(alloc, from)?;
    let to = file_head(alloc, to)?;
    add_both(alloc, out, paper, &from, &to)
}

/// Writes what is requested of each side, and its file.
pub(crate) fn add_head(
    alloc: Global,
    out: &mut String,
    paper: Paper,
    diff: &Diff,
) -> Result<(), AllocError>
    ensures { OnOk result (string_bytes out.new ≡ string_bytes out.old
        ++ page_text paper.colour (head_runs paper.columns diff.now)) }
{
    add_asked(alloc, out, paper, &diff.from.asked, &diff.to.asked)?;
    add_files(alloc, out, paper, &diff.from, &diff.to)
}
