//! Headers of pages: lines of parts, as many on each line as fit.
ghost use Rattle.std.specs.Prelude.{◌≡◌, ◌++◌, OnOk, IfOk, map, string_bytes};
ghost use Rattle.rinqebo_report.specs.Headers.{has_room, line_with, ended_runs, header_runs};
ghost use Rattle.rinqebo_report.specs.Pieces.{page_text};

use crate::layout::{Paper, add_remark, fits};
use crate::piece::{Colour, Piece, Style};
use std::alloc::{AllocError, Global};

/// Whether a line of a header has room for one more part.
fn has_room(alloc: Global, columns: usize, line: &str, part: &str) -> Result<bool, AllocError>
    ensures { IfOk result (λ has. has ≡ has_room columns line.now part.now) }
{
    let longer = format!(in alloc; "{line} {part}")?;
    fits(
        alloc,
        columns,
        &[Piece::Text(Style::Remark, longer.as_str())],
    )
}

/// Returns a line of a header with one more part. If there is no room for it, writes the line,
/// and returns another one with the part.
fn add_part(
    alloc: Global,
    out: &mut String,
    paper: Paper,
    line: &str,
    part: &str,
) -> Result<String, AllocError>
    ensures written { OnOk result (string_bytes out.new ≡ string_bytes out.old
        ++ page_text paper.colour (ended_runs paper.columns line.now part.now)) }
    ensures line { IfOk result (λ next.
        string_bytes next ≡ line_with paper.columns line.now part.now) }
{
    if has_room(alloc, paper.columns, line, part)? {
        format!(in alloc; "{line} {part}")
    } else {
        add_remark(out, paper.colour, line)?;
        format!(in alloc; "# {part}")
    }
}

/// Writes a header: lines that begin with a number sign, with as many parts on each as fit.
pub(crate) fn add_header(
    alloc: Global,
    out: &mut String,
    paper: Paper,
    first: &str,
    others: &[String],
) -> Result<(), AllocError>
    ensures { OnOk result (string_bytes out.new ≡ string_bytes out.old
        ++ page_text paper.colour (header_runs paper.columns first.now
        (map string_bytes others.now))) }
{
    let mut line = format!(in alloc; "# {first}")?;
    for part in others {
        line = add_part(alloc, out, paper, line.as_str(), part.as_str())?;
    }
    add_remark(out, paper.colour, line.as_str())
}
