//! The page of a check: what is wrong, and how much.
ghost use Rattle.std.specs.Prelude.{◌≡◌, ◌++◌, OnOk, IfOk, count_by, flat_map, string_bytes};
ghost use Rattle.rinqebo_report.specs.Pages.{is_error, is_warning, unreached_text, counts_text, summary_text, check_runs};
ghost use Rattle.rinqebo_report.specs.Pieces.{page_text};

use crate::finding::Finding;
use crate::finding_page::add_findings;
use crate::layout::add_joined;
use crate::origin::Source;
use crate::origin_text::path_at;
use crate::piece::{Colour, Piece, Style, add_pieces};
use crate::report::{Report, Unreached};
use std::alloc::{AllocError, Global};

/// How many findings refuse.
pub(crate) fn errors_of(findings: &[Finding]) -> usize
    ensures { result ≡ count_by is_error findings.now }
{
    let mut errors = 0usize;
    for finding in findings {
        if finding.level.is_refusal() {
            errors += 1;
        }
    }
    errors
}

/// How many findings only warn.
pub(crate) fn warnings_of(findings: &[Finding]) -> usize
    ensures { result ≡ count_by is_warning findings.now }
{
    let mut warnings = 0usize;
    for finding in findings {
        if !finding.level.is_refusal() {
            warnings += 1;
        }
    }
    warnings
}

/// Writes the checks of a source that were not reached.
fn add_unreached(
    out: &mut String,
    root: &str,
    sources: &[Source],
    unreached: &Unreached,
) -> Result<(), AllocError>
    ensures { OnOk result (string_bytes out.new
        ≡ string_bytes out.old ++ unreached_text root.now sources.now unreached.now) }
{
    out.push_str("; not reached in ")?;
    out.push_str(path_at(root, sources, unreached.source))?;
    out.push_str(": ")?;
    add_joined(out, &unreached.checks)
}

/// Writes the checks of sources that were not reached.
fn add_all_unreached(
    out: &mut String,
    root: &str,
    sources: &[Source],
    all: &[Unreached],
) -> Result<(), AllocError>
    ensures { OnOk result (string_bytes out.new ≡ string_bytes out.old
        ++ flat_map (unreached_text root.now sources.now) all.now) }
{
    for unreached in all {
        add_unreached(out, root, sources, unreached)?;
    }
    Ok(())
}

/// How many findings refuse, and how many only warn.
fn counts_text(alloc: Global, findings: &[Finding]) -> Result<String, AllocError>
    ensures { IfOk result (λ text. string_bytes text ≡ counts_text findings.now) }
{
    let errors = errors_of(findings);
    let warnings = warnings_of(findings);
    format!(in alloc; "errors: {errors}, warnings: {warnings}")
}

/// How many findings there are, and which checks were not reached.
fn summary_text(alloc: Global, report: &Report) -> Result<String, AllocError>
    ensures { IfOk result (λ text. string_bytes text ≡ summary_text report.now) }
{
    let mut text = counts_text(alloc, &report.findings)?;
    let root = report.root.as_str();
    add_all_unreached(&mut text, root, &report.sources, &report.unreached)?;
    Ok(text)
}

/// Writes the page of a check.
pub(crate) fn add_check(
    alloc: Global,
    out: &mut String,
    colour: Colour,
    report: &Report,
) -> Result<(), AllocError>
    ensures { OnOk result (string_bytes out.new ≡ string_bytes out.old
        ++ page_text colour (check_runs report.now)) }
{
    add_findings(alloc, out, colour, report)?;
    let summary = summary_text(alloc, report)?;
    add_pieces(
        out,
        colour,
        &[Piece::Text(Style::Plain, summary.as_str()), Piece::End],
    )
}
