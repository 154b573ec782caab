//! A report as a text.
ghost use Rattle.std.specs.Prelude.{◌≡◌, ◌++◌, OnOk, IfOk, string_bytes};
ghost use Rattle.rinqebo_report.specs.Groups.{grouped_content_runs};
ghost use Rattle.rinqebo_report.specs.Pages.{content_runs, findings_runs, concise_runs};
ghost use Rattle.rinqebo_report.specs.Pieces.{page_text};
ghost use Rattle.rinqebo_report.specs.Rendered.{rendered};

use crate::check_page::add_check;
use crate::config_page::add_config;
use crate::explain_page::add_explain;
use crate::finding_page::{add_concise, add_findings};
use crate::github::github_text;
use crate::group_page::add_grouped;
use crate::json_document::render_json;
use crate::layout::Paper;
use crate::list_page::add_list;
use crate::piece::Colour;
use crate::report::{Content, Report};
use crate::why_page::add_why;
use std::alloc::{AllocError, Global};

/// How a report is written.
#[derive(Clone, Copy)]
pub enum Format<'a> {
    /// The page of a command's result.
    Text,
    /// The same with the tests of a list in groups, each below what is reported of it.
    Grouped,
    /// One document of JSON, on a line.
    Json,
    /// The findings, a line each, with what is expected and the help.
    Concise,
    /// The findings as commands of GitHub's workflows, with paths below the folder in which a
    /// workflow runs: the empty text, where that is not known.
    Github(&'a str),
}

/// Writes the page of a command's result.
fn add_content(
    alloc: Global,
    out: &mut String,
    paper: Paper,
    report: &Report,
) -> Result<(), AllocError>
    ensures { OnOk result (string_bytes out.new ≡ string_bytes out.old ++ page_text paper.colour
        (content_runs paper.columns report.now report.now.content)) }
{
    let root = report.root.as_str();
    let sources = report.sources.as_slice();
    match &report.content {
        Content::Explain { asked, test } => {
            add_explain(alloc, out, paper, root, sources, asked, test)
        }
        Content::Why {
            key,
            rules,
            is_ignored,
            ..
        } => {
            let key = key.as_str();
            add_why(alloc, out, paper, root, sources, key, rules, *is_ignored)
        }
        Content::List {
            asked,
            tests,
            unused,
            ..
        } => add_list(alloc, out, paper, root, sources, asked, tests, unused),
        Content::ShowConfig { entries, .. } => {
            add_config(alloc, out, paper, root, sources, entries)
        }
        Content::Check => add_check(alloc, out, paper.colour, report),
    }
}

/// The page of a command's result.
fn content_text(alloc: Global, report: &Report, paper: Paper) -> Result<String, AllocError>
    ensures { IfOk result (λ text. string_bytes text ≡ page_text paper.colour
        (content_runs paper.columns report.now report.now.content)) }
{
    let mut text = String::new(alloc);
    add_content(alloc, &mut text, paper, report)?;
    Ok(text)
}

/// Writes the page of a command's result, with the tests of a list in groups.
fn add_grouped_content(
    alloc: Global,
    out: &mut String,
    paper: Paper,
    report: &Report,
) -> Result<(), AllocError>
    ensures { OnOk result (string_bytes out.new ≡ string_bytes out.old ++ page_text paper.colour
        (grouped_content_runs paper.columns report.now report.now.content)) }
{
    match &report.content {
        Content::List {
            asked,
            tests,
            unused,
            ..
        } => {
            let root = report.root.as_str();
            let sources = report.sources.as_slice();
            add_grouped(alloc, out, paper, root, sources, asked, tests, unused)
        }
        Content::Explain { .. }
        | Content::Why { .. }
        | Content::ShowConfig { .. }
        | Content::Check => add_content(alloc, out, paper, report),
    }
}

/// The page of a command's result, with the tests of a list in groups.
fn grouped_text(alloc: Global, report: &Report, paper: Paper) -> Result<String, AllocError>
    ensures { IfOk result (λ text. string_bytes text ≡ page_text paper.colour
        (grouped_content_runs paper.columns report.now report.now.content)) }
{
    let mut text = String::new(alloc);
    add_grouped_content(alloc, &mut text, paper, report)?;
    Ok(text)
}

/// The findings, a line each.
fn concise_text(alloc: Global, report: &Report, colour: Colour) -> Result<String, AllocError>
    ensures { IfOk result (λ text. string_bytes text ≡ page_text colour (concise_runs report.now)) }
{
    let mut text = String::new(alloc);
    add_concise(alloc, &mut text, colour, report)?;
    Ok(text)
}

/// The findings of a report alone, as its page shows them.
pub fn render_findings(alloc: Global, report: &Report, colour: Colour) -> Result<String, AllocError>
    ensures { IfOk result (λ text. string_bytes text
        ≡ page_text colour (findings_runs report.now)) }
{
    let mut text = String::new(alloc);
    add_findings(alloc, &mut text, colour, report)?;
    Ok(text)
}

/// A report in a format, on paper. Only pages have colours, and only the pages of commands have
/// columns.
pub fn render(
    alloc: Global,
    report: &Report,
    format: Format<'_>,
    paper: Paper,
) -> Result<String, AllocError>
    ensures { IfOk result (λ text. string_bytes text ≡ rendered report.now format.entry paper) }
{
    match format {
        Format::Text => content_text(alloc, report, paper),
        Format::Grouped => grouped_text(alloc, report, paper),
        Format::Json => render_json(alloc, report),
        Format::Concise => concise_text(alloc, report, paper.colour),
        Format::Github(workspace) => github_text(alloc, workspace, report),
    }
}
