//! The pages of codes, their list, and the document that has the pages of all.
ghost use Rattle.std.specs.Prelude.{◌≡◌, ◌++◌, IfOk, OnOk, flat_map, map, option_map, string_bytes};
ghost use Rattle.rinqebo_report.specs.Codes.CodePages.{paragraph, example_text, upstream_text, body_text, page_text, listed_text, section_text, document_head};

use crate::codes::code::{CODES, Code};
use std::alloc::{AllocError, Global};
use std::fmt::Write;

/// What the document of all codes begins with.
const DOCUMENT_HEAD: &str = "\
# Findings

Each finding has a code: a word in brackets behind its level. `rinqebo check --explain CODE` prints
what a code means, and `rinqebo check --codes` lists all.
";

/// Writes the lines of an example, and an empty line behind them.
fn add_example(out: &mut String, lines: &[&str]) -> Result<(), AllocError>
    ensures { OnOk result (string_bytes out.new
        ≡ string_bytes out.old ++ example_text (map (λ line. line.now) lines.now)) }
{
    for line in lines {
        out.push_str("    ")?;
        out.push_str(*line)?;
        out.push_str("\n")?;
    }
    out.push_str("\n")
}

/// Writes a paragraph, and an empty line behind it.
fn add_paragraph(out: &mut String, text: &str) -> Result<(), AllocError>
    ensures { OnOk result (string_bytes out.new ≡ string_bytes out.old ++ paragraph text.now) }
{
    out.push_str(text)?;
    out.push_str("\n\n")
}

/// Writes the name that nextest-runner has for a code, if it has one.
fn add_upstream(out: &mut String, upstream: Option<&str>) -> Result<(), AllocError>
    ensures { OnOk result (string_bytes out.new ≡ string_bytes out.old
        ++ upstream_text (option_map (λ name. name.now) upstream.entry)) }
{
    match upstream {
        Some(name) => write!(out, "In nextest-runner: `{name}`.\n"),
        None => out.push_str("A finding of `rinqebo` alone.\n"),
    }
}

/// Writes what a code means, an example, what to do, and the example corrected.
fn add_body(out: &mut String, code: Code) -> Result<(), AllocError>
    ensures { OnOk result (string_bytes out.new ≡ string_bytes out.old ++ body_text code) }
{
    add_paragraph(out, code.meaning())?;
    add_example(out, code.example())?;
    add_paragraph(out, code.advice())?;
    add_example(out, code.correction())?;
    add_upstream(out, code.upstream())
}

/// Returns the page of a code.
pub fn code_page(alloc: Global, code: Code) -> Result<String, AllocError>
    ensures { IfOk result (λ text. string_bytes text ≡ page_text code) }
{
    let mut text = String::new(alloc);
    add_paragraph(&mut text, code.word())?;
    add_body(&mut text, code)?;
    Ok(text)
}

/// Writes a code in the list of codes.
fn add_listed(out: &mut String, code: Code) -> Result<(), AllocError>
    ensures { OnOk result (string_bytes out.new ≡ string_bytes out.old ++ listed_text code) }
{
    out.push_str(code.word())?;
    out.push_str(": ")?;
    out.push_str(code.meaning())?;
    out.push_str("\n")
}

/// Returns a list of codes, a line each.
fn list_of(alloc: Global, all: &[Code]) -> Result<String, AllocError>
    ensures { IfOk result (λ text. string_bytes text ≡ flat_map listed_text all.now) }
{
    let mut text = String::new(alloc);
    for code in all {
        add_listed(&mut text, *code)?;
    }
    Ok(text)
}

/// Returns the list of all codes, a line each.
pub fn codes_list(alloc: Global) -> Result<String, AllocError>
    ensures { IfOk result (λ text. string_bytes text ≡ flat_map listed_text CODES) }
{
    list_of(alloc, &CODES)
}

/// Writes a code in the document of all codes.
fn add_section(out: &mut String, code: Code) -> Result<(), AllocError>
    ensures { OnOk result (string_bytes out.new ≡ string_bytes out.old ++ section_text code) }
{
    out.push_str("\n## `")?;
    out.push_str(code.word())?;
    out.push_str("`\n\n")?;
    add_body(out, code)
}

/// Returns the document that has the pages of codes.
#[tactic(auto, unfolding(crate::specs::Codes::CodePages::document_head))]
fn document_of(alloc: Global, all: &[Code]) -> Result<String, AllocError>
    ensures { IfOk result (λ text. string_bytes text
        ≡ document_head ++ flat_map section_text all.now) }
{
    let mut text = String::from_str(alloc, DOCUMENT_HEAD)?;
    for code in all {
        add_section(&mut text, *code)?;
    }
    Ok(text)
}

/// Returns the document that has the pages of all codes, in Markdown.
pub fn codes_document(alloc: Global) -> Result<String, AllocError>
    ensures { IfOk result (λ text. string_bytes text
        ≡ document_head ++ flat_map section_text CODES) }
{
    document_of(alloc, &CODES)
}
