//! Writes texts to the streams of a run, and returns exit statuses.
ghost use Rattle.std.specs.Prelude.{◌≡◌, ◌⊎◌, MatchResult, flat_map, string_bytes};
ghost use Rattle.std.specs.Io.KnownBytes.{Appends};
ghost use Rattle.rinqebo_report.specs.Pages.{findings_runs};
ghost use Rattle.rinqebo_report.specs.Pieces.{page_text};
ghost use Rattle.rinqebo_results.specs.Prefixes.{AppendsPrefix};
ghost use Rattle.rinqebo_results.specs.StandardError.{memory_message};

use crate::status::Status;
use crate::streams::{write_texts, write_whole};
use rinqebo_report::{Colour, Report, render_findings};
use std::alloc::{AllocError, Global};
use std::io::Write;

/// Writes a text, and returns a status, or 6 where a write fails. A prefix of the text went out
/// then.
pub fn print_text<W: Write>(text: &str, status: u8, out: &mut W) -> u8
    ensures status { (result ≡ status) ⊎ (result ≡ 6) }
    ensures written { (result ≡ 6) ⊎ Appends (W.contents out.old) (W.contents out.new) text.now }
    ensures begun { AppendsPrefix (W.contents out.old) (W.contents out.new) text.now }
{
    match write_whole(text, out) {
        Ok(()) => status,
        Err(_) => Status::Write as u8,
    }
}

/// Writes texts one after another, and returns a status, or 6 where a write fails. A prefix of the
/// texts went out then.
pub fn print_texts<W: Write>(texts: &[&str], status: u8, out: &mut W) -> u8
    ensures status { (result ≡ status) ⊎ (result ≡ 6) }
    ensures written { (result ≡ 6) ⊎ Appends (W.contents out.old) (W.contents out.new)
        (flat_map (λ text. text.now) texts.now) }
    ensures begun { AppendsPrefix (W.contents out.old) (W.contents out.new)
        (flat_map (λ text. text.now) texts.now) }
{
    match write_texts(texts, out) {
        Ok(()) => status,
        Err(_) => Status::Write as u8,
    }
}

/// The message of a run that ends because memory ran out.
const OUT_OF_MEMORY: &str = "error: out of memory\n";

/// Reports that memory ran out, without taking any, and returns the exit status: 5, or 6 where the
/// message can't be written.
pub fn refuse_for_memory<E: Write>(err: &mut E) -> u8
    ensures status { (result ≡ 5) ⊎ (result ≡ 6) }
    ensures message { (result ≡ 6)
        ⊎ Appends (E.contents err.old) (E.contents err.new) memory_message }
{
    print_text(OUT_OF_MEMORY, Status::Memory as u8, err)
}

/// Reports the findings for which a run has no result.
pub fn refuse_with<E: Write>(
    alloc: Global,
    report: &Report,
    colour: Colour,
    status: u8,
    err: &mut E,
) -> u8
    ensures status { (result ≡ status) ⊎ (result ≡ 5) ⊎ (result ≡ 6) }
    ensures errors { (result ≡ 6)
        ⊎ ((result ≡ status) × Appends (E.contents err.old) (E.contents err.new)
        (page_text colour (findings_runs report.now)))
        ⊎ ((result ≡ 5) × Appends (E.contents err.old) (E.contents err.new) memory_message) }
{
    match render_findings(alloc, report, colour) {
        Ok(page) => print_text(page.as_str(), status, err),
        Err(_) => refuse_for_memory(err),
    }
}

/// Reports a message, and returns a status.
pub fn refuse_message<E: Write>(message: Result<String, AllocError>, status: u8, err: &mut E) -> u8
    ensures status { (result ≡ status) ⊎ (result ≡ 5) ⊎ (result ≡ 6) }
    ensures errors { (result ≡ 6) ⊎ MatchResult message
        (λ text. (result ≡ status)
        × Appends (E.contents err.old) (E.contents err.new) (string_bytes text))
        (λ _. (result ≡ 5) × Appends (E.contents err.old) (E.contents err.new) memory_message) }
{
    match message {
        Ok(text) => print_text(text.as_str(), status, err),
        Err(_) => refuse_for_memory(err),
    }
}
