//! The codes of findings, as a command prints them.
ghost use Rattle.std.specs.Prelude.{◌≡◌, ◌⊎◌, flat_map};
ghost use Rattle.std.specs.Io.KnownBytes.{Appends};
ghost use Rattle.rinqebo_report.specs.Codes.CodePages.{listed_text, page_text};
ghost use Rattle.rinqebo_report.specs.declared.codes.code.TheConstants.{CODES};
ghost use Rattle.rinqebo_results.specs.StandardError.{GetsNothing};

use rinqebo_report::{Code, code_page, codes_list};
use rinqebo_results::{Status, print_text, refuse_for_memory};
use std::alloc::Global;
use std::io::Write;

/// Writes the list of the codes of findings, and returns the exit status. It reads no file.
pub fn print_codes<O: Write, E: Write>(alloc: Global, out: &mut O, err: &mut E) -> u8
    ensures status { (result ≡ 0) ⊎ (result ≡ 5) ⊎ (result ≡ 6) }
    ensures page { result ≡ 0 → Appends (O.contents out.old) (O.contents out.new)
        (flat_map listed_text CODES) }
    ensures quiet { result ≡ 5 → O.contents out.new ≡ O.contents out.old }
    ensures errors { (result ≡ 6)
        ⊎ GetsNothing result (E.contents err.old) (E.contents err.new) }
{
    match codes_list(alloc) {
        Ok(text) => print_text(text.as_str(), Status::Success as u8, out),
        Err(_) => refuse_for_memory(err),
    }
}

/// Writes the page of a code, and returns the exit status. It reads no file.
pub fn print_code<O: Write, E: Write>(alloc: Global, code: Code, out: &mut O, err: &mut E) -> u8
    ensures status { (result ≡ 0) ⊎ (result ≡ 5) ⊎ (result ≡ 6) }
    ensures page { result ≡ 0 → Appends (O.contents out.old) (O.contents out.new)
        (page_text code) }
    ensures quiet { result ≡ 5 → O.contents out.new ≡ O.contents out.old }
    ensures errors { (result ≡ 6)
        ⊎ GetsNothing result (E.contents err.old) (E.contents err.new) }
{
    match code_page(alloc, code) {
        Ok(text) => print_text(text.as_str(), Status::Success as u8, out),
        Err(_) => refuse_for_memory(err),
    }
}
