//! The JSON schemas of files and of documents, as a command prints them.
ghost use Rattle.std.specs.Prelude.{◌≡◌, ◌⊎◌, ◌++◌, [], ◌∷◌, flat_map};
ghost use Rattle.std.specs.Io.KnownBytes.{Appends};
ghost use Rattle.nextest_shape.specs.FileForm.{file_form};
ghost use Rattle.nextest_shape.specs.Page.{schema_data};
ghost use Rattle.serde_json.specs.Written.{compact_text};
ghost use Rattle.rinqebo_results.specs.Prefixes.{AppendsPrefix};
ghost use Rattle.rinqebo_results.specs.StandardError.{GetsNothing};

use nextest_shape::schema_page;
use rinqebo_report::DOCUMENT_SCHEMA;
use rinqebo_results::{Status, print_text, print_texts, refuse_for_memory};
use std::alloc::Global;
use std::io::Write;

/// Writes the JSON schema of a file, and returns the exit status. It reads no file.
pub fn print_schema<O: Write, E: Write>(alloc: Global, out: &mut O, err: &mut E) -> u8
    ensures status { (result ≡ 0) ⊎ (result ≡ 5) ⊎ (result ≡ 6) }
    ensures page { result ≡ 0 → Appends (O.contents out.old) (O.contents out.new)
        (compact_text (schema_data file_form) ++ 10 ∷ []) }
    ensures quiet { result ≡ 5 → O.contents out.new ≡ O.contents out.old }
    ensures begun { (O.contents out.new ≡ O.contents out.old)
        ⊎ AppendsPrefix (O.contents out.old) (O.contents out.new)
        (compact_text (schema_data file_form) ++ 10 ∷ []) }
    ensures errors { (result ≡ 6)
        ⊎ GetsNothing result (E.contents err.old) (E.contents err.new) }
{
    match schema_page(alloc) {
        Ok(text) => print_text(text.as_str(), Status::Success as u8, out),
        Err(_) => refuse_for_memory(err),
    }
}

/// Writes the JSON schema of the program's documents, and returns the exit status. It reads no file,
/// and takes no memory.
pub fn print_document_schema<O: Write>(out: &mut O) -> u8
    ensures status { (result ≡ 0) ⊎ (result ≡ 6) }
    ensures page { (result ≡ 6)
        ⊎ Appends (O.contents out.old) (O.contents out.new)
        (flat_map (λ part. part.now) DOCUMENT_SCHEMA) }
    ensures begun { AppendsPrefix (O.contents out.old) (O.contents out.new)
        (flat_map (λ part. part.now) DOCUMENT_SCHEMA) }
{
    print_texts(&DOCUMENT_SCHEMA, Status::Success as u8, out)
}
