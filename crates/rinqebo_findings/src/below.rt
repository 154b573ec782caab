//! What a lower file makes of a table that lacks a key.
ghost use Rattle.std.specs.Prelude.{◌≡◌, ℕ, IfOk, List, Option, map, option_map, string_bytes};
ghost use Rattle.std.specs.Option.{option_copied};
ghost use Rattle.nextest_tree.specs.View.{tree_view};
ghost use Rattle.rinqebo_faults.specs.Elements.{as_list};
ghost use Rattle.rinqebo_findings.specs.Sources.{file_at};
ghost use Rattle.rinqebo_findings.specs.Words.{IsBelowNote, IsNoteBy};

use crate::findings::SourceAt;
use crate::given::highest_below;
use nextest_places::Step;
use nextest_tree::Tree;
use rinqebo_faults::{called, kind_words};
use rinqebo_request::{Layer, SpanPart, part_place};
use std::alloc::{AllocError, Global};

/// The path of the file of a layer, if it is one.
pub fn file_at<'l>(layers: &'l [Layer<'_>], place: usize) -> Option<&'l str>
    ensures { option_copied result ≡ file_at layers.now place }
{
    match &layers.get(place)?.source.path {
        Some(path) => Some(path.as_str()),
        None => None,
    }
}

/// The note that a layer writes something else than a table at the path of a table that lacks a
/// key, so that nothing is left of the tables below it. Only a file has it.
fn note_of(
    alloc: Global,
    layers: &[Layer<'_>],
    place: usize,
    found: &Tree,
    path: &[Step<'_>],
) -> Result<Option<String>, AllocError>
    ensures { IfOk result (λ note. IsNoteBy layers.now path.now place (tree_view found.now)
        (file_at layers.now place) (option_map string_bytes note)) }
{
    let Some(file) = file_at(layers, place) else {
        return Ok(None);
    };
    let Some(lines) = part_place(layers, place, path, SpanPart::Value).lines else {
        return Ok(None);
    };
    let name = called(alloc, path)?;
    let kind = kind_words(found);
    let line = lines.first;
    Ok(Some(format!(in alloc;
        "{name} is {kind} in line {line} of {file}, which leaves nothing of the tables below it"
    )?))
}

/// The note that the highest lower file that writes the path of a table which lacks a key writes
/// something else than a table there.
fn below_note(
    alloc: Global,
    source: SourceAt<'_, '_>,
    path: &[Step<'_>],
) -> Result<Option<String>, AllocError>
    ensures { IfOk result (λ note. IsBelowNote source.entry.layers.now source.entry.position
        path.now (option_map string_bytes note)) }
{
    let Some(position) = source.position else {
        return Ok(None);
    };
    match highest_below(source.layers, position, path) {
        Some((_, Tree::Table(_))) | None => Ok(None),
        Some((place, found)) => note_of(alloc, source.layers, place, found, path),
    }
}

/// The notes about what a lower file writes at the path of a table that lacks a key.
pub fn below_notes(
    alloc: Global,
    source: SourceAt<'_, '_>,
    path: &[Step<'_>],
) -> Result<Vec<String>, AllocError>
    ensures { IfOk result (λ notes. (below : Option (List ℕ))
        × IsBelowNote source.entry.layers.now source.entry.position path.now below
        × (map string_bytes notes.items ≡ as_list below)) }
{
    let mut notes = Vec::new(alloc);
    if let Some(note) = below_note(alloc, source, path)? {
        notes.push(note)?;
    }
    Ok(notes)
}
