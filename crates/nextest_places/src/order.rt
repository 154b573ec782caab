//! The order of the ids of a table.
ghost use Rattle.std.specs.Prelude.{◌≡◌, ◌≤◌, ◌++◌, ◌∷◌, ◌⊎◌, [], true, IfOk, IsSome, Some, map, string_bytes};
ghost use Rattle.std.specs.List.{AllByRecursion};
ghost use Rattle.nextest_tree.specs.View.{tree_view};
ghost use Rattle.nextest_documents.specs.Text.{tree_of};
ghost use Rattle.nextest_places.specs.declared.step.Step.TheVariants as steps;
ghost use Rattle.nextest_places.specs.Ids.{AreStepsOf, lines_for, placed_id};
ghost use Rattle.nextest_places.specs.Index.{IsWalked, LeadToEnd, lines_behind};
ghost use Rattle.nextest_places.specs.Lines.{line_count};
ghost use Rattle.nextest_places.specs.Order.{IsOrder, IsPlace};
ghost use Rattle.nextest_places.specs.Search.{IsDocument};
ghost use Rattle.nextest_places.specs.Standing.{ids_view, key_path_view, stands_in};

use crate::entry::Entry;
use crate::fronts::{Front, Fronts, fronts_behind};
use crate::id_lines::{IdLines, Wanted};
use crate::ids::ids_of;
use crate::index::lines_by_fronts;
use crate::place::Lines;
use crate::step::Step;
use crate::walk::entries_of;
use nextest_tree::{Key, Tree};
use std::alloc::{AllocError, Global};

/// The ids that a text defines at a path, in the order in which it defines them. `document` is the
/// text's own tree.
///
/// An id has the place of its path. Ids with one place, as in an inline table, are in the order of
/// their bytes. Where there are fewer than two ids the text is not read again. Else it is read
/// expression by expression, until each id has its place.
pub fn ids_in_order(
    alloc: Global,
    text: &str,
    document: &Tree,
    path: &[Key],
) -> Result<Vec<String>, AllocError>
    requires { tree_of text.now ≡ Some (tree_view document.now) }
    ensures declared { IfOk result (λ ids.
        IsOrder (key_path_view path.now) text.now (ids_view ids)) }
{
    let ids = ids_of(alloc, document, path)?;
    if ids.len() < 2 {
        return Ok(ids);
    }
    let mut placed = placed_ids(alloc, text, path, ids)?;
    placed.sort_by_key(|id| id.last)?;
    ids_alone(alloc, placed)
}

/// The steps along some keys.
fn steps_of(alloc: Global, path: &[Key]) -> Result<Vec<Step<'static>>, AllocError>
    ensures { IfOk result (λ steps. AreStepsOf (key_path_view path.now) steps.items) }
{
    let mut steps = Vec::new(alloc);
    for key in path {
        steps.push(Step::Key(key.text()))?;
    }
    Ok(steps)
}

/// An id with the last line of its place.
#[derive(Drop)]
pub(crate) struct PlacedId {
    pub(crate) id: String,
    pub(crate) last: usize,
}

/// The ids of a table with their places in the text.
fn placed_ids(
    alloc: Global,
    text: &str,
    path: &[Key],
    ids: Vec<String>,
) -> Result<Vec<PlacedId>, AllocError>
    requires whole { IsDocument text.now (line_count text.now) }
    requires stand { AllByRecursion
        (λ id. stands_in (key_path_view path.now) text.now id ≡ true) (ids_view ids) }
    ensures ids { IfOk result (λ placed. map placed_id placed.items ≡ ids_view ids) }
    ensures places { IfOk result (λ placed. AllByRecursion
        (λ id. IsPlace (key_path_view path.now) text.now (placed_id id) id.last) placed.items) }
{
    let table = steps_of(alloc, path)?;
    let (entries, low) = wanted_entries(alloc, text, &table, &ids)?;
    let found = IdLines::of(alloc, &entries, &table)?;
    let (fronts, rest) = behind_entries(alloc, text, low, &found, &ids)?;
    let mut placed = Vec::new(alloc);
    for id in ids {
        let last = match found.get(&id) {
            Some(lines) => lines.last,
            None => last_line_behind(alloc, &fronts, rest, &table, &id)?,
        };
        placed.push(PlacedId { id, last })?;
    }
    Ok(placed)
}

/// The expressions of a text, as far as they are read to find the ids of a table.
fn wanted_entries(
    alloc: Global,
    text: &str,
    table: &[Step],
    ids: &[String],
) -> Result<(Vec<Entry>, usize), AllocError>
    requires { IsDocument text.now (line_count text.now) }
    ensures { IfOk result (λ walked. IsWalked text.now walked.0.items walked.1) }
{
    let mut wanted = Wanted::of_table(alloc, table, ids)?;
    entries_of(alloc, text, &mut wanted)
}

/// The fronts of a text behind its entries, and the lines behind these. Where the entries bring all
/// of the ids, none are read.
fn behind_entries(
    alloc: Global,
    text: &str,
    low: usize,
    found: &IdLines,
    ids: &[String],
) -> Result<(Vec<Front>, Lines), AllocError>
    requires { low ≤ line_count text.now }
    ensures { IfOk result (λ behind.
        AllByRecursion (λ id. IsSome (lines_for found.now (string_bytes id))) ids.now
        ⊎ LeadToEnd text.now low behind.0.items behind.1) }
{
    if found.have_all(ids) {
        let none = Lines { first: 1, last: 0 };
        return Ok((Vec::new(alloc), none));
    }
    fronts_behind(alloc, &Fronts::of(alloc, text)?, low)
}

/// The last line of the place of an id that no entry brings.
fn last_line_behind<'a>(
    alloc: Global,
    fronts: &[Front],
    rest: Lines,
    table: &[Step<'a>],
    id: &'a str,
) -> Result<usize, AllocError>
    ensures { IfOk result (λ last.
        last ≡ (lines_behind fronts.now rest (table.now ++ steps.Key id.entry ∷ [])).last) }
{
    let mut path = Vec::from_slice(alloc, table)?;
    path.push(Step::Key(id))?;
    Ok(lines_by_fronts(fronts, &path).unwrap_or(rest).last)
}

/// The ids without their places.
fn ids_alone(alloc: Global, placed: Vec<PlacedId>) -> Result<Vec<String>, AllocError>
    ensures { IfOk result (λ ids. ids_view ids ≡ map placed_id placed.items) }
{
    let mut ids = Vec::new(alloc);
    for placed_id in placed {
        ids.push(placed_id.id)?;
    }
    Ok(ids)
}
