//! Leaves of a configuration as they are reported.
ghost use Rattle.std.specs.Prelude.{◌≡◌, ◌++◌, Some, false, IfOk, MatchOption, map, option_map};
ghost use Rattle.nextest_documents.specs.Entries.{leaf_view};
ghost use Rattle.nextest_documents.specs.Layers.{keys_view};
ghost use Rattle.nextest_documents.specs.Sections.{base_path, section_view};
ghost use Rattle.nextest_tree.specs.View.{tree_view};
ghost use Rattle.rinqebo_origins.specs.LeafValue.{is_tellable};
ghost use Rattle.rinqebo_origins.specs.ReportedEntries.{step_key, profile_of, IsOriginOf, IsEntryOf};

use crate::leaf_value::reported_value;
use nextest_documents::{LayerLeaf, Section, key_text};
use nextest_places::Step;
use rinqebo_report::{FilePlace, Origin, Part, Written};
use std::alloc::{AllocError, Global};

/// The path of the table that has a section.
fn base_steps<'t>(alloc: Global, section: Section<'t>) -> Result<Vec<Step<'t>>, AllocError>
    ensures { IfOk result (λ steps. map step_key steps.items
        ≡ map Some (base_path (section_view section.entry))) }
{
    let mut steps = Vec::new(alloc);
    if let Section::Profile { name, .. } = section {
        steps.push(Step::Key("profile"))?;
        steps.push(Step::Key(name))?;
    }
    Ok(steps)
}

/// The path of a leaf from the root of its layer on: there its lines are looked for.
pub fn steps_of<'t>(alloc: Global, entry: &LayerLeaf<'t>) -> Result<Vec<Step<'t>>, AllocError>
    ensures { IfOk result (λ steps. map step_key steps.items
        ≡ map Some (base_path (section_view entry.now.section) ++ keys_view entry.now.path.items)) }
{
    let mut steps = base_steps(alloc, entry.section)?;
    for key in &entry.path {
        steps.push(Step::Key(*key))?;
    }
    Ok(steps)
}

/// The name of the profile that has a leaf, if one has it.
fn profile_name<'t>(entry: &LayerLeaf<'t>) -> Option<&'t str>
    ensures { option_map (λ name. name.now) result
        ≡ profile_of (section_view entry.now.section) }
{
    match entry.section {
        Section::Profile { name, .. } => Some(name),
        Section::Beside => None,
    }
}

/// What writes a leaf. The lowest layer is the table of defaults.
fn origin_of(alloc: Global, entry: &LayerLeaf<'_>, place: FilePlace) -> Result<Origin, AllocError>
    ensures { IfOk result (IsOriginOf (leaf_view entry.now) place) }
{
    if entry.layer == 0 {
        return Ok(Origin::DefaultTable);
    }
    match profile_name(entry) {
        Some(name) => Ok(Origin::Written(Written {
            place,
            profile: String::from_str(alloc, name)?,
            part: Part::Fields,
        })),
        None => Ok(Origin::File(place)),
    }
}

/// A leaf, as it is reported, with the place at which it is in its file. There is none where its
/// value can't be reported.
pub fn reported_entry(
    alloc: Global,
    entry: &LayerLeaf<'_>,
    place: FilePlace,
) -> Result<Option<rinqebo_report::Entry>, AllocError>
    ensures { IfOk result (λ told. MatchOption told
        (is_tellable (tree_view entry.now.value.now) ≡ false)
        (IsEntryOf (leaf_view entry.now) place)) }
{
    let Some(value) = reported_value(alloc, entry.value)? else {
        return Ok(None);
    };
    Ok(Some(rinqebo_report::Entry {
        key: key_text(alloc, &entry.path)?,
        value,
        origin: origin_of(alloc, entry, place)?,
        is_hidden: entry.is_hidden,
    }))
}
