//! Places that others are made of.
ghost use Rattle.std.specs.Prelude.{◌≡◌, IfOk, None, map};
ghost use Rattle.nextest_tree.specs.Schema.{append_fields, fields, are_noted, list_of, map_of, struct};
ghost use Rattle.nextest_shape.specs.Faults.Places.{leaf_schema, names_test, field_view, fields_view, place_view};
ghost use Rattle.nextest_shape.specs.declared.faults.across.Need.TheVariants as needs;

use crate::faults::across::{Across, AcrossItems, Names, Need};
use crate::faults::leaf::Leaf;
use crate::faults::place::{Field, Others, Place};
use nextest_tree::Key;
use std::alloc::{AllocError, Global};

/// A value of a kind.
pub(crate) fn value(kind: Leaf) -> Place
    ensures { place_view result ≡ leaf_schema kind }
{
    Place::Leaf(kind)
}

/// A field that may be absent.
pub(crate) fn may(key: Key, place: Place) -> Field<Place>
    ensures { field_view result
        ≡ record { key = key; need = needs.May; place = place_view place } }
{
    Field {
        key,
        need: Need::May,
        place,
    }
}

/// A field that has to be there.
pub(crate) fn must(key: Key, place: Place) -> Field<Place>
    ensures { field_view result
        ≡ record { key = key; need = needs.Must; place = place_view place } }
{
    Field {
        key,
        need: Need::Must,
        place,
    }
}

/// A table of fields that notes its other keys; what is not a table has another place.
pub(crate) fn table_or(
    alloc: Global,
    other: Place,
    known: Vec<Field<Place>>,
) -> Result<Place, AllocError>
    ensures { IfOk result (λ place. place_view place
        ≡ fields are_noted (place_view other) (fields_view known.items) (λ es. None)) }
{
    Ok(Place::Table {
        others: Others::Noted,
        other: Box::new(alloc, other)?,
        fields: known,
        across: Across::Nothing,
    })
}

/// A table of fields that notes its other keys.
pub(crate) fn table(alloc: Global, fields: Vec<Field<Place>>) -> Result<Place, AllocError>
    ensures { IfOk result (λ place. place_view place ≡ struct (fields_view fields.items)) }
{
    table_or(alloc, value(Leaf::Table), fields)
}

/// A list of items.
pub(crate) fn list(alloc: Global, items: Place) -> Result<Place, AllocError>
    ensures { IfOk result (λ place. place_view place ≡ list_of (place_view items)) }
{
    Ok(Place::List {
        other: Box::new(alloc, value(Leaf::Array))?,
        items: Box::new(alloc, items)?,
        across: AcrossItems::Nothing,
    })
}

/// A table of values under names.
pub(crate) fn map_by(alloc: Global, names: Names, values: Place) -> Result<Place, AllocError>
    ensures { IfOk result (λ place. place_view place
        ≡ map_of (names_test names) (place_view values)) }
{
    Ok(Place::Map {
        names,
        values: Box::new(alloc, values)?,
    })
}

/// Some fields, and then others.
pub(crate) fn joined(
    fields: Vec<Field<Place>>,
    more: Vec<Field<Place>>,
) -> Result<Vec<Field<Place>>, AllocError>
    ensures { IfOk result (λ all. fields_view all.items
        ≡ append_fields (fields_view fields.items) (fields_view more.items)) }
{
    let mut all = fields;
    for field in more {
        all.push(field)?;
    }
    Ok(all)
}
