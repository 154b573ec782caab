//! Reading strings of a JSON value as copies.
ghost use Rattle.std.specs.Prelude.{option_map, string_bytes};
ghost use Rattle.serde_json.specs.Find.{as_str};
ghost use Rattle.serde_json.specs.View.{view};
ghost use Rattle.filter_inputs.specs.Fields.Parts.{optional_text, under};
ghost use Rattle.rinqebo_forms.specs.Reading.{Reads};

use crate::fault::{FieldPlace, RequestFault};
use serde_json::Value;
use std::alloc::Global;

/// Reads the string at a path, and returns a copy.
pub fn string_at(alloc: Global, value: &Value, place: FieldPlace) -> Result<String, RequestFault>
    ensures { Reads string_bytes result (under as_str place.key.now (view value.now)) }
{
    let text = place.of(value).text()?;
    Ok(String::from_str(alloc, text)?)
}

/// Reads the string at a path, and returns a copy, or `None` for `null`.
pub fn optional_string_at(
    alloc: Global,
    value: &Value,
    place: FieldPlace,
) -> Result<Option<String>, RequestFault>
    ensures { Reads (λ text. option_map string_bytes text) result
        (under optional_text place.key.now (view value.now)) }
{
    match place.of(value).optional_text()? {
        Some(text) => Ok(Some(String::from_str(alloc, text)?)),
        None => Ok(None),
    }
}
