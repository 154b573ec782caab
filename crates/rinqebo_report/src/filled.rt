//! Members that are left out where they are empty.
ghost use Rattle.std.specs.Prelude.{◌≡◌, OnOk};
ghost use Rattle.serde_json.specs.View.{members_view, view};
ghost use Rattle.rinqebo_report.specs.Filled.{is_empty_data, put_filled};

use serde_json::{Map, Value, put};
use std::alloc::{AllocError, Global};

/// Whether a value is null, an empty text or an empty list.
fn is_empty_value(value: &Value) -> bool
    ensures { result ≡ is_empty_data (view value.now) }
{
    match value {
        Value::Null => true,
        Value::String(text) => text.is_empty(),
        Value::Array(items) => items.is_empty(),
        Value::Bool(_) | Value::Number(_) | Value::Object(_) => false,
    }
}

/// Puts a value among members, unless it is null, an empty text or an empty list.
pub(crate) fn put_filled(
    members: &mut Map<String, Value>,
    alloc: Global,
    key: &str,
    value: Value,
) -> Result<(), AllocError>
    ensures { OnOk result (members_view members.new.entries
        ≡ put_filled key.now (view value) (members_view members.old.entries)) }
{
    if is_empty_value(&value) {
        return Ok(());
    }
    put(members, alloc, key, value)
}
