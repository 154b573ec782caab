//! Reading the values of a list, or the faults of values that can't be read.
ghost use Rattle.std.specs.Prelude.{◌≡◌, Some, IfOk, IfErr};
ghost use Rattle.serde_json.specs.Data.{string, object};
ghost use Rattle.serde_json.specs.View.{members_view};
ghost use Rattle.filter_inputs.specs.Fields.Fields.{found_at};
ghost use Rattle.filter_inputs.specs.declared.fields.kind.Wanted.TheVariants.{Text, Object};
ghost use Rattle.filter_inputs.specs.Lists.Faults.{IsRead, Tells, demand_at};

use crate::fields::{JsonField, Misfit};
use crate::lists::fault::ListFault;
use crate::lists::place::Place;
use serde_json::{Map, Value};
use std::alloc::Global;

/// Returns the value that was read, or the fault of the misfit, with the keys of its path.
pub fn or_fault<T>(alloc: Global, read: Result<T, Misfit<Place<'_>>>) -> Result<T, ListFault>
    ensures { IsRead read.entry result }
{
    match read {
        Ok(value) => Ok(value),
        Err(misfit) => Err(ListFault::Misfit(Misfit {
            place: misfit.place.text(alloc)?,
            wanted: misfit.wanted,
            given: misfit.given,
        })),
    }
}

/// Reads the string of a field.
pub fn text_at<'v>(alloc: Global, field: JsonField<'v, Place<'_>>) -> Result<&'v str, ListFault>
    ensures ok { IfOk result (λ text. found_at field.entry ≡ Some (string text.now)) }
    ensures err { IfErr result (Tells (demand_at field.entry Text)) }
{
    or_fault(alloc, field.text())
}

/// Reads the members of the object of a field.
pub fn members_at<'v>(
    alloc: Global,
    field: JsonField<'v, Place<'_>>,
) -> Result<&'v Map<String, Value>, ListFault>
    ensures ok { IfOk result (λ members.
        found_at field.entry ≡ Some (object (members_view members.now.entries))) }
    ensures err { IfErr result (Tells (demand_at field.entry Object)) }
{
    or_fault(alloc, field.members())
}
