//! Fields of JSON objects, each with its path.
ghost use Rattle.std.specs.Prelude.{◌≡◌, map, option_map};
ghost use Rattle.std.specs.Option.{ok_or};
ghost use Rattle.serde_json.specs.Find.{get, as_bool, as_null, as_object, as_str};
ghost use Rattle.serde_json.specs.View.{members_view, view};
ghost use Rattle.filter_inputs.specs.Fields.Fields.{Reads, found_at, misfit_of};
ghost use Rattle.filter_inputs.specs.Fields.Parts.{a_list, an_object, optional_object, optional_text};
ghost use Rattle.filter_inputs.specs.declared.fields.kind.Wanted.TheVariants as wants;

use crate::fields::kind::{Kind, Wanted};
use serde_json::{Map, Value};
use std::fmt;

/// The value at a path of a document, if there is one.
#[derive(Clone, Copy)]
pub struct JsonField<'v, P> {
    /// The value, if there is one.
    pub found: Option<&'v Value>,
    /// The path.
    pub place: P,
}

/// A value that isn't of the type that is wanted at its path, or a missing value.
#[derive(Clone, Copy, Debug, PartialEq, Eq, Drop)]
pub struct Misfit<P> {
    /// The path.
    pub place: P,
    /// The type of value that is wanted.
    pub wanted: Wanted,
    /// The kind of the value that was found, if there is one.
    pub given: Option<Kind>,
}

impl<P: fmt::Display> fmt::Display for Misfit<P> {
    fn fmt<W: fmt::Write>(&self, f: &mut fmt::Formatter<W>) -> fmt::Result {
        match self.given {
            Some(given) => write!(f, "`{}` is {given}: expected {}", self.place, self.wanted),
            None => write!(f, "`{}` is missing: expected {}", self.place, self.wanted),
        }
    }
}

/// Returns the values of an array.
#[tactic(auto, using(crate::proofs::fields::Listing::listed_items))]
fn values_of(value: &Value) -> Option<&[Value]>
    ensures { option_map (λ values. map view values.now) result ≡ a_list (view value.now) }
{
    Some(value.as_array()?.as_slice())
}

impl<'v, P: Copy> JsonField<'v, P> {
    /// Returns the field of a value at a key. The field has no value if the value isn't an object
    /// or doesn't have the key.
    pub fn under(value: &'v Value, key: &str, place: P) -> JsonField<'v, P>
        ensures found { found_at result ≡ get key.now (view value.now) }
        ensures place { result.place ≡ place }
    {
        JsonField {
            found: value.get(key),
            place,
        }
    }

    /// Returns the value that was read, or the misfit if there is none.
    fn wanted<T>(self, wanted: Wanted, read: Option<T>) -> Result<T, Misfit<P>>
        ensures { result ≡ ok_or read (misfit_of wanted self.entry) }
    {
        match read {
            Some(value) => Ok(value),
            None => Err(Misfit {
                place: self.place,
                wanted,
                given: self.found.map(Kind::of),
            }),
        }
    }

    /// Reads a string.
    pub fn text(self) -> Result<&'v str, Misfit<P>>
        ensures { Reads (λ text. text.now) as_str wants.Text self.entry result }
    {
        let read = self.found.and_then(Value::as_str);
        self.wanted(Wanted::Text, read)
    }

    /// Reads a string, or `None` for `null`.
    pub fn optional_text(self) -> Result<Option<&'v str>, Misfit<P>>
        ensures { Reads (option_map (λ text. text.now)) optional_text wants.TextOrNull self.entry
            result }
    {
        let read = match self.found {
            Some(value) if value.is_null() => Some(None),
            found => found.and_then(Value::as_str).map(Some),
        };
        self.wanted(Wanted::TextOrNull, read)
    }

    /// Reads `null`.
    pub fn null(self) -> Result<(), Misfit<P>>
        ensures { Reads (λ nothing. nothing) as_null wants.Null self.entry result }
    {
        let read = self.found.and_then(Value::as_null);
        self.wanted(Wanted::Null, read)
    }

    /// Reads a boolean.
    pub fn flag(self) -> Result<bool, Misfit<P>>
        ensures { Reads (λ flag. flag) as_bool wants.Flag self.entry result }
    {
        let read = self.found.and_then(Value::as_bool);
        self.wanted(Wanted::Flag, read)
    }

    /// Reads the values of an array.
    pub fn list(self) -> Result<&'v [Value], Misfit<P>>
        ensures { Reads (λ values. map view values.now) a_list wants.List self.entry result }
    {
        let read = self.found.and_then(values_of);
        self.wanted(Wanted::List, read)
    }

    /// Reads the members of an object.
    pub fn members(self) -> Result<&'v Map<String, Value>, Misfit<P>>
        ensures { Reads (λ found. members_view found.now.entries) as_object wants.Object self.entry
            result }
    {
        let read = self.found.and_then(Value::as_object);
        self.wanted(Wanted::Object, read)
    }

    /// Reads an object, as a value.
    pub fn object(self) -> Result<&'v Value, Misfit<P>>
        ensures { Reads (λ found. view found.now) an_object wants.Object self.entry result }
    {
        let read = self.found.filter(|value| value.is_object());
        self.wanted(Wanted::Object, read)
    }

    /// Reads an object, as a value, or `None` for `null`.
    pub fn optional_object(self) -> Result<Option<&'v Value>, Misfit<P>>
        ensures { Reads (option_map (λ found. view found.now)) optional_object wants.ObjectOrNull
            self.entry result }
    {
        let read = match self.found {
            Some(value) if value.is_null() => Some(None),
            Some(value) if value.is_object() => Some(Some(value)),
            _ => None,
        };
        self.wanted(Wanted::ObjectOrNull, read)
    }
}
