//! The kinds of JSON values, and the types of value that can be wanted.
ghost use Rattle.std.specs.Prelude.{◌≡◌};
ghost use Rattle.serde_json.specs.View.{view};
ghost use Rattle.filter_inputs.specs.Fields.Parts.{kind_of};

use serde_json::Value;
use std::fmt;

/// The kinds of JSON values.
#[derive(Clone, Copy, Debug, PartialEq, Eq, Drop)]
pub enum Kind {
    /// `null`.
    Null,
    /// `true` or `false`.
    Boolean,
    /// A number.
    Number,
    /// A string.
    Text,
    /// An array.
    List,
    /// An object.
    Object,
}

impl Kind {
    /// Returns the kind of a value.
    pub fn of(value: &Value) -> Kind
        ensures { result ≡ kind_of (view value.now) }
    {
        if value.is_object() {
            Kind::Object
        } else if value.is_array() {
            Kind::List
        } else if value.is_string() {
            Kind::Text
        } else if value.is_number() {
            Kind::Number
        } else if value.is_boolean() {
            Kind::Boolean
        } else {
            Kind::Null
        }
    }
}

impl fmt::Display for Kind {
    fn fmt<W: fmt::Write>(&self, f: &mut fmt::Formatter<W>) -> fmt::Result {
        f.write_str(match self {
            Kind::Null => "`null`",
            Kind::Boolean => "a boolean",
            Kind::Number => "a number",
            Kind::Text => "a string",
            Kind::List => "an array",
            Kind::Object => "an object",
        })
    }
}

/// The type of value that is wanted at a path.
#[derive(Clone, Copy, Debug, PartialEq, Eq, Drop)]
pub enum Wanted {
    /// `null`.
    Null,
    /// `true` or `false`.
    Flag,
    /// A string.
    Text,
    /// A string or `null`.
    TextOrNull,
    /// An array.
    List,
    /// An object.
    Object,
    /// An object or `null`.
    ObjectOrNull,
}

impl fmt::Display for Wanted {
    fn fmt<W: fmt::Write>(&self, f: &mut fmt::Formatter<W>) -> fmt::Result {
        f.write_str(match self {
            Wanted::Null => "null",
            Wanted::Flag => "true or false",
            Wanted::Text => "a string",
            Wanted::TextOrNull => "a string or null",
            Wanted::List => "an array",
            Wanted::Object => "an object",
            Wanted::ObjectOrNull => "an object or null",
        })
    }
}
