//! Items of a text.
ghost use Rattle.std.specs.Prelude.{◌≡◌, IfOk};
ghost use Rattle.toml.specs.View.{view};
ghost use Rattle.nextest_places.specs.Spans.Items.{data_kind, read_kind};
ghost use Rattle.nextest_places.specs.Spans.Turns.{IsKept};

use crate::spans::token::{Container, Span};
use std::alloc::{AllocError, Global};
use toml::Value;

/// What a key is of.
#[derive(Clone, Copy, Debug, PartialEq, Eq)]
pub enum KeyKind {
    /// The header of a table.
    Table,
    /// A header in double brackets, which begins an element of a list.
    Element,
    /// A pair of a key and a value.
    Pair,
}

/// The kind of a value.
#[derive(Clone, Copy, Debug, PartialEq, Eq)]
pub enum ValueKind {
    /// A string.
    String,
    /// An integer.
    Integer,
    /// A number with a fraction.
    Float,
    /// True or false.
    Boolean,
    /// A date, a time or both.
    Datetime,
    /// A list.
    Array,
    /// A table in braces.
    Table,
}

/// What an item is in the text.
#[derive(Debug, Drop)]
pub enum Role {
    /// A part of a key.
    Key {
        /// The name that it reads as, if it does.
        name: Option<String>,
        /// What the key is of.
        kind: KeyKind,
        /// The position of the element that it leads into, if headers in double brackets made a
        /// list at it.
        element: Option<usize>,
    },
    /// The value of a key, or an item of a list.
    Value {
        /// Its position in the list, if it is an item of one.
        position: Option<usize>,
        /// What its first byte opens, if it is a list or a table.
        container: Option<Container>,
    },
}

/// A part of a key, or a value.
#[derive(Debug, Drop)]
pub struct Item {
    /// The index of the item that it is inside, which is an earlier one. A part of a key is inside
    /// the part before it, in the last part of its header, or in its table in braces, and a value
    /// in its key or its list. At the root it is none.
    pub parent: Option<usize>,
    /// What it is.
    pub role: Role,
    /// Where it is. Of a list or a table that is not closed it is the opening bracket.
    pub span: Span,
    /// The kind of the value that its bytes read as, if it is a value and they read as one.
    pub kind: Option<ValueKind>,
}

impl Item {
    /// The value ends elsewhere, so that its bytes read as another.
    pub(crate) fn end_at(&mut self, span: Span, kind: Option<ValueKind>)
        ensures { self.new ≡ record self.old { span = span; kind = kind } }
    {
        self.span = span;
        self.kind = kind;
    }
}

/// The kind of the value that a text reads as, if it reads as one.
pub(crate) fn read_kind(alloc: Global, text: &str) -> Result<Option<ValueKind>, AllocError>
    ensures { IfOk result (λ kind. kind ≡ read_kind text.now) }
{
    match Value::from_str(alloc, text) {
        Ok(value) => Ok(Some(kind_of(&value))),
        Err(error) => {
            if error.is_memory() {
                Err(AllocError)
            } else {
                Ok(None)
            }
        }
    }
}

fn kind_of(value: &Value) -> ValueKind
    ensures { result ≡ data_kind (view value.now) }
{
    match value {
        Value::String(_) => ValueKind::String,
        Value::Integer(_) => ValueKind::Integer,
        Value::Float(_) => ValueKind::Float,
        Value::Boolean(_) => ValueKind::Boolean,
        Value::Datetime(_) => ValueKind::Datetime,
        Value::Array(_) => ValueKind::Array,
        Value::Table(_) => ValueKind::Table,
    }
}

/// The index, if it is below the length.
pub(crate) fn earlier(index: Option<usize>, len: usize) -> Option<usize>
    ensures { IsKept len index result }
{
    match index {
        Some(i) if i < len => Some(i),
        _ => None,
    }
}
