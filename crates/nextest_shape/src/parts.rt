//! Shapes that others are made of.
ghost use Rattle.std.specs.Prelude.{◌≡◌, IfOk, map, true, false};
ghost use Rattle.nextest_shape.specs.FileForm.{some_text, words as words_form, one_or_other};
ghost use Rattle.nextest_shape.specs.Form.{a_text, of_pattern, an_array, a_map, no_fields, and_fields};
ghost use Rattle.nextest_shape.specs.View.{shape_view, field_view, fields_view};

use crate::shape::{Field, Pattern, Shape, TextShape};
use nextest_tree::Key;
use std::alloc::{AllocError, Global};

/// A field that a file may leave out.
pub(crate) fn optional(key: Key, shape: Shape) -> Field<Shape>
    ensures { field_view result
        ≡ record { key = key; is_required = false; shape = shape_view shape } }
{
    Field {
        key,
        is_required: false,
        shape,
    }
}

/// A field that a file has to write.
pub(crate) fn required(key: Key, shape: Shape) -> Field<Shape>
    ensures { field_view result
        ≡ record { key = key; is_required = true; shape = shape_view shape } }
{
    Field {
        key,
        is_required: true,
        shape,
    }
}

/// Any text.
pub(crate) fn text() -> Shape
    ensures { shape_view result ≡ some_text }
{
    Shape::Text(TextShape::Any)
}

/// One of some words.
pub(crate) fn one_of(words: &'static [&'static str]) -> Shape
    ensures { shape_view result ≡ words_form (map (λ word. word.now) words.now) }
{
    Shape::Text(TextShape::OneOf(words))
}

/// A text of a pattern.
pub(crate) fn text_of(pattern: Pattern) -> Shape
    ensures { shape_view result ≡ a_text (of_pattern pattern) }
{
    Shape::Text(TextShape::Of(pattern))
}

/// One of two shapes.
pub(crate) fn one_or_other(alloc: Global, one: Shape, other: Shape) -> Result<Shape, AllocError>
    ensures { IfOk result (λ shape. shape_view shape
        ≡ one_or_other (shape_view one) (shape_view other)) }
{
    Ok(Shape::Either(vec![in alloc; one, other]?))
}

/// A list with at least so many items of one shape.
pub(crate) fn list(alloc: Global, least: u64, items: Shape) -> Result<Shape, AllocError>
    ensures { IfOk result (λ shape. shape_view shape ≡ an_array least (shape_view items)) }
{
    Ok(Shape::List {
        least,
        items: Box::new(alloc, items)?,
    })
}

/// Values of one shape under names of a pattern.
pub(crate) fn map_by(alloc: Global, names: Pattern, values: Shape) -> Result<Shape, AllocError>
    ensures { IfOk result (λ shape. shape_view shape
        ≡ a_map (of_pattern names) no_fields (shape_view values)) }
{
    Ok(Shape::Map {
        names: TextShape::Of(names),
        fields: Vec::new(alloc),
        values: Box::new(alloc, values)?,
    })
}

/// Some fields, and then others.
pub(crate) fn joined(
    fields: Vec<Field<Shape>>,
    more: Vec<Field<Shape>>,
) -> Result<Vec<Field<Shape>>, AllocError>
    ensures { IfOk result (λ all. fields_view all.items
        ≡ and_fields (fields_view fields.items) (fields_view more.items)) }
{
    let mut all = fields;
    for field in more {
        all.push(field)?;
    }
    Ok(all)
}
