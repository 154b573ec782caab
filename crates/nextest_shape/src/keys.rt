//! The keys that the table at a path knows.
ghost use Rattle.std.specs.Prelude.{◌≡◌, IfOk, map, option_map};
ghost use Rattle.nextest_shape.specs.Keys.{key_texts, keys_at, field_keys_at, first_keys_at};
ghost use Rattle.nextest_shape.specs.View.{shape_view, fields_view, shapes_view};

use crate::shape::{Field, Shape};
use std::alloc::{AllocError, Global};

/// The keys of fields.
fn own_keys(alloc: Global, fields: &[Field<Shape>]) -> Result<Vec<&'static str>, AllocError>
    ensures { IfOk result (λ keys. map (λ key. key.now) keys.items
        ≡ key_texts (fields_view fields.now)) }
{
    let mut keys = Vec::new(alloc);
    for field in fields {
        keys.push(field.key.text())?;
    }
    Ok(keys)
}

/// The keys that a shape has for the table at a path, whose parts are keys, names and positions.
///
/// A position means any item, and of several shapes the first with keys there has them.
#[cycle(keys)]
pub fn keys_of(alloc: Global, shape: &Shape, path: &[&str]) -> Result<Vec<&'static str>, AllocError>
    ensures { IfOk result (λ keys. map (λ key. key.now) keys.items
        ≡ keys_at (shape_view shape.now) (map (λ part. part.now) path.now)) }
{
    match shape {
        Shape::Anything | Shape::Boolean | Shape::Integer { .. } | Shape::Text(_) => {
            Ok(Vec::new(alloc))
        }
        Shape::List { items, .. } => match path.split_first() {
            Some((_part, rest)) => Ok(keys_of(alloc, items, rest)?),
            None => Ok(Vec::new(alloc)),
        },
        Shape::Table(fields) => match path.split_first() {
            Some((part, rest)) => match field_keys(alloc, fields, part, rest)? {
                Some(keys) => Ok(keys),
                None => Ok(Vec::new(alloc)),
            },
            None => Ok(own_keys(alloc, fields)?),
        },
        Shape::Map { fields, values, .. } => match path.split_first() {
            Some((part, rest)) => match field_keys(alloc, fields, part, rest)? {
                Some(keys) => Ok(keys),
                None => Ok(keys_of(alloc, values, rest)?),
            },
            None => Ok(own_keys(alloc, fields)?),
        },
        Shape::Either(shapes) => Ok(first_keys(alloc, shapes, path)?),
    }
}

/// The keys at a path from a field on, if there is a field of this key.
#[cycle(keys)]
fn field_keys(
    alloc: Global,
    fields: &Vec<Field<Shape>>,
    part: &str,
    path: &[&str],
) -> Result<Option<Vec<&'static str>>, AllocError>
    ensures { IfOk result (λ found. option_map (λ keys. map (λ key. key.now) keys.items) found
        ≡ field_keys_at (fields_view fields.now.items) part.now
        (map (λ part. part.now) path.now)) }
{
    for field in fields {
        if field.key.text() == part {
            return Ok(Some(keys_of(alloc, &field.shape, path)?));
        }
    }
    Ok(None)
}

/// The keys at a path of the first shape that has some.
#[cycle(keys)]
fn first_keys(
    alloc: Global,
    shapes: &Vec<Shape>,
    path: &[&str],
) -> Result<Vec<&'static str>, AllocError>
    ensures { IfOk result (λ keys. map (λ key. key.now) keys.items
        ≡ first_keys_at (shapes_view shapes.now.items) (map (λ part. part.now) path.now)) }
{
    for shape in shapes {
        let keys = keys_of(alloc, shape, path)?;
        if !keys.is_empty() {
            return Ok(keys);
        }
    }
    Ok(Vec::new(alloc))
}
