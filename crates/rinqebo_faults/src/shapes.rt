//! What the shape of a file wants at a path.
ghost use Rattle.std.specs.Prelude.{◌≡◌, map, option_map};
ghost use Rattle.std.specs.Option.{option_and_then, option_copied};
ghost use Rattle.nextest_shape.specs.View.{fields_view, shape_view, shapes_view};
ghost use Rattle.rinqebo_faults.specs.Shapes.{below_first, below_one, field_at, form_at, form_below, key_of, name_at};

use nextest_places::Step;
use nextest_shape::{Field, Shape};

/// The key of a step to a key.
pub fn key_of<'s>(step: Step<'s>) -> Option<&'s str>
    ensures { option_copied result ≡ key_of step.entry }
{
    match step {
        Step::Key(key) => Some(key),
        Step::Position(_) => None,
    }
}

/// What is wanted at a key, if it is that of a field.
fn field_of<'s>(fields: &'s Vec<Field<Shape>>, key: &str) -> Option<&'s Shape>
    ensures { option_map (λ wanted. shape_view wanted.now) result
        ≡ field_at (fields_view fields.now.items) key.now }
{
    for field in fields {
        if field.key.text() == key {
            return Some(&field.shape);
        }
    }
    None
}

/// What a map with fields of their own wants at a key or a name.
fn below_map<'s>(
    fields: &'s Vec<Field<Shape>>,
    values: &'s Shape,
    step: Step<'_>,
) -> Option<&'s Shape>
    ensures { option_map (λ wanted. shape_view wanted.now) result
        ≡ option_and_then (name_at (fields_view fields.now.items) (shape_view values.now))
        (key_of step.entry) }
{
    match field_of(fields, key_of(step)?) {
        Some(wanted) => Some(wanted),
        None => Some(values),
    }
}

/// What one shape wants at a key, a name or a position below it. A list wants the same everywhere.
fn below_one<'s>(shape: &'s Shape, step: Step<'_>) -> Option<&'s Shape>
    ensures { option_map (λ wanted. shape_view wanted.now) result
        ≡ below_one (shape_view shape.now) (key_of step.entry) }
{
    match shape {
        Shape::List { items, .. } => Some(items),
        Shape::Table(fields) => field_of(fields, key_of(step)?),
        Shape::Map { fields, values, .. } => below_map(fields, values, step),
        Shape::Anything
        | Shape::Boolean
        | Shape::Integer { .. }
        | Shape::Text(_)
        | Shape::Either(_) => None,
    }
}

/// What the first of several shapes wants that has something there.
fn below_first<'s>(shapes: &'s Vec<Shape>, step: Step<'_>) -> Option<&'s Shape>
    ensures { option_map (λ wanted. shape_view wanted.now) result
        ≡ below_first (shapes_view shapes.now.items) (key_of step.entry) }
{
    for shape in shapes {
        if let Some(wanted) = below_one(shape, step) {
            return Some(wanted);
        }
    }
    None
}

/// What is wanted at a key, a name or a position below a shape.
fn below<'s>(shape: &'s Shape, step: Step<'_>) -> Option<&'s Shape>
    ensures { option_map (λ wanted. shape_view wanted.now) result
        ≡ form_below (shape_view shape.now) (key_of step.entry) }
{
    match shape {
        Shape::Either(shapes) => below_first(shapes, step),
        one => below_one(one, step),
    }
}

/// The shape at a path below another one.
pub fn shape_at<'s>(shape: &'s Shape, path: &[Step<'_>]) -> Option<&'s Shape>
    ensures { option_map (λ wanted. shape_view wanted.now) result
        ≡ form_at (map key_of path.now) (shape_view shape.now) }
{
    let mut wanted = shape;
    for step in path {
        wanted = below(wanted, *step)?;
    }
    Some(wanted)
}
