//! Whether the shape of a file refuses a value: which of several values a refusal is about.
ghost use Rattle.std.specs.Prelude.{◌≡◌, ◌||◌, Some};
ghost use Rattle.nextest_shape.specs.View.{shape_view, shapes_view};
ghost use Rattle.nextest_tree.specs.View.{tree_view};
ghost use Rattle.rinqebo_faults.specs.ElementRepairs.{ends_with_key};
ghost use Rattle.rinqebo_faults.specs.Elements.{is_text};
ghost use Rattle.rinqebo_faults.specs.RefusedValues.{has_number, is_at_fault, is_cause_at, is_kind, is_out_of_range, is_refused, is_refused_by, is_unknown, lacks};
ghost use Rattle.rinqebo_faults.specs.Spellings.{is_one, takes};

use crate::element_repairs::ends_with_key;
use crate::element_words::is_text;
use crate::given::is_empty_array;
use crate::shapes::shape_at;
use crate::ways::Way;
use nextest_places::Step;
use nextest_shape::Shape;
use nextest_tree::{ElementCause, Tree};

/// What is said of what a text spells in a file.
#[derive(Clone, Copy)]
pub enum Fault<'f> {
    /// Its last key is none that its table knows.
    UnknownKey,
    /// Its value is refused.
    Value(&'f ElementCause),
}

/// Whether one shape takes values of a kind.
fn is_of_one(shape: &Shape, tree: &Tree) -> bool
    ensures { result ≡ is_kind (tree_view tree.now) (shape_view shape.now) }
{
    match shape {
        Shape::Anything => true,
        Shape::Boolean => matches!(tree, Tree::Bool(_)),
        Shape::Integer { .. } => matches!(tree, Tree::Int(_)),
        Shape::Text(_) => matches!(tree, Tree::Text(_)),
        Shape::List { .. } => matches!(tree, Tree::Array(_)),
        Shape::Table(_) | Shape::Map { .. } => matches!(tree, Tree::Table(_)),
        Shape::Either(_) => false,
    }
}

/// Whether one of some shapes takes values of the kind of a value.
fn is_of_some(shapes: &Vec<Shape>, tree: &Tree) -> bool
    ensures { result ≡ is_one (is_kind (tree_view tree.now)) (shapes_view shapes.now.items) }
{
    for shape in shapes {
        if is_of_one(shape, tree) {
            return true;
        }
    }
    false
}

/// Whether a shape takes values of the kind of a value.
fn takes_kind(shape: &Shape, tree: &Tree) -> bool
    ensures { result ≡ takes (is_kind (tree_view tree.now)) (shape_view shape.now) }
{
    match shape {
        Shape::Either(shapes) => is_of_some(shapes, tree),
        one => is_of_one(one, tree),
    }
}

/// Whether one shape takes a number.
fn takes_one_number(shape: &Shape, number: i64) -> bool
    ensures { result ≡ has_number number (shape_view shape.now) }
{
    let Shape::Integer { least, greatest } = shape else {
        return false;
    };
    least.unwrap_or(i64::MIN) <= number && number <= greatest.unwrap_or(i64::MAX)
}

/// Whether one of some shapes takes a number.
fn some_takes_number(shapes: &Vec<Shape>, number: i64) -> bool
    ensures { result ≡ is_one (has_number number) (shapes_view shapes.now.items) }
{
    for shape in shapes {
        if takes_one_number(shape, number) {
            return true;
        }
    }
    false
}

/// Whether a shape takes a number.
fn takes_number(shape: &Shape, number: i64) -> bool
    ensures { result ≡ takes (has_number number) (shape_view shape.now) }
{
    match shape {
        Shape::Either(shapes) => some_takes_number(shapes, number),
        one => takes_one_number(one, number),
    }
}

/// Whether a value may be out of the range that a shape has.
fn is_out_of_range(shape: &Shape, tree: &Tree) -> bool
    ensures { result ≡ is_out_of_range (shape_view shape.now) (tree_view tree.now) }
{
    match tree {
        Tree::Int(number) => !takes_number(shape, *number),
        Tree::Array(items) => is_empty_array(items),
        Tree::Table(_) | Tree::Text(_) => true,
        Tree::Bool(_) | Tree::Opaque => false,
    }
}

/// Whether the last key of a path is none that its table knows.
#[tactic(auto, unfolding(crate::specs::RefusedValues::is_unknown))]
fn is_unknown(file: &Shape, path: &[Step<'_>]) -> bool
    ensures { result ≡ is_unknown (shape_view file.now) path.now }
{
    let Some((_last, table)) = path.split_last() else {
        return false;
    };
    shape_at(file, table).is_some() && shape_at(file, path).is_none()
}

/// Whether a table has no such key.
#[tactic(auto, unfolding(crate::specs::RefusedValues::lacks))]
fn lacks(tree: &Tree, key: &str) -> bool
    ensures { result ≡ lacks (tree_view tree.now) key.now }
{
    tree.as_table().is_some() && tree.get(key).is_none()
}

/// Whether a text is the value at the end of a path, or the last key of the path.
fn is_given(tree: &Tree, path: &[Step<'_>], given: &str) -> bool
    ensures { result ≡ (is_text (Some (tree_view tree.now)) given.now
        || ends_with_key path.now given.now) }
{
    is_text(Some(tree), given) || ends_with_key(path, given)
}

/// Whether a shape refuses the value at the end of a path for a cause.
fn is_refused_by(shape: &Shape, path: &[Step<'_>], tree: &Tree, cause: &ElementCause) -> bool
    ensures { result
        ≡ is_refused_by cause.now path.now (tree_view tree.now) (shape_view shape.now) }
{
    match cause {
        ElementCause::WrongKind => !takes_kind(shape, tree),
        ElementCause::Missing(key) => lacks(tree, key.as_str()),
        ElementCause::BadValue { given, .. } => is_given(tree, path, given.as_str()),
        ElementCause::OutOfRange => is_out_of_range(shape, tree),
        ElementCause::UnknownField | ElementCause::Memory => false,
    }
}

/// Whether the value at the end of a path is refused for a cause.
fn is_refused(file: &Shape, path: &[Step<'_>], tree: &Tree, cause: &ElementCause) -> bool
    ensures { result ≡ is_refused (shape_view file.now) cause.now path.now (tree_view tree.now) }
{
    match shape_at(file, path) {
        Some(shape) => is_refused_by(shape, path, tree, cause),
        None => false,
    }
}

/// Whether it may be the value at the end of a path that is refused for a cause.
fn is_cause_at(file: &Shape, path: &[Step<'_>], tree: &Tree, cause: &ElementCause) -> bool
    ensures { result ≡ is_cause_at (shape_view file.now) cause.now path.now (tree_view tree.now) }
{
    match cause {
        ElementCause::UnknownField => is_unknown(file, path),
        cause => is_refused(file, path, tree, cause),
    }
}

/// Whether it may be the value at the end of a way that a fault is about.
pub fn is_at_fault(file: &Shape, way: &Way<'_>, fault: Fault<'_>) -> bool
    ensures { result ≡ is_at_fault (shape_view file.now) fault.entry way.now.steps.items
        (tree_view way.now.tree.now) }
{
    match fault {
        Fault::UnknownKey => is_unknown(file, &way.steps),
        Fault::Value(cause) => is_cause_at(file, &way.steps, way.tree, cause),
    }
}
