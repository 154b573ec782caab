//! The value of a leaf as it is reported.
ghost use Rattle.std.specs.Prelude.{◌≡◌, false, IfOk, MatchOption};
ghost use Rattle.nextest_tree.specs.Node.{array};
ghost use Rattle.nextest_tree.specs.View.{nodes_view, tree_view};
ghost use Rattle.rinqebo_origins.specs.LeafValue.{are_texts, is_tellable, AreItems, IsValueOf};

use nextest_tree::Tree;
use rinqebo_report::{Scalar, Value};
use std::alloc::{AllocError, Global};

/// The texts of a list, if it has no other items.
fn texts_of(alloc: Global, items: &[Tree]) -> Result<Option<Vec<String>>, AllocError>
    ensures { IfOk result (λ found. MatchOption found (are_texts (nodes_view items.now) ≡ false)
        (λ texts. AreItems (nodes_view items.now) texts.items)) }
{
    let mut texts = Vec::new(alloc);
    for item in items {
        match item.as_str() {
            Some(text) => texts.push(String::from_str(alloc, text)?)?,
            None => return Ok(None),
        }
    }
    Ok(Some(texts))
}

/// The value of a list, if it has texts alone.
fn list_value(alloc: Global, items: &[Tree]) -> Result<Option<Value>, AllocError>
    ensures { IfOk result (λ told. MatchOption told (are_texts (nodes_view items.now) ≡ false)
        (IsValueOf (array (nodes_view items.now)))) }
{
    match texts_of(alloc, items)? {
        Some(texts) => Ok(Some(Value::Texts(texts))),
        None => Ok(None),
    }
}

/// The value of a leaf, as it is reported.
///
/// There is none for a float, a date, a time, and a list of anything but texts: a tree does not
/// keep the former, and no setting of nextest is one.
pub fn reported_value(alloc: Global, leaf: &Tree) -> Result<Option<Value>, AllocError>
    ensures { IfOk result (λ told. MatchOption told (is_tellable (tree_view leaf.now) ≡ false)
        (IsValueOf (tree_view leaf.now))) }
{
    let scalar = match leaf {
        Tree::Text(text) => Scalar::Text(text.clone()?),
        Tree::Int(number) => Scalar::Integer(*number),
        Tree::Bool(truth) => Scalar::Boolean(*truth),
        Tree::Array(items) => return list_value(alloc, items),
        Tree::Table(_) | Tree::Opaque => return Ok(None),
    };
    Ok(Some(Value::Scalar(scalar)))
}
