//! The reader of a list.
ghost use Rattle.std.specs.Prelude.{◌≡◌, IfOk};
ghost use Rattle.nextest_tree.specs.Node as Node;
ghost use Rattle.nextest_tree.specs.View.{nodes_view};
ghost use Rattle.nextest_tree.specs.Schema.{list_of};
ghost use Rattle.nextest_tree.specs.Reads.{IsList, InArray, Gives, walk_view, reading};
ghost use Rattle.nextest_tree.specs.ReadSteps.{reading_items};

use crate::element::Element;
use crate::fault::{ElementCause, ElementFault};
use crate::field::read_below;
use crate::tree::Tree;
use crate::walk::Walk;
use itoa::Buffer;
use std::alloc::Global;

/// Reads each item of an array.
fn read_items<T: Element>(
    alloc: Global,
    items: &[Tree],
    walk: &mut Walk,
) -> Result<Vec<T>, ElementFault>
    ensures value { IfOk result (λ values. IsList T.is_value (nodes_view items.now) values.items) }
    ensures reads { Gives result walk.new
        (reading_items T.schema 0 (nodes_view items.now) (walk_view walk.old)) }
{
    let mut values = Vec::new(alloc);
    for (position, item) in items.iter().enumerate() {
        let mut digits = Buffer::new();
        let value = read_below(alloc, item, digits.format(position), walk)?;
        let Ok(()) = values.push(value) else {
            return Err(ElementFault::memory(alloc));
        };
    }
    Ok(values)
}

#[tactic(auto, using(crate::proofs::Reading::reading_list))]
fn read_list<T: Element>(
    alloc: Global,
    items: &[Tree],
    walk: &mut Walk,
) -> Result<Vec<T>, ElementFault>
    ensures value { IfOk result (λ values. IsList T.is_value (nodes_view items.now) values.items) }
    ensures reads { Gives result walk.new
        (reading (list_of T.schema) (Node.array (nodes_view items.now))
        (walk_view walk.old)) }
{
    let values = read_items(alloc, items, walk)?;
    Ok(values)
}

#[tactic(auto, unfolding(crate::specs::Reads::reading, crate::specs::Reads::walk_view))]
impl<T: Element> Element for Vec<T> {
    ghost schema = { list_of T.schema };

    ghost is_value = { λ n values. InArray (λ ns xs. IsList T.is_value ns xs) n values.items };

    fn read(alloc: Global, tree: &Tree, walk: &mut Walk) -> Result<Self, ElementFault> {
        match tree {
            Tree::Array(items) => read_list(alloc, items, walk),
            _ => Err(walk.fault(alloc, ElementCause::WrongKind)),
        }
    }
}
