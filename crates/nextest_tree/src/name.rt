//! The reader of every value that is one of a list of names.
ghost use Rattle.std.specs.Prelude.{◌≡◌, IfOk, IfErr, Ok};
ghost use Rattle.nextest_tree.specs.View.{tree_view};
ghost use Rattle.nextest_tree.specs.Leaf.{value, name_at, name_pairs};
ghost use Rattle.nextest_tree.specs.Reads.{Fails, walk_view, reading};

use crate::fault::{ElementCause, ElementFault};
use crate::tree::Tree;
use crate::walk::Walk;
use std::alloc::Global;

/// The value of the name at the walk's path. `expected` lists the names.
#[tactic(auto, unfolding(crate::specs::Reads::reading, crate::specs::Reads::walk_view))]
pub fn read_one_of<T: Copy>(
    alloc: Global,
    tree: &Tree,
    walk: &Walk,
    names: &[(&str, T)],
    expected: &'static str,
) -> Result<T, ElementFault>
    ensures value { IfOk result
        (λ x. name_at (name_pairs names.now) expected.now (tree_view tree.now) ≡ Ok x) }
    ensures fault { IfErr result (λ e. Fails e
        (reading (value (name_at (name_pairs names.now) expected.now))
        (tree_view tree.now) (walk_view walk.now))) }
{
    let Tree::Text(text) = tree else {
        return Err(walk.fault(alloc, ElementCause::WrongKind));
    };
    for (name, value) in names {
        if text.as_str() == *name {
            return Ok(*value);
        }
    }
    Err(walk.bad_value(alloc, text.as_str(), expected))
}
