//! A number from 1.
ghost use Rattle.std.specs.Prelude.{◌≡◌, Ok};
ghost use Rattle.nextest_elements.specs.Positive.{positive_at, a_positive};

use nextest_tree::{Element, ElementCause, ElementFault, Tree, Walk};
use std::alloc::Global;

/// A number from 1 as it is read.
#[derive(Clone, Copy, Debug, PartialEq, Eq)]
pub struct Positive(pub u64);

#[tactic(auto, unfolding(nextest_tree::specs::Reads::reading, nextest_tree::specs::Reads::walk_view, crate::specs::Positive::a_positive))]
impl Element for Positive {
    ghost schema = { a_positive };

    ghost is_value = { λ n count. positive_at n ≡ Ok count.0 };

    fn read(alloc: Global, tree: &Tree, walk: &mut Walk) -> Result<Self, ElementFault> {
        match tree {
            Tree::Int(number) => match u64::try_from(*number) {
                Ok(0) | Err(_) => Err(walk.fault(alloc, ElementCause::OutOfRange)),
                Ok(count) => Ok(Positive(count)),
            },
            _ => Err(walk.fault(alloc, ElementCause::WrongKind)),
        }
    }
}
