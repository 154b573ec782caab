//! The priority of a test.
ghost use Rattle.std.specs.Prelude.{◌≡◌, Ok, pos};
ghost use Rattle.nextest_elements.specs.TestPriority.{priority_at, a_priority};

use nextest_tree::{Element, ElementCause, ElementFault, Tree, Walk};
use std::alloc::Global;

/// The priority of a test, from -100 to 100: higher ones run first. The default is 0.
#[derive(Clone, Copy, Debug, PartialEq, Eq)]
pub struct TestPriority(pub i8);

impl Default for TestPriority {
    ghost is_default = { λ priority. priority.0 ≡ pos 0 };

    fn default() -> Self {
        TestPriority(0)
    }
}

#[tactic(auto, unfolding(nextest_tree::specs::Reads::reading, nextest_tree::specs::Reads::walk_view, crate::specs::TestPriority::a_priority))]
impl Element for TestPriority {
    ghost schema = { a_priority };

    ghost is_value = { λ n priority. priority_at n ≡ Ok priority.0 };

    fn read(alloc: Global, tree: &Tree, walk: &mut Walk) -> Result<Self, ElementFault> {
        match tree {
            Tree::Int(number) => {
                let number = *number;
                if number < -100 || 100 < number {
                    return Err(walk.fault(alloc, ElementCause::OutOfRange));
                }
                Ok(TestPriority(number as i8))
            }
            _ => Err(walk.fault(alloc, ElementCause::WrongKind)),
        }
    }
}
