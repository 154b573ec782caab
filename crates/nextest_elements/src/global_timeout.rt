//! How long a whole run may take.
ghost use Rattle.nextest_elements.specs.Nanoseconds.{a_duration};
ghost use Rattle.nextest_elements.specs.GlobalTimeout.{IsGlobalTimeout};

use crate::nanoseconds::Nanoseconds;
use nextest_tree::{Element, ElementFault, Tree, Walk};
use std::alloc::Global;

/// How long a whole run may take.
#[derive(Clone, Copy, Debug, PartialEq, Eq)]
pub struct GlobalTimeout {
    /// Nanoseconds from the run's start on.
    pub period: u128,
}

impl Element for GlobalTimeout {
    ghost schema = { a_duration };

    ghost is_value = { IsGlobalTimeout };

    fn read(alloc: Global, tree: &Tree, walk: &mut Walk) -> Result<Self, ElementFault> {
        let Nanoseconds(period) = Nanoseconds::read(alloc, tree, walk)?;
        Ok(GlobalTimeout { period })
    }
}
