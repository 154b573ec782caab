//! Laws of the definitions.
ghost use Rattle.nextest_tree.specs.Place.{HasOrderedFaults};

use crate::element::Element;

/// The faults of a tree strictly ascend in the order of places, so that the first fault, which a
/// reader returns, is the least one and not merely the first of a list.
///
/// The order is stated by itself in `specs/Place.antt`. It requires that the keys of each table
/// ascend, which `Tree::from_toml` and `Tree::from_value` ensure of every tree that they make.
pub fn law_fault_order<T: Element>()
    ensures { HasOrderedFaults T.schema }
{}
