//! The reader of a duration.
ghost use Rattle.std.specs.Prelude.{◌≡◌, Ok, option_map};
ghost use Rattle.nextest_elements.specs.Nanoseconds.{duration_at, a_duration};

use crate::duration::{DurationError, parse_duration};
use nextest_tree::{Element, ElementCause, ElementFault, Tree, Walk};
use std::alloc::Global;

/// A duration as it is read, in nanoseconds: at most 18446744073709551615 seconds.
#[derive(Clone, Copy, Debug, PartialEq, Eq)]
pub struct Nanoseconds(pub u128);

impl Nanoseconds {
    /// The number of an optional duration.
    pub fn number(duration: Option<Nanoseconds>) -> Option<u128>
        ensures { result ≡ option_map (λ d. d.0) duration }
    {
        match duration {
            Some(Nanoseconds(number)) => Some(number),
            None => None,
        }
    }
}

#[tactic(auto, unfolding(nextest_tree::specs::Reads::reading, nextest_tree::specs::Reads::walk_view, crate::specs::Nanoseconds::a_duration, crate::specs::Nanoseconds::duration_expected))]
impl Element for Nanoseconds {
    ghost schema = { a_duration };

    ghost is_value = { λ n duration. duration_at n ≡ Ok duration.0 };

    fn read(alloc: Global, tree: &Tree, walk: &mut Walk) -> Result<Self, ElementFault> {
        let Tree::Text(text) = tree else {
            return Err(walk.fault(alloc, ElementCause::WrongKind));
        };
        match parse_duration(text.as_str()) {
            Ok(number) => Ok(Nanoseconds(number)),
            Err(DurationError::OutOfRange) => Err(walk.fault(alloc, ElementCause::OutOfRange)),
            Err(DurationError::Malformed) => {
                Err(walk.bad_value(alloc, text.as_str(), "a duration like `1h 30m`"))
            }
        }
    }
}
