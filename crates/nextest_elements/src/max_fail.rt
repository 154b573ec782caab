//! After how many failures a run ends.
ghost use Rattle.nextest_tree.specs.Leaf.{Spells};
ghost use Rattle.nextest_elements.specs.MaxFail.{limit_at, a_limit, a_max_fail, max_fail_fields, IsMaxFail, IsMaxFailTable};

use crate::positive::Positive;
use nextest_tree::{
    Element, ElementCause, ElementFault, Ignored, Key, Record, Tree, Walk, optional, read_one_of,
    read_record, required,
};
use std::alloc::Global;
use std::collections::BTreeMap;

/// After how many failures a run ends.
#[derive(Clone, Copy, Debug, PartialEq, Eq)]
pub enum MaxFail {
    /// After this many. Zero is never read.
    Count(u64),
    /// It runs all tests.
    All,
}

/// The `max-fail` of a table.
#[derive(Clone, Copy, Debug, PartialEq, Eq)]
struct Limit(MaxFail);

#[tactic(auto, unfolding(nextest_tree::specs::Reads::reading, nextest_tree::specs::Reads::walk_view, crate::specs::Positive::a_positive, crate::specs::MaxFail::a_limit, crate::specs::MaxFail::limit_names, crate::specs::MaxFail::limit_expected))]
impl Element for Limit {
    ghost use Rattle.std.specs.Prelude.{◌≡◌, Ok};

    ghost schema = { a_limit };

    ghost is_value = { λ n limit. limit_at n ≡ Ok limit.0 };

    fn read(alloc: Global, tree: &Tree, walk: &mut Walk) -> Result<Self, ElementFault> {
        match tree {
            Tree::Int(_) => {
                let Positive(count) = Positive::read(alloc, tree, walk)?;
                Ok(Limit(MaxFail::Count(count)))
            }
            Tree::Text(_) => {
                let names = [("all", MaxFail::All)];
                let max_fail = read_one_of(alloc, tree, walk, &names, "a positive number, `all`")?;
                Ok(Limit(max_fail))
            }
            _ => Err(walk.fault(alloc, ElementCause::WrongKind)),
        }
    }
}

#[tactic(auto, unfolding(nextest_tree::specs::Reads::reading, nextest_tree::specs::Reads::walk_view, nextest_tree::specs::Leaf::a_bool, crate::specs::MaxFail::a_max_fail))]
impl Element for MaxFail {
    ghost schema = { a_max_fail };

    ghost is_value = { IsMaxFail };

    fn read(alloc: Global, tree: &Tree, walk: &mut Walk) -> Result<Self, ElementFault> {
        match tree {
            Tree::Bool(true) => Ok(MaxFail::Count(1)),
            Tree::Bool(false) => Ok(MaxFail::All),
            Tree::Table(members) => read_record(alloc, members, walk),
            _ => Err(walk.fault(alloc, ElementCause::WrongKind)),
        }
    }
}

impl Record for MaxFail {
    ghost fields = { max_fail_fields };

    ghost is_record = { IsMaxFailTable };

    fn keys() -> &'static [Key] {
        &[Key::MaxFail, Key::Terminate]
    }

    fn read_fields(
        alloc: Global,
        members: &BTreeMap<String, Tree>,
        walk: &mut Walk,
    ) -> Result<Self, ElementFault> {
        let Limit(max_fail) = required(alloc, members, Key::MaxFail, walk)?;
        let _terminate: Option<Ignored> = optional(alloc, members, Key::Terminate, walk)?;
        Ok(max_fail)
    }
}
