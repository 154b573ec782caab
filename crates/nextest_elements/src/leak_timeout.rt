//! How long what a test started may outlive it.
ghost use Rattle.std.specs.Prelude.{◌≡◌, Some};
ghost use Rattle.nextest_tree.specs.Leaf.{Spells};
ghost use Rattle.nextest_elements.specs.LeakTimeout.{leak_result_text, leak_result_at, a_leak_result, leak_fields, leak_table, leak_timeout, leak_of, IsLeakTimeout};

use crate::nanoseconds::Nanoseconds;
use nextest_tree::{
    Element, ElementCause, ElementFault, Key, Record, Tree, Walk, optional, read_one_of,
    read_record, required,
};
use std::alloc::Global;
use std::collections::BTreeMap;
use std::fmt;

/// What a leak makes of a test that passed.
#[derive(Clone, Copy, Debug, PartialEq, Eq)]
pub enum LeakTimeoutResult {
    /// The test passes still.
    Pass,
    /// The test fails.
    Fail,
}

/// How long what a test started may outlive it, and the result of a test where it does.
#[derive(Clone, Copy, Debug, PartialEq, Eq)]
pub struct LeakTimeout {
    /// Nanoseconds from the test's end on, after which the test counts as leaky.
    pub period: u128,
    /// What a leak makes of the test.
    pub result: LeakTimeoutResult,
}

impl Default for LeakTimeoutResult {
    ghost use Rattle.nextest_elements.specs.LeakTimeout.{usual_leak_result};

    ghost is_default = { λ result. result ≡ usual_leak_result };

    fn default() -> Self {
        LeakTimeoutResult::Pass
    }
}

impl LeakTimeoutResult {
    #[tactic(auto, unfolding(crate::specs::LeakTimeout::leak_result_text))]
    fn name(self) -> &'static str
        ensures { result.now ≡ leak_result_text self }
    {
        match self {
            LeakTimeoutResult::Pass => "pass",
            LeakTimeoutResult::Fail => "fail",
        }
    }
}

impl fmt::Display for LeakTimeoutResult {
    ghost output = { λ r. Some (leak_result_text r) };

    fn fmt<W: fmt::Write>(&self, f: &mut fmt::Formatter<W>) -> fmt::Result {
        f.write_str(self.name())
    }
}

impl LeakTimeout {
    /// The timeout of a period alone.
    fn of(period: u128) -> LeakTimeout
        ensures { result ≡ leak_of period }
    {
        LeakTimeout {
            period,
            result: LeakTimeoutResult::default(),
        }
    }
}

#[tactic(auto, unfolding(nextest_tree::specs::Reads::reading, nextest_tree::specs::Reads::walk_view, crate::specs::LeakTimeout::a_leak_result, crate::specs::LeakTimeout::leak_result_names, crate::specs::LeakTimeout::leak_result_expected))]
impl Element for LeakTimeoutResult {
    ghost schema = { a_leak_result };

    ghost is_value = { Spells leak_result_at };

    fn read(alloc: Global, tree: &Tree, walk: &mut Walk) -> Result<Self, ElementFault> {
        let pass = LeakTimeoutResult::Pass;
        let fail = LeakTimeoutResult::Fail;
        let names = [(pass.name(), pass), (fail.name(), fail)];
        read_one_of(alloc, tree, walk, &names, "`pass`, `fail`")
    }
}

#[tactic(auto, using(nextest_tree::proofs::Reading::leaf_there, nextest_tree::proofs::Reading::leaf_read))]
impl Record for LeakTimeout {
    ghost fields = { leak_fields };

    ghost is_record = { λ es leak. leak_table es ≡ Some leak };

    fn keys() -> &'static [Key] {
        &[Key::Period, Key::Result]
    }

    fn read_fields(
        alloc: Global,
        members: &BTreeMap<String, Tree>,
        walk: &mut Walk,
    ) -> Result<Self, ElementFault> {
        let Nanoseconds(period) = required(alloc, members, Key::Period, walk)?;
        let result = optional(alloc, members, Key::Result, walk)?;
        Ok(LeakTimeout {
            period,
            result: result.unwrap_or_default(),
        })
    }
}

#[tactic(auto, unfolding(nextest_tree::specs::Reads::reading, nextest_tree::specs::Reads::walk_view, crate::specs::Nanoseconds::a_duration))]
impl Element for LeakTimeout {
    ghost schema = { leak_timeout };

    ghost is_value = { IsLeakTimeout };

    fn read(alloc: Global, tree: &Tree, walk: &mut Walk) -> Result<Self, ElementFault> {
        match tree {
            Tree::Table(members) => read_record(alloc, members, walk),
            Tree::Text(_) => {
                let Nanoseconds(period) = Nanoseconds::read(alloc, tree, walk)?;
                Ok(LeakTimeout::of(period))
            }
            _ => Err(walk.fault(alloc, ElementCause::WrongKind)),
        }
    }
}
