//! When a test counts as slow, and when it is ended.
ghost use Rattle.std.specs.Prelude.{◌≡◌, Some};
ghost use Rattle.nextest_tree.specs.Leaf.{Spells};
ghost use Rattle.nextest_elements.specs.SlowTimeout.{slow_result_text, slow_result_at, a_slow_result, slow_fields, slow_table, slow_timeout, slow_of, IsSlowTimeout};

use crate::nanoseconds::Nanoseconds;
use crate::positive::Positive;
use nextest_tree::{
    Element, ElementCause, ElementFault, Key, Record, Tree, Walk, optional, read_one_of,
    read_record, required,
};
use std::alloc::Global;
use std::collections::BTreeMap;
use std::fmt;

/// The nanoseconds of the grace period where none is given.
pub const USUAL_GRACE_PERIOD: u128 = 10_000_000_000;

/// The result of a test that is ended for its slowness.
#[derive(Clone, Copy, Debug, PartialEq, Eq)]
pub enum SlowTimeoutResult {
    /// The test fails.
    Fail,
    /// The test passes.
    Pass,
}

/// When a test counts as slow, and when it is ended.
#[derive(Clone, Copy, Debug, PartialEq, Eq)]
pub struct SlowTimeout {
    /// Nanoseconds after which a test counts as slow.
    pub period: u128,
    /// After how many periods, at least 1, a test is ended. Without it a slow test runs on.
    pub terminate_after: Option<u64>,
    /// Nanoseconds that a test has to end itself, before it is killed.
    pub grace_period: u128,
    /// The result of a test that is ended.
    pub on_timeout: SlowTimeoutResult,
}

impl Default for SlowTimeoutResult {
    ghost use Rattle.nextest_elements.specs.SlowTimeout.{usual_slow_result};

    ghost is_default = { λ result. result ≡ usual_slow_result };

    fn default() -> Self {
        SlowTimeoutResult::Fail
    }
}

impl SlowTimeoutResult {
    #[tactic(auto, unfolding(crate::specs::SlowTimeout::slow_result_text))]
    fn name(self) -> &'static str
        ensures { result.now ≡ slow_result_text self }
    {
        match self {
            SlowTimeoutResult::Fail => "fail",
            SlowTimeoutResult::Pass => "pass",
        }
    }
}

impl fmt::Display for SlowTimeoutResult {
    ghost output = { λ r. Some (slow_result_text r) };

    fn fmt<W: fmt::Write>(&self, f: &mut fmt::Formatter<W>) -> fmt::Result {
        f.write_str(self.name())
    }
}

impl SlowTimeout {
    /// The timeout of a period alone.
    fn of(period: u128) -> SlowTimeout
        ensures { result ≡ slow_of period }
    {
        SlowTimeout {
            period,
            terminate_after: None,
            grace_period: USUAL_GRACE_PERIOD,
            on_timeout: SlowTimeoutResult::default(),
        }
    }
}

#[tactic(auto, unfolding(nextest_tree::specs::Reads::reading, nextest_tree::specs::Reads::walk_view, crate::specs::SlowTimeout::a_slow_result, crate::specs::SlowTimeout::slow_result_names, crate::specs::SlowTimeout::slow_result_expected))]
impl Element for SlowTimeoutResult {
    ghost schema = { a_slow_result };

    ghost is_value = { Spells slow_result_at };

    fn read(alloc: Global, tree: &Tree, walk: &mut Walk) -> Result<Self, ElementFault> {
        let fail = SlowTimeoutResult::Fail;
        let pass = SlowTimeoutResult::Pass;
        let names = [(fail.name(), fail), (pass.name(), pass)];
        read_one_of(alloc, tree, walk, &names, "`fail`, `pass`")
    }
}

#[tactic(auto, using(nextest_tree::proofs::Reading::leaf_there, nextest_tree::proofs::Reading::leaf_read))]
impl Record for SlowTimeout {
    ghost fields = { slow_fields };

    ghost is_record = { λ es slow. slow_table es ≡ Some slow };

    fn keys() -> &'static [Key] {
        &[
            Key::Period,
            Key::TerminateAfter,
            Key::GracePeriod,
            Key::OnTimeout,
        ]
    }

    fn read_fields(
        alloc: Global,
        members: &BTreeMap<String, Tree>,
        walk: &mut Walk,
    ) -> Result<Self, ElementFault> {
        let Nanoseconds(period) = required(alloc, members, Key::Period, walk)?;
        let terminate_after = optional(alloc, members, Key::TerminateAfter, walk)?;
        let grace_period = optional(alloc, members, Key::GracePeriod, walk)?;
        let on_timeout = optional(alloc, members, Key::OnTimeout, walk)?;
        Ok(SlowTimeout {
            period,
            terminate_after: terminate_after.map(|Positive(periods)| periods),
            grace_period: Nanoseconds::number(grace_period).unwrap_or(USUAL_GRACE_PERIOD),
            on_timeout: on_timeout.unwrap_or_default(),
        })
    }
}

#[tactic(auto, unfolding(nextest_tree::specs::Reads::reading, nextest_tree::specs::Reads::walk_view, crate::specs::Nanoseconds::a_duration))]
impl Element for SlowTimeout {
    ghost schema = { slow_timeout };

    ghost is_value = { IsSlowTimeout };

    fn read(alloc: Global, tree: &Tree, walk: &mut Walk) -> Result<Self, ElementFault> {
        match tree {
            Tree::Table(members) => read_record(alloc, members, walk),
            Tree::Text(_) => {
                let Nanoseconds(period) = Nanoseconds::read(alloc, tree, walk)?;
                Ok(SlowTimeout::of(period))
            }
            _ => Err(walk.fault(alloc, ElementCause::WrongKind)),
        }
    }
}
