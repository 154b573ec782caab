//! How often a test is tried again.
ghost use Rattle.std.specs.Prelude.{◌≡◌, Ok, option_map, IfOk};
ghost use Rattle.nextest_tree.specs.Node as Node;
ghost use Rattle.nextest_tree.specs.View.{entries_view};
ghost use Rattle.nextest_tree.specs.Reads.{Gives, reading, walk_view};
ghost use Rattle.nextest_elements.specs.RetryPolicy.{backoff_at, a_backoff, count_at, a_count, retry, retry_fields, IsRetry};
ghost use Rattle.nextest_elements.specs.RetryFunction.{HasRetryFields, policy_of};
ghost use Rattle.nextest_tree.specs.Leaf.{Spells};

use crate::nanoseconds::Nanoseconds;
use nextest_tree::{
    Element, ElementCause, ElementFault, Key, Record, Tree, Walk, optional, read_one_of,
    read_record, required, required_if,
};
use std::alloc::Global;
use std::collections::BTreeMap;

/// How the delays between tries grow.
#[derive(Clone, Copy, Debug, PartialEq, Eq)]
enum Backoff {
    /// They don't.
    Fixed,
    /// Each is longer than the one before.
    Exponential,
}

/// A number of tries.
#[derive(Clone, Copy, Debug, PartialEq, Eq)]
struct RetryCount(u32);

/// The fields of a table of `retries`, as they are written.
#[derive(Clone, Copy, Debug)]
struct RetryTable {
    backoff: Backoff,
    count: u32,
    delay: Option<u128>,
    jitter: Option<bool>,
    max_delay: Option<u128>,
}

/// How often a test is tried again.
#[derive(Clone, Copy, Debug, PartialEq, Eq)]
pub enum RetryPolicy {
    /// Every delay is the same.
    Fixed {
        /// How often a test is tried again.
        count: u32,
        /// Nanoseconds between two tries.
        delay: u128,
        /// Whether a delay is cut short at random.
        jitter: bool,
    },
    /// Each delay is longer than the one before.
    Exponential {
        /// How often a test is tried again.
        count: u32,
        /// Nanoseconds between the first two tries.
        delay: u128,
        /// Whether a delay is cut short at random.
        jitter: bool,
        /// Nanoseconds that no delay exceeds: never below `delay`.
        max_delay: Option<u128>,
    },
}

#[tactic(auto, unfolding(nextest_tree::specs::Reads::reading, nextest_tree::specs::Reads::walk_view, crate::specs::RetryPolicy::a_backoff, crate::specs::RetryPolicy::backoff_names, crate::specs::RetryPolicy::backoff_expected))]
impl Element for Backoff {
    ghost schema = { a_backoff };

    ghost is_value = { Spells backoff_at };

    fn read(alloc: Global, tree: &Tree, walk: &mut Walk) -> Result<Self, ElementFault> {
        let names = [
            ("fixed", Backoff::Fixed),
            ("exponential", Backoff::Exponential),
        ];
        read_one_of(alloc, tree, walk, &names, "`fixed`, `exponential`")
    }
}

#[tactic(auto, unfolding(nextest_tree::specs::Reads::reading, nextest_tree::specs::Reads::walk_view, crate::specs::RetryPolicy::a_count))]
impl Element for RetryCount {
    ghost schema = { a_count };

    ghost is_value = { λ n c. count_at n ≡ Ok c.0 };

    fn read(alloc: Global, tree: &Tree, walk: &mut Walk) -> Result<Self, ElementFault> {
        match tree {
            Tree::Int(number) => match u32::try_from(*number) {
                Ok(count) => Ok(RetryCount(count)),
                Err(_) => Err(walk.fault(alloc, ElementCause::OutOfRange)),
            },
            _ => Err(walk.fault(alloc, ElementCause::WrongKind)),
        }
    }
}

#[tactic(auto, using(nextest_tree::proofs::Reading::leaf_there, nextest_tree::proofs::Reading::leaf_read))]
impl Record for RetryTable {
    ghost fields = { retry_fields };

    ghost is_record = { HasRetryFields };

    fn keys() -> &'static [Key] {
        &[
            Key::Backoff,
            Key::Count,
            Key::Delay,
            Key::Jitter,
            Key::MaxDelay,
        ]
    }

    fn read_fields(
        alloc: Global,
        members: &BTreeMap<String, Tree>,
        walk: &mut Walk,
    ) -> Result<Self, ElementFault> {
        let backoff = required(alloc, members, Key::Backoff, walk)?;
        let RetryCount(count) = required(alloc, members, Key::Count, walk)?;
        let must = backoff == Backoff::Exponential;
        let delay = required_if(alloc, members, Key::Delay, must, walk)?;
        let jitter = optional(alloc, members, Key::Jitter, walk)?;
        let max_delay = optional(alloc, members, Key::MaxDelay, walk)?;
        Ok(RetryTable {
            backoff,
            count,
            delay: Nanoseconds::number(delay),
            jitter,
            max_delay: Nanoseconds::number(max_delay),
        })
    }
}

/// The policy of a table, unless delays grow and the greatest one is below the first.
fn policy(table: RetryTable) -> Option<RetryPolicy>
    ensures { result ≡ policy_of table }
{
    let count = table.count;
    let jitter = table.jitter.unwrap_or(false);
    match table.backoff {
        Backoff::Fixed => Some(RetryPolicy::Fixed {
            count,
            delay: table.delay.unwrap_or(0),
            jitter,
        }),
        Backoff::Exponential => {
            let delay = table.delay?;
            match table.max_delay {
                Some(greatest) if greatest < delay => None,
                max_delay => Some(RetryPolicy::Exponential {
                    count,
                    delay,
                    jitter,
                    max_delay,
                }),
            }
        }
    }
}

impl RetryPolicy {
    ghost use Rattle.std.specs.Prelude.{false};
    ghost use Rattle.nextest_elements.specs.RetryPolicy.{count_of};

    /// So many tries, one right after another.
    pub fn new_without_delay(count: u32) -> RetryPolicy
        ensures { result ≡ RetryPolicy.Fixed count 0 false }
    {
        RetryPolicy::Fixed {
            count,
            delay: 0,
            jitter: false,
        }
    }

    /// How often a test is tried again.
    pub fn count(&self) -> u32
        ensures { result ≡ count_of self.now }
    {
        match *self {
            RetryPolicy::Fixed { count, .. } | RetryPolicy::Exponential { count, .. } => count,
        }
    }
}

#[tactic(auto, unfolding(nextest_tree::specs::Reads::reading, nextest_tree::specs::Reads::walk_view, crate::specs::RetryPolicy::a_count))]
impl Element for RetryPolicy {
    ghost schema = { retry };

    ghost is_value = { IsRetry };

    fn read(alloc: Global, tree: &Tree, walk: &mut Walk) -> Result<Self, ElementFault> {
        match tree {
            Tree::Int(_) => {
                let RetryCount(count) = RetryCount::read(alloc, tree, walk)?;
                Ok(RetryPolicy::new_without_delay(count))
            }
            Tree::Table(members) => retry_of(alloc, members, walk),
            _ => Err(walk.fault(alloc, ElementCause::WrongKind)),
        }
    }
}

/// The policy of a table, or the first fault of it.
#[tactic(auto, using(nextest_tree::proofs::Reading::reading_across), unfolding(nextest_tree::specs::Reads::walk_view))]
fn retry_of(
    alloc: Global,
    members: &BTreeMap<String, Tree>,
    walk: &mut Walk,
) -> Result<RetryPolicy, ElementFault>
    ensures value { IfOk result
        (λ policy. IsRetry (Node.table (entries_view members.now.entries)) policy) }
    ensures reads { Gives result walk.new
        (reading retry (Node.table (entries_view members.now.entries)) (walk_view walk.old)) }
{
    let table = read_record(alloc, members, walk)?;
    match policy(table) {
        Some(policy) => Ok(policy),
        None => Err(walk.fault(alloc, ElementCause::OutOfRange)),
    }
}
