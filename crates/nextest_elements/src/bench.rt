//! The timeouts of benchmarks.
ghost use Rattle.nextest_tree.specs.Reads.{InTable};
ghost use Rattle.nextest_elements.specs.Bench.{bench_fields, bench, IsBench, bench_override_fields, bench_override, IsBenchOverride};

use crate::global_timeout::GlobalTimeout;
use crate::slow_timeout::SlowTimeout;
use nextest_tree::{
    Element, ElementCause, ElementFault, Key, Record, Tree, Walk, optional, read_record,
};
use std::alloc::Global;
use std::collections::BTreeMap;

/// The timeouts that a profile sets for benchmarks.
#[derive(Clone, Copy, Debug, PartialEq, Eq)]
pub struct BenchConfig {
    /// When a benchmark counts as slow.
    pub slow_timeout: Option<SlowTimeout>,
    /// How long a run of benchmarks may take.
    pub global_timeout: Option<GlobalTimeout>,
}

/// The timeout that an override sets for benchmarks.
#[derive(Clone, Copy, Debug, PartialEq, Eq)]
pub struct BenchOverride {
    /// When a benchmark counts as slow.
    pub slow_timeout: Option<SlowTimeout>,
}

impl Record for BenchConfig {
    ghost fields = { bench_fields };

    ghost is_record = { IsBench };

    fn keys() -> &'static [Key] {
        &[Key::SlowTimeout, Key::GlobalTimeout]
    }

    fn read_fields(
        alloc: Global,
        members: &BTreeMap<String, Tree>,
        walk: &mut Walk,
    ) -> Result<Self, ElementFault> {
        let slow_timeout = optional(alloc, members, Key::SlowTimeout, walk)?;
        let global_timeout = optional(alloc, members, Key::GlobalTimeout, walk)?;
        Ok(BenchConfig {
            slow_timeout,
            global_timeout,
        })
    }
}

#[tactic(auto, unfolding(nextest_tree::specs::Reads::reading, nextest_tree::specs::Reads::walk_view))]
impl Element for BenchConfig {
    ghost schema = { bench };

    ghost is_value = { InTable IsBench };

    fn read(alloc: Global, tree: &Tree, walk: &mut Walk) -> Result<Self, ElementFault> {
        match tree {
            Tree::Table(members) => read_record(alloc, members, walk),
            _ => Err(walk.fault(alloc, ElementCause::WrongKind)),
        }
    }
}

impl Record for BenchOverride {
    ghost fields = { bench_override_fields };

    ghost is_record = { IsBenchOverride };

    fn keys() -> &'static [Key] {
        &[Key::SlowTimeout]
    }

    fn read_fields(
        alloc: Global,
        members: &BTreeMap<String, Tree>,
        walk: &mut Walk,
    ) -> Result<Self, ElementFault> {
        Ok(BenchOverride {
            slow_timeout: optional(alloc, members, Key::SlowTimeout, walk)?,
        })
    }
}

#[tactic(auto, unfolding(nextest_tree::specs::Reads::reading, nextest_tree::specs::Reads::walk_view))]
impl Element for BenchOverride {
    ghost schema = { bench_override };

    ghost is_value = { InTable IsBenchOverride };

    fn read(alloc: Global, tree: &Tree, walk: &mut Walk) -> Result<Self, ElementFault> {
        match tree {
            Tree::Table(members) => read_record(alloc, members, walk),
            _ => Err(walk.fault(alloc, ElementCause::WrongKind)),
        }
    }
}
