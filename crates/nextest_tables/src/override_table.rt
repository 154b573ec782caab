//! The table of an override.
ghost use Rattle.nextest_tree.specs.Reads.{InTable};
ghost use Rattle.nextest_tables.specs.Values.{AreOverrideOutputs, AreOverrideRuns, IsOverride, IsOverrideHead};
ghost use Rattle.nextest_tables.specs.Tables.{an_override, override_fields, override_head_fields, override_output_fields, override_run_fields};

use crate::platform_strings::PlatformStrings;
use nextest_elements::{
    BenchOverride, FlakyResult, JunitOverride, LeakTimeout, RetryPolicy, SlowTimeout, TestGroup,
    TestOutputDisplay, TestPriority, ThreadsRequired,
};
use nextest_tree::{Element, ElementFault, Key, Record, Tree, Walk, optional, read_table};
use std::alloc::Global;
use std::collections::BTreeMap;

/// How an override has tests run.
#[derive(Drop)]
pub struct OverrideRuns {
    /// How many threads a test takes.
    pub threads_required: Option<ThreadsRequired>,
    /// The arguments that a test is given.
    pub run_extra_args: Option<Vec<String>>,
    /// How often a test is tried again.
    pub retries: Option<RetryPolicy>,
    /// The result of a test that passes at a later try.
    pub flaky_result: Option<FlakyResult>,
    /// When a test counts as slow, and when it is ended.
    pub slow_timeout: Option<SlowTimeout>,
    /// How long what a test started may outlive it.
    pub leak_timeout: Option<LeakTimeout>,
}

/// What an override has grouped, shown and reported.
#[derive(Drop)]
pub struct OverrideOutputs {
    /// The group that a test belongs to.
    pub test_group: Option<TestGroup>,
    /// When the output of a test is shown where it passes.
    pub success_output: Option<TestOutputDisplay>,
    /// When the output of a test is shown where it fails.
    pub failure_output: Option<TestOutputDisplay>,
    /// What it says of the report of a test.
    pub junit: Option<JunitOverride>,
    /// What it says of a test as a benchmark.
    pub bench: Option<BenchOverride>,
}

/// What an override writes for each setting.
#[derive(Drop)]
pub struct OverrideSettings {
    /// The priority of a test.
    pub priority: Option<TestPriority>,
    /// How it has tests run.
    pub runs: OverrideRuns,
    /// What it has grouped, shown and reported.
    pub outputs: OverrideOutputs,
}

/// An override as a file writes it.
#[derive(Drop)]
pub struct OverrideTable {
    /// The texts of its platform specs.
    pub platform: PlatformStrings,
    /// The text of its filter.
    pub filter: Option<String>,
    /// The text of its default filter.
    pub default_filter: Option<String>,
    /// What it writes for each setting.
    pub settings: OverrideSettings,
}

/// Which tests an override is for, their priority, and its default filter.
#[derive(Drop)]
struct OverrideHead {
    platform: PlatformStrings,
    filter: Option<String>,
    priority: Option<TestPriority>,
    default_filter: Option<String>,
}

impl Record for OverrideHead {
    ghost fields = { override_head_fields };

    ghost is_record = { IsOverrideHead };

    fn keys() -> &'static [Key] {
        &[
            Key::Platform,
            Key::Filter,
            Key::Priority,
            Key::DefaultFilter,
        ]
    }

    fn read_fields(
        alloc: Global,
        members: &BTreeMap<String, Tree>,
        walk: &mut Walk,
    ) -> Result<Self, ElementFault> {
        let platform = PlatformStrings::at(alloc, members, walk)?;
        let filter = optional(alloc, members, Key::Filter, walk)?;
        let priority = optional(alloc, members, Key::Priority, walk)?;
        let default_filter = optional(alloc, members, Key::DefaultFilter, walk)?;
        Ok(OverrideHead {
            platform,
            filter,
            priority,
            default_filter,
        })
    }
}

impl Record for OverrideRuns {
    ghost fields = { override_run_fields };

    ghost is_record = { AreOverrideRuns };

    fn keys() -> &'static [Key] {
        &[
            Key::ThreadsRequired,
            Key::RunExtraArgs,
            Key::Retries,
            Key::FlakyResult,
            Key::SlowTimeout,
            Key::LeakTimeout,
        ]
    }

    fn read_fields(
        alloc: Global,
        members: &BTreeMap<String, Tree>,
        walk: &mut Walk,
    ) -> Result<Self, ElementFault> {
        let threads_required = optional(alloc, members, Key::ThreadsRequired, walk)?;
        let run_extra_args = optional(alloc, members, Key::RunExtraArgs, walk)?;
        let retries = optional(alloc, members, Key::Retries, walk)?;
        let flaky_result = optional(alloc, members, Key::FlakyResult, walk)?;
        let slow_timeout = optional(alloc, members, Key::SlowTimeout, walk)?;
        let leak_timeout = optional(alloc, members, Key::LeakTimeout, walk)?;
        Ok(OverrideRuns {
            threads_required,
            run_extra_args,
            retries,
            flaky_result,
            slow_timeout,
            leak_timeout,
        })
    }
}

impl Record for OverrideOutputs {
    ghost fields = { override_output_fields };

    ghost is_record = { AreOverrideOutputs };

    fn keys() -> &'static [Key] {
        &[
            Key::TestGroup,
            Key::SuccessOutput,
            Key::FailureOutput,
            Key::Junit,
            Key::Bench,
        ]
    }

    fn read_fields(
        alloc: Global,
        members: &BTreeMap<String, Tree>,
        walk: &mut Walk,
    ) -> Result<Self, ElementFault> {
        let test_group = optional(alloc, members, Key::TestGroup, walk)?;
        let success_output = optional(alloc, members, Key::SuccessOutput, walk)?;
        let failure_output = optional(alloc, members, Key::FailureOutput, walk)?;
        let junit = optional(alloc, members, Key::Junit, walk)?;
        let bench = optional(alloc, members, Key::Bench, walk)?;
        Ok(OverrideOutputs {
            test_group,
            success_output,
            failure_output,
            junit,
            bench,
        })
    }
}

#[tactic(auto, using(nextest_tree::proofs::Reading::reading_joined), unfolding(crate::specs::Tables::override_fields))]
impl Record for OverrideTable {
    ghost fields = { override_fields };

    ghost is_record = { IsOverride };

    fn keys() -> &'static [Key] {
        &[
            Key::Platform,
            Key::Filter,
            Key::Priority,
            Key::DefaultFilter,
            Key::ThreadsRequired,
            Key::RunExtraArgs,
            Key::Retries,
            Key::FlakyResult,
            Key::SlowTimeout,
            Key::LeakTimeout,
            Key::TestGroup,
            Key::SuccessOutput,
            Key::FailureOutput,
            Key::Junit,
            Key::Bench,
        ]
    }

    fn read_fields(
        alloc: Global,
        members: &BTreeMap<String, Tree>,
        walk: &mut Walk,
    ) -> Result<Self, ElementFault> {
        let head = OverrideHead::read_fields(alloc, members, walk)?;
        let runs = OverrideRuns::read_fields(alloc, members, walk)?;
        let outputs = OverrideOutputs::read_fields(alloc, members, walk)?;
        Ok(OverrideTable {
            platform: head.platform,
            filter: head.filter,
            default_filter: head.default_filter,
            settings: OverrideSettings {
                priority: head.priority,
                runs,
                outputs,
            },
        })
    }
}

#[tactic(auto, unfolding(crate::specs::Tables::an_override))]
impl Element for OverrideTable {
    ghost schema = { an_override };

    ghost is_value = { InTable IsOverride };

    fn read(alloc: Global, tree: &Tree, walk: &mut Walk) -> Result<Self, ElementFault> {
        read_table(alloc, tree, walk)
    }
}
