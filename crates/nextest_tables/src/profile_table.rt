//! The table of a profile.
ghost use Rattle.nextest_tree.specs.Reads.{InTable};
ghost use Rattle.nextest_tables.specs.Values.{AreProfileEnds, AreProfileOutputs, AreProfileRuns, IsProfile, IsProfileRest};
ghost use Rattle.nextest_tables.specs.Tables.{a_profile, profile_end_fields, profile_fields, profile_output_fields, profile_rest_fields, profile_run_fields};

use crate::fields::list_at;
use crate::override_table::OverrideTable;
use crate::script_rule_table::ScriptRuleTable;
use nextest_elements::{
    BenchConfig, FinalStatusLevel, FlakyResult, GlobalTimeout, JunitImpl, LeakTimeout, MaxFail,
    RetryPolicy, SlowTimeout, StatusLevel, TestOutputDisplay, TestThreads, ThreadsRequired,
};
use nextest_tree::{Element, ElementFault, Ignored, Key, Record, Tree, Walk, optional, read_table};
use std::alloc::Global;
use std::collections::BTreeMap;

/// How a profile has tests run.
#[derive(Drop)]
pub struct ProfileRuns {
    /// How often a test is tried again.
    pub retries: Option<RetryPolicy>,
    /// The result of a test that passes at a later try.
    pub flaky_result: Option<FlakyResult>,
    /// How many tests run at once.
    pub test_threads: Option<TestThreads>,
    /// How many threads a test takes.
    pub threads_required: Option<ThreadsRequired>,
    /// The arguments that a test is given.
    pub run_extra_args: Option<Vec<String>>,
}

/// What a profile has shown.
#[derive(Drop)]
pub struct ProfileOutputs {
    /// Which results are shown during the run.
    pub status_level: Option<StatusLevel>,
    /// Which results are shown at the end.
    pub final_status_level: Option<FinalStatusLevel>,
    /// When the output of a test is shown where it fails.
    pub failure_output: Option<TestOutputDisplay>,
    /// When the output of a test is shown where it passes.
    pub success_output: Option<TestOutputDisplay>,
}

/// When a profile has a run or a test ended.
#[derive(Drop)]
pub struct ProfileEnds {
    /// After how many failures the run ends.
    pub max_fail: Option<MaxFail>,
    /// When a test counts as slow, and when it is ended.
    pub slow_timeout: Option<SlowTimeout>,
    /// How long the whole run may take.
    pub global_timeout: Option<GlobalTimeout>,
    /// How long what a test started may outlive it.
    pub leak_timeout: Option<LeakTimeout>,
}

/// What a profile writes for each of its fields.
#[derive(Drop)]
pub struct ProfileFields {
    /// How it has tests run.
    pub runs: ProfileRuns,
    /// What it has shown.
    pub outputs: ProfileOutputs,
    /// When it has a run or a test ended.
    pub ends: ProfileEnds,
    /// What it says of its report.
    pub junit: Option<JunitImpl>,
    /// What it says of benchmarks.
    pub bench: Option<BenchConfig>,
}

/// A profile as a file writes it.
#[derive(Drop)]
pub struct ProfileTable {
    /// The text of its default filter.
    pub default_filter: Option<String>,
    /// What it writes for each field.
    pub fields: ProfileFields,
    /// Its overrides, in the order of the file.
    pub overrides: Vec<OverrideTable>,
    /// Its script rules, in the order of the file.
    pub scripts: Vec<ScriptRuleTable>,
    /// The profile that it inherits from.
    pub inherits: Option<String>,
}

/// The lists and tables of a profile, and the profile that it inherits from.
#[derive(Drop)]
struct ProfileRest {
    overrides: Vec<OverrideTable>,
    scripts: Vec<ScriptRuleTable>,
    junit: Option<JunitImpl>,
    bench: Option<BenchConfig>,
    inherits: Option<String>,
}

impl Record for ProfileRuns {
    ghost fields = { profile_run_fields };

    ghost is_record = { AreProfileRuns };

    fn keys() -> &'static [Key] {
        &[
            Key::Retries,
            Key::FlakyResult,
            Key::TestThreads,
            Key::ThreadsRequired,
            Key::RunExtraArgs,
        ]
    }

    fn read_fields(
        alloc: Global,
        members: &BTreeMap<String, Tree>,
        walk: &mut Walk,
    ) -> Result<Self, ElementFault> {
        let retries = optional(alloc, members, Key::Retries, walk)?;
        let flaky_result = optional(alloc, members, Key::FlakyResult, walk)?;
        let test_threads = optional(alloc, members, Key::TestThreads, walk)?;
        let threads_required = optional(alloc, members, Key::ThreadsRequired, walk)?;
        let run_extra_args = optional(alloc, members, Key::RunExtraArgs, walk)?;
        Ok(ProfileRuns {
            retries,
            flaky_result,
            test_threads,
            threads_required,
            run_extra_args,
        })
    }
}

impl Record for ProfileOutputs {
    ghost fields = { profile_output_fields };

    ghost is_record = { AreProfileOutputs };

    fn keys() -> &'static [Key] {
        &[
            Key::StatusLevel,
            Key::FinalStatusLevel,
            Key::FailureOutput,
            Key::SuccessOutput,
        ]
    }

    fn read_fields(
        alloc: Global,
        members: &BTreeMap<String, Tree>,
        walk: &mut Walk,
    ) -> Result<Self, ElementFault> {
        let status_level = optional(alloc, members, Key::StatusLevel, walk)?;
        let final_status_level = optional(alloc, members, Key::FinalStatusLevel, walk)?;
        let failure_output = optional(alloc, members, Key::FailureOutput, walk)?;
        let success_output = optional(alloc, members, Key::SuccessOutput, walk)?;
        Ok(ProfileOutputs {
            status_level,
            final_status_level,
            failure_output,
            success_output,
        })
    }
}

impl Record for ProfileEnds {
    ghost fields = { profile_end_fields };

    ghost is_record = { AreProfileEnds };

    fn keys() -> &'static [Key] {
        &[
            Key::FailFast,
            Key::SlowTimeout,
            Key::GlobalTimeout,
            Key::LeakTimeout,
        ]
    }

    fn read_fields(
        alloc: Global,
        members: &BTreeMap<String, Tree>,
        walk: &mut Walk,
    ) -> Result<Self, ElementFault> {
        let max_fail = optional(alloc, members, Key::FailFast, walk)?;
        let slow_timeout = optional(alloc, members, Key::SlowTimeout, walk)?;
        let global_timeout = optional(alloc, members, Key::GlobalTimeout, walk)?;
        let leak_timeout = optional(alloc, members, Key::LeakTimeout, walk)?;
        Ok(ProfileEnds {
            max_fail,
            slow_timeout,
            global_timeout,
            leak_timeout,
        })
    }
}

impl Record for ProfileRest {
    ghost fields = { profile_rest_fields };

    ghost is_record = { IsProfileRest };

    fn keys() -> &'static [Key] {
        &[
            Key::Overrides,
            Key::Scripts,
            Key::Junit,
            Key::Archive,
            Key::Bench,
            Key::Inherits,
        ]
    }

    fn read_fields(
        alloc: Global,
        members: &BTreeMap<String, Tree>,
        walk: &mut Walk,
    ) -> Result<Self, ElementFault> {
        let overrides = list_at(alloc, members, Key::Overrides, walk)?;
        let scripts = list_at(alloc, members, Key::Scripts, walk)?;
        let junit = optional(alloc, members, Key::Junit, walk)?;
        let _archive: Option<Ignored> = optional(alloc, members, Key::Archive, walk)?;
        let bench = optional(alloc, members, Key::Bench, walk)?;
        let inherits = optional(alloc, members, Key::Inherits, walk)?;
        Ok(ProfileRest {
            overrides,
            scripts,
            junit,
            bench,
            inherits,
        })
    }
}

#[tactic(auto, using(nextest_tree::proofs::Reading::reading_joined), unfolding(crate::specs::Tables::profile_fields))]
impl Record for ProfileTable {
    ghost fields = { profile_fields };

    ghost is_record = { IsProfile };

    fn keys() -> &'static [Key] {
        &[
            Key::DefaultFilter,
            Key::Retries,
            Key::FlakyResult,
            Key::TestThreads,
            Key::ThreadsRequired,
            Key::RunExtraArgs,
            Key::StatusLevel,
            Key::FinalStatusLevel,
            Key::FailureOutput,
            Key::SuccessOutput,
            Key::FailFast,
            Key::SlowTimeout,
            Key::GlobalTimeout,
            Key::LeakTimeout,
            Key::Overrides,
            Key::Scripts,
            Key::Junit,
            Key::Archive,
            Key::Bench,
            Key::Inherits,
        ]
    }

    fn read_fields(
        alloc: Global,
        members: &BTreeMap<String, Tree>,
        walk: &mut Walk,
    ) -> Result<Self, ElementFault> {
        let default_filter = optional(alloc, members, Key::DefaultFilter, walk)?;
        let runs = ProfileRuns::read_fields(alloc, members, walk)?;
        let outputs = ProfileOutputs::read_fields(alloc, members, walk)?;
        let ends = ProfileEnds::read_fields(alloc, members, walk)?;
        let rest = ProfileRest::read_fields(alloc, members, walk)?;
        Ok(ProfileTable {
            default_filter,
            fields: ProfileFields {
                runs,
                outputs,
                ends,
                junit: rest.junit,
                bench: rest.bench,
            },
            overrides: rest.overrides,
            scripts: rest.scripts,
            inherits: rest.inherits,
        })
    }
}

#[tactic(auto, unfolding(crate::specs::Tables::a_profile))]
impl Element for ProfileTable {
    ghost schema = { a_profile };

    ghost is_value = { InTable IsProfile };

    fn read(alloc: Global, tree: &Tree, walk: &mut Walk) -> Result<Self, ElementFault> {
        read_table(alloc, tree, walk)
    }
}
