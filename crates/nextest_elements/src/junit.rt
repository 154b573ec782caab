//! What a report of tests in the format of JUnit holds.
ghost use Rattle.std.specs.Prelude.{Some};
ghost use Rattle.nextest_tree.specs.Leaf.{Spells};
ghost use Rattle.nextest_tree.specs.Reads.{InTable};
ghost use Rattle.nextest_elements.specs.Junit.{report_skip_policy_at, report_skip_policy_text, a_report_skip_policy, junit_flaky_fail_status_at, junit_flaky_fail_status_text, a_junit_flaky_fail_status, a_junit, junit_fields, IsJunit, a_junit_override, junit_override_fields, IsJunitOverride};

use nextest_tree::{
    Element, ElementCause, ElementFault, Key, Record, Tree, Walk, optional, read_one_of,
    read_record,
};
use std::alloc::Global;
use std::collections::BTreeMap;
use std::fmt;

/// Which skipped tests a report lists.
#[derive(Clone, Copy, Debug, PartialEq, Eq)]
pub enum ReportSkipPolicy {
    /// None of them.
    None,
    /// All of them.
    All,
}

impl Default for ReportSkipPolicy {
    ghost use Rattle.std.specs.Prelude.{◌≡◌};
    ghost use Rattle.nextest_elements.specs.Junit.{usual_report_skip_policy};

    ghost is_default = { λ policy. policy ≡ usual_report_skip_policy };

    fn default() -> Self {
        ReportSkipPolicy::None
    }
}

#[tactic(auto, unfolding(nextest_tree::specs::Reads::reading, nextest_tree::specs::Reads::walk_view, crate::specs::Junit::a_report_skip_policy, crate::specs::Junit::report_skip_policy_names, crate::specs::Junit::report_skip_policy_expected))]
impl Element for ReportSkipPolicy {
    ghost schema = { a_report_skip_policy };

    ghost is_value = { Spells report_skip_policy_at };

    fn read(alloc: Global, tree: &Tree, walk: &mut Walk) -> Result<Self, ElementFault> {
        let names = [
            ("none", ReportSkipPolicy::None),
            ("all", ReportSkipPolicy::All),
        ];
        read_one_of(alloc, tree, walk, &names, "`none`, `all`")
    }
}

impl fmt::Display for ReportSkipPolicy {
    ghost output = { λ x. Some (report_skip_policy_text x) };

    fn fmt<W: fmt::Write>(&self, f: &mut fmt::Formatter<W>) -> fmt::Result {
        f.write_str(match self {
            ReportSkipPolicy::None => "none",
            ReportSkipPolicy::All => "all",
        })
    }
}

/// How a report marks a flaky test that counts as failed.
#[derive(Clone, Copy, Debug, PartialEq, Eq)]
pub enum JunitFlakyFailStatus {
    /// As failed.
    Failure,
    /// As passed.
    Success,
}

impl Default for JunitFlakyFailStatus {
    ghost use Rattle.std.specs.Prelude.{◌≡◌};
    ghost use Rattle.nextest_elements.specs.Junit.{usual_junit_flaky_fail_status};

    ghost is_default = { λ status. status ≡ usual_junit_flaky_fail_status };

    fn default() -> Self {
        JunitFlakyFailStatus::Failure
    }
}

#[tactic(auto, unfolding(nextest_tree::specs::Reads::reading, nextest_tree::specs::Reads::walk_view, crate::specs::Junit::a_junit_flaky_fail_status, crate::specs::Junit::junit_flaky_fail_status_names, crate::specs::Junit::junit_flaky_fail_status_expected))]
impl Element for JunitFlakyFailStatus {
    ghost schema = { a_junit_flaky_fail_status };

    ghost is_value = { Spells junit_flaky_fail_status_at };

    fn read(alloc: Global, tree: &Tree, walk: &mut Walk) -> Result<Self, ElementFault> {
        let names = [
            ("failure", JunitFlakyFailStatus::Failure),
            ("success", JunitFlakyFailStatus::Success),
        ];
        read_one_of(alloc, tree, walk, &names, "`failure`, `success`")
    }
}

impl fmt::Display for JunitFlakyFailStatus {
    ghost output = { λ x. Some (junit_flaky_fail_status_text x) };

    fn fmt<W: fmt::Write>(&self, f: &mut fmt::Formatter<W>) -> fmt::Result {
        f.write_str(match self {
            JunitFlakyFailStatus::Failure => "failure",
            JunitFlakyFailStatus::Success => "success",
        })
    }
}

/// The report of a profile, as its table is written.
#[derive(Debug, Drop)]
pub struct JunitImpl {
    /// Where the report is written.
    pub path: Option<String>,
    /// The name that it gives itself.
    pub report_name: Option<String>,
    /// Whether it holds the output of tests that pass.
    pub store_success_output: Option<bool>,
    /// Whether it holds the output of tests that fail.
    pub store_failure_output: Option<bool>,
    /// Which skipped tests it lists.
    pub report_skipped: Option<ReportSkipPolicy>,
    /// How it marks a flaky test that counts as failed.
    pub flaky_fail_status: Option<JunitFlakyFailStatus>,
}

/// What an override says of the report.
#[derive(Clone, Copy, Debug, PartialEq, Eq)]
pub struct JunitOverride {
    /// Whether it holds the output of tests that pass.
    pub store_success_output: Option<bool>,
    /// Whether it holds the output of tests that fail.
    pub store_failure_output: Option<bool>,
    /// Which skipped tests it lists.
    pub report_skipped: Option<ReportSkipPolicy>,
    /// How it marks a flaky test that counts as failed.
    pub flaky_fail_status: Option<JunitFlakyFailStatus>,
}

/// The report of a run.
#[derive(Debug, Drop)]
pub struct JunitConfig {
    /// Where the report is written, under the store directory.
    pub path: String,
    /// The name that it gives itself.
    pub report_name: String,
    /// Whether it holds the output of tests that pass.
    pub store_success_output: bool,
    /// Whether it holds the output of tests that fail.
    pub store_failure_output: bool,
    /// Which skipped tests it lists.
    pub report_skipped: ReportSkipPolicy,
    /// How it marks a flaky test that counts as failed.
    pub flaky_fail_status: JunitFlakyFailStatus,
}

#[tactic(auto, unfolding(nextest_tree::specs::Reads::reading, nextest_tree::specs::Reads::walk_view, crate::specs::Junit::a_junit))]
impl Element for JunitImpl {
    ghost schema = { a_junit };

    ghost is_value = { InTable IsJunit };

    fn read(alloc: Global, tree: &Tree, walk: &mut Walk) -> Result<Self, ElementFault> {
        match tree {
            Tree::Table(members) => read_record(alloc, members, walk),
            _ => Err(walk.fault(alloc, ElementCause::WrongKind)),
        }
    }
}

impl Record for JunitImpl {
    ghost fields = { junit_fields };

    ghost is_record = { IsJunit };

    fn keys() -> &'static [Key] {
        &[
            Key::Path,
            Key::ReportName,
            Key::StoreSuccessOutput,
            Key::StoreFailureOutput,
            Key::ReportSkipped,
            Key::FlakyFailStatus,
        ]
    }

    fn read_fields(
        alloc: Global,
        members: &BTreeMap<String, Tree>,
        walk: &mut Walk,
    ) -> Result<Self, ElementFault> {
        let path = optional(alloc, members, Key::Path, walk)?;
        let report_name = optional(alloc, members, Key::ReportName, walk)?;
        let store_success_output = optional(alloc, members, Key::StoreSuccessOutput, walk)?;
        let store_failure_output = optional(alloc, members, Key::StoreFailureOutput, walk)?;
        let report_skipped = optional(alloc, members, Key::ReportSkipped, walk)?;
        let flaky_fail_status = optional(alloc, members, Key::FlakyFailStatus, walk)?;
        Ok(JunitImpl {
            path,
            report_name,
            store_success_output,
            store_failure_output,
            report_skipped,
            flaky_fail_status,
        })
    }
}

#[tactic(auto, unfolding(nextest_tree::specs::Reads::reading, nextest_tree::specs::Reads::walk_view, crate::specs::Junit::a_junit_override))]
impl Element for JunitOverride {
    ghost schema = { a_junit_override };

    ghost is_value = { InTable IsJunitOverride };

    fn read(alloc: Global, tree: &Tree, walk: &mut Walk) -> Result<Self, ElementFault> {
        match tree {
            Tree::Table(members) => read_record(alloc, members, walk),
            _ => Err(walk.fault(alloc, ElementCause::WrongKind)),
        }
    }
}

impl Record for JunitOverride {
    ghost fields = { junit_override_fields };

    ghost is_record = { IsJunitOverride };

    fn keys() -> &'static [Key] {
        &[
            Key::StoreSuccessOutput,
            Key::StoreFailureOutput,
            Key::ReportSkipped,
            Key::FlakyFailStatus,
        ]
    }

    fn read_fields(
        alloc: Global,
        members: &BTreeMap<String, Tree>,
        walk: &mut Walk,
    ) -> Result<Self, ElementFault> {
        let store_success_output = optional(alloc, members, Key::StoreSuccessOutput, walk)?;
        let store_failure_output = optional(alloc, members, Key::StoreFailureOutput, walk)?;
        let report_skipped = optional(alloc, members, Key::ReportSkipped, walk)?;
        let flaky_fail_status = optional(alloc, members, Key::FlakyFailStatus, walk)?;
        Ok(JunitOverride {
            store_success_output,
            store_failure_output,
            report_skipped,
            flaky_fail_status,
        })
    }
}
