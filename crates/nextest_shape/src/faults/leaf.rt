//! The kinds of single values.
ghost use Rattle.std.specs.Prelude.{◌≡◌, IfOk};
ghost use Rattle.nextest_tree.specs.View.{tree_view};
ghost use Rattle.nextest_shape.specs.Faults.Found.{IsCause};
ghost use Rattle.nextest_shape.specs.Faults.Places.{leaf_test};

use crate::faults::values::{count_cause, element_cause, line_cause, words_cause};
use nextest_elements::{
    ConfigIdentifier, FinalStatusLevel, FlakyResult, JunitFlakyFailStatus, LeakTimeoutResult,
    Nanoseconds, Positive, ReportSkipPolicy, SlowTimeoutResult, StatusLevel, TestGroup,
    TestOutputDisplay, TestPriority, TestThreads, ThreadsRequired,
};
use nextest_scripts::{ScriptCommandRelativeTo, WrapperScriptTargetRunner};
use nextest_tree::{ElementCause, Tree};
use std::alloc::{AllocError, Global};

/// A kind of single value.
#[derive(Clone, Copy, Debug, PartialEq, Eq)]
pub(crate) enum Leaf {
    /// A text.
    Text,
    /// A boolean.
    Boolean,
    /// A duration.
    Duration,
    /// An identifier.
    Identifier,
    /// The group of a test.
    TestGroup,
    /// Whether a flaky test passes or fails.
    FlakyResult,
    /// Which tests are shown during a run.
    StatusLevel,
    /// Which tests are shown at the end of a run.
    FinalStatusLevel,
    /// When the output of a test is shown.
    Output,
    /// The priority of a test.
    Priority,
    /// How many tests run at a time.
    TestThreads,
    /// How many threads a test takes.
    ThreadsRequired,
    /// A number from 1.
    Positive,
    /// After how many failures a run ends.
    Limit,
    /// How often a test is tried again.
    Count,
    /// How delays grow.
    Backoff,
    /// Whether a test that leaks passes or fails.
    LeakResult,
    /// Whether a test that runs into its timeout passes or fails.
    SlowResult,
    /// The result of a setup script that runs into its timeout: only `fail`.
    SetupResult,
    /// Which skipped tests a report lists.
    ReportSkipped,
    /// How a report marks a flaky test.
    FlakyFailStatus,
    /// What the path of a program is relative to.
    RelativeTo,
    /// What a wrapper makes of a target runner.
    TargetRunner,
    /// The line of a command.
    CommandLine,
    /// A table, which is looked into elsewhere.
    Table,
    /// An array, which is looked into elsewhere.
    Array,
}

/// What is wrong with a limit of failures.
fn limit_cause(alloc: Global, tree: &Tree) -> Result<Option<ElementCause>, AllocError>
    ensures { IfOk result (λ cause. IsCause cause
        (leaf_test Leaf.Limit (tree_view tree.now))) }
{
    match tree.as_integer() {
        Some(_) => element_cause::<Positive>(alloc, tree),
        None => words_cause(alloc, tree, &["all"], "a positive number, `all`"),
    }
}

/// What is wrong with a value that is to be a table.
fn table_cause(tree: &Tree) -> Option<ElementCause>
    ensures { IsCause result (leaf_test Leaf.Table (tree_view tree.now)) }
{
    match tree {
        Tree::Table(_) => None,
        _ => Some(ElementCause::WrongKind),
    }
}

/// What is wrong with a value that is to be an array.
fn array_cause(tree: &Tree) -> Option<ElementCause>
    ensures { IsCause result (leaf_test Leaf.Array (tree_view tree.now)) }
{
    match tree {
        Tree::Array(_) => None,
        _ => Some(ElementCause::WrongKind),
    }
}

impl Leaf {
    /// What is wrong with a value that is to be of this kind.
    pub(crate) fn cause(
        self,
        alloc: Global,
        tree: &Tree,
    ) -> Result<Option<ElementCause>, AllocError>
        ensures { IfOk result (λ cause. IsCause cause (leaf_test self (tree_view tree.now))) }
    {
        match self {
            Leaf::Text => element_cause::<String>(alloc, tree),
            Leaf::Boolean => element_cause::<bool>(alloc, tree),
            Leaf::Duration => element_cause::<Nanoseconds>(alloc, tree),
            Leaf::Identifier => element_cause::<ConfigIdentifier>(alloc, tree),
            Leaf::TestGroup => element_cause::<TestGroup>(alloc, tree),
            Leaf::FlakyResult => element_cause::<FlakyResult>(alloc, tree),
            Leaf::StatusLevel => element_cause::<StatusLevel>(alloc, tree),
            Leaf::FinalStatusLevel => element_cause::<FinalStatusLevel>(alloc, tree),
            Leaf::Output => element_cause::<TestOutputDisplay>(alloc, tree),
            Leaf::Priority => element_cause::<TestPriority>(alloc, tree),
            Leaf::TestThreads => element_cause::<TestThreads>(alloc, tree),
            Leaf::ThreadsRequired => element_cause::<ThreadsRequired>(alloc, tree),
            Leaf::Positive => element_cause::<Positive>(alloc, tree),
            Leaf::Limit => limit_cause(alloc, tree),
            Leaf::Count => Ok(count_cause(tree)),
            Leaf::Backoff => words_cause(
                alloc,
                tree,
                &["fixed", "exponential"],
                "`fixed`, `exponential`",
            ),
            Leaf::LeakResult => element_cause::<LeakTimeoutResult>(alloc, tree),
            Leaf::SlowResult => element_cause::<SlowTimeoutResult>(alloc, tree),
            Leaf::SetupResult => words_cause(alloc, tree, &["fail"], "`fail`"),
            Leaf::ReportSkipped => element_cause::<ReportSkipPolicy>(alloc, tree),
            Leaf::FlakyFailStatus => element_cause::<JunitFlakyFailStatus>(alloc, tree),
            Leaf::RelativeTo => element_cause::<ScriptCommandRelativeTo>(alloc, tree),
            Leaf::TargetRunner => element_cause::<WrapperScriptTargetRunner>(alloc, tree),
            Leaf::CommandLine => line_cause(alloc, tree),
            Leaf::Table => Ok(table_cause(tree)),
            Leaf::Array => Ok(array_cause(tree)),
        }
    }
}
