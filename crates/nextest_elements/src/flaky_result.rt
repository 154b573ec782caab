//! The result of a flaky test.
ghost use Rattle.std.specs.Prelude.{Some};
ghost use Rattle.nextest_tree.specs.Leaf.{Spells};
ghost use Rattle.nextest_elements.specs.FlakyResult.{flaky_result_at, flaky_result_text, a_flaky_result};

use nextest_tree::{Element, ElementFault, Tree, Walk, read_one_of};
use std::alloc::Global;
use std::fmt;

/// The result of a test that passes only when it is retried.
#[derive(Clone, Copy, Debug, PartialEq, Eq)]
pub enum FlakyResult {
    /// It counts as passed.
    Pass,
    /// It counts as failed.
    Fail,
}

#[tactic(auto, unfolding(nextest_tree::specs::Reads::reading, nextest_tree::specs::Reads::walk_view, crate::specs::FlakyResult::a_flaky_result, crate::specs::FlakyResult::flaky_result_names, crate::specs::FlakyResult::flaky_result_expected))]
impl Element for FlakyResult {
    ghost schema = { a_flaky_result };

    ghost is_value = { Spells flaky_result_at };

    fn read(alloc: Global, tree: &Tree, walk: &mut Walk) -> Result<Self, ElementFault> {
        let names = [("pass", FlakyResult::Pass), ("fail", FlakyResult::Fail)];
        read_one_of(alloc, tree, walk, &names, "`pass`, `fail`")
    }
}

impl fmt::Display for FlakyResult {
    ghost output = { λ x. Some (flaky_result_text x) };

    fn fmt<W: fmt::Write>(&self, f: &mut fmt::Formatter<W>) -> fmt::Result {
        f.write_str(match self {
            FlakyResult::Pass => "pass",
            FlakyResult::Fail => "fail",
        })
    }
}
