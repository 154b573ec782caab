//! Which tests are reported.
ghost use Rattle.std.specs.Prelude.{Some};
ghost use Rattle.nextest_tree.specs.Leaf.{Spells};
ghost use Rattle.nextest_elements.specs.StatusLevel.{status_level_at, status_level_text, a_status_level, final_status_level_at, final_status_level_text, a_final_status_level};

use nextest_tree::{Element, ElementFault, Tree, Walk, read_one_of};
use std::alloc::Global;
use std::fmt;

/// Which tests are reported while they run. Each level includes those before it.
#[derive(Clone, Copy, Debug, PartialEq, Eq, PartialOrd, Ord)]
pub enum StatusLevel {
    /// No test.
    None,
    /// Tests that fail.
    Fail,
    /// Tests that are tried again.
    Retry,
    /// Slow tests.
    Slow,
    /// Tests that leak.
    Leak,
    /// Tests that pass.
    Pass,
    /// Tests that are skipped.
    Skip,
    /// Everything.
    All,
}

#[tactic(auto, unfolding(nextest_tree::specs::Reads::reading, nextest_tree::specs::Reads::walk_view, crate::specs::StatusLevel::a_status_level, crate::specs::StatusLevel::status_level_names, crate::specs::StatusLevel::status_level_expected))]
impl Element for StatusLevel {
    ghost schema = { a_status_level };

    ghost is_value = { Spells status_level_at };

    fn read(alloc: Global, tree: &Tree, walk: &mut Walk) -> Result<Self, ElementFault> {
        let names = [
            ("none", StatusLevel::None),
            ("fail", StatusLevel::Fail),
            ("retry", StatusLevel::Retry),
            ("slow", StatusLevel::Slow),
            ("leak", StatusLevel::Leak),
            ("pass", StatusLevel::Pass),
            ("skip", StatusLevel::Skip),
            ("all", StatusLevel::All),
        ];
        read_one_of(
            alloc,
            tree,
            walk,
            &names,
            "`none`, `fail`, `retry`, `slow`, `leak`, `pass`, `skip`, `all`",
        )
    }
}

impl fmt::Display for StatusLevel {
    ghost output = { λ x. Some (status_level_text x) };

    fn fmt<W: fmt::Write>(&self, f: &mut fmt::Formatter<W>) -> fmt::Result {
        f.write_str(match self {
            StatusLevel::None => "none",
            StatusLevel::Fail => "fail",
            StatusLevel::Retry => "retry",
            StatusLevel::Slow => "slow",
            StatusLevel::Leak => "leak",
            StatusLevel::Pass => "pass",
            StatusLevel::Skip => "skip",
            StatusLevel::All => "all",
        })
    }
}

/// Which tests are reported at the end of a run. Each level includes those before it.
#[derive(Clone, Copy, Debug, PartialEq, Eq, PartialOrd, Ord)]
pub enum FinalStatusLevel {
    /// No test.
    None,
    /// Tests that fail.
    Fail,
    /// Tests that pass only after they were tried again. It is also spelled `retry`.
    Flaky,
    /// Slow tests.
    Slow,
    /// Tests that are skipped.
    Skip,
    /// Tests that leak.
    Leak,
    /// Tests that pass.
    Pass,
    /// Everything.
    All,
}

#[tactic(auto, unfolding(nextest_tree::specs::Reads::reading, nextest_tree::specs::Reads::walk_view, crate::specs::StatusLevel::a_final_status_level, crate::specs::StatusLevel::final_status_level_names, crate::specs::StatusLevel::final_status_level_expected))]
impl Element for FinalStatusLevel {
    ghost schema = { a_final_status_level };

    ghost is_value = { Spells final_status_level_at };

    fn read(alloc: Global, tree: &Tree, walk: &mut Walk) -> Result<Self, ElementFault> {
        let names = [
            ("none", FinalStatusLevel::None),
            ("fail", FinalStatusLevel::Fail),
            ("flaky", FinalStatusLevel::Flaky),
            ("slow", FinalStatusLevel::Slow),
            ("skip", FinalStatusLevel::Skip),
            ("leak", FinalStatusLevel::Leak),
            ("pass", FinalStatusLevel::Pass),
            ("all", FinalStatusLevel::All),
            ("retry", FinalStatusLevel::Flaky),
        ];
        read_one_of(
            alloc,
            tree,
            walk,
            &names,
            "`none`, `fail`, `flaky`, `slow`, `skip`, `leak`, `pass`, `all`",
        )
    }
}

impl fmt::Display for FinalStatusLevel {
    ghost output = { λ x. Some (final_status_level_text x) };

    fn fmt<W: fmt::Write>(&self, f: &mut fmt::Formatter<W>) -> fmt::Result {
        f.write_str(match self {
            FinalStatusLevel::None => "none",
            FinalStatusLevel::Fail => "fail",
            FinalStatusLevel::Flaky => "flaky",
            FinalStatusLevel::Slow => "slow",
            FinalStatusLevel::Skip => "skip",
            FinalStatusLevel::Leak => "leak",
            FinalStatusLevel::Pass => "pass",
            FinalStatusLevel::All => "all",
        })
    }
}
