//! When the output of a test is shown.
ghost use Rattle.std.specs.Prelude.{Some};
ghost use Rattle.nextest_tree.specs.Leaf.{Spells};
ghost use Rattle.nextest_elements.specs.TestOutputDisplay.{test_output_display_at, test_output_display_text, a_test_output_display};

use nextest_tree::{Element, ElementFault, Tree, Walk, read_one_of};
use std::alloc::Global;
use std::fmt;

/// When the output of a test is shown.
#[derive(Clone, Copy, Debug, PartialEq, Eq)]
pub enum TestOutputDisplay {
    /// As soon as the test ends.
    Immediate,
    /// As soon as the test ends, and again at the end of the run.
    ImmediateFinal,
    /// At the end of the run.
    Final,
    /// Not at all.
    Never,
}

#[tactic(auto, unfolding(nextest_tree::specs::Reads::reading, nextest_tree::specs::Reads::walk_view, crate::specs::TestOutputDisplay::a_test_output_display, crate::specs::TestOutputDisplay::test_output_display_names, crate::specs::TestOutputDisplay::test_output_display_expected))]
impl Element for TestOutputDisplay {
    ghost schema = { a_test_output_display };

    ghost is_value = { Spells test_output_display_at };

    fn read(alloc: Global, tree: &Tree, walk: &mut Walk) -> Result<Self, ElementFault> {
        let names = [
            ("immediate", TestOutputDisplay::Immediate),
            ("immediate-final", TestOutputDisplay::ImmediateFinal),
            ("final", TestOutputDisplay::Final),
            ("never", TestOutputDisplay::Never),
        ];
        read_one_of(
            alloc,
            tree,
            walk,
            &names,
            "`immediate`, `immediate-final`, `final`, `never`",
        )
    }
}

impl fmt::Display for TestOutputDisplay {
    ghost output = { λ x. Some (test_output_display_text x) };

    fn fmt<W: fmt::Write>(&self, f: &mut fmt::Formatter<W>) -> fmt::Result {
        f.write_str(match self {
            TestOutputDisplay::Immediate => "immediate",
            TestOutputDisplay::ImmediateFinal => "immediate-final",
            TestOutputDisplay::Final => "final",
            TestOutputDisplay::Never => "never",
        })
    }
}
