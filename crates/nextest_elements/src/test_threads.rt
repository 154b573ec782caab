//! How many tests run at a time.
ghost use Rattle.std.specs.Prelude.{◌≡◌};
ghost use Rattle.nextest_tree.specs.Leaf.{Spells};
ghost use Rattle.nextest_elements.specs.TestThreads.{test_threads_at, a_test_threads};

use nextest_tree::{Element, ElementCause, ElementFault, Tree, Walk, read_one_of};
use std::alloc::Global;

/// How many tests run at a time.
#[derive(Clone, Copy, Debug, PartialEq, Eq)]
pub enum TestThreads {
    /// This many, or for a negative number so many fewer than there are processors. Zero is never
    /// read.
    Count(i64),
    /// As many as there are processors.
    NumCpus,
}

impl TestThreads {
    ghost use Rattle.nextest_elements.specs.TestThreads.{test_thread_count};

    /// How many tests run at a time on a machine with so many processors.
    pub fn compute(self, num_cpus: u64) -> u64
        ensures { result ≡ test_thread_count self num_cpus }
    {
        match self {
            TestThreads::Count(count) => {
                if count > 0 {
                    count.unsigned_abs()
                } else {
                    num_cpus.saturating_sub(count.unsigned_abs()).max(1)
                }
            }
            TestThreads::NumCpus => num_cpus,
        }
    }
}

#[tactic(auto, unfolding(nextest_tree::specs::Reads::reading, nextest_tree::specs::Reads::walk_view, crate::specs::TestThreads::a_test_threads, crate::specs::TestThreads::test_threads_names, crate::specs::TestThreads::test_threads_expected))]
impl Element for TestThreads {
    ghost schema = { a_test_threads };

    ghost is_value = { Spells test_threads_at };

    fn read(alloc: Global, tree: &Tree, walk: &mut Walk) -> Result<Self, ElementFault> {
        match tree {
            Tree::Int(0) => Err(walk.fault(alloc, ElementCause::OutOfRange)),
            Tree::Int(count) => Ok(TestThreads::Count(*count)),
            Tree::Text(_) => {
                let names = [("num-cpus", TestThreads::NumCpus)];
                read_one_of(alloc, tree, walk, &names, "a nonzero number, `num-cpus`")
            }
            _ => Err(walk.fault(alloc, ElementCause::WrongKind)),
        }
    }
}
