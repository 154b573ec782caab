//! How many threads a test takes up.
ghost use Rattle.std.specs.Prelude.{◌≡◌, Some};
ghost use Rattle.nextest_tree.specs.Leaf.{Spells};
ghost use Rattle.nextest_elements.specs.ThreadsRequired.{threads_required_at, threads_required_text, a_threads_required};

use crate::positive::Positive;
use nextest_tree::{Element, ElementCause, ElementFault, Tree, Walk, read_one_of};
use std::alloc::Global;
use std::fmt;

/// How many threads a test takes up.
#[derive(Clone, Copy, Debug, PartialEq, Eq)]
pub enum ThreadsRequired {
    /// This many. Zero is never read.
    Count(u64),
    /// As many as there are processors.
    NumCpus,
    /// As many as there are test threads.
    NumTestThreads,
}

impl ThreadsRequired {
    ghost use Rattle.nextest_elements.specs.ThreadsRequired.{required_thread_count};

    /// How many threads a test takes up where there are so many processors and test threads.
    pub fn compute(self, num_cpus: u64, test_threads: u64) -> u64
        ensures { result ≡ required_thread_count self num_cpus test_threads }
    {
        match self {
            ThreadsRequired::Count(count) => count,
            ThreadsRequired::NumCpus => num_cpus,
            ThreadsRequired::NumTestThreads => test_threads,
        }
    }
}

#[tactic(auto, unfolding(nextest_tree::specs::Reads::reading, nextest_tree::specs::Reads::walk_view, crate::specs::Positive::a_positive, crate::specs::ThreadsRequired::a_threads_required, crate::specs::ThreadsRequired::threads_required_names, crate::specs::ThreadsRequired::threads_required_expected))]
impl Element for ThreadsRequired {
    ghost schema = { a_threads_required };

    ghost is_value = { Spells threads_required_at };

    fn read(alloc: Global, tree: &Tree, walk: &mut Walk) -> Result<Self, ElementFault> {
        match tree {
            Tree::Int(_) => {
                let Positive(count) = Positive::read(alloc, tree, walk)?;
                Ok(ThreadsRequired::Count(count))
            }
            Tree::Text(_) => {
                let names = [
                    ("num-cpus", ThreadsRequired::NumCpus),
                    ("num-test-threads", ThreadsRequired::NumTestThreads),
                ];
                read_one_of(
                    alloc,
                    tree,
                    walk,
                    &names,
                    "a positive number, `num-cpus`, `num-test-threads`",
                )
            }
            _ => Err(walk.fault(alloc, ElementCause::WrongKind)),
        }
    }
}

impl fmt::Display for ThreadsRequired {
    ghost output = { λ x. Some (threads_required_text x) };

    fn fmt<W: fmt::Write>(&self, f: &mut fmt::Formatter<W>) -> fmt::Result {
        match self {
            ThreadsRequired::Count(count) => write!(f, "{count}"),
            ThreadsRequired::NumCpus => f.write_str("num-cpus"),
            ThreadsRequired::NumTestThreads => f.write_str("num-test-threads"),
        }
    }
}
