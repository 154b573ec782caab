//! What a run does.

/// What a run does.
#[derive(Clone, Copy, Debug, PartialEq, Eq)]
pub enum NextestRunMode {
    /// It runs tests.
    Test,
    /// It runs benchmarks.
    Benchmark,
}
