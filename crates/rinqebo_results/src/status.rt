//! The exit statuses of a run.

/// How a run ends. Its number, as `status as u8`, is the exit status.
#[derive(Clone, Copy, Debug, PartialEq, Eq)]
pub enum Status {
    /// The request succeeds. A check accepts the files.
    Success = 0,
    /// A check accepts the files with warnings, which the user denies; or nothing is set under the
    /// keys of `show-config`.
    Negative = 1,
    /// The command line, the list of tests, the metadata or the platforms are not understood, or
    /// several tests have the requested name.
    Usage = 2,
    /// The files are refused.
    Refused = 3,
    /// There is no profile, no binary or no test of the name.
    Missing = 4,
    /// Memory ran out.
    Memory = 5,
    /// A write failed.
    Write = 6,
}
