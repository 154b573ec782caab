//! The tests and the binaries of a list.
use nextest_engines::{BinaryQuery, TestQuery};

/// The tests and the binaries of a list.
#[derive(Clone, Copy, Debug)]
pub struct Listed<'a> {
    /// The tests, in the order of the list.
    pub tests: &'a [TestQuery<'a>],
    /// The binaries, also those without tests.
    pub binaries: &'a [BinaryQuery<'a>],
}
