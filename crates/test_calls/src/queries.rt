//! Queries for tests and binaries.
use nextest_engines::{BinaryQuery, BuildPlatform, TestQuery};

/// The query for a binary of this id.
pub fn binary_of(binary_id: &str) -> BinaryQuery<'_> {
    BinaryQuery {
        package_id: "",
        binary_id,
        kind: "",
        binary_name: "",
        platform: BuildPlatform::Target,
    }
}

/// The query for the test `t` of a binary of this id.
pub fn test_in(binary_id: &str) -> TestQuery<'_> {
    TestQuery::of(binary_id, "t")
}

/// The query for a test of this name, of the binary `b`.
pub fn test_of(test_name: &str) -> TestQuery<'_> {
    TestQuery::of("b", test_name)
}
