//! What `cargo metadata` and `cargo nextest list` print, read from their JSON: the packages of a
//! workspace (`packages`) and its tests (`lists`). Fields of JSON objects (`fields`) are read alike
//! elsewhere.
#![tactic(auto)]

pub mod fields;
mod lists;
mod packages;

pub use fields::Wanted;
pub use lists::{ListFault, ListedBinary, ListedTest, ListedTests, TestCase, queries_of, tests_of};
pub use packages::{
    MemberSet, MetadataFault, MetadataPlace, PackageGraph, PackageTarget, law_reaching, targets_of,
};
