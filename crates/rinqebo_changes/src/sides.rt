//! What two sides of a comparison have: the tests of their lists that both have, and what each
//! gives to the whole run.

mod laws;
mod matched;
mod rows;

pub use laws::law_own_tests;
pub use matched::{AloneTests, Pair, Place, pair_of, test_of, tests_alone};
pub use rows::run_rows;
