//! What changes between two sides of a configuration: which settings of which tests have other
//! values, put together by value and origin. In `sides` is what both sides have: the tests that
//! both of their lists have, and what each gives to the whole run.
#![tactic(auto)]

mod arrow;
mod change;
mod classes;
mod diff;
mod github_page;
mod groups;
mod head;
mod json_page;
mod keyed;
mod laws;
mod markdown_page;
mod same;
mod same_origin;
mod sides;
mod text_page;
mod texts;

pub use change::{Comparison, RowChange, SideRow, TestChanges, changes_of};
pub use classes::{Class, ClassRule, Item, classes_of, items_of};
pub use diff::{BinaryTests, Diff, Side};
pub use github_page::diff_github;
pub use groups::{Group, groups_of};
pub use json_page::{diff_document, diff_json};
pub use keyed::keyed_changes;
pub use laws::{
    law_arrows, law_changes, law_classes, law_exactly, law_groups, law_keyed, law_like_origins,
    law_origins, law_swapped, law_values,
};
pub use markdown_page::diff_markdown;
pub use same_origin::TwoSources;
pub use sides::{AloneTests, Pair, Place, law_own_tests, pair_of, run_rows, test_of, tests_alone};
pub use text_page::diff_text;
