//! The profiles of a configuration: what they say, and what they give to tests.

mod chain;
mod early;
mod evaluatable;
mod facts;
mod known_groups;
mod laws;

pub use early::EarlyProfile;
pub use evaluatable::EvaluatableProfile;
pub use known_groups::KnownGroups;
pub use laws::{law_group_of_settings, law_known_groups, law_last_group, law_settings_of_texts};
