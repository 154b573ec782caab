//! Groups that rules write and that are not known.
use nextest_elements::CustomTestGroup;
use thiserror::Error;

/// A rule writes a group that neither its own file nor a lower one defines.
#[derive(Debug, Drop, Error)]
#[error("profile `{profile_name}`: unknown group `{name}`")]
pub struct UnknownTestGroupError {
    /// The profile of the rule.
    pub profile_name: String,
    /// The group.
    pub name: CustomTestGroup,
}
