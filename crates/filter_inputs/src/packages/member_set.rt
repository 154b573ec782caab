//! Sets of members.
ghost use Rattle.std.specs.Prelude.{◌≡◌};
ghost use Rattle.filter_inputs.specs.Packages.GraphView.{has_member};

use std::collections::BTreeSet;

/// A set of members of the workspace, by their names.
#[derive(Debug, PartialEq, Drop)]
pub struct MemberSet {
    /// The names.
    pub names: BTreeSet<String>,
}

impl MemberSet {
    /// Returns whether a member of this name is in the set.
    pub fn contains(&self, name: &str) -> bool
        ensures { result ≡ has_member self.now name.now }
    {
        self.names.contains(name)
    }
}
