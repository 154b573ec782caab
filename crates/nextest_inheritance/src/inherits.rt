//! Profiles that may write a parent.
ghost use Rattle.std.specs.Prelude.{◌≡◌, ℕ, List, Option, option_map};
ghost use Rattle.nextest_inheritance.specs.Parents.{parents_in};
ghost use Rattle.nextest_inheritance.specs.View.{parents_view};

use std::collections::BTreeMap;

/// A profile that may write the name of a parent.
pub trait Inherits {
    /// The parent that the profile writes, if it writes one.
    ghost parent: { Self → Option (List ℕ) };

    /// The parent that the profile writes, if it writes one.
    fn inherits(&self) -> Option<&str>
        ensures { option_map (λ name. name.now) result ≡ parent self.now };
}

/// The parent that the profile of a name writes, if there is such a profile and it writes one.
#[tactic(auto, using(crate::proofs::Views::parent_found))]
pub fn parent_of<'a, P: Inherits>(profiles: &'a BTreeMap<String, P>, name: &str) -> Option<&'a str>
    ensures { option_map (λ parent. parent.now) result
        ≡ parents_in (parents_view P.parent profiles.now.entries) name.now }
{
    profiles.get(name)?.inherits()
}
