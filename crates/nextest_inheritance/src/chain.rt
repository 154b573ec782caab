//! The chain of a profile.
ghost use Rattle.std.specs.Prelude.{IfOk};
ghost use Rattle.std.specs.Map.{keys_of};
ghost use Rattle.nextest_inheritance.specs.Parents.{parents_in, IsChain, HasOneChain};
ghost use Rattle.nextest_inheritance.specs.View.{parents_view, borrowed_view};

use crate::inherits::{Inherits, parent_of};
use crate::names::DEFAULT_PROFILE;
use std::alloc::{AllocError, Global};
use std::collections::BTreeMap;

/// The chain of a profile: its name, that of its parent and those of its further ancestors, without
/// `default`, whose chain is empty.
pub fn chain_of<'a, P: Inherits>(
    alloc: Global,
    profiles: &'a BTreeMap<String, P>,
    name: &'a str,
) -> Result<Vec<&'a str>, AllocError>
    requires { let written = parents_view P.parent profiles.now.entries in
        HasOneChain (parents_in written) (keys_of written) name.now }
    ensures { let written = parents_view P.parent profiles.now.entries in
        IfOk result (λ chain. IsChain (parents_in written) name.now (borrowed_view chain.items)) }
{
    let mut chain = Vec::new(alloc);
    let mut next = name;
    while next != DEFAULT_PROFILE {
        chain.push(next)?;
        next = parent_of(profiles, next).unwrap_or(DEFAULT_PROFILE);
    }
    Ok(chain)
}
