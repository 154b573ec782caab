//! The chain of a profile, over the profiles of the merged tree.
ghost use Rattle.std.specs.Map.{keys_of};
ghost use Rattle.std.specs.Prelude.{IfOk};
ghost use Rattle.nextest_inheritance.specs.Parents.{parents_in, HasOneChain};
ghost use Rattle.nextest_inheritance.specs.View.{parents_view, borrowed_view};
ghost use Rattle.nextest_load.specs.Merged.{parent_in};
ghost use Rattle.nextest_settings.specs.Profiles.Profiles.{IsChainAndDefault};

use nextest_inheritance::{DEFAULT_PROFILE, chain_of};
use nextest_load::MergedProfile;
use std::alloc::{AllocError, Global};
use std::collections::BTreeMap;

/// The profiles that count for a profile, the nearest first: those of its chain, and then
/// `default`.
pub(crate) fn names_of<'cfg>(
    alloc: Global,
    profiles: &'cfg BTreeMap<String, MergedProfile>,
    name: &'cfg str,
) -> Result<Vec<&'cfg str>, AllocError>
    requires { let written = parents_view parent_in profiles.now.entries in
        HasOneChain (parents_in written) (keys_of written) name.now }
    ensures { let written = parents_view parent_in profiles.now.entries in
        IfOk result (λ names. IsChainAndDefault (parents_in written) name.now
        (borrowed_view names.items)) }
{
    let mut names = chain_of(alloc, profiles, name)?;
    names.push(DEFAULT_PROFILE)?;
    Ok(names)
}
