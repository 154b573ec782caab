//! The profiles of a loaded configuration.
ghost use Rattle.std.specs.Prelude.{◌≡◌, IfOk};
ghost use Rattle.nextest_inheritance.specs.Parents.{parents_in, IsChain};
ghost use Rattle.nextest_inheritance.specs.View.{borrowed_view};
ghost use Rattle.nextest_load.specs.Config.{config_parents};
ghost use Rattle.nextest_settings.specs.Profiles.Profiles.{IsChainAndDefault};
ghost use Rattle.nextest_tables.specs.FileTexts.{names_in, IsIn};
ghost use Rattle.nextest_tree.specs.Schema.{is_one_of};

use crate::session::Config;
use nextest_config::ProfileNotFound;
use nextest_inheritance::{DEFAULT_PROFILE, chain_of};
use std::alloc::{AllocError, Global};

/// Whether a configuration has a profile of a name.
pub fn has_profile(config: &Config, name: &str) -> bool
    ensures { result ≡ is_one_of (names_in config.now.config.profiles) name.now }
{
    config.profiles().contains_key(name)
}

/// The chain of a profile, which `default` is not in. Of one that is not there it is empty.
fn chain_beside_default<'c>(
    alloc: Global,
    config: &'c Config,
    profile: &'c str,
) -> Result<Vec<&'c str>, AllocError>
    ensures { IsIn (names_in config.now.config.profiles) profile.now
        → IfOk result (λ chain. IsChain
        (parents_in (config_parents config.now.config)) profile.now (borrowed_view chain.items)) }
{
    if has_profile(config, profile) {
        chain_of(alloc, config.profiles(), profile)
    } else {
        Ok(Vec::new(alloc))
    }
}

/// The profiles that count for a profile, the nearest first, and `default` at last. For one that is
/// not there it is `default` alone.
pub fn chain_of_profile<'c>(
    alloc: Global,
    config: &'c Config,
    profile: &'c str,
) -> Result<Vec<&'c str>, AllocError>
    ensures { IsIn (names_in config.now.config.profiles) profile.now
        → IfOk result (λ chain. IsChainAndDefault
        (parents_in (config_parents config.now.config)) profile.now (borrowed_view chain.items)) }
{
    let mut chain = chain_beside_default(alloc, config, profile)?;
    chain.push(DEFAULT_PROFILE)?;
    Ok(chain)
}

/// That a configuration has no profile of a name, with the names of all that it has.
pub fn missing_profile(
    alloc: Global,
    config: &Config,
    name: &str,
) -> Result<ProfileNotFound, AllocError> {
    let mut known = Vec::new(alloc);
    for profile in config.profiles().keys() {
        known.push(profile.clone()?)?;
    }
    Ok(ProfileNotFound {
        name: String::from_str(alloc, name)?,
        known,
    })
}
