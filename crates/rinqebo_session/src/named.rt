//! The profiles of a configuration, by name.
ghost use Rattle.std.specs.Prelude.{◌≡◌, IfOk, MatchOption, false, map, string_bytes};
ghost use Rattle.std.specs.Cmp.Lexicographic.{slice_cmp};
ghost use Rattle.std.specs.List.Sorted.{IsStrictlySortedBy};
ghost use Rattle.std.specs.Ordering.{nat_cmp};
ghost use Rattle.nextest_config.specs.ProfileError.{TellsMissing};
ghost use Rattle.nextest_inheritance.specs.Parents.{parents_in, IsChain};
ghost use Rattle.nextest_inheritance.specs.View.{borrowed_view};
ghost use Rattle.nextest_load.specs.Config.{config_parents};
ghost use Rattle.nextest_settings.specs.Profiles.Profiles.{IsChainAndDefault, IsProfileOf};
ghost use Rattle.nextest_tables.specs.FileTexts.{names_in, IsIn};
ghost use Rattle.nextest_tree.specs.Schema.{is_one_of};
ghost use Rattle.rinqebo_session.specs.Opening.{IsEvaluated, IsKnownName, read_in};

use crate::loading::{Config, Loaded};
use filter_engine::NextestFilters;
use nextest_config::{EarlyProfile, EvaluatableProfile, MergedProfile, ProfileNotFound};
use nextest_inheritance::{DEFAULT_PROFILE, chain_of};
use platform_language::TargetSpecs;
use std::alloc::{AllocError, Global};
use std::collections::BTreeMap;

/// A profile before the machines of a build are known.
type Early<'c> = EarlyProfile<'c, NextestFilters, TargetSpecs>;

/// A profile on the machines of a build.
pub type Evaluated<'c> = EvaluatableProfile<'c, NextestFilters, TargetSpecs>;

/// The names of profiles, in the order of their bytes.
fn names_of_profiles(
    alloc: Global,
    profiles: &BTreeMap<String, MergedProfile>,
) -> Result<Vec<String>, AllocError>
    ensures all { IfOk result (λ names. map string_bytes names.items
        ≡ map (λ e. string_bytes e.0) profiles.now.entries) }
    ensures ascending { IfOk result (λ names.
        IsStrictlySortedBy (slice_cmp nat_cmp) (map string_bytes names.items)) }
{
    let mut names = Vec::new(alloc);
    for name in profiles.keys() {
        names.push(name.clone()?)?;
    }
    Ok(names)
}

/// The names of the profiles of a configuration, in the order of their bytes.
pub fn profile_names(alloc: Global, config: &Config) -> Result<Vec<String>, AllocError>
    ensures all { IfOk result (λ names. map string_bytes names.items
        ≡ names_in config.now.config.profiles) }
    ensures ascending { IfOk result (λ names.
        IsStrictlySortedBy (slice_cmp nat_cmp) (map string_bytes names.items)) }
{
    let names = names_of_profiles(alloc, config.profiles())?;
    Ok(names)
}

/// The name of a profile, as a configuration has it, if it has the profile.
pub fn known_name<'c>(config: &'c Config, name: &str) -> Option<&'c str>
    ensures { let names = names_in config.now.config.profiles in
        MatchOption result (is_one_of names name.now ≡ false)
        (λ known. IsKnownName names name.now known.now) }
{
    match config.profiles().get_key_value(name) {
        Some((known, _)) => Some(known.as_str()),
        None => None,
    }
}

/// That a configuration has no profile of a name, with the names of all that it has.
pub fn missing_profile(
    alloc: Global,
    config: &Config,
    name: &str,
) -> Result<ProfileNotFound, AllocError>
    requires { is_one_of (names_in config.now.config.profiles) name.now ≡ false }
    ensures { IfOk result (TellsMissing (names_in config.now.config.profiles) name.now) }
{
    Ok(ProfileNotFound {
        name: String::from_str(alloc, name)?,
        known: profile_names(alloc, config)?,
    })
}

/// The chain of a profile, which `default` is not in.
fn chain_in<'c>(
    alloc: Global,
    config: &'c Config,
    profile: &'c str,
) -> Result<Vec<&'c str>, AllocError>
    requires { IsIn (names_in config.now.config.profiles) profile.now }
    ensures { IfOk result (λ chain. IsChain
        (parents_in (config_parents config.now.config)) profile.now (borrowed_view chain.items)) }
{
    chain_of(alloc, config.profiles(), profile)
}

/// The profiles that count for a profile, the nearest first, and `default` at last.
pub fn chain_of_profile<'c>(
    alloc: Global,
    config: &'c Config,
    profile: &'c str,
) -> Result<Vec<&'c str>, AllocError>
    requires { IsIn (names_in config.now.config.profiles) profile.now }
    ensures { IfOk result (λ chain. IsChainAndDefault
        (parents_in (config_parents config.now.config)) profile.now (borrowed_view chain.items)) }
{
    let mut chain = chain_in(alloc, config, profile)?;
    chain.push(DEFAULT_PROFILE)?;
    Ok(chain)
}

/// The profile of a name, before the machines are known.
fn early_profile<'c>(
    alloc: Global,
    loaded: &'c Loaded,
    profile: &'c str,
) -> Result<Early<'c>, AllocError>
    requires { IsIn (names_in loaded.now.config.config.profiles) profile.now }
    ensures { IfOk result (IsProfileOf (read_in loaded.now) profile.now) }
{
    let root = loaded.files.paths.workspace_root.as_str();
    EarlyProfile::new(alloc, root, &loaded.config, profile)
}

/// The profile of a name on the machines of a build.
pub fn evaluated<'c>(
    alloc: Global,
    loaded: &'c Loaded,
    profile: &'c str,
) -> Result<Evaluated<'c>, AllocError>
    requires { IsIn (names_in loaded.now.config.config.profiles) profile.now }
    ensures { IfOk result (IsEvaluated loaded.now profile.now) }
{
    let early = early_profile(alloc, loaded, profile)?;
    match early.apply_build_platforms(alloc, &loaded.platforms) {
        Ok(profile) => Ok(profile),
        Err(_) => Err(AllocError),
    }
}
