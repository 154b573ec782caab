//! What is wrong with the parents that profiles write.
ghost use Rattle.std.specs.Prelude.{◌≡◌, ◌↔◌, [], IfOk, map, option_map, option_and_then};
ghost use Rattle.std.specs.BTreeSet.{contains_text};
ghost use Rattle.std.specs.Cmp.Lexicographic.{slice_cmp};
ghost use Rattle.std.specs.List.Sorted.{IsStrictlySortedBy};
ghost use Rattle.std.specs.Map.{keys_of};
ghost use Rattle.std.specs.Ordering.{nat_cmp};
ghost use Rattle.nextest_inheritance.specs.Faults as faults;
ghost use Rattle.nextest_inheritance.specs.Faults.{AreSoundParents, NameCycles, TellStranded, inheritance_faults};
ghost use Rattle.nextest_inheritance.specs.Found.{AreFaultsOf};
ghost use Rattle.nextest_inheritance.specs.Parents.{parents_in};
ghost use Rattle.nextest_inheritance.specs.View.{parents_view, inherits_error_view};

use crate::cycles::cycles;
use crate::error::InheritsError;
use crate::inherits::Inherits;
use crate::names::{DEFAULT_PROFILE, is_base};
use std::alloc::{AllocError, Global};
use std::collections::{BTreeMap, BTreeSet};

/// Whether a name is that of one of these profiles, or of a lower one.
#[tactic(auto, using(crate::proofs::Views::key_found))]
fn is_known<P: Inherits>(
    profiles: &BTreeMap<String, P>,
    lower: &BTreeSet<String>,
    name: &str,
) -> bool
    ensures { let written = parents_view P.parent profiles.now.entries in
        result ≡ faults.is_known (contains_text lower.now) written name.now }
{
    profiles.contains_key(name) || lower.contains(name)
}

/// What is wrong with the parent that a profile writes.
fn parent_error<P: Inherits>(
    alloc: Global,
    profiles: &BTreeMap<String, P>,
    lower: &BTreeSet<String>,
    name: &str,
    parent: &str,
) -> Result<Option<InheritsError>, AllocError>
    ensures { let written = parents_view P.parent profiles.now.entries in
        let known = faults.is_known (contains_text lower.now) written in
        IfOk result (λ error. option_map inherits_error_view error
        ≡ faults.parent_fault known name.now parent.now) }
{
    if is_base(name) {
        let profile = String::from_str(alloc, name)?;
        return Ok(Some(InheritsError::DefaultProfileInheritance(profile)));
    }
    if name == parent {
        let profile = String::from_str(alloc, name)?;
        return Ok(Some(InheritsError::SelfReferentialInheritance(profile)));
    }
    if is_known(profiles, lower, parent) {
        return Ok(None);
    }
    let profile = String::from_str(alloc, name)?;
    let parent = String::from_str(alloc, parent)?;
    Ok(Some(InheritsError::UnknownInheritance(profile, parent)))
}

/// What is wrong with a profile, if it writes a parent.
fn profile_error<P: Inherits>(
    alloc: Global,
    profiles: &BTreeMap<String, P>,
    lower: &BTreeSet<String>,
    name: &str,
    profile: &P,
) -> Result<Option<InheritsError>, AllocError>
    ensures { let written = parents_view P.parent profiles.now.entries in
        let known = faults.is_known (contains_text lower.now) written in
        IfOk result (λ error. option_map inherits_error_view error
        ≡ option_and_then (faults.parent_fault known name.now) (P.parent profile.now)) }
{
    match profile.inherits() {
        Some(parent) => parent_error(alloc, profiles, lower, name, parent),
        None => Ok(None),
    }
}

/// What is wrong with the parent of each profile: `default` first, the others by name.
fn parent_errors<P: Inherits>(
    alloc: Global,
    profiles: &BTreeMap<String, P>,
    lower: &BTreeSet<String>,
) -> Result<Vec<InheritsError>, AllocError>
    ensures faults { let written = parents_view P.parent profiles.now.entries in
        let known = faults.is_known (contains_text lower.now) written in
        IfOk result (λ errors.
        map inherits_error_view errors.items ≡ faults.parent_faults known written) }
    ensures ordered { let written = parents_view P.parent profiles.now.entries in
        IfOk result (λ _. IsStrictlySortedBy (slice_cmp nat_cmp) (keys_of written)) }
{
    let mut errors = Vec::new(alloc);
    let mut others = Vec::new(alloc);
    for (name, profile) in profiles.iter() {
        if let Some(error) = profile_error(alloc, profiles, lower, name.as_str(), profile)? {
            if name.as_str() == DEFAULT_PROFILE {
                errors.push(error)?;
            } else {
                others.push(error)?;
            }
        }
    }
    errors.append(&mut others)?;
    Ok(errors)
}

/// What is wrong with the parent of each profile, and then all cycles.
fn all_errors<P: Inherits>(
    alloc: Global,
    profiles: &BTreeMap<String, P>,
    lower: &BTreeSet<String>,
) -> Result<Vec<InheritsError>, AllocError>
    ensures { let written = parents_view P.parent profiles.now.entries in
        IfOk result (λ errors.
        AreFaultsOf (contains_text lower.now) written (map inherits_error_view errors.items)) }
{
    let mut errors = parent_errors(alloc, profiles, lower)?;
    let cycles = cycles(alloc, profiles)?;
    if cycles.is_empty() {
        return Ok(errors);
    }
    errors.push(InheritsError::InheritanceCycle(cycles))?;
    Ok(errors)
}

/// All that is wrong with the parents that profiles write: that of `default` first, then those of
/// the others by name, and one refusal of all cycles.
///
/// A parent has to be one of these profiles or one of `lower`, the profiles of lower files.
pub fn inheritance_errors<P: Inherits>(
    alloc: Global,
    profiles: &BTreeMap<String, P>,
    lower: &BTreeSet<String>,
) -> Result<Vec<InheritsError>, AllocError>
    ensures is { let written = parents_view P.parent profiles.now.entries in
        IfOk result (λ errors. map inherits_error_view errors.items
        ≡ inheritance_faults (contains_text lower.now) written) }

    // There is none exactly if the parents are sound.
    ensures sound { let written = parents_view P.parent profiles.now.entries in
        let known = faults.is_known (contains_text lower.now) written in
        IfOk result (λ errors. (errors.items ≡ []) ↔ AreSoundParents (parents_in written) known) }

    // They name exactly the cycles.
    ensures cycles { let written = parents_view P.parent profiles.now.entries in
        IfOk result (λ errors.
        NameCycles (parents_in written) (map inherits_error_view errors.items)) }

    // They decide which names have no chain.
    ensures stranded { let written = parents_view P.parent profiles.now.entries in
        IfOk result (λ errors.
        TellStranded (parents_in written) (map inherits_error_view errors.items)) }
{
    all_errors(alloc, profiles, lower)
}
