//! The cycles of parents.
//!
//! A walk from each profile follows parents until it comes to a name that was walked before, so
//! that no profile is walked twice.
ghost use Rattle.std.specs.Prelude.{◌≡◌, ◌<◌, ◌≤◌, ◌++◌, ◌⊎◌, ℕ, false, true, None, IfOk, MatchOption, option_map, length, map, take, drop, position, slice_index_or};
ghost use Rattle.std.specs.Set.{is_member};
ghost use Rattle.std.specs.Str.{bytes_eq};
ghost use denote.Ref.{Bor};
ghost use Rattle.nextest_inheritance.specs.Cycles.{AreCycles};
ghost use Rattle.nextest_inheritance.specs.Names.{Name, precedes};
ghost use Rattle.nextest_inheritance.specs.Parents.{parents_in};
ghost use Rattle.nextest_inheritance.specs.View.{parents_view, names_view, borrowed_view, has_name};
ghost use Rattle.nextest_inheritance.specs.Walks.{cycle_parents, IsWalk, IsTurned, path_from_name};

use crate::inherits::{Inherits, parent_of};
use crate::names::is_base;
use std::alloc::{AllocError, Global};
use std::collections::{BTreeMap, BTreeSet};

/// The parent of a profile that counts for cycles: a base profile has none, and no profile is its
/// own.
fn cycle_parent<'a, P: Inherits>(profiles: &'a BTreeMap<String, P>, name: &str) -> Option<&'a str>
    ensures { option_map (λ parent. parent.now) result
        ≡ cycle_parents (parents_in (parents_view P.parent profiles.now.entries)) name.now }
{
    if is_base(name) {
        return None;
    }
    let parent = parent_of(profiles, name)?;
    if parent == name { None } else { Some(parent) }
}

/// A walk along parents.
#[derive(Drop)]
struct Walk<'a> {
    /// The profiles that it went through, in order.
    path: Vec<&'a str>,
    /// The name at which it ended: one without a parent, or one that was walked.
    end: &'a str,
}

/// Walks from a profile along parents, and marks the profiles that it goes through.
fn walk_from<'a, P: Inherits>(
    alloc: Global,
    profiles: &'a BTreeMap<String, P>,
    walked: &mut BTreeSet<&'a str>,
    start: &'a str,
) -> Result<Walk<'a>, AllocError>
    ensures walk { let written = parents_view P.parent profiles.now.entries in
        IfOk result (λ walk. IsWalk (cycle_parents (parents_in written)) start.now
        (has_name walked.old) (has_name walked.new)
        (borrowed_view walk.path.items) walk.end.now) }
    ensures ended { let written = parents_view P.parent profiles.now.entries in
        IfOk result (λ walk. (cycle_parents (parents_in written) walk.end.now ≡ None)
        ⊎ (has_name walked.new walk.end.now ≡ true)) }
{
    let mut path = Vec::new(alloc);
    let mut end = start;
    while let Some(parent) = cycle_parent(profiles, end) {
        if !walked.insert(end)? {
            break;
        }
        path.push(end)?;
        end = parent;
    }
    Ok(Walk { path, end })
}

/// The first place of a name, if it is there.
fn place_of(names: &[&str], name: &str) -> Option<usize>
    ensures { result ≡ position (λ other. bytes_eq name.now other.now) names.now }
{
    names.iter().position(|other| name == *other)
}

impl<'a> Walk<'a> {
    /// The part of the walk that goes round: none, where it did not end at a name that it went
    /// through.
    fn ring(&self) -> &[&'a str]
        ensures { borrowed_view result.now
            ≡ path_from_name self.now.end.now (borrowed_view self.now.path.items) }
    {
        let place = place_of(&self.path, self.end);
        &self.path[place.unwrap_or(self.path.len())..]
    }
}

/// The place of the least name.
fn place_of_least(names: &[&str]) -> usize
    ensures within { 0 < length names.now → result < length names.now }
    ensures least { (place : ℕ) (d : Bor Name) → place < length names.now
        → precedes (slice_index_or names.now place d).now (slice_index_or names.now result d).now
        ≡ false }
{
    let mut least = 0;
    for (place, name) in names.iter().enumerate() {
        if *name < names[least] {
            least = place;
        }
    }
    least
}

/// The names from a place on, and then those before it.
fn names_from(alloc: Global, names: &[&str], place: usize) -> Result<Vec<String>, AllocError>
    requires { place ≤ length names.now }
    ensures { IfOk result (λ turned. names_view turned
        ≡ borrowed_view (drop place names.now) ++ borrowed_view (take place names.now)) }
{
    let mut turned = Vec::new(alloc);
    for name in &names[place..] {
        turned.push(String::from_str(alloc, name)?)?;
    }
    for name in &names[..place] {
        turned.push(String::from_str(alloc, name)?)?;
    }
    Ok(turned)
}

/// The cycle into which a walk came, from its least name, if it came into one that was not walked
/// before.
#[tactic(auto, using(crate::proofs::Least::least_turned))]
fn cycle_of(alloc: Global, walk: &Walk<'_>) -> Result<Option<Vec<String>>, AllocError>
    ensures { let path = borrowed_view walk.now.path.items in
        IfOk result (λ cycle. MatchOption cycle (is_member bytes_eq path walk.now.end.now ≡ false)
        (λ cycle. IsTurned (path_from_name walk.now.end.now path) (names_view cycle))) }
{
    let ring = walk.ring();
    if ring.is_empty() {
        return Ok(None);
    }
    let cycle = names_from(alloc, ring, place_of_least(ring))?;
    Ok(Some(cycle))
}

/// Walks from all profiles, and keeps the cycles into which the walks come.
fn cycle_set<P: Inherits>(
    alloc: Global,
    profiles: &BTreeMap<String, P>,
) -> Result<BTreeSet<Vec<String>>, AllocError>
    ensures { let written = parents_view P.parent profiles.now.entries in
        IfOk result (λ found. AreCycles (parents_in written) (map names_view found.keys)) }
{
    let mut walked = BTreeSet::new(alloc);
    let mut found = BTreeSet::new(alloc);
    for (start, _) in profiles.iter() {
        let walk = walk_from(alloc, profiles, &mut walked, start.as_str())?;
        if let Some(cycle) = cycle_of(alloc, &walk)? {
            found.insert(cycle)?;
        }
    }
    Ok(found)
}

/// The names of a set, in order.
fn in_order(alloc: Global, cycles: BTreeSet<Vec<String>>) -> Result<Vec<Vec<String>>, AllocError>
    ensures { IfOk result (λ listed. listed.items ≡ cycles.keys) }
{
    cycles.into_iter().collect(alloc)
}

/// All cycles of parents, each from its least name, in the order of these.
pub(crate) fn cycles<P: Inherits>(
    alloc: Global,
    profiles: &BTreeMap<String, P>,
) -> Result<Vec<Vec<String>>, AllocError>
    ensures { let written = parents_view P.parent profiles.now.entries in
        IfOk result (λ cycles. AreCycles (parents_in written) (map names_view cycles.items)) }
{
    let found = cycle_set(alloc, profiles)?;
    in_order(alloc, found)
}
