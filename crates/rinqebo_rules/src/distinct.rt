//! Whether rules are distinct: no two of them are at one place.
ghost use Rattle.std.specs.Prelude.{◌≡◌, ◌↔◌, false, IfOk, IsTrue, map};
ghost use Rattle.nextest_settings.specs.View.{meant_override, meant_script_rule};
ghost use Rattle.rinqebo_origins.specs.RulePlaces.{id_place, place_view, script_place};
ghost use Rattle.rinqebo_rules.specs.Distinct.{AreDistinct, IsBehind, IsOfNone, IsOfOneList};
ghost use Rattle.rinqebo_rules.specs.Passed.{ids_of};

use nextest_engines::{Filters, Specs};
use nextest_settings::{EvaluatedOverride, EvaluatedScriptRule};
use rinqebo_origins::{RulePlace, is_same_source};
use std::alloc::{AllocError, Global};

/// Whether two rules are of one profile in one file.
fn is_of_one_list(place: RulePlace<'_>, other: RulePlace<'_>) -> bool
    ensures { IsTrue result ↔ IsOfOneList (place_view place.entry) (place_view other.entry) }
{
    place.profile == other.profile && is_same_source(place.source, other.source)
}

/// Whether a rule comes behind the last one, in the same profile and file.
fn is_behind(last: Option<RulePlace<'_>>, place: RulePlace<'_>) -> bool
    ensures { IsTrue result → IsBehind last.entry place.entry }
{
    match last {
        Some(last) => last.index < place.index && is_of_one_list(place, last),
        None => false,
    }
}

/// Whether a rule is of one profile and file with one of these.
fn is_of_some(firsts: &[RulePlace<'_>], place: RulePlace<'_>) -> bool
    ensures { result ≡ false
        → IsOfNone (map place_view firsts.now) (place_view place.entry) }
{
    for first in firsts {
        if is_of_one_list(place, *first) {
            return true;
        }
    }
    false
}

/// Whether no two of these rules are at one place. The rules of a profile in a file are to follow
/// one another in their order, as they do in a chain of profiles: else this is not found.
fn are_distinct(alloc: Global, places: &[RulePlace<'_>]) -> Result<bool, AllocError>
    ensures { IfOk result (λ known. IsTrue known → AreDistinct (map place_view places.now)) }
{
    let mut firsts = Vec::new(alloc);
    let mut last = None;
    for place in places {
        if !is_behind(last, *place) {
            if is_of_some(&firsts, *place) {
                return Ok(false);
            }
            firsts.push(*place)?;
        }
        last = Some(*place);
    }
    Ok(true)
}

/// The places of overrides.
fn override_places<'c, F: Filters, S: Specs>(
    alloc: Global,
    rules: &[EvaluatedOverride<'c, F, S>],
) -> Result<Vec<RulePlace<'c>>, AllocError>
    ensures { IfOk result (λ places. map place_view places.items
        ≡ map id_place (ids_of (λ w. w.id) (map (meant_override F.meaning) rules.now))) }
{
    let mut places = Vec::new(alloc);
    for rule in rules {
        places.push(RulePlace::of_override(rule.rule().id()))?;
    }
    Ok(places)
}

/// The places of script rules.
fn script_rule_places<'c, F: Filters, S: Specs>(
    alloc: Global,
    rules: &[EvaluatedScriptRule<'c, F, S>],
) -> Result<Vec<RulePlace<'c>>, AllocError>
    ensures { IfOk result (λ places. map place_view places.items
        ≡ map script_place (ids_of (λ w. w.id) (map (meant_script_rule F.meaning) rules.now))) }
{
    let mut places = Vec::new(alloc);
    for rule in rules {
        places.push(RulePlace::of_script(rule.rule().id()))?;
    }
    Ok(places)
}

/// Whether no two overrides have one id.
pub(crate) fn are_overrides_distinct<F: Filters, S: Specs>(
    alloc: Global,
    rules: &[EvaluatedOverride<'_, F, S>],
) -> Result<bool, AllocError>
    ensures { IfOk result (λ known. IsTrue known
        → AreDistinct (ids_of (λ w. w.id) (map (meant_override F.meaning) rules.now))) }
{
    let places = override_places(alloc, rules)?;
    let found = are_distinct(alloc, &places)?;
    Ok(found)
}

/// Whether no two script rules have one id.
pub(crate) fn are_script_rules_distinct<F: Filters, S: Specs>(
    alloc: Global,
    rules: &[EvaluatedScriptRule<'_, F, S>],
) -> Result<bool, AllocError>
    ensures { IfOk result (λ known. IsTrue known
        → AreDistinct (ids_of (λ w. w.id) (map (meant_script_rule F.meaning) rules.now))) }
{
    let places = script_rule_places(alloc, rules)?;
    let found = are_distinct(alloc, &places)?;
    Ok(found)
}
