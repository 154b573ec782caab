//! Where the rules are that hold for none of the tests of a list.
ghost use Rattle.std.specs.Prelude.{◌≡◌, [], IfOk, map};
ghost use Rattle.std.specs.List.{AllZip};
ghost use Rattle.rinqebo_origins.specs.Origins.{IsOriginOf};
ghost use Rattle.rinqebo_origins.specs.RulePlaces.{place_view};
ghost use Rattle.rinqebo_results.specs.ListedBy.{places_of};

use rinqebo_origins::RulePlace;
use rinqebo_report::Origin;
use rinqebo_request::Layer;
use rinqebo_rules::UnusedRules;
use std::alloc::{AllocError, Global};

/// The places of the rules that hold for no test: those of the overrides in order, and then those
/// of the script rules in order.
fn places_of<'c>(alloc: Global, unused: &UnusedRules<'c>) -> Result<Vec<RulePlace<'c>>, AllocError>
    ensures { IfOk result (λ places. map place_view places.items ≡ places_of unused.now) }
{
    let mut places = Vec::new(alloc);
    for id in &unused.overrides {
        places.push(RulePlace::of_override(*id))?;
    }
    for rule in &unused.script_rules {
        places.push(RulePlace::of_script(*rule))?;
    }
    Ok(places)
}

/// The places of rules, as a report shows them.
fn origins_of_rules(
    alloc: Global,
    layers: &[Layer],
    rules: &[RulePlace<'_>],
) -> Result<Vec<Origin>, AllocError>
    ensures { IfOk result (λ origins.
        AllZip (λ place. IsOriginOf layers.now place []) (map place_view rules.now)
        origins.items) }
{
    let mut origins = Vec::new(alloc);
    for rule in rules {
        origins.push(rule.origin(alloc, layers)?)?;
    }
    Ok(origins)
}

/// The places of the rules that hold for no test, as a report shows them: those of the overrides in
/// order, and then those of the script rules in order.
pub fn unused_origins(
    alloc: Global,
    layers: &[Layer],
    unused: &UnusedRules<'_>,
) -> Result<Vec<Origin>, AllocError>
    ensures { IfOk result (λ origins.
        AllZip (λ place. IsOriginOf layers.now place []) (places_of unused.now) origins.items) }
{
    let places = places_of(alloc, unused)?;
    origins_of_rules(alloc, layers, &places)
}
