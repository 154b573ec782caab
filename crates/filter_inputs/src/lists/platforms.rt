//! The platforms of the build whose tests are listed.
ghost use Rattle.std.specs.Prelude.{◌≡◌, None, IfOk, IfErr, map, option_map};
ghost use Rattle.std.specs.List.{slice_get};
ghost use Rattle.serde_json.specs.Data.{string};
ghost use Rattle.serde_json.specs.View.{view};
ghost use Rattle.filter_inputs.specs.Lists.Demands.{platforms_in, triple_in, first_target_demands, platforms_demands, build_demands, first_fault};
ghost use Rattle.filter_inputs.specs.Lists.Faults.{TellsFirst};
ghost use Rattle.filter_inputs.specs.Lists.Lists.{AreTriplesIn, AreTriples};
ghost use Rattle.filter_inputs.specs.Lists.ListView.{triples_view};

use crate::fields::JsonField;
use crate::lists::fault::ListFault;
use crate::lists::place::Place;
use crate::lists::values::{or_fault, text_at};
use serde_json::Value;
use std::alloc::Global;

/// The triples of a build.
#[derive(Clone, Copy)]
pub struct Triples<'v> {
    /// The triple of the host, if it is known.
    pub host: Option<&'v str>,
    /// The triple of the first target, if there is one.
    pub target: Option<&'v str>,
}

/// Returns the platforms of the build, if a list has them.
fn platforms_in(document: &Value) -> Option<&Value>
    ensures { option_map (λ value. view value.now) result ≡ platforms_in (view document.now) }
{
    let platforms = document.get("rust-build-meta")?.get("platforms")?;
    if platforms.is_null() {
        return None;
    }
    Some(platforms)
}

/// Returns the triple of a platform, if it has one.
fn triple_in(platform: Option<&Value>) -> Option<&Value>
    ensures { option_map (λ value. view value.now) result
        ≡ triple_in (option_map (λ value. view value.now) platform.entry) }
{
    platform?.get("platform")?.get("triple")
}

/// Reads the triple of the first target, if there is one.
fn target_in(alloc: Global, targets: &[Value]) -> Result<Option<&str>, ListFault>
    ensures ok { IfOk result (λ target. triple_in (slice_get (map view targets.now) 0)
        ≡ option_map (λ text. string text.now) target) }
    ensures met { IfOk result (λ _.
        first_fault (first_target_demands (slice_get (map view targets.now) 0)) ≡ None) }
    ensures err { IfErr result
        (TellsFirst (first_target_demands (slice_get (map view targets.now) 0))) }
{
    match targets.first() {
        None => Ok(None),
        Some(target) => {
            let triple = JsonField {
                found: triple_in(Some(target)),
                place: Place::Platforms("targets.0.platform.triple"),
            };
            Ok(Some(text_at(alloc, triple)?))
        }
    }
}

/// Reads the triples of platforms.
fn triples_in<'v>(alloc: Global, platforms: &'v Value) -> Result<Triples<'v>, ListFault>
    ensures ok { IfOk result (λ triples.
        AreTriplesIn (view platforms.now) (triples_view triples)) }
    ensures met { IfOk result (λ _. first_fault (platforms_demands (view platforms.now)) ≡ None) }
    ensures err { IfErr result (TellsFirst (platforms_demands (view platforms.now))) }
{
    let host = JsonField {
        found: triple_in(platforms.get("host")),
        place: Place::Platforms("host.platform.triple"),
    };
    let host = text_at(alloc, host)?;
    let targets = JsonField::under(platforms, "targets", Place::Platforms("targets"));
    let targets = or_fault(alloc, targets.list())?;
    Ok(Triples {
        host: Some(host),
        target: target_in(alloc, targets)?,
    })
}

/// Reads the triples of the build whose tests are listed.
pub fn triples_of(alloc: Global, document: &Value) -> Result<Triples<'_>, ListFault>
    ensures ok { IfOk result (λ triples. AreTriples (view document.now) (triples_view triples)) }
    ensures met { IfOk result (λ _. first_fault (build_demands (view document.now)) ≡ None) }
    ensures err { IfErr result (TellsFirst (build_demands (view document.now))) }
{
    match platforms_in(document) {
        Some(platforms) => triples_in(alloc, platforms),
        None => Ok(Triples {
            host: None,
            target: None,
        }),
    }
}
