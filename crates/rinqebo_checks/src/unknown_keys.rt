//! The warnings of all unknown keys of a source: one for each, but for a key that a table has in
//! place of one that it lacks: the finding of that fault is at the key.
ghost use Rattle.std.specs.Prelude.{IfOk, IsTrue};
ghost use Rattle.rinqebo_checks.specs.Faults.{IsInPlace, IsInPlaceOf, IsKeyFinding, ReportFaults};

use crate::value_faults::{ValueFault, is_key_in};
use nextest_places::Step;
use nextest_shape::FoundFault;
use nextest_tree::ElementCause;
use rinqebo_faults::{mark_below, mark_of};
use rinqebo_findings::{SourceAt, unknown_key_at};
use rinqebo_load::Session;
use rinqebo_report::Finding;
use std::alloc::{AllocError, Global};
use std::collections::BTreeMap;

/// Whether a fault is that a table lacks a key, in place of which it has the one at a path.
fn is_in_place_of(fault: &ValueFault<'_>, path: &[Step<'_>]) -> bool
    ensures { IsTrue result → IsInPlaceOf fault.now path.now }
{
    let Some(stray) = fault.stray else {
        return false;
    };
    match &fault.fault.cause {
        ElementCause::Missing(_) => is_key_in(path, &fault.fault.path, stray),
        _ => false,
    }
}

/// The places of the faults that a table lacks a key and has another one in its place, by the path
/// of that one.
fn stray_places(
    alloc: Global,
    source: usize,
    faults: &[ValueFault<'_>],
) -> Result<BTreeMap<String, usize>, AllocError> {
    let mut places = BTreeMap::new(alloc);
    for (place, fault) in faults.iter().enumerate() {
        if let Some(stray) = fault.stray {
            let table = mark_of(alloc, source, &fault.fault.path)?;
            let mark = mark_below(alloc, table.as_str(), Step::Key(stray))?;
            drop(places.insert(mark, place)?);
        }
    }
    Ok(places)
}

/// Whether the fault at a place is that a table lacks a key, in place of which it has the one at a
/// path.
fn is_in_place_at(faults: &[ValueFault<'_>], place: usize, path: &[Step<'_>]) -> bool
    ensures { IsTrue result → IsInPlace faults.now path.now }
{
    match faults.get(place) {
        Some(fault) => is_in_place_of(fault, path),
        None => false,
    }
}

/// Whether a table has the key at a path in place of one that it lacks. The faults of such tables
/// have places.
fn is_in_place(
    alloc: Global,
    source: usize,
    faults: &[ValueFault<'_>],
    places: &BTreeMap<String, usize>,
    path: &[Step<'_>],
) -> Result<bool, AllocError>
    ensures { IfOk result (λ joined. IsTrue joined → IsInPlace faults.now path.now) }
{
    let mark = mark_of(alloc, source, path)?;
    match places.get(mark.as_str()) {
        Some(place) => Ok(is_in_place_at(faults, *place, path)),
        None => Ok(false),
    }
}

/// The warning of an unknown key in the source at a place among the layers.
fn key_finding(
    alloc: Global,
    session: &Session<'_>,
    source: usize,
    path: &[Step<'_>],
) -> Result<Finding, AllocError>
    ensures { IfOk result (IsKeyFinding session.now.layers.items source path.now) }
{
    let source = SourceAt {
        layers: &session.layers,
        position: Some(source),
    };
    Ok(unknown_key_at(alloc, source, path)?)
}

/// The warnings of the unknown keys of the source at a place among the layers, whose values have
/// faults.
pub fn key_findings(
    alloc: Global,
    session: &Session<'_>,
    source: usize,
    faults: &[ValueFault<'_>],
    keys: &[FoundFault<'_>],
) -> Result<Vec<Finding>, AllocError>
    ensures { IfOk result (λ findings. ReportFaults
        (λ key. IsKeyFinding session.now.layers.items source key.path.items)
        (λ key. IsInPlace faults.now key.path.items) keys.now findings.items) }
{
    let places = stray_places(alloc, source, faults)?;
    let mut findings = Vec::new(alloc);
    for key in keys {
        let joined = is_in_place(alloc, source, faults, &places, &key.path)?;
        if joined {
            continue;
        }
        findings.push(key_finding(alloc, session, source, &key.path)?)?;
    }
    Ok(findings)
}
