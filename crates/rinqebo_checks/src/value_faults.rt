//! The findings of all faults of values of a source: one for each fault, but for a key that a table
//! refuses in place of one that it lacks: these two are one finding.
ghost use Rattle.std.specs.List.{All};
ghost use Rattle.std.specs.Option.{option_and_then};
ghost use Rattle.std.specs.Prelude.{◌≡◌, ◌++◌, ◌∷◌, [], IfOk, IfSome, IsTrue, List, OnOk, Some, map, slice_get, slice_index_or, slice_set, true, false};
ghost use Rattle.nextest_places.specs.Path.{stands_at};
ghost use Rattle.nextest_places.specs.Spans.Paths.{path_step};
ghost use Rattle.nextest_places.specs.Spans.Paths as paths;
ghost use Rattle.nextest_tree.specs.Node.{as_table};
ghost use Rattle.nextest_tree.specs.View.{tree_view};
ghost use Rattle.rinqebo_checks.specs.Faults.{AreJoined, HasStray, IsFindingOf, IsJoined, IsKeyIn, IsRefusedKey, IsStrayBelow, ReportFaults};
ghost use Rattle.rinqebo_checks.specs.declared.value_faults.ValueFault.{ValueFault};
ghost use Rattle.rinqebo_faults.specs.Tables.{IsStray};

use nextest_places::Step;
use nextest_shape::FoundFault;
use nextest_tree::{ElementCause, Tree};
use rinqebo_faults::{LeftOut, stray_key, tree_at};
use rinqebo_findings::{Refused, SourceAt, fault_finding, text_of};
use rinqebo_load::Session;
use rinqebo_report::Finding;
use std::alloc::{AllocError, Global};

/// The name that nextest-runner has for a value that is refused.
const REFUSED_VALUE: &str = "DeserializeError";

/// A fault of a value.
#[derive(Drop)]
pub struct ValueFault<'t> {
    /// The fault.
    pub fault: FoundFault<'t>,
    /// The key that a table has in place of one that it lacks, if there is one.
    pub stray: Option<&'t str>,
}

/// The key that the table at a path below a tree has in place of one that it lacks, if one is near
/// that the table does not know.
fn stray_at<'t>(
    alloc: Global,
    tree: &'t Tree,
    path: &[Step<'_>],
    missing: &str,
) -> Result<Option<&'t str>, AllocError>
    ensures { IfOk result (IsStray path.now
        (option_and_then as_table (stands_at path.now (tree_view tree.now))) missing.now) }
{
    match tree_at(tree, path) {
        Some(table) => stray_key(alloc, path, table, missing),
        None => Ok(None),
    }
}

/// The key that the table of a fault has in place of the one that it lacks, if one is near that the
/// table does not know. Another fault has none.
fn stray_of<'t>(
    alloc: Global,
    tree: &'t Tree,
    fault: &FoundFault<'_>,
) -> Result<Option<&'t str>, AllocError>
    ensures { IfOk result
        (IsStrayBelow (tree_view tree.now) fault.now.path.items fault.now.cause) }
{
    match &fault.cause {
        ElementCause::Missing(key) => Ok(stray_at(alloc, tree, &fault.path, key.as_str())?),
        _ => Ok(None),
    }
}

/// The faults of the values of a tree, each with the key that its table has in place of one that it
/// lacks, if there is one.
pub fn with_strays<'t>(
    alloc: Global,
    tree: &'t Tree,
    faults: Vec<FoundFault<'t>>,
) -> Result<Vec<ValueFault<'t>>, AllocError>
    ensures faults { IfOk result (λ found. map (λ f. f.fault) found.items ≡ faults.entry.items) }
    ensures strays { IfOk result (λ found. All (HasStray (tree_view tree.now)) found.items) }
{
    let mut found = Vec::new(alloc);
    for fault in faults {
        let stray = stray_of(alloc, tree, &fault)?;
        found.push(ValueFault { fault, stray })?;
    }
    Ok(found)
}

/// Whether a step is to a key.
fn is_named(step: &Step<'_>, key: &str) -> bool
    ensures { IsTrue result → path_step step.now ≡ paths.key key.now }
{
    matches!(step, Step::Key(name) if *name == key)
}

/// Whether a step is to a position.
fn is_numbered(step: &Step<'_>, position: usize) -> bool
    ensures { IsTrue result → path_step step.now ≡ paths.position position }
{
    matches!(step, Step::Position(own) if *own == position)
}

/// Whether two steps are the same.
fn is_step(one: &Step<'_>, other: &Step<'_>) -> bool
    ensures { IsTrue result → path_step one.now ≡ path_step other.now }
{
    match one {
        Step::Key(key) => is_named(other, *key),
        Step::Position(position) => is_numbered(other, *position),
    }
}

/// Whether two paths are the same.
fn is_path(one: &[Step<'_>], other: &[Step<'_>]) -> bool
    ensures { IsTrue result → map path_step one.now ≡ map path_step other.now }
{
    if one.len() != other.len() {
        return false;
    }
    for (place, step) in one.iter().enumerate() {
        if !is_step(step, &other[place]) {
            return false;
        }
    }
    true
}

/// Whether a path is that of a key of the table at another one.
pub fn is_key_in(path: &[Step<'_>], table: &[Step<'_>], key: &str) -> bool
    ensures { IsTrue result → IsKeyIn path.now table.now key.now }
{
    let Some((last, rest)) = path.split_last() else {
        return false;
    };
    if !is_named(last, key) {
        return false;
    }
    is_path(rest, table)
}

/// Whether a fault is that the table at a path refuses a key.
fn is_refused_key(fault: &FoundFault<'_>, table: &[Step<'_>], key: &str) -> bool
    ensures { IsTrue result → IsRefusedKey table.now key.now fault.now }
{
    match &fault.cause {
        ElementCause::UnknownField => is_key_in(&fault.path, table, key),
        _ => false,
    }
}

/// The place, before another one, of the fault that the table at a path refuses a key. The faults
/// of keys that a table refuses come right before those of the keys that it lacks.
fn refused_before(
    faults: &[ValueFault<'_>],
    end: usize,
    table: &[Step<'_>],
    key: &str,
) -> Option<usize>
    ensures { IfSome result (λ place. (refused : ValueFault)
        → slice_get faults.now place ≡ Some refused
        → IsRefusedKey table.now key.now refused.fault) }
{
    for place in (0..end).rev() {
        let refused = faults.get(place)?;
        if is_refused_key(&refused.fault, table, key) {
            return Some(place);
        }
        let ElementCause::UnknownField = &refused.fault.cause else {
            return None;
        };
    }
    None
}

/// The place of the fault that is joined with the one at a place, if one is: that the table refuses
/// the key that it has in place of one that it lacks.
fn joined_with(faults: &[ValueFault<'_>], place: usize) -> Option<usize>
    ensures { IfSome result (λ joined. (refused : ValueFault)
        → slice_get faults.now joined ≡ Some refused → IsJoined faults.now refused) }
{
    let lacking = faults.get(place)?;
    let stray = lacking.stray?;
    match &lacking.fault.cause {
        ElementCause::Missing(_) => refused_before(faults, place, &lacking.fault.path, stray),
        _ => None,
    }
}

/// Sets the mark at a place, if there is one.
fn set_mark(marks: &mut Vec<bool>, place: usize)
    ensures { marks.new.items ≡ slice_set marks.old.items place true }
{
    if place < marks.len() {
        marks[place] = true;
    }
}

/// Whether there is a mark at a place, and it is set.
fn is_marked(marks: &[bool], place: usize) -> bool
    ensures { result ≡ slice_index_or marks.now place false }
{
    marks.get(place).copied().unwrap_or(false)
}

/// Adds the mark of the fault that is joined with the one at a place, if one is.
fn mark_joined(marks: &mut Vec<bool>, faults: &[ValueFault<'_>], place: usize)
    requires { AreJoined faults.now marks.old.items }
    ensures { AreJoined faults.now marks.new.items }
{
    if let Some(joined) = joined_with(faults, place) {
        set_mark(marks, joined);
    }
}

/// For each fault, whether it is joined with another one.
fn joined_marks(alloc: Global, faults: &[ValueFault<'_>]) -> Result<Vec<bool>, AllocError>
    ensures { IfOk result (λ marks. AreJoined faults.now marks.items) }
{
    let mut marks = vec![in alloc; false; faults.len()]?;
    for place in 0..faults.len() {
        mark_joined(&mut marks, faults, place);
    }
    Ok(marks)
}

/// The finding of a fault in the source at a place among the layers.
fn finding_of(
    alloc: Global,
    session: &Session<'_>,
    source: usize,
    fault: &ValueFault<'_>,
) -> Result<Finding, AllocError>
    ensures { IfOk result (IsFindingOf session.now.layers.items source fault.now) }
{
    let left_out = LeftOut::new(alloc);
    let refused = Refused {
        alloc,
        source: SourceAt {
            layers: &session.layers,
            position: Some(source),
        },
        text: text_of(session.gathered, source),
        upstream: REFUSED_VALUE,
        left_out: &left_out,
    };
    fault_finding(&refused, &fault.fault.cause, &fault.fault.path, fault.stray)
}

/// The findings of all faults of the values of the source at a place among the layers, in their
/// order.
pub fn fault_findings(
    alloc: Global,
    session: &Session<'_>,
    source: usize,
    faults: &[ValueFault<'_>],
) -> Result<Vec<Finding>, AllocError>
    ensures { IfOk result (λ findings. ReportFaults
        (IsFindingOf session.now.layers.items source) (IsJoined faults.now) faults.now
        findings.items) }
{
    let marks = joined_marks(alloc, faults)?;
    let mut findings = Vec::new(alloc);
    for (place, fault) in faults.iter().enumerate() {
        if is_marked(&marks, place) {
            continue;
        }
        findings.push(finding_of(alloc, session, source, fault)?)?;
    }
    Ok(findings)
}
