//! What is wrong with the values in the files of a run, which are then read without what is
//! refused, and their unknown keys.
ghost use Rattle.std.specs.Prelude.{◌≡◌, [], IfOk, MatchOption, None, OnOk, Some, flat_map};
ghost use Rattle.nextest_documents.specs.Merge.{over};
ghost use Rattle.nextest_tables.specs.Defaults.{defaults};
ghost use Rattle.nextest_tables.specs.Tables.{a_file};
ghost use Rattle.nextest_tree.specs.Schema as schema;
ghost use Rattle.nextest_tree.specs.View.{tree_view};
ghost use Rattle.rinqebo_faults.specs.Edits.{edits_view, with_edits};
ghost use Rattle.rinqebo_checks.specs.Faults.{AreSound, IsSound, LeavesOutDocument, LeavesOutFiles, LeavesOutValues, ReportDocument, ReportFiles, ReportValues, document_in, fault_edits, stray_edits};

use crate::unknown_keys::key_findings;
use crate::value_faults::{ValueFault, fault_findings, with_strays};
use nextest_documents::lay_over;
use nextest_places::Step;
use nextest_shape::{file_faults, unknown_keys};
use nextest_tables::default_tree;
use nextest_tree::Tree;
use rinqebo_faults::{Edits, leave_out_element};
use rinqebo_load::Session;
use rinqebo_report::Finding;
use rinqebo_request::Layer;
use std::alloc::{AllocError, Global};

/// Leaves out the key that a table has in place of a missing one, if it has one.
fn leave_out_stray(
    edits: &mut Edits,
    place: usize,
    table: &[Step<'_>],
    stray: Option<&str>,
) -> Result<(), AllocError>
    ensures { OnOk result (edits_view edits.new ≡ with_edits (edits_view edits.old)
        (stray_edits place table.now stray.entry)) }
{
    match stray {
        Some(key) => edits.remove_key(place, table, key),
        None => Ok(()),
    }
}

/// Leaves out a value of a source that is refused, and the key that is in place of a missing one.
fn leave_out_fault(
    edits: &mut Edits,
    place: usize,
    found: &ValueFault<'_>,
) -> Result<(), AllocError>
    ensures { OnOk result (edits_view edits.new
        ≡ with_edits (edits_view edits.old) (fault_edits place found.now)) }
{
    let ValueFault { fault, stray } = found;
    let path = fault.path.as_slice();
    leave_out_stray(edits, place, path, *stray)?;
    leave_out_element(edits, place, &fault.cause, path)?;
    Ok(())
}

/// Leaves out the values of a source that are refused, and the keys that are in place of missing
/// ones.
fn leave_out_faults(
    edits: &mut Edits,
    place: usize,
    faults: &[ValueFault<'_>],
) -> Result<(), AllocError>
    ensures edits { OnOk result (edits_view edits.new ≡ with_edits (edits_view edits.old)
        (flat_map (fault_edits place) faults.now)) }
    ensures sound { OnOk result (faults.now ≡ [] → edits.new ≡ edits.old) }
{
    for fault in faults {
        leave_out_fault(edits, place, fault)?;
    }
    Ok(())
}

/// The document that the file of a layer is, if it is one. The defaults are not a file.
fn document_of<'l>(layer: &'l Layer<'_>) -> Option<&'l Tree>
    ensures { MatchOption result (document_in layer.now ≡ None)
        (λ tree. document_in layer.now ≡ Some (tree_view tree.now)) }
{
    match &layer.places {
        Some(document) => document.tree(),
        None => None,
    }
}

/// The findings of the values of a document, which is the source at a place among the layers, and
/// of its unknown keys.
fn document_findings(
    alloc: Global,
    session: &Session<'_>,
    place: usize,
    document: &Tree,
    edits: &mut Edits,
) -> Result<Vec<Finding>, AllocError>
    ensures reported { IfOk result (λ findings.
        ReportValues session.now.layers.items place (tree_view document.now) findings.items) }
    ensures left_out { OnOk result (LeavesOutValues place (tree_view document.now)
        (edits_view edits.old) (edits_view edits.new)) }
    ensures sound { OnOk result
        (schema.faults a_file [] (over (tree_view document.now) defaults) ≡ []
        → edits.new ≡ edits.old) }
{
    let tree = lay_over(alloc, document, default_tree(alloc)?)?;
    let faults = file_faults(alloc, &tree)?;
    let keys = unknown_keys(alloc, &tree)?;
    let found = with_strays(alloc, &tree, faults)?;
    leave_out_faults(edits, place, &found)?;
    let mut findings = fault_findings(alloc, session, place, &found)?;
    let mut warnings = key_findings(alloc, session, place, &found, &keys)?;
    findings.append(&mut warnings)?;
    Ok(findings)
}

/// The findings of the values in the file of the layer at a place, if it is a document.
fn layer_findings(
    alloc: Global,
    session: &Session<'_>,
    place: usize,
    layer: &Layer<'_>,
    edits: &mut Edits,
) -> Result<Vec<Finding>, AllocError>
    ensures reported { IfOk result (λ findings.
        ReportDocument session.now.layers.items place (document_in layer.now) findings.items) }
    ensures left_out { OnOk result (LeavesOutDocument place (document_in layer.now)
        (edits_view edits.old) (edits_view edits.new)) }
    ensures sound { OnOk result (IsSound layer.now → edits.new ≡ edits.old) }
{
    match document_of(layer) {
        Some(document) => { Ok(document_findings(alloc, session, place, document, edits)?) }
        None => Ok(Vec::new(alloc)),
    }
}

/// The findings of the values in the files of layers, which are those of a session, file by file.
/// What is refused is left out: nothing, if no value has a fault.
pub fn value_findings(
    alloc: Global,
    session: &Session<'_>,
    layers: &[Layer<'_>],
    edits: &mut Edits,
) -> Result<Vec<Finding>, AllocError>
    ensures reported { IfOk result
        (λ findings. ReportFiles session.now.layers.items 0 layers.now findings.items) }
    ensures left_out { OnOk result
        (LeavesOutFiles 0 layers.now (edits_view edits.old) (edits_view edits.new)) }
    ensures sound { OnOk result (AreSound layers.now → edits.new ≡ edits.old) }
{
    let mut findings = Vec::new(alloc);
    for (place, layer) in layers.iter().enumerate() {
        let mut own = layer_findings(alloc, session, place, layer, edits)?;
        findings.append(&mut own)?;
    }
    Ok(findings)
}
