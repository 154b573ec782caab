//! Findings of parents that profiles may not have.
ghost use Rattle.std.specs.Prelude.{◌≡◌, ◌∷◌, [], ◌++◌, ℕ, List, IfOk, None, OnOk, Some};
ghost use Rattle.nextest_tree.specs.Node.{keys};
ghost use Rattle.nextest_tree.specs.View.{entries_view};
ghost use Rattle.rinqebo_faults.specs.Hints.{texts};
ghost use Rattle.rinqebo_findings.specs.Later.{AddsLater, cycle_faults, parent_fault, parent_faults, parent_faults_of};
ghost use Rattle.rinqebo_findings.specs.LaterWords.{says, says_default_inherits, says_inherits_itself, says_unknown_parent};
ghost use Rattle.rinqebo_findings.specs.Profiles.{AreNew, names_in, profile_names};

use crate::cycles::add_cycle;
use crate::refused::Refused;
use nextest_inheritance::InheritsError;
use nextest_tree::Tree;
use rinqebo_faults::{parent_path, profiles_of};
use rinqebo_report::{Code, Finding};
use rinqebo_request::Layer;
use std::alloc::{AllocError, Global};
use std::collections::{BTreeMap, BTreeSet};

/// Adds a name to those that are new, unless it came before.
fn add_name<'l>(
    names: &mut Vec<&'l str>,
    seen: &mut BTreeSet<&'l str>,
    name: &'l str,
) -> Result<(), AllocError>
    ensures { OnOk result ((came : List (List ℕ)) → AreNew came seen.old names.old.items
        → AreNew (came ++ name.now ∷ []) seen.new names.new.items) }
{
    let is_new = seen.insert(name)?;
    if !is_new {
        return Ok(());
    }
    names.push(name)?;
    Ok(())
}

/// Adds the names of profiles that did not come before.
fn add_names<'l>(
    names: &mut Vec<&'l str>,
    seen: &mut BTreeSet<&'l str>,
    profiles: &'l BTreeMap<String, Tree>,
) -> Result<(), AllocError>
    ensures { OnOk result ((came : List (List ℕ)) → AreNew came seen.old names.old.items
        → AreNew (came ++ keys (entries_view profiles.now.entries)) seen.new
        names.new.items) }
{
    for name in profiles.keys() {
        add_name(names, seen, name.as_str())?;
    }
    Ok(())
}

/// Adds the names of the profiles of a layer that did not come before.
fn add_layer<'l>(
    names: &mut Vec<&'l str>,
    seen: &mut BTreeSet<&'l str>,
    layer: &'l Layer<'_>,
) -> Result<(), AllocError>
    ensures { OnOk result ((came : List (List ℕ)) → AreNew came seen.old names.old.items
        → AreNew (came ++ names_in layer.now) seen.new names.new.items) }
{
    match profiles_of(layer.tree()) {
        Some(profiles) => add_names(names, seen, profiles),
        None => Ok(()),
    }
}

/// The names of the profiles of all layers, each once.
fn profile_names<'l>(alloc: Global, layers: &'l [Layer<'_>]) -> Result<Vec<&'l str>, AllocError>
    ensures { IfOk result (λ names. texts names.items ≡ profile_names layers.now) }
{
    let mut names = Vec::new(alloc);
    let mut seen = BTreeSet::new(alloc);
    for layer in layers {
        add_layer(&mut names, &mut seen, layer)?;
    }
    Ok(names)
}

/// Adds what is wrong with the parent of a profile, and what is expected there.
fn add_parent_of(
    refused: &Refused<'_, '_>,
    findings: &mut Vec<Finding>,
    code: Code,
    profile: &str,
    wrong: &str,
    expected: &str,
) -> Result<(), AllocError>
    ensures { OnOk result (AddsLater refused.now.source.layers.now refused.now.source.position
        (parent_fault code profile.now (says wrong.now (Some expected.now) None) ∷ [])
        findings.old.items findings.new.items) }
{
    let path = parent_path(profile);
    refused.add_value(findings, code, &path, wrong, expected, None)?;
    Ok(())
}

/// Adds that a profile has a parent which may not have one.
fn add_default_parent(
    refused: &Refused<'_, '_>,
    findings: &mut Vec<Finding>,
    profile: &str,
) -> Result<(), AllocError>
    ensures { OnOk result (AddsLater refused.now.source.layers.now refused.now.source.position
        (parent_fault Code.DefaultInherits profile.now (says_default_inherits profile.now) ∷ [])
        findings.old.items findings.new.items) }
{
    let wrong = format!(in refused.alloc;
        "profile `{profile}` has `inherits`, but may not inherit from another profile"
    )?;
    let expected = "no `inherits` in this profile";
    let code = Code::DefaultInherits;
    add_parent_of(refused, findings, code, profile, wrong.as_str(), expected)
}

/// Adds that a profile is its own parent.
fn add_own_parent(
    refused: &Refused<'_, '_>,
    findings: &mut Vec<Finding>,
    profile: &str,
) -> Result<(), AllocError>
    ensures { OnOk result (AddsLater refused.now.source.layers.now refused.now.source.position
        (parent_fault Code.InheritsItself profile.now (says_inherits_itself profile.now) ∷ [])
        findings.old.items findings.new.items) }
{
    let wrong = format!(in refused.alloc; "profile `{profile}` inherits from itself")?;
    let expected = "the name of another profile";
    let code = Code::InheritsItself;
    add_parent_of(refused, findings, code, profile, wrong.as_str(), expected)
}

/// Adds that the parent of a profile is none of the profiles with some names.
fn add_unknown_parent(
    refused: &Refused<'_, '_>,
    findings: &mut Vec<Finding>,
    names: &[&str],
    profile: &str,
    parent: &str,
) -> Result<(), AllocError>
    ensures { OnOk result (AddsLater refused.now.source.layers.now refused.now.source.position
        (parent_fault Code.UnknownParent profile.now
        (says_unknown_parent profile.now parent.now (texts names.now)) ∷ [])
        findings.old.items findings.new.items) }
{
    let wrong = format!(in refused.alloc;
        "profile `{profile}` inherits from `{parent}`, which is not known"
    )?;
    let path = parent_path(profile);
    let code = Code::UnknownParent;
    refused.add_none_of(findings, code, &path, wrong.as_str(), parent, names)?;
    Ok(())
}

/// Adds that profiles inherit in cycles.
fn add_cycles(
    refused: &Refused<'_, '_>,
    findings: &mut Vec<Finding>,
    cycles: &[Vec<String>],
) -> Result<(), AllocError>
    ensures { OnOk result (AddsLater refused.now.source.layers.now refused.now.source.position
        (cycle_faults cycles.now) findings.old.items findings.new.items) }
{
    for cycle in cycles {
        add_cycle(refused, findings, cycle)?;
    }
    Ok(())
}

/// Adds what is wrong with a parent, where profiles have some names.
fn add_parent(
    refused: &Refused<'_, '_>,
    findings: &mut Vec<Finding>,
    names: &[&str],
    error: &InheritsError,
) -> Result<(), AllocError>
    ensures { OnOk result (AddsLater refused.now.source.layers.now refused.now.source.position
        (parent_faults_of (texts names.now) error.now) findings.old.items findings.new.items) }
{
    match error {
        InheritsError::DefaultProfileInheritance(profile) => {
            add_default_parent(refused, findings, profile.as_str())
        }
        InheritsError::SelfReferentialInheritance(profile) => {
            add_own_parent(refused, findings, profile.as_str())
        }
        InheritsError::UnknownInheritance(profile, parent) => {
            let profile = profile.as_str();
            add_unknown_parent(refused, findings, names, profile, parent.as_str())
        }
        InheritsError::InheritanceCycle(cycles) => add_cycles(refused, findings, cycles),
    }
}

/// Parents that profiles may not have.
pub fn add_parents(
    refused: &Refused<'_, '_>,
    findings: &mut Vec<Finding>,
    errors: &[InheritsError],
) -> Result<(), AllocError>
    ensures { OnOk result (AddsLater refused.now.source.layers.now refused.now.source.position
        (parent_faults (profile_names refused.now.source.layers.now) errors.now)
        findings.old.items findings.new.items) }
{
    let names = profile_names(refused.alloc, refused.source.layers)?;
    for error in errors {
        add_parent(refused, findings, &names, error)?;
    }
    Ok(())
}
