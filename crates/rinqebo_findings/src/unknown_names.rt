//! Findings of rules that name groups and scripts which they may not.
ghost use Rattle.std.specs.Prelude.{◌≡◌, IfOk, OnOk, flat_map, map, string_bytes};
ghost use Rattle.rinqebo_faults.specs.Edits.{names_view};
ghost use Rattle.rinqebo_faults.specs.Hints.{texts};
ghost use Rattle.rinqebo_findings.specs.Later.{AddsLater, AddsScriptErrors, AddsUnknownGroups, list_wrapper_faults, unknown_group_faults, unknown_script_faults, wrong_kind_faults};
ghost use Rattle.rinqebo_findings.specs.LaterWords.{group_names, needed_words, other_use};

use crate::refused::Refused;
use nextest_scripts::ProfileScriptType;
use nextest_sources::{
    ProfileListScriptUsesRunFiltersError, ProfileScriptErrors, ProfileUnknownScriptError,
    ProfileWrongConfigScriptTypeError, UnknownTestGroupError,
};
use rinqebo_faults::{Namings, is_among, names_of};
use rinqebo_report::{Code, Finding};
use std::alloc::{AllocError, Global};
use std::collections::BTreeSet;

/// The keys at which overrides name groups.
const GROUP_USES: [&str; 1] = ["test-group"];

/// The keys at which script rules name scripts.
const SCRIPT_USES: [&str; 3] = ["setup", "list-wrapper", "run-wrapper"];

/// The group of tests that no rule sets one of.
const GLOBAL_GROUP: &str = "@global";

/// The names of groups that a rule may set.
fn group_names<'k>(alloc: Global, known: &'k BTreeSet<String>) -> Result<Vec<&'k str>, AllocError>
    ensures { IfOk result (λ names. texts names.items
        ≡ group_names (map string_bytes known.entry.now.keys)) }
{
    let mut names = names_of(alloc, known)?;
    if is_among(&names, GLOBAL_GROUP) {
        return Ok(names);
    }
    names.push(GLOBAL_GROUP)?;
    Ok(names)
}

/// Adds that a group is not known, which rules name, unless its definition may be refused.
fn add_unknown_group(
    refused: &Refused<'_, '_>,
    findings: &mut Vec<Finding>,
    namings: &Namings,
    error: &UnknownTestGroupError,
    known: &BTreeSet<String>,
) -> Result<(), AllocError>
    ensures { OnOk result (AddsLater refused.now.source.layers.now refused.now.source.position
        (unknown_group_faults namings.now (names_view refused.now.left_out.now.groups)
        (map string_bytes known.now.keys) error.now) findings.old.items findings.new.items) }
{
    let alloc = refused.alloc;
    let profile = error.profile_name.as_str();
    let name = error.name.as_str();
    if refused.left_out.groups.has(name) {
        return Ok(());
    }
    let path = namings.path_of(profile, &GROUP_USES, name)?;
    let wrong = format!(in alloc; "unknown group `{name}`")?;
    let names = group_names(alloc, known)?;
    let code = Code::UnknownGroup;
    refused.add_none_of(findings, code, &path, wrong.as_str(), name, &names)?;
    Ok(())
}

/// Adds the groups that rules set and no file defines, but those whose definitions are refused.
pub fn add_unknown_groups(
    refused: &Refused<'_, '_>,
    findings: &mut Vec<Finding>,
    errors: &[UnknownTestGroupError],
    known: &BTreeSet<String>,
) -> Result<(), AllocError>
    ensures { OnOk result (AddsUnknownGroups refused.now.source.layers.now
        refused.now.source.position (names_view refused.now.left_out.now.groups)
        (map string_bytes known.now.keys) errors.now findings.old.items findings.new.items) }
{
    let tree = refused.source.tree();
    let namings = Namings::of(refused.alloc, tree, "overrides", &GROUP_USES)?;
    for error in errors {
        add_unknown_group(refused, findings, &namings, error, known)?;
    }
    Ok(())
}

/// Adds that a script is not known, which rules name, unless its definition may be refused.
fn add_unknown_script(
    refused: &Refused<'_, '_>,
    findings: &mut Vec<Finding>,
    namings: &Namings,
    error: &ProfileUnknownScriptError,
    known: &[&str],
) -> Result<(), AllocError>
    ensures { OnOk result (AddsLater refused.now.source.layers.now refused.now.source.position
        (unknown_script_faults namings.now (names_view refused.now.left_out.now.scripts)
        (texts known.now) error.now) findings.old.items findings.new.items) }
{
    let profile = error.profile_name.as_str();
    let id = error.name.to_string(refused.alloc)?;
    let name = id.as_str();
    if refused.left_out.scripts.has(name) {
        return Ok(());
    }
    let path = namings.path_of(profile, &SCRIPT_USES, name)?;
    let wrong = format!(in refused.alloc; "unknown script `{name}`")?;
    let code = Code::UnknownScript;
    refused.add_none_of(findings, code, &path, wrong.as_str(), name, known)?;
    Ok(())
}

/// Adds the scripts that are not known, which rules name, but those whose definitions are refused.
fn add_unknown_scripts(
    refused: &Refused<'_, '_>,
    findings: &mut Vec<Finding>,
    namings: &Namings,
    errors: &[ProfileUnknownScriptError],
    known: &BTreeSet<String>,
) -> Result<(), AllocError>
    ensures { OnOk result (AddsLater refused.now.source.layers.now refused.now.source.position
        (flat_map (unknown_script_faults namings.now (names_view refused.now.left_out.now.scripts)
        (map string_bytes known.now.keys)) errors.now) findings.old.items findings.new.items) }
{
    let names = names_of(refused.alloc, known)?;
    for error in errors {
        add_unknown_script(refused, findings, namings, error, &names)?;
    }
    Ok(())
}

/// The kind of script that a use needs, in words.
fn needed_words(attempted: ProfileScriptType) -> &'static str
    ensures { result.now ≡ needed_words attempted }
{
    match attempted {
        ProfileScriptType::Setup => "a setup script",
        ProfileScriptType::ListWrapper | ProfileScriptType::RunWrapper => "a wrapper script",
    }
}

/// Where a rule may name a script of another kind than a use needs.
fn other_use(alloc: Global, attempted: ProfileScriptType, name: &str) -> Result<String, AllocError>
    ensures { IfOk result (λ help. string_bytes help ≡ other_use attempted name.now) }
{
    match attempted {
        ProfileScriptType::Setup => {
            format!(in alloc; "name `{name}` at `run-wrapper` or `list-wrapper`")
        }
        ProfileScriptType::ListWrapper | ProfileScriptType::RunWrapper => {
            format!(in alloc; "name `{name}` at `setup`")
        }
    }
}

/// Adds that a rule names a script of the wrong kind, unless its definition may be refused.
fn add_wrong_kind(
    refused: &Refused<'_, '_>,
    findings: &mut Vec<Finding>,
    namings: &Namings,
    error: &ProfileWrongConfigScriptTypeError,
) -> Result<(), AllocError>
    ensures { OnOk result (AddsLater refused.now.source.layers.now refused.now.source.position
        (wrong_kind_faults namings.now (names_view refused.now.left_out.now.scripts) error.now)
        findings.old.items findings.new.items) }
{
    let alloc = refused.alloc;
    let profile = error.profile_name.as_str();
    let id = error.name.to_string(alloc)?;
    let name = id.as_str();
    if refused.left_out.scripts.has(name) {
        return Ok(());
    }
    let attempted = error.attempted.to_string(alloc)?;
    let key = attempted.as_str();
    let path = namings.path_of(profile, &[key], name)?;
    let expected = needed_words(error.attempted);
    let help = other_use(alloc, error.attempted, name)?;
    let wrong = format!(in alloc; "`{name}` is a {} script", error.actual)?;
    let code = Code::WrongScriptKind;
    refused.add_value(findings, code, &path, wrong.as_str(), expected, Some(help))?;
    Ok(())
}

/// Adds that rules name scripts of the wrong kind, but those whose definitions are refused.
fn add_wrong_kinds(
    refused: &Refused<'_, '_>,
    findings: &mut Vec<Finding>,
    namings: &Namings,
    errors: &[ProfileWrongConfigScriptTypeError],
) -> Result<(), AllocError>
    ensures { OnOk result (AddsLater refused.now.source.layers.now refused.now.source.position
        (flat_map (wrong_kind_faults namings.now (names_view refused.now.left_out.now.scripts))
        errors.now) findings.old.items findings.new.items) }
{
    for error in errors {
        add_wrong_kind(refused, findings, namings, error)?;
    }
    Ok(())
}

/// Adds that a rule of a profile with a filter on tests names a wrapper of lists.
fn add_list_wrapper(
    refused: &Refused<'_, '_>,
    findings: &mut Vec<Finding>,
    namings: &Namings,
    error: &ProfileListScriptUsesRunFiltersError,
) -> Result<(), AllocError>
    ensures { OnOk result (AddsLater refused.now.source.layers.now refused.now.source.position
        (list_wrapper_faults namings.now error.now) findings.old.items findings.new.items) }
{
    let alloc = refused.alloc;
    let profile = error.profile_name.as_str();
    let id = error.name.to_string(alloc)?;
    let name = id.as_str();
    let path = namings.path_of(profile, &["list-wrapper"], name)?;
    let wrong = format!(in alloc;
        "`{name}` is a list wrapper, and the filter of its rule has a predicate such as `test(..)`"
    )?;
    let expected = "a filter on packages and binaries, whose tests are not known yet";
    let code = Code::ListWrapperFilter;
    refused.add_value(findings, code, &path, wrong.as_str(), expected, None)?;
    Ok(())
}

/// Adds that rules with filters on tests name wrappers of lists.
fn add_list_wrappers(
    refused: &Refused<'_, '_>,
    findings: &mut Vec<Finding>,
    namings: &Namings,
    errors: &[ProfileListScriptUsesRunFiltersError],
) -> Result<(), AllocError>
    ensures { OnOk result (AddsLater refused.now.source.layers.now refused.now.source.position
        (flat_map (list_wrapper_faults namings.now) errors.now) findings.old.items
        findings.new.items) }
{
    for error in errors {
        add_list_wrapper(refused, findings, namings, error)?;
    }
    Ok(())
}

/// Adds what is wrong with the scripts that rules name, but those whose definitions are refused.
pub fn add_script_errors(
    refused: &Refused<'_, '_>,
    findings: &mut Vec<Finding>,
    errors: &ProfileScriptErrors,
    known: &BTreeSet<String>,
) -> Result<(), AllocError>
    ensures { OnOk result (AddsScriptErrors refused.now.source.layers.now
        refused.now.source.position (names_view refused.now.left_out.now.scripts)
        (map string_bytes known.now.keys) errors.now findings.old.items findings.new.items) }
{
    let tree = refused.source.tree();
    let namings = Namings::of(refused.alloc, tree, "scripts", &SCRIPT_USES)?;
    add_unknown_scripts(refused, findings, &namings, &errors.unknown_scripts, known)?;
    add_wrong_kinds(refused, findings, &namings, &errors.wrong_script_types)?;
    add_list_wrappers(
        refused,
        findings,
        &namings,
        &errors.list_scripts_using_run_filters,
    )?;
    Ok(())
}
