//! What nextest refuses and a load does not look at: the version that a file needs, the features
//! that it switches on, archives, and how running tests are ended.
ghost use Rattle.std.specs.Prelude.{◌≡◌, IfOk, OnOk, Some, codes, option_map};
ghost use Rattle.std.specs.Option.{option_and_then};
ghost use Rattle.nextest_tree.specs.Node.{member_of};
ghost use Rattle.nextest_tree.specs.Schema.{each_entry};
ghost use Rattle.nextest_tree.specs.View.{entries_view, tree_view};
ghost use Rattle.rinqebo_request.specs.Files.Layers.{layer_tree};
ghost use Rattle.rinqebo_findings.specs.NextestForms.{AddsForms, ReportForms, form_faults, if_given, profile_faults, profiles_faults, terminate_faults};

use crate::findings::SourceAt;
use crate::nextest_archives::add_archive;
use crate::nextest_features::add_features;
use crate::nextest_values::add_word;
use crate::nextest_versions::add_versions;
use crate::refused::Refused;
use nextest_places::Step;
use nextest_tree::Tree;
use rinqebo_faults::LeftOut;
use rinqebo_report::Finding;
use rinqebo_request::Layer;
use std::alloc::{AllocError, Global};
use std::collections::BTreeMap;

/// The name that nextest-runner has for a value that is refused.
const REFUSED_VALUE: &str = "DeserializeError";

/// How running tests are ended.
const TERMINATE: [&str; 2] = ["wait", "immediate"];

/// How a profile ends running tests, if it says so.
fn terminate_of(table: &Tree) -> Option<&Tree>
    ensures { option_map (λ tree. tree_view tree.now) result
        ≡ option_and_then (member_of (codes "terminate"))
        (member_of (codes "fail-fast") (tree_view table.now)) }
{
    table.get("fail-fast")?.get("terminate")
}

/// Adds what is wrong with how a profile ends running tests.
fn add_terminate(
    refused: &Refused<'_, '_>,
    findings: &mut Vec<Finding>,
    profile: &str,
    table: &Tree,
) -> Result<(), AllocError>
    ensures { OnOk result (AddsForms refused.now.source.layers.now refused.now.source.position
        (if_given (terminate_faults profile.now) (option_and_then (member_of (codes "terminate"))
        (member_of (codes "fail-fast") (tree_view table.now)))) findings.old.items
        findings.new.items) }
{
    let Some(given) = terminate_of(table) else {
        return Ok(());
    };
    let path = [
        Step::Key("profile"),
        Step::Key(profile),
        Step::Key("fail-fast"),
        Step::Key("terminate"),
    ];
    add_word(refused, findings, &path, given, &TERMINATE)
}

/// Adds what nextest refuses in a profile.
fn add_profile<'x>(
    refused: &Refused<'_, '_>,
    findings: &mut Vec<Finding>,
    name: &'x str,
    profile: &'x Tree,
) -> Result<(), AllocError>
    ensures { OnOk result (AddsForms refused.now.source.layers.now refused.now.source.position
        (profile_faults name.entry.now (tree_view profile.entry.now)) findings.old.items
        findings.new.items) }
{
    add_archive(refused, findings, name, profile)?;
    add_terminate(refused, findings, name, profile)
}

/// Adds what nextest refuses in each of some profiles.
fn add_each_profile(
    refused: &Refused<'_, '_>,
    findings: &mut Vec<Finding>,
    profiles: &BTreeMap<String, Tree>,
) -> Result<(), AllocError>
    ensures { OnOk result (AddsForms refused.now.source.layers.now refused.now.source.position
        (each_entry profile_faults (entries_view profiles.now.entries)) findings.old.items
        findings.new.items) }
{
    for (name, profile) in profiles.iter() {
        add_profile(refused, findings, name.as_str(), profile)?;
    }
    Ok(())
}

/// Adds what nextest refuses in the profiles of a file, if they are a table.
fn add_profiles_form(
    refused: &Refused<'_, '_>,
    findings: &mut Vec<Finding>,
    given: &Tree,
) -> Result<(), AllocError>
    ensures { OnOk result (AddsForms refused.now.source.layers.now refused.now.source.position
        (profiles_faults (tree_view given.now)) findings.old.items findings.new.items) }
{
    match given.as_table() {
        Some(profiles) => add_each_profile(refused, findings, profiles),
        None => Ok(()),
    }
}

/// Adds what nextest refuses in the profiles of a file.
fn add_profiles(
    refused: &Refused<'_, '_>,
    findings: &mut Vec<Finding>,
    tree: &Tree,
) -> Result<(), AllocError>
    ensures { OnOk result (AddsForms refused.now.source.layers.now refused.now.source.position
        (if_given profiles_faults (member_of (codes "profile") (tree_view tree.now)))
        findings.old.items findings.new.items) }
{
    match tree.get("profile") {
        Some(given) => add_profiles_form(refused, findings, given),
        None => Ok(()),
    }
}

/// Adds what nextest refuses in a file.
fn add_forms(
    refused: &Refused<'_, '_>,
    findings: &mut Vec<Finding>,
    tree: &Tree,
) -> Result<(), AllocError>
    ensures { OnOk result (AddsForms refused.now.source.layers.now refused.now.source.position
        (form_faults (tree_view tree.now)) findings.old.items findings.new.items) }
{
    add_versions(refused, findings, tree)?;
    add_features(refused, findings, tree)?;
    add_profiles(refused, findings, tree)
}

/// Adds what nextest refuses in the file of the layer at a position, if it is a document.
fn add_forms_of(
    alloc: Global,
    findings: &mut Vec<Finding>,
    layers: &[Layer<'_>],
    position: usize,
    layer: &Layer<'_>,
) -> Result<(), AllocError>
    ensures { OnOk result (AddsForms layers.now (Some position)
        (if_given form_faults (layer_tree layer.now)) findings.old.items findings.new.items) }
{
    let Some(tree) = layer.tree() else {
        return Ok(());
    };
    let left_out = LeftOut::new(alloc);
    let refused = Refused {
        alloc,
        source: SourceAt {
            layers,
            position: Some(position),
        },
        text: None,
        upstream: REFUSED_VALUE,
        left_out: &left_out,
    };
    add_forms(&refused, findings, tree)
}

/// Returns what nextest refuses in the files of layers and a load does not look at.
pub fn nextest_findings(alloc: Global, layers: &[Layer<'_>]) -> Result<Vec<Finding>, AllocError>
    ensures { IfOk result (λ findings. ReportForms layers.now findings.items) }
{
    let mut findings = Vec::new(alloc);
    for (position, layer) in layers.iter().enumerate() {
        add_forms_of(alloc, &mut findings, layers, position, layer)?;
    }
    Ok(findings)
}
