//! What nextest refuses of the features that a file switches on, and a load does not look at.
ghost use Rattle.std.specs.Prelude.{◌≡◌, OnOk, codes, map};
ghost use Rattle.nextest_places.specs.Spans.Paths.{path_step};
ghost use Rattle.nextest_tree.specs.Node.{member_of};
ghost use Rattle.nextest_tree.specs.Schema.{each_entry};
ghost use Rattle.nextest_tree.specs.View.{entries_view, nodes_view, tree_view};
ghost use Rattle.rinqebo_findings.specs.NextestForms.{AddsForms, each_position, features_faults, features_path, if_given, is_feature, listed_faults, no_feature, switch_faults, wrong_kind};

use crate::nextest_values::add_kind;
use crate::refused::Refused;
use nextest_places::Step;
use nextest_tree::Tree;
use rinqebo_faults::{is_among, kind_words, near_hint, quoted};
use rinqebo_report::{Code, Finding};
use rinqebo_request::SpanPart;
use std::alloc::{AllocError, Global};
use std::collections::BTreeMap;

/// The name that nextest-runner has for features that it does not know.
const UNKNOWN_FEATURES: &str = "UnknownExperimentalFeatures";

/// The features that nextest knows.
const FEATURES: [&str; 3] = ["setup-scripts", "wrapper-scripts", "benchmarks"];

/// Whether nextest has a feature of a name.
fn is_feature(name: &str) -> bool
    ensures { result ≡ is_feature name.now }
{
    is_among(&FEATURES, name)
}

/// Adds that nextest has no feature of the name at a path.
fn add_unknown_feature(
    refused: &Refused<'_, '_>,
    findings: &mut Vec<Finding>,
    path: &[Step<'_>],
    name: &str,
) -> Result<(), AllocError>
    ensures { OnOk result (AddsForms refused.now.source.layers.now refused.now.source.position
        (no_feature (map path_step path.now)) findings.old.items findings.new.items) }
{
    let alloc = refused.alloc;
    let help = near_hint(alloc, name, &FEATURES)?;
    let expected = quoted(alloc, &FEATURES, " or ")?;
    let upstream = String::from_str(alloc, UNKNOWN_FEATURES)?;
    let wrong = format!(in alloc; "`{name}` is not a feature")?;
    let code = Code::InvalidValue;
    let mut found = refused.part_at(code, path, SpanPart::Key, wrong.as_str())?;
    found.upstream = Some(upstream);
    found.expected = Some(expected);
    found.help = help;
    refused.add_finding(findings, found)
}

/// Adds that an item of the features is not a string.
fn add_item_kind(
    refused: &Refused<'_, '_>,
    findings: &mut Vec<Finding>,
    path: &[Step<'_>],
    item: &Tree,
) -> Result<(), AllocError>
    ensures { OnOk result (AddsForms refused.now.source.layers.now refused.now.source.position
        (wrong_kind (map path_step path.now)) findings.old.items findings.new.items) }
{
    let alloc = refused.alloc;
    let kind = kind_words(item);
    let wrong = format!(in alloc; "an item of `experimental` is {kind}")?;
    refused.add_value(
        findings,
        Code::WrongKind,
        path,
        wrong.as_str(),
        "a string",
        None,
    )
}

/// Reports the item at a position of an array of features, unless it names one.
fn add_listed_feature(
    refused: &Refused<'_, '_>,
    findings: &mut Vec<Finding>,
    position: usize,
    item: &Tree,
) -> Result<(), AllocError>
    ensures { OnOk result (AddsForms refused.now.source.layers.now refused.now.source.position
        (listed_faults position (tree_view item.now)) findings.old.items findings.new.items) }
{
    let path = [Step::Key("experimental"), Step::Position(position)];
    match item.as_str() {
        Some(name) if is_feature(name) => Ok(()),
        Some(name) => add_unknown_feature(refused, findings, &path, name),
        None => add_item_kind(refused, findings, &path, item),
    }
}

/// Adds the items of an array of features that name none.
fn add_listed_features(
    refused: &Refused<'_, '_>,
    findings: &mut Vec<Finding>,
    items: &[Tree],
) -> Result<(), AllocError>
    ensures { OnOk result (AddsForms refused.now.source.layers.now refused.now.source.position
        (each_position listed_faults 0 (nodes_view items.now)) findings.old.items
        findings.new.items) }
{
    for (position, item) in items.iter().enumerate() {
        add_listed_feature(refused, findings, position, item)?;
    }
    Ok(())
}

/// Reports a key of a table of features, unless it is the name of one and has a boolean.
fn add_switch(
    refused: &Refused<'_, '_>,
    findings: &mut Vec<Finding>,
    name: &str,
    given: &Tree,
) -> Result<(), AllocError>
    ensures { OnOk result (AddsForms refused.now.source.layers.now refused.now.source.position
        (switch_faults name.now (tree_view given.now)) findings.old.items findings.new.items) }
{
    let path = [Step::Key("experimental"), Step::Key(name)];
    if !is_feature(name) {
        return add_unknown_feature(refused, findings, &path, name);
    }
    match given.as_bool() {
        Some(_) => Ok(()),
        None => add_kind(refused, findings, &path, given, "a boolean"),
    }
}

/// Reports the keys of a table that are no names of features, and the values that are not booleans.
fn add_switched_features(
    refused: &Refused<'_, '_>,
    findings: &mut Vec<Finding>,
    members: &BTreeMap<String, Tree>,
) -> Result<(), AllocError>
    ensures { OnOk result (AddsForms refused.now.source.layers.now refused.now.source.position
        (each_entry switch_faults (entries_view members.now.entries)) findings.old.items
        findings.new.items) }
{
    for (name, given) in members.iter() {
        add_switch(refused, findings, name.as_str(), given)?;
    }
    Ok(())
}

/// What to write in place of the name of a feature, if it is one.
fn list_help(alloc: Global, given: &Tree) -> Result<Option<String>, AllocError> {
    match given.as_str() {
        Some(name) => Ok(Some(format!(in alloc; "write `[\"{name}\"]`")?)),
        None => Ok(None),
    }
}

/// Adds that the features of a file are neither an array nor a table.
fn add_features_kind(
    refused: &Refused<'_, '_>,
    findings: &mut Vec<Finding>,
    given: &Tree,
) -> Result<(), AllocError>
    ensures { OnOk result (AddsForms refused.now.source.layers.now refused.now.source.position
        (wrong_kind features_path) findings.old.items findings.new.items) }
{
    let alloc = refused.alloc;
    let help = list_help(alloc, given)?;
    let kind = kind_words(given);
    let wrong = format!(in alloc; "`experimental` is {kind}")?;
    let expected = "an array of strings, or a table";
    let path = [Step::Key("experimental")];
    refused.add_value(
        findings,
        Code::WrongKind,
        &path,
        wrong.as_str(),
        expected,
        help,
    )
}

/// Adds what is wrong with an array or a table of features, or with what is neither.
fn add_features_form(
    refused: &Refused<'_, '_>,
    findings: &mut Vec<Finding>,
    given: &Tree,
) -> Result<(), AllocError>
    ensures { OnOk result (AddsForms refused.now.source.layers.now refused.now.source.position
        (features_faults (tree_view given.now)) findings.old.items findings.new.items) }
{
    if let Some(items) = given.as_array() {
        return add_listed_features(refused, findings, items);
    }
    match given.as_table() {
        Some(members) => add_switched_features(refused, findings, members),
        None => add_features_kind(refused, findings, given),
    }
}

/// Adds what is wrong with the features that a file switches on.
pub fn add_features(
    refused: &Refused<'_, '_>,
    findings: &mut Vec<Finding>,
    tree: &Tree,
) -> Result<(), AllocError>
    ensures { OnOk result (AddsForms refused.now.source.layers.now refused.now.source.position
        (if_given features_faults (member_of (codes "experimental") (tree_view tree.now)))
        findings.old.items findings.new.items) }
{
    match tree.get("experimental") {
        Some(given) => add_features_form(refused, findings, given),
        None => Ok(()),
    }
}
