//! Findings of features that are not enabled.
ghost use Rattle.std.specs.Prelude.{◌∷◌, [], OnOk};
ghost use Rattle.rinqebo_findings.specs.Later.{AddsLater, document_at, feature_fault, feature_faults};

use crate::refused::Refused;
use nextest_elements::ConfigExperimental;
use rinqebo_faults::{feature_help, feature_path};
use rinqebo_report::{Code, Finding};
use rinqebo_request::SpanPart;
use std::alloc::AllocError;

/// Adds that a feature of a name is not enabled, of several that are missing.
fn add_feature(
    refused: &Refused<'_, '_>,
    findings: &mut Vec<Finding>,
    name: &str,
    missing: &[ConfigExperimental],
) -> Result<(), AllocError>
    ensures { let layers = refused.now.source.layers.now in
        let position = refused.now.source.position in
        OnOk result (AddsLater layers position
        (feature_fault (document_at layers position) missing.now name.now ∷ [])
        findings.old.items findings.new.items) }
{
    let alloc = refused.alloc;
    let tree = refused.source.tree();
    let path = feature_path(alloc, tree, name)?;
    let help = feature_help(alloc, tree, name, missing)?;
    let wrong = format!(in alloc; "the feature `{name}` is not enabled")?;
    let (code, part) = (Code::FeatureOff, SpanPart::Key);
    refused.add_fault(
        findings,
        code,
        &path,
        part,
        wrong.as_str(),
        None,
        Some(help),
    )?;
    Ok(())
}

/// Adds the features that are not enabled.
pub fn add_features(
    refused: &Refused<'_, '_>,
    findings: &mut Vec<Finding>,
    features: &[ConfigExperimental],
) -> Result<(), AllocError>
    ensures { let layers = refused.now.source.layers.now in
        let position = refused.now.source.position in
        OnOk result (AddsLater layers position
        (feature_faults (document_at layers position) features.now) findings.old.items
        findings.new.items) }
{
    let alloc = refused.alloc;
    for feature in features {
        let name = feature.to_string(alloc)?;
        add_feature(refused, findings, name.as_str(), features)?;
    }
    Ok(())
}
