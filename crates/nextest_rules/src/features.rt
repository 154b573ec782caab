//! Features that a file needs.
ghost use Rattle.std.specs.Prelude.{◌≡◌, ◌++◌, ◌∷◌, [], IfOk, OnOk, not, ◌&&◌, if◌then◌else◌};
ghost use Rattle.nextest_sources.specs.Endings.{ending, Found};
ghost use Rattle.nextest_sources.specs.InputFaults.{fault_at_source};
ghost use Rattle.nextest_sources.specs.Sources.{source_view};
ghost use Rattle.nextest_tables.specs.View.{file_table_view};
ghost use Rattle.nextest_rules.specs.Definitions as defs;
ghost use Rattle.nextest_rules.specs.Definitions.{features_missing};
ghost use Rattle.nextest_rules.specs.KnownView.{features_view};
ghost use Rattle.nextest_rules.specs.Steps.{feature_cause};

use crate::names::has_entries;
use nextest_elements::ConfigExperimental;
use nextest_sources::{ConfigParseError, ConfigParseErrorKind, ConfigSource};
use nextest_tables::FileTable;
use std::alloc::{AllocError, Global};
use std::collections::BTreeSet;

/// Whether a file needs a feature: for its setup scripts, for its wrapper scripts.
#[tactic(auto, using(crate::proofs::Knowing::either_nonempty))]
fn needs_feature(file: &FileTable, feature: ConfigExperimental) -> bool
    ensures { result ≡ defs.needs_feature (file_table_view file.now) feature }
{
    match feature {
        ConfigExperimental::SetupScripts => {
            has_entries(&file.scripts.setup) || has_entries(&file.script)
        }
        ConfigExperimental::WrapperScripts => has_entries(&file.scripts.wrapper),
    }
}

/// Whether a feature is switched on.
fn is_on(features: &BTreeSet<ConfigExperimental>, feature: ConfigExperimental) -> bool
    ensures { result ≡ features_view features.now feature }
{
    features.contains(&feature)
}

/// Adds a feature that a file needs, if it is not enabled.
fn add_if_missing(
    missing: &mut Vec<ConfigExperimental>,
    features: &BTreeSet<ConfigExperimental>,
    file: &FileTable,
    feature: ConfigExperimental,
) -> Result<(), AllocError>
    ensures { OnOk result (missing.new.items ≡ missing.old.items
        ++ (if defs.needs_feature (file_table_view file.now) feature
        && not (features_view features.now feature) then feature ∷ [] else [])) }
{
    if needs_feature(file, feature) && !is_on(features, feature) {
        missing.push(feature)?;
    }
    Ok(())
}

/// The features that a file needs and that are not enabled, in order.
fn missing_features(
    alloc: Global,
    features: &BTreeSet<ConfigExperimental>,
    file: &FileTable,
) -> Result<Vec<ConfigExperimental>, AllocError>
    ensures { IfOk result (λ missing. missing.items
        ≡ features_missing (features_view features.now) (file_table_view file.now)) }
{
    let mut missing = Vec::new(alloc);
    add_if_missing(
        &mut missing,
        features,
        file,
        ConfigExperimental::SetupScripts,
    )?;
    add_if_missing(
        &mut missing,
        features,
        file,
        ConfigExperimental::WrapperScripts,
    )?;
    Ok(missing)
}

/// Refuses a file that needs features which are not enabled, with all of them.
pub(crate) fn check_features(
    alloc: Global,
    features: &BTreeSet<ConfigExperimental>,
    source: &ConfigSource,
    file: &FileTable,
) -> Result<(), ConfigParseError>
    ensures { Found (fault_at_source (source_view source.now)
        (feature_cause (features_view features.now) (file_table_view file.now))) (ending result) }
{
    let missing_features = missing_features(alloc, features, file)?;
    if missing_features.is_empty() {
        return Ok(());
    }
    Err(ConfigParseError::at(
        source,
        ConfigParseErrorKind::ExperimentalFeaturesNotEnabled { missing_features },
    ))
}
