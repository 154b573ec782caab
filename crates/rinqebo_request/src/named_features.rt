//! The experimental features that a command line and variables name.
ghost use Rattle.std.specs.Prelude.{◌≡◌, ◌∷◌, [], IfErr, IfOk, OnOk, codes, map};
ghost use Rattle.nextest_elements.specs.Experimental.{experimental_text};
ghost use Rattle.rinqebo_forms.specs.Features.{AreAdded};
ghost use Rattle.rinqebo_request.specs.Lines.{line_of, values_at};
ghost use Rattle.rinqebo_request.specs.Requests.{AreFeaturesNamed, HasNamed, IsFeatureName};
ghost use Rattle.rinqebo_request.specs.Refusals.{IsFeatureRefusal, IsRefusedWith, SaysNoFeature};
ghost use Rattle.rinqebo_request.specs.Variables.{IsSwitchedOn};

use crate::environment::Environment;
use crate::features::{FEATURES, feature_of};
use crate::hints::name_hint;
use crate::line::values;
use crate::words::{ParseStop, usage};
use clap::ArgMatches;
use nextest_elements::ConfigExperimental;
use std::alloc::{AllocError, Global};
use std::collections::BTreeSet;

/// Adds the features that variables enable.
fn add_switched(
    features: &mut BTreeSet<ConfigExperimental>,
    environment: &Environment,
) -> Result<(), AllocError>
    ensures { OnOk result (AreAdded (IsSwitchedOn environment.now) FEATURES features.old
        features.new) }
{
    for feature in FEATURES.iter() {
        add_if_switched(features, environment, *feature)?;
    }
    Ok(())
}

/// Adds a feature, if its variable enables it.
fn add_if_switched(
    features: &mut BTreeSet<ConfigExperimental>,
    environment: &Environment,
    feature: ConfigExperimental,
) -> Result<(), AllocError>
    ensures { OnOk result (AreAdded (IsSwitchedOn environment.now) (feature ∷ []) features.old
        features.new) }
{
    if environment.switches_on(feature) {
        features.insert(feature)?;
        return Ok(());
    }
    Ok(())
}

/// Why a text is not the name of a feature.
fn no_feature(alloc: Global, name: &str) -> Result<ParseStop, AllocError>
    ensures { IfOk result (SaysNoFeature name.now) }
{
    let message = format!(in alloc; "unknown experimental feature `{name}`")?;
    let hint = name_hint(alloc, name, &["setup-scripts", "wrapper-scripts"])?;
    usage(alloc, message.as_str(), hint)
}

/// The feature that the value of an option names.
fn named_feature(alloc: Global, name: &str) -> Result<ConfigExperimental, ParseStop>
    ensures ok { IfOk result (λ feature. experimental_text feature ≡ name.now) }
    ensures err { IfErr result (IsRefusedWith (¬ IsFeatureName name.now) (SaysNoFeature name.now)) }
{
    match feature_of(name) {
        Some(feature) => Ok(feature),
        None => Err(no_feature(alloc, name)?),
    }
}

/// Adds a feature.
fn add_feature(
    features: &mut BTreeSet<ConfigExperimental>,
    feature: ConfigExperimental,
) -> Result<(), AllocError>
    ensures { OnOk result (AreAdded (λ _. Unit {0}) (feature ∷ []) features.old features.new) }
{
    features.insert(feature)?;
    Ok(())
}

/// Adds the features of some names.
fn add_named(
    alloc: Global,
    features: &mut BTreeSet<ConfigExperimental>,
    names: &[&str],
) -> Result<(), ParseStop>
    ensures ok { OnOk result
        (HasNamed (map (λ name. name.now) names.now) features.old features.new) }
    ensures err { IfErr result (IsFeatureRefusal (map (λ name. name.now) names.now)) }
{
    for name in names {
        let feature = named_feature(alloc, *name)?;
        add_feature(features, feature)?;
    }
    Ok(())
}

/// The experimental features that variables and options enable.
pub fn features(
    alloc: Global,
    matches: &ArgMatches<'_>,
    environment: &Environment,
) -> Result<BTreeSet<ConfigExperimental>, ParseStop>
    ensures ok { IfOk result (AreFeaturesNamed environment.now (line_of matches.now)) }
    ensures err { IfErr result
        (IsFeatureRefusal (values_at (codes "experimental") (line_of matches.now))) }
{
    let mut features = BTreeSet::new(alloc);
    add_switched(&mut features, environment)?;
    add_named(
        alloc,
        &mut features,
        values(matches, "experimental").unwrap_or(&[]),
    )?;
    Ok(features)
}
