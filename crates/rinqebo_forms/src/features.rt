//! The experimental features of a load.
ghost use Rattle.std.specs.List.{list_any};
ghost use Rattle.std.specs.Option.{option_and_then};
ghost use Rattle.std.specs.Prelude.{◌≡◌, ◌↔◌, ◌∷◌, [], false, IfOk, IsTrue, OnOk, Some, option_map, unwrap_or};
ghost use Rattle.nextest_elements.specs.Experimental.{experimental_text};
ghost use Rattle.nextest_rules.specs.KnownView.{features_view};
ghost use Rattle.nextest_tree.specs.Node.{as_bool};
ghost use Rattle.nextest_tree.specs.View.{tree_view};
ghost use Rattle.rinqebo_forms.specs.Features.{experimental_in, is_this_text, SwitchesOn, AreWith, AreAdded, AreFeaturesBy};

use nextest_elements::ConfigExperimental;
use nextest_tree::Tree;
use std::alloc::AllocError;
use std::collections::BTreeSet;

/// All features.
pub const FEATURES: [ConfigExperimental; 2] = [
    ConfigExperimental::SetupScripts,
    ConfigExperimental::WrapperScripts,
];

/// The name of a feature.
pub fn feature_name(feature: ConfigExperimental) -> &'static str
    ensures { result.now ≡ experimental_text feature }
{
    match feature {
        ConfigExperimental::SetupScripts => "setup-scripts",
        ConfigExperimental::WrapperScripts => "wrapper-scripts",
    }
}

/// Whether a tree is a text.
fn is_text(tree: &Tree, text: &str) -> bool
    ensures { result ≡ is_this_text text.now (tree_view tree.now) }
{
    match tree.as_str() {
        Some(found) => found == text,
        None => false,
    }
}

/// Whether an item of a list is a text.
fn has_text(items: &[Tree], text: &str) -> bool
    ensures { result ≡ list_any (λ item. is_this_text text.now (tree_view item)) items.now }
{
    items.iter().any(|item| is_text(item, text))
}

/// Whether true is there.
fn is_true(written: Option<&Tree>) -> bool
    ensures { let node = option_map (λ tree. tree_view tree.now) written.entry in
        result ≡ unwrap_or (option_and_then as_bool node) false }
{
    match written {
        Some(tree) => tree.as_bool().unwrap_or(false),
        None => false,
    }
}

/// Whether what is behind `experimental` switches a name on: a list that names it, or a table
/// in which it is true.
fn switches_on(written: &Tree, name: &str) -> bool
    ensures { IsTrue result ↔ SwitchesOn (tree_view written.now) name.now }
{
    match written.as_array() {
        Some(items) => has_text(items, name),
        None => is_true(written.get(name)),
    }
}

/// Adds a feature, where what is behind `experimental` switches it on.
fn add_feature(
    features: &mut BTreeSet<ConfigExperimental>,
    written: &Tree,
    feature: ConfigExperimental,
) -> Result<(), AllocError>
    ensures { OnOk result (AreAdded (λ f. SwitchesOn (tree_view written.now) (experimental_text f))
        (feature ∷ []) features.old features.new) }
{
    if switches_on(written, feature_name(feature)) {
        features.insert(feature)?;
        return Ok(());
    }
    Ok(())
}

/// Adds the features that what is behind `experimental` switches on.
fn add_features(
    features: &mut BTreeSet<ConfigExperimental>,
    written: &Tree,
) -> Result<(), AllocError>
    ensures { OnOk result (AreWith (Some (tree_view written.now)) features.old features.new) }
{
    for feature in FEATURES.iter() {
        add_feature(features, written, *feature)?;
    }
    Ok(())
}

/// Adds the features that what is behind `experimental` switches on, if something is.
fn add_written(
    features: &mut BTreeSet<ConfigExperimental>,
    written: Option<&Tree>,
) -> Result<(), AllocError>
    ensures { let node = option_map (λ tree. tree_view tree.now) written.entry in
        OnOk result (AreWith node features.old features.new) }
{
    match written {
        Some(written) => add_features(features, written),
        None => Ok(()),
    }
}

/// Adds the features that a document switches on.
fn add_switched(
    features: &mut BTreeSet<ConfigExperimental>,
    document: Option<&Tree>,
) -> Result<(), AllocError>
    ensures { let node = option_map (λ tree. tree_view tree.now) document.entry in
        OnOk result (AreWith (experimental_in node) features.old features.new) }
{
    match document {
        Some(tree) => add_written(features, tree.get("experimental")),
        None => Ok(()),
    }
}

/// Returns the features of a load: those that are named, and those that the repository's file
/// switches on, if it is a document.
pub fn features_by(
    named: &BTreeSet<ConfigExperimental>,
    document: Option<&Tree>,
) -> Result<BTreeSet<ConfigExperimental>, AllocError>
    ensures { let node = option_map (λ tree. tree_view tree.now) document.entry in
        IfOk result (λ features. AreFeaturesBy (features_view named.now) node (features_view features)) }
{
    let mut features = named.clone()?;
    add_switched(&mut features, document)?;
    Ok(features)
}
