//! Features that are not enabled: what needs them, and how to switch them on.
ghost use Rattle.std.specs.Prelude.{◌≡◌, IfOk, OnOk, fold, map, option_map, string_bytes};
ghost use Rattle.nextest_places.specs.Spans.Paths.{path_step};
ghost use Rattle.nextest_tree.specs.View.{tree_view};
ghost use Rattle.rinqebo_faults.specs.Features.{enabled_by, feature_help, feature_list, feature_path, is_table, kind_of_feature, listed_features, value_at, with_quoted};

use nextest_elements::ConfigExperimental;
use nextest_places::Step;
use nextest_tree::Tree;
use std::alloc::{AllocError, Global};

/// The value at a key of a tree, if there is one.
fn value_of<'t>(tree: Option<&'t Tree>, key: &str) -> Option<&'t Tree>
    ensures { option_map (λ value. tree_view value.now) result
        ≡ value_at (option_map (λ tree. tree_view tree.now) tree.entry) key.now }
{
    tree?.get(key)
}

/// The kind of scripts that a feature switches on.
#[tactic(auto, unfolding(crate::specs::Features::kind_of_feature))]
fn kind_of_feature(feature: &str) -> &str
    ensures { result.now ≡ kind_of_feature feature.now }
{
    feature.strip_suffix("-scripts").unwrap_or(feature)
}

/// The path of the table whose scripts need a feature: the old one where it is alone.
pub fn feature_path<'p>(
    alloc: Global,
    tree: Option<&Tree>,
    feature: &'p str,
) -> Result<Vec<Step<'p>>, AllocError>
    ensures { IfOk result (λ path. map path_step path.items ≡ feature_path
        (option_map (λ tree. tree_view tree.now) tree.entry) feature.entry.now) }
{
    let mut path = Vec::new(alloc);
    let Some(scripts) = value_of(tree, "scripts") else {
        path.push(Step::Key("script"))?;
        return Ok(path);
    };
    path.push(Step::Key("scripts"))?;
    let kind = kind_of_feature(feature);
    if scripts.get(kind).is_some() {
        path.push(Step::Key(kind))?;
    }
    Ok(path)
}

/// Adds a name in quotes to a list.
#[tactic(auto, unfolding(crate::specs::Features::with_quoted))]
fn add_quoted(alloc: Global, list: &mut String, name: &str) -> Result<(), AllocError>
    ensures { OnOk result (string_bytes list.new ≡ with_quoted (string_bytes list.old) name.now) }
{
    if !list.is_empty() {
        list.push_str(", ")?;
    }
    let quoted = format!(in alloc; "\"{name}\"")?;
    list.push_str(quoted.as_str())
}

/// Adds the features that a file lists.
fn add_listed(alloc: Global, list: &mut String, listed: Option<&Tree>) -> Result<(), AllocError>
    ensures { OnOk result (string_bytes list.new ≡ fold with_quoted (string_bytes list.old)
        (listed_features (option_map (λ tree. tree_view tree.now) listed.entry))) }
{
    let Some(Tree::Array(items)) = listed else {
        return Ok(());
    };
    for item in items {
        if let Some(name) = item.as_str() {
            add_quoted(alloc, list, name)?;
        }
    }
    Ok(())
}

/// The features that a file lists, and those that it lacks, as an array of TOML has them.
#[tactic(auto, unfolding(crate::specs::Features::feature_list))]
fn feature_list(
    alloc: Global,
    listed: Option<&Tree>,
    missing: &[ConfigExperimental],
) -> Result<String, AllocError>
    ensures { IfOk result (λ list. string_bytes list ≡ feature_list
        (option_map (λ tree. tree_view tree.now) listed.entry) missing.now) }
{
    let mut list = String::new(alloc);
    add_listed(alloc, &mut list, listed)?;
    for feature in missing {
        let name = feature.to_string(alloc)?;
        add_quoted(alloc, &mut list, name.as_str())?;
    }
    Ok(list)
}

/// Whether a value is a table.
fn is_table(value: Option<&Tree>) -> bool
    ensures { result ≡ is_table (option_map (λ tree. tree_view tree.now) value.entry) }
{
    match value {
        Some(Tree::Table(_)) => true,
        _ => false,
    }
}

/// How to switch on a feature, of several that are missing, where a file lists features so.
fn enabled_by(
    alloc: Global,
    listed: Option<&Tree>,
    feature: &str,
    missing: &[ConfigExperimental],
) -> Result<String, AllocError>
    ensures { IfOk result (λ help. string_bytes help ≡ enabled_by
        (option_map (λ tree. tree_view tree.now) listed.entry) feature.now missing.now) }
{
    if is_table(listed) {
        return format!(in alloc;
            "write `experimental.{feature} = true`, or pass `--experimental {feature}`"
        );
    }
    let list = feature_list(alloc, listed, missing)?;
    format!(in alloc; "write `experimental = [{list}]`, or pass `--experimental {feature}`")
}

/// How to switch on a feature, of several that are missing in a file.
pub fn feature_help(
    alloc: Global,
    tree: Option<&Tree>,
    feature: &str,
    missing: &[ConfigExperimental],
) -> Result<String, AllocError>
    ensures { IfOk result (λ help. string_bytes help ≡ feature_help
        (option_map (λ tree. tree_view tree.now) tree.entry) feature.now missing.now) }
{
    enabled_by(alloc, value_of(tree, "experimental"), feature, missing)
}
