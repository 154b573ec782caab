//! What counts for a chain of profiles: their rules in order, and their fields.
ghost use Rattle.std.specs.Prelude.{◌≡◌, ◌++◌, map, IfOk, option_map, flat_map};
ghost use Rattle.nextest_load.specs.ConfigView.{merged_profile_view};
ghost use Rattle.nextest_rules.specs.Rules.{at_name};
ghost use Rattle.nextest_rules.specs.View.{layer_view, layer_profile_view};
ghost use Rattle.nextest_settings.specs.Chains.{in_layer, in_order, overrides_of, script_rules_of, fields_of};
ghost use Rattle.nextest_settings.specs.View.{override_ref_view, script_rule_ref_view, fields_ref_view};
ghost use Rattle.nextest_tables.specs.View.{by_name, fields_view};

use nextest_engines::{Filters, Specs};
use nextest_load::MergedProfile;
use nextest_rules::{CompiledOverride, CompiledProfile, CompiledProfileScripts, LayerRules};
use nextest_tables::ProfileFields;
use std::alloc::{AllocError, Global};
use std::collections::BTreeMap;

/// The rules of a chain of profiles, in order.
#[derive(Drop)]
pub struct ChainRules<'cfg, F: Filters, S: Specs> {
    /// Overrides, in order of chain, file and index.
    pub overrides: Vec<&'cfg CompiledOverride<F, S>>,
    /// Script rules, in the same order.
    pub script_rules: Vec<&'cfg CompiledProfileScripts<F, S>>,
}

/// The profile of a name in a source.
pub(crate) fn profile_at<'cfg, F: Filters, S: Specs>(
    layer: &'cfg LayerRules<F, S>,
    name: &str,
) -> Option<&'cfg CompiledProfile<F, S>>
    ensures { option_map (λ p. layer_profile_view p.now) result
        ≡ at_name name.now (layer_view layer.now).profiles }
{
    layer.profiles.get(name)
}

/// The rules that were found, and then these.
fn with_rules<'cfg, R>(found: Vec<&'cfg R>, rules: &'cfg [R]) -> Result<Vec<&'cfg R>, AllocError>
    ensures { IfOk result (λ more. map (λ rule. rule.now) more.items
        ≡ map (λ rule. rule.now) found.entry.items ++ rules.now) }
{
    let mut found = found;
    for rule in rules {
        found.push(rule)?;
    }
    Ok(found)
}

/// The rules that were found, and then those of a profile of a source.
fn with_profile<'cfg, F: Filters, S: Specs>(
    found: ChainRules<'cfg, F, S>,
    profile: &'cfg CompiledProfile<F, S>,
) -> Result<ChainRules<'cfg, F, S>, AllocError>
    ensures overrides { IfOk result (λ more. map override_ref_view more.overrides.items
        ≡ map override_ref_view found.entry.overrides.items
        ++ (layer_profile_view profile.now).overrides) }
    ensures script_rules { IfOk result (λ more. map script_rule_ref_view more.script_rules.items
        ≡ map script_rule_ref_view found.entry.script_rules.items
        ++ (layer_profile_view profile.now).script_rules) }
{
    Ok(ChainRules {
        overrides: with_rules(found.overrides, &profile.overrides)?,
        script_rules: with_rules(found.script_rules, &profile.scripts)?,
    })
}

/// The rules that were found, and then those of the profiles of a name, source by source.
fn with_name<'cfg, F: Filters, S: Specs>(
    found: ChainRules<'cfg, F, S>,
    layers: &'cfg [LayerRules<F, S>],
    name: &str,
) -> Result<ChainRules<'cfg, F, S>, AllocError>
    ensures overrides { IfOk result (λ more. map override_ref_view more.overrides.items
        ≡ map override_ref_view found.entry.overrides.items
        ++ flat_map (in_layer (λ p. p.overrides) name.now) (map layer_view layers.now)) }
    ensures script_rules { IfOk result (λ more. map script_rule_ref_view more.script_rules.items
        ≡ map script_rule_ref_view found.entry.script_rules.items
        ++ flat_map (in_layer (λ p. p.script_rules) name.now) (map layer_view layers.now)) }
{
    let mut found = found;
    for layer in layers {
        if let Some(profile) = profile_at(layer, name) {
            found = with_profile(found, profile)?;
        }
    }
    Ok(found)
}

/// The rules of the profiles of these names: name by name, then source by source from the highest,
/// then in the order of the file.
pub fn rules_of<'cfg, F: Filters, S: Specs>(
    alloc: Global,
    layers: &'cfg [LayerRules<F, S>],
    names: &[&str],
) -> Result<ChainRules<'cfg, F, S>, AllocError>
    ensures overrides { IfOk result (λ rules. map override_ref_view rules.overrides.items
        ≡ overrides_of (map layer_view layers.now) (map (λ name. name.now) names.now)) }
    ensures script_rules { IfOk result (λ rules. map script_rule_ref_view rules.script_rules.items
        ≡ script_rules_of (map layer_view layers.now) (map (λ name. name.now) names.now)) }
{
    let mut rules = ChainRules {
        overrides: Vec::new(alloc),
        script_rules: Vec::new(alloc),
    };
    for name in names {
        rules = with_name(rules, layers, name)?;
    }
    Ok(rules)
}

/// A profile of the merged tree.
fn merged_profile_at<'cfg>(
    profiles: &'cfg BTreeMap<String, MergedProfile>,
    name: &str,
) -> Option<&'cfg MergedProfile>
    ensures { option_map (λ p. merged_profile_view p.now) result
        ≡ at_name name.now (by_name merged_profile_view profiles.now.entries) }
{
    profiles.get(name)
}

/// What the profiles of these names write, in their order.
pub fn fields_of<'cfg>(
    alloc: Global,
    profiles: &'cfg BTreeMap<String, MergedProfile>,
    names: &[&str],
) -> Result<Vec<&'cfg ProfileFields>, AllocError>
    ensures { IfOk result (λ fields. map fields_ref_view fields.items
        ≡ fields_of (by_name merged_profile_view profiles.now.entries)
        (map (λ name. name.now) names.now)) }
{
    let mut found = Vec::new(alloc);
    for name in names {
        if let Some(profile) = merged_profile_at(profiles, name) {
            found.push(&profile.fields)?;
        }
    }
    Ok(found)
}
