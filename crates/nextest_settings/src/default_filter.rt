//! The default filter of a profile: which tests run where no other filter is given.
ghost use Rattle.std.specs.Prelude.{◌≡◌, map, option_map, option_and_then, IfOk, string_bytes};
ghost use Rattle.nextest_rules.specs.Rules.{at_name};
ghost use Rattle.nextest_rules.specs.View.{layer_view, read_filter_view};
ghost use Rattle.nextest_settings.specs.Chains.{first_of, filter_of_profile, nearest_filter, match_all_filter, display_of};
ghost use Rattle.nextest_settings.specs.Platforms.{filter_of_override, default_filter_of};
ghost use Rattle.nextest_settings.specs.View.{evaluated_override_view};
ghost use Rattle.nextest_settings.specs.FilterView.{filter_view};

use crate::gather::profile_at;
use crate::platforms::EvaluatedOverride;
use nextest_engines::{Filters, Specs};
use nextest_rules::{LayerRules, ReadFilter};
use std::alloc::{AllocError, Global};

/// Where a default filter is.
#[derive(Clone, Copy, Debug, PartialEq, Eq)]
pub enum CompiledDefaultFilterSection {
    /// At a profile.
    Profile,
    /// At an override, of this position in its file.
    Override(usize),
}

/// A default filter, and where it is.
#[derive_where(Clone, Copy)]
pub struct CompiledDefaultFilter<'cfg, F: Filters> {
    /// The filter.
    pub expr: &'cfg F::Expr,
    /// Its text, as it is written, and `all()` where no source writes one.
    pub text: &'cfg str,
    /// The profile under which it appears.
    pub profile: &'cfg str,
    /// Where it is in that profile.
    pub section: CompiledDefaultFilterSection,
}

impl<F: Filters> CompiledDefaultFilter<'_, F> {
    /// The place of the filter, as it is shown.
    pub fn display_config(&self, alloc: Global) -> Result<String, AllocError>
        ensures { IfOk result (λ text. string_bytes text ≡ display_of (filter_view self.now)) }
    {
        let (before, after) = match self.section {
            CompiledDefaultFilterSection::Profile => ("profile.", ".default-filter"),
            CompiledDefaultFilterSection::Override(_) => {
                ("default-filter in profile.", ".overrides")
            }
        };
        let mut text = String::from_str(alloc, before)?;
        text.push_str(self.profile)?;
        text.push_str(after)?;
        Ok(text)
    }
}

/// The default filter that a profile of a source writes.
fn written_filter<'cfg, F: Filters, S: Specs>(
    layer: &'cfg LayerRules<F, S>,
    name: &str,
) -> Option<&'cfg ReadFilter<F>>
    ensures { option_map (λ filter. read_filter_view filter.now) result
        ≡ option_and_then (λ p. p.default_filter) (at_name name.now
        (layer_view layer.now).profiles) }
{
    match profile_at(layer, name) {
        Some(profile) => profile.default_filter.as_ref(),
        None => None,
    }
}

/// The default filter that the highest source writes for a profile.
fn highest_filter<'cfg, F: Filters, S: Specs>(
    layers: &'cfg [LayerRules<F, S>],
    name: &str,
) -> Option<&'cfg ReadFilter<F>>
    ensures { option_map (λ filter. read_filter_view filter.now) result
        ≡ first_of (λ layer. option_and_then (λ p. p.default_filter)
        (at_name name.now layer.profiles))
        (map layer_view layers.now) }
{
    for layer in layers {
        if let Some(filter) = written_filter(layer, name) {
            return Some(filter);
        }
    }
    None
}

/// The default filter of a profile: that of the highest source which writes one.
fn filter_of_profile<'cfg, F: Filters, S: Specs>(
    layers: &'cfg [LayerRules<F, S>],
    name: &'cfg str,
) -> Option<CompiledDefaultFilter<'cfg, F>>
    ensures { option_map filter_view result
        ≡ filter_of_profile (map layer_view layers.now) name.now }
{
    match highest_filter(layers, name) {
        Some(filter) => Some(CompiledDefaultFilter {
            expr: &filter.expr,
            text: filter.text.as_str(),
            profile: name,
            section: CompiledDefaultFilterSection::Profile,
        }),
        None => None,
    }
}

/// The default filter of the nearest profile of these names which has one.
pub fn nearest_filter<'cfg, F: Filters, S: Specs>(
    layers: &'cfg [LayerRules<F, S>],
    names: &[&'cfg str],
) -> Option<CompiledDefaultFilter<'cfg, F>>
    ensures { option_map filter_view result
        ≡ nearest_filter (map layer_view layers.now) (map (λ name. name.now) names.now) }
{
    for name in names {
        if let Some(filter) = filter_of_profile(layers, name) {
            return Some(filter);
        }
    }
    None
}

/// The default filter of an override, where its platforms hold for binaries of the target.
fn filter_of_override<'cfg, F: Filters, S: Specs>(
    rule: &EvaluatedOverride<'cfg, F, S>,
) -> Option<CompiledDefaultFilter<'cfg, F>>
    ensures { option_map filter_view result
        ≡ filter_of_override (evaluated_override_view rule.now) }
{
    if !rule.for_target {
        return None;
    }
    match rule.rule.default_filter() {
        Some(filter) => Some(CompiledDefaultFilter {
            expr: &filter.expr,
            text: filter.text.as_str(),
            profile: rule.rule.id().profile_name.as_str(),
            section: CompiledDefaultFilterSection::Override(rule.rule.id().index),
        }),
        None => None,
    }
}

/// The default filter of the first override which has one and whose platforms hold for binaries of
/// the target.
fn first_filter<'cfg, F: Filters, S: Specs>(
    overrides: &[EvaluatedOverride<'cfg, F, S>],
) -> Option<CompiledDefaultFilter<'cfg, F>>
    ensures { option_map filter_view result
        ≡ first_of filter_of_override (map evaluated_override_view overrides.now) }
{
    for rule in overrides {
        if let Some(filter) = filter_of_override(rule) {
            return Some(filter);
        }
    }
    None
}

/// The default filter that counts on the platforms of a build: that of the first override which has
/// one and whose platforms hold for binaries of the target, else that of the nearest profile, else
/// the one that matches everything.
pub fn default_filter_of<'cfg, F: Filters, S: Specs>(
    overrides: &[EvaluatedOverride<'cfg, F, S>],
    nearest: Option<CompiledDefaultFilter<'cfg, F>>,
    match_all: &'cfg F::Expr,
) -> CompiledDefaultFilter<'cfg, F>
    ensures { filter_view result
        ≡ default_filter_of (map evaluated_override_view overrides.now)
        (option_map filter_view nearest.entry) (match_all_filter match_all.now) }
{
    match first_filter(overrides) {
        Some(filter) => filter,
        None => nearest.unwrap_or(CompiledDefaultFilter {
            expr: match_all,
            text: "all()",
            profile: nextest_inheritance::DEFAULT_PROFILE,
            section: CompiledDefaultFilterSection::Profile,
        }),
    }
}
