//! The note of `check` about filters that were not looked up.
ghost use Rattle.std.specs.Prelude.{◌≡◌, IfOk, OnOk, count_by, flat_map, map, option_map, option_to_list, string_bytes};
ghost use Rattle.nextest_rules.specs.View.{layer_profile_view, layer_view, override_rule_view, read_filter_view, script_rule_view};
ghost use Rattle.rinqebo_results.specs.StandardError.{open_filters_text};
ghost use Rattle.rinqebo_run.specs.OpenFilters.{AddsFilters, IsOpenNote, borrowed, config_filters, config_read, default_filters, is_left_open, layer_filters, open_count, override_filters, profile_filters, script_filters};

use filter_engine::NextestFilters;
use nextest_config::Filters;
use nextest_rules::{
    CompiledOverride, CompiledProfile, CompiledProfileScripts, LayerRules, ReadFilter,
};
use platform_language::TargetSpecs;
use rinqebo_load::{Config, Session};
use std::alloc::{AllocError, Global};

/// What the note says if one filter was not looked up.
const ONE_FILTER: &str =
    "1 filter uses `deps()` or `rdeps()`, and was not looked up; give `--metadata FILE`";

/// A filter that was read.
type Filter = <NextestFilters as Filters>::Expr;

/// Adds a filter, if there is one.
fn add_filter<'c>(
    filter: Option<&'c Filter>,
    filters: &mut Vec<&'c Filter>,
) -> Result<(), AllocError>
    ensures { OnOk result (AddsFilters filters.old filters.new
        (option_to_list (option_map (λ filter. filter.now) filter.entry))) }
{
    if let Some(filter) = filter {
        filters.push(filter)?;
    }
    Ok(())
}

/// Adds a default filter, if there is one.
fn add_default<'c>(
    filter: Option<&'c ReadFilter<NextestFilters>>,
    filters: &mut Vec<&'c Filter>,
) -> Result<(), AllocError>
    ensures { OnOk result (AddsFilters filters.old filters.new
        (default_filters (option_map (λ filter. read_filter_view filter.now) filter.entry))) }
{
    if let Some(filter) = filter {
        filters.push(&filter.expr)?;
    }
    Ok(())
}

/// Adds the filters of an override.
fn add_override<'c>(
    rule: &'c CompiledOverride<NextestFilters, TargetSpecs>,
    filters: &mut Vec<&'c Filter>,
) -> Result<(), AllocError>
    ensures { OnOk result (AddsFilters filters.old filters.new
        (override_filters (override_rule_view rule.now))) }
{
    add_filter(rule.filter(), filters)?;
    add_default(rule.default_filter(), filters)
}

/// Adds the filters of overrides, and their default filters.
fn add_overrides<'c>(
    rules: &'c [CompiledOverride<NextestFilters, TargetSpecs>],
    filters: &mut Vec<&'c Filter>,
) -> Result<(), AllocError>
    ensures { OnOk result (AddsFilters filters.old filters.new
        (flat_map override_filters (map override_rule_view rules.now))) }
{
    for rule in rules {
        add_override(rule, filters)?;
    }
    Ok(())
}

/// Adds the filters of script rules.
fn add_script_rules<'c>(
    rules: &'c [CompiledProfileScripts<NextestFilters, TargetSpecs>],
    filters: &mut Vec<&'c Filter>,
) -> Result<(), AllocError>
    ensures { OnOk result (AddsFilters filters.old filters.new
        (flat_map script_filters (map script_rule_view rules.now))) }
{
    for rule in rules {
        add_filter(rule.filter(), filters)?;
    }
    Ok(())
}

/// Adds the filters that a file writes for a profile.
fn add_profile<'c>(
    profile: &'c CompiledProfile<NextestFilters, TargetSpecs>,
    filters: &mut Vec<&'c Filter>,
) -> Result<(), AllocError>
    ensures { OnOk result (AddsFilters filters.old filters.new
        (profile_filters (layer_profile_view profile.now))) }
{
    add_default(profile.default_filter.as_ref(), filters)?;
    add_overrides(&profile.overrides, filters)?;
    add_script_rules(&profile.scripts, filters)
}

/// Adds the filters that a file writes.
fn add_layer<'c>(
    layer: &'c LayerRules<NextestFilters, TargetSpecs>,
    filters: &mut Vec<&'c Filter>,
) -> Result<(), AllocError>
    ensures { OnOk result (AddsFilters filters.old filters.new
        (layer_filters (layer_view layer.now))) }
{
    for profile in layer.profiles.values() {
        add_profile(profile, filters)?;
    }
    Ok(())
}

/// The filters that the files of a configuration write.
fn filters_of<'c>(alloc: Global, config: &'c Config) -> Result<Vec<&'c Filter>, AllocError>
    ensures { IfOk result (λ filters. borrowed filters.items ≡ config_filters config.now.config) }
{
    let mut filters = Vec::new(alloc);
    for layer in config.layers() {
        add_layer(layer, &mut filters)?;
    }
    Ok(filters)
}

/// How many of some filters were not looked up.
fn count_open(engine: &NextestFilters, filters: &[&Filter]) -> usize
    ensures { result
        ≡ count_by (λ filter. is_left_open engine.now.packages filter.now) filters.now }
{
    filters
        .iter()
        .filter(|filter| engine.leaves_open(*filter))
        .count()
}

/// How many filters of the files of a session were not looked up.
fn count_open_filters(
    alloc: Global,
    session: &Session<'_>,
    config: &Config,
) -> Result<usize, AllocError>
    ensures { IfOk result (λ count. count
        ≡ open_count session.now.engines.filters.packages (config_read config.now)) }
{
    let filters = filters_of(alloc, config)?;
    Ok(count_open(&session.engines.filters, &filters))
}

/// What the note says of a number of filters that were not looked up, if there are any.
fn text_of_count(alloc: Global, count: usize) -> Result<Option<String>, AllocError>
    ensures { IfOk result (λ said. option_map string_bytes said ≡ open_filters_text count) }
{
    match count {
        0 => Ok(None),
        1 => Ok(Some(String::from_str(alloc, ONE_FILTER)?)),
        _ => Ok(Some(format!(in alloc;
            "{count} filters use `deps()` or `rdeps()`, and were not looked up; give `--metadata FILE`"
        )?)),
    }
}

/// What the note says of how many filters of the files were not looked up, if there are any.
pub fn open_filters_note(
    alloc: Global,
    session: &Session<'_>,
    config: &Config,
) -> Result<Option<String>, AllocError>
    ensures { IfOk result (IsOpenNote session.now.engines.filters.packages
        (config_read config.now)) }
{
    let count = count_open_filters(alloc, session, config)?;
    text_of_count(alloc, count)
}
