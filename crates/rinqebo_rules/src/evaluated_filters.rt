//! The filters that a profile evaluates on the platforms of a build, by the fields that they use.
ghost use Rattle.std.specs.Prelude.{◌≡◌, ◌++◌, IfOk, None, map, option_map};
ghost use Rattle.std.specs.List.{flat_map};
ghost use Rattle.filter_engine.specs.Compiling.{names_of};
ghost use Rattle.filter_language.specs.Filtersets.{marks_view};
ghost use Rattle.nextest_settings.specs.Profiles.Meaning.{profile_meaning};
ghost use Rattle.nextest_settings.specs.View.{meant_override, meant_script_rule};
ghost use Rattle.rinqebo_rules.specs.EvaluatedFilters.{asks_any, default_site, evaluated_filters, evaluated_of, open_filters, placed_view, site_key, site_rule, site_view, which_has};
ghost use Rattle.nextest_inheritance.specs.View.{borrowed_view};
ghost use Rattle.rinqebo_origins.specs.KnownOrigins.{AreOriginsAt};
ghost use Rattle.rinqebo_origins.specs.RulePlaces.{id_place, place_view, script_place};
ghost use Rattle.rinqebo_rules.specs.Runs.{filtering_place};

use crate::conditions::Filter;
use crate::runs::filtering_place;
use filter_engine::{Field, NextestFilters};
use nextest_engines::BuildPlatform;
use nextest_settings::{EvaluatableProfile, EvaluatedOverride, EvaluatedScriptRule};
use platform_language::TargetSpecs;
use rinqebo_keys::SettingKey;
use rinqebo_origins::{RulePlace, found};
use rinqebo_report::Origin;
use rinqebo_request::Layer;
use std::alloc::{AllocError, Global};

/// A profile on the platforms of a build.
type Profile<'c> = EvaluatableProfile<'c, NextestFilters, TargetSpecs>;

/// An override on the platforms of a build.
type Override<'c> = EvaluatedOverride<'c, NextestFilters, TargetSpecs>;

/// A script rule on the platforms of a build.
type ScriptRule<'c> = EvaluatedScriptRule<'c, NextestFilters, TargetSpecs>;

/// Where a filter is written.
#[derive(Clone, Copy)]
pub enum FilterPlace<'c> {
    /// It is the default filter of the chain of profiles.
    Chain,
    /// It is the default filter of this override.
    DefaultOf(RulePlace<'c>),
    /// It is the filter of this rule.
    Rule(RulePlace<'c>),
}

impl<'c> FilterPlace<'c> {
    /// The rule that writes the filter, if one does.
    fn rule(self) -> Option<RulePlace<'c>>
        ensures { option_map place_view result ≡ site_rule (site_view self.entry) }
    {
        match self {
            FilterPlace::Chain => None,
            FilterPlace::DefaultOf(rule) | FilterPlace::Rule(rule) => Some(rule),
        }
    }

    /// The key at which the filter is written.
    fn key(self) -> SettingKey
        ensures table { option_map (λ table. table.now) result.table ≡ None }
        ensures key { result.key.now ≡ site_key (site_view self.entry) }
    {
        let key = match self {
            FilterPlace::Chain | FilterPlace::DefaultOf(_) => "default-filter",
            FilterPlace::Rule(_) => "filter",
        };
        SettingKey { table: None, key }
    }

    /// Where the filter is written in the layers, by a rule or by a chain of profiles.
    pub fn origins(
        self,
        alloc: Global,
        layers: &[Layer],
        chain: &[&str],
    ) -> Result<Vec<Origin>, AllocError>
        ensures { IfOk result (λ origins. AreOriginsAt
            (record { layers = layers.now; chain = borrowed_view chain.now })
            (site_rule (site_view self.entry)) None (site_key (site_view self.entry))
            origins.items) }
    {
        found(alloc, layers, chain, self.rule(), self.key())
    }
}

/// A filter, with where it is written.
#[derive(Clone, Copy)]
pub struct PlacedFilter<'c> {
    /// Where it is written.
    pub place: FilterPlace<'c>,
    /// The filter.
    pub filter: &'c Filter,
}

/// Whether a filter uses one of some fields.
fn asks_any(filter: &Filter, fields: &[Field]) -> bool
    ensures { result ≡ asks_any fields.now (marks_view names_of filter.now) }
{
    fields
        .iter()
        .any(|field| filter.asks::<NextestFilters>(*field))
}

/// Adds a filter, if there is one that uses one of some fields.
fn with_asking<'c>(
    found: Vec<PlacedFilter<'c>>,
    place: FilterPlace<'c>,
    filter: Option<&'c Filter>,
    fields: &[Field],
) -> Result<Vec<PlacedFilter<'c>>, AllocError>
    ensures { IfOk result (λ all. map placed_view all.items ≡ map placed_view found.entry.items
        ++ which_has (asks_any fields.now) (site_view place.entry)
        (option_map (λ filter. marks_view names_of filter.now) filter.entry)) }
{
    let mut found = found;
    if let Some(filter) = filter {
        if asks_any(filter, fields) {
            found.push(PlacedFilter { place, filter })?;
        }
    }
    Ok(found)
}

/// Adds the filter of an override, if it uses one of some fields and is evaluated.
fn with_override<'c>(
    found: Vec<PlacedFilter<'c>>,
    rule: &Override<'c>,
    fields: &[Field],
) -> Result<Vec<PlacedFilter<'c>>, AllocError>
    ensures { IfOk result (λ all. map placed_view all.items ≡ map placed_view found.entry.items
        ++ evaluated_of (asks_any fields.now) (λ w. id_place w.id)
        (meant_override (marks_view names_of) rule.now)) }
{
    if !rule.is_on(BuildPlatform::Host) && !rule.is_on(BuildPlatform::Target) {
        return Ok(found);
    }
    let place = FilterPlace::Rule(RulePlace::of_override(rule.rule().id()));
    with_asking(found, place, rule.rule().filter(), fields)
}

/// Adds the filter of a script rule, if it uses one of some fields and is evaluated.
fn with_script_rule<'c>(
    found: Vec<PlacedFilter<'c>>,
    rule: &ScriptRule<'c>,
    fields: &[Field],
) -> Result<Vec<PlacedFilter<'c>>, AllocError>
    ensures { IfOk result (λ all. map placed_view all.items ≡ map placed_view found.entry.items
        ++ evaluated_of (asks_any fields.now) (λ w. script_place w.id)
        (meant_script_rule (marks_view names_of) rule.now)) }
{
    if !rule.is_on(BuildPlatform::Host) && !rule.is_on(BuildPlatform::Target) {
        return Ok(found);
    }
    let place = FilterPlace::Rule(RulePlace::of_script(rule.rule().id()));
    with_asking(found, place, rule.rule().filter(), fields)
}

/// Adds the filters of overrides that use one of some fields and are evaluated.
fn with_overrides<'c>(
    found: Vec<PlacedFilter<'c>>,
    rules: &[Override<'c>],
    fields: &[Field],
) -> Result<Vec<PlacedFilter<'c>>, AllocError>
    ensures { IfOk result (λ all. map placed_view all.items ≡ map placed_view found.entry.items
        ++ flat_map (evaluated_of (asks_any fields.now) (λ w. id_place w.id))
        (map (meant_override (marks_view names_of)) rules.now)) }
{
    let mut all = found;
    for rule in rules {
        all = with_override(all, rule, fields)?;
    }
    Ok(all)
}

/// Adds the filters of script rules that use one of some fields and are evaluated.
fn with_script_rules<'c>(
    found: Vec<PlacedFilter<'c>>,
    rules: &[ScriptRule<'c>],
    fields: &[Field],
) -> Result<Vec<PlacedFilter<'c>>, AllocError>
    ensures { IfOk result (λ all. map placed_view all.items ≡ map placed_view found.entry.items
        ++ flat_map (evaluated_of (asks_any fields.now) (λ w. script_place w.id))
        (map (meant_script_rule (marks_view names_of)) rules.now)) }
{
    let mut all = found;
    for rule in rules {
        all = with_script_rule(all, rule, fields)?;
    }
    Ok(all)
}

/// Where the default filter is written that counts.
fn default_place<'c>(profile: &Profile<'c>) -> FilterPlace<'c>
    ensures { site_view result ≡ default_site
        (filtering_place (profile_meaning (marks_view names_of) profile.now)) }
{
    match filtering_place(profile) {
        Some(place) => FilterPlace::DefaultOf(place),
        None => FilterPlace::Chain,
    }
}

/// The filters of a profile that are evaluated on the platforms of a build and use one of some
/// fields: the default filter that counts, and the filters of the rules whose platforms hold for
/// binaries of the host or of the target, in order.
pub fn filters_asking<'c>(
    alloc: Global,
    profile: &Profile<'c>,
    fields: &[Field],
) -> Result<Vec<PlacedFilter<'c>>, AllocError>
    ensures { IfOk result (λ found. map placed_view found.items ≡ evaluated_filters
        (asks_any fields.now) (profile_meaning (marks_view names_of) profile.now)) }
{
    let default = Some(profile.filterset_ecx().default_filter);
    let rules = profile.rules();
    let none = Vec::new(alloc);
    let first = with_asking(none, default_place(profile), default, fields)?;
    let more = with_overrides(first, &rules.overrides, fields)?;
    let all = with_script_rules(more, &rules.script_rules, fields)?;
    Ok(all)
}

/// The filters of a profile that are evaluated and have sets of packages that were not looked up.
pub fn filters_left_open<'c>(
    alloc: Global,
    filters: &NextestFilters,
    profile: &Profile<'c>,
) -> Result<Vec<PlacedFilter<'c>>, AllocError>
    ensures { IfOk result (λ found. map placed_view found.items ≡ open_filters
        filters.now.packages (profile_meaning (marks_view names_of) profile.now)) }
{
    if !filters.is_open() {
        return Ok(Vec::new(alloc));
    }
    filters_asking(alloc, profile, &[Field::Deps, Field::Rdeps])
}
