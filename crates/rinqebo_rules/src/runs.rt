//! Whether a test runs: whether the default filter that counts matches it, and no list says that it
//! is ignored.
ghost use Rattle.std.specs.Prelude.{◌≡◌, ◌++◌, ◌∷◌, [], IfOk, None, codes, map, option_map};
ghost use Rattle.nextest_engines.specs.Engines.{test_view};
ghost use Rattle.nextest_settings.specs.Profiles.Meaning.{profile_meaning};
ghost use Rattle.nextest_rules.specs.View.{id_view};
ghost use Rattle.nextest_settings.specs.Chains.{first_of};
ghost use Rattle.nextest_settings.specs.Queries.{query_in};
ghost use Rattle.nextest_settings.specs.View.{meant_override};
ghost use Rattle.rinqebo_origins.specs.KnownOrigins.{AreOriginsAt};
ghost use Rattle.rinqebo_origins.specs.RulePlaces.{id_place, place_view};
ghost use Rattle.rinqebo_rules.specs.Evaluations.{default_filter_number};
ghost use Rattle.rinqebo_rules.specs.Runs.{IsRunsRow, filtering_id, filtering_place, is_selected, runs_if, shows_runs};

use nextest_engines::{BuildPlatform, Filters, Specs, Tally, TestQuery};
use nextest_rules::OverrideId;
use nextest_settings::{EvaluatableProfile, EvaluatedOverride};
use rinqebo_keys::{RUNS, SettingKey};
use rinqebo_origins::{Origins, RulePlace};
use rinqebo_report::{Origin, Scalar, SettingRow, Value};
use rinqebo_request::RequestedSettings;
use std::alloc::{AllocError, Global};

/// The number under which the default filter is counted among rules, which no rule has.
pub(crate) const NUMBER: usize = usize::MAX;

/// The key at which a profile or an override writes its default filter.
pub fn default_filter_key() -> SettingKey
    ensures table { option_map (λ table. table.now) result.table ≡ None }
    ensures key { result.key.now ≡ codes "default-filter" }
{
    SettingKey {
        table: None,
        key: "default-filter",
    }
}

/// Whether the default filter that counts matches a test.
pub(crate) fn is_selected<F: Filters, S: Specs>(
    profile: &EvaluatableProfile<'_, F, S>,
    query: &TestQuery<'_>,
    tally: &mut F::Tally,
) -> bool
    ensures answer { let profile = profile_meaning F.meaning profile.now in
        result ≡ is_selected (query_in F.holds profile (test_view query.now)) profile }
    ensures tally { F.Tally.numbers tally.new
        ≡ F.Tally.numbers tally.old ++ default_filter_number ∷ [] }
{
    let cx = profile.filterset_ecx();
    F::matches_test(cx.default_filter, NUMBER, query, &cx, tally)
}

/// Whether a test runs that the default filter matches, or does not.
pub(crate) fn runs_if(selected: bool, ignored: bool) -> bool
    ensures { result ≡ runs_if selected ignored }
{
    selected && !ignored
}

/// Whether pages show whether a test runs.
pub(crate) fn shows_runs(asked: &RequestedSettings, runs: bool) -> bool
    ensures { result ≡ shows_runs asked.now runs }
{
    match asked {
        RequestedSettings::Decided => !runs,
        RequestedSettings::These { runs, .. } => *runs,
    }
}

/// The id of an override whose default filter would count: it has one, and its platforms hold for
/// binaries of the target.
fn filtering_id<'c, F: Filters, S: Specs>(
    rule: &EvaluatedOverride<'c, F, S>,
) -> Option<&'c OverrideId>
    ensures { option_map (λ id. id_view id.now) result
        ≡ filtering_id (meant_override F.meaning rule.now) }
{
    if !rule.is_on(BuildPlatform::Target) {
        return None;
    }
    match rule.rule().default_filter() {
        Some(_) => Some(rule.rule().id()),
        None => None,
    }
}

/// The id of the override whose default filter counts, if it is that of an override.
fn filtering_override<'c, F: Filters, S: Specs>(
    rules: &[EvaluatedOverride<'c, F, S>],
) -> Option<&'c OverrideId>
    ensures { option_map (λ id. id_view id.now) result
        ≡ first_of filtering_id (map (meant_override F.meaning) rules.now) }
{
    for rule in rules {
        if let Some(id) = filtering_id(rule) {
            return Some(id);
        }
    }
    None
}

/// The id of the override of a profile whose default filter counts, if an override sets it.
fn id_in<'c, F: Filters, S: Specs>(profile: &EvaluatableProfile<'c, F, S>) -> Option<&'c OverrideId>
    ensures { option_map id_place (option_map (λ id. id_view id.now) result)
        ≡ filtering_place (profile_meaning F.meaning profile.now) }
{
    let rules = profile.rules();
    filtering_override(&rules.overrides)
}

/// The override of a profile whose default filter counts, if an override sets it.
pub fn filtering_place<'c, F: Filters, S: Specs>(
    profile: &EvaluatableProfile<'c, F, S>,
) -> Option<RulePlace<'c>>
    ensures { option_map place_view result
        ≡ filtering_place (profile_meaning F.meaning profile.now) }
{
    match id_in(profile) {
        Some(id) => Some(RulePlace::of_override(id)),
        None => None,
    }
}

/// Where the default filter that counts is written.
fn filter_origins<'c, F: Filters, S: Specs>(
    alloc: Global,
    profile: &EvaluatableProfile<'c, F, S>,
    origins: &mut Origins<'_, '_, 'c>,
) -> Result<Vec<Origin>, AllocError>
    ensures same { origins.new ≡ origins.old }
    ensures told { let profile = profile_meaning F.meaning profile.now in
        IfOk result (λ told. AreOriginsAt origins.old (filtering_place profile) None
        (codes "default-filter") told.items) }
{
    origins.of(alloc, filtering_place(profile), default_filter_key())
}

/// The row of whether a test runs.
pub(crate) fn runs_row<'c, F: Filters, S: Specs>(
    alloc: Global,
    profile: &EvaluatableProfile<'c, F, S>,
    runs: bool,
    origins: &mut Origins<'_, '_, 'c>,
) -> Result<SettingRow, AllocError>
    ensures same { origins.new ≡ origins.old }
    ensures told { let profile = profile_meaning F.meaning profile.now in
        IfOk result (IsRunsRow origins.old (filtering_place profile) runs) }
{
    Ok(SettingRow {
        key: String::from_str(alloc, RUNS)?,
        value: Some(Value::Scalar(Scalar::Boolean(runs))),
        origins: filter_origins(alloc, profile, origins)?,
    })
}
