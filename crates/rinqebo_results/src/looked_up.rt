//! Whether the filters that a run evaluates were looked up. Without metadata those with `deps()` or
//! `rdeps()` are not, and the program refuses a run that evaluates one.
ghost use Rattle.std.specs.Prelude.{◌≡◌, [], ◌∷◌, ◌++◌, IfErr, IfOk, List, MatchOption, OnOk, true};
ghost use Rattle.filter_engine.specs.Compiling.{names_of};
ghost use Rattle.filter_engine.specs.Open.{asks_for_packages};
ghost use Rattle.filter_language.specs.Asks.{asks};
ghost use Rattle.filter_language.specs.Filtersets.{marks_view};
ghost use Rattle.nextest_sources.specs.WarningsView.{warnings_view};
ghost use Rattle.nextest_tables.specs.FileTexts.{names_in, IsIn};
ghost use Rattle.rinqebo_load.specs.Accepted.{AreAccepted};
ghost use Rattle.rinqebo_load.specs.Sessions.{files_view, readings, IsLoadedFrom};
ghost use Rattle.rinqebo_load.specs.Warned.{warnings_met};
ghost use Rattle.rinqebo_rules.specs.declared.evaluated_filters.PlacedFilter.{PlacedFilter};
ghost use Rattle.rinqebo_results.specs.LookedUp.{IsFailureFor, IsFailureOn, IsLookedUp};

use crate::list_report::profile_on;
use filter_engine::{Field, NextestFilters};
use nextest_config::{DefaultConfigWarnings, Filters};
use rinqebo_checks::config_with;
use rinqebo_load::{Config, Failure, InputFault, OpenFilter, Session, chain_of_profile};
use rinqebo_report::add_origins;
use rinqebo_request::sources_of;
use rinqebo_rules::{FilterPlace, PlacedFilter, filters_left_open};
use std::alloc::{AllocError, Global};

/// A filter that was read.
type Filter = <NextestFilters as Filters>::Expr;

/// Where a filter is written, as messages show it.
pub fn place_text(
    alloc: Global,
    session: &Session<'_>,
    chain: &[&str],
    place: FilterPlace<'_>,
) -> Result<String, AllocError> {
    let origins = place.origins(alloc, &session.layers, chain)?;
    let sources = sources_of(alloc, &session.layers)?;
    let root = session.gathered.paths.workspace_root.as_str();
    let mut text = String::new(alloc);
    add_origins(&mut text, root, &sources, &origins)?;
    Ok(text)
}

/// The first kind of set of packages that a filter uses.
fn set_of(filter: &Filter) -> Field
    requires { asks_for_packages (marks_view names_of filter.now) ≡ true }
    ensures { asks result (marks_view names_of filter.now) ≡ true }
{
    if filter.asks::<NextestFilters>(Field::Deps) {
        Field::Deps
    } else {
        Field::Rdeps
    }
}

/// Why a run that evaluates a filter which was not looked up, the first of a profile, has no
/// result.
fn failure_of(
    alloc: Global,
    session: &Session<'_>,
    config: &Config,
    profile: &str,
    placed: PlacedFilter<'_>,
) -> Result<Failure, AllocError>
    requires asks { asks_for_packages (marks_view names_of placed.filter.now) ≡ true }
    ensures { IfOk result
        (λ failure. IsFailureFor failure (marks_view names_of placed.entry.filter.now)) }
{
    let chain = chain_of_profile(alloc, config, profile)?;
    Ok(Failure::Engines(InputFault::NoMetadata(OpenFilter {
        place: place_text(alloc, session, &chain, placed.place)?,
        set: set_of(placed.filter),
    })))
}

/// The first of some filters, if there are any.
fn first_of<'c>(found: &[PlacedFilter<'c>]) -> Option<PlacedFilter<'c>>
    ensures { MatchOption result (found.now ≡ [])
        (λ first. (others : List PlacedFilter) × (found.now ≡ first ∷ others)) }
{
    match found {
        [first, ..] => Some(*first),
        [] => None,
    }
}

/// Refuses to evaluate the filters of a profile where one was not looked up.
fn require_looked_up(
    alloc: Global,
    session: &Session<'_>,
    config: &Config,
    profile: &str,
) -> Result<(), Failure>
    requires known { IsIn (names_in config.now.config.profiles) profile.now }
    requires means { IsLoadedFrom (readings session.now.engines.filters)
        (files_view session.now.gathered.now) config.now }
    ensures ok { OnOk result (IsLookedUp session.now profile.now) }
    ensures err { IfErr result (IsFailureOn session.now profile.now) }
{
    let on = profile_on(alloc, session, config, profile)?;
    let found = filters_left_open(alloc, &session.engines.filters, &on)?;
    match first_of(&found) {
        None => Ok(()),
        Some(first) => Err(failure_of(alloc, session, config, profile, first)?),
    }
}

/// The configuration of a session, which has a profile of a name. The program looked up each filter
/// that the profile evaluates on the platforms of the build. Warnings are reported as the load
/// meets them.
pub fn config_looked_up(
    alloc: Global,
    session: &Session<'_>,
    profile: &str,
    warnings: &mut DefaultConfigWarnings,
) -> Result<Config, Failure>
    ensures accepted { IfOk result (λ _. AreAccepted session.now) }
    ensures means { IfOk result (IsLoadedFrom (readings session.now.engines.filters)
        (files_view session.now.gathered.now)) }
    ensures known { IfOk result (λ config. IsIn (names_in config.config.profiles) profile.now) }
    ensures looked_up { IfOk result (λ _. IsLookedUp session.now profile.now) }
    ensures warnings { IfOk result (λ _. warnings_view warnings.new
        ≡ warnings_view warnings.old ++ warnings_met session.now) }
    ensures err { IfErr result (IsFailureOn session.now profile.now) }
{
    let config = config_with(alloc, session, profile, warnings)?;
    require_looked_up(alloc, session, &config, profile)?;
    Ok(config)
}
