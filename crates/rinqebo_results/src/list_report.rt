//! The settings of each test of a list, the rules that hold for none, the scripts of the list, and
//! the objects of its profile.
ghost use Rattle.std.specs.Prelude.{IfErr, IfOk, map};
ghost use Rattle.filter_language.specs.Filtersets.{marks_view};
ghost use Rattle.filter_engine.specs.Compiling.{names_of};
ghost use Rattle.filter_engine.specs.Engine.{filter_holds};
ghost use Rattle.nextest_inheritance.specs.Parents.{parents_in};
ghost use Rattle.nextest_inheritance.specs.View.{borrowed_view};
ghost use Rattle.nextest_load.specs.Config.{config_parents};
ghost use Rattle.nextest_settings.specs.Profiles.Meaning.{profile_meaning};
ghost use Rattle.nextest_settings.specs.Queries.{query_in};
ghost use Rattle.nextest_sources.specs.WarningsView.{warnings_view};
ghost use Rattle.nextest_tables.specs.FileTexts.{names_in, IsIn};
ghost use Rattle.filter_inputs.specs.Lists.ListView.{list_view};
ghost use Rattle.filter_inputs.specs.Lists.Lists.{all_tests, list_tests};
ghost use Rattle.rinqebo_load.specs.Warned.{warnings_met};
ghost use Rattle.rinqebo_objects.specs.Uses.{AreUsesIn};
ghost use Rattle.rinqebo_rules.specs.Rows.{AreTestsReported};
ghost use Rattle.rinqebo_rules.specs.Unused.{AreUnusedIn, AreUsedIn};
ghost use Rattle.rinqebo_rules.specs.Conditions.{is_met_by};
ghost use Rattle.rinqebo_results.specs.Listed.{HasObjects, IfListed, IsProfileOn, ReportsTests};
ghost use Rattle.rinqebo_results.specs.ListedBy.{basis_of, read_by, listed_by};
ghost use Rattle.rinqebo_results.specs.Requested.{IsRequestedIn};
ghost use Rattle.rinqebo_results.specs.LookedUp.{IsFailureOn, IsLookedUp};
ghost use Rattle.rinqebo_results.specs.Warned.{ShowsWarningsOf};
ghost use Rattle.rinqebo_checks.specs.Reports.{IsReportOf};

use crate::asked::requested_of;
use crate::list_objects::objects_of_list;
use crate::list_origins::unused_origins;
use crate::list_scripts::scripts_by_used;
use crate::looked_up::config_looked_up;
use crate::profile::early_profile;
use filter_engine::{NextestFilters, NextestTally};
use nextest_config::{DefaultConfigWarnings, EvaluatableProfile, NextestRunMode};
use platform_language::TargetSpecs;
use rinqebo_checks::report_of;
use rinqebo_findings::warning_findings;
use rinqebo_load::{Config, Failure, Session, chain_of_profile};
use rinqebo_origins::Origins;
use rinqebo_report::{Content, Report};
use rinqebo_request::RequestedSettings;
use rinqebo_rules::{ListedRows, Lister, Progress};
use std::alloc::{AllocError, Global};

/// A profile on the platforms of a build.
pub type Profile<'c> = EvaluatableProfile<'c, NextestFilters, TargetSpecs>;

/// The profile of a name on the platforms of a session.
pub fn profile_on<'c>(
    alloc: Global,
    session: &'c Session<'_>,
    config: &'c Config,
    profile: &'c str,
) -> Result<Profile<'c>, AllocError>
    requires { IsIn (names_in config.now.config.profiles) profile.now }
    ensures { IfOk result (IsProfileOn is_met_by session.now.engines.platforms
        (read_by session.now config.now) profile.now) }
{
    let early = early_profile(alloc, session, config, profile)?;
    match early.apply_build_platforms(alloc, &session.engines.platforms) {
        Ok(profile) => Ok(profile),
        Err(_) => Err(AllocError),
    }
}

/// The rows of the tests of a session, what these use of scripts, and the rules of a profile that
/// hold for none of them.
fn listed_rows<'c, P: Progress>(
    alloc: Global,
    session: &Session<'_>,
    chain: &[&str],
    profile: &Profile<'c>,
    mode: NextestRunMode,
    asked: &RequestedSettings,
    progress: &mut P,
) -> Result<ListedRows<'c>, AllocError>
    ensures tests { IfOk result (λ rows. AreTestsReported
        (basis_of session.now (borrowed_view chain.now)) filter_holds mode
        (profile_meaning (marks_view names_of) profile.now) asked.now
        (list_tests (list_view session.now.tests)) rows.tests.items) }
    ensures unused { let profile = profile_meaning (marks_view names_of) profile.now in
        IfOk result (λ rows. AreUnusedIn
        (map (query_in filter_holds profile) (all_tests (list_view session.now.tests))) profile
        rows.unused) }
    ensures used { let profile = profile_meaning (marks_view names_of) profile.now in
        IfOk result (λ rows. AreUsedIn
        (map (query_in filter_holds profile) (all_tests (list_view session.now.tests))) mode profile
        rows.used) }
    ensures uses { let profile = profile_meaning (marks_view names_of) profile.now in
        IfOk result (λ rows. AreUsesIn filter_holds profile
        (all_tests (list_view session.now.tests)) rows.uses.items) }
{
    let asking = Lister {
        profile,
        mode,
        asked,
    };
    let tests = session.tests.tests(alloc)?;
    let mut origins = Origins::new(alloc, &session.layers, chain);
    let mut tally = NextestTally::new();
    asking.list(alloc, &tests, &mut tally, &mut origins, progress)
}

/// The tests and the binaries of a session, by a configuration that was loaded with warnings, as a
/// report lists them beside the objects of the profile.
fn listed<'c, P: Progress>(
    alloc: Global,
    session: &'c Session<'_>,
    config: &'c Config,
    warnings: &DefaultConfigWarnings,
    profile: &'c str,
    mode: NextestRunMode,
    asked: &RequestedSettings,
    progress: &mut P,
) -> Result<Content, AllocError>
    requires { IsIn (names_in config.now.config.profiles) profile.now }
    ensures told { IfOk result (λ content. IfListed content
        (listed_by session.now config.now profile.now mode asked.now)) }
    ensures requested { IfOk result (IsRequestedIn session.now
        (parents_in (config_parents config.now.config)) profile.now mode) }
    ensures objects { IfOk result (HasObjects (warnings_view warnings.now)) }
{
    let chain = chain_of_profile(alloc, config, profile)?;
    let requested = requested_of(alloc, session, profile, &chain, mode)?;
    let on = profile_on(alloc, session, config, profile)?;
    let rows = listed_rows(alloc, session, &chain, &on, mode, asked, progress)?;
    let objects = objects_of_list(alloc, session, config, warnings, &on, &chain, &rows.uses)?;
    Ok(Content::List {
        asked: requested,
        unused: unused_origins(alloc, &session.layers, &rows.unused)?,
        scripts: scripts_by_used(alloc, session, &on, &rows.used)?,
        tests: rows.tests,
        objects: Some(objects),
    })
}

/// The settings of each test of a list in a profile, the rules that hold for none, the scripts of
/// the list, and the objects of the profile.
pub fn list<P: Progress>(
    alloc: Global,
    session: &Session<'_>,
    profile: &str,
    mode: NextestRunMode,
    asked: &RequestedSettings,
    progress: &mut P,
) -> Result<Report, Failure>
    ensures ok { IfOk result (ReportsTests session.now profile.now mode asked.now) }
    ensures about { IfOk result (IsReportOf session.now) }
    ensures warned { IfOk result (ShowsWarningsOf session.now) }
    ensures looked_up { IfOk result (λ _. IsLookedUp session.now profile.now) }
    ensures objects { IfOk result (λ report.
        HasObjects (warnings_met session.now) report.content) }
    ensures err { IfErr result (IsFailureOn session.now profile.now) }
{
    let mut warnings = DefaultConfigWarnings::new(alloc);
    let config = config_looked_up(alloc, session, profile, &mut warnings)?;
    let findings = warning_findings(alloc, &session.layers, &warnings)?;
    let content = listed(
        alloc, &*session, &config, &warnings, profile, mode, asked, progress,
    )?;
    let report = report_of(alloc, session, findings, Vec::new(alloc), content)?;
    Ok(report)
}
