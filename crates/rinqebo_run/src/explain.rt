//! Whether a test runs, and its settings.
ghost use Rattle.std.specs.Prelude.{◌≡◌, IfErr, IfOk};
ghost use Rattle.nextest_inheritance.specs.Parents.{parents_in};
ghost use Rattle.nextest_load.specs.Config.{config_parents};
ghost use Rattle.nextest_tables.specs.FileTexts.{names_in, IsIn};
ghost use Rattle.rinqebo_results.specs.LookedUp.{IsFailureOn, IsLookedUp};
ghost use Rattle.rinqebo_checks.specs.Reports.{IsReportOf};
ghost use Rattle.rinqebo_results.specs.Explained.{Explains, IfExplained};
ghost use Rattle.rinqebo_results.specs.ListedBy.{explained_by};
ghost use Rattle.rinqebo_results.specs.Requested.{IsRequestedIn};
ghost use Rattle.rinqebo_results.specs.Warned.{ShowsWarningsOf};

use filter_engine::NextestTally;
use nextest_config::DefaultConfigWarnings;
use rinqebo_load::{Config, Failure, FoundTest, Session, chain_of_profile};
use rinqebo_origins::Origins;
use rinqebo_report::Content;
use rinqebo_request::RequestedSettings;
use rinqebo_results::{Answer, answer_on_test, config_looked_up, profile_on, requested_of};
use rinqebo_rules::Lister;
use std::alloc::{AllocError, Global};

/// Whether a test runs and its settings, by a configuration: the rows of a list of this one test.
fn explained<'c>(
    alloc: Global,
    session: &'c Session<'_>,
    config: &'c Config,
    profile: &'c str,
    test: &FoundTest,
    asked: &RequestedSettings,
) -> Result<Content, AllocError>
    requires { IsIn (names_in config.now.config.profiles) profile.now }
    ensures told { IfOk result (λ content. IfExplained content (explained_by session.now config.now
        profile.now test.now asked.now)) }
    ensures requested { IfOk result (IsRequestedIn session.now
        (parents_in (config_parents config.now.config)) profile.now test.now.mode) }
{
    let chain = chain_of_profile(alloc, config, profile)?;
    let requested = requested_of(alloc, session, profile, &chain, test.mode)?;
    let on = profile_on(alloc, session, config, profile)?;
    let asking = Lister {
        profile: &on,
        mode: test.mode,
        asked,
    };
    let listed = test.listed();
    let mut tally = NextestTally::new();
    let mut origins = Origins::new(alloc, &session.layers, &chain);
    let rows = asking.rows_of(alloc, &listed, &mut tally, &mut origins)?;
    Ok(Content::Explain {
        asked: requested,
        test: rows,
    })
}

/// Whether a test runs, and its settings.
pub fn explain(
    alloc: Global,
    session: &Session<'_>,
    profile: &str,
    test: &FoundTest,
    asked: &RequestedSettings,
) -> Result<Answer, Failure>
    ensures status { IfOk result (λ answer. answer.status ≡ 0) }
    ensures ok { IfOk result (λ answer.
        Explains session.now profile.now test.now asked.now answer.report) }
    ensures about { IfOk result (λ answer. IsReportOf session.now answer.report) }
    ensures warned { IfOk result (λ answer. ShowsWarningsOf session.now answer.report) }
    ensures looked_up { IfOk result (λ _. IsLookedUp session.now profile.now) }
    ensures err { IfErr result (IsFailureOn session.now profile.now) }
{
    let mut warnings = DefaultConfigWarnings::new(alloc);
    let config = config_looked_up(alloc, session, profile, &mut warnings)?;
    let content = explained(alloc, &*session, &config, profile, test, asked)?;
    let answer = answer_on_test(alloc, session, &config, &warnings, profile, test, content)?;
    Ok(answer)
}
