//! The configuration whose profile is requested.
ghost use Rattle.std.specs.Prelude.{◌≡◌, ◌++◌, IfErr, IfOk};
ghost use Rattle.nextest_sources.specs.WarningsView.{warnings_view};
ghost use Rattle.nextest_tables.specs.FileTexts.{names_in, IsIn};
ghost use Rattle.rinqebo_load.specs.Accepted.{AreAccepted};
ghost use Rattle.rinqebo_checks.specs.Failures.{IsFailureAbout};
ghost use Rattle.rinqebo_load.specs.Sessions.{files_view, readings, IsLoadedFrom};
ghost use Rattle.rinqebo_load.specs.Warned.{warnings_met};

use crate::failures::{failure_of_load, failure_of_profile};
use nextest_sources::DefaultConfigWarnings;
use rinqebo_load::{Config, Failure, Session, has_profile, missing_profile};
use std::alloc::Global;

/// The configuration of a session, which has a profile of a name. Warnings are reported as they are
/// met.
pub fn config_with(
    alloc: Global,
    session: &Session<'_>,
    profile: &str,
    warnings: &mut DefaultConfigWarnings,
) -> Result<Config, Failure>
    ensures accepted { IfOk result (λ _. AreAccepted session.now) }
    ensures means { IfOk result (IsLoadedFrom (readings session.now.engines.filters)
        (files_view session.now.gathered.now)) }
    ensures known { IfOk result (λ config. IsIn (names_in config.config.profiles) profile.now) }
    ensures warnings { IfOk result (λ _. warnings_view warnings.new
        ≡ warnings_view warnings.old ++ warnings_met session.now) }
    ensures err { IfErr result (IsFailureAbout session.now profile.now) }
{
    let config = match session.load(alloc, warnings) {
        Ok(config) => config,
        Err(error) => return Err(failure_of_load(alloc, session, warnings, &error)?),
    };
    if !has_profile(&config, profile) {
        let missing = missing_profile(alloc, &config, profile)?;
        return Err(failure_of_profile(alloc, session, warnings, &missing)?);
    }
    Ok(config)
}
