//! The rows that a configuration gives for tests.
ghost use Rattle.std.specs.Prelude.{◌≡◌, ◌++◌, List, ℕ, IfOk, map};
ghost use Rattle.nextest_engines.specs.Engines.{test_view};
ghost use Rattle.nextest_settings.specs.Profiles.Meaning.{configured_meaning, profile_meaning};
ghost use Rattle.nextest_config.specs.Answers.{Answers, AreRowsIn};
ghost use Rattle.nextest_config.specs.ConfigView.{configured_in};
ghost use Rattle.nextest_config.specs.RowView.{row_view};
ghost use Rattle.nextest_config.specs.RunView.{question_view, answer_view};

use crate::config::NextestConfig;
use crate::run::fault::ResolveFault;
use crate::run::row::{TestRow, row_of};
use nextest_elements::NextestRunMode;
use nextest_engines::{BuildPlatforms, Filters, Specs, Tally, TestQuery};
use nextest_settings::EvaluatableProfile;
use std::alloc::{AllocError, Global};

/// The rows of tests in a profile, in order. Rules whose filters are evaluated go into the tally.
fn rows_in<'cfg, F: Filters, S: Specs>(
    alloc: Global,
    profile: &EvaluatableProfile<'cfg, F, S>,
    mode: NextestRunMode,
    tests: &[TestQuery<'_>],
    tally: &mut F::Tally,
) -> Result<Vec<TestRow>, AllocError>
    ensures { (numbers : List ℕ)
        × (F.Tally.numbers tally.new ≡ F.Tally.numbers tally.old ++ numbers)
        × IfOk result (λ rows. AreRowsIn F.holds (profile_meaning F.meaning profile.now) mode
        (map test_view tests.now) (map row_view rows.items) numbers) }
{
    let mut rows = Vec::new(alloc);
    for test in tests {
        let settings = profile.settings_with_source_for(mode, test, tally);
        rows.push(row_of(alloc, &settings)?)?;
    }
    Ok(rows)
}

/// The result of a configuration for tests: the rows that the profile of a name gives them on the
/// platforms of a build. Rules whose filters are evaluated go into the tally.
pub(super) fn rows_of<F: Filters, S: Specs>(
    alloc: Global,
    config: &NextestConfig<F, S>,
    profile: &str,
    platforms: &BuildPlatforms<S::Platform>,
    mode: NextestRunMode,
    tests: &[TestQuery<'_>],
    tally: &mut F::Tally,
) -> Result<Vec<TestRow>, ResolveFault>
    ensures answers { Answers S.holds_on F.holds
        (configured_meaning F.meaning S.spec_meaning (configured_in config.now))
        (question_view profile.now platforms.now mode tests.now)
        (answer_view result) (F.Tally.numbers tally.old) (F.Tally.numbers tally.new) }
{
    let early = config.profile(alloc, profile)?;
    let Ok(profile) = early.apply_build_platforms(alloc, platforms) else {
        return Err(ResolveFault::Memory);
    };
    Ok(rows_in(alloc, &profile, mode, tests, tally)?)
}
