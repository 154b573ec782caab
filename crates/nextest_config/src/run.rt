//! The whole run: from the texts of files to the settings of tests, in one call.
ghost use Rattle.nextest_engines.specs.Readings.{readings_view};
ghost use Rattle.nextest_config.specs.Headline.{Resolves};
ghost use Rattle.nextest_config.specs.RunView.{request_view, run_view, answer_view};

mod answer;
mod fault;
mod laws;
mod row;

use crate::config::NextestConfig;
use answer::rows_of;
pub use fault::ResolveFault;
use fault::fault_of_load;
pub use laws::{
    law_alias, law_default_filter_text, law_file_apart, law_isolation, law_last_rule, law_take_out,
    law_users,
};
use nextest_elements::{ConfigExperimental, NextestRunMode};
use nextest_engines::{BuildPlatforms, Filters, ParseContext, Specs, Tally, TestQuery};
use nextest_sources::{ConfigFileSelection, ConfigPaths, ConfigWarnings, ToolConfigFile};
pub use row::{PlainSource, TestRow};
use std::alloc::Global;
use std::collections::BTreeSet;

/// The files of a run, and the features that are switched on.
#[derive(Clone, Copy)]
pub struct Inputs<'a> {
    /// The workspace's root, and the repository's file where it is looked for.
    pub paths: &'a ConfigPaths,
    /// The repository's file that a user named instead, if any, and the organisation's, if there is
    /// one.
    pub selection: ConfigFileSelection<'a>,
    /// The files that tools provide, in the order of the arguments: the first is the highest.
    pub tools: &'a [ToolConfigFile],
    /// The experimental features that are switched on.
    pub features: &'a BTreeSet<ConfigExperimental>,
}

/// The settings that a profile gives to tests on the platforms of a build, from the texts of files
/// on: a row for each test, in order. Warnings are reported as they are found, also before an error, and
/// rules whose filters are evaluated go into the tally.
pub fn resolve<F: Filters, S: Specs, W: ConfigWarnings>(
    alloc: Global,
    inputs: &Inputs<'_>,
    pcx: &ParseContext<'_, F, S>,
    profile: &str,
    platforms: &BuildPlatforms<S::Platform>,
    mode: NextestRunMode,
    tests: &[TestQuery<'_>],
    warnings: &mut W,
    tally: &mut F::Tally,
) -> Result<Vec<TestRow>, ResolveFault>
    ensures resolves { Resolves (readings_view F.Filters S.Specs pcx.now)
        (request_view inputs.now profile.now platforms.now mode tests.now)
        (run_view (answer_view result) (W.warnings warnings.old) (W.warnings warnings.new)
        (F.Tally.numbers tally.old) (F.Tally.numbers tally.new)) }
{
    let loaded = NextestConfig::from_sources_with_paths(
        alloc,
        inputs.paths,
        pcx,
        inputs.selection,
        inputs.tools,
        inputs.features,
        warnings,
    );
    match loaded {
        Ok(config) => rows_of(alloc, &config, profile, platforms, mode, tests, tally),
        Err(error) => Err(fault_of_load(error)),
    }
}
