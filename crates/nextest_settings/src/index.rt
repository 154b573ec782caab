//! Index lists: for each platform and mode the rules that write something there, each once, with the
//! lists that it appears in.
ghost use Rattle.std.specs.Prelude.{◌≡◌, ◌+◌, ◌<◌, ◌^◌, length, IfOk};
ghost use Rattle.nextest_rules.specs.View.{script_rule_view};
ghost use Rattle.nextest_settings.specs.Index.{IsIndex, IsPlatformIndex, is_listed, names_wrapper, override_tests, script_tests, rows_in, wrapper_rows_in, platform_rows};
ghost use Rattle.nextest_settings.specs.Settings.{is_set};
ghost use Rattle.nextest_settings.specs.View.{evaluated_override_view, evaluated_script_rule_view};
ghost use Rattle.rule_lists.specs.Rows.{rows_of};

use crate::platforms::{EvaluatedOverride, EvaluatedScriptRule};
use crate::written::is_set;
use nextest_elements::{NextestRunMode, Setting};
use nextest_engines::{BuildPlatform, Filters, Specs};
use nextest_rules::CompiledProfileScripts;
use rule_lists::{Listed, Row, build_rows};
use std::alloc::{AllocError, Global};

/// Binaries of a platform, in a mode.
#[derive(Clone, Copy)]
pub struct Place {
    /// What the binaries are built for.
    pub platform: BuildPlatform,
    /// Whether tests or benchmarks run.
    pub mode: NextestRunMode,
}

/// What script rules wrap.
#[derive(Clone, Copy, Debug, PartialEq, Eq)]
pub enum Wrapper {
    /// The run of a test.
    Run,
    /// A binary that lists its tests.
    List,
}

impl<F: Filters, S: Specs> Listed<Place, Setting> for EvaluatedOverride<'_, F, S> {
    ghost listed = { λ place setting rule. is_listed place.platform
        (λ w. is_set w.settings place.mode setting) (evaluated_override_view rule) };

    fn is_listed(&self, place: &Place, setting: &Setting) -> bool {
        self.is_on(place.platform) && is_set(self.rule.settings(), place.mode, *setting)
    }
}

/// Whether a script rule names a wrapper.
fn names_wrapper<F: Filters, S: Specs>(
    rule: &CompiledProfileScripts<F, S>,
    wrapper: Wrapper,
) -> bool
    ensures { result ≡ names_wrapper wrapper (script_rule_view rule.now).writes }
{
    match wrapper {
        Wrapper::Run => rule.run_wrapper().is_some(),
        Wrapper::List => rule.list_wrapper().is_some(),
    }
}

impl<F: Filters, S: Specs> Listed<BuildPlatform, Wrapper> for EvaluatedScriptRule<'_, F, S> {
    ghost listed = { λ platform wrapper rule. is_listed platform (names_wrapper wrapper)
        (evaluated_script_rule_view rule) };

    fn is_listed(&self, platform: &BuildPlatform, wrapper: &Wrapper) -> bool {
        self.is_on(*platform) && names_wrapper(self.rule, *wrapper)
    }
}

/// The rules that count for binaries of a platform: the overrides in each mode, with the settings
/// that they write, and the script rules that name a wrapper, numbered on from the overrides.
#[derive(Drop)]
pub struct PlatformIndex {
    in_test: Vec<Row>,
    in_benchmark: Vec<Row>,
    run_wrappers: Vec<Row>,
    list_wrappers: Vec<Row>,
}

/// The overrides that write a setting for binaries of a platform, in a mode.
#[tactic(auto, unfolding(nextest_elements::specs::Settings::settings))]
fn override_rows<F: Filters, S: Specs>(
    alloc: Global,
    overrides: &[EvaluatedOverride<'_, F, S>],
    platform: BuildPlatform,
    mode: NextestRunMode,
) -> Result<Vec<Row>, AllocError>
    requires { length overrides.now < 2 ^ 64 }
    ensures { IfOk result (λ rows.
        rows.items ≡ rows_of (override_tests platform mode) 0 overrides.now) }
{
    build_rows(
        alloc,
        overrides,
        0,
        &Place { platform, mode },
        &Setting::ALL,
    )
}

/// The script rules that name a wrapper for binaries of a platform, numbered on from the first
/// number.
fn wrapper_rows<F: Filters, S: Specs>(
    alloc: Global,
    script_rules: &[EvaluatedScriptRule<'_, F, S>],
    first: usize,
    platform: BuildPlatform,
    wrapper: Wrapper,
) -> Result<Vec<Row>, AllocError>
    requires { first + length script_rules.now < 2 ^ 64 }
    ensures { IfOk result (λ rows.
        rows.items ≡ rows_of (script_tests platform wrapper) first script_rules.now) }
{
    build_rows(alloc, script_rules, first, &platform, &[wrapper])
}

impl PlatformIndex {
    /// The index of these rules for binaries of a platform.
    fn new<F: Filters, S: Specs>(
        alloc: Global,
        overrides: &[EvaluatedOverride<'_, F, S>],
        script_rules: &[EvaluatedScriptRule<'_, F, S>],
        platform: BuildPlatform,
    ) -> Result<PlatformIndex, AllocError>
        requires { length overrides.now + length script_rules.now < 2 ^ 64 }
        ensures { IfOk result (IsPlatformIndex platform overrides.now script_rules.now) }
    {
        let first = overrides.len();
        Ok(PlatformIndex {
            in_test: override_rows(alloc, overrides, platform, NextestRunMode::Test)?,
            in_benchmark: override_rows(alloc, overrides, platform, NextestRunMode::Benchmark)?,
            run_wrappers: wrapper_rows(alloc, script_rules, first, platform, Wrapper::Run)?,
            list_wrappers: wrapper_rows(alloc, script_rules, first, platform, Wrapper::List)?,
        })
    }

    /// The overrides, in a mode.
    fn overrides(&self, mode: NextestRunMode) -> &[Row]
        ensures { result.now ≡ rows_in self.now mode }
    {
        match mode {
            NextestRunMode::Test => &self.in_test,
            NextestRunMode::Benchmark => &self.in_benchmark,
        }
    }

    /// The script rules that name a wrapper.
    fn wrappers(&self, wrapper: Wrapper) -> &[Row]
        ensures { result.now ≡ wrapper_rows_in self.now wrapper }
    {
        match wrapper {
            Wrapper::Run => &self.run_wrappers,
            Wrapper::List => &self.list_wrappers,
        }
    }
}

/// The rules that count for binaries of each platform.
#[derive(Drop)]
pub struct RuleIndex {
    host: PlatformIndex,
    target: PlatformIndex,
}

impl RuleIndex {
    /// The index of these rules.
    pub(crate) fn new<F: Filters, S: Specs>(
        alloc: Global,
        overrides: &[EvaluatedOverride<'_, F, S>],
        script_rules: &[EvaluatedScriptRule<'_, F, S>],
    ) -> Result<RuleIndex, AllocError>
        requires { length overrides.now + length script_rules.now < 2 ^ 64 }
        ensures { IfOk result (IsIndex overrides.now script_rules.now) }
    {
        Ok(RuleIndex {
            host: PlatformIndex::new(alloc, overrides, script_rules, BuildPlatform::Host)?,
            target: PlatformIndex::new(alloc, overrides, script_rules, BuildPlatform::Target)?,
        })
    }

    /// The rules that count for binaries of a platform.
    fn on(&self, platform: BuildPlatform) -> &PlatformIndex
        ensures { result.now ≡ platform_rows self.now platform }
    {
        match platform {
            BuildPlatform::Host => &self.host,
            BuildPlatform::Target => &self.target,
        }
    }

    /// The overrides that write a setting for binaries of a platform, in a mode.
    pub(crate) fn overrides(&self, platform: BuildPlatform, mode: NextestRunMode) -> &[Row]
        ensures { result.now ≡ rows_in (platform_rows self.now platform) mode }
    {
        self.on(platform).overrides(mode)
    }

    /// The script rules that name a wrapper for binaries of a platform.
    pub(crate) fn wrappers(&self, platform: BuildPlatform, wrapper: Wrapper) -> &[Row]
        ensures { result.now ≡ wrapper_rows_in (platform_rows self.now platform) wrapper }
    {
        self.on(platform).wrappers(wrapper)
    }
}
