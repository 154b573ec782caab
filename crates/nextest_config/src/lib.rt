//! The configuration of nextest, from the texts of files to the settings of tests.
//!
//! A caller names this crate and an engine of filters and platforms, and no more: all that the
//! calls take and return is re-exported here. The caller reads the files and passes the outcome of
//! reading each.
//!
//! ```text
//! fn retries_of<F: Filters, S: Specs>(
//!     alloc: Global, workspace_root: String, path: &str, text: String, profile: &str,
//!     pcx: &ParseContext<'_, F, S>, platforms: &BuildPlatforms<S::Platform>,
//!     binary: &str, test: &str, tally: &mut F::Tally,
//! ) -> Result<Option<RetryPolicy>, ResolveFault> {
//!     let path = ConfigPath::new(alloc, path)?;
//!     let shared = FileInput { path, outcome: ReadOutcome::Text(text) };
//!     let paths = ConfigPaths { workspace_root, shared };
//!     let (selection, features) = (ConfigFileSelection::new(None), BTreeSet::new(alloc));
//!     let inputs = Inputs { paths: &paths, selection, tools: &[], features: &features };
//!     let (mode, mut warnings) = (NextestRunMode::Test, DefaultConfigWarnings::new(alloc));
//!     let tests = [TestQuery::of(binary, test)];
//!     let rows = resolve(
//!         alloc, &inputs, pcx, profile, platforms, mode, &tests, &mut warnings, tally)?;
//!     Ok(rows.first().map(|row| row.retries))
//! }
//! ```
//!
//! `Inputs`, `resolve` and `ResolveFault` are those of [`run`]; a row has each value, and `source`
//! returns what decides it. [`NextestConfig`] does the same step by step: it is loaded, gives a
//! profile, and that, on the platforms of a build, the settings of each test.
#![tactic(auto)]

mod config;
mod profile_error;
pub mod run;

// What this crate has itself.
pub use config::{DEFAULT_PROFILES, ENVIRONMENT_PREFIX, NextestConfig};
pub use profile_error::{ProfileError, ProfileNotFound};

// The engines, and their queries.
pub use nextest_engines::{
    BinaryQuery, BuildPlatform, BuildPlatforms, EvalContext, FilterFault, Filters, FiltersetKind,
    LabeledSpan, NameMatcher, ParseContext, Refusal, SpecFault, Specs, Tally, TestQuery,
};

// Sources, warnings and refusals.
pub use nextest_elements::{ConfigIdentifier, IdentifierOwner, InvalidIdentifier, ToolName};
pub use nextest_inheritance::InheritsError;
pub use nextest_sources::{
    CONFIG_PATH, ConfigCompileError, ConfigCompileErrorKind, ConfigCompileSection,
    ConfigFileSelection, ConfigParseError, ConfigParseErrorKind, ConfigPath, ConfigPaths,
    ConfigSource, ConfigSourceKind, ConfigWarning, ConfigWarnings, DefaultConfigWarnings,
    FileInput, ProfileListScriptUsesRunFiltersError, ProfileScriptErrors,
    ProfileUnknownScriptError, ProfileWrongConfigScriptTypeError, ReadOutcome, ToolConfigFile,
    UnknownTestGroupError,
};
pub use nextest_tree::{Element, ElementCause, ElementFault, Tree, Walk};

// Profiles, settings and what decides them.
pub use nextest_inheritance::{DEFAULT_MIRI_PROFILE, DEFAULT_PROFILE};
pub use nextest_rules::{
    CompiledOverride, CompiledProfileScripts, OverrideId, PlatformSpecs, ReadFilter, ScriptRuleId,
};
pub use nextest_settings::{
    CompiledDefaultFilter, CompiledDefaultFilterSection, EarlyProfile, EvaluatableProfile,
    EvaluatedOverride, EvaluatedRule, EvaluatedRules, EvaluatedScriptRule, GroupLookup,
    KnownGroups, ListSettings, PrecomputedGroupMembership, SettingSource, SettingValue,
    SettingValues, SetupScript, SetupScriptIter, SetupScripts, TestSettings, TrackSource,
};
pub use nextest_tables::{OverrideOutputs, OverrideRuns, OverrideSettings};

// What a load makes, of which profiles are made.
pub use nextest_load::{LoadedConfig, MergedProfile, ParsedText, ParsedTexts};
pub use nextest_rules::{CompiledProfile, LayerRules};
pub use nextest_tables::{ProfileEnds, ProfileFields, ProfileOutputs, ProfileRuns};

// What follows from these definitions, proved once.
pub use nextest_load::laws::{
    law_closed, law_cycles, law_keys_ascend, law_least_element, law_own_steps, law_shown,
};
pub use nextest_settings::{
    law_all_settings, law_evaluated_at_most_once, law_evaluated_exactly, law_first_override,
    law_first_script_rule, law_group_of_settings, law_known_groups, law_last_group, law_rule_order,
    law_settings_of_texts,
};

// Values and scripts.
pub use nextest_elements::{
    BenchConfig, BenchOverride, ConfigExperimental, CustomTestGroup, FinalStatusLevel, FlakyResult,
    GlobalTimeout, JunitConfig, JunitFlakyFailStatus, JunitImpl, JunitOverride, LeakTimeout,
    LeakTimeoutResult, MaxFail, NextestRunMode, ReportSkipPolicy, RetryPolicy, Setting,
    SlowTimeout, SlowTimeoutResult, StatusLevel, TestGroup, TestGroupConfig, TestOutputDisplay,
    TestPriority, TestThreads, ThreadsRequired,
};
pub use nextest_load::ScriptConfig;
pub use nextest_scripts::{
    EnvVarError, InvalidConfigScriptName, ProfileScriptType, ScriptCommand, ScriptCommandEnvMap,
    ScriptCommandRelativeTo, ScriptId, ScriptInfo, ScriptType, SetupScriptConfig,
    SetupScriptJunitConfig, SetupScriptSlowTimeout, ShellWordsError, WrapperScriptConfig,
    WrapperScriptTargetRunner, is_env_var_key, join_paths, split_shell_words, validate_env_var_key,
};
pub use nextest_tables::DEFAULT_CONFIG;
