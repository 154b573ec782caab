//! A configuration: how it is loaded, and its profiles.
ghost use Rattle.std.specs.Prelude.{◌≡◌, [], List, IfOk, IfErr, map, string_bytes};
ghost use Rattle.std.specs.Cmp.Lexicographic.{slice_cmp};
ghost use Rattle.std.specs.List.Sorted.{IsStrictlySortedBy};
ghost use Rattle.std.specs.Ordering.{nat_cmp};
ghost use Rattle.nextest_engines.specs.Readings.{Readings, readings_view};
ghost use Rattle.nextest_load.specs.Load.{IsLoad};
ghost use Rattle.nextest_load.specs.Meaning.{loaded_meaning};
ghost use Rattle.nextest_settings.specs.Profiles.Profiles.{IsProfileOf};
ghost use Rattle.nextest_rules.specs.Definitions.{Features};
ghost use Rattle.nextest_rules.specs.KnownView.{features_view};
ghost use Rattle.nextest_sources.specs.Inputs.{LoadInputs, load_inputs_view, selecting};
ghost use Rattle.nextest_sources.specs.Warnings.{Warning};
ghost use Rattle.nextest_sources.specs.WarningsView.{warnings_view};
ghost use Rattle.nextest_tables.specs.FileTexts.{names_in, IsIn};
ghost use Rattle.nextest_config.specs.ConfigView.{configured_in, loaded_by};
ghost use Rattle.nextest_config.specs.ProfileError.{IsNotFound};

use crate::profile_error::{ProfileError, ProfileNotFound};
use nextest_elements::ConfigExperimental;
use nextest_engines::{Filters, ParseContext, Specs};
use nextest_inheritance::{DEFAULT_MIRI_PROFILE, DEFAULT_PROFILE};
use nextest_load::{LoadedConfig, MergedProfile, ParsedTexts};
use nextest_settings::EarlyProfile;
use nextest_sources::{
    CONFIG_PATH, ConfigFileSelection, ConfigInputs, ConfigParseError, ConfigPaths, ConfigWarnings,
    DefaultConfigWarnings, FileInput, ToolConfigFile,
};
use nextest_tables::DEFAULT_CONFIG;
use std::alloc::{AllocError, Global};
use std::collections::{BTreeMap, BTreeSet};
use std::marker::Model;

/// What the names of nextest's environment variables begin with.
pub const ENVIRONMENT_PREFIX: &str = "NEXTEST";

/// The names of the profiles that every configuration has.
pub const DEFAULT_PROFILES: &[&str] = &[DEFAULT_PROFILE, DEFAULT_MIRI_PROFILE];

/// A configuration.
#[derive(Drop)]
pub struct NextestConfig<F: Filters, S: Specs> {
    workspace_root: String,
    loaded: LoadedConfig<F, S>,
    warnings: DefaultConfigWarnings,
}

impl<F: Filters, S: Specs> Model for NextestConfig<F, S> {
    ghost use Rattle.std.specs.Prelude.{string_bytes};
    ghost use Rattle.nextest_config.specs.ConfigView.{KeptConfig};

    ghost Value = { KeptConfig F.Expr S.Spec };

    ghost use Rattle.nextest_sources.specs.WarningsView.{warnings_view};

    ghost view = { λ c. record {
      root = string_bytes c.workspace_root;
      config = c.loaded.config;
      scripts = c.loaded.scripts;
      warnings = warnings_view c.warnings;
    } };
}

/// The names of profiles, in the order of their bytes.
fn names_of_profiles(
    alloc: Global,
    profiles: &BTreeMap<String, MergedProfile>,
) -> Result<Vec<String>, AllocError>
    ensures all { IfOk result (λ names. map string_bytes names.items
        ≡ map (λ e. string_bytes e.0) profiles.now.entries) }
    ensures ascending { IfOk result (λ names.
        IsStrictlySortedBy (slice_cmp nat_cmp) (map string_bytes names.items)) }
{
    let mut names = Vec::new(alloc);
    for name in profiles.keys() {
        names.push(name.clone()?)?;
    }
    Ok(names)
}

impl<F: Filters, S: Specs> NextestConfig<F, S> {
    /// Where its files are found by default, below the root of a workspace.
    pub const CONFIG_PATH: &'static str = CONFIG_PATH;

    /// What the names of nextest's environment variables begin with.
    pub const ENVIRONMENT_PREFIX: &'static str = ENVIRONMENT_PREFIX;

    /// The name of the profile that every configuration has.
    pub const DEFAULT_PROFILE: &'static str = DEFAULT_PROFILE;

    /// The name of the profile of runs under Miri.
    pub const DEFAULT_MIRI_PROFILE: &'static str = DEFAULT_MIRI_PROFILE;

    /// The names of the profiles that every configuration has.
    pub const DEFAULT_PROFILES: &'static [&'static str] = DEFAULT_PROFILES;

    /// The text of the defaults, the lowest of all sources.
    pub const DEFAULT_CONFIG: &'static str = DEFAULT_CONFIG;

    /// The configuration that a load returns, with the warnings that were kept of it.
    fn from_load(
        workspace_root: String,
        loaded: Result<LoadedConfig<F, S>, ConfigParseError>,
        warnings: DefaultConfigWarnings,
    ) -> Result<Self, ConfigParseError>
        ensures loads { (engines : Readings F.Meaning S.SpecMeaning S.Platform)
            (features : Features) (files : LoadInputs) (old new : List Warning)
            → IsLoad (loaded_meaning F.meaning S.spec_meaning) engines features files old new loaded
            → IsLoad (loaded_by F.meaning S.spec_meaning) engines features files old new result }
        ensures root { IfOk result (λ config. config.root ≡ string_bytes workspace_root) }
        ensures kept { IfOk result (λ config. config.warnings ≡ warnings_view warnings) }
    {
        match loaded {
            Ok(loaded) => Ok(NextestConfig {
                workspace_root,
                loaded,
                warnings,
            }),
            Err(error) => Err(error),
        }
    }

    /// Loads the defaults, the files of tools and the repository's file, in this order, each above
    /// those before it, and keeps the warnings.
    ///
    /// The repository's file is the one that a user named, and else the shared one, which may be
    /// missing. Of tools' files the first is the highest. Where it refuses, the warnings are
    /// dropped.
    pub fn from_sources(
        alloc: Global,
        workspace_root: &str,
        shared: &FileInput,
        pcx: &ParseContext<'_, F, S>,
        config_file: Option<&FileInput>,
        tools: &[ToolConfigFile],
        experimental: &BTreeSet<ConfigExperimental>,
    ) -> Result<Self, ConfigParseError>
        ensures loads { let engines = readings_view F.Filters S.Specs pcx.now in
            (all : List Warning) × IsLoad (loaded_by F.meaning S.spec_meaning) engines
            (features_view experimental.now)
            (load_inputs_view shared.now (selecting config_file.entry) tools.now) [] all result
            × IfOk result (λ config. config.warnings ≡ all) }
        ensures root { IfOk result (λ config. config.root ≡ workspace_root.now) }
    {
        let root = String::from_str(alloc, workspace_root)?;
        let mut warnings = DefaultConfigWarnings::new(alloc);
        let selection = ConfigFileSelection::new(config_file);
        let inputs = ConfigInputs {
            shared,
            selection,
            tools,
            features: experimental,
        };
        let loaded = LoadedConfig::load(alloc, &inputs, pcx, &mut warnings);
        Self::from_load(root, loaded, warnings)
    }

    /// Loads as `from_sources` does, and reports the warnings in place of keeping them.
    pub fn from_sources_with_warnings<W: ConfigWarnings>(
        alloc: Global,
        workspace_root: &str,
        shared: &FileInput,
        pcx: &ParseContext<'_, F, S>,
        config_file: Option<&FileInput>,
        tools: &[ToolConfigFile],
        experimental: &BTreeSet<ConfigExperimental>,
        warnings: &mut W,
    ) -> Result<Self, ConfigParseError>
        ensures loads { let engines = readings_view F.Filters S.Specs pcx.now in
            IsLoad (loaded_by F.meaning S.spec_meaning) engines (features_view experimental.now)
            (load_inputs_view shared.now (selecting config_file.entry) tools.now)
            (W.warnings warnings.old) (W.warnings warnings.new) result }
        ensures root { IfOk result (λ config. config.root ≡ workspace_root.now) }
        ensures kept { IfOk result (λ config. config.warnings ≡ []) }
    {
        Self::from_sources_with_selection(
            alloc,
            workspace_root,
            shared,
            pcx,
            ConfigFileSelection::new(config_file),
            tools,
            experimental,
            warnings,
        )
    }

    /// Loads as `from_sources_with_warnings` does, with the files beside those of tools as a value,
    /// which may have one of the organisation.
    pub fn from_sources_with_selection<W: ConfigWarnings>(
        alloc: Global,
        workspace_root: &str,
        shared: &FileInput,
        pcx: &ParseContext<'_, F, S>,
        selection: ConfigFileSelection<'_>,
        tools: &[ToolConfigFile],
        experimental: &BTreeSet<ConfigExperimental>,
        warnings: &mut W,
    ) -> Result<Self, ConfigParseError>
        ensures loads { let engines = readings_view F.Filters S.Specs pcx.now in
            IsLoad (loaded_by F.meaning S.spec_meaning) engines (features_view experimental.now)
            (load_inputs_view shared.now selection.entry tools.now)
            (W.warnings warnings.old) (W.warnings warnings.new) result }
        ensures root { IfOk result (λ config. config.root ≡ workspace_root.now) }
        ensures kept { IfOk result (λ config. config.warnings ≡ []) }
    {
        let root = String::from_str(alloc, workspace_root)?;
        let inputs = ConfigInputs {
            shared,
            selection,
            tools,
            features: experimental,
        };
        let loaded = LoadedConfig::load(alloc, &inputs, pcx, warnings);
        Self::from_load(root, loaded, DefaultConfigWarnings::new(alloc))
    }

    /// Loads as `from_sources_with_selection` does, from the paths of a workspace.
    pub fn from_sources_with_paths<W: ConfigWarnings>(
        alloc: Global,
        paths: &ConfigPaths,
        pcx: &ParseContext<'_, F, S>,
        selection: ConfigFileSelection<'_>,
        tools: &[ToolConfigFile],
        experimental: &BTreeSet<ConfigExperimental>,
        warnings: &mut W,
    ) -> Result<Self, ConfigParseError>
        ensures loads { let engines = readings_view F.Filters S.Specs pcx.now in
            IsLoad (loaded_by F.meaning S.spec_meaning) engines (features_view experimental.now)
            (load_inputs_view paths.now.shared selection.entry tools.now)
            (W.warnings warnings.old) (W.warnings warnings.new) result }
        ensures root { IfOk result (λ config. config.root ≡ string_bytes paths.now.workspace_root) }
        ensures kept { IfOk result (λ config. config.warnings ≡ []) }
    {
        Self::from_sources_with_selection(
            alloc,
            paths.workspace_root.as_str(),
            &paths.shared,
            pcx,
            selection,
            tools,
            experimental,
            warnings,
        )
    }

    /// Loads as `from_sources_with_paths` does, and does not parse the texts that were parsed
    /// before.
    pub fn from_parsed_sources<P: ParsedTexts, W: ConfigWarnings>(
        alloc: Global,
        paths: &ConfigPaths,
        parsed: &P,
        pcx: &ParseContext<'_, F, S>,
        selection: ConfigFileSelection<'_>,
        tools: &[ToolConfigFile],
        experimental: &BTreeSet<ConfigExperimental>,
        warnings: &mut W,
    ) -> Result<Self, ConfigParseError>
        ensures loads { let engines = readings_view F.Filters S.Specs pcx.now in
            IsLoad (loaded_by F.meaning S.spec_meaning) engines (features_view experimental.now)
            (load_inputs_view paths.now.shared selection.entry tools.now)
            (W.warnings warnings.old) (W.warnings warnings.new) result }
        ensures root { IfOk result (λ config. config.root ≡ string_bytes paths.now.workspace_root) }
        ensures kept { IfOk result (λ config. config.warnings ≡ []) }
    {
        let root = String::from_str(alloc, paths.workspace_root.as_str())?;
        let inputs = ConfigInputs {
            shared: &paths.shared,
            selection,
            tools,
            features: experimental,
        };
        let loaded = LoadedConfig::load_parsed(alloc, &inputs, parsed, pcx, warnings);
        Self::from_load(root, loaded, DefaultConfigWarnings::new(alloc))
    }

    /// The warnings that `from_sources` kept. There are none after the other calls.
    pub fn warnings(&self) -> &DefaultConfigWarnings
        ensures { warnings_view result.now ≡ self.now.warnings }
    {
        &self.warnings
    }

    /// The root of the workspace.
    pub fn workspace_root(&self) -> &str
        ensures { result.now ≡ self.now.root }
    {
        self.workspace_root.as_str()
    }

    /// The names of its profiles, in the order of their bytes.
    pub fn profile_names(&self, alloc: Global) -> Result<Vec<String>, AllocError>
        ensures { IfOk result (λ names. map string_bytes names.items
            ≡ names_in self.now.config.profiles) }
    {
        let names = names_of_profiles(alloc, self.loaded.profiles())?;
        Ok(names)
    }

    /// The profile of a name, by its chain.
    pub fn profile(&self, alloc: Global, name: &str) -> Result<EarlyProfile<'_, F, S>, ProfileError>
        ensures known { IfOk result (λ _. IsIn (names_in self.now.config.profiles) name.now) }
        ensures found { IfOk result (IsProfileOf (configured_in self.now) name.now) }
        ensures missing { IfErr result (IsNotFound (names_in self.now.config.profiles) name.now) }
    {
        let profiles = self.loaded.profiles();
        match profiles.get_key_value(name) {
            Some((known_name, _)) => Ok(EarlyProfile::new(
                alloc,
                &self.workspace_root,
                &self.loaded,
                known_name,
            )?),
            None => Err(ProfileError::NotFound(ProfileNotFound {
                name: String::from_str(alloc, name)?,
                known: names_of_profiles(alloc, profiles)?,
            })),
        }
    }
}
