//! What a request's files denote.
ghost use Rattle.std.specs.Prelude.{◌≡◌, [], IfErr, IfOk, option_map, string_bytes};
ghost use Rattle.nextest_sources.specs.Sources.{file_view};
ghost use Rattle.nextest_sources.specs.WarningsView.{warnings_view};
ghost use Rattle.nextest_rules.specs.KnownView.{features_view};
ghost use Rattle.nextest_tree.specs.View.{tree_view};
ghost use Rattle.rinqebo_forms.specs.Features.{AreFeaturesBy};
ghost use Rattle.rinqebo_forms.specs.Requests.{request_view};
ghost use Rattle.rinqebo_session.specs.Loading.{repository_file, AreFeaturesFor, AreFilesOf, LoadsBy, IsConfiguredBy, IsLoadedBy, IsFailureBy, IsLoadedFrom, IsFailureOf};
ghost use Rattle.rinqebo_session.specs.Readings.{readings};

use crate::failure::Failure;
use crate::features::features_of;
use filter_engine::NextestFilters;
use nextest_config::{
    BuildPlatforms, ConfigExperimental, ConfigFileSelection, ConfigParseError,
    DefaultConfigWarnings, FileInput, LoadedConfig, ParseContext, Tree,
};
use nextest_sources::ConfigInputs;
use platform_language::{Platform, TargetSpecs};
use rinqebo_forms::{LoadRequest, features_by, filters_of, platforms_of, tree_of};
use rinqebo_request::Gathered;
use std::alloc::{AllocError, Global};
use std::collections::BTreeSet;

/// A configuration whose filters and platforms are written in nextest's languages.
pub type Config = LoadedConfig<NextestFilters, TargetSpecs>;

/// A configuration, the machines of a build, and the warnings of the load.
#[derive(Drop)]
pub struct Configured {
    /// The configuration.
    pub config: Config,
    /// The machines.
    pub platforms: BuildPlatforms<Platform>,
    /// The warnings, in their order.
    pub warnings: DefaultConfigWarnings,
}

/// A configuration, and the files that it is loaded from.
#[derive(Drop)]
pub struct Loaded {
    /// The workspace's root, and the files, which say where values come from.
    pub files: Gathered,
    /// The configuration.
    pub config: Config,
    /// The machines.
    pub platforms: BuildPlatforms<Platform>,
    /// The warnings, in their order.
    pub warnings: DefaultConfigWarnings,
    /// The target directory, if the request gives it.
    pub target_directory: Option<String>,
}

/// The files that a request names beside those of tools.
fn selection_of(asked: &LoadRequest) -> ConfigFileSelection<'_>
    ensures config_file { option_map (λ file. file_view file.now) result.config_file
        ≡ option_map file_view asked.now.config_file }
    ensures organisation { option_map (λ file. file_view file.now) result.organisation_file
        ≡ option_map file_view asked.now.organisation_file }
{
    let selection = ConfigFileSelection::new(asked.config_file.as_ref());
    match &asked.organisation_file {
        Some(file) => selection.with_organisation(file),
        None => selection,
    }
}

/// The repository's file: the one that a user named, or else its own.
fn repository_file(asked: &LoadRequest) -> &FileInput
    ensures { file_view result.now ≡ repository_file (request_view asked.now) }
{
    match &asked.config_file {
        Some(file) => file,
        None => &asked.paths.shared,
    }
}

/// Features, with those that a document switches on, if there is one.
fn features_with(
    named: &BTreeSet<ConfigExperimental>,
    document: &Option<Tree>,
) -> Result<BTreeSet<ConfigExperimental>, AllocError>
    ensures { IfOk result (λ features. AreFeaturesBy (features_view named.now)
        (option_map tree_view document.now) (features_view features)) }
{
    features_by(named, document.as_ref())
}

/// The features of a load: those that the request switches on, and those that the repository's file
/// enables.
fn features_for(
    alloc: Global,
    asked: &LoadRequest,
) -> Result<BTreeSet<ConfigExperimental>, AllocError>
    ensures { IfOk result (λ features.
        AreFeaturesFor (request_view asked.now) (features_view features)) }
{
    let named = features_of(alloc, asked.features)?;
    let document = tree_of(alloc, &repository_file(asked).outcome)?;
    let features = features_with(&named, &document)?;
    Ok(features)
}

/// The configuration of a request's files, with its warnings behind those from before.
fn config_of(
    alloc: Global,
    filters: &NextestFilters,
    features: &BTreeSet<ConfigExperimental>,
    asked: &LoadRequest,
    warnings: &mut DefaultConfigWarnings,
) -> Result<Config, ConfigParseError>
    ensures { warnings_view warnings.old ≡ [] → LoadsBy (readings filters.now)
        (features_view features.now) (request_view asked.now) (warnings_view warnings.new) result }
{
    let engines = ParseContext {
        filters,
        specs: &TargetSpecs,
    };
    let inputs = ConfigInputs {
        shared: &asked.paths.shared,
        selection: selection_of(asked),
        tools: &asked.tools,
        features,
    };
    LoadedConfig::load(alloc, &inputs, &engines, warnings)
}

/// The configuration of a request, by its engines.
fn configured_by(alloc: Global, asked: &LoadRequest) -> Result<Configured, Failure>
    ensures ok { IfOk result (IsConfiguredBy (request_view asked.now)) }
    ensures err { IfErr result (IsFailureBy (request_view asked.now)) }
{
    let filters = filters_of(alloc, &asked.metadata)?;
    let platforms = platforms_of(alloc, asked)?;
    let features = features_for(alloc, asked)?;
    let mut warnings = DefaultConfigWarnings::new(alloc);
    match config_of(alloc, &filters, &features, asked, &mut warnings) {
        Ok(config) => Ok(Configured {
            config,
            platforms,
            warnings,
        }),
        Err(error) => Err(Failure::Refused(error)),
    }
}

/// The files of a request, and the target directory, if the request gives it.
fn parted(asked: LoadRequest) -> (Gathered, Option<String>)
    ensures files { AreFilesOf (request_view asked) result.0 }
    ensures target_directory { option_map string_bytes result.1
        ≡ (request_view asked).target_directory }
{
    let LoadRequest {
        paths,
        config_file,
        organisation_file,
        tools,
        features: _features,
        metadata: _metadata,
        host: _host,
        target: _target,
        target_directory,
    } = asked;
    let files = Gathered {
        paths,
        config_file,
        organisation_file,
        tools,
        rustc_version: None,
        host_cfg: None,
        target_cfg: None,
        metadata: None,
        list: None,
    };
    (files, target_directory)
}

/// What the files of a request denote, with its engines, and the files.
fn loaded_by(alloc: Global, asked: LoadRequest) -> Result<Loaded, Failure>
    ensures ok { IfOk result (IsLoadedBy (request_view asked)) }
    ensures err { IfErr result (IsFailureBy (request_view asked)) }
{
    let configured = configured_by(alloc, &asked)?;
    let Configured {
        config,
        platforms,
        warnings,
    } = configured;
    let (files, target_directory) = parted(asked);
    Ok(Loaded {
        files,
        config,
        platforms,
        warnings,
        target_directory,
    })
}

/// What a request denotes.
pub fn loaded_from(alloc: Global, request: &[u8]) -> Result<Loaded, Failure>
    ensures ok { IfOk result (IsLoadedFrom request.now) }
    ensures err { IfErr result (IsFailureOf request.now) }
{
    let Ok(text) = std::str::from_utf8(request) else {
        return Err(Failure::NotText);
    };
    let asked = LoadRequest::read(alloc, text)?;
    loaded_by(alloc, asked)
}
