//! What all commands begin with: a list of tests, engines, features, and the layers of the files.
ghost use Rattle.std.specs.Prelude.{◌≡◌, ◌++◌, IfOk, IfErr, option_map};
ghost use Rattle.nextest_rules.specs.KnownView.{features_view};
ghost use Rattle.nextest_sources.specs.Inputs.{load_inputs_view};
ghost use Rattle.nextest_sources.specs.Sources.{file_view};
ghost use Rattle.nextest_sources.specs.WarningsView.{warnings_view};
ghost use Rattle.rinqebo_load.specs.SessionOf.{IsSessionOf};
ghost use Rattle.rinqebo_load.specs.Sessions.{files_view, readings, IfLoaded, IsLoadedFrom};
ghost use Rattle.rinqebo_load.specs.Beginning.{IsBeginningFailure, IsUnusable};
ghost use Rattle.rinqebo_load.specs.Warned.{IsRefusedLoad, warnings_met};

use crate::engines::Engines;
use crate::failure::Failure;
use crate::layer_texts::LayerTexts;
use crate::list_path::list_path;
use crate::printed_host::printed_host;
use crate::reported_request::reported_request;
use crate::triples::{Triples, listed_tests, triples_for};
use filter_engine::NextestFilters;
use filter_inputs::ListedTests;
use nextest_config::run::Inputs;
use nextest_config::{
    ConfigExperimental, ConfigFileSelection, ConfigParseError, DefaultConfigWarnings, LoadedConfig,
    ParseContext,
};
use nextest_sources::ConfigInputs;
use platform_language::TargetSpecs;
use rinqebo_report::ReportedRequest;
use rinqebo_request::{Gathered, Layer, ProfileSource, Request, features_of, layers_of};
use std::alloc::{AllocError, Global};
use std::collections::BTreeSet;

/// A loaded configuration.
pub type Config = LoadedConfig<NextestFilters, TargetSpecs>;

/// What all commands begin with.
pub struct Session<'g> {
    /// The request of the user, as reports have it.
    pub request: ReportedRequest,
    /// The files that the request names, as they were read.
    pub gathered: &'g Gathered,
    /// What names the requested profile, which messages may name.
    pub profile_source: ProfileSource,
    /// The tests of the requested list. Without a list there are none.
    pub tests: ListedTests,
    /// The triples of the build.
    pub triples: Triples,
    /// The languages of filters and platforms, as the request has them.
    pub engines: Engines,
    /// The experimental features that are switched on, by words or by the repository's file.
    pub features: BTreeSet<ConfigExperimental>,
    /// The sources, the lowest first.
    pub layers: Vec<Layer<'g>>,
}

// Written out, so that the proof of a caller sees one call and not the drop of each part.
impl Drop for Session<'_> {
    fn drop(self) {
        let Session {
            request: _request,
            gathered: _gathered,
            profile_source: _profile_source,
            tests: _tests,
            triples: _triples,
            engines: _engines,
            features: _features,
            layers: _layers,
        } = self;
    }
}

impl<'g> Session<'g> {
    /// The session of a request, over the files that it names.
    pub fn new(
        alloc: Global,
        request: &Request<'_>,
        gathered: &'g Gathered,
    ) -> Result<Session<'g>, Failure>
        ensures begun { IfOk result (IsSessionOf request.now gathered.now) }
        ensures err { IfErr result IsBeginningFailure }
        ensures cause { IfErr result (IsUnusable request.now gathered.now) }
    {
        let tests = listed_tests(alloc, list_path(request), gathered)?;
        let host = printed_host(alloc, request.engines.rustc_version, gathered)?;
        let triples = triples_for(alloc, &request.engines, host, &tests)?;
        let engines = Engines::new(alloc, request, &triples, gathered)?;
        let layers = layers_of(alloc, gathered)?;
        Ok(Session {
            request: reported_request(alloc, request)?,
            gathered,
            profile_source: request.profile_source,
            engines,
            features: features_of(&request.features, &layers)?,
            layers,
            tests,
            triples,
        })
    }

    /// The engines that read the texts of the files.
    pub fn parse_context(&self) -> ParseContext<'_, NextestFilters, TargetSpecs>
        ensures { result.filters.now ≡ self.now.engines.filters }
    {
        ParseContext {
            filters: &self.engines.filters,
            specs: &TargetSpecs,
        }
    }

    /// The files that a user named beside those of tools: the repository's, and the organisation's.
    fn selection(&self) -> ConfigFileSelection<'_>
        ensures config_file { option_map (λ file. file_view file.now) result.config_file
            ≡ option_map file_view self.now.gathered.now.config_file }
        ensures organisation { option_map (λ file. file_view file.now) result.organisation_file
            ≡ option_map file_view self.now.gathered.now.organisation_file }
    {
        let selection = ConfigFileSelection::new(self.gathered.config_file.as_ref());
        match &self.gathered.organisation_file {
            Some(file) => selection.with_organisation(file),
            None => selection,
        }
    }

    /// The files of a run, and its features.
    pub fn inputs(&self) -> Inputs<'_>
        ensures root { result.paths.now ≡ self.now.gathered.now.paths }
        ensures files { load_inputs_view result.paths.now.shared result.selection result.tools.now
            ≡ files_view self.now.gathered.now }
        ensures features { result.features.now ≡ self.now.features }
    {
        Inputs {
            paths: &self.gathered.paths,
            selection: self.selection(),
            tools: &self.gathered.tools,
            features: &self.features,
        }
    }

    /// Loads the configuration. No text is parsed again, since the layers above the defaults are the
    /// files of the load. Warnings are reported as they are met.
    pub fn load(
        &self,
        alloc: Global,
        warnings: &mut DefaultConfigWarnings,
    ) -> Result<Config, ConfigParseError>
        ensures verdict { IfLoaded (readings self.now.engines.filters)
            (features_view self.now.features) (files_view self.now.gathered.now) result }
        ensures means { IfOk result (IsLoadedFrom (readings self.now.engines.filters)
            (files_view self.now.gathered.now)) }
        ensures warnings { IfOk result (λ _. warnings_view warnings.new
            ≡ warnings_view warnings.old ++ warnings_met self.now) }
        ensures refused { IfErr result (IsRefusedLoad self.now (warnings_view warnings.old)
            (warnings_view warnings.new)) }
    {
        let inputs = self.inputs();
        let inputs = ConfigInputs {
            shared: &inputs.paths.shared,
            selection: inputs.selection,
            tools: inputs.tools,
            features: inputs.features,
        };
        let texts = LayerTexts {
            layers: self.layers.as_slice(),
        };
        match LoadedConfig::load_parsed(alloc, &inputs, &texts, &self.parse_context(), warnings) {
            Ok(config) => Ok(config),
            Err(error) => Err(error),
        }
    }
}
