//! One run: a case, and the profile of a name.
use crate::setup::Setup;
use nextest_config::{
    BuildPlatforms, ConfigExperimental, ConfigFileSelection, EarlyProfile, EvaluatableProfile,
    NextestConfig, ParseContext,
};
use nextest_explain::engines::filters::ToyFilters;
use nextest_explain::engines::platforms::ToySpecs;
use std::alloc::{AllocError, Global};
use std::collections::BTreeSet;

pub type Config = NextestConfig<ToyFilters, ToySpecs>;

pub type Early<'cfg> = EarlyProfile<'cfg, ToyFilters, ToySpecs>;

pub type Profile<'cfg> = EvaluatableProfile<'cfg, ToyFilters, ToySpecs>;

/// The engines that a load uses.
pub const ENGINES: ParseContext<'static, ToyFilters, ToySpecs> = ParseContext {
    filters: &ToyFilters,
    specs: &ToySpecs,
};

/// The request: the files and queries of a case, a profile by name, and the platforms of a build.
#[derive(Drop)]
pub struct Run<'a> {
    pub alloc: Global,
    pub case: &'a Setup<'a>,
    pub profile: &'a str,
    pub features: &'a BTreeSet<ConfigExperimental>,
    pub platforms: &'a BuildPlatforms<String>,
}

impl<'a> Run<'a> {
    /// Which files of the case are read beside those of tools.
    pub fn selection(&self) -> ConfigFileSelection<'a> {
        let selection = ConfigFileSelection::new(None);
        match &self.case.organisation {
            Some(file) => selection.with_organisation(file),
            None => selection,
        }
    }
}

/// All features.
pub fn all_features(alloc: Global) -> Result<BTreeSet<ConfigExperimental>, AllocError> {
    let mut features = BTreeSet::new(alloc);
    features.insert(ConfigExperimental::SetupScripts)?;
    features.insert(ConfigExperimental::WrapperScripts)?;
    Ok(features)
}

/// The platforms of a case's build.
pub fn platforms_of(alloc: Global, case: &Setup<'_>) -> Result<BuildPlatforms<String>, AllocError> {
    let mut platforms = BuildPlatforms {
        host: String::from_str(alloc, case.host)?,
        target: None,
    };
    if let Some(target) = case.target {
        platforms.target = Some(String::from_str(alloc, target)?);
    }
    Ok(platforms)
}
