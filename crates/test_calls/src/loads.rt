//! Loads of a file in memory, with all features.
use crate::inputs::workspace_paths;
use nextest_config::{
    ConfigExperimental, ConfigParseError, ConfigPaths, ConfigWarnings, Filters, NextestConfig,
    ParseContext, Specs, ToolConfigFile,
};
use std::alloc::{AllocError, Global};
use std::collections::BTreeSet;

/// All features.
fn all_features(alloc: Global) -> Result<BTreeSet<ConfigExperimental>, AllocError> {
    let mut features = BTreeSet::new(alloc);
    features.insert(ConfigExperimental::SetupScripts)?;
    features.insert(ConfigExperimental::WrapperScripts)?;
    Ok(features)
}

/// Loads the files of a workspace by engines, and reports warnings to a sink.
fn load_paths<F: Filters, S: Specs, W: ConfigWarnings>(
    alloc: Global,
    engines: &ParseContext<'_, F, S>,
    paths: &ConfigPaths,
    tools: &[ToolConfigFile],
    features: &BTreeSet<ConfigExperimental>,
    sink: &mut W,
) -> Result<NextestConfig<F, S>, ConfigParseError> {
    let root = paths.workspace_root.as_str();
    let shared = &paths.shared;
    NextestConfig::from_sources_with_warnings(
        alloc, root, shared, engines, None, tools, features, sink,
    )
}

/// Loads a workspace whose own file has this text, by engines, and reports warnings to a sink.
pub fn load_text<F: Filters, S: Specs, W: ConfigWarnings>(
    alloc: Global,
    engines: &ParseContext<'_, F, S>,
    text: &str,
    sink: &mut W,
) -> Result<NextestConfig<F, S>, ConfigParseError> {
    load_files(alloc, engines, text, &[], sink)
}

/// Loads a workspace whose own file has this text, and files of tools, by engines, and reports
/// warnings to a sink.
pub fn load_files<F: Filters, S: Specs, W: ConfigWarnings>(
    alloc: Global,
    engines: &ParseContext<'_, F, S>,
    text: &str,
    tools: &[ToolConfigFile],
    sink: &mut W,
) -> Result<NextestConfig<F, S>, ConfigParseError> {
    let paths = workspace_paths(alloc, text)?;
    let features = all_features(alloc)?;
    load_paths(alloc, engines, &paths, tools, &features, sink)
}

/// Whether a load for which a part needs memory so many times ends as room for some of them lets
/// it.
pub fn ends_by_room<F: Filters, S: Specs>(
    loaded: &Result<NextestConfig<F, S>, ConfigParseError>,
    needed: usize,
    room: usize,
) -> bool {
    match loaded {
        Ok(_) => room >= needed,
        Err(error) => {
            room < needed && error.kind().number() == 16 && error.config_file().is_none()
        }
    }
}
