//! The files of a workspace, in memory.
use nextest_config::run::Inputs;
use nextest_config::{
    ConfigExperimental, ConfigFileSelection, ConfigPath, ConfigPaths, FileInput, ReadOutcome,
};
use std::alloc::{AllocError, Global};
use std::collections::BTreeSet;

/// The paths of a workspace whose own file has this text.
pub fn workspace_paths(alloc: Global, text: &str) -> Result<ConfigPaths, AllocError> {
    let shared = FileInput {
        path: ConfigPath::new(alloc, "/w/.config/nextest.toml")?,
        outcome: ReadOutcome::Text(String::from_str(alloc, text)?),
    };
    Ok(ConfigPaths {
        workspace_root: String::from_str(alloc, "/w")?,
        shared,
    })
}

/// The files of a run: those of a workspace alone.
pub fn inputs_of<'a>(
    paths: &'a ConfigPaths,
    features: &'a BTreeSet<ConfigExperimental>,
) -> Inputs<'a> {
    Inputs {
        paths,
        selection: ConfigFileSelection::new(None),
        tools: &[],
        features,
    }
}
