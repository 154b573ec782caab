//! The root of a workspace, looked for from a folder upward.
use nextest_scripts::join_paths;
use nextest_sources::{CONFIG_PATH, FileReader, ReadOutcome};
use rinqebo_forms::tree_of;
use std::alloc::{AllocError, Global};

/// What shows that a folder is the root of a workspace.
#[derive(Clone, Copy)]
enum Mark {
    /// Its `Cargo.toml` has a table `workspace`.
    Workspace,
    /// It has a `Cargo.toml`.
    Package,
    /// It has a configuration of nextest.
    Configuration,
}

/// The marks, the strongest first.
const MARKS: [Mark; 3] = [Mark::Workspace, Mark::Package, Mark::Configuration];

/// Whether a file has a text.
fn has_text(outcome: &ReadOutcome) -> bool {
    matches!(outcome, ReadOutcome::Text(_))
}

/// Whether the manifest of a package has the table of a workspace.
fn has_workspace(alloc: Global, outcome: &ReadOutcome) -> Result<bool, AllocError> {
    match tree_of(alloc, outcome)? {
        Some(tree) => Ok(tree.get("workspace").is_some()),
        None => Ok(false),
    }
}

/// Whether a folder has a mark.
fn has_mark<R: FileReader>(
    alloc: Global,
    mark: Mark,
    folder: &str,
    files: &R,
) -> Result<bool, AllocError> {
    let name = match mark {
        Mark::Workspace | Mark::Package => "Cargo.toml",
        Mark::Configuration => CONFIG_PATH,
    };
    let path = join_paths(alloc, folder, name)?;
    let outcome = files.read(alloc, path.as_str())?;
    match mark {
        Mark::Workspace => has_workspace(alloc, &outcome),
        Mark::Package | Mark::Configuration => Ok(has_text(&outcome)),
    }
}

/// The folder that a folder lies in, if there is one.
fn parent_of(folder: &str) -> Option<&str> {
    match folder.rsplit_once('/') {
        Some(("", "")) | None => None,
        Some(("", _)) => Some("/"),
        Some((parent, _)) => Some(parent),
    }
}

/// The nearest folder upward that has a mark.
fn nearest_with<'a, R: FileReader>(
    alloc: Global,
    mark: Mark,
    folder: &'a str,
    files: &R,
) -> Result<Option<&'a str>, AllocError> {
    let mut next = Some(folder);
    for _ in 0..folder.len() {
        let Some(current) = next else {
            break;
        };
        if has_mark(alloc, mark, current, files)? {
            return Ok(Some(current));
        }
        next = parent_of(current);
    }
    Ok(None)
}

/// The root of the workspace that a folder lies in: the nearest folder upward with the strongest
/// mark that one has.
pub fn root_above<'a, R: FileReader>(
    alloc: Global,
    folder: &'a str,
    files: &R,
) -> Result<Option<&'a str>, AllocError> {
    for mark in MARKS.iter() {
        if let Some(root) = nearest_with(alloc, *mark, folder, files)? {
            return Ok(Some(root));
        }
    }
    Ok(None)
}
