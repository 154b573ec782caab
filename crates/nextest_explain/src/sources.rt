//! Reads the files that a command names.
ghost use Rattle.std.specs.Prelude.{◌≡◌, IfOk, map, option_map, string_bytes};
ghost use Rattle.std.specs.List.{AllZip};
ghost use Rattle.nextest_sources.specs.Inputs.{load_inputs_view};
ghost use Rattle.nextest_sources.specs.Sources.{file_view, tool_file_view};
ghost use Rattle.nextest_explain.specs.Files.{sources_view, IsFileAt, IsSharedFile, IsNamedFile, IsToolFile, AreFilesOf};

use crate::command::Command;
use crate::options::{Options, ToolFile};
use nextest_config::run::Inputs;
use nextest_config::{
    CONFIG_PATH, ConfigFileSelection, ConfigPath, ConfigPaths, FileInput, ReadOutcome,
    ToolConfigFile, join_paths,
};
use nextest_sources::FileReader;
use std::alloc::{AllocError, Global};

/// The files that a command names, as they were read.
#[derive(Drop)]
pub struct Sources {
    paths: ConfigPaths,
    config_file: Option<FileInput>,
    organisation_file: Option<FileInput>,
    tools: Vec<ToolConfigFile>,
}

impl Sources {
    /// Reads the files that a command names.
    pub fn read<R: FileReader>(
        alloc: Global,
        command: &Command<'_>,
        files: &R,
    ) -> Result<Sources, AllocError>
        ensures root { IfOk result (λ sources. string_bytes sources.paths.workspace_root
            ≡ command.now.root.now) }
        ensures files { IfOk result (λ sources.
            AreFilesOf (R.MayGive files.now) command.now (sources_view sources)) }
    {
        let options = &command.options;
        Ok(Sources {
            paths: ConfigPaths {
                workspace_root: String::from_str(alloc, command.root)?,
                shared: shared_file(alloc, command.root, options, files)?,
            },
            config_file: named_file(alloc, options.config_file, files)?,
            organisation_file: named_file(alloc, options.organisation_config_file, files)?,
            tools: tool_files(alloc, options, files)?,
        })
    }

    /// What a run takes of them, beside the features that a command switches on.
    pub fn inputs<'a>(&'a self, options: &'a Options<'_>) -> Inputs<'a>
        ensures paths { result.paths.now ≡ self.now.paths }
        ensures files { load_inputs_view result.paths.now.shared result.selection result.tools.now
            ≡ sources_view self.now }
        ensures features { result.features.now ≡ options.now.features }
    {
        Inputs {
            paths: &self.paths,
            selection: self.selection(),
            tools: &self.tools,
            features: &options.features,
        }
    }

    /// Which files are read beside those of tools.
    fn selection(&self) -> ConfigFileSelection<'_>
        ensures config_file { option_map (λ file. file_view file.now) result.config_file
            ≡ option_map file_view self.now.config_file }
        ensures organisation { option_map (λ file. file_view file.now) result.organisation_file
            ≡ option_map file_view self.now.organisation_file }
    {
        let selection = ConfigFileSelection::new(self.config_file.as_ref());
        match &self.organisation_file {
            Some(file) => selection.with_organisation(file),
            None => selection,
        }
    }
}

/// The file at a path.
fn read_at<R: FileReader>(alloc: Global, path: &str, files: &R) -> Result<FileInput, AllocError>
    ensures { IfOk result
        (λ file. IsFileAt (R.MayGive files.now) path.now (file_view file)) }
{
    Ok(FileInput {
        path: ConfigPath::new(alloc, path)?,
        outcome: files.read(alloc, path)?,
    })
}

/// The workspace's own file. It is not looked for where a user names another.
fn shared_file<R: FileReader>(
    alloc: Global,
    root: &str,
    options: &Options<'_>,
    files: &R,
) -> Result<FileInput, AllocError>
    ensures { IfOk result (λ file.
        IsSharedFile (R.MayGive files.now) root.now options.now.config_file (file_view file)) }
{
    let path = join_paths(alloc, root, CONFIG_PATH)?;
    if options.config_file.is_some() {
        return Ok(FileInput {
            path: ConfigPath::new(alloc, path.as_str())?,
            outcome: ReadOutcome::NotFound,
        });
    }
    read_at(alloc, path.as_str(), files)
}

/// The file at the path that an option names, if it is given.
fn named_file<R: FileReader>(
    alloc: Global,
    path: Option<&str>,
    files: &R,
) -> Result<Option<FileInput>, AllocError>
    ensures { IfOk result (λ file.
        IsNamedFile (R.MayGive files.now) path.entry (option_map file_view file)) }
{
    match path {
        Some(path) => Ok(Some(read_at(alloc, path, files)?)),
        None => Ok(None),
    }
}

/// The file of a tool at the path that an option names.
fn tool_file<R: FileReader>(
    alloc: Global,
    named: &ToolFile<'_>,
    files: &R,
) -> Result<ToolConfigFile, AllocError>
    ensures { IfOk result
        (λ file. IsToolFile (R.MayGive files.now) named.now (tool_file_view file)) }
{
    Ok(ToolConfigFile {
        tool: named.tool.clone()?,
        config_file: read_at(alloc, named.path, files)?,
    })
}

/// The files of tools, in the order of their options.
fn tool_files<R: FileReader>(
    alloc: Global,
    options: &Options<'_>,
    files: &R,
) -> Result<Vec<ToolConfigFile>, AllocError>
    ensures { IfOk result (λ read. AllZip (IsToolFile (R.MayGive files.now))
        options.now.tool_files.items (map tool_file_view read.items)) }
{
    let mut read = Vec::new(alloc);
    for named in &options.tool_files {
        read.push(tool_file(alloc, named, files)?)?;
    }
    Ok(read)
}
