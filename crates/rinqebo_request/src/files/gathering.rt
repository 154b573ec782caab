//! Reads the files that a request names.
ghost use Rattle.std.specs.Prelude.{◌≡◌, ◌⊎◌, IfErr, IfOk, MatchOption, MatchResult, Some, codes, map, option_map, string_bytes};
ghost use Rattle.std.specs.List.{AllZip};
ghost use Rattle.std.specs.Option.{ForSome};
ghost use Rattle.nextest_sources.specs.Sources.{file_view, not_found, outcome_view, text, tool_file_view};
ghost use Rattle.rinqebo_request.specs.Files.Gathering.{AreFilesFor, HasGatherCause, IsFileIn, IsListText, IsNoFolder, IsNoList, IsNoRoot, IsNoText, IsNoTextIn, IsNotFound, IsUnreadable, IsNamedFile, IsOwnFile, IsReadAt, IsReason, IsText, IsTextAt, IsToolFile, input_left};

use crate::environment::Environment;
use crate::files::root::root_above;
use crate::named::{FileOption, NamedFile};
use crate::request::{ConfigFile, FileOptions, ListFile, Request, ToolFile};
use nextest_scripts::join_paths;
use nextest_sources::{
    CONFIG_PATH, ConfigPath, ConfigPaths, FileInput, FileReader, ReadOutcome, ToolConfigFile,
};
use std::alloc::{AllocError, Global};
use thiserror::Error;

/// The files that a request names, as they were read.
pub struct Gathered {
    /// The workspace's root, and its own file.
    pub paths: ConfigPaths,
    /// The repository's file that a user named, which counts in place of the workspace's own.
    pub config_file: Option<FileInput>,
    /// The organisation's file, if a user named one.
    pub organisation_file: Option<FileInput>,
    /// The files of tools, in the order of the words: the first is the highest.
    pub tools: Vec<ToolConfigFile>,
    /// What the compiler prints of itself, if it is given.
    pub rustc_version: Option<String>,
    /// What the compiler prints for the host, if it is given.
    pub host_cfg: Option<String>,
    /// What the compiler prints for the target, if it is given.
    pub target_cfg: Option<String>,
    /// What `cargo metadata` prints, if it is given.
    pub metadata: Option<String>,
    /// What `cargo nextest list` prints, if the request has a list.
    pub list: Option<String>,
}

// Written out, so that the proof of a caller sees one call and not the drop of each part.
impl Drop for Gathered {
    fn drop(self) {
        let Gathered {
            paths: _paths,
            config_file: _config_file,
            organisation_file: _organisation_file,
            tools: _tools,
            rustc_version: _rustc_version,
            host_cfg: _host_cfg,
            target_cfg: _target_cfg,
            metadata: _metadata,
            list: _list,
        } = self;
    }
}

/// Why the files of a request were not read.
#[derive(Debug, Drop, Error)]
pub enum GatherFault {
    /// No folder upward is the root of a workspace.
    #[error("no workspace here or above: name its folder by `--root`")]
    NoRoot,
    /// There is no folder at the path that `--root` names.
    #[error("`--root {0}`: no such directory")]
    NoFolder(String),
    /// A file that an option names has no text: the file, and why.
    #[error("cannot read {0}: {1}")]
    Unreadable(NamedFile, String),
    /// Memory was refused.
    #[error("out of memory")]
    Memory,
}

impl From<AllocError> for GatherFault {
    ghost use Rattle.std.specs.Prelude.{◌≡◌};
    ghost use Rattle.rinqebo_request.specs.declared.files.gathering.GatherFault.TheVariants.{Memory};

    ghost from_gives = { λ _ fault. fault ≡ Memory };

    fn from(_error: AllocError) -> GatherFault {
        GatherFault::Memory
    }
}

/// The root that an option names.
fn named_root<R: FileReader>(alloc: Global, root: &str, files: &R) -> Result<String, GatherFault>
    ensures ok { IfOk result (λ named. string_bytes named ≡ root.now) }
    ensures err { IfErr result (IsNoFolder root.now) }
{
    let root = String::from_str(alloc, root)?;
    if files.has_folder(root.as_str()) {
        Ok(root)
    } else {
        Err(GatherFault::NoFolder(root))
    }
}

/// A root at a path.
fn root_at(alloc: Global, path: &str) -> Result<String, GatherFault>
    ensures { IfErr result (λ fault. fault ≡ GatherFault.Memory) }
{
    Ok(String::from_str(alloc, path)?)
}

/// The root where none is found upward from a folder: the folder itself, if a user names the
/// repository's file.
fn root_at_folder(
    alloc: Global,
    config_file: ConfigFile<'_>,
    folder: &str,
) -> Result<String, GatherFault>
    ensures { IfErr result (IsNotFound config_file.entry) }
{
    if !config_file.is_discovered() {
        return root_at(alloc, folder);
    }
    Err(GatherFault::NoRoot)
}

/// The root that is found upward from a folder. Where there is none, and a user names the repository's
/// file, it is the folder itself.
fn found_root<R: FileReader>(
    alloc: Global,
    config_file: ConfigFile<'_>,
    folder: &str,
    files: &R,
) -> Result<String, GatherFault>
    ensures { IfErr result (IsNotFound config_file.entry) }
{
    match root_above(alloc, folder, files)? {
        Some(root) => root_at(alloc, root),
        None => root_at_folder(alloc, config_file, folder),
    }
}

/// The root of the workspace.
fn root_of<R: FileReader>(
    alloc: Global,
    options: &FileOptions<'_>,
    environment: &Environment,
    files: &R,
) -> Result<String, GatherFault>
    ensures ok { IfOk result (λ root. ForSome options.now.root
        (λ named. string_bytes root ≡ named.now)) }
    ensures err { IfErr result (IsNoRoot options.now) }
{
    match options.root {
        Some(root) => named_root(alloc, root, files),
        None => found_root(
            alloc,
            options.config_file,
            environment.folder.as_str(),
            files,
        ),
    }
}

/// The file at a path.
fn read_at<R: FileReader>(alloc: Global, path: &str, files: &R) -> Result<FileInput, AllocError>
    ensures { IfOk result (λ file. IsReadAt (R.MayGive files.now) path.now (file_view file)) }
{
    Ok(FileInput {
        path: ConfigPath::new(alloc, path)?,
        outcome: files.read(alloc, path)?,
    })
}

/// The file at a path, which a user names.
fn file_at<R: FileReader>(
    alloc: Global,
    path: &str,
    files: &R,
) -> Result<Option<FileInput>, AllocError>
    ensures { IfOk result (λ file. MatchOption (option_map file_view file) ⊥
        (IsReadAt (R.MayGive files.now) path.now)) }
{
    let file = read_at(alloc, path, files)?;
    Ok(Some(file))
}

/// A file at a path that is not read: it counts as missing.
fn unread(alloc: Global, path: &str) -> Result<FileInput, AllocError>
    ensures { IfOk result (λ file. file_view file
        ≡ record { path = path.now; outcome = not_found }) }
{
    Ok(FileInput {
        path: ConfigPath::new(alloc, path)?,
        outcome: ReadOutcome::NotFound,
    })
}

/// The workspace's own file. It is not looked for where another one is named.
fn shared_file<R: FileReader>(
    alloc: Global,
    root: &str,
    config_file: ConfigFile<'_>,
    files: &R,
) -> Result<FileInput, AllocError>
    ensures { IfOk result (λ file. IsOwnFile (R.MayGive files.now) root.now config_file.entry
        (file_view file)) }
{
    let path = join_paths(alloc, root, CONFIG_PATH)?;
    let own = path.as_str();
    if config_file.is_discovered() {
        read_at(alloc, own, files)
    } else {
        unread(alloc, own)
    }
}

/// Standard input as a file, which messages show with a path.
fn input_file(
    alloc: Global,
    path: &str,
    input: ReadOutcome,
) -> Result<Option<FileInput>, AllocError>
    ensures { IfOk result (λ file. option_map file_view file
        ≡ Some (record { path = path.now; outcome = outcome_view input })) }
{
    let path = ConfigPath::new(alloc, path)?;
    Ok(Some(FileInput {
        path,
        outcome: input,
    }))
}

/// The repository's file that a user named.
fn named_file<R: FileReader>(
    alloc: Global,
    config_file: ConfigFile<'_>,
    input: ReadOutcome,
    files: &R,
) -> Result<Option<FileInput>, AllocError>
    ensures { IfOk result (λ file. IsNamedFile (R.MayGive files.now) config_file.entry
        (outcome_view input) (option_map file_view file)) }
{
    match config_file {
        ConfigFile::Discovered => Ok(None),
        ConfigFile::Named(path) => file_at(alloc, path, files),
        ConfigFile::Input(path) => input_file(alloc, path, input),
    }
}

/// The organisation's file, if a user named one.
fn organisation_file<R: FileReader>(
    alloc: Global,
    path: Option<&str>,
    files: &R,
) -> Result<Option<FileInput>, AllocError>
    ensures { IfOk result (λ file. IsFileIn (R.MayGive files.now) path.entry
        (option_map file_view file)) }
{
    match path {
        Some(path) => file_at(alloc, path, files),
        None => Ok(None),
    }
}

/// The file of a tool.
fn tool_file<R: FileReader>(
    alloc: Global,
    named: &ToolFile<'_>,
    files: &R,
) -> Result<ToolConfigFile, AllocError>
    ensures { IfOk result (λ file. IsToolFile (R.MayGive files.now) named.now
        (tool_file_view file)) }
{
    Ok(ToolConfigFile {
        tool: named.tool.clone()?,
        config_file: read_at(alloc, named.path, files)?,
    })
}

/// The files of tools, in the order of their options.
fn tool_files<R: FileReader>(
    alloc: Global,
    tools: &[ToolFile<'_>],
    files: &R,
) -> Result<Vec<ToolConfigFile>, AllocError>
    ensures { IfOk result (λ read. AllZip (IsToolFile (R.MayGive files.now)) tools.now
        (map tool_file_view read.items)) }
{
    let mut read = Vec::new(alloc);
    for named in tools {
        read.push(tool_file(alloc, named, files)?)?;
    }
    Ok(read)
}

/// That the file at the path of an option has no text, and why.
fn unreadable(alloc: Global, path: &str, option: FileOption, reason: String) -> GatherFault
    ensures { (result ≡ GatherFault.Memory)
        ⊎ IsUnreadable path.now option (string_bytes reason) result }
{
    match NamedFile::new(alloc, Some(path), option) {
        Ok(file) => GatherFault::Unreadable(file, reason),
        Err(_) => GatherFault::Memory,
    }
}

/// The text that was read, or the reason why there is none.
fn text_or_reason(alloc: Global, outcome: ReadOutcome) -> Result<Result<String, String>, AllocError>
    ensures { IfOk result (λ read. MatchResult read
        (λ text. IsText (outcome_view outcome) (string_bytes text))
        (λ reason. IsReason (outcome_view outcome) (string_bytes reason))) }
{
    match outcome {
        ReadOutcome::Text(text) => Ok(Ok(text)),
        ReadOutcome::NotFound => Ok(Err(String::from_str(alloc, "no such file")?)),
        ReadOutcome::NotADirectory => {
            let reason = String::from_str(alloc, "a part of it is not a directory")?;
            Ok(Err(reason))
        }
        ReadOutcome::Failed(message) => Ok(Err(message)),
    }
}

/// The text that was read at the path of an option, or why there is none.
fn text_of(
    alloc: Global,
    path: &str,
    option: FileOption,
    outcome: ReadOutcome,
) -> Result<String, GatherFault>
    ensures ok { IfOk result (λ read. IsText (outcome_view outcome) (string_bytes read)) }
    ensures err { IfErr result
        (IsNoText path.now option (λ given. given ≡ outcome_view outcome)) }
{
    match text_or_reason(alloc, outcome)? {
        Ok(text) => Ok(text),
        Err(reason) => Err(unreadable(alloc, path, option, reason)),
    }
}

/// The text of the file at the path of an option, if it is given.
fn text_at<R: FileReader>(
    alloc: Global,
    path: Option<&str>,
    option: FileOption,
    files: &R,
) -> Result<Option<String>, GatherFault>
    ensures ok { IfOk result (λ read. IsTextAt (R.MayGive files.now) path.entry
        (option_map string_bytes read)) }
    ensures err { IfErr result (IsNoTextIn (R.MayGive files.now) path.entry option) }
{
    let Some(path) = path else {
        return Ok(None);
    };
    let outcome = files.read(alloc, path)?;
    let text = text_of(alloc, path, option, outcome)?;
    Ok(Some(text))
}

/// The text of the list of tests at a path, and standard input, of which it leaves all.
fn named_list<R: FileReader>(
    alloc: Global,
    path: &str,
    input: ReadOutcome,
    files: &R,
) -> Result<(Option<String>, ReadOutcome), GatherFault>
    ensures text { IfOk result (λ read. MatchOption (option_map string_bytes read.0) ⊥
        (λ bytes. R.MayGive files.now path.now (text bytes))) }
    ensures left { IfOk result (λ read. outcome_view read.1 ≡ outcome_view input) }
    ensures err { IfErr result (IsNoText path.now FileOption.List (R.MayGive files.now path.now)) }
{
    let read = text_at(alloc, Some(path), FileOption::List, files)?;
    Ok((read, input))
}

/// The text of standard input, which is the list of tests, and what is left of it.
fn input_list(
    alloc: Global,
    input: ReadOutcome,
) -> Result<(Option<String>, ReadOutcome), GatherFault>
    ensures text { IfOk result (λ read. MatchOption (option_map string_bytes read.0) ⊥
        (IsText (outcome_view input))) }
    ensures left { IfOk result (λ read. outcome_view read.1 ≡ not_found) }
    ensures err { IfErr result
        (IsNoText (codes "-") FileOption.List (λ given. given ≡ outcome_view input)) }
{
    let read = text_of(alloc, ListFile::Input.path(), FileOption::List, input)?;
    Ok((Some(read), ReadOutcome::NotFound))
}

/// The text of the list of tests, and what is left of standard input.
fn text_of_list<R: FileReader>(
    alloc: Global,
    list: ListFile<'_>,
    input: ReadOutcome,
    files: &R,
) -> Result<(Option<String>, ReadOutcome), GatherFault>
    ensures text { IfOk result (λ read. IsListText (R.MayGive files.now) (Some list.entry)
        (outcome_view input) (option_map string_bytes read.0)) }
    ensures left { IfOk result (λ read. outcome_view read.1
        ≡ input_left (Some list.entry) (outcome_view input)) }
    ensures err { IfErr result
        (IsNoList (R.MayGive files.now) (Some list.entry) (outcome_view input)) }
{
    match list {
        ListFile::Named(path) => named_list(alloc, path, input, files),
        ListFile::Input => input_list(alloc, input),
    }
}

/// The text of the list of tests, if a request is about one, and what is left of standard input.
fn list_text<R: FileReader>(
    alloc: Global,
    list: Option<ListFile<'_>>,
    input: ReadOutcome,
    files: &R,
) -> Result<(Option<String>, ReadOutcome), GatherFault>
    ensures text { IfOk result (λ read. IsListText (R.MayGive files.now) list.entry
        (outcome_view input) (option_map string_bytes read.0)) }
    ensures left { IfOk result (λ read. outcome_view read.1
        ≡ input_left list.entry (outcome_view input)) }
    ensures err { IfErr result (IsNoList (R.MayGive files.now) list.entry (outcome_view input)) }
{
    match list {
        Some(named) => text_of_list(alloc, named, input, files),
        None => Ok((None, input)),
    }
}

/// Reads the files that a request names. Where it reads standard input, `input` is its outcome.
pub fn gather<R: FileReader>(
    alloc: Global,
    request: &Request<'_>,
    environment: &Environment,
    input: ReadOutcome,
    files: &R,
) -> Result<Gathered, GatherFault>
    ensures root { IfOk result (λ gathered. ForSome request.now.files.root
        (λ named. string_bytes gathered.paths.workspace_root ≡ named.now)) }
    ensures files { IfOk result
        (AreFilesFor (R.MayGive files.now) request.now (outcome_view input)) }
    ensures cause { IfErr result
        (HasGatherCause (R.MayGive files.now) request.now (outcome_view input)) }
{
    let options = &request.files;
    let engines = &request.engines;
    let root = root_of(alloc, options, environment, files)?;
    let shared = shared_file(alloc, root.as_str(), options.config_file, files)?;
    let named = request.list();
    let (list, left) = list_text(alloc, named, input, files)?;
    let config_file = named_file(alloc, options.config_file, left, files)?;
    let organisation_file = organisation_file(alloc, options.organisation_config_file, files)?;
    let tools = tool_files(alloc, &options.tools, files)?;
    let rustc_version = text_at(
        alloc,
        engines.rustc_version,
        FileOption::RustcVersion,
        files,
    )?;
    let host_cfg = text_at(alloc, engines.host_cfg, FileOption::HostCfg, files)?;
    let target_cfg = text_at(alloc, engines.target_cfg, FileOption::TargetCfg, files)?;
    let metadata = text_at(alloc, engines.metadata, FileOption::Metadata, files)?;
    Ok(Gathered {
        paths: ConfigPaths {
            workspace_root: root,
            shared,
        },
        config_file,
        organisation_file,
        tools,
        rustc_version,
        host_cfg,
        target_cfg,
        metadata,
        list,
    })
}
