//! The note of `check` about the files that it read.
ghost use Rattle.std.specs.Prelude.{◌≡◌, ◌++◌, true, IfOk, OnOk, codes, string_bytes};
ghost use Rattle.rinqebo_report.specs.declared.format.Format.TheVariants as formats;
ghost use Rattle.rinqebo_run.specs.CheckNotes.{AddsFilesLine};

use nextest_config::{FileInput, ReadOutcome, ToolConfigFile};
use rinqebo_report::Format;
use rinqebo_request::{Gathered, Question, Request};
use rinqebo_results::{Answer, Status, push_note};
use std::alloc::{AllocError, Global};

/// Whether a file was read.
fn was_read(file: &FileInput) -> bool {
    matches!(file.outcome, ReadOutcome::Text(_))
}

/// The repository's file: the one that a user names, or else the workspace's own.
fn repository_file(gathered: &Gathered) -> &FileInput {
    match &gathered.config_file {
        Some(file) => file,
        None => &gathered.paths.shared,
    }
}

/// A path below a root without the root and the slash behind it, and another path as it is. Nothing
/// is below an empty root.
fn below<'a>(root: &str, path: &'a str) -> &'a str {
    if root.is_empty() {
        return path;
    }
    match path.strip_prefix(root) {
        Some(rest) if root.ends_with('/') => rest,
        Some(rest) => rest.strip_prefix('/').unwrap_or(path),
        None => path,
    }
}

/// The path of the repository's file as the note shows it.
fn shown_path<'a>(root: &str, file: &'a FileInput) -> &'a str {
    match file.path.absolute_path() {
        "-" => "standard input",
        path => below(root, path),
    }
}

/// Adds a file to the list of files, with a comma before it unless it is the first.
fn add_shown(shown: &str, files: &mut String) -> Result<(), AllocError> {
    if !files.is_empty() {
        files.push_str(", ")?;
    }
    files.push_str(shown)
}

/// Adds the organisation's file to the list of files that were read.
fn add_organisation(root: &str, file: &FileInput, files: &mut String) -> Result<(), AllocError> {
    if !was_read(file) {
        return Ok(());
    }
    add_shown(below(root, file.path.absolute_path()), files)
}

/// Adds the file of a tool to the list of files that were read.
fn add_tool(
    alloc: Global,
    root: &str,
    tool: &ToolConfigFile,
    files: &mut String,
) -> Result<(), AllocError> {
    if !was_read(&tool.config_file) {
        return Ok(());
    }
    let path = below(root, tool.config_file.path.absolute_path());
    let name = tool.tool.as_str();
    let shown = format!(in alloc; "{path} (tool {name})")?;
    add_shown(shown.as_str(), files)
}

/// The files that were read, the one of the highest precedence first, with commas between them.
fn files_read(alloc: Global, gathered: &Gathered) -> Result<String, AllocError> {
    let root = gathered.paths.workspace_root.as_str();
    let mut files = String::new(alloc);
    let own = repository_file(gathered);
    if was_read(own) {
        files.push_str(shown_path(root, own))?;
    }
    if let Some(file) = &gathered.organisation_file {
        add_organisation(root, file, &mut files)?;
    }
    for tool in &gathered.tools {
        add_tool(alloc, root, tool, &mut files)?;
    }
    Ok(files)
}

/// What the note on files says of those that were read.
fn files_text(alloc: Global, files: &str) -> Result<String, AllocError>
    ensures { IfOk result (λ said. string_bytes said ≡ codes "read " ++ files.now) }
{
    Ok(format!(in alloc; "read {files}")?)
}

/// Adds the note that lists the files which a check read. Where there is none, and the defaults are
/// accepted, the note says so.
fn add_files(
    alloc: Global,
    gathered: &Gathered,
    answer: &Answer,
    notes: &mut String,
) -> Result<(), AllocError>
    ensures { OnOk result (AddsFilesLine formats.Text (string_bytes notes.old)
        (string_bytes notes.new)) }
{
    let files = files_read(alloc, gathered)?;
    if !files.is_empty() {
        let said = files_text(alloc, files.as_str())?;
        return push_note(said.as_str(), notes);
    }
    if answer.status == Status::Refused as u8 {
        return Ok(());
    }
    push_note("found no configuration file; the defaults apply", notes)
}

/// Whether a request has the note about the files that a check read. The forms for other programs
/// have none.
fn notes_files(request: &Request<'_>) -> bool
    ensures { result ≡ true → request.now.format ≡ formats.Text }
{
    match (&request.question, request.format) {
        (Question::Check { .. }, Format::Text) => true,
        _ => false,
    }
}

/// Adds the note about the files that a check read, if the request has it.
pub fn add_read_files(
    alloc: Global,
    request: &Request<'_>,
    gathered: &Gathered,
    answer: &Answer,
    notes: &mut String,
) -> Result<(), AllocError>
    ensures { OnOk result (AddsFilesLine request.now.format (string_bytes notes.old)
        (string_bytes notes.new)) }
{
    if notes_files(request) {
        return add_files(alloc, gathered, answer, notes);
    }
    Ok(())
}
