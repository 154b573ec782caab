//! What a load reads: the files that it is given, as sources in their order.
ghost use Rattle.std.specs.Prelude.{◌≡◌, ◌++◌, ◌∷◌, [], List, IfOk, OnOk, MatchOption, map, option_map};
ghost use Rattle.nextest_elements.specs.IdentifierText.{tool_name_text};
ghost use Rattle.nextest_sources.specs.Endings.{Found, ending};
ghost use Rattle.nextest_sources.specs.InputFaults.{fault_at_source, outcome_cause, first_path, second_cause, tool_steps};
ghost use Rattle.nextest_sources.specs.InputsView.{input_view};
ghost use Rattle.nextest_sources.specs.Inputs.{file_input, inputs_of, inputs_view, organisation_inputs, repository_input, repository_of, selected_inputs, source_texts_of, tool_input, tool_source};
ghost use Rattle.nextest_sources.specs.Sources.{ToolFile, file_view, outcome_view, path_view, source_kind_view, source_view, tool_file_view};
ghost use Rattle.nextest_sources.specs.Steps.{first_fault};

use crate::error::{ConfigParseError, ConfigParseErrorKind};
use crate::sources::{
    ConfigInputs, ConfigPath, ConfigSource, ConfigSourceKind, FileInput, ReadOutcome,
    ToolConfigFile,
};
use nextest_elements::ToolName;
use std::alloc::{AllocError, Global};
use std::collections::BTreeMap;

/// A source, and the outcome of reading its file.
#[derive(Drop)]
pub struct SourceInput<'a> {
    /// The source.
    pub source: ConfigSource,
    /// The outcome of reading its file.
    pub outcome: &'a ReadOutcome,
}

/// The input that a file of a kind is.
fn file_input(file: &FileInput, kind: ConfigSourceKind) -> Result<SourceInput<'_>, AllocError>
    ensures { IfOk result (λ input. input_view input
        ≡ file_input (source_kind_view kind) (file_view file.now)) }
{
    Ok(SourceInput {
        source: ConfigSource::new(file.path.clone()?, kind),
        outcome: &file.outcome,
    })
}

/// The input that a tool's file is.
fn tool_source_input(file: &ToolConfigFile) -> Result<SourceInput<'_>, AllocError>
    ensures { IfOk result (λ input. input_view input ≡ tool_input (tool_file_view file.now)) }
{
    let kind = ConfigSourceKind::Tool(file.tool.clone()?);
    file_input(&file.config_file, kind)
}

/// The repository's file: the one that a user named, and else the one that is looked for.
fn repository_file<'a>(files: &ConfigInputs<'a>) -> Result<SourceInput<'a>, AllocError>
    ensures { let given = inputs_view files.now in
        IfOk result (λ input. input_view input ≡ repository_input given.shared given.explicit) }
{
    match files.selection.config_file {
        Some(file) => file_input(file, ConfigSourceKind::ExplicitRepository),
        None => file_input(files.shared, ConfigSourceKind::DiscoveredRepository),
    }
}

/// The repository's source, which faults of all sources together have.
pub fn repository_source(files: &ConfigInputs<'_>) -> Result<ConfigSource, AllocError>
    ensures { IfOk result (λ source. source_view source ≡ repository_of (inputs_view files.now)) }
{
    let SourceInput { source, .. } = repository_file(files)?;
    Ok(source)
}

/// Adds the organisation's file, where there is one.
fn add_organisation<'a>(
    inputs: &mut Vec<SourceInput<'a>>,
    files: &ConfigInputs<'a>,
) -> Result<(), AllocError>
    ensures { OnOk result (map input_view inputs.new.items ≡ map input_view inputs.old.items
        ++ organisation_inputs (inputs_view files.now).organisation) }
{
    let Some(file) = files.selection.organisation_file else {
        return Ok(());
    };
    inputs.push(file_input(file, ConfigSourceKind::Organisation)?)?;
    Ok(())
}

/// Adds what is above the files of tools, the lowest first.
fn add_selected<'a>(
    inputs: &mut Vec<SourceInput<'a>>,
    files: &ConfigInputs<'a>,
) -> Result<(), AllocError>
    ensures { OnOk result (map input_view inputs.new.items
        ≡ map input_view inputs.old.items ++ selected_inputs (inputs_view files.now)) }
{
    add_organisation(inputs, files)?;
    inputs.push(repository_file(files)?)?;
    Ok(())
}

/// All inputs, the lowest first: the files of tools from the last argument to the first, and then
/// what lies above them.
pub fn collect_inputs<'a>(
    alloc: Global,
    files: &ConfigInputs<'a>,
) -> Result<Vec<SourceInput<'a>>, AllocError>
    ensures { IfOk result
        (λ inputs. map input_view inputs.items ≡ inputs_of (inputs_view files.now)) }
{
    let mut inputs = Vec::new(alloc);
    for file in files.tools {
        inputs.push(tool_source_input(file)?)?;
    }
    inputs.reverse();
    add_selected(&mut inputs, files)?;
    Ok(inputs)
}

/// Refuses a tool's file where the tool has an earlier one.
fn refuse_second(file: &ToolConfigFile, first: Option<&ConfigPath>) -> Result<(), ConfigParseError>
    ensures { (before : List ToolFile)
        → option_map (λ p. path_view p.now) first.entry
        ≡ first_path (tool_name_text file.now.tool) before
        → let t = tool_file_view file.now in
        Found (fault_at_source (tool_source t) (second_cause before t)) (ending result) }
{
    let Some(first) = first else {
        return Ok(());
    };
    let input = tool_source_input(file)?;
    let kind = ConfigParseErrorKind::DuplicateToolConfigFile {
        tool: file.tool.clone()?,
        first: first.clone()?,
    };
    Err(ConfigParseError::at(&input.source, kind))
}

/// Refuses the first file of a tool that has an earlier one. No outcome is looked at.
pub fn refuse_duplicates(alloc: Global, tools: &[ToolConfigFile]) -> Result<(), ConfigParseError>
    ensures { Found (first_fault (tool_steps [] (map tool_file_view tools.now))) (ending result) }
{
    let mut first_path_by_tool: BTreeMap<&ToolName, &ConfigPath> = BTreeMap::new(alloc);
    for file in tools {
        let tool = &file.tool;
        refuse_second(file, first_path_by_tool.get(&tool).copied())?;
        let path = &file.config_file.path;
        first_path_by_tool
            .insert(tool, path)
            .map_err(AllocError::from)?;
    }
    Ok(())
}

/// A copy of an outcome, for its refusal.
fn copied_outcome(outcome: &ReadOutcome) -> Result<ReadOutcome, AllocError>
    ensures { IfOk result (λ copy. outcome_view copy ≡ outcome_view outcome.now) }
{
    match outcome {
        ReadOutcome::Text(text) => Ok(ReadOutcome::Text(text.clone()?)),
        ReadOutcome::NotFound => Ok(ReadOutcome::NotFound),
        ReadOutcome::NotADirectory => Ok(ReadOutcome::NotADirectory),
        ReadOutcome::Failed(message) => Ok(ReadOutcome::Failed(message.clone()?)),
    }
}

/// The text of an input. There is none where the file is missing and may be; any other outcome is
/// refused.
pub fn text_of<'a>(input: &SourceInput<'a>) -> Result<Option<&'a str>, ConfigParseError>
    ensures found { let read = input_view input.now in
        Found (fault_at_source read.source (outcome_cause read.source.kind read.outcome))
        (ending result) }
    ensures text { let read = input_view input.now in
        IfOk result
        (λ text. MatchOption text
        (source_texts_of read ≡ [])
        (λ t. source_texts_of read ≡ record { source = read.source; text = t.now } ∷ [])) }
{
    match input.outcome {
        ReadOutcome::Text(text) => return Ok(Some(text.as_str())),
        ReadOutcome::NotFound | ReadOutcome::NotADirectory => {
            if input.source.kind().may_be_missing() {
                return Ok(None);
            }
        }
        ReadOutcome::Failed(_) => (),
    }
    let kind = ConfigParseErrorKind::ReadError(copied_outcome(input.outcome)?);
    Err(ConfigParseError::at(&input.source, kind))
}
