//! Scripts and their commands as JSON.
ghost use Rattle.std.specs.Prelude.{◌≡◌, IfOk, map, string_bytes};
ghost use Rattle.serde_json.specs.View.{view};
ghost use Rattle.nextest_scripts.specs.EnvMap.{env_view};
ghost use Rattle.nextest_scripts.specs.ScriptId.{script_text};
ghost use Rattle.nextest_scripts.specs.ScriptTexts.{command_view, setup_script_view, wrapper_script_view};
ghost use Rattle.rinqebo_objects.specs.Scripts.{command_data, directories_view, program_in, relative_word, runner_word, setup_script_data, stored_data, variables_data, wrapper_script_data};
ghost use Rattle.rinqebo_objects.specs.Used.{wrappers_used};
ghost use Rattle.rinqebo_objects.specs.Uses.{used_by};
ghost use Rattle.rinqebo_report.specs.Documents.{list_data};

use crate::enabling::optional_tests_json;
use crate::list_use::ListUse;
use crate::values::{names_json, optional_leak_json, optional_slow_json};
use crate::wrappers::is_chosen;
use indexmap::IndexMap;
use nextest_scripts::{
    ScriptCommand, ScriptCommandEnvMap, ScriptCommandRelativeTo, ScriptId, SetupScriptConfig,
    SetupScriptJunitConfig, WrapperScriptConfig, WrapperScriptTargetRunner,
};
use serde_json::{Map, Value, json, put};
use std::alloc::{AllocError, Global};

/// The directories that programs are relative to.
#[derive(Clone, Copy, Debug, Drop)]
pub struct Directories<'a> {
    /// The root of the workspace.
    pub root: &'a str,
    /// The target directory.
    pub target: &'a str,
}

/// The word for what a program is relative to.
fn relative_word(relative_to: ScriptCommandRelativeTo) -> &'static str
    ensures { result.now ≡ relative_word relative_to }
{
    match relative_to {
        ScriptCommandRelativeTo::None => "none",
        ScriptCommandRelativeTo::WorkspaceRoot => "workspace-root",
        ScriptCommandRelativeTo::Target => "target",
    }
}

/// The word for what a wrapper makes of a target runner.
fn runner_word(runner: WrapperScriptTargetRunner) -> &'static str
    ensures { result.now ≡ runner_word runner }
{
    match runner {
        WrapperScriptTargetRunner::Ignore => "ignore",
        WrapperScriptTargetRunner::OverridesWrapper => "overrides-wrapper",
        WrapperScriptTargetRunner::WithinWrapper => "within-wrapper",
        WrapperScriptTargetRunner::AroundWrapper => "around-wrapper",
    }
}

/// The program of a command: joined to the directory that it is relative to, where the directories
/// are given, and else as it is written.
fn program_in(
    alloc: Global,
    directories: Option<Directories<'_>>,
    command: &ScriptCommand,
) -> Result<String, AllocError>
    ensures { IfOk result (λ program. string_bytes program
        ≡ program_in (directories_view directories.entry) (command_view command.now)) }
{
    match directories {
        Some(directories) => command.program(alloc, directories.root, directories.target),
        None => command.program.clone(),
    }
}

/// Variables by their keys.
fn variables_json(alloc: Global, variables: &ScriptCommandEnvMap) -> Result<Value, AllocError>
    ensures { IfOk result (λ value. view value ≡ variables_data (env_view variables.now)) }
{
    let mut members = Map::new(alloc);
    for (key, text) in variables.iter() {
        let value = Value::try_from_str(alloc, text.as_str())?;
        put(&mut members, alloc, key.as_str(), value)?;
    }
    Ok(Value::Object(members))
}

/// A command.
fn command_json(
    alloc: Global,
    directories: Option<Directories<'_>>,
    command: &ScriptCommand,
) -> Result<Value, AllocError>
    ensures { IfOk result (λ value. view value
        ≡ command_data (directories_view directories.entry) (command_view command.now)) }
{
    let program = Value::String(program_in(alloc, directories, command)?);
    let args = names_json(alloc, &command.args)?;
    let env = variables_json(alloc, &command.env)?;
    json!(in alloc; {
        "program": program,
        "args": args,
        "env": env,
        "relative-to": relative_word(command.relative_to)
    })
}

/// What a report keeps of a setup script.
fn stored_json(alloc: Global, stored: SetupScriptJunitConfig) -> Result<Value, AllocError>
    ensures { IfOk result (λ value. view value ≡ stored_data stored) }
{
    json!(in alloc; {
        "store-success-output": stored.store_success_output,
        "store-failure-output": stored.store_failure_output
    })
}

/// A setup script, with the tests of a list that enable it.
fn setup_script_json(
    alloc: Global,
    directories: Option<Directories<'_>>,
    id: &ScriptId,
    script: &SetupScriptConfig,
    list: Option<ListUse<'_, '_>>,
) -> Result<Value, AllocError>
    ensures { let directories = directories_view directories.entry in
        IfOk result (λ value. view value ≡ setup_script_data directories (used_by list.entry)
        (script_text id.now, setup_script_view script.now)) }
{
    let tests = optional_tests_json(alloc, id, list)?;
    let command = command_json(alloc, directories, &script.command)?;
    let slow_timeout = optional_slow_json(alloc, script.slow_timeout)?;
    let leak_timeout = optional_leak_json(alloc, script.leak_timeout)?;
    let junit = stored_json(alloc, script.junit)?;
    json!(in alloc; {
        "id": id.as_identifier().as_str(),
        "command": command,
        "slow-timeout": slow_timeout,
        "leak-timeout": leak_timeout,
        "capture-stdout": script.capture_stdout,
        "capture-stderr": script.capture_stderr,
        "junit": junit,
        "tests": tests
    })
}

/// Setup scripts, in the order in which they run, with the tests of a list that enable each.
pub(crate) fn setup_scripts_json(
    alloc: Global,
    directories: Option<Directories<'_>>,
    scripts: &IndexMap<ScriptId, SetupScriptConfig>,
    list: Option<ListUse<'_, '_>>,
) -> Result<Value, AllocError>
    ensures { let directories = directories_view directories.entry in
        IfOk result (λ value. view value
        ≡ list_data (setup_script_data directories (used_by list.entry))
        (map (λ e. (script_text e.0, setup_script_view e.1)) scripts.now.entries)) }
{
    let mut entries = Vec::new(alloc);
    for (id, script) in scripts.iter() {
        let entry = setup_script_json(alloc, directories, id, script, list)?;
        entries.push(entry)?;
    }
    Ok(Value::Array(entries))
}

/// A wrapper script.
fn wrapper_script_json(
    alloc: Global,
    directories: Option<Directories<'_>>,
    id: &ScriptId,
    script: &WrapperScriptConfig,
) -> Result<Value, AllocError>
    ensures { IfOk result (λ value. view value ≡ wrapper_script_data (directories_view directories.entry)
        (script_text id.now, wrapper_script_view script.now)) }
{
    let command = command_json(alloc, directories, &script.command)?;
    json!(in alloc; {
        "id": id.as_identifier().as_str(),
        "command": command,
        "target-runner": runner_word(script.target_runner)
    })
}

/// Wrapper scripts, in the order in which they are defined: those that a list uses; all without a
/// list.
pub(crate) fn wrapper_scripts_json(
    alloc: Global,
    directories: Option<Directories<'_>>,
    scripts: &IndexMap<ScriptId, WrapperScriptConfig>,
    list: Option<ListUse<'_, '_>>,
) -> Result<Value, AllocError>
    ensures { let directories = directories_view directories.entry in
        IfOk result (λ value. view value ≡ list_data (wrapper_script_data directories)
        (wrappers_used (used_by list.entry)
        (map (λ e. (script_text e.0, wrapper_script_view e.1)) scripts.now.entries))) }
{
    let mut entries = Vec::new(alloc);
    for (id, script) in scripts.iter() {
        if is_chosen(list, id) {
            entries.push(wrapper_script_json(alloc, directories, id, script)?)?;
        }
    }
    Ok(Value::Array(entries))
}
