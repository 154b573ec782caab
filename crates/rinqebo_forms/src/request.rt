//! Reading a request for a session from JSON.
ghost use Rattle.std.specs.Prelude.{◌≡◌, IfOk, MatchResult, map, option_map, string_bytes};
ghost use Rattle.serde_json.specs.View.{view};
ghost use Rattle.nextest_sources.specs.Sources.{file_view, tool_file_view};
ghost use Rattle.rinqebo_forms.specs.Reading.{Reads};
ghost use Rattle.rinqebo_forms.specs.Requests.{config_file_in, file_in, tool_in, tools_in, machine_in, machine_view, switches_in, target_in, target_directory_in, request_in, request_view, request_of, organisation_file_in, tool_name_in};
ghost use Rattle.nextest_elements.specs.IdentifierText.{tool_name_text};

use crate::fault::{ExpectedValue, FieldPlace, Holder, RequestFault};
use crate::outcome::outcome_in;
use crate::values::{optional_string_at, string_at};
use nextest_elements::{InvalidIdentifier, ToolName};
use nextest_sources::{ConfigPath, ConfigPaths, FileInput, ToolConfigFile};
use serde_json::Value;
use std::alloc::Global;

/// A machine: its triple, and what the compiler prints for it, if that is given.
#[derive(Debug, Drop)]
pub struct Machine {
    /// The triple of the machine.
    pub triple: String,
    /// What `rustc --print cfg` prints for it.
    pub cfg: Option<String>,
}

/// Which experimental features are switched on.
#[derive(Clone, Copy, Debug, PartialEq, Eq, Drop)]
pub struct Switches {
    /// Scripts that run before tests.
    pub setup_scripts: bool,
    /// Scripts that run in place of tests, and run them.
    pub wrapper_scripts: bool,
}

/// A request for a session: the inputs from which it is loaded.
#[derive(Drop)]
pub struct LoadRequest {
    /// The workspace's root, and the repository's own file.
    pub paths: ConfigPaths,
    /// The file that a user names in place of the repository's own, if any.
    pub config_file: Option<FileInput>,
    /// The organisation's file, if a user names one.
    pub organisation_file: Option<FileInput>,
    /// The files of tools, from the highest priority to the lowest.
    pub tools: Vec<ToolConfigFile>,
    /// The experimental features that are switched on.
    pub features: Switches,
    /// The output of `cargo metadata`, if it is given.
    pub metadata: Option<String>,
    /// The host.
    pub host: Machine,
    /// The target, if it isn't the host.
    pub target: Option<Machine>,
    /// The target directory, to which programs of scripts may be relative, if it is given.
    pub target_directory: Option<String>,
}

/// Reads the file that an object describes.
fn file_in(alloc: Global, value: &Value, holder: Holder) -> Result<FileInput, RequestFault>
    ensures { Reads file_view result (file_in (view value.now)) }
{
    let path = holder.at("path").of(value).text()?;
    let outcome = outcome_in(alloc, value, holder)?;
    Ok(FileInput {
        path: ConfigPath::new(alloc, path)?,
        outcome,
    })
}

/// The repository's file that a user named, if the object says one.
fn config_file_in(alloc: Global, value: &Value) -> Result<Option<FileInput>, RequestFault>
    ensures { Reads (λ file. option_map file_view file) result
        (config_file_in (view value.now)) }
{
    let place = FieldPlace {
        holder: Holder::Request,
        key: "config-file",
    };
    match place.of(value).optional_object()? {
        Some(file) => Ok(Some(file_in(alloc, file, Holder::ConfigFile)?)),
        None => Ok(None),
    }
}

/// The organisation's file, if the object says one.
fn organisation_file_in(alloc: Global, value: &Value) -> Result<Option<FileInput>, RequestFault>
    ensures { Reads (λ file. option_map file_view file) result
        (organisation_file_in (view value.now)) }
{
    let place = FieldPlace {
        holder: Holder::Request,
        key: "organisation-config-file",
    };
    match place.of(value).optional_object()? {
        Some(file) => Ok(Some(file_in(alloc, file, Holder::OrganisationConfigFile)?)),
        None => Ok(None),
    }
}

/// Reads the name of a tool from an object.
fn tool_name_in(alloc: Global, value: &Value, holder: Holder) -> Result<ToolName, RequestFault>
    ensures { Reads tool_name_text result (tool_name_in (view value.now)) }
{
    let place = holder.at("tool");
    match ToolName::new(alloc, place.of(value).text()?) {
        Ok(name) => Ok(name),
        Err(InvalidIdentifier::Memory) => Err(RequestFault::Memory),
        Err(_) => Err(RequestFault::Expected(ExpectedValue::ToolName, place)),
    }
}

/// Reads the file of a tool from an object.
fn tool_in(alloc: Global, value: &Value, place: usize) -> Result<ToolConfigFile, RequestFault>
    ensures { Reads tool_file_view result (tool_in (view value.now)) }
{
    let holder = Holder::Tool(place);
    let tool = tool_name_in(alloc, value, holder)?;
    let config_file = file_in(alloc, value, holder)?;
    Ok(ToolConfigFile { tool, config_file })
}

/// Reads the files of tools from an array.
fn tools_in(alloc: Global, values: &[Value]) -> Result<Vec<ToolConfigFile>, RequestFault>
    ensures { Reads (λ tools. map tool_file_view tools.items) result
        (tools_in (map view values.now)) }
{
    let mut tools = Vec::new(alloc);
    for (place, value) in values.iter().enumerate() {
        let tool = tool_in(alloc, value, place)?;
        tools.push(tool)?;
    }
    Ok(tools)
}

/// Reads the machine that an object describes.
fn machine_in(alloc: Global, value: &Value, holder: Holder) -> Result<Machine, RequestFault>
    ensures { Reads machine_view result (machine_in (view value.now)) }
{
    let triple = string_at(alloc, value, holder.at("triple"))?;
    let cfg = optional_string_at(alloc, value, holder.at("cfg"))?;
    Ok(Machine { triple, cfg })
}

/// Reads the target, which may be `null`.
fn target_in(alloc: Global, value: &Value) -> Result<Option<Machine>, RequestFault>
    ensures { Reads (λ target. option_map machine_view target) result
        (target_in (view value.now)) }
{
    match at("target").of(value).optional_object()? {
        Some(target) => Ok(Some(machine_in(alloc, target, Holder::Target)?)),
        None => Ok(None),
    }
}

/// Reads the target directory, which may be `null`, or not be there.
fn target_directory_in(alloc: Global, value: &Value) -> Result<Option<String>, RequestFault>
    ensures { Reads (λ directory. option_map string_bytes directory) result
        (target_directory_in (view value.now)) }
{
    match value.get("target-directory") {
        Some(_) => optional_string_at(alloc, value, at("target-directory")),
        None => Ok(None),
    }
}

/// Reads the features that an object switches on.
fn switches_in(value: &Value) -> Result<Switches, RequestFault>
    ensures { Reads (λ switches. switches) result (switches_in (view value.now)) }
{
    let holder = Holder::Features;
    let setup_scripts = FieldPlace {
        holder,
        key: "setup-scripts",
    };
    let wrapper_scripts = FieldPlace {
        holder,
        key: "wrapper-scripts",
    };
    Ok(Switches {
        setup_scripts: setup_scripts.of(value).flag()?,
        wrapper_scripts: wrapper_scripts.of(value).flag()?,
    })
}

/// Returns the path of a key of a request.
pub(crate) fn at(key: &'static str) -> FieldPlace
    ensures { result.key.now ≡ key.now }
{
    Holder::Request.at(key)
}

impl LoadRequest {
    /// Reads a request from a JSON value.
    #[tactic(auto, unfolding(crate::specs::Requests::request_in))]
    pub(crate) fn from_value(alloc: Global, value: &Value) -> Result<LoadRequest, RequestFault>
        ensures { Reads request_view result (request_in (view value.now)) }
    {
        let workspace_root = string_at(alloc, value, at("root"))?;
        let shared = file_in(alloc, at("file").of(value).object()?, Holder::File)?;
        let config_file = config_file_in(alloc, value)?;
        let organisation_file = organisation_file_in(alloc, value)?;
        let tools = tools_in(alloc, at("tools").of(value).list()?)?;
        let features = switches_in(at("features").of(value).object()?)?;
        let metadata = optional_string_at(alloc, value, at("metadata"))?;
        let host = machine_in(alloc, at("host").of(value).object()?, Holder::Host)?;
        let target = target_in(alloc, value)?;
        let target_directory = target_directory_in(alloc, value)?;
        let paths = ConfigPaths {
            workspace_root,
            shared,
        };
        Ok(LoadRequest {
            paths,
            config_file,
            organisation_file,
            tools,
            features,
            metadata,
            host,
            target,
            target_directory,
        })
    }

    /// Reads a request from JSON. Members that a request doesn't have are ignored.
    pub fn read(alloc: Global, text: &str) -> Result<LoadRequest, RequestFault>
        ensures { Reads request_view result (request_of text.now) }
    {
        match Value::from_str(alloc, text) {
            Ok(value) => LoadRequest::from_value(alloc, &value),
            Err(error) if error.is_memory() => Err(RequestFault::Memory),
            Err(_) => Err(RequestFault::NotJson),
        }
    }
}
