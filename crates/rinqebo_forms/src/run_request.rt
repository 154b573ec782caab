//! Reading a request for a whole run from JSON.
ghost use Rattle.std.specs.Prelude.{◌≡◌};
ghost use Rattle.serde_json.specs.View.{view};
ghost use Rattle.rinqebo_forms.specs.Reading.{Reads};
ghost use Rattle.rinqebo_forms.specs.Runs.{mode_at, mode_of, run_in, run_of, run_view};

use crate::fault::{ExpectedValue, FieldPlace, RequestFault};
use crate::request::{LoadRequest, at};
use crate::values::string_at;
use nextest_elements::NextestRunMode;
use serde_json::Value;
use std::alloc::Global;

/// A request for a whole run: the settings of a profile for each test of a list.
#[derive(Drop)]
pub struct RunRequest {
    /// The request for the session.
    pub load: LoadRequest,
    /// The name of the profile.
    pub profile: String,
    /// The mode of the run.
    pub mode: NextestRunMode,
    /// The output of `cargo nextest list --message-format json`.
    pub list: String,
}

/// Returns the mode that a word names.
fn mode_of(word: &str) -> Option<NextestRunMode>
    ensures { result ≡ mode_of word.now }
{
    if word == "test" {
        Some(NextestRunMode::Test)
    } else if word == "benchmark" {
        Some(NextestRunMode::Benchmark)
    } else {
        None
    }
}

/// Reads the mode that the word at a path names.
fn mode_at(value: &Value, place: FieldPlace) -> Result<NextestRunMode, RequestFault>
    ensures { Reads (λ mode. mode) result (mode_at place.key.now (view value.now)) }
{
    match mode_of(place.of(value).text()?) {
        Some(mode) => Ok(mode),
        None => Err(RequestFault::Expected(ExpectedValue::Mode, place)),
    }
}

impl RunRequest {
    /// Reads a request from a JSON value.
    #[tactic(auto, unfolding(crate::specs::Runs::run_in))]
    fn from_value(alloc: Global, value: &Value) -> Result<RunRequest, RequestFault>
        ensures { Reads run_view result (run_in (view value.now)) }
    {
        let profile = string_at(alloc, value, at("profile"))?;
        let mode = mode_at(value, at("mode"))?;
        let list = string_at(alloc, value, at("list"))?;
        let load = LoadRequest::from_value(alloc, value)?;
        Ok(RunRequest {
            load,
            profile,
            mode,
            list,
        })
    }

    /// Reads a request from JSON. Members that a request doesn't have are ignored.
    pub fn read(alloc: Global, text: &str) -> Result<RunRequest, RequestFault>
        ensures { Reads run_view result (run_of text.now) }
    {
        match Value::from_str(alloc, text) {
            Ok(value) => RunRequest::from_value(alloc, &value),
            Err(error) if error.is_memory() => Err(RequestFault::Memory),
            Err(_) => Err(RequestFault::NotJson),
        }
    }
}
