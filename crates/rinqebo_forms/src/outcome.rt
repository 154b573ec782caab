//! Reads, from the JSON of a request, whether each file was read and what it holds.
ghost use Rattle.std.specs.Prelude.{◌≡◌};
ghost use Rattle.serde_json.specs.View.{view};
ghost use Rattle.nextest_sources.specs.Sources.{outcome_view};
ghost use Rattle.rinqebo_forms.specs.Reading.{Reads};
ghost use Rattle.rinqebo_forms.specs.Requests.{kind_at, kind_of, outcome_in, outcome_of};

use crate::fault::{ExpectedValue, FieldPlace, Holder, RequestFault};
use crate::values::string_at;
use nextest_sources::ReadOutcome;
use serde_json::Value;
use std::alloc::Global;

/// The outcome of reading a file, without its text.
#[derive(Clone, Copy, Debug, PartialEq, Eq)]
pub enum OutcomeKind {
    /// The file was read.
    Text,
    /// The file doesn't exist.
    NotFound,
    /// A part of its path that should be a directory isn't one.
    NotADirectory,
    /// Reading failed in another way.
    Failed,
}

/// Returns the kind of outcome that a word names.
fn kind_of(word: &str) -> Option<OutcomeKind>
    ensures { result ≡ kind_of word.now }
{
    if word == "text" {
        Some(OutcomeKind::Text)
    } else if word == "not-found" {
        Some(OutcomeKind::NotFound)
    } else if word == "not-a-directory" {
        Some(OutcomeKind::NotADirectory)
    } else if word == "failed" {
        Some(OutcomeKind::Failed)
    } else {
        None
    }
}

/// Reads the kind of outcome that the word at a path names.
fn kind_at(value: &Value, place: FieldPlace) -> Result<OutcomeKind, RequestFault>
    ensures { Reads (λ kind. kind) result (kind_at place.key.now (view value.now)) }
{
    match kind_of(place.of(value).text()?) {
        Some(kind) => Ok(kind),
        None => Err(RequestFault::Expected(ExpectedValue::Outcome, place)),
    }
}

/// Reads an outcome of a kind, with the value of `text`.
fn outcome_of(
    alloc: Global,
    kind: OutcomeKind,
    value: &Value,
    holder: Holder,
) -> Result<ReadOutcome, RequestFault>
    ensures { Reads outcome_view result (outcome_of kind (view value.now)) }
{
    let place = holder.at("text");
    match kind {
        OutcomeKind::Text => Ok(ReadOutcome::Text(string_at(alloc, value, place)?)),
        OutcomeKind::NotFound => {
            place.of(value).null()?;
            Ok(ReadOutcome::NotFound)
        }
        OutcomeKind::NotADirectory => {
            place.of(value).null()?;
            Ok(ReadOutcome::NotADirectory)
        }
        OutcomeKind::Failed => Ok(ReadOutcome::Failed(string_at(alloc, value, place)?)),
    }
}

/// Reads the outcome of reading a file from `outcome` and `text` of an object.
pub fn outcome_in(alloc: Global, value: &Value, holder: Holder) -> Result<ReadOutcome, RequestFault>
    ensures { Reads outcome_view result (outcome_in (view value.now)) }
{
    let place = holder.at("outcome");
    outcome_of(alloc, kind_at(value, place)?, value, holder)
}
