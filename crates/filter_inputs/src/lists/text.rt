//! Reading a list of tests.
ghost use Rattle.std.specs.Prelude.{◌≡◌, None, IfOk, IfErr, IfSome, option_map, string_bytes};
ghost use Rattle.serde_json.specs.Errors.{IsMemory};
ghost use Rattle.serde_json.specs.View.{view};
ghost use Rattle.filter_inputs.specs.Lists.Demands.{demands, first_fault, not_json};
ghost use Rattle.filter_inputs.specs.Lists.Faults.{fault_view, TellsFirst};
ghost use Rattle.filter_inputs.specs.Lists.Lists.{IsListOf, target_directory_in};
ghost use Rattle.filter_inputs.specs.Lists.ListView.{list_view};
ghost use Rattle.filter_inputs.specs.Lists.Reading.{IsListIn, IsFaultIn};

use crate::lists::fault::ListFault;
use crate::lists::list::ListedTests;
use crate::lists::list_reader::list_in;
use crate::lists::platforms::triples_of;
use crate::lists::suites::binaries_of;
use crate::lists::tokens::Stop;
use serde_json::{Error, Value};
use std::alloc::{AllocError, Global};

/// Returns a copy of a string, if there is one.
pub fn copied(alloc: Global, text: Option<&str>) -> Result<Option<String>, AllocError>
    ensures { IfOk result (λ copy. option_map string_bytes copy
        ≡ option_map (λ text. text.now) text.entry) }
{
    match text {
        Some(text) => Ok(Some(String::from_str(alloc, text)?)),
        None => Ok(None),
    }
}

/// Returns the target directory of the build, if a document has it.
pub fn target_directory_in(document: &Value) -> Option<&str>
    ensures { option_map (λ text. text.now) result ≡ target_directory_in (view document.now) }
{
    let meta = document.get("rust-build-meta")?;
    meta.get("target-directory")?.as_str()
}

/// Reads the tests that a document lists.
fn tests_in(alloc: Global, document: &Value) -> Result<ListedTests, ListFault>
    ensures ok { IfOk result (λ list. IsListOf (view document.now) (list_view list)) }
    ensures met { IfOk result (λ _. first_fault (demands (view document.now)) ≡ None) }
    ensures err { IfErr result (TellsFirst (demands (view document.now))) }
{
    let triples = triples_of(alloc, document)?;
    let binaries = binaries_of(alloc, document)?;
    Ok(ListedTests {
        host: copied(alloc, triples.host)?,
        target: copied(alloc, triples.target)?,
        target_directory: copied(alloc, target_directory_in(document))?,
        binaries,
    })
}

/// Returns the fault of a text that isn't JSON, or of a failed allocation.
fn fault_of(error: &Error) -> ListFault
    ensures { IfSome (fault_view result) (λ fault. (¬ IsMemory error.now) × (fault ≡ not_json)) }
{
    if error.is_memory() {
        return ListFault::Memory;
    }
    ListFault::NotJson {
        line: error.line(),
        column: error.column(),
    }
}

/// Reads the tests that a text lists, from the value of the text.
fn tests_by_value(alloc: Global, text: &str) -> Result<ListedTests, ListFault>
    ensures tests { IfOk result (λ list. IsListIn text.now (list_view list)) }
    ensures fault { IfErr result (λ fault. IfSome (fault_view fault) (IsFaultIn text.now)) }
{
    match Value::from_str(alloc, text) {
        Ok(document) => tests_in(alloc, &document),
        Err(error) => Err(fault_of(&error)),
    }
}

/// Reads the tests from the JSON that `cargo nextest list --message-format json` prints.
///
/// Suites and test cases are in the order of the bytes of their keys. If there are several targets,
/// the first one counts. A test is ignored if the member `ignored` of its case is `true`. Members
/// that a list of tests doesn't need have no effect.
///
/// A list takes no value of the whole text. Only a text with a fault is read into one.
///
/// # Errors
///
/// Returns the first fault in this order: the text isn't JSON; the triple of the host, the targets
/// and the triple of the first one, if `rust-build-meta` has `platforms` that aren't `null`;
/// `rust-suites`; for each suite that it is an object, and its `package-name`, `package-id`,
/// `binary-id`, `binary-name`, `kind`, `build-platform` and `testcases`. Returns
/// [`ListFault::Memory`] if an allocation fails.
pub fn tests_of(alloc: Global, text: &str) -> Result<ListedTests, ListFault>
    ensures tests { IfOk result (λ list. IsListIn text.now (list_view list)) }
    ensures fault { IfErr result (λ fault. IfSome (fault_view fault) (IsFaultIn text.now)) }
{
    match list_in(alloc, text) {
        Ok(list) => Ok(list),
        Err(Stop::Memory) => Err(ListFault::Memory),
        Err(Stop::Refused) => tests_by_value(alloc, text),
    }
}
