//! The list of tests that a run is about, and the triples of its build.
ghost use Rattle.std.specs.Prelude.{◌≡◌, [], IfErr, IfOk, IfSome, IsTrue, option_map, string_bytes, unwrap_or};
ghost use Rattle.filter_inputs.specs.Lists.Demands.{not_json};
ghost use Rattle.filter_inputs.specs.Lists.Faults.{fault_view};
ghost use Rattle.filter_inputs.specs.Lists.ListView.{list_view};
ghost use Rattle.filter_inputs.specs.Lists.Reading.{IsFaultIn};
ghost use Rattle.rinqebo_load.specs.InputFaults.{IsBlank, IsFaultOfList, IsListFault, OrMemory};
ghost use Rattle.rinqebo_load.specs.ListPath.{path_of};
ghost use Rattle.rinqebo_load.specs.Triples.{host_for, host_source, target_for, target_source, IsListFor};

use crate::fault::{InputFault, TripleSource};
use filter_inputs::{ListFault, ListedTests, tests_of};
use rinqebo_request::{EngineOptions, FileOption, Gathered, HOST, NamedFile};
use std::alloc::{AllocError, Global};

/// The triples of a build.
#[derive(Drop)]
pub struct Triples {
    /// That of the host.
    pub host: String,
    /// That of the target. Without one, what is built for it runs on the host.
    pub target: Option<String>,
    /// What gives the triple of the host.
    pub host_source: TripleSource,
    /// What gives the triple of the target.
    pub target_source: TripleSource,
}

/// Whether a text is white space alone.
fn is_blank(text: &str) -> bool
    ensures { IsTrue result → IsBlank text.now }
{
    text.trim().is_empty()
}

/// The text of a path. Without a path it is empty.
fn text_of(alloc: Global, path: Option<&str>) -> Result<String, AllocError>
    ensures { IfOk result (λ text. string_bytes text ≡ unwrap_or (path_of path.entry) []) }
{
    match path {
        Some(path) => String::from_str(alloc, path),
        None => Ok(String::new(alloc)),
    }
}

/// The fault of a list that was read from a path, whose text is not JSON from this place on. A text
/// of white space alone is an empty list.
fn fault_of_text(
    alloc: Global,
    path: Option<&str>,
    text: &str,
    line: usize,
    column: usize,
) -> Result<InputFault, AllocError>
    requires { IsFaultIn text.now not_json }
    ensures { IfOk result (OrMemory (IsFaultOfList (path_of path.entry) text.now)) }
{
    if is_blank(text) {
        let file = NamedFile::new(alloc, path, FileOption::List)?;
        return Ok(InputFault::EmptyList(file));
    }
    let named = text_of(alloc, path)?;
    Ok(InputFault::List(named, ListFault::NotJson { line, column }))
}

/// The fault of a list that was read from a path, for why its text is none.
fn fault_of_list(
    alloc: Global,
    path: Option<&str>,
    text: &str,
    fault: ListFault,
) -> Result<InputFault, AllocError>
    requires { IfSome (fault_view fault) (IsFaultIn text.now) }
    ensures { IfOk result (OrMemory (IsFaultOfList (path_of path.entry) text.now)) }
{
    match fault {
        ListFault::Memory => Ok(InputFault::Memory),
        ListFault::NotJson { line, column } => fault_of_text(alloc, path, text, line, column),
        fault => Ok(InputFault::List(text_of(alloc, path)?, fault)),
    }
}

/// The tests of the list that was read from a path: without a list there are none.
pub fn listed_tests(
    alloc: Global,
    path: Option<&str>,
    gathered: &Gathered,
) -> Result<ListedTests, InputFault>
    ensures ok { IfOk result (IsListFor gathered.now.list) }
    ensures err { IfErr result
        (OrMemory (IsListFault (path_of path.entry) gathered.now.list)) }
{
    let Some(text) = &gathered.list else {
        return Ok(ListedTests {
            host: None,
            target: None,
            target_directory: None,
            binaries: Vec::new(alloc),
        });
    };
    let text = text.as_str();
    match tests_of(alloc, text) {
        Ok(tests) => Ok(tests),
        Err(fault) => Err(fault_of_list(alloc, path, text, fault)?),
    }
}

/// The triple of the host.
fn host_for<'a>(
    options: &EngineOptions<'a>,
    printed: Option<&'a str>,
    tests: &'a ListedTests,
) -> &'a str
    ensures { result.now ≡ host_for options.now (option_map (λ host. host.now) printed.entry)
        (list_view tests.now) }
{
    if let Some(host) = options.host {
        return host;
    }
    if let Some(host) = printed {
        return host;
    }
    match &tests.host {
        Some(host) => host.as_str(),
        None => HOST,
    }
}

/// What gives the triple of the host.
fn host_source(
    options: &EngineOptions<'_>,
    printed: Option<&str>,
    tests: &ListedTests,
) -> TripleSource
    ensures { result ≡ host_source options.now (option_map (λ host. host.now) printed.entry)
        (list_view tests.now) }
{
    if options.host.is_some() {
        TripleSource::Host
    } else if printed.is_some() {
        TripleSource::RustcVersion
    } else if tests.host.is_some() {
        TripleSource::List
    } else {
        TripleSource::Fallback
    }
}

/// The triple of the target of a list, if it has one.
fn listed_target(tests: &ListedTests) -> Option<&str>
    ensures { option_map (λ target. target.now) result
        ≡ option_map string_bytes tests.now.target }
{
    match &tests.target {
        Some(target) => Some(target.as_str()),
        None => None,
    }
}

/// The triple of the target, if there is one.
fn target_for<'a>(options: &EngineOptions<'a>, tests: &'a ListedTests) -> Option<&'a str>
    ensures { option_map (λ target. target.now) result
        ≡ target_for options.now (list_view tests.now) }
{
    if options.target.is_some() {
        return options.target;
    }
    if tests.host.is_some() {
        return listed_target(tests);
    }
    options.build_target
}

/// What gives the triple of the target.
fn target_source(options: &EngineOptions<'_>, tests: &ListedTests) -> TripleSource
    ensures { result ≡ target_source options.now (list_view tests.now) }
{
    if options.target.is_some() {
        TripleSource::Target
    } else if tests.host.is_some() {
        TripleSource::List
    } else if options.build_target.is_some() {
        TripleSource::Variable
    } else {
        TripleSource::Fallback
    }
}

/// A copy of a text, if there is one.
fn copied(alloc: Global, text: Option<&str>) -> Result<Option<String>, AllocError>
    ensures { IfOk result (λ copy. option_map string_bytes copy
        ≡ option_map (λ text. text.now) text.entry) }
{
    match text {
        Some(text) => Ok(Some(String::from_str(alloc, text)?)),
        None => Ok(None),
    }
}

/// The triples of a build: those that words name, else, for the host, the one that the compiler
/// prints of itself, else those of the list of tests.
pub fn triples_for(
    alloc: Global,
    options: &EngineOptions<'_>,
    printed: Option<&str>,
    tests: &ListedTests,
) -> Result<Triples, AllocError>
    ensures host { IfOk result (λ triples. string_bytes triples.host
        ≡ host_for options.now (option_map (λ host. host.now) printed.entry)
        (list_view tests.now)) }
    ensures target { IfOk result (λ triples.
        option_map string_bytes triples.target ≡ target_for options.now (list_view tests.now)) }
    ensures host_source { IfOk result (λ triples. triples.host_source
        ≡ host_source options.now (option_map (λ host. host.now) printed.entry)
        (list_view tests.now)) }
    ensures target_source { IfOk result (λ triples.
        triples.target_source ≡ target_source options.now (list_view tests.now)) }
{
    Ok(Triples {
        host: String::from_str(alloc, host_for(options, printed, tests))?,
        target: copied(alloc, target_for(options, tests))?,
        host_source: host_source(options, printed, tests),
        target_source: target_source(options, tests),
    })
}
