//! Filters, and their values at tests.
//!
//! A row has nine columns with tabs between: the text of a filter, for what it is read (`override`,
//! `default` or `test`), of a test the id of its package, the id, kind and name of its binary, the
//! platform (`host` or `target`) and its name, and the text of the default filter, where an empty one is
//! `all()`. In a column `\n`, `\t`, `\r` and `\\` are written for characters. A row that is the word
//! `graph`, a tab and the JSON of `cargo metadata` gives the packages of the workspace for the rows
//! below, and prints nothing.
//!
//! Each other row is printed with a tab behind it, and then, with tabs between,
//!
//! | Result | Printed |
//! |---|---|
//! | the text is refused | `refused`, the name of the fault, where it starts and how long it is, in bytes |
//! | a filter | `ok`, whether it matches the test, whether it matches the binary, the reading, and the parts that only a test can decide |
//!
//! Whether it matches the binary may also be `unknown`. The texts of a reading and those parts are in
//! double quotes, in which `\n`, `\r`, `\t`, `\"` and `\\` are written for characters.
use crate::escapes::{Escapes, push_escaped, unescaped};
use crate::row::{RowError, name_of};
use filter_engine::{
    FieldMatcher, Filterset, FiltersetFault, NextestFilters, PackageGraph, ParseFault,
};
use nextest_engines::{BinaryQuery, BuildPlatform, FiltersetKind, TestQuery};
use std::alloc::{AllocError, Global};

/// What is printed for a row, unless it is of packages.
pub fn answer_to(
    alloc: Global,
    filters: &mut NextestFilters,
    row: &str,
) -> Result<Option<String>, RowError> {
    match row.strip_prefix("graph\t") {
        Some(metadata) => match PackageGraph::from_metadata(alloc, metadata) {
            Ok(graph) => {
                *filters = NextestFilters::with_graph(graph);
                Ok(None)
            }
            Err(fault) => Err(RowError::NoGraph(fault)),
        },
        None => {
            let answer = answer(alloc, filters, row)?;
            Ok(Some(format!(in alloc; "{row}\t{answer}")?))
        }
    }
}

/// The result of reading the filter of a row, and of evaluating it.
fn answer(alloc: Global, filters: &NextestFilters, row: &str) -> Result<String, RowError> {
    let mut columns = Vec::new(alloc);
    for column in row.split('\t') {
        columns.push(unescaped(alloc, column, Escapes::Named)?)?;
    }
    let [
        text,
        kind,
        package_id,
        binary_id,
        binary_kind,
        binary_name,
        platform,
        test_name,
        default,
    ] = columns.as_slice()
    else {
        return Err(RowError::NoRow);
    };
    let query = TestQuery {
        binary_query: BinaryQuery {
            package_id: package_id.as_str(),
            binary_id: binary_id.as_str(),
            kind: binary_kind.as_str(),
            binary_name: binary_name.as_str(),
            platform: platform_of(platform.as_str())?,
        },
        test_name: test_name.as_str(),
    };
    let default = default_filter(alloc, filters, default.as_str())?;
    match Filterset::parse(filters, alloc, text.as_str(), kind_of(kind.as_str())?) {
        Ok(filter) => Ok(matches(alloc, &filter, &default, &query)?),
        Err(ParseFault::Refused(fault)) => Ok(refusal(alloc, fault)?),
        Err(ParseFault::Memory) => Err(RowError::Memory),
    }
}

fn kind_of(name: &str) -> Result<FiltersetKind, RowError> {
    match name {
        "override" => Ok(FiltersetKind::OverrideFilter),
        "default" => Ok(FiltersetKind::DefaultFilter),
        "test" => Ok(FiltersetKind::Test),
        _ => Err(RowError::NoRow),
    }
}

fn platform_of(name: &str) -> Result<BuildPlatform, RowError> {
    match name {
        "host" => Ok(BuildPlatform::Host),
        "target" => Ok(BuildPlatform::Target),
        _ => Err(RowError::NoRow),
    }
}

/// The default filter of a text, where an empty one is `all()`.
fn default_filter(
    alloc: Global,
    filters: &NextestFilters,
    text: &str,
) -> Result<Filterset<FieldMatcher>, RowError> {
    if text.is_empty() {
        return Ok(Filterset::Everything);
    }
    match Filterset::parse(filters, alloc, text, FiltersetKind::DefaultFilter) {
        Ok(filter) => Ok(filter),
        Err(ParseFault::Refused(_)) => Err(RowError::NoRow),
        Err(ParseFault::Memory) => Err(RowError::Memory),
    }
}

/// The values of a filter at a test and at its binary, how it was read, and the parts that only a
/// test can decide.
fn matches(
    alloc: Global,
    filter: &Filterset<FieldMatcher>,
    default: &Filterset<FieldMatcher>,
    query: &TestQuery<'_>,
) -> Result<String, AllocError> {
    let test = filter.matches_test::<NextestFilters>(query, default);
    let binary = filter.matches_binary::<NextestFilters>(&query.binary_query, default);
    let binary = name_of(binary);
    let mut line = format!(in alloc; "ok\t{test}\t{binary}\t{filter}\t")?;
    let leaves = filter.runtime_only_leaves::<NextestFilters>(alloc)?;
    for (place, leaf) in leaves.iter().enumerate() {
        if place > 0 {
            line.push(' ')?;
        }
        push_quoted(&mut line, leaf.as_str())?;
    }
    Ok(line)
}

/// Adds a text in double quotes.
fn push_quoted(line: &mut String, text: &str) -> Result<(), AllocError> {
    line.push('"')?;
    for character in text.chars() {
        match character {
            '"' => line.push_str("\\\"")?,
            other => push_escaped(line, other)?,
        }
    }
    line.push('"')
}

/// A fault by its name, and the bytes of the text where it is.
fn refusal(alloc: Global, fault: FiltersetFault) -> Result<String, AllocError> {
    let name = fault.kind.name();
    let start = fault.span.start;
    let length = fault.span.length;
    format!(in alloc; "refused\t{name}\t{start}\t{length}")
}
