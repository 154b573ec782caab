//! The rows of a whole run, from the texts of files on.
use crate::lines::{Call, Lines, once_more, override_text};
use crate::run::{ENGINES, Run};
use nextest_config::run::{Inputs, PlainSource, ResolveFault, TestRow, resolve};
use nextest_config::{DefaultConfigWarnings, NextestRunMode, Setting};
use nextest_explain::engines::filters::ToyTally;
use std::alloc::{AllocError, Global};
use std::fmt::Debug;

/// Adds how many rows the tests of a case have, and what some settings of each are.
pub fn add_rows(run: &Run<'_>, lines: &mut Lines<'_>) {
    match once_more!(lines, Resolve, Err(ResolveFault::Memory), rows_of(run)) {
        Ok(rows) => {
            lines.add("rows", &rows.len());
            for row in &rows {
                add_row(run.alloc, lines, row);
            }
        }
        Err(fault) => lines.add("no-rows", &fault),
    }
}

/// Adds two settings of a row with their sources.
fn add_row(alloc: Global, lines: &mut Lines<'_>, row: &TestRow) {
    let threads = &row.threads_required;
    let source = source_text(alloc, row.source(Setting::ThreadsRequired));
    add_setting(lines, "row-threads", threads, source);
    let source = source_text(alloc, row.source(Setting::Retries));
    add_setting(lines, "row-retries", &row.retries, source);
}

/// Adds a setting with what decides it.
fn add_setting<V: Debug>(
    lines: &mut Lines<'_>,
    name: &str,
    value: &V,
    source: Result<String, AllocError>,
) {
    if let Some(source) = lines.made(source) {
        lines.add(name, &(value, source));
    }
}

/// What decides a setting of a row.
fn source_text(alloc: Global, source: Option<&PlainSource>) -> Result<String, AllocError> {
    let word = match source {
        None => "none",
        Some(PlainSource::Default) => "default",
        Some(PlainSource::Profile) => "profile",
        Some(PlainSource::Script) => "script",
        Some(
            PlainSource::Override {
                source,
                profile,
                index,
            },
        ) => return override_text(alloc, source, profile.as_str(), *index),
    };
    String::from_str(alloc, word)
}

/// The rows of a case's tests in a profile.
fn rows_of(run: &Run<'_>) -> Result<Vec<TestRow>, ResolveFault> {
    let case = run.case;
    let inputs = Inputs {
        paths: &case.paths,
        selection: run.selection(),
        tools: &case.tools,
        features: run.features,
    };
    resolve(
        run.alloc,
        &inputs,
        &ENGINES,
        run.profile,
        run.platforms,
        NextestRunMode::Test,
        &case.tests,
        &mut DefaultConfigWarnings::new(run.alloc),
        &mut ToyTally::new(),
    )
}
