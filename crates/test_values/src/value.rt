//! Single values, read by the readers of a configuration.
//!
//! A row is the name of a reader, a space and a TOML value, as `duration "1h 30m"`. The readers of
//! texts, as `duration`, are in `value/texts.rt`; those of settings, as `slow-timeout`, in
//! `value/elements.rt`; those of scripts in `value/scripts.rt`. `test-thread-count` and
//! `required-thread-count` print how many threads the `threads` of a table are, with its `cpus` and
//! `test-threads`.
//!
//! Each row is printed with ` => ` behind it and then the value, or `refused: ` and the cause. The
//! words of a command line, an identifier and its copy, a command's program and a script's id within a
//! run are read once more when memory runs out.
mod elements;
mod scripts;
mod texts;

use crate::row::RowError;
use elements::{groups_answer, read, read_name, required_thread_count, test_thread_count};
use nextest_documents::tree_from_text;
use nextest_elements::{
    BenchConfig, BenchOverride, CustomTestGroup, Element, FinalStatusLevel, FlakyResult,
    GlobalTimeout, Ignored, JunitFlakyFailStatus, JunitImpl, JunitOverride, LeakTimeout, MaxFail,
    Positive, ReportSkipPolicy, RetryPolicy, SlowTimeout, StatusLevel, TestGroup,
    TestOutputDisplay, TestPriority, TestThreads, ThreadsRequired, Tree, Walk,
};
use nextest_scripts::{ScriptCommand, SetupScriptConfig, WrapperScriptConfig};
use scripts::{no_capture_answer, program_answer, unique_id_answer};
use std::alloc::Global;
use std::fmt::Display;
use texts::{document_answer, merged, text_answer};

/// The row, and the result of reading its value by the reader that it names.
pub fn answer_to(alloc: Global, row: &str) -> Result<String, RowError> {
    let (reader, value) = row.split_once(' ').ok_or(RowError::NoRow)?;
    let document = format!(in alloc; "value = {value}")?;
    let document = tree_from_text(alloc, document.as_str())?;
    let tree = document.get("value").ok_or(RowError::NoRow)?;
    let mut walk = Walk::new(alloc);
    walk.path = String::from_str(alloc, reader)?;
    let answer = answer(alloc, reader, tree, &mut walk)?;
    Ok(format!(in alloc; "{row} => {answer}")?)
}

/// What the reader of a name makes of a tree.
fn answer(alloc: Global, reader: &str, tree: &Tree, walk: &mut Walk) -> Result<String, RowError> {
    match reader {
        "any" => read::<Ignored>(alloc, tree, walk),
        "bool" => read::<bool>(alloc, tree, walk),
        "text" => read::<String>(alloc, tree, walk),
        "texts" => read::<Vec<String>>(alloc, tree, walk),
        "positive" => read::<Positive>(alloc, tree, walk),
        "priority" => read::<TestPriority>(alloc, tree, walk),
        "retries" => read::<RetryPolicy>(alloc, tree, walk),
        "fail-fast" => read::<MaxFail>(alloc, tree, walk),
        "slow-timeout" => read::<SlowTimeout>(alloc, tree, walk),
        "leak-timeout" => read::<LeakTimeout>(alloc, tree, walk),
        "global-timeout" => read::<GlobalTimeout>(alloc, tree, walk),
        "bench" => read::<BenchConfig>(alloc, tree, walk),
        "override-bench" => read::<BenchOverride>(alloc, tree, walk),
        "junit" => read::<JunitImpl>(alloc, tree, walk),
        "override-junit" => read::<JunitOverride>(alloc, tree, walk),
        "test-threads" => read::<TestThreads>(alloc, tree, walk),
        "command" => read::<ScriptCommand>(alloc, tree, walk),
        "setup-script" => read::<SetupScriptConfig>(alloc, tree, walk),
        "wrapper-script" => read::<WrapperScriptConfig>(alloc, tree, walk),
        "flaky-result" => read_name::<FlakyResult>(alloc, tree, walk),
        "status-level" => read_name::<StatusLevel>(alloc, tree, walk),
        "final-status-level" => read_name::<FinalStatusLevel>(alloc, tree, walk),
        "success-output" => read_name::<TestOutputDisplay>(alloc, tree, walk),
        "report-skipped" => read_name::<ReportSkipPolicy>(alloc, tree, walk),
        "flaky-fail-status" => read_name::<JunitFlakyFailStatus>(alloc, tree, walk),
        "threads-required" => read_name::<ThreadsRequired>(alloc, tree, walk),
        "test-group" => shown(alloc, TestGroup::read(alloc, tree, walk)),
        "custom-group" => shown(alloc, CustomTestGroup::read(alloc, tree, walk)),
        "test-groups" => groups_answer(alloc, tree, walk),
        "test-thread-count" => test_thread_count(alloc, tree, walk),
        "required-thread-count" => required_thread_count(alloc, tree, walk),
        "program" => program_answer(alloc, tree, walk),
        "no-capture" => no_capture_answer(alloc, tree, walk),
        "unique-id" => unique_id_answer(alloc, tree),
        _ => match tree {
            Tree::Text(text) => text_answer(alloc, reader, text.as_str()),
            Tree::Array(layers) if reader == "merged" => {
                document_answer(alloc, merged(alloc, layers))
            }
            _ => Err(RowError::NoRow),
        },
    }
}

/// How the value is written, or the cause of the refusal.
fn shown<T: Display + Drop, E: Display + Drop>(
    alloc: Global,
    read: Result<T, E>,
) -> Result<String, RowError> {
    match read {
        Ok(value) => Ok(value.to_string(alloc)?),
        Err(cause) => refusal(alloc, &cause),
    }
}

fn refusal<E: Display>(alloc: Global, cause: &E) -> Result<String, RowError> {
    Ok(format!(in alloc; "refused: {cause}")?)
}
