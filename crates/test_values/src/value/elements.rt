//! What readers of settings read.
use super::refusal;
use crate::row::RowError;
use nextest_elements::{
    CustomTestGroup, Element, TestGroupConfig, TestThreads, ThreadsRequired, Tree, Walk,
};
use std::alloc::{AllocError, Global};
use std::collections::{BTreeMap, BTreeSet};
use std::fmt::{Debug, Display};

/// The value, and the paths that no schema knows, or the fault.
pub fn read<T: Element + Debug>(
    alloc: Global,
    tree: &Tree,
    walk: &mut Walk,
) -> Result<String, RowError> {
    match T::read(alloc, tree, walk) {
        Ok(value) => {
            let text = format!(in alloc; "{value:?}")?;
            Ok(with_unknown(text, &walk.unknown)?)
        }
        Err(fault) => refusal(alloc, &fault),
    }
}

/// The text, and the paths that no schema knows.
fn with_unknown(text: String, unknown: &BTreeSet<String>) -> Result<String, AllocError> {
    let mut text = text;
    for path in unknown.iter() {
        text.push_str(", unknown ")?;
        text.push_str(path.as_str())?;
    }
    Ok(text)
}

/// The value and how it is written, or the fault.
pub fn read_name<T: Element + Debug + Display>(
    alloc: Global,
    tree: &Tree,
    walk: &mut Walk,
) -> Result<String, RowError> {
    match T::read(alloc, tree, walk) {
        Ok(value) => Ok(format!(in alloc; "{value:?}, written {value}")?),
        Err(fault) => refusal(alloc, &fault),
    }
}

/// How each group is written, with its number of threads, or the fault.
pub fn groups_answer(alloc: Global, tree: &Tree, walk: &mut Walk) -> Result<String, RowError> {
    match BTreeMap::<CustomTestGroup, TestGroupConfig>::read(alloc, tree, walk) {
        Ok(groups) => {
            let mut text = String::new(alloc);
            for (group, config) in groups.iter() {
                let line = format!(in alloc; "[{group}: {:?}]", config.max_threads)?;
                text.push_str(line.as_str())?;
            }
            Ok(text)
        }
        Err(fault) => refusal(alloc, &fault),
    }
}

/// How many tests run at a time by the `threads` of a table, on a machine with its `cpus`, or the
/// fault.
pub fn test_thread_count(alloc: Global, table: &Tree, walk: &mut Walk) -> Result<String, RowError> {
    match TestThreads::read(alloc, member(table, "threads")?, walk) {
        Ok(threads) => Ok(threads.compute(count(table, "cpus")?).to_string(alloc)?),
        Err(fault) => refusal(alloc, &fault),
    }
}

/// How many threads a test takes up by the `threads` of a table, where there are its `cpus` and its
/// `test-threads`, or the fault.
pub fn required_thread_count(
    alloc: Global,
    table: &Tree,
    walk: &mut Walk,
) -> Result<String, RowError> {
    match ThreadsRequired::read(alloc, member(table, "threads")?, walk) {
        Ok(threads) => {
            let count = threads.compute(count(table, "cpus")?, count(table, "test-threads")?);
            Ok(count.to_string(alloc)?)
        }
        Err(fault) => refusal(alloc, &fault),
    }
}

/// The value of a key of a table.
fn member<'a>(table: &'a Tree, key: &str) -> Result<&'a Tree, RowError> {
    table.get(key).ok_or(RowError::NoRow)
}

/// The number of a key of a table.
fn count(table: &Tree, key: &str) -> Result<u64, RowError> {
    match member(table, key)? {
        Tree::Int(count) => u64::try_from(*count).ok().ok_or(RowError::NoRow),
        _ => Err(RowError::NoRow),
    }
}
