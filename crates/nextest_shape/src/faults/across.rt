//! Tests over several values, and of names.
ghost use Rattle.std.specs.Prelude.{◌≡◌, IfOk, option_map};
ghost use Rattle.std.specs.Result.{result_ok};
ghost use Rattle.nextest_tree.specs.Key.{key_text};
ghost use Rattle.nextest_tree.specs.Leaf.{leaf_at};
ghost use Rattle.nextest_tree.specs.Node.{get};
ghost use Rattle.nextest_tree.specs.View.{tree_view, nodes_view, entries_view};
ghost use Rattle.nextest_elements.specs.Nanoseconds.{duration_at};
ghost use Rattle.nextest_elements.specs.RetryPolicy.{backoff_at, grows, grows_in, is_below, retry_across};
ghost use Rattle.nextest_scripts.specs.CommandLine.{list_cause};
ghost use Rattle.nextest_shape.specs.Faults.Found.{IsCause};
ghost use Rattle.nextest_shape.specs.Faults.Places.{across_test, items_test, names_test, need_test};

use crate::faults::values::{name_cause, variable_cause};
use nextest_elements::{ConfigIdentifier, parse_duration};
use nextest_tree::{ElementCause, Key, Tree};
use std::alloc::{AllocError, Global};
use std::collections::BTreeMap;

/// A test over several fields of a table.
#[derive(Clone, Copy, Debug, PartialEq, Eq)]
pub(crate) enum Across {
    /// There is none.
    Nothing,
    /// Where delays grow, the longest one is not below the first one.
    Delays,
}

/// A test of a whole array.
#[derive(Clone, Copy, Debug, PartialEq, Eq)]
pub(crate) enum AcrossItems {
    /// There is none.
    Nothing,
    /// It has a first item.
    First,
}

/// A test of the keys of a table.
#[derive(Clone, Copy, Debug, PartialEq, Eq)]
pub(crate) enum Names {
    /// Any text is a name.
    Any,
    /// Each is an identifier.
    Identifiers,
    /// Each is the key of an environment variable.
    Variables,
}

/// Whether a field has to be there.
#[derive(Clone, Copy, Debug, PartialEq, Eq)]
pub(crate) enum Need {
    /// It may be absent.
    May,
    /// It has to be there.
    Must,
    /// It has to be there where delays grow.
    Growing,
}

/// The value of a key of a table, if the table has the key.
pub(crate) fn member<'t>(members: &'t BTreeMap<String, Tree>, key: Key) -> Option<&'t Tree>
    ensures { option_map (λ tree. tree_view tree.now) result
        ≡ get (key_text key) (entries_view members.entry.now.entries) }
{
    members.get(key.text())
}

/// Whether a value says that delays grow.
fn is_exponential(tree: &Tree) -> bool
    ensures { result ≡ grows (result_ok (backoff_at (tree_view tree.now))) }
{
    match tree.as_str() {
        Some(text) => text == "exponential",
        None => false,
    }
}

/// Whether a table says that delays grow.
fn grows(members: &BTreeMap<String, Tree>) -> bool
    ensures { result ≡ grows_in (entries_view members.now.entries) }
{
    match member(members, Key::Backoff) {
        Some(tree) => is_exponential(tree),
        None => false,
    }
}

/// The nanoseconds of a value that is a duration.
fn nanoseconds(tree: &Tree) -> Option<u128>
    ensures { result ≡ result_ok (duration_at (tree_view tree.now)) }
{
    match tree {
        Tree::Text(text) => match parse_duration(text.as_str()) {
            Ok(number) => Some(number),
            Err(_) => None,
        },
        _ => None,
    }
}

/// The nanoseconds at a key, if there is a duration.
fn nanoseconds_at(members: &BTreeMap<String, Tree>, key: Key) -> Option<u128>
    ensures { result ≡ leaf_at duration_at (get (key_text key) (entries_view members.now.entries)) }
{
    match member(members, key) {
        Some(tree) => nanoseconds(tree),
        None => None,
    }
}

/// Whether both numbers are there, and the first is below the second.
fn is_below(most: Option<u128>, first: Option<u128>) -> bool
    ensures { result ≡ is_below most first }
{
    match (most, first) {
        (Some(most), Some(first)) => most < first,
        _ => false,
    }
}

/// What is wrong with the delays of a table.
fn delays_cause(members: &BTreeMap<String, Tree>) -> Option<ElementCause>
    ensures { IsCause result (retry_across (entries_view members.now.entries)) }
{
    let most = nanoseconds_at(members, Key::MaxDelay);
    let first = nanoseconds_at(members, Key::Delay);
    if grows(members) && is_below(most, first) {
        Some(ElementCause::OutOfRange)
    } else {
        None
    }
}

impl Across {
    /// What is wrong with the fields of a table together.
    pub(crate) fn cause(self, members: &BTreeMap<String, Tree>) -> Option<ElementCause>
        ensures { IsCause result (across_test self (entries_view members.now.entries)) }
    {
        match self {
            Across::Nothing => None,
            Across::Delays => delays_cause(members),
        }
    }
}

/// What is wrong with an array that is to have a first item.
fn first_cause(items: &[Tree]) -> Option<ElementCause>
    ensures { IsCause result (list_cause (nodes_view items.now)) }
{
    if items.is_empty() {
        Some(ElementCause::OutOfRange)
    } else {
        None
    }
}

impl AcrossItems {
    /// What is wrong with the items of an array together.
    pub(crate) fn cause(self, items: &[Tree]) -> Option<ElementCause>
        ensures { IsCause result (items_test self (nodes_view items.now)) }
    {
        match self {
            AcrossItems::Nothing => None,
            AcrossItems::First => first_cause(items),
        }
    }
}

impl Names {
    /// What is wrong with a name.
    pub(crate) fn cause(self, alloc: Global, name: &str) -> Result<Option<ElementCause>, AllocError>
        ensures { IfOk result (λ cause. IsCause cause (names_test self name.now)) }
    {
        match self {
            Names::Any => Ok(None),
            Names::Identifiers => name_cause::<ConfigIdentifier>(alloc, name),
            Names::Variables => variable_cause(alloc, name),
        }
    }
}

impl Need {
    /// Whether a field has to be in a table.
    pub(crate) fn holds_in(self, members: &BTreeMap<String, Tree>) -> bool
        ensures { result ≡ need_test self (entries_view members.now.entries) }
    {
        match self {
            Need::May => false,
            Need::Must => true,
            Need::Growing => grows(members),
        }
    }
}
