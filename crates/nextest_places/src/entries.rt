//! The expressions of a text, which are found by their keys.
ghost use Rattle.std.specs.Prelude.{◌≡◌, List, ℕ, Bool, IfOk, MatchOption, drop, slice_get};
ghost use Rattle.nextest_places.specs.Branches.{
  HasNumber,
  IsBranchOf,
  comes_before,
  earlier,
  lines_by_number,
  numbers_where,
};
ghost use Rattle.nextest_places.specs.Entries.{IsWaiting, found, scan, waits};
ghost use Rattle.nextest_places.specs.Marks.{fresh};
ghost use Rattle.nextest_places.specs.declared.entry.Entry.{Entry as Expression};

use crate::branch::{Branch, branch_of};
use crate::entry::Entry;
use crate::place::Lines;
use crate::step::Step;
use std::alloc::{AllocError, Global};
use std::marker::Model;

/// The expressions of a text in order, which are found by their keys.
#[derive(Drop)]
pub(crate) struct Entries {
    all: Vec<Entry>,
    by_key: Branch,
}

impl Model for Entries {
    ghost Value = { List Expression };

    ghost view = { λ entries. entries.all.items };

    ghost invariant = { λ entries. IsBranchOf entries.all.items entries.by_key };
}

impl Entries {
    /// These expressions.
    pub(crate) fn of(alloc: Global, all: Vec<Entry>) -> Result<Entries, AllocError>
        ensures { IfOk result (λ entries. entries ≡ all.items) }
    {
        let by_key = branch_of(alloc, &all)?;
        Ok(Entries { all, by_key })
    }

    /// The lines of the expression that defines the value at a path, if one does.
    pub(crate) fn lines_at(&self, path: &[Step]) -> Option<Lines>
        ensures { let outcome = scan self.now (waits (fresh path.now)) in
            MatchOption result (IsWaiting outcome) (λ lines. outcome ≡ found lines) }
    {
        lines_of(&self.all, self.number_at(path))
    }

    /// The number of the expression that defines the value at a path, if one does.
    ///
    /// Of the expressions that are not passed, the path keeps the first pair whose key it begins
    /// with: all of the rest lies in its value. An element of an array is there once its header is,
    /// and what is before that header is passed.
    fn number_at(&self, path: &[Step]) -> Option<usize>
        ensures { HasNumber self.now (scan self.now (waits (fresh path.now))) result }
    {
        let mut branch = &self.by_key;
        let mut from = 0;
        let mut pair = number_from(&branch.ends.pairs, from, 0);
        for (at, step) in path.iter().enumerate() {
            match step {
                Step::Key(key) => match branch.longer.get(*key) {
                    Some(next) => {
                        let first = number_from(&next.ends.pairs, from, 0);
                        pair = earlier(first, pair);
                        branch = next;
                    }
                    None => return pair,
                },
                Step::Position(position) => {
                    let header = number_from(&branch.ends.elements, from, *position);
                    match header {
                        Some(element) => {
                            if is_before(pair, element) {
                                return pair;
                            }
                            if at + 1 == path.len() {
                                return Some(element);
                            }
                            from = element + 1;
                        }
                        None => return pair,
                    }
                }
            }
        }
        let any = number_from(&branch.all, from, 0);
        earlier(any, pair)
    }
}

/// The lines of an expression by its number, if there is one.
fn lines_of(entries: &[Entry], number: Option<usize>) -> Option<Lines>
    ensures { result ≡ lines_by_number entries.now number }
{
    match number {
        Some(number) => match entries.get(number) {
            Some(entry) => Some(entry.lines),
            None => None,
        },
        None => None,
    }
}

/// The number at a place among those of ascending numbers that are at least `from`.
fn number_from(numbers: &[usize], from: usize, place: usize) -> Option<usize>
    ensures { (test : Expression → Bool) (entries : List Expression)
        → numbers.now ≡ numbers_where test 0 entries
        → result ≡ slice_get (numbers_where test from (drop from entries)) place }
{
    let first = numbers.partition_point(|number| *number < from);
    numbers.split_at(first).1.get(place).copied()
}

/// The earlier of two numbers, where each may not be there.
fn earlier(one: Option<usize>, other: Option<usize>) -> Option<usize>
    ensures { result ≡ earlier one other }
{
    match (one, other) {
        (Some(one), Some(other)) => Some(if one < other { one } else { other }),
        (None, other) => other,
        (one, None) => one,
    }
}

/// Whether a number is there that is below another one.
fn is_before(number: Option<usize>, other: usize) -> bool
    ensures { result ≡ comes_before number other }
{
    match number {
        Some(number) => number < other,
        None => false,
    }
}
