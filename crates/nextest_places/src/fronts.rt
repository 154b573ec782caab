//! The first lines of a text.
ghost use Rattle.std.specs.Prelude.{◌≡◌, ◌<◌, ◌≤◌, List, ℕ, IfOk, length, option_map};
ghost use Rattle.nextest_tree.specs.View.{tree_view};
ghost use Rattle.nextest_documents.specs.Text.{tree_of};
ghost use Rattle.nextest_places.specs.Lines.{first_lines, line_count, line_ends};
ghost use Rattle.nextest_places.specs.Search.{IsLongest};
ghost use Rattle.nextest_places.specs.Index.{LeadToEnd};

use crate::place::Lines;
use nextest_documents::{TextFault, tree_from_text};
use nextest_tree::Tree;
use std::alloc::{AllocError, Global};
use std::collections::BTreeMap;
use std::marker::Model;

/// A text, with where each of its lines ends.
#[derive(Drop)]
pub(crate) struct Fronts<'a> {
    text: &'a str,
    ends: Vec<usize>,
}

impl<'a> Model for Fronts<'a> {
    ghost Value = { List ℕ };

    ghost view = { λ fronts. fronts.text.now };

    ghost invariant = { λ fronts. fronts.ends.items ≡ line_ends 0 fronts.text.now };
}

impl<'a> Fronts<'a> {
    /// The fronts of a text.
    pub(crate) fn of(alloc: Global, text: &'a str) -> Result<Fronts<'a>, AllocError>
        ensures { IfOk result (λ fronts. fronts ≡ text.now) }
    {
        let ends = ends_of(alloc, text)?;
        Ok(Fronts { text, ends })
    }

    /// How many lines there are.
    pub(crate) fn count(&self) -> usize
        ensures { result ≡ line_count self.now }
    {
        self.ends.len()
    }

    /// The first `count` lines, as they are.
    pub(crate) fn front(&self, count: usize) -> &'a str
        requires { count ≤ line_count self.now }
        ensures { result.now ≡ first_lines count self.now }
    {
        front_of(self.text, &self.ends, count)
    }
}

/// Where each line of a text ends.
fn ends_of(alloc: Global, text: &str) -> Result<Vec<usize>, AllocError>
    ensures { IfOk result (λ ends. ends.items ≡ line_ends 0 text.now) }
{
    let bytes = text.as_bytes();
    let mut ends = Vec::new(alloc);
    for (i, byte) in bytes.iter().enumerate() {
        if *byte == b'\n' || bytes.len() - i == 1 {
            ends.push(i + 1)?;
        }
    }
    Ok(ends)
}

/// The first `count` lines of a text whose lines end there.
fn front_of<'a>(text: &'a str, ends: &[usize], count: usize) -> &'a str
    requires ends { ends.now ≡ line_ends 0 text.now }
    requires within { count ≤ length ends.now }
    ensures { result.now ≡ first_lines count text.now }
{
    if count == 0 {
        return "";
    }
    &text[..ends[count - 1]]
}

/// The document that a text is, if it is one.
fn document_of(alloc: Global, text: &str) -> Result<Option<Tree>, AllocError>
    ensures { IfOk result (λ document. option_map tree_view document ≡ tree_of text.now) }
{
    match tree_from_text(alloc, text) {
        Ok(document) => Ok(Some(document)),
        Err(TextFault::NotDocument(_)) => Ok(None),
        Err(TextFault::Memory) => Err(AllocError),
    }
}

/// The most first lines that are a document, with that document. They are the whole text, if that
/// is one, and no lines at all are the empty document.
pub(crate) fn longest_document(alloc: Global, fronts: &Fronts) -> Result<(usize, Tree), AllocError>
    ensures { IfOk result (λ at. IsLongest fronts.now at.0 (tree_view at.1)) }
{
    let total = fronts.count();
    'down: for back in 0..total {
        let count = total - back;
        if let Some(document) = document_of(alloc, fronts.front(count))? {
            return Ok((count, document));
        }
    }
    Ok((0, Tree::Table(BTreeMap::new(alloc))))
}

/// The first lines of a text that are a document, with that document.
#[derive(Drop)]
pub(crate) struct Front {
    /// The lines behind the document before it.
    pub(crate) lines: Lines,
    pub(crate) document: Tree,
}

/// The documents that the fronts of a text are which have more than `low` lines, without the text
/// itself, and the lines behind them, if there are some.
pub(crate) fn fronts_behind(
    alloc: Global,
    fronts: &Fronts,
    low: usize,
) -> Result<(Vec<Front>, Lines), AllocError>
    requires { low ≤ line_count fronts.now }
    ensures { IfOk result (λ found. LeadToEnd fronts.now low found.0.items found.1) }
{
    let count = fronts.count();
    let mut found = Vec::new(alloc);
    if low == count {
        let none = Lines {
            first: count,
            last: count,
        };
        return Ok((found, none));
    }
    let mut high = low;
    'up: for last in low + 1..count {
        if let Some(document) = document_of(alloc, fronts.front(last))? {
            let lines = Lines {
                first: high + 1,
                last,
            };
            found.push(Front { lines, document })?;
            high = last;
        }
    }
    let rest = Lines {
        first: high + 1,
        last: count,
    };
    Ok((found, rest))
}
