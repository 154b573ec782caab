//! Paths of a text with their lines and bytes.
ghost use Rattle.std.specs.Prelude.{◌≡◌, ◌≤◌, ◌+◌, ◌^◌, ◌<◌, List, ℕ, length, true, slice_get, None, Some, IfOk, IfSome, MatchOption};
ghost use Rattle.std.specs.Bool.{OnTrue};
ghost use Rattle.std.specs.Str.{IsCharBoundary};
ghost use Rattle.toml.specs.View.{view};
ghost use Rattle.nextest_documents.specs.Text.{tree_of};
ghost use Rattle.nextest_tree.specs.View.{tree_view};
ghost use Rattle.nextest_places.specs.Spans.Nodes.{joined, node_view, nodes_view};
ghost use Rattle.nextest_places.specs.Place.{HasNoPlace};
ghost use Rattle.nextest_places.specs.Spans.Positions.{position_of};
ghost use Rattle.nextest_places.specs.declared.spans.position.ColumnUnit.TheVariants.{Char};
ghost use Rattle.nextest_places.specs.Spans.Spans.{AreMarked, AreReadable, IsDocumentOf, IsKept, IsKeyOf, IsMarkedAt, IsPathSpan, IsUnmarked, ReadsAsNode};
ghost use Rattle.nextest_places.specs.Spans.Spans as spec;

use crate::place::{Lines, Places};
use crate::spans::item::{Item, Role};
use crate::spans::items::items_of;
use crate::spans::lines::LineIndex;
use crate::spans::node::{nodes_of, reads_as};
use crate::spans::path::is_at;
use crate::spans::path_lines::is_on_lines;
use crate::spans::position::{ColumnUnit, TextPosition};
use crate::spans::token::Span;
use crate::step::Step;
use nextest_tree::Tree;
use std::alloc::{AllocError, Global};
use std::marker::Model;
use toml::{Value, table_from_str};

/// Where the value at a path is written in a text.
#[derive(Clone, Copy, Debug, PartialEq, Eq)]
pub struct PathSpan {
    /// The lines that define it.
    pub lines: Lines,
    /// The bytes of the part of a key that leads to it, if one is on these lines.
    pub key: Option<Span>,
    /// The bytes of its value, if they are on these lines and read as the value there.
    pub value: Option<Span>,
}

/// A text, with where the values at its paths are written.
#[derive(Drop)]
pub struct PathSpans<'a> {
    text: &'a str,
    lines: LineIndex<'a>,
    items: Vec<Item>,
    /// Of each item, whether it is a value whose bytes read as the value there in the document.
    readable: Vec<bool>,
    places: Places<'a>,
}

impl<'a> Model for PathSpans<'a> {
    ghost Value = { List ℕ };

    ghost view = { λ spans. spans.text.now };

    ghost invariant = { λ spans.
        IsKept spans.text.now spans.lines spans.items.items spans.readable.items spans.places };
}

impl<'a> PathSpans<'a> {
    /// Reads a text, which need not be a document.
    ///
    /// # Errors
    /// Memory was refused.
    pub fn of(alloc: Global, text: &'a str) -> Result<PathSpans<'a>, AllocError>
        ensures { IfOk result (λ spans. spans ≡ text.now) }
    {
        let places = Places::of(alloc, text)?;
        match document_of(alloc, text)? {
            Some(root) => PathSpans::of_document(alloc, text, places, &root),
            None => PathSpans::of_fronts(alloc, text, places),
        }
    }

    /// Reads a text that is a document, whose places and value were read before.
    ///
    /// # Errors
    /// Memory was refused.
    pub fn of_document(
        alloc: Global,
        text: &'a str,
        places: Places<'a>,
        root: &Value,
    ) -> Result<PathSpans<'a>, AllocError>
        requires places { places ≡ text.now }
        requires root { IsDocumentOf text.now (view root.now) }
        ensures { IfOk result (λ spans. spans ≡ text.now) }
    {
        let lines = LineIndex::of(alloc, text)?;
        let items = items_of(alloc, text)?;
        let readable = readable_of(alloc, text, &items, root)?;
        Ok(PathSpans {
            text,
            lines,
            items,
            readable,
            places,
        })
    }

    /// Reads a text that need not be a document, whose places were read before. The bytes of its
    /// values are not known.
    ///
    /// # Errors
    /// Memory was refused.
    pub fn of_fronts(
        alloc: Global,
        text: &'a str,
        places: Places<'a>,
    ) -> Result<PathSpans<'a>, AllocError>
        requires { places ≡ text.now }
        ensures { IfOk result (λ spans. spans ≡ text.now) }
    {
        let lines = LineIndex::of(alloc, text)?;
        let items = items_of(alloc, text)?;
        Ok(PathSpans {
            text,
            lines,
            items,
            readable: no_marks(alloc),
            places,
        })
    }

    /// The tree of the text, if the text is a document.
    pub fn document(&self) -> Option<&Tree>
        ensures { MatchOption result (tree_of self.now ≡ None)
            (λ tree. tree_of self.now ≡ Some (tree_view tree.now)) }
    {
        self.places.document()
    }

    /// The lines that define the value at a path, and on them the bytes of its key and its value.
    #[tactic(auto, using(crate::proofs::spans::Marks::value_of))]
    pub fn at(&self, path: &[Step]) -> Option<PathSpan>
        ensures { MatchOption result (HasNoPlace path.now self.now)
            (IsPathSpan path.now self.now) }
    {
        let lines = self.places.lines_at(path)?;
        Some(PathSpan {
            lines,
            key: key_at(self.text, &self.lines, &self.items, path, lines),
            value: value_at(
                self.text,
                &self.lines,
                &self.items,
                &self.readable,
                path,
                lines,
            ),
        })
    }

    /// The position of a byte of the text, with columns in characters.
    pub fn position_at(&self, byte: usize) -> TextPosition
        requires { IsCharBoundary self.now byte }
        ensures position { result ≡ position_of Char self.now byte }
        ensures fits { result.line + result.column + 1 < 2 ^ 64 }
    {
        self.lines.position_at(byte, ColumnUnit::Char)
    }
}

/// The document that a text is, if it is one.
fn document_of(alloc: Global, text: &str) -> Result<Option<Value>, AllocError>
    ensures { IfOk result (λ root. IfSome root (λ root. IsDocumentOf text.now (view root))) }
{
    match table_from_str(alloc, text) {
        Ok(table) => Ok(Some(Value::Table(table))),
        Err(error) => {
            if error.is_memory() {
                Err(AllocError)
            } else {
                Ok(None)
            }
        }
    }
}

fn is_key(role: &Role) -> bool
    ensures { result ≡ spec.is_key role.now }
{
    match role {
        Role::Key { .. } => true,
        Role::Value { .. } => false,
    }
}

/// How many of the items of a text begin before a line, which is counted from 0.
fn count_before(index: &LineIndex, items: &[Item], line: usize) -> usize
    ensures { result ≤ length items.now }
{
    match index.start_of(line) {
        Some(start) => items.partition_point(|item| item.span.start < start),
        None => items.len(),
    }
}

/// The first part of a key on some lines at a path.
fn key_at(
    text: &str,
    index: &LineIndex,
    items: &[Item],
    path: &[Step],
    lines: Lines,
) -> Option<Span>
    requires { index.now ≡ text.now }
    ensures { IfSome result (IsKeyOf text.now items.now path.now lines) }
{
    let behind = count_before(index, items, lines.last);
    for place in count_before(index, items, lines.first.saturating_sub(1))..behind {
        let item = items.get(place)?;
        if is_key(&item.role)
            && is_at(items, item, path)
            && is_on_lines(text, index, lines, item.span)
        {
            return Some(item.span);
        }
    }
    None
}

/// The first marked item on some lines at a path.
fn value_at(
    text: &str,
    index: &LineIndex,
    items: &[Item],
    marks: &[bool],
    path: &[Step],
    lines: Lines,
) -> Option<Span>
    requires { index.now ≡ text.now }
    ensures { IfSome result (IsMarkedAt text.now items.now marks.now path.now lines) }
{
    let behind = count_before(index, items, lines.last);
    for place in count_before(index, items, lines.first.saturating_sub(1))..behind {
        let item = items.get(place)?;
        if is_marked(marks, place)
            && is_at(items, item, path)
            && is_on_lines(text, index, lines, item.span)
        {
            return Some(item.span);
        }
    }
    None
}

/// Whether an item is marked.
fn is_marked(marks: &[bool], place: usize) -> bool
    ensures { OnTrue result (slice_get marks.now place ≡ Some true) }
{
    match marks.get(place) {
        Some(mark) => *mark,
        None => false,
    }
}

/// Of each item of a text, whether it is a value whose bytes read as the value there in the
/// document that the text is.
#[tactic(auto, using(crate::proofs::spans::Marks::readable))]
fn readable_of(
    alloc: Global,
    text: &str,
    items: &[Item],
    root: &Value,
) -> Result<Vec<bool>, AllocError>
    requires { IsDocumentOf text.now (view root.now) }
    ensures { IfOk result (λ marks. AreReadable text.now items.now marks.items) }
{
    let nodes = nodes_of(alloc, root, items)?;
    marks_of(alloc, text, items, &nodes)
}

/// No marks: nothing is known of the items of a text.
#[tactic(auto, using(crate::proofs::spans::Marks::none_readable))]
fn no_marks(alloc: Global) -> Vec<bool>
    ensures { IsUnmarked result.items }
{
    Vec::new(alloc)
}

/// Of each item, whether it is a value whose bytes read as its node.
fn marks_of(
    alloc: Global,
    text: &str,
    items: &[Item],
    nodes: &[Option<&Value>],
) -> Result<Vec<bool>, AllocError>
    ensures { IfOk result (λ marks.
        AreMarked text.now items.now (nodes_view nodes.now) marks.items) }
{
    let mut marks = Vec::new(alloc);
    for (place, item) in items.iter().enumerate() {
        marks.push(reads_as_node(alloc, text, item, node_at(nodes, place))?)?;
    }
    Ok(marks)
}

/// The node at a place, if there is one.
fn node_at<'d>(nodes: &[Option<&'d Value>], place: usize) -> Option<&'d Value>
    ensures { node_view result ≡ joined (slice_get (nodes_view nodes.now) place) }
{
    match nodes.get(place) {
        None => None,
        Some(node) => *node,
    }
}

/// Whether an item is a value whose bytes read as a node.
fn reads_as_node(
    alloc: Global,
    text: &str,
    item: &Item,
    node: Option<&Value>,
) -> Result<bool, AllocError>
    ensures { IfOk result (λ reads.
        OnTrue reads (ReadsAsNode text.now item.now (node_view node.entry))) }
{
    match node {
        Some(node) if !is_key(&item.role) => reads_as(alloc, text, item, node),
        _ => Ok(false),
    }
}
