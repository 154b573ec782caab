//! The places of paths in a text.
ghost use Rattle.std.specs.Prelude.{◌≡◌, List, ℕ, IfOk, MatchOption, None, Some};
ghost use Rattle.nextest_tree.specs.View.{tree_view};
ghost use Rattle.nextest_documents.specs.Text.{tree_of};
ghost use Rattle.nextest_places.specs.Index.{IsKnown};
ghost use Rattle.nextest_places.specs.Place.{HasNoPlace, IsPlaceOfPath};

use crate::fronts::{Fronts, longest_document};
use crate::index::Index;
use crate::step::{Step, has_path};
use nextest_tree::Tree;
use std::alloc::{AllocError, Global};
use std::marker::Model;

/// Some lines of a text, counted from 1.
#[derive(Clone, Copy, Debug, PartialEq, Eq)]
pub struct Lines {
    /// The first of them.
    pub first: usize,
    /// The last of them, which is the first itself where it is alone.
    pub last: usize,
}

/// The longest front of a text that is a document.
#[derive(Drop)]
pub(crate) struct Longest {
    pub(crate) document: Tree,
    pub(crate) index: Index,
    /// Whether it is the whole text.
    pub(crate) is_whole: bool,
}

/// The places of the paths of a text: the lines that define the value at each.
///
/// These are the last of the first lines that are the shortest document with the path, from the
/// end of the document before it on: the whole of a value that goes over several lines, and of a
/// table the header that first names it. The text itself need not be a document.
#[derive(Drop)]
pub struct Places<'a> {
    text: &'a str,
    longest: Longest,
}

impl<'a> Model for Places<'a> {
    ghost Value = { List ℕ };

    ghost view = { λ places. places.text.now };

    ghost invariant = { λ places. IsKnown places.text.now places.longest };
}

impl<'a> Places<'a> {
    /// The places of a text. One that is a document is read once as a whole, and once more
    /// expression by expression. Of any other its longest front that is a document is so read, and
    /// to find it each longer one. Where the last line has no newline, the fronts that end within
    /// the last expression are read too.
    pub fn of(alloc: Global, text: &'a str) -> Result<Places<'a>, AllocError>
        ensures { IfOk result (λ places. places ≡ text.now) }
    {
        let fronts = Fronts::of(alloc, text)?;
        let (count, document) = longest_document(alloc, &fronts)?;
        let index = Index::of(alloc, fronts.front(count))?;
        let is_whole = count == fronts.count();
        let longest = Longest {
            document,
            index,
            is_whole,
        };
        Ok(Places { text, longest })
    }

    /// The places of a text that is a document, whose tree was read before. It is read only
    /// expression by expression.
    pub fn of_document(
        alloc: Global,
        text: &'a str,
        document: Tree,
    ) -> Result<Places<'a>, AllocError>
        requires { tree_of text.now ≡ Some (tree_view document) }
        ensures { IfOk result (λ places. places ≡ text.now) }
    {
        let index = Index::of(alloc, text)?;
        let longest = Longest {
            document,
            index,
            is_whole: true,
        };
        Ok(Places { text, longest })
    }

    /// The tree of the text, if the text is a document.
    pub fn document(&self) -> Option<&Tree>
        ensures { MatchOption result (tree_of self.now ≡ None)
            (λ tree. tree_of self.now ≡ Some (tree_view tree.now)) }
    {
        if self.longest.is_whole {
            Some(&self.longest.document)
        } else {
            None
        }
    }

    /// The lines that define the value at a path. Nothing is read for it.
    pub fn lines_at(&self, path: &[Step]) -> Option<Lines>
        ensures { MatchOption result (HasNoPlace path.now self.now)
            (IsPlaceOfPath path.now self.now) }
    {
        if path.is_empty() {
            return None;
        }
        if !has_path(&self.longest.document, path) {
            return None;
        }
        Some(self.longest.index.lines_of(path))
    }
}
