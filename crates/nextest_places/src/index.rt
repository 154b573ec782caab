//! An index of a document's text: which lines define the value at each of its paths.
ghost use Rattle.std.specs.Prelude.{◌≡◌, IfOk};
ghost use Rattle.nextest_places.specs.Index.{IsIndex, first_with, lines_in};
ghost use Rattle.nextest_places.specs.Lines.{line_count};
ghost use Rattle.nextest_places.specs.Search.{IsDocument};

use crate::entries::Entries;
use crate::fronts::{Front, Fronts, fronts_behind};
use crate::id_lines::Wanted;
use crate::place::Lines;
use crate::step::{Step, has_path};
use crate::walk::entries_of;
use std::alloc::{AllocError, Global};

/// Which lines of a document's text define the value at each of its paths.
#[derive(Drop)]
pub(crate) struct Index {
    /// Its expressions in order, as far as they were read one by one.
    pub(crate) entries: Entries,
    /// The documents that end behind these, but the last one.
    pub(crate) fronts: Vec<Front>,
    /// The lines behind them, which may be none.
    pub(crate) rest: Lines,
}

impl Index {
    /// The index of a text that is a document.
    pub(crate) fn of(alloc: Global, text: &str) -> Result<Index, AllocError>
        requires { IsDocument text.now (line_count text.now) }
        ensures { IfOk result (IsIndex text.now) }
    {
        let (expressions, low) = entries_of(alloc, text, &mut Wanted::All)?;
        let (fronts, rest) = fronts_behind(alloc, &Fronts::of(alloc, text)?, low)?;
        let entries = Entries::of(alloc, expressions)?;
        Ok(Index {
            entries,
            fronts,
            rest,
        })
    }

    /// The lines that define the value at a path of the document.
    pub(crate) fn lines_of(&self, path: &[Step]) -> Lines
        ensures { result ≡ lines_in self.now path.now }
    {
        match self.entries.lines_at(path) {
            Some(lines) => lines,
            None => lines_by_fronts(&self.fronts, path).unwrap_or(self.rest),
        }
    }
}

/// The lines of the first front that has a path, if one does.
pub(crate) fn lines_by_fronts(fronts: &[Front], path: &[Step]) -> Option<Lines>
    ensures { result ≡ first_with path.now fronts.now }
{
    for front in fronts {
        if has_path(&front.document, path) {
            return Some(front.lines);
        }
    }
    None
}
