//! Tables of the steps of a search.
ghost use Rattle.std.specs.Prelude.{◌≡◌, ℕ, ◌+◌, ◌*◌, ◌<◌, ◌≤◌, All, IfOk, OnOk, length, vec_len};
ghost use Rattle.regex_nfa.specs.declared.nfa.Nfa.{Nfa};

use std::alloc::{AllocError, Global};

/// The most rows of a table.
pub const MOST_ROWS: usize = 32;

// The most cells of a table.
const MOST_CELLS: usize = 256;

/// How a search goes on from a row of a table.
#[derive(Clone, Copy)]
pub enum Cell {
    /// In this row.
    Next(u8),
    /// A match is found.
    Found,
    /// There is no match.
    NotFound,
    /// The table does not say how.
    Unknown,
}

/// Steps of a search, which are made when a pattern is compiled.
///
/// A row is a list of states. It has a cell for each class of bytes of ASCII, and one for the end of
/// the name. In the first row a search is at the start of a name, and in the others behind it.
#[derive(Drop)]
pub struct Table {
    classes: [u8; 128],
    width: usize,
    rows: Vec<Vec<u16>>,
    cells: Vec<Cell>,
    ghost some: { 0 < vec_len rows },
    ghost few: { vec_len rows ≤ 32 },
    ghost size: { length classes ≡ 128 },
    ghost sorts: { All (λ class. class + 1 < width) classes },
    ghost room: { vec_len rows * width ≤ vec_len cells },
}

impl Table {
    ghost use Rattle.filter_engine.specs.Tables.{Grows, IsCellOf, IsTableOf, LeadsIn, byte_cell, end_cell, row_states};
    ghost use Rattle.filter_engine.specs.Runs.{AreStates};

    /// A table of one row, of which nothing is known.
    pub fn new(alloc: Global, classes: [u8; 128], width: usize) -> Result<Table, AllocError>
        requires sorts { All (λ class. class + 1 < width) classes }
        requires size { length classes ≡ 128 }
        requires narrow { width ≤ 256 }
        ensures table { IfOk result (λ table. (nfa : Nfa) → IsTableOf nfa table) }
        ensures classes { IfOk result (λ table. table.classes ≡ classes) }
        ensures width { IfOk result (λ table. table.width ≡ width) }
    {
        let mut rows = Vec::new(alloc);
        rows.push(Vec::new(alloc))?;
        let cells = vec![in alloc; Cell::Unknown; MOST_CELLS]?;
        Ok(Table {
            classes,
            width,
            rows,
            cells,
        })
    }

    /// How many rows there are.
    pub fn len(&self) -> usize
        ensures { result ≡ vec_len self.now.rows }
    {
        self.rows.len()
    }

    /// The states of a row.
    pub fn states(&self, row: usize) -> &[u16]
        requires { row < vec_len self.now.rows }
        ensures { result.now ≡ row_states self.now row }
    {
        self.rows[row].as_slice()
    }

    /// How a search goes on from a row where this byte comes.
    pub fn at_byte(&self, row: usize, byte: u8) -> Cell
        requires { row < vec_len self.now.rows }
        ensures { result ≡ byte_cell self.now row byte }
    {
        if byte >= 128 {
            return Cell::Unknown;
        }
        self.cells[row * self.width + self.classes[byte as usize] as usize]
    }

    /// How a search goes on from a row where the name ends.
    pub fn at_end(&self, row: usize) -> Cell
        requires { row < vec_len self.now.rows }
        ensures { result ≡ end_cell self.now row }
    {
        self.cells[row * self.width + (self.width - 1)]
    }

    /// Says how a search goes on.
    pub fn set(&mut self, row: usize, class: usize, cell: Cell)
        requires row { row < vec_len self.old.rows }
        requires class { class < self.old.width }
        ensures table { (nfa : Nfa) → IsTableOf nfa self.old → IsCellOf nfa self.old row class cell
            → IsTableOf nfa self.new }
        ensures grows { Grows self.old self.new }
    {
        self.cells[row * self.width + class] = cell;
    }

    /// The row of these states behind the start of a name, which is added if there is room.
    pub fn row_of(&mut self, alloc: Global, states: &[u16]) -> Result<Cell, AllocError>
        ensures table { (nfa : Nfa) → IsTableOf nfa self.old → AreStates nfa states.now
            → IsTableOf nfa self.new }
        ensures grows { Grows self.old self.new }
        ensures leads { IfOk result (λ cell. (nfa : Nfa) → LeadsIn nfa self.new states.now cell) }
    {
        for row in 1..self.rows.len() {
            if self.rows[row].as_slice() == states {
                return Ok(Cell::Next(row as u8));
            }
        }
        let count = self.rows.len();
        if count == MOST_ROWS || (count + 1) * self.width > self.cells.len() {
            return Ok(Cell::Unknown);
        }
        let states = Vec::from_slice(alloc, states)?;
        self.rows.push(states)?;
        Ok(Cell::Next(count as u8))
    }
}
