//! Filling of tables.
ghost use Rattle.std.specs.Prelude.{◌≡◌, ℕ, ◌+◌, ◌<◌, ◌≤◌, ◌⊎◌, List, [], IfOk, OnOk, IsTrue, false, length, vec_len};
ghost use Rattle.std.specs.Bool.{MatchBool};
ghost use Rattle.filter_engine.specs.Classes.{AreClasses};
ghost use Rattle.filter_engine.specs.Runs.{AreStates, HasStart};
ghost use Rattle.filter_engine.specs.Tables.{ByByte, Grows, IsAt, IsEndCell, IsTableOf, ReadsNothing, SeesEdges, StartsFirst, reads_byte};

use crate::machine::classes::Classes;
use crate::machine::search::Search;
use crate::machine::state_list::StateList;
use crate::machine::table::{Cell, MOST_ROWS, Table};
use regex_hir::Look;
use regex_nfa::{Nfa, State};
use std::alloc::{AllocError, Global};

// The most states that are read to fill a row.
const MOST_READ: usize = 256;

/// Whether all assertions of an automaton are on the start and the end of the name.
pub fn sees_edges(nfa: &Nfa) -> bool
    ensures { IsTrue result → SeesEdges nfa.now }
{
    for id in 0..nfa.states.len() {
        if !sees_edge(nfa.state(id as u32)) {
            return false;
        }
    }
    true
}

fn sees_edge(state: State) -> bool
    ensures { IsTrue result → (look : Look) (next : ℕ) → state ≡ State.Look look next
        → (look ≡ Look.Start) ⊎ (look ≡ Look.End) }
{
    match state {
        State::Look { look, .. } => matches!(look, Look::Start | Look::End),
        _ => true,
    }
}

// Whether a state reads a byte.
fn reads(state: State) -> bool
    ensures { result ≡ reads_byte state }
{
    matches!(state, State::ByteRange(_) | State::Sparse { .. })
}

// A name, and a position before a byte of it at which a search is in this row.
fn before_byte(row: usize) -> (&'static [u8], usize)
    ensures at { IsAt row result.0.now result.1 }
    ensures byte { result.1 < length result.0.now }
{
    if row == 0 { (&[0], 0) } else { (&[0, 0], 1) }
}

// A name at the end of which a search is in this row, and its length.
fn before_end(row: usize) -> (&'static [u8], usize)
    ensures at { IsAt row result.0.now result.1 }
    ensures end { result.1 ≡ length result.0.now }
{
    if row == 0 { (&[], 0) } else { (&[0], 1) }
}

impl<const ROOM: usize> Search<'_, ROOM> {
    /// The table of the first rows that a search comes to.
    pub fn table(&self, alloc: Global) -> Result<Table, AllocError>
        requires { SeesEdges self.now.nfa.now }
        ensures { IfOk result (λ table. IsTableOf self.now.nfa.now table) }
    {
        let classes = Classes::new(alloc, self.nfa)?;
        let bytes = classes.bytes.as_slice();
        let anchored = self.is_anchored();
        let mut table = Table::new(alloc, classes.of, bytes.len() + 1)?;
        for row in 0..MOST_ROWS {
            if row >= table.len() {
                return Ok(table);
            }
            self.fill(alloc, &mut table, row, bytes, anchored)?;
        }
        Ok(table)
    }

    // Fills a row, if few enough states are read for it.
    fn fill(
        &self,
        alloc: Global,
        table: &mut Table,
        row: usize,
        bytes: &[u8],
        anchored: bool,
    ) -> Result<(), AllocError>
        requires looks { SeesEdges self.now.nfa.now }
        requires anchored { IsTrue anchored → StartsFirst self.now.nfa.now }
        requires table { IsTableOf self.now.nfa.now table.old }
        requires row { row < vec_len table.old.rows }
        requires classes { AreClasses self.now.nfa.now table.old.classes bytes.now }
        requires width { table.old.width ≡ length bytes.now + 1 }
        ensures table { OnOk result (IsTableOf self.now.nfa.now table.new) }
        ensures grows { OnOk result (Grows table.old table.new) }
    {
        let end = self.end_cell(row, table.states(row));
        table.set(row, bytes.len(), end);
        let mut states = StateList::new();
        self.start(table.states(row), &mut states);
        let (name, at) = before_byte(row);
        let found = self.close(name, at, &mut states);
        if states.len() > MOST_READ {
            return Ok(());
        }
        for class in 0..bytes.len() {
            let cell = self.next_cell(alloc, table, found, &states, bytes[class], anchored)?;
            table.set(row, class, cell);
        }
        Ok(())
    }

    // How a search goes on from a row of these states where the name ends.
    fn end_cell(&self, row: usize, states: &[u16]) -> Cell
        requires looks { SeesEdges self.now.nfa.now }
        requires states { AreStates self.now.nfa.now states.now }
        ensures { IsEndCell self.now.nfa.now row states.now result }
    {
        let mut list = StateList::new();
        self.start(states, &mut list);
        let (name, at) = before_end(row);
        if self.close(name, at, &mut list) {
            Cell::Found
        } else {
            Cell::NotFound
        }
    }

    // How a search goes on, on a byte, from a row that was closed: a match was found, or these are the
    // states.
    fn next_cell(
        &self,
        alloc: Global,
        table: &mut Table,
        found: bool,
        states: &StateList<ROOM>,
        byte: u8,
        anchored: bool,
    ) -> Result<Cell, AllocError>
        requires anchored { IsTrue anchored → StartsFirst self.now.nfa.now }
        requires table { IsTableOf self.now.nfa.now table.old }
        requires states { AreStates self.now.nfa.now states.now }
        ensures table { OnOk result (IsTableOf self.now.nfa.now table.new) }
        ensures grows { OnOk result (Grows table.old table.new) }
        ensures cell { IfOk result (λ cell. MatchBool found (cell ≡ Cell.Found)
            (ByByte self.now.nfa.now table.new states.now byte cell)) }
    {
        if found {
            return Ok(Cell::Found);
        }
        let mut next = StateList::new();
        self.advance(byte, states, &mut next);
        if anchored && next.len() == 0 {
            return Ok(Cell::NotFound);
        }
        table.row_of(alloc, next.as_slice())
    }

    // Whether a match may begin at the start of a name alone.
    fn is_anchored(&self) -> bool
        requires { SeesEdges self.now.nfa.now }
        ensures { IsTrue result → StartsFirst self.now.nfa.now }
    {
        let mut states = StateList::new();
        self.start(&[], &mut states);
        let (name, at) = before_byte(1);
        if self.close(name, at, &mut states) {
            return false;
        }
        if self.reads_some(&states) {
            return false;
        }
        matches!(self.end_cell(1, &[]), Cell::NotFound)
    }

    // Whether one of the states reads a byte.
    fn reads_some(&self, states: &StateList<ROOM>) -> bool
        requires { AreStates self.now.nfa.now states.now }
        ensures { result ≡ false → ReadsNothing self.now.nfa.now states.now }
    {
        for i in 0..states.len() {
            if reads(self.nfa.state(states.get(i))) {
                return true;
            }
        }
        false
    }

    // Puts states into a list that is empty, and the start of the automaton.
    fn start(&self, states: &[u16], list: &mut StateList<ROOM>)
        requires states { AreStates self.now.nfa.now states.now }
        requires none { list.old ≡ [] }
        ensures starts { HasStart self.now.nfa.now states.now list.new }
        ensures states { AreStates self.now.nfa.now list.new }
    {
        list.insert_all(states);
        list.insert(self.nfa.start);
    }
}
