//! An automaton for a pattern, and its run over a name.
ghost use Rattle.std.specs.Prelude.{◌≡◌, ℕ, ◌≤◌, List, length, vec_len, IfOk, is_some};
ghost use Rattle.regex_hir.specs.Find.{find};
ghost use Rattle.regex_hir.specs.Meaning.{meaning};
ghost use Rattle.filter_engine.specs.Runs.{finds, IsSearched};
ghost use Rattle.filter_engine.specs.Tables.{IsTableOf, IsTabled};

mod classes;
mod fill;
mod search;
mod state_flags;
mod state_list;
mod table;

use crate::regex_size::MOST_STATES;
use fill::sees_edges;
use regex_compile::compile;
use regex_hir::Hir;
use regex_nfa::Nfa;
use search::Search;
use std::alloc::{AllocError, Global};
use table::{Cell, Table};

// The most states of an automaton that is searched by with much of the room for the most states.
const MORE_STATES: usize = 4096;

// The most states of an automaton that is searched by with some of that room.
const MANY_STATES: usize = 512;

// The most states of an automaton that is searched by with little room.
const FEW_STATES: usize = 64;

// The most bytes that the tables of an automaton may take.
const TABLE_LIMIT: usize = 10 << 20;

/// Whether a table of the first steps of searches is made for a pattern.
///
/// With a table it takes more to read the pattern, and less to match a name: it pays from some fifteen
/// names on.
#[derive(Clone, Copy, Debug, PartialEq, Eq)]
pub enum SearchTable {
    /// It is made.
    Made,
    /// It is not made.
    LeftOut,
}

/// A compiled pattern: an automaton of at most 16,384 states, and perhaps a table of the first steps of
/// its searches.
#[derive(Drop)]
pub struct Machine {
    nfa: Nfa,
    table: Option<Table>,
    ghost few: { vec_len nfa.states ≤ 16384 },
    ghost tabled: { ∥ IsTabled nfa table ∥₁ },
}

impl Machine {
    /// Compiles a pattern with so many groups, the whole counted as one.
    ///
    /// # Errors
    ///
    /// Where memory runs out, and where the automaton takes more than 10 MiB or 16,384 states, which
    /// is not known of any pattern that is no larger by its text.
    pub fn compile(
        alloc: Global,
        pattern: &Hir,
        groups: u32,
        table: SearchTable,
    ) -> Result<Machine, AllocError>
        ensures { IfOk result (λ machine.
            (name : List ℕ) → finds machine.nfa name
            ≡ is_some (find (meaning pattern.now) name 0)) }
    {
        let Ok(nfa) = compile(alloc, pattern, groups, TABLE_LIMIT) else {
            return Err(AllocError);
        };
        if nfa.states.len() > MOST_STATES {
            return Err(AllocError);
        }
        let table = table_of(alloc, &nfa, table)?;
        Ok(Machine { nfa, table })
    }

    /// Whether the pattern has a match somewhere in the name.
    pub fn has_match(&self, name: &[u8]) -> bool
        ensures { result ≡ finds self.now.nfa name.now }
    {
        match &self.table {
            Some(table) => self.follow(table, name),
            None => self.walk(name, 0, &[]),
        }
    }

    // Whether there is a match somewhere in the name, by the table as far as it says, and by the
    // automaton from there on.
    fn follow(&self, table: &Table, name: &[u8]) -> bool
        requires { ∥ IsTableOf self.now.nfa table.now ∥₁ }
        ensures { result ≡ finds self.now.nfa name.now }
    {
        let mut row = 0;
        for at in 0..name.len() {
            match table.at_byte(row, name[at]) {
                Cell::Next(next) => row = usize::from(next),
                Cell::Found => return true,
                Cell::NotFound => return false,
                Cell::Unknown => return self.walk(name, at, table.states(row)),
            }
        }
        match table.at_end(row) {
            Cell::Found => true,
            Cell::Next(_) => false,
            Cell::NotFound => false,
            Cell::Unknown => self.walk(name, name.len(), table.states(row)),
        }
    }

    // Whether there is a match somewhere in the name, where the search has come to this position in
    // these states.
    #[inline(never)]
    fn walk(&self, name: &[u8], from: usize, states: &[u16]) -> bool
        requires from { from ≤ length name.now }
        requires searched { ∥ IsSearched self.now.nfa name.now from states.now ∥₁ }
        ensures { result ≡ finds self.now.nfa name.now }
    {
        let count = self.nfa.states.len();
        if count <= FEW_STATES {
            Search::<FEW_STATES> { nfa: &self.nfa }.has_match(name, from, states)
        } else if count <= MANY_STATES {
            Search::<MANY_STATES> { nfa: &self.nfa }.has_match(name, from, states)
        } else if count <= MORE_STATES {
            Search::<MORE_STATES> { nfa: &self.nfa }.has_match(name, from, states)
        } else {
            Search::<MOST_STATES> { nfa: &self.nfa }.has_match(name, from, states)
        }
    }
}

// The table of an automaton, if one is made, and all assertions of the automaton are on the start and
// the end of the name.
fn table_of(alloc: Global, nfa: &Nfa, table: SearchTable) -> Result<Option<Table>, AllocError>
    requires { vec_len nfa.now.states ≤ 16384 }
    ensures { IfOk result (λ table. IsTabled nfa.now table) }
{
    if matches!(table, SearchTable::LeftOut) || !sees_edges(nfa) {
        return Ok(None);
    }
    let count = nfa.states.len();
    if count <= FEW_STATES {
        Ok(Some(Search::<FEW_STATES> { nfa }.table(alloc)?))
    } else if count <= MANY_STATES {
        Ok(Some(Search::<MANY_STATES> { nfa }.table(alloc)?))
    } else if count <= MORE_STATES {
        Ok(Some(Search::<MORE_STATES> { nfa }.table(alloc)?))
    } else {
        Ok(Some(Search::<MOST_STATES> { nfa }.table(alloc)?))
    }
}
