//! A set of states as a list, each once.
ghost use Rattle.std.specs.Prelude.{◌≡◌, ◌^◌, ◌<◌, ◌≤◌, ℕ, Contains, List, [], length, slice_index, take};
ghost use Rattle.filter_engine.specs.StateLists.{AddsAll, AddsState, IsListed};

use crate::machine::state_flags::StateFlags;
use regex_nfa::StateId;
use std::marker::Model;

/// A list of states below `ROOM`, in which none comes twice.
#[derive(Drop)]
pub struct StateList<const ROOM: usize> {
    listed: StateFlags<ROOM>,
    states: [u16; ROOM],
    len: usize,
}

/// The states, in the order in which they were added.
impl<const ROOM: usize> Model for StateList<ROOM> {
    ghost Value = { List ℕ };

    ghost view = { λ list. take list.len list.states };

    ghost invariant = { λ list. IsListed ROOM list.listed list.states list.len };
}

impl<const ROOM: usize> StateList<ROOM> {
    /// No state.
    pub fn new() -> Self
        requires { ROOM ≤ 2 ^ 16 }
        ensures { result ≡ [] }
    {
        StateList {
            listed: StateFlags::new(),
            states: [0; ROOM],
            len: 0,
        }
    }

    /// How many states there are.
    pub fn len(&self) -> usize
        ensures len { result ≡ length self.now }
        ensures few { length self.now ≤ ROOM }
    {
        self.len
    }

    /// The state at an index.
    pub fn get(&self, index: usize) -> StateId
        requires { index < length self.now }
        ensures { result ≡ slice_index self.now index }
    {
        let states = &self.states;
        StateId::from(states[index])
    }

    /// The states, in the order in which they were added.
    pub fn as_slice(&self) -> &[u16]
        ensures { result.now ≡ self.now }
    {
        &self.states[..self.len]
    }

    /// Takes all states out, in time in proportion to their number.
    pub fn clear(&mut self)
        ensures { self.new ≡ [] }
    {
        self.listed.remove_all(&self.states[..self.len]);
        self.len = 0;
    }

    /// Adds a state at the end, unless it is there.
    pub fn insert(&mut self, state: StateId)
        requires { state < ROOM }
        ensures { AddsState state self.old self.new }
    {
        if self.listed.insert(state as usize) {
            self.states[self.len] = state as u16;
            self.len += 1;
        }
    }

    /// Adds these states, each unless it is there.
    pub fn insert_all(&mut self, states: &[u16])
        requires { (q : ℕ) → Contains states.now q → q < ROOM }
        ensures { AddsAll states.now self.old self.new }
    {
        for state in states {
            self.insert(StateId::from(*state));
        }
    }
}
