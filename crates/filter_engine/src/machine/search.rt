//! A search for a match of an automaton in a name.
ghost use Rattle.std.specs.Prelude.{◌≡◌, ◌+◌, ◌≤◌, [], length, vec_len, IsTrue, ◌<◌, ◌↔◌};
ghost use Rattle.regex_nfa.specs.Run.{state_of};
ghost use Rattle.regex_nfa.specs.declared.state.State.TheVariants as state;
ghost use Rattle.filter_engine.specs.StateLists.{HasSame};
ghost use Rattle.filter_engine.specs.Runs.{finds, in_turn, AreStates, AddsTargets, Closes, IsSearched, Reads, ReadsState, Steps};

use crate::machine::state_list::StateList;
use regex_nfa::{Nfa, State, StateId, holds};

/// What searches by an automaton, with lists that have room for so many states.
///
/// The lists are on the stack, where making them takes time in proportion to their room.
#[derive(Drop)]
pub struct Search<'a, const ROOM: usize> {
    pub nfa: &'a Nfa,
    ghost few: { (vec_len nfa.now.states ≤ ROOM) × (ROOM ≤ 16384) },
}

impl<const ROOM: usize> Search<'_, ROOM> {
    /// Whether there is a match somewhere in the name, where the search has come to this position in
    /// these states.
    pub fn has_match(&self, name: &[u8], from: usize, states: &[u16]) -> bool
        requires from { from ≤ length name.now }
        requires searched { ∥ IsSearched self.now.nfa.now name.now from states.now ∥₁ }
        ensures { result ≡ finds self.now.nfa.now name.now }
    {
        let mut even = StateList::new();
        let mut odd = StateList::new();
        self.put(from, states, &mut even, &mut odd);
        for at in from..name.len() + 1 {
            if self.turn(name, at, &mut even, &mut odd) {
                return true;
            }
        }
        false
    }

    // Puts states into that of the lists, which are empty, from which the step at this position is made.
    fn put(&self, at: usize, states: &[u16], even: &mut StateList<ROOM>, odd: &mut StateList<ROOM>)
        requires states { AreStates self.now.nfa.now states.now }
        requires none { in_turn at even.old odd.old ≡ [] }
        ensures states { AreStates self.now.nfa.now (in_turn at even.new odd.new) }
        ensures same { HasSame states.now (in_turn at even.new odd.new) }
    {
        if at % 2 == 0 {
            even.insert_all(states);
        } else {
            odd.insert_all(states);
        }
    }

    // Makes the step at this position, from the one list to the other in turn.
    fn turn(
        &self,
        name: &[u8],
        at: usize,
        even: &mut StateList<ROOM>,
        odd: &mut StateList<ROOM>,
    ) -> bool
        requires at { at ≤ length name.now }
        requires states { AreStates self.now.nfa.now (in_turn at even.old odd.old) }
        ensures states { AreStates self.now.nfa.now (in_turn (at + 1) even.new odd.new) }
        ensures step { Steps self.now.nfa.now name.now at (in_turn at even.old odd.old)
            (in_turn (at + 1) even.new odd.new) result }
    {
        if at % 2 == 0 {
            self.step(name, at, even, odd)
        } else {
            self.step(name, at, odd, even)
        }
    }

    // Whether a match ends here that begins at this position or began before it, in one of these
    // states. If none does, the states behind the byte at the position are left in `next`.
    fn step(
        &self,
        name: &[u8],
        at: usize,
        states: &mut StateList<ROOM>,
        next: &mut StateList<ROOM>,
    ) -> bool
        requires at { at ≤ length name.now }
        requires states { AreStates self.now.nfa.now states.old }
        ensures states { AreStates self.now.nfa.now next.new }
        ensures step { Steps self.now.nfa.now name.now at states.old next.new result }
    {
        states.insert(self.nfa.start);
        next.clear();
        if self.close(name, at, states) {
            return true;
        }
        if at == name.len() {
            return false;
        }
        self.advance(name[at], states, next);
        false
    }

    /// Adds the states to which these lead with no byte, and says whether one of all ends a match.
    pub fn close(&self, name: &[u8], at: usize, states: &mut StateList<ROOM>) -> bool
        requires at { at ≤ length name.now }
        requires states { AreStates self.now.nfa.now states.old }
        ensures states { AreStates self.now.nfa.now states.new }
        ensures closes { Closes self.now.nfa.now name.now at states.old states.new result }
    {
        let mut done = 0;
        while done < states.len() {
            let id = states.get(done);
            if self.follow(name, at, id, states) {
                return true;
            }
            done += 1;
        }
        false
    }

    // Adds the states to which this one leads with no byte, and says whether it ends a match.
    fn follow(&self, name: &[u8], at: usize, id: StateId, states: &mut StateList<ROOM>) -> bool
        requires { id < vec_len self.now.nfa.now.states }
        ensures ends { IsTrue result ↔ (state_of self.now.nfa.now id ≡ state.Match) }
        ensures targets { AddsTargets self.now.nfa.now name.now at id states.old states.new }
    {
        match self.nfa.state(id) {
            State::Match => return true,
            State::Split { first, second } => {
                states.insert(first);
                states.insert(second);
            }
            State::Save { next, .. } => states.insert(next),
            State::Look { look, next } => {
                if holds(look, name, at) {
                    states.insert(next);
                }
            }
            State::ByteRange(_) | State::Sparse { .. } | State::Fail => {}
        }
        false
    }

    /// Adds the states to which these lead on a byte.
    pub fn advance(&self, byte: u8, states: &StateList<ROOM>, next: &mut StateList<ROOM>)
        requires { AreStates self.now.nfa.now states.now }
        ensures { Reads self.now.nfa.now byte states.now next.old next.new }
    {
        for i in 0..states.len() {
            self.read(byte, states.get(i), next);
        }
    }

    // Adds the state to which this one leads on a byte, if there is one.
    fn read(&self, byte: u8, id: StateId, next: &mut StateList<ROOM>)
        requires { id < vec_len self.now.nfa.now.states }
        ensures { ReadsState self.now.nfa.now byte id next.old next.new }
    {
        if let Some(target) = self.nfa.next_on(self.nfa.state(id), byte) {
            next.insert(target);
        }
    }
}
