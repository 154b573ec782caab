//! A set of states as flags.
ghost use Rattle.std.specs.Prelude.{◌≡◌, ◌+◌, ◌<◌, ◌≤◌, Bool, false, true, not, List, length, All, slice_set, slice_index_or};
ghost use Rattle.std.specs.Bool.{MatchBool};
ghost use Rattle.regex_vm.specs.Bits.{members};
ghost use Rattle.filter_engine.specs.StateLists.{without};

use std::marker::Model;

/// A set of states below `ROOM`.
#[derive(Drop)]
pub struct StateFlags<const ROOM: usize> {
    flags: [bool; ROOM],
}

/// For each state, whether it is in the set.
impl<const ROOM: usize> Model for StateFlags<ROOM> {
    ghost Value = { List Bool };

    ghost view = { λ set. set.flags };
}

impl<const ROOM: usize> StateFlags<ROOM> {
    /// No state.
    pub fn new() -> Self
        ensures none { All (λ listed. listed ≡ false) result }
        ensures count { members result ≡ 0 }
        ensures len { length result ≡ ROOM }
    {
        StateFlags {
            flags: [false; ROOM],
        }
    }

    /// Adds a state, and says whether it was new.
    pub fn insert(&mut self, state: usize) -> bool
        requires { state < length self.old }
        ensures new { result ≡ not (slice_index_or self.old state false) }
        ensures after { self.new ≡ slice_set self.old state true }
        ensures counted { MatchBool result (members self.new ≡ members self.old + 1)
            (self.new ≡ self.old) }
        ensures within { members self.new ≤ length self.old }
        ensures len { length self.new ≡ length self.old }
    {
        let new = !self.flags[state];
        self.flags[state] = true;
        new
    }

    /// Takes these states out, in time in proportion to their number.
    pub fn remove_all(&mut self, states: &[u16])
        requires { All (λ state. state < length self.old) states.now }
        ensures { self.new ≡ without self.old states.now }
    {
        for i in 0..states.len() {
            self.flags[states[i] as usize] = false;
        }
    }
}
