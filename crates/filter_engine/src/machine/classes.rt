//! Bytes that an automaton does not distinguish.
ghost use Rattle.std.specs.Prelude.{◌≡◌, ◌+◌, ◌<◌, ◌≤◌, ◌∷◌, ◌++◌, [], IfOk, OnOk, true, if◌then◌else◌, length, vec_len};
ghost use Rattle.regex_nfa.specs.declared.state.Transition.{Transition};
ghost use Rattle.filter_engine.specs.Classes.{AreClasses, IsCut, KeepsCuts, SeparatesBytes, flag};

use regex_nfa::{Nfa, State, Transition};
use std::alloc::{AllocError, Global};

/// Classes of the bytes of ASCII.
#[derive(Drop)]
pub struct Classes {
    /// The class of each byte.
    pub of: [u8; 128],
    /// A byte of each class.
    pub bytes: Vec<u8>,
}

impl Classes {
    /// The classes of bytes that an automaton does not distinguish.
    pub fn new(alloc: Global, nfa: &Nfa) -> Result<Classes, AllocError>
        ensures classes { IfOk result
            (λ classes. AreClasses nfa.now classes.of classes.bytes.items) }
        ensures few { IfOk result (λ classes. vec_len classes.bytes ≤ 128) }
        ensures size { IfOk result (λ classes. length classes.of ≡ 128) }
    {
        let cuts = cuts_of(nfa);
        let mut of = [0; 128];
        let mut bytes = Vec::new(alloc);
        for byte in 0..128 {
            add_byte(&mut bytes, byte as u8, cuts[byte])?;
            of[byte] = last_class(&bytes);
        }
        Ok(Classes { of, bytes })
    }
}

// Adds a byte with which a class begins.
fn add_byte(bytes: &mut Vec<u8>, byte: u8, begins: bool) -> Result<(), AllocError>
    ensures { OnOk result
        (bytes.new.items ≡ (if begins then bytes.old.items ++ byte ∷ [] else bytes.old.items)) }
{
    if begins {
        bytes.push(byte)?;
    }
    Ok(())
}

// The class that was begun last.
fn last_class(bytes: &Vec<u8>) -> u8
    requires some { 0 < vec_len bytes.now }
    requires few { vec_len bytes.now ≤ 256 }
    ensures { result + 1 ≡ vec_len bytes.now }
{
    (bytes.len() - 1) as u8
}

// For each byte, whether the automaton may distinguish it from the byte below it.
fn cuts_of(nfa: &Nfa) -> [bool; 257]
    ensures first { flag result 0 ≡ true }
    ensures others { SeparatesBytes nfa.now result }
{
    let mut cuts = [false; 257];
    cuts[0] = true;
    'states: for id in 0..nfa.states.len() {
        cut_state(&mut cuts, nfa.state(id as u32));
    }
    'transitions: for transition in &nfa.transitions {
        cut(&mut cuts, *transition);
    }
    cuts
}

// Cuts around the transition of a state that has one of its own.
fn cut_state(cuts: &mut [bool; 257], state: State)
    ensures cut { (transition : Transition) → state ≡ State.ByteRange transition
        → IsCut cuts.new transition }
    ensures keeps { KeepsCuts cuts.old cuts.new }
{
    if let State::ByteRange(transition) = state {
        cut(cuts, transition);
    }
}

// Cuts below the first byte of a transition, and above the last.
fn cut(cuts: &mut [bool; 257], transition: Transition)
    ensures cut { IsCut cuts.new transition }
    ensures keeps { KeepsCuts cuts.old cuts.new }
{
    cuts[transition.start as usize] = true;
    cuts[transition.end as usize + 1] = true;
}
