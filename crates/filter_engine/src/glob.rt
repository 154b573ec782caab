//! Globs over whole names.
ghost use Rattle.std.specs.Prelude.{◌≡◌, ◌<◌, ◌≤◌, ◌↔◌, ℕ, List, string_bytes, IfOk, OnOk, IsTrue, MatchOption, Err, nat_lt};
ghost use Rattle.filter_engine.specs.Globs.{IsGlob, GlobMatches, IsGlobMachine, IsPlain};
ghost use Rattle.filter_engine.specs.GlobSizes as sizes;
ghost use Rattle.filter_engine.specs.RegexSizes.{most_states};

mod class;
mod fault;
mod part;
mod pattern;
mod place;
mod row;
mod size;

use crate::machine::{Machine, SearchTable};
use crate::regex_size::is_too_large;
use fault::RowFault;
use part::is_plain;
use pattern::whole_pattern;
use row::read_row;
use size::glob_size;
use std::alloc::{AllocError, Global};
use std::marker::Model;
use thiserror::Error;

/// Why a text gives no glob.
#[derive(Clone, Copy, Debug, PartialEq, Eq, Error)]
pub enum GlobFault {
    /// A backslash is at the end, a bracket or brace is not closed or closes nothing, the end
    /// of a range comes before its start, a class has a byte beyond ASCII, or groups nest more than
    /// 250 deep.
    #[error("invalid glob")]
    Malformed,
    /// The automaton may take more than 16,384 states.
    #[error("glob too large")]
    TooLarge,
    /// Memory ran out.
    #[error("out of memory")]
    Memory,
}

impl From<AllocError> for GlobFault {
    ghost use Rattle.filter_engine.specs.declared.glob.GlobFault.TheVariants.{Memory};

    ghost from_gives = { λ _ fault. fault ≡ Memory };

    fn from(_error: AllocError) -> GlobFault {
        GlobFault::Memory
    }
}

/// A glob that is compiled. One without special bytes takes the name that it is, and has no
/// automaton.
#[derive(Drop)]
pub struct GlobMatcher {
    text: String,
    machine: Option<Machine>,
}

/// The text that writes it.
impl Model for GlobMatcher {
    ghost Value = { List ℕ };

    ghost view = { λ glob. string_bytes glob.text };

    ghost invariant = { λ glob. MatchOption glob.machine (IsPlain (string_bytes glob.text))
        (λ machine. IsGlobMachine (string_bytes glob.text) machine.nfa) };
}

// The levels of groups that a glob may have.
const MOST_LEVELS: u8 = 250;

impl GlobMatcher {
    /// The glob of a text.
    ///
    /// # Errors
    ///
    /// [`GlobFault::Malformed`] where the text writes none, [`GlobFault::TooLarge`] where the
    /// automaton may take more than 16,384 states, and [`GlobFault::Memory`] where memory ran out.
    pub fn parse(alloc: Global, text: &str, table: SearchTable) -> Result<GlobMatcher, GlobFault>
        ensures text { IfOk result (λ glob. glob ≡ text.now) }
        ensures written { OnOk result (IsGlob text.now) }
        ensures small { OnOk result (sizes.glob_size text.now ≤ most_states) }
        ensures malformed { result ≡ Err GlobFault.Malformed → IsGlob text.now → ⊥ }
        ensures large { result ≡ Err GlobFault.TooLarge
            → IsGlob text.now × (most_states < sizes.glob_size text.now) }
    {
        if is_plain(text.as_bytes()) {
            if is_large(text) {
                return Err(GlobFault::TooLarge);
            }
            let text = String::from_str(alloc, text)?;
            return Ok(GlobMatcher {
                text,
                machine: None,
            });
        }
        let machine = compile(alloc, text, table)?;
        let text = String::from_str(alloc, text)?;
        Ok(GlobMatcher {
            text,
            machine: Some(machine),
        })
    }

    /// The text that writes the glob.
    pub fn text(&self) -> &str
        ensures { result.now ≡ self.now }
    {
        self.text.as_str()
    }

    /// Whether the glob takes a whole name.
    pub fn has_match(&self, name: &str) -> bool
        ensures { IsTrue result ↔ GlobMatches self.now name.now }
    {
        match &self.machine {
            None => is_same(self.text.as_str(), name),
            Some(machine) => is_taken(machine, name),
        }
    }
}

// Whether a name is this text.
fn is_same(text: &str, name: &str) -> bool
    ensures { IsTrue result ↔ (name.now ≡ text.now) }
{
    text == name
}

// Whether a glob with this automaton takes a whole name.
fn is_taken(machine: &Machine, name: &str) -> bool
    ensures { (text : List ℕ) → IsGlobMachine text machine.now.nfa
        → IsTrue result ↔ GlobMatches text name.now }
{
    machine.has_match(name.as_bytes())
}

// Whether the automaton for the glob of a text may take too many states.
fn is_large(text: &str) -> bool
    ensures { result ≡ nat_lt most_states (sizes.glob_size text.now) }
{
    is_too_large(glob_size(text.as_bytes()))
}

// The automaton for the glob of a text.
fn compile(alloc: Global, text: &str, table: SearchTable) -> Result<Machine, GlobFault>
    ensures machine { IfOk result (λ machine. IsGlobMachine text.now machine.nfa) }
    ensures written { OnOk result (IsGlob text.now) }
    ensures small { OnOk result (sizes.glob_size text.now ≤ most_states) }
    ensures malformed { result ≡ Err GlobFault.Malformed → IsGlob text.now → ⊥ }
    ensures large { result ≡ Err GlobFault.TooLarge
        → IsGlob text.now × (most_states < sizes.glob_size text.now) }
{
    let (patterns, _len) = match read_row(alloc, text.as_bytes(), false, MOST_LEVELS) {
        Ok(read) => read,
        Err(RowFault::Malformed) => return Err(GlobFault::Malformed),
        Err(RowFault::Memory) => return Err(GlobFault::Memory),
    };
    if is_large(text) {
        return Err(GlobFault::TooLarge);
    }
    let machine = Machine::compile(alloc, &whole_pattern(alloc, patterns)?, 1, table)?;
    Ok(machine)
}
