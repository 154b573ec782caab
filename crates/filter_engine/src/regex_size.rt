//! How many states the automaton of a regular expression takes at most.
ghost use Rattle.std.specs.Prelude.{◌≡◌, IfOk, nat_lt};
ghost use Rattle.filter_engine.specs.RegexSizes as sizes;

mod scan;
mod size;
mod turn;

use scan::Scan;
use std::alloc::{AllocError, Global};

/// The most states of an automaton.
pub const MOST_STATES: usize = 16384;

/// Whether so many states are too many for an automaton.
pub fn is_too_large(states: u32) -> bool
    ensures { result ≡ nat_lt sizes.most_states states }
{
    MOST_STATES < states as usize
}

/// How many states the automaton of the regular expression of a text takes at most.
pub fn regex_size(alloc: Global, text: &[u8]) -> Result<u32, AllocError>
    ensures { IfOk result (λ size. size ≡ sizes.regex_size text.now) }
{
    let mut scan = Scan::new(alloc);
    for i in 0..text.len() {
        scan.read(text[i])?;
    }
    Ok(scan.whole())
}
