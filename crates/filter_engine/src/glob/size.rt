//! How many states the automaton of a glob takes at most.
ghost use Rattle.std.specs.Prelude.{◌≡◌};
ghost use Rattle.filter_engine.specs.GlobSizes as sizes;

// Numbers of states beyond 65,536 count as that.
fn with_states(states: u32, byte: u8) -> u32
    ensures { result ≡ sizes.with_states states byte }
{
    let more = if byte == b'*' { 3 } else { 1 };
    let number = u64::from(states) + more;
    if number < 65536 { number as u32 } else { 65536 }
}

/// How many states the automaton of the glob of a text takes at most.
pub fn glob_size(text: &[u8]) -> u32
    ensures { result ≡ sizes.glob_size text.now }
{
    let mut states = 16;
    for i in 0..text.len() {
        states = with_states(states, text[i]);
    }
    states
}
