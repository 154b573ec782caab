//! Texts that are sought in names.
ghost use Rattle.std.specs.Prelude.{◌≡◌, ◌↔◌, ◌<◌, ◌≤◌, ◌+◌, length, IfOk, IsTrue};
ghost use Rattle.std.specs.Str.Iter.{HasSubslice};
ghost use Rattle.memchr.specs.Find.{OccursAt};

use memchr::memchr;
use std::alloc::{AllocError, Global};
use std::marker::Model;

/// A text that is sought in names by one of its bytes, which few names have.
#[derive(Drop)]
pub struct PartMatcher {
    text: String,
    index: usize,
}

/// The text.
impl Model for PartMatcher {
    ghost use Rattle.std.specs.Prelude.{ℕ, List, ◌<◌, length, string_bytes};

    ghost Value = { List ℕ };

    ghost view = { λ part. string_bytes part.text };

    ghost invariant = { λ part. 0 < length (string_bytes part.text)
        → part.index < length (string_bytes part.text) };
}

impl PartMatcher {
    /// Seeks a text.
    pub fn new(alloc: Global, text: &str) -> Result<PartMatcher, AllocError>
        ensures { IfOk result (λ part. part ≡ text.now) }
    {
        let index = rarest(text.as_bytes());
        let text = String::from_str(alloc, text)?;
        Ok(PartMatcher { text, index })
    }

    /// The text.
    pub fn text(&self) -> &str
        ensures { result.now ≡ self.now }
    {
        self.text.as_str()
    }

    /// Whether the text is a part of a name.
    pub fn has_match(&self, name: &str) -> bool
        ensures { IsTrue result ↔ HasSubslice name.now self.now }
    {
        let text = self.text.as_bytes();
        if text.len() == 0 {
            return true;
        }
        has_part(name.as_bytes(), text, self.index)
    }
}

// Whether a text is a part of a name. The search looks for the byte at this index of the text.
fn has_part(name: &[u8], text: &[u8], index: usize) -> bool
    requires { index < length text.now }
    ensures { IsTrue result ↔ HasSubslice name.now text.now }
{
    if name.len() < text.len() {
        return false;
    }
    let last = name.len() - text.len();
    let mut start = 0;
    while start <= last {
        let Some(ahead) = memchr(text[index], &name[start + index..]) else {
            return false;
        };
        start += ahead;
        if start > last {
            return false;
        }
        if stands_at(name, text, start) {
            return true;
        }
        start += 1;
    }
    false
}

// Whether a text is in a name from this place on.
fn stands_at(name: &[u8], text: &[u8], start: usize) -> bool
    requires { start + length text.now ≤ length name.now }
    ensures { IsTrue result ↔ OccursAt name.now text.now start }
{
    &name[start..start + text.len()] == text
}

// How often the names of tests and binaries have each byte of ASCII, by groups. The search gives the
// same result whatever this says.
const FREQUENCIES: [u8; 128] = [
    0, 0, 0, 0, 0, 0, 0, 0, 0, 0, 0, 0, 0, 0, 0, 0, 0, 0, 0, 0, 0, 0, 0, 0, 0, 0, 0, 0, 0, 0, 0, 0,
    0, 0, 0, 0, 0, 0, 0, 0, 0, 0, 0, 0, 0, 2, 0, 0, 2, 2, 2, 2, 2, 2, 2, 2, 2, 2, 5, 0, 0, 0, 0, 0,
    0, 0, 0, 0, 0, 0, 0, 0, 0, 0, 0, 0, 0, 0, 0, 0, 0, 0, 0, 0, 0, 0, 0, 0, 0, 0, 0, 0, 0, 0, 0, 5,
    0, 4, 2, 3, 3, 5, 2, 2, 2, 4, 1, 1, 3, 3, 4, 4, 3, 1, 4, 5, 5, 3, 2, 2, 1, 2, 1, 0, 0, 0, 0, 0,
];

// The index of a byte that few names have, if the text has any.
fn rarest(text: &[u8]) -> usize
    ensures { 0 < length text.now → result < length text.now }
{
    let mut best = 0;
    let mut least = u8::MAX;
    for i in 0..text.len() {
        let rank = frequency(text[i]);
        if rank < least {
            best = i;
            least = rank;
        }
    }
    best
}

// How often names have a byte, of which those beyond ASCII are the rarest.
fn frequency(byte: u8) -> u8 {
    if byte >= 128 {
        return 0;
    }
    FREQUENCIES[byte as usize]
}
