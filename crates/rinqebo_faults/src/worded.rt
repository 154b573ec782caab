//! Texts that are refused, with the part at fault, and what is wrong with that part, in words.
ghost use Rattle.std.specs.Prelude.{◌≡◌, ℕ, List, IfOk, length, string_bytes};
ghost use Rattle.rinqebo_faults.specs.Worded.{first_of, IsPart, IsWorded, place_of};

use std::alloc::{AllocError, Global};

/// The character that a text begins with.
#[tactic(auto, unfolding(crate::specs::Worded::first_of))]
pub fn first_of(text: &str) -> &str
    ensures { result.now ≡ first_of text.now }
{
    match text.chars().next() {
        Some(c) => text.get(..c.len_utf8()).unwrap_or(""),
        None => "",
    }
}

/// A text that is refused, and where its reader stopped, and why.
#[derive(Clone, Copy)]
pub struct Stopped<'t> {
    /// The text.
    pub text: &'t str,
    /// The byte at which the part starts that is at fault.
    pub start: usize,
    /// The byte behind that part.
    pub end: usize,
    /// Why, as the reader words it.
    pub label: &'t str,
}

impl<'t> Stopped<'t> {
    /// The text before the part.
    pub fn before(self) -> &'t str
        ensures { IsPart self.entry.text.now 0 self.entry.start result.now }
    {
        self.text.get(..self.start).unwrap_or("")
    }

    /// The text from the part on.
    pub fn rest(self) -> &'t str
        ensures { IsPart self.entry.text.now self.entry.start (length self.entry.text.now) result.now }
    {
        self.text.get(self.start..).unwrap_or("")
    }

    /// The part.
    pub fn part(self) -> &'t str
        ensures { IsPart self.entry.text.now self.entry.start self.entry.end result.now }
    {
        self.text.get(self.start..self.end).unwrap_or("")
    }

    /// The first character from the part on.
    pub fn first(self) -> &'t str
        ensures { (rest : List ℕ) × IsPart self.entry.text.now self.entry.start
            (length self.entry.text.now) rest × (result.now ≡ first_of rest) }
    {
        first_of(self.rest())
    }

    /// Where some text that follows the start is, which ends with the whole text.
    #[tactic(auto, unfolding(crate::specs::Worded::place_of))]
    pub fn place_of(self, rest: &str, len: usize) -> (usize, usize)
        ensures { result ≡ place_of self.entry.text.now rest.now len }
    {
        let start = self.text.len().saturating_sub(rest.len());
        (start, start.saturating_add(len))
    }
}

/// What is wrong with a part of a text, in words.
#[derive(Drop)]
pub struct Worded {
    /// The byte at which the part starts.
    pub start: usize,
    /// The byte behind it.
    pub end: usize,
    /// What is wrong there.
    pub message: String,
    /// What is expected there.
    pub expected: Option<String>,
    /// What to do.
    pub help: Option<String>,
}

impl Worded {
    /// What is wrong with a part.
    pub fn of(
        alloc: Global,
        place: (usize, usize),
        message: String,
        expected: &str,
    ) -> Result<Worded, AllocError>
        ensures { IfOk result (λ worded. IsWorded place (string_bytes message) expected.now worded) }
    {
        Ok(Worded {
            start: place.0,
            end: place.1,
            message,
            expected: Some(String::from_str(alloc, expected)?),
            help: None,
        })
    }

    /// What is wrong with a part, where that needs no text of its own.
    pub fn plain(
        alloc: Global,
        place: (usize, usize),
        message: &str,
        expected: &str,
    ) -> Result<Worded, AllocError>
        ensures { IfOk result (λ worded. IsWorded place message.now expected.now worded) }
    {
        Worded::of(alloc, place, String::from_str(alloc, message)?, expected)
    }

    /// The same with something to do.
    pub fn advised(self, help: Option<String>) -> Worded
        ensures { result ≡ record self { help = help } }
    {
        let mut worded = self;
        worded.help = help;
        worded
    }
}
