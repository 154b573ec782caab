//! How a run ends.
ghost use Rattle.std.specs.Prelude.{◌≡◌};
ghost use Rattle.rinqebo_resolve.specs.Endings.{IsReported, ending_status, ending_text};

use rinqebo_session::copy_out;
use rinqebo_session::status::{
    DONE, MEMORY, NO_ENGINES, NO_PROFILE, NOT_TEXT, NOT_UNDERSTOOD, REFUSED, SMALL,
};

/// How a run ends.
#[derive(Drop)]
pub enum Ending {
    /// The run succeeds: the document of its result.
    Answered(String),
    /// The files are refused: the document that says why.
    Refused(String),
    /// There is no such profile: the document that says so.
    NoProfile(String),
    /// The list of tests, the metadata or a machine is not understood: the reason.
    NoEngines(String),
    /// The request is not understood: the reason.
    NotUnderstood(String),
    /// The request is not UTF-8.
    NotText,
    /// Memory was refused.
    Memory,
}

impl Ending {
    /// Its number.
    pub fn status(&self) -> u32
        ensures { result ≡ ending_status self.now }
    {
        match self {
            Ending::Answered(_) => DONE,
            Ending::Refused(_) => REFUSED,
            Ending::NoProfile(_) => NO_PROFILE,
            Ending::NoEngines(_) => NO_ENGINES,
            Ending::NotUnderstood(_) => NOT_UNDERSTOOD,
            Ending::NotText => NOT_TEXT,
            Ending::Memory => MEMORY,
        }
    }

    /// Its text, which is empty if the request is not UTF-8, and if memory ran out.
    pub fn text(&self) -> &str
        ensures { result.now ≡ ending_text self.now }
    {
        match self {
            Ending::Answered(text)
            | Ending::Refused(text)
            | Ending::NoProfile(text)
            | Ending::NoEngines(text)
            | Ending::NotUnderstood(text) => text.as_str(),
            Ending::NotText | Ending::Memory => "",
        }
    }

    /// Writes its text at the start of a buffer, and returns its number; or returns that the
    /// buffer is too small.
    pub fn report(&self, out: &mut [u8], needed: &mut usize) -> u32
        ensures { IsReported self.now out.old out.new needed.new result }
    {
        if copy_out(self.text().as_bytes(), out, needed) == SMALL {
            return SMALL;
        }
        self.status()
    }
}
