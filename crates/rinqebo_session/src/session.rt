//! Sessions.
ghost use Rattle.std.specs.Prelude.{◌≡◌, string_bytes};
ghost use Rattle.rinqebo_session.specs.Copies.{IsCopiedOut};
ghost use Rattle.rinqebo_session.specs.Sessions.{IsSessionOf, MayFailFor, session_status};

use crate::copies::copy_out;
use crate::failure::Failure;
use crate::loading::{Loaded, loaded_from};
use crate::status::DONE;
use std::alloc::Global;

/// A configuration that was loaded, or why there is none.
#[derive(Drop)]
pub struct Session {
    /// What was loaded.
    pub outcome: Result<Loaded, Failure>,
    /// Why it has no configuration; empty where it has one.
    pub reason: String,
}

/// The session that says why there is no configuration.
fn refused(alloc: Global, failure: Failure) -> Session
    ensures { MayFailFor failure result }
{
    match format!(in alloc; "{failure}") {
        Ok(reason) => Session {
            outcome: Err(failure),
            reason,
        },
        Err(_) => Session {
            outcome: Err(Failure::Memory),
            reason: String::new(alloc),
        },
    }
}

impl Session {
    /// The session of a request in JSON. It is always returned: where it has no configuration, its
    /// status says why, and its reason is the message.
    pub fn load(alloc: Global, request: &[u8]) -> Session
        ensures { IsSessionOf request.now result }
    {
        match loaded_from(alloc, request) {
            Ok(loaded) => Session {
                outcome: Ok(loaded),
                reason: String::new(alloc),
            },
            Err(failure) => refused(alloc, failure),
        }
    }

    /// How the load went.
    pub fn status(&self) -> u32
        ensures { result ≡ session_status self.now }
    {
        match &self.outcome {
            Ok(_) => DONE,
            Err(failure) => failure.status(),
        }
    }

    /// Copies out why it has no configuration. The text is empty where it has one.
    pub fn copy_reason(&self, out: &mut [u8], needed: &mut usize) -> u32
        ensures { IsCopiedOut (string_bytes self.now.reason) out.old out.new needed.new result }
    {
        copy_out(self.reason.as_bytes(), out, needed)
    }
}
