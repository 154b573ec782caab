//! Runs whose endings are kept, and read by pieces.
ghost use Rattle.std.specs.Prelude.{◌≡◌, ◌++◌, drop, length, take};
ghost use Rattle.rinqebo_resolve.specs.Endings.{ending_status, ending_text};
ghost use Rattle.rinqebo_resolve.specs.Pieces.{IsPieceOf, IsRunOf};

use crate::ending::Ending;
use crate::resolving::ending_for;
use std::alloc::Global;

/// A run that has ended.
#[derive(Drop)]
pub struct Run {
    /// How it ended.
    pub ending: Ending,
}

/// Copies the part of a text from an offset on that a buffer has room for, and returns how long
/// that is.
fn copy_from(text: &[u8], offset: usize, out: &mut [u8]) -> usize
    ensures count { result ≡ length (take (length out.old) (drop offset text.now)) }
    ensures written { out.new
        ≡ take (length out.old) (drop offset text.now) ++ drop result out.old }
{
    let left = &text[offset.min(text.len())..];
    let count = left.len().min(out.len());
    out[..count].copy_from_slice(&left[..count]);
    count
}

impl Run {
    /// The run of the bytes of a request. There always is one: its status says how it ended.
    pub fn new(alloc: Global, request: &[u8]) -> Run
        ensures { IsRunOf request.now result }
    {
        let ending = ending_for(alloc, request);
        Run { ending }
    }

    /// The number of how it ended.
    pub fn status(&self) -> u32
        ensures { result ≡ ending_status self.now.ending }
    {
        self.ending.status()
    }

    /// The length of its text.
    pub fn length(&self) -> usize
        ensures { result ≡ length (ending_text self.now.ending) }
    {
        self.ending.text().len()
    }

    /// Copies the part of its text from an offset on that a buffer has room for, and returns how
    /// long that is.
    pub fn copy_piece(&self, offset: usize, out: &mut [u8]) -> usize
        ensures { IsPieceOf (ending_text self.now.ending) offset out.old out.new result }
    {
        copy_from(self.ending.text().as_bytes(), offset, out)
    }
}
