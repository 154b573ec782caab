//! The parts of a glob.
ghost use Rattle.std.specs.Prelude.{◌≡◌, ◌<◌, ◌≤◌, ◌↔◌, IfOk, IsTrue, Bool, length, drop, slice_index};
ghost use Rattle.filter_engine.specs.Globs as globs;
ghost use Rattle.filter_engine.specs.GlobReading.{BeginsFolders, BeginsLast, ReadsPart};
ghost use Rattle.filter_engine.specs.declared.glob.place.Place as places;

use crate::glob::fault::RowFault;
use crate::glob::place::Place;

/// A part of a glob.
#[derive(Clone, Copy)]
pub enum GlobPart {
    /// This byte.
    Byte(u8),
    /// Any one byte: `?`.
    AnyByte,
    /// Any bytes, also none: `*`.
    AnyBytes,
    /// Nothing, or any bytes that end in a slash: `**/` at the start of a row or behind a slash.
    Folders,
    /// Nothing: `**` at the end of a branch of nothing but folders.
    Nothing,
}

fn is_special(byte: u8) -> bool
    ensures { result ≡ globs.is_special byte }
{
    matches!(byte, b'?' | b'*' | b'[' | b'\\' | b'{' | b'}')
}

/// Whether no byte of a text is special, so that the glob takes that name alone.
pub fn is_plain(text: &[u8]) -> bool
    ensures { IsTrue result ↔ globs.IsPlain text.now }
{
    for byte in text {
        if is_special(*byte) {
            return false;
        }
    }
    true
}

/// Whether a row ends before this text: a glob with the text, and a branch of a group before a comma
/// or a closing brace.
pub fn ends_row(inside: bool, text: &[u8]) -> bool
    ensures { result ≡ globs.ends_row inside text.now }
{
    if text.len() == 0 {
        return !inside;
    }
    inside && (text[0] == b',' || text[0] == b'}')
}

/// The part at the front of a text, and how many bytes write it.
///
/// # Errors
///
/// [`RowFault::Malformed`] where there is no part: a backslash at the end, and the bytes of
/// classes and groups.
pub fn read_part(text: &[u8], inside: bool, place: Place) -> Result<(GlobPart, usize), RowFault>
    requires { 0 < length text.now }
    ensures part { ReadsPart inside place text.now result }
    ensures len { IfOk result (λ read. (0 < read.1) × (read.1 ≤ length text.now)) }
{
    let first = text[0];
    if !is_special(first) {
        return Ok((GlobPart::Byte(first), 1));
    }
    if first == b'?' {
        return Ok((GlobPart::AnyByte, 1));
    }
    if first == b'*' {
        return Ok(read_star(text, inside, place));
    }
    if first == b'\\' {
        return read_escaped(text);
    }
    Err(RowFault::Malformed)
}

fn read_star(text: &[u8], inside: bool, place: Place) -> (GlobPart, usize)
    requires some { 0 < length text.now }
    requires star { slice_index text.now 0 ≡ 42 }
    ensures part { globs.WritesPart inside place text.now result.0 (drop result.1 text.now) }
    ensures len { (0 < result.1) × (result.1 ≤ length text.now) }
{
    if begins_folders(text, place) {
        return (folders_part(inside, place, &text[3..]), 3);
    }
    if begins_last(text, inside, place) {
        return (GlobPart::Nothing, 2);
    }
    (GlobPart::AnyBytes, 1)
}

// Whether folders are at the front of a text, where they may be.
fn begins_folders(text: &[u8], place: Place) -> bool
    ensures { IsTrue result ↔ BeginsFolders place text.now }
{
    place.opens() && text.len() >= 3 && text[0] == b'*' && text[1] == b'*' && text[2] == b'/'
}

// What folders before this rest are.
fn folders_part(inside: bool, place: Place, rest: &[u8]) -> GlobPart
    ensures { result ≡ globs.folders_part inside place rest.now }
{
    if !inside && place.leads() && ends_row(inside, rest) {
        GlobPart::AnyBytes
    } else {
        GlobPart::Folders
    }
}

// Whether the last stars of a branch of folders are at the front of a text.
fn begins_last(text: &[u8], inside: bool, place: Place) -> bool
    ensures { IsTrue result ↔ BeginsLast inside place text.now }
{
    text.len() >= 2 && text[0] == b'*' && text[1] == b'*' && is_last(inside, place, &text[2..])
}

fn is_last(inside: bool, place: Place, rest: &[u8]) -> bool
    ensures { result ≡ globs.is_last inside place rest.now }
{
    match place {
        Place::BehindFolders => inside && ends_row(inside, rest),
        _ => false,
    }
}

fn read_escaped(text: &[u8]) -> Result<(GlobPart, usize), RowFault>
    requires some { 0 < length text.now }
    requires backslash { slice_index text.now 0 ≡ 92 }
    ensures part { (inside : Bool) (at : places.Place) → ReadsPart inside at text.now result }
    ensures len { IfOk result (λ read. (0 < read.1) × (read.1 ≤ length text.now)) }
{
    if text.len() < 2 {
        return Err(RowFault::Malformed);
    }
    Ok((GlobPart::Byte(text[1]), 2))
}
