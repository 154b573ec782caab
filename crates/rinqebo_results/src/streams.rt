//! Writes texts to the streams of a run. Where a write fails, a beginning of the text went out.
ghost use Rattle.std.specs.Prelude.{◌≤◌, IfOk, OnErr, OnOk, flat_map, length, take};
ghost use Rattle.std.specs.Io.KnownBytes.{Appends, Keeps};
ghost use Rattle.rinqebo_results.specs.Prefixes.{AppendsPrefix};

use std::io::{Error, ErrorKind, Write};

/// A write failed, or the writer took nothing.
#[derive(Clone, Copy, Debug, PartialEq, Eq)]
pub struct WriteFault;

/// Whether a write was interrupted before the writer took anything.
fn is_interrupted(error: &Error) -> bool {
    matches!(error.kind(), ErrorKind::Interrupted)
}

/// Writes a beginning of some bytes, and returns how many it has: none where the write was
/// interrupted.
#[tactic(auto, using(crate::proofs::Prefixes::kept_of_none, crate::proofs::Prefixes::none_of_kept))]
fn write_some<W: Write>(bytes: &[u8], out: &mut W) -> Result<usize, WriteFault>
    ensures bound { IfOk result (λ count. count ≤ length bytes.now) }
    ensures taken { IfOk result (λ count. Appends (W.contents out.old) (W.contents out.new)
        (take count bytes.now)) }
    ensures kept { OnErr result (Keeps (W.contents out.old) (W.contents out.new)) }
{
    match out.write(bytes) {
        Ok(0) => Err(WriteFault),
        Ok(count) => Ok(count),
        Err(error) if is_interrupted(&error) => Ok(0),
        Err(_) => Err(WriteFault),
    }
}

/// Writes bytes, in as many calls as the writer takes.
pub fn write_bytes<W: Write>(bytes: &[u8], out: &mut W) -> Result<(), WriteFault>
    ensures ok { OnOk result (Appends (W.contents out.old) (W.contents out.new) bytes.now) }
    ensures begun { AppendsPrefix (W.contents out.old) (W.contents out.new) bytes.now }
{
    let mut rest = bytes;
    for _ in 0..u64::MAX {
        if rest.is_empty() {
            return Ok(());
        }
        let count = write_some(rest, out)?;
        rest = &rest[count..];
    }
    Err(WriteFault)
}

/// Writes a text, and flushes the writer.
#[tactic(auto, using(crate::proofs::Prefixes::prefix_kept))]
pub fn write_whole<W: Write>(text: &str, out: &mut W) -> Result<(), WriteFault>
    ensures ok { OnOk result (Appends (W.contents out.old) (W.contents out.new) text.now) }
    ensures begun { AppendsPrefix (W.contents out.old) (W.contents out.new) text.now }
{
    write_bytes(text.as_bytes(), out)?;
    match out.flush() {
        Ok(()) => Ok(()),
        Err(_) => Err(WriteFault),
    }
}

/// Writes texts one after another.
fn write_each<W: Write>(texts: &[&str], out: &mut W) -> Result<(), WriteFault>
    ensures ok { OnOk result (Appends (W.contents out.old) (W.contents out.new)
        (flat_map (λ text. text.now) texts.now)) }
    ensures begun { AppendsPrefix (W.contents out.old) (W.contents out.new)
        (flat_map (λ text. text.now) texts.now) }
{
    for text in texts {
        write_bytes(text.as_bytes(), out)?;
    }
    Ok(())
}

/// Writes texts one after another, and flushes the writer.
#[tactic(auto, using(crate::proofs::Prefixes::prefix_kept))]
pub fn write_texts<W: Write>(texts: &[&str], out: &mut W) -> Result<(), WriteFault>
    ensures ok { OnOk result (Appends (W.contents out.old) (W.contents out.new)
        (flat_map (λ text. text.now) texts.now)) }
    ensures begun { AppendsPrefix (W.contents out.old) (W.contents out.new)
        (flat_map (λ text. text.now) texts.now) }
{
    write_each(texts, out)?;
    match out.flush() {
        Ok(()) => Ok(()),
        Err(_) => Err(WriteFault),
    }
}
