//! Writes every setting of rows with its place.
ghost use Rattle.std.specs.Prelude.{◌≡◌, ◌≤◌, ◌<◌, OnOk, OnErr, IfOk, IfErr, length, map, take};
ghost use Rattle.std.specs.Io.KnownBytes.{Appends, Keeps};
ghost use Rattle.nextest_config.specs.RowView.{row_view};
ghost use Rattle.nextest_explain.specs.Lines.{lines_of, lines_telling};
ghost use Rattle.nextest_explain.specs.Writing.{AppendsBeginning, AppendsPrefix};
ghost use Rattle.nextest_explain.specs.declared.writing.ExplainFault.TheVariants as faults;

use crate::lines::lines_of_rows;
use crate::options::Places;
use nextest_config::run::TestRow;
use std::alloc::Global;
use std::io::Write;
use thiserror::Error;

/// Why the lines of rows were not written.
#[derive(Clone, Copy, Debug, PartialEq, Eq, Error)]
pub enum ExplainFault {
    /// A write failed, or took nothing. A beginning of the lines went out.
    #[error("a write failed")]
    Write,
    /// A growth of memory was refused. Nothing went out.
    #[error("out of memory")]
    Memory,
}

/// Writes a beginning of some bytes, and returns how many. A call that fails, whatever the cause,
/// or that takes none is a fault.
#[tactic(auto, using(crate::proofs::Writers::kept_of_none))]
fn write_some<W: Write>(bytes: &[u8], out: &mut W) -> Result<usize, ExplainFault>
    ensures bound { IfOk result (λ count. count ≤ length bytes.now) }
    ensures some { IfOk result (λ count. 0 < count) }
    ensures taken { IfOk result (λ count. Appends (W.contents out.old) (W.contents out.new)
        (take count bytes.now)) }
    ensures fault { IfErr result (λ fault. fault ≡ faults.Write) }
    ensures kept { OnErr result (Keeps (W.contents out.old) (W.contents out.new)) }
{
    match out.write(bytes) {
        Ok(0) | Err(_) => Err(ExplainFault::Write),
        Ok(count) => Ok(count),
    }
}

/// Writes bytes, in as many calls as the writer takes.
fn write_bytes<W: Write>(bytes: &[u8], out: &mut W) -> Result<(), ExplainFault>
    ensures ok { OnOk result (Appends (W.contents out.old) (W.contents out.new) bytes.now) }
    ensures fault { IfErr result (λ fault. fault ≡ faults.Write) }
    ensures begun { OnErr result
        (AppendsBeginning (W.contents out.old) (W.contents out.new) bytes.now) }
{
    let mut rest = bytes;
    while !rest.is_empty() {
        let count = write_some(rest, out)?;
        rest = &rest[count..];
    }
    Ok(())
}

/// Writes the lines of rows, with places as they are requested. All lines are made before the first
/// is written.
fn write_lines<W: Write>(
    alloc: Global,
    rows: &[TestRow],
    places: Places,
    out: &mut W,
) -> Result<(), ExplainFault>
    ensures ok { OnOk result (Appends (W.contents out.old) (W.contents out.new)
        (lines_telling places (map row_view rows.now))) }
    ensures begun { IfErr result (λ fault. fault ≡ faults.Write → AppendsBeginning
        (W.contents out.old) (W.contents out.new) (lines_telling places (map row_view rows.now))) }
    ensures memory { IfErr result (λ fault. fault ≡ faults.Memory → out.new ≡ out.old) }
{
    match lines_of_rows(alloc, rows, places) {
        Ok(text) => write_bytes(text.as_bytes(), out),
        Err(_) => Err(ExplainFault::Memory),
    }
}

/// Writes a line for each setting of each row, with its value and its place: `default`, `profile`,
/// `script`, a dash, or the override with its profile, its position there, and its file.
///
/// All lines are made before the first is written: so a refusal of memory leaves the writer as it
/// was. A call of the writer that fails, whatever the cause, or that takes no byte ends it. It does
/// not flush.
pub fn explain_all<W: Write>(
    alloc: Global,
    rows: &[TestRow],
    out: &mut W,
) -> Result<(), ExplainFault>
    ensures ok { OnOk result (Appends (W.contents out.old) (W.contents out.new)
        (lines_of (map row_view rows.now))) }
    ensures begun { IfErr result (λ fault. fault ≡ faults.Write → AppendsBeginning
        (W.contents out.old) (W.contents out.new) (lines_of (map row_view rows.now))) }
    ensures memory { IfErr result (λ fault. fault ≡ faults.Memory → out.new ≡ out.old) }
{
    write_lines(alloc, rows, Places::Whole, out)
}

/// Flushes a writer.
fn flush<W: Write>(out: &mut W) -> Result<(), ExplainFault>
    ensures fault { IfErr result (λ fault. fault ≡ faults.Write) }
    ensures kept { Keeps (W.contents out.old) (W.contents out.new) }
{
    match out.flush() {
        Ok(()) => Ok(()),
        Err(_) => Err(ExplainFault::Write),
    }
}

/// Writes the lines of rows, with places as they are requested, and flushes behind whole places.
pub fn write_rows<W: Write>(
    alloc: Global,
    rows: &[TestRow],
    places: Places,
    out: &mut W,
) -> Result<(), ExplainFault>
    ensures ok { OnOk result (Appends (W.contents out.old) (W.contents out.new)
        (lines_telling places (map row_view rows.now))) }
    ensures begun { IfErr result (λ fault. fault ≡ faults.Write → AppendsPrefix
        (W.contents out.old) (W.contents out.new) (lines_telling places (map row_view rows.now))) }
    ensures memory { IfErr result (λ fault. fault ≡ faults.Memory → out.new ≡ out.old) }
{
    write_lines(alloc, rows, places, out)?;
    match places {
        Places::Words => Ok(()),
        Places::Whole => flush(out),
    }
}
