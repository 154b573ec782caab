//! Writers that fail: nothing is written afterwards, and the status is right.
use nextest_config::ReadOutcome;
use nextest_explain::explain;
use nextest_sources::FileReader;
use std::alloc::{AllocError, Global};
use std::io::{self, ErrorKind, Write};
use std::process::Abort;
use std::test::Fail;

/// A disk with one file, which has a key that is not known.
struct OneFile;

impl FileReader for OneFile {
    ghost MayGive = { λ _ _ _. Unit {0} };

    fn read(&self, alloc: Global, path: &str) -> Result<ReadOutcome, AllocError> {
        match path {
            "z" => Ok(ReadOutcome::Text(String::from_str(alloc, "zz = 1")?)),
            "full" => Err(AllocError),
            _ => Ok(ReadOutcome::NotFound),
        }
    }

    fn has_folder(&self, _path: &str) -> bool {
        false
    }
}

/// A writer that takes this many bytes and then fails, or fails to flush, and counts the writes and
/// flushes that come after that.
#[derive(Clone, Copy)]
struct Failing {
    room: usize,
    can_flush: bool,
    taken: usize,
    failed: bool,
    tries_after: usize,
}

impl Failing {
    /// Counts a call that comes after a failure.
    fn count_call(&mut self) {
        if self.failed {
            self.tries_after = self.tries_after.wrapping_add(1);
        }
    }
}

impl Write for Failing {
    fn write(&mut self, buf: &[u8]) -> io::Result<usize> {
        self.count_call();
        let count = buf.len().min(self.room);
        if count == 0 {
            self.failed = true;
            return Err(io::Error::from(ErrorKind::BrokenPipe));
        }
        self.room -= count;
        self.taken = self.taken.wrapping_add(count);
        Ok(count)
    }

    fn flush(&mut self) -> io::Result<()> {
        self.count_call();
        if self.can_flush {
            return Ok(());
        }
        self.failed = true;
        Err(io::Error::from(ErrorKind::BrokenPipe))
    }
}

fn failing_after(room: usize) -> Failing {
    Failing {
        room,
        can_flush: true,
        taken: 0,
        failed: false,
        tries_after: 0,
    }
}

/// The words of a line, parted by spaces.
fn words_of(alloc: Global, line: &str) -> Result<Vec<String>, AllocError> {
    line.split(' ')
        .map(|word| String::from_str(alloc, word))
        .try_collect(alloc)
}

/// The status of the program with these words.
fn status_of(
    alloc: Global,
    line: &str,
    out: &mut Failing,
    err: &mut Failing,
) -> Result<u8, AllocError> {
    let words = words_of(alloc, line)?;
    Ok(explain(alloc, &words, &OneFile, out, err))
}

/// The bytes that the program writes to standard output and to standard error, where it ends with
/// this status.
fn check_whole(
    rt: &(impl AllocGlobal + Abort),
    line: &str,
    wanted: u8,
) -> Result<(usize, usize), Fail> {
    let mut out = failing_after(usize::MAX);
    let mut err = failing_after(usize::MAX);
    let status = status_of(rt.alloc(), line, &mut out, &mut err)?;
    assert!(rt; status == wanted, "at {line}");
    Ok((out.taken, err.taken))
}

/// Runs the program where both writers fail after so many bytes, which are too few, and checks how
/// many bytes each took.
fn check_failing(
    rt: &(impl AllocGlobal + Abort),
    room: usize,
    line: &str,
    whole: (usize, usize),
) -> Result<(), Fail> {
    let mut out = failing_after(room);
    let mut err = failing_after(room);
    let status = status_of(rt.alloc(), line, &mut out, &mut err)?;
    let from_out = if room < whole.1 { 0 } else { room };
    assert!(rt; status == 6, "at {line}, {room}");
    assert!(rt;
        out.taken == from_out && err.taken == room.min(whole.1),
        "at {line}, {room}"
    );
    assert!(rt;
        out.tries_after == 0 && err.tries_after == 0,
        "at {line}, {room}"
    );
    Ok(())
}

/// The arguments, and the status if the writers take all.
static ROWS: [(&str, u8); 7] = [
    ("/w default test b t", 0),
    ("/w default test b t --all", 0),
    ("/w default test b", 2),
    ("/w x test b t", 4),
    ("/w default test b t --config-file full", 5),
    ("/w default test b t --config-file z", 0),
    ("/w x test b t --config-file z", 4),
];

#[test]
fn nothing_follows_a_write_that_fails_at_some_byte(rt: HostRuntime) -> Result<(), Fail> {
    for &(line, status) in &ROWS {
        let whole = check_whole(&rt, line, status)?;
        for room in 0..whole.0.max(whole.1) {
            check_failing(&rt, room, line, whole)?;
        }
    }
    Ok(())
}

/// Runs the program where standard output takes all bytes and fails to flush: the status, and what
/// became of the writer.
fn without_flush(alloc: Global, line: &str) -> Result<(u8, Failing), AllocError> {
    let mut out = failing_after(usize::MAX);
    out.can_flush = false;
    let mut err = failing_after(usize::MAX);
    let status = status_of(alloc, line, &mut out, &mut err)?;
    Ok((status, out))
}

#[test]
fn a_flush_that_fails_ends_as_a_write_that_fails(rt: HostRuntime) -> Result<(), Fail> {
    let line = "/w default test b t --all";
    let (taken, _) = check_whole(&rt, line, 0)?;
    let (status, out) = without_flush(rt.alloc(), line)?;
    assert!(rt; status == 6);
    assert!(rt; out.failed && out.taken == taken && out.tries_after == 0);
    Ok(())
}

#[test]
fn lines_with_places_in_words_are_not_flushed(rt: HostRuntime) -> Result<(), Fail> {
    let (status, out) = without_flush(rt.alloc(), "/w default test b t")?;
    assert!(rt; status == 0 && !out.failed);
    Ok(())
}
