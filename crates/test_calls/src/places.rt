//! Writers that take little, nothing, or fail, while every setting of rows is written with its place:
//! what they took is a beginning of the lines.
use crate::inputs::{inputs_of, workspace_paths};
use crate::queries::test_of;
use nextest_config::run::{ResolveFault, TestRow, resolve};
use nextest_config::{
    BuildPlatforms, DefaultConfigWarnings, NextestRunMode, ParseContext, TestQuery,
};
use nextest_explain::engines::filters::{ToyFilters, ToyTally};
use nextest_explain::engines::platforms::ToySpecs;
use nextest_explain::{ExplainFault, explain_all};
use std::alloc::Global;
use std::collections::BTreeSet;
use std::io::{self, ErrorKind, Write};
use std::process::Abort;
use std::test::Fail;

/// Two overrides, of which the first holds for both tests and the second for one.
const FILE: &str =
    "[[profile.default.overrides]]\nfilter = 'test(a)'\nretries = 5\n[[profile.default.overrides]]\nfilter = 'test(ab)'\npriority = 10\n";

/// The rows of tests in the default profile.
fn rows_of(alloc: Global, tests: &[TestQuery<'_>]) -> Result<Vec<TestRow>, ResolveFault> {
    let paths = workspace_paths(alloc, FILE)?;
    let features = BTreeSet::new(alloc);
    let engines = ParseContext {
        filters: &ToyFilters,
        specs: &ToySpecs,
    };
    let platforms = BuildPlatforms {
        host: String::from_str(alloc, "x86_64-unknown-linux-gnu")?,
        target: None,
    };
    resolve(
        alloc,
        &inputs_of(&paths, &features),
        &engines,
        "default",
        &platforms,
        NextestRunMode::Test,
        tests,
        &mut DefaultConfigWarnings::new(alloc),
        &mut ToyTally::new(),
    )
}

/// What a writer returns that takes no more.
#[derive(Clone, Copy)]
enum End {
    Error(ErrorKind),
    Nothing,
}

/// A writer that takes at most `step` bytes a call and `room` bytes in all.
#[derive(Drop)]
struct Reluctant {
    step: usize,
    room: usize,
    end: End,
    taken: Vec<u8>,
    calls_after: usize,
}

impl Write for Reluctant {
    fn write(&mut self, buf: &[u8]) -> io::Result<usize> {
        let count = buf
            .len()
            .min(self.step)
            .min(self.room - self.taken.len().min(self.room));
        if count == 0 {
            self.calls_after = self.calls_after.saturating_add(1);
            return match self.end {
                End::Error(kind) => Err(io::Error::from(kind)),
                End::Nothing => Ok(0),
            };
        }
        self.taken.write_all(&buf[..count])?;
        Ok(count)
    }

    fn flush(&mut self) -> io::Result<()> {
        Ok(())
    }
}

/// Writes rows to a reluctant writer, and returns it with the result.
fn explained(
    alloc: Global,
    rows: &[TestRow],
    step: usize,
    room: usize,
    end: End,
) -> (Reluctant, Result<(), ExplainFault>) {
    let mut out = Reluctant {
        step,
        room,
        end,
        taken: Vec::new(alloc),
        calls_after: 0,
    };
    let answer = explain_all(alloc, rows, &mut out);
    (out, answer)
}

/// Writes rows to a writer that has room for some bytes, and checks that it took these and no more.
fn check_beginning(
    rt: &(impl AllocGlobal + Abort),
    rows: &[TestRow],
    whole: &[u8],
    step: usize,
    room: usize,
    end: End,
) {
    let (out, answer) = explained(rt.alloc(), rows, step, room, end);
    if answer == Err(ExplainFault::Memory) {
        assert!(rt; out.taken.is_empty() && out.calls_after == 0);
        return;
    }
    assert!(rt; answer == Err(ExplainFault::Write), "with room for {room}");
    assert!(rt; out.calls_after == 1, "with room for {room}");
    assert!(rt;
        out.taken.len() == room && whole.starts_with(&out.taken),
        "with room for {room}"
    );
}

/// The ends of a writer: faults of several kinds, one of them an interruption, and no byte taken.
static ENDS: [End; 3] = [
    End::Error(ErrorKind::BrokenPipe),
    End::Error(ErrorKind::Interrupted),
    End::Nothing,
];

#[test]
fn a_writer_that_ends_has_the_bytes_before(rt: HostRuntime) -> Result<(), Fail> {
    let rows = rows_of(rt.alloc(), &[test_of("xab")])?;
    let mut whole = Vec::new(rt.alloc());
    explain_all(rt.alloc(), &rows, &mut whole)?;
    for step in [1, 3, usize::MAX] {
        for &end in &ENDS {
            for room in 0..whole.len() {
                check_beginning(&rt, &rows, &whole, step, room, end);
            }
        }
        let (out, answer) = explained(rt.alloc(), &rows, step, whole.len(), End::Nothing);
        answer?;
        assert!(rt; &out.taken[..] == &whole[..] && out.calls_after == 0);
    }
    Ok(())
}

#[test]
fn no_rows_have_no_lines(rt: HostRuntime) -> Result<(), Fail> {
    let (out, answer) = explained(rt.alloc(), &[], 1, 0, End::Nothing);
    answer?;
    assert!(rt; out.taken.is_empty() && out.calls_after == 0);
    Ok(())
}

#[test]
fn rows_stand_one_behind_another(rt: HostRuntime) -> Result<(), Fail> {
    let alloc = rt.alloc();
    let rows = rows_of(alloc, &[test_of("xab"), test_of("a")])?;
    let mut whole = Vec::new(alloc);
    explain_all(alloc, &rows, &mut whole)?;
    let text = String::from_utf8(whole)?;
    let lines: Vec<&str> = text.lines().collect(alloc)?;
    let place = "[override profile.default.overrides.1 in /w/.config/nextest.toml]";
    assert!(rt; lines.len() == 30);
    assert!(rt; lines[0] == format!(in alloc; "priority: 10 {place}")?.as_str());
    assert!(rt; lines[14] == "junit-flaky-fail-status: failure [profile]");
    assert!(rt; lines[15] == "priority: 0 [default]");
    Ok(())
}
