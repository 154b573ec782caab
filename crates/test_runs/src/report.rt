//! What is printed of a run.
use crate::case::Setup;
use nextest_config::ReadOutcome;
use nextest_sources::FileReader;
use rinqebo_diff::{AnyCommand, DiffRequest, gather_sides, parse_all, perform_diff};
use rinqebo_request::{Command, gather};
use rinqebo_run::{
    perform, print_code, print_codes, print_document_schema, print_schema, refuse_gathering,
    refuse_words,
};
use std::alloc::{AllocError, Global};
use std::io::{self, ErrorKind, Write};
use test_cases::{Case, text_of};

/// The standard output of a run, which takes so many bytes and is then closed.
#[derive(Drop)]
struct Output {
    taken: Vec<u8>,
    room: usize,
}

impl Write for Output {
    fn write(&mut self, buf: &[u8]) -> io::Result<usize> {
        let count = buf.len().min(self.room);
        if count == 0 {
            return Err(io::Error::from(ErrorKind::BrokenPipe));
        }
        self.room -= count;
        self.taken.write(&buf[..count])
    }

    fn flush(&mut self) -> io::Result<()> {
        Ok(())
    }
}

/// The result of reading standard input, if a request reads it.
fn input_of(alloc: Global, case: &Case<'_>, reads_input: bool) -> Result<ReadOutcome, AllocError> {
    if reads_input {
        case.files.read(alloc, "-")
    } else {
        Ok(ReadOutcome::NotFound)
    }
}

/// Compares two sides over the files of a case, and returns the status.
fn run_diff(
    alloc: Global,
    case: &Case<'_>,
    setup: &Setup<'_>,
    request: &DiffRequest<'_>,
    out: &mut Output,
    err: &mut Vec<u8>,
) -> Result<u8, AllocError> {
    let input = input_of(alloc, case, request.reads_input())?;
    match gather_sides(alloc, request, &setup.environment, input, &case.files) {
        Ok(sides) => Ok(perform_diff(alloc, request, &sides.from, &sides.to, out, err)),
        Err(fault) => Ok(refuse_gathering(alloc, &fault, err)),
    }
}

/// Runs over the files of a case, and returns the status.
fn run(
    alloc: Global,
    case: &Case<'_>,
    setup: &Setup<'_>,
    words: &[String],
    out: &mut Output,
    err: &mut Vec<u8>,
) -> Result<u8, AllocError> {
    let request = match parse_all(alloc, words, &setup.environment) {
        Ok(AnyCommand::Other(Command::Answer(request))) => request,
        Ok(AnyCommand::Diff(request)) => return run_diff(alloc, case, setup, &request, out, err),
        Ok(AnyCommand::Other(Command::Schema)) => return Ok(print_schema(alloc, out, err)),
        Ok(AnyCommand::Other(Command::DocumentSchema)) => return Ok(print_document_schema(out)),
        Ok(AnyCommand::Other(Command::Codes)) => return Ok(print_codes(alloc, out, err)),
        Ok(AnyCommand::Other(Command::CodePage(code))) => {
            return Ok(print_code(alloc, code, out, err));
        }
        Err(stop) => return Ok(refuse_words(&stop, out, err)),
    };
    let input = input_of(alloc, case, request.reads_input())?;
    match gather(alloc, &request, &setup.environment, input, &case.files) {
        Ok(gathered) => Ok(perform(alloc, &request, &gathered, out, err)),
        Err(fault) => Ok(refuse_gathering(alloc, &fault, err)),
    }
}

/// The case's name, the words, the status, and what was written to the two streams.
pub fn report_of(
    alloc: Global,
    case: &Case<'_>,
    setup: &Setup<'_>,
    words: &str,
) -> Result<String, AllocError> {
    let mut out = Output {
        taken: Vec::new(alloc),
        room: setup.output_room,
    };
    let mut err = Vec::new(alloc);
    let status = run(
        alloc,
        case,
        setup,
        &words_of(alloc, words)?,
        &mut out,
        &mut err,
    )?;
    let name = case.name;
    let mut report = format!(in alloc; "case {name}\nrun {words}\nstatus {status}\n")?;
    add_text(&mut report, "stdout\n", text_of(alloc, out.taken)?.as_str())?;
    add_text(&mut report, "stderr\n", text_of(alloc, err)?.as_str())?;
    Ok(report)
}

/// The words of a line, parted by one space, with the program's name before them.
fn words_of(alloc: Global, line: &str) -> Result<Vec<String>, AllocError> {
    let mut words = Vec::new(alloc);
    words.push(String::from_str(alloc, "rinqebo")?)?;
    for word in line.split(' ') {
        if !word.is_empty() {
            words.push(String::from_str(alloc, word)?)?;
        }
    }
    Ok(words)
}

/// Adds a line behind two spaces, with `\e` for each escape, and `\r` for each return.
fn add_line(report: &mut String, line: &str) -> Result<(), AllocError> {
    report.push_str("  ")?;
    for c in line.chars() {
        match c {
            '\u{1b}' => report.push_str("\\e")?,
            '\r' => report.push_str("\\r")?,
            c => report.push(c)?,
        }
    }
    report.push_str("\n")
}

/// Adds all lines of a text below a heading, unless there are none.
fn add_text(report: &mut String, heading: &str, text: &str) -> Result<(), AllocError> {
    if text.is_empty() {
        return Ok(());
    }
    report.push_str(heading)?;
    for line in text.strip_suffix("\n").unwrap_or(text).split('\n') {
        add_line(report, line)?;
    }
    if !text.ends_with("\n") {
        report.push_str("without a newline at the end\n")?;
    }
    Ok(())
}
