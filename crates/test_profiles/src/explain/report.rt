//! What is printed of a run.
use super::case::{Run, Setup};
use nextest_explain::explain;
use std::alloc::{AllocError, Global};
use test_cases::{Beginnings, Case, text_of};

/// What a run ended with.
#[derive(Drop)]
struct Ending {
    status: u8,
    out: String,
    err: String,
}

/// Runs over the files of a case, with no more than some bytes of a text.
fn ending_of(
    alloc: Global,
    case: &Case<'_>,
    words: &[String],
    limit: usize,
) -> Result<Ending, AllocError> {
    let files = Beginnings {
        files: &case.files,
        limit,
    };
    let mut out = Vec::new(alloc);
    let mut err = Vec::new(alloc);
    let status = explain(alloc, words, &files, &mut out, &mut err);
    Ok(Ending {
        status,
        out: text_of(alloc, out)?,
        err: text_of(alloc, err)?,
    })
}

/// What is printed of a run.
pub fn report_of(
    alloc: Global,
    case: &Case<'_>,
    setup: &Setup<'_>,
    run: &Run<'_>,
) -> Result<String, AllocError> {
    let words = words_of(alloc, run.words)?;
    if run.is_cut {
        report_of_cuts(alloc, case, run.words, &words)
    } else {
        report_of_run(alloc, case, setup, run.words, &words)
    }
}

/// The case's name, the words, the status, and what was written to the two streams.
fn report_of_run(
    alloc: Global,
    case: &Case<'_>,
    setup: &Setup<'_>,
    line: &str,
    words: &[String],
) -> Result<String, AllocError> {
    let ending = ending_of(alloc, case, words, usize::MAX)?;
    let (name, status) = (case.name, ending.status);
    let mut report = format!(in alloc; "case {name}\nargs {line}\nstatus {status}\n")?;
    match setup.shown {
        Some(shown) => add_lines_with(alloc, &mut report, ending.out.as_str(), shown)?,
        None => add_text(&mut report, "stdout\n", ending.out.as_str())?,
    }
    if setup.hides_details {
        add_without_details(&mut report, ending.err.as_str())?;
    } else {
        add_text(&mut report, "stderr\n", ending.err.as_str())?;
    }
    Ok(report)
}

/// How many texts the last file of a case begins with, and how many of them ended otherwise than
/// with a configuration or one refusal by name.
fn report_of_cuts(
    alloc: Global,
    case: &Case<'_>,
    line: &str,
    words: &[String],
) -> Result<String, AllocError> {
    let length = case.files.last_length();
    let mut others = 0u32;
    for limit in 0..=length {
        let ending = ending_of(alloc, case, words, limit)?;
        if !is_named(&ending) {
            others = others.saturating_add(1);
        }
    }
    let name = case.name;
    format!(in alloc; "case {name}\ncuts {line}\n{length} bytes, cuts with another end: {others}\n")
}

/// Whether a run ended with a configuration, or with one refusal by name.
fn is_named(ending: &Ending) -> bool {
    let refusals = ending
        .err
        .as_str()
        .split('\n')
        .filter(|line| line.starts_with("error: "));
    match ending.status {
        0 => ending.out.as_str().split('\n').count() == 16 && refusals.count() == 0,
        3 | 4 => ending.out.is_empty() && refusals.count() == 1,
        _ => false,
    }
}

/// The words of a line, parted by one space.
fn words_of(alloc: Global, line: &str) -> Result<Vec<String>, AllocError> {
    line.split(' ')
        .map(|word| String::from_str(alloc, word))
        .try_collect(alloc)
}

/// Adds a line, behind two spaces.
fn add_line(report: &mut String, line: &str) -> Result<(), AllocError> {
    report.push_str("  ")?;
    report.push_str(line)?;
    report.push_str("\n")
}

/// A text without its last newline. Its parts between newlines are its lines, whole: one that ends
/// with a carriage return keeps it.
fn body_of(text: &str) -> &str {
    text.strip_suffix("\n").unwrap_or(text)
}

/// Adds all lines of a text below a heading, unless there are none.
fn add_text(report: &mut String, heading: &str, text: &str) -> Result<(), AllocError> {
    if text.is_empty() {
        return Ok(());
    }
    report.push_str(heading)?;
    for line in body_of(text).split('\n') {
        add_line(report, line)?;
    }
    if !text.ends_with("\n") {
        report.push_str("without a newline at the end\n")?;
    }
    Ok(())
}

/// Adds the lines of a text that have one of these words, below the number of all lines.
fn add_lines_with(
    alloc: Global,
    report: &mut String,
    text: &str,
    words: &str,
) -> Result<(), AllocError> {
    let count = text.split('\n').count().saturating_sub(1);
    let heading = format!(in alloc; "stdout of {count} lines, among them\n")?;
    report.push_str(heading.as_str())?;
    for line in body_of(text).split('\n') {
        if has_word(line, words) {
            add_line(report, line)?;
        }
    }
    Ok(())
}

/// Adds the lines of a text that don't begin with two spaces.
fn add_without_details(report: &mut String, text: &str) -> Result<(), AllocError> {
    report.push_str("stderr without details\n")?;
    for line in body_of(text).split('\n') {
        if !line.starts_with("  ") {
            add_line(report, line)?;
        }
    }
    Ok(())
}

/// Whether one of these words is in a line.
fn has_word(line: &str, words: &str) -> bool {
    line.split(' ')
        .any(|word| words.split(' ').any(|wanted| wanted == word))
}
