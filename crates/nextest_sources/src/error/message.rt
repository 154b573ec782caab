//! Messages and names among the lines of a refusal.
use crate::one_line::OneLine;
use std::collections::BTreeSet;
use std::fmt::{self, Write};

/// Begins a detail of a refusal: a line of its own, behind two spaces.
pub(crate) fn begin_detail<W: fmt::Write>(f: &mut fmt::Formatter<W>) -> fmt::Result {
    f.write_str("\n  ")
}

/// Passes text on as it is shown on one line: no text leaves the line of its detail.
#[derive(Drop)]
struct DetailWriter<'a, W> {
    formatter: &'a mut fmt::Formatter<W>,
}

impl<W: fmt::Write> fmt::Write for DetailWriter<'_, W> {
    fn write_str(&mut self, text: &str) -> fmt::Result {
        write!(self.formatter, "{}", OneLine(text))
    }
}

/// Writes a value as a detail, on one line.
pub(crate) fn write_detail<W: fmt::Write, D: fmt::Display>(
    f: &mut fmt::Formatter<W>,
    detail: &D,
) -> fmt::Result {
    begin_detail(f)?;
    let mut writer = DetailWriter { formatter: f };
    write!(writer, "{detail}")
}

/// Writes each of some errors as a detail.
pub(crate) fn write_each<W: fmt::Write, E: fmt::Display>(
    f: &mut fmt::Formatter<W>,
    errors: &[E],
) -> fmt::Result {
    for error in errors {
        write_detail(f, error)?;
    }
    Ok(())
}

/// Writes what is before the item of this position in a list.
pub(crate) fn separate<W: fmt::Write>(f: &mut fmt::Formatter<W>, index: usize) -> fmt::Result {
    f.write_str(if index == 0 { ": " } else { ", " })
}

/// Writes names after what they are, with commas between them, as a detail.
pub(crate) fn write_names<W: fmt::Write, N: fmt::Display + Ord>(
    f: &mut fmt::Formatter<W>,
    what: &str,
    names: &BTreeSet<N>,
) -> fmt::Result {
    begin_detail(f)?;
    f.write_str(what)?;
    for (index, name) in names.iter().enumerate() {
        separate(f, index)?;
        write!(f, "{name}")?;
    }
    Ok(())
}
