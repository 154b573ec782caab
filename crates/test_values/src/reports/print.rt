//! What is printed of a line.
use crate::reports::builder::Builder;
use crate::reports::codes::{all_codes, page_of};
use crate::reports::line::Line;
use crate::row::RowError;
use rinqebo_report::{Colour, Format, Paper, Report, nearest_name, render, render_findings};
use std::alloc::{AllocError, Global};

/// What is printed of a line: of most, nothing.
pub fn printed(alloc: Global, builder: &mut Builder, line: &Line) -> Result<String, RowError> {
    match line.word(0)? {
        "print" => printed_report(alloc, builder, line),
        "nearest" => nearest(alloc, line),
        "codes" => Ok(all_codes(alloc)?),
        "code" => Ok(page_of(alloc, line.word(1)?)?),
        _ => {
            builder.take(line)?;
            Ok(String::new(alloc))
        }
    }
}

/// The report in the forms of a line.
fn printed_report(alloc: Global, builder: &mut Builder, line: &Line) -> Result<String, RowError> {
    let mut shown = String::new(alloc);
    let report = builder.take_report()?;
    for form in line.words().iter().skip(1) {
        let text = in_form(alloc, &report, form.as_str())?;
        let heading = format!(in alloc; "{name}: {form}\n", name = builder.name)?;
        shown.push_str(heading.as_str())?;
        add_lines(&mut shown, text.as_str())?;
    }
    Ok(shown)
}

/// The known name of a line that is nearest to a name.
fn nearest(alloc: Global, line: &Line) -> Result<String, RowError> {
    let name = line.word(1)?;
    let mut known: Vec<&str> = Vec::new(alloc);
    for word in line.words().iter().skip(2) {
        known.push(word.as_str()).map_err(AllocError::from)?;
    }
    let text = match nearest_name(alloc, name, &known)? {
        Some(nearest) => format!(in alloc; "{name}: nearest {nearest}\n")?,
        None => format!(in alloc; "{name}: none is near\n")?,
    };
    Ok(text)
}

/// How many columns a page has, if its form has no number.
const COLUMNS: usize = 200;

/// The name of a form and the number of columns behind it, as in `text:40`.
fn parted(form: &str) -> Result<(&str, usize), RowError> {
    match form.split_once(':') {
        Some((name, columns)) => Ok((name, columns.parse::<usize>().ok().ok_or(RowError::NoRow)?)),
        None => Ok((form, COLUMNS)),
    }
}

/// A report in a form.
fn in_form(alloc: Global, report: &Report, form: &str) -> Result<String, RowError> {
    if let Some(folder) = form.strip_prefix("github:") {
        return Ok(render(alloc, report, Format::Github(folder), plain(COLUMNS))?);
    }
    let (name, columns) = parted(form)?;
    let text = match name {
        "text" => render(alloc, report, Format::Text, plain(columns))?,
        "colour" => render(alloc, report, Format::Text, coloured(columns))?,
        "grouped" => render(alloc, report, Format::Grouped, plain(columns))?,
        "json" => render(alloc, report, Format::Json, plain(columns))?,
        "findings" => render_findings(alloc, report, Colour::Plain)?,
        "concise" => render(alloc, report, Format::Concise, plain(columns))?,
        "coloured-concise" => render(alloc, report, Format::Concise, coloured(columns))?,
        _ => return Err(RowError::NoRow),
    };
    Ok(text)
}

/// Paper without colours.
fn plain(columns: usize) -> Paper {
    Paper {
        colour: Colour::Plain,
        columns,
    }
}

/// Paper with colours.
fn coloured(columns: usize) -> Paper {
    Paper {
        colour: Colour::Coloured,
        columns,
    }
}

/// Adds the lines of a text, each behind two spaces, with `\e` in place of an escape.
fn add_lines(shown: &mut String, text: &str) -> Result<(), AllocError> {
    for line in text.lines() {
        shown.push_str("  ")?;
        for c in line.chars() {
            match c {
                '\u{1b}' => shown.push_str("\\e")?,
                _ => shown.push(c)?,
            }
        }
        shown.push_str("\n")?;
    }
    if !text.is_empty() && !text.ends_with("\n") {
        shown.push_str("  without a newline at the end\n")?;
    }
    Ok(())
}
