//! Reads rows of several kinds, one a line, and prints the result of each.
//!
//! A line of standard input is the word of a kind, a tab and the row. Empty lines and lines that
//! begin with `#` print nothing.
//!
//! | Word | A row of the kind |
//! |---|---|
//! | `value` | a value of a configuration, as its reader reads it (`value.rt`) |
//! | `faults` | a file, whose faults of elements are printed (`faults.rt`) |
//! | `place` | a path in a text, whose lines are printed (`place.rt`) |
//! | `schema` | a place of a configuration file, and its shape (`schema.rt`) |
//! | `platform` | the spec of platforms, read, or evaluated on a platform (`platform.rt`) |
//! | `filter` | a filter and a test (`filter.rt`) |
//! | `spans` | a text, of which the tokens, items and paths are printed (`spans.rt`) |
//! | `report` | a line of a report, which is printed in its forms, or a page of codes (`reports.rt`) |
//!
//! For a line of another form the program prints an error on standard error, and ends with status 2.
#![tactic(auto)]

mod escapes;
mod faults;
mod filter;
mod place;
mod platform;
mod reports;
mod row;
mod schema;
mod spans;
mod value;

use filter_engine::NextestFilters;
use platform_language::TargetRow;
use row::RowError;
use std::alloc::Global;
use std::io;
use std::process::ExitCode;

/// What the rows of a line are about.
#[derive(Clone, Copy)]
enum Kind {
    Value,
    Faults,
    Place,
    Schema,
    Platform,
    Filter,
    Spans,
    Report,
}

impl Kind {
    /// The kind of this word.
    fn of(word: &str) -> Result<Kind, RowError> {
        match word {
            "value" => Ok(Kind::Value),
            "faults" => Ok(Kind::Faults),
            "place" => Ok(Kind::Place),
            "schema" => Ok(Kind::Schema),
            "platform" => Ok(Kind::Platform),
            "filter" => Ok(Kind::Filter),
            "spans" => Ok(Kind::Spans),
            "report" => Ok(Kind::Report),
            _ => Err(RowError::NoRow),
        }
    }
}

/// What rows define for the rows below them.
#[derive(Drop)]
struct Defined<'a> {
    /// The platforms, in the order of their rows.
    platforms: Vec<TargetRow<'a>>,
    /// The engine of filters, with the packages of the last row that gives some.
    filters: NextestFilters,
    /// The report, as far as its rows are read.
    builder: reports::Builder,
}

impl<'a> Defined<'a> {
    /// What is printed for a line, if it defines nothing.
    fn answer_to(&mut self, alloc: Global, line: &'a str) -> Result<Option<String>, RowError> {
        let (word, row) = line.split_once('\t').ok_or(RowError::NoRow)?;
        match Kind::of(word)? {
            Kind::Value => value::answer_to(alloc, row).map(Some),
            Kind::Faults => faults::answer_to(alloc, row).map(Some),
            Kind::Place => place::answer_to(alloc, row).map(Some),
            Kind::Schema => schema::answer_to(alloc, row).map(Some),
            Kind::Platform => platform::answer_to(alloc, &mut self.platforms, row),
            Kind::Filter => filter::answer_to(alloc, &mut self.filters, row),
            Kind::Spans => spans::answer_to(alloc, row).map(Some),
            Kind::Report => reports::answer_to(alloc, &mut self.builder, row),
        }
    }
}

fn main(rt: HostRuntime) -> io::Result<ExitCode> {
    let alloc = rt.alloc();
    let text = io::read_to_string(alloc, rt.stdin())?;
    let mut defined = Defined {
        platforms: Vec::new(alloc),
        filters: NextestFilters::new(),
        builder: reports::Builder::new(alloc),
    };
    for line in text.lines() {
        if line.is_empty() || line.starts_with("#") {
            continue;
        }
        match defined.answer_to(alloc, line) {
            Ok(Some(answer)) => println!(rt; "{answer}")?,
            Ok(None) => {}
            Err(RowError::NoRow) => {
                eprintln!(rt; "error: no row: `{line}`")?;
                return Ok(ExitCode::from(2));
            }
            Err(RowError::NoGraph(fault)) => {
                eprintln!(rt; "error: {fault}")?;
                return Ok(ExitCode::from(2));
            }
            Err(RowError::Memory) => {
                eprintln!(rt; "error: out of memory")?;
                return Ok(ExitCode::from(2));
            }
        }
    }
    Ok(ExitCode::SUCCESS)
}
