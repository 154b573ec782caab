//! Runs cases of `rinqebo` over files in memory, and prints what each run ends with.
//!
//! The cases come on standard input, as the crate `test_cases` reads them. A case begins in the folder
//! `/w`, without variables but `COLUMNS`, which is 200. A file at the path `-` is standard input. Each
//! line of a case that is not about its files is one of these:
//!
//! | Line | Meaning |
//! |---|---|
//! | `folder PATH` | the folder that the program runs in |
//! | `set NAME VALUE` | a variable of the environment |
//! | `unset NAME` | a variable that is not set |
//! | `terminal` | standard output is a terminal |
//! | `closes-after N` | standard output takes N bytes and is then closed |
//! | `error-terminal` | standard error is a terminal |
//! | `run WORD ..` | a run over the case's files, its words parted by one space |
//!
//! For each run it prints the case's name, the words, the status, and what was written to the two
//! streams, with `\e` for each escape and `\r` for each return. A line that is none of these is an
//! error, and the status is 2.
#![tactic(auto)]

mod case;
mod report;

use case::Setup;
use report::report_of;
use std::alloc::{AllocError, Global};
use std::io;
use std::process::ExitCode;
use test_cases::{Case, CaseError, read_cases};

/// Reads the cases of a text, each with its lines.
fn cases_of(alloc: Global, text: &str) -> Result<Vec<(Case<'_>, Setup<'_>)>, CaseError<'_>> {
    let mut cases = Vec::new(alloc);
    for case in read_cases(alloc, text)? {
        let setup = Setup::of(alloc, &case)?;
        cases.push((case, setup)).map_err(AllocError::from)?;
    }
    Ok(cases)
}

fn main(rt: HostRuntime) -> io::Result<ExitCode> {
    let alloc = rt.alloc();
    let text = io::read_to_string(alloc, rt.stdin())?;
    let cases = match cases_of(alloc, text.as_str()) {
        Ok(cases) => cases,
        Err(error) => {
            eprintln!(rt; "error: {error}")?;
            return Ok(ExitCode::from(2));
        }
    };
    for (case, setup) in &cases {
        for words in &setup.runs {
            let report = report_of(alloc, case, setup, *words)?;
            print!(rt; "{report}")?;
        }
    }
    Ok(ExitCode::SUCCESS)
}
