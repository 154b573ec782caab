//! Prints what profiles say and give to tests, by the front door and the toy engines, and what
//! `config_explain` ends with.
//!
//! The cases come on standard input, as the crate `test_cases` reads them. A case with a line
//! `args` or `cuts` runs `config_explain` (`explain.rt`). In each other case the workspace is `/w`,
//! its own file is `/w/.config/nextest.toml`, and each line that is not about the texts of its
//! files is one of these:
//!
//! | Line | What it says |
//! |---|---|
//! | `organisation PATH` | the organisation's file is at this path |
//! | `tool NAME` | this tool has a file, at `/NAME.toml` |
//! | `host TRIPLE`, `target TRIPLE` | the build is for this host, and for this target; `x86_64-unknown-linux-gnu` and none |
//! | `test NAME` | a test of the binary `b`, which is built for the target |
//! | `host-test NAME` | a test of the binary `b`, which is built for the host |
//! | `binary ID` | a binary whose tests are listed |
//! | `group NAME` | a group that tests may be members of |
//! | `show WORD ..` | only lines that begin with one of these words are printed |
//! | `profile NAME` | the case is run for this profile |
//!
//! For each profile of a case the names of the case and of the profile are printed, and then,
//! indented by two spaces, a line for each result. A call that runs out of memory is made once
//! more, and a last line then names it. A line that is none of these, or a case without a run, is
//! an error, and the status is 2.
#![tactic(auto)]

mod explain;
mod lines;
mod numbers;
mod profile;
mod report;
mod rows;
mod run;
mod setup;
mod tests;

use report::report_of;
use run::{Run, all_features, platforms_of};
use setup::Setup;
use std::alloc::{AllocError, Global};
use std::io;
use std::process::ExitCode;
use test_cases::{Case, CaseError, read_cases};

/// What is run over the files of a case.
#[derive(Drop)]
enum Runs<'a> {
    /// Profiles.
    Profiles(Setup<'a>),
    /// `config_explain`.
    Explain(Case<'a>, explain::Setup<'a>),
}

/// What the lines of a case say.
fn runs_of(alloc: Global, case: Case<'_>) -> Result<Runs<'_>, CaseError<'_>> {
    if explain::is_run_by(&case) {
        let setup = explain::Setup::of(alloc, &case)?;
        Ok(Runs::Explain(case, setup))
    } else {
        Ok(Runs::Profiles(Setup::of(alloc, &case)?))
    }
}

/// Reads the cases of a text, each with what its lines say.
fn cases_of(alloc: Global, text: &str) -> Result<Vec<Runs<'_>>, CaseError<'_>> {
    let mut cases = Vec::new(alloc);
    for case in read_cases(alloc, text)? {
        cases.push(runs_of(alloc, case)?).map_err(AllocError::from)?;
    }
    Ok(cases)
}

fn main(rt: HostRuntime) -> io::Result<ExitCode> {
    let alloc = rt.alloc();
    let text = io::read_to_string(alloc, rt.stdin())?;
    let cases = match cases_of(alloc, text.as_str()) {
        Ok(cases) => cases,
        Err(error) => {
            eprintln!(rt; "error: {error}")?;
            return Ok(ExitCode::from(2));
        }
    };
    for runs in &cases {
        let report = match runs {
            Runs::Profiles(setup) => report_on_profiles(alloc, setup)?,
            Runs::Explain(case, setup) => report_on_explain(alloc, case, setup)?,
        };
        print!(rt; "{report}")?;
    }
    Ok(ExitCode::SUCCESS)
}

/// The reports on the profiles of a case.
fn report_on_profiles(alloc: Global, setup: &Setup<'_>) -> Result<String, AllocError> {
    let mut reports = String::new(alloc);
    for profile in &setup.profiles {
        let report = report_on(alloc, setup, profile)?;
        reports.push_str(report.as_str())?;
    }
    Ok(reports)
}

/// The reports on the runs of `config_explain` over the files of a case.
fn report_on_explain(
    alloc: Global,
    case: &Case<'_>,
    setup: &explain::Setup<'_>,
) -> Result<String, AllocError> {
    let mut reports = String::new(alloc);
    for run in &setup.runs {
        let report = explain::report_of(alloc, case, setup, run)?;
        reports.push_str(report.as_str())?;
    }
    Ok(reports)
}

/// The report on a profile of a case.
fn report_on(alloc: Global, setup: &Setup<'_>, profile: &str) -> Result<String, AllocError> {
    let features = all_features(alloc)?;
    let platforms = platforms_of(alloc, setup)?;
    report_of(&Run {
        alloc,
        case: setup,
        profile,
        features: &features,
        platforms: &platforms,
    })
}
