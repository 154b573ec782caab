//! All that is wrong with files that are refused: the faults of all values, the unknown keys, and
//! then what each later check finds in files without the faults.
ghost use Rattle.std.specs.Prelude.{IfOk};
ghost use Rattle.nextest_sources.specs.WarningsView.{warnings_view};
ghost use Rattle.rinqebo_checks.specs.Faults.{ReportAll};

use crate::file_values::value_findings;
use crate::search::Search;
use nextest_sources::{ConfigParseError, DefaultConfigWarnings};
use rinqebo_faults::Edits;
use rinqebo_load::Session;
use rinqebo_report::{Finding, Unreached};
use std::alloc::{AllocError, Global};

/// What is wrong with files, and the checks that they did not reach.
#[derive(Drop)]
pub struct Found {
    /// What is wrong.
    pub findings: Vec<Finding>,
    /// The checks that were not reached.
    pub unreached: Vec<Unreached>,
}

/// Returns all that is wrong with the files of a session whose load reports warnings and refuses
/// them.
pub fn all_findings(
    alloc: Global,
    session: &Session<'_>,
    warnings: &DefaultConfigWarnings,
    error: &ConfigParseError,
) -> Result<Found, AllocError>
    ensures { IfOk result (λ found. ReportAll session.now (warnings_view warnings.now) error.now
        found.findings.items) }
{
    let mut edits = Edits::new(alloc);
    let before = edits.count();
    let mut findings = value_findings(alloc, session, &session.layers, &mut edits)?;
    let is_whole = edits.count() == before;
    let mut search = Search::new(alloc, edits);
    let mut others = search.run(session, is_whole, warnings, error)?;
    findings.append(&mut others)?;
    let Search { unreached, .. } = search;
    Ok(Found {
        findings,
        unreached,
    })
}
