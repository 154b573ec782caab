//! Reports of a session.
ghost use Rattle.std.specs.Prelude.{◌≡◌, [], IfOk};
ghost use Rattle.rinqebo_checks.specs.Reports.{HasError, IsReportOf};
ghost use Rattle.rinqebo_findings.specs.Shown.{AreReported};
ghost use Rattle.nextest_sources.specs.WarningsView.{warnings_view};
ghost use Rattle.rinqebo_checks.specs.Faults.{ShowsChecked, ShowsFaults};
ghost use Rattle.rinqebo_load.specs.Warned.{IsRefusedLoad};

use crate::found::{Found, all_findings};
use nextest_sources::{ConfigParseError, DefaultConfigWarnings};
use rinqebo_faults::in_order;
use rinqebo_findings::{nextest_findings, with_lines};
use rinqebo_load::Session;
use rinqebo_report::{Content, Finding, Report, Unreached};
use rinqebo_request::sources_of;
use std::alloc::{AllocError, Global};

/// A report of a session. Findings are in the order of their files, lines and columns, and the
/// first ones have the lines of files that show them.
pub fn report_of(
    alloc: Global,
    session: &Session<'_>,
    findings: Vec<Finding>,
    unreached: Vec<Unreached>,
    content: Content,
) -> Result<Report, AllocError>
    ensures content { IfOk result (λ report. report.content ≡ content) }
    ensures about { IfOk result (IsReportOf session.now) }
    ensures findings { IfOk result
        (λ report. AreReported findings.items report.findings.items) }
{
    let ordered = in_order(findings)?;
    Ok(Report {
        request: session.request.copied(alloc)?,
        root: session.gathered.paths.workspace_root.clone()?,
        sources: sources_of(alloc, &session.layers)?,
        findings: with_lines(alloc, session.gathered, ordered)?,
        unreached,
        content,
    })
}

/// The report of a refused load: its warnings, and all that is wrong with the files. It has an
/// error.
pub fn report_of_refusal(
    alloc: Global,
    session: &Session<'_>,
    warnings: &DefaultConfigWarnings,
    error: &ConfigParseError,
) -> Result<Report, AllocError>
    ensures about { IfOk result (IsReportOf session.now) }
    ensures faults { IfOk result (λ report. ShowsFaults session.now (warnings_view warnings.now)
        error.now report.findings.items) }
    ensures error { IfOk result (λ report.
        IsRefusedLoad session.now [] (warnings_view warnings.now) error.now
        → HasError report.findings.items) }
{
    let found = all_findings(alloc, session, warnings, error)?;
    let Found {
        findings,
        unreached,
    } = found;
    Ok(report_of(alloc, session, findings, unreached, Content::Check)?)
}

/// The report of a check whose load refuses: what is wrong with the files, also what nextest
/// refuses and a load does not look at. It has an error.
pub fn report_of_refused_check(
    alloc: Global,
    session: &Session<'_>,
    warnings: &DefaultConfigWarnings,
    error: &ConfigParseError,
) -> Result<Report, AllocError>
    ensures about { IfOk result (IsReportOf session.now) }
    ensures faults { IfOk result (λ report. ShowsChecked session.now (warnings_view warnings.now)
        error.now report.findings.items) }
    ensures error { IfOk result (λ report.
        IsRefusedLoad session.now [] (warnings_view warnings.now) error.now
        → HasError report.findings.items) }
{
    let found = all_findings(alloc, session, warnings, error)?;
    let Found {
        mut findings,
        unreached,
    } = found;
    let mut forms = nextest_findings(alloc, &session.layers)?;
    findings.append(&mut forms)?;
    Ok(report_of(alloc, session, findings, unreached, Content::Check)?)
}
