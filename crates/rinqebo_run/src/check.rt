//! The result of a check: what is wrong with files.
ghost use Rattle.std.specs.Prelude.{◌≡◌, ◌==◌, ◌&&◌, [], IfOk, IfErr, None, length, not};
ghost use Rattle.std.specs.List.{list_any};
ghost use Rattle.nextest_sources.specs.Endings.{IsMemory};
ghost use Rattle.rinqebo_checks.specs.Reports.{HasError, IsReportOf};
ghost use Rattle.rinqebo_checks.specs.Faults.{ShowsChecked};
ghost use Rattle.rinqebo_load.specs.Warned.{IsRefusedLoad};
ghost use Rattle.rinqebo_load.specs.declared.failure.Failure.TheVariants.{Memory};
ghost use Rattle.rinqebo_results.specs.Checked.{AreOfAccepted, IsCheckStatus, ShowsAccepted, accepted_status, is_error};
ghost use Rattle.nextest_sources.specs.WarningsView.{warnings_view};
ghost use Rattle.rinqebo_results.specs.Warned.{ShowsWarnings, ShowsWarningsIn};
ghost use Rattle.rinqebo_run.specs.OpenFilters.{IsCheckNote, IsOpenNote, config_read};

use crate::open_filters::open_filters_note;
use nextest_config::{ConfigParseError, DefaultConfigWarnings};
use rinqebo_checks::{report_of, report_of_refused_check};
use rinqebo_findings::{nextest_findings, warning_findings};
use rinqebo_load::{Config, Failure, Session};
use rinqebo_report::{Content, Finding, Level};
use rinqebo_results::{Answer, Status};
use std::alloc::{AllocError, Global};

/// Whether a finding is an error.
fn is_error(finding: &Finding) -> bool
    ensures { result ≡ is_error finding.now }
{
    match finding.level {
        Level::Error => true,
        Level::Warning => false,
    }
}

/// Whether some finding is an error.
fn has_error(findings: &[Finding]) -> bool
    ensures { result ≡ list_any is_error findings.now }
{
    findings.iter().any(|finding| is_error(finding))
}

/// Whether there is a finding, where warnings are denied.
fn is_denied(findings: &[Finding], deny_warnings: bool) -> bool
    ensures { result ≡ (deny_warnings && not (length findings.now == 0)) }
{
    deny_warnings && !findings.is_empty()
}

/// The exit status of a check whose load accepts.
fn status_of(findings: &[Finding], deny_warnings: bool) -> u8
    ensures { result ≡ accepted_status deny_warnings findings.now }
{
    if has_error(findings) {
        return Status::Negative as u8;
    }
    if is_denied(findings, deny_warnings) {
        return Status::Negative as u8;
    }
    Status::Success as u8
}

/// What is wrong with files that a load accepts: its warnings, and what nextest refuses.
fn accepted_findings(
    alloc: Global,
    session: &Session<'_>,
    warnings: &DefaultConfigWarnings,
) -> Result<Vec<Finding>, AllocError>
    ensures { IfOk result (λ findings. AreOfAccepted session.now.layers.items
        (warnings_view warnings.now) findings.items) }
{
    let mut findings = warning_findings(alloc, &session.layers, warnings)?;
    let mut of_nextest = nextest_findings(alloc, &session.layers)?;
    findings.append(&mut of_nextest)?;
    Ok(findings)
}

/// The result of a check whose load accepts, and returns a configuration.
fn accepted(
    alloc: Global,
    session: &Session<'_>,
    config: &Config,
    warnings: &DefaultConfigWarnings,
    deny_warnings: bool,
) -> Result<Answer, AllocError>
    ensures status { IfOk result (λ answer. answer.status
        ≡ accepted_status deny_warnings answer.report.findings.items) }
    ensures about { IfOk result (λ answer. IsReportOf session.now answer.report) }
    ensures found { IfOk result (λ answer. ShowsAccepted session.now.layers.items
        (warnings_view warnings.now) answer.report.findings.items) }
    ensures warned { IfOk result (λ answer. ShowsWarnings session.now.layers.items
        (warnings_view warnings.now) answer.report.findings.items) }
    ensures noted { IfOk result (λ answer. IsOpenNote session.now.engines.filters.packages
        (config_read config.now) answer.note) }
{
    let note = open_filters_note(alloc, session, config)?;
    let findings = accepted_findings(alloc, session, warnings)?;
    let report = report_of(alloc, session, findings, Vec::new(alloc), Content::Check)?;
    let status = status_of(&report.findings, deny_warnings);
    Ok(Answer {
        report,
        status,
        note,
    })
}

/// The result of a check whose load refuses.
fn refused(
    alloc: Global,
    session: &Session<'_>,
    warnings: &DefaultConfigWarnings,
    error: &ConfigParseError,
) -> Result<Answer, AllocError>
    ensures status { IfOk result (λ answer. answer.status ≡ 3) }
    ensures cause { IfOk result (λ _. ¬ IsMemory error.now) }
    ensures faults { IfOk result (λ answer. ShowsChecked session.now (warnings_view warnings.now)
        error.now answer.report.findings.items) }
    ensures error { IfOk result (λ answer.
        IsRefusedLoad session.now [] (warnings_view warnings.now) error.now
        → HasError answer.report.findings.items) }
    ensures about { IfOk result (λ answer. IsReportOf session.now answer.report) }
    ensures noted { IfOk result (λ answer. answer.note ≡ None) }
{
    if error.config_file().is_none() {
        return Err(AllocError);
    }
    let report = report_of_refused_check(alloc, session, warnings, error)?;
    Ok(Answer {
        report,
        status: Status::Refused as u8,
        note: None,
    })
}

/// The result of a check.
fn checked(alloc: Global, session: &Session<'_>, deny_warnings: bool) -> Result<Answer, AllocError>
    ensures status { IfOk result (λ answer.
        IsCheckStatus session.now deny_warnings answer.report answer.status) }
    ensures about { IfOk result (λ answer. IsReportOf session.now answer.report) }
    ensures warned { IfOk result (λ answer.
        ShowsWarningsIn session.now answer.report answer.status) }
    ensures noted { IfOk result (λ answer. IsCheckNote session.now answer.status answer.note) }
{
    let mut warnings = DefaultConfigWarnings::new(alloc);
    match session.load(alloc, &mut warnings) {
        Ok(config) => accepted(alloc, session, &config, &warnings, deny_warnings),
        Err(error) => refused(alloc, session, &warnings, &error),
    }
}

/// What is wrong with the files.
pub fn check(alloc: Global, session: &Session<'_>, deny_warnings: bool) -> Result<Answer, Failure>
    ensures ok { IfOk result (λ answer.
        IsCheckStatus session.now deny_warnings answer.report answer.status) }
    ensures about { IfOk result (λ answer. IsReportOf session.now answer.report) }
    ensures warned { IfOk result (λ answer.
        ShowsWarningsIn session.now answer.report answer.status) }
    ensures noted { IfOk result (λ answer. IsCheckNote session.now answer.status answer.note) }
    ensures err { IfErr result (λ failure. failure ≡ Memory) }
{
    match checked(alloc, session, deny_warnings) {
        Ok(answer) => Ok(answer),
        Err(_) => Err(Failure::Memory),
    }
}
