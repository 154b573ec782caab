//! Why a run returns nothing.
ghost use Rattle.std.specs.Prelude.{IfErr, IfOk};
ghost use Rattle.rinqebo_load.specs.FindTests.{IsFoundFor};
ghost use Rattle.rinqebo_checks.specs.Failures.{IsFailureToFind, IsLoadFailure, IsProfileFailure, IsTestFailure};
ghost use Rattle.rinqebo_checks.specs.Reports.{IsReportOf};

use crate::report::{report_of, report_of_refusal};
use nextest_config::ProfileNotFound;
use nextest_places::Step;
use nextest_sources::{ConfigParseError, DefaultConfigWarnings};
use rinqebo_findings::{Label, SourceAt, finding_at, warning_findings};
use rinqebo_load::{Failure, FoundTest, Missing, Session, TestFault};
use rinqebo_report::{Code, Content, Finding, Level, Report};
use rinqebo_request::{RequestedTest, SpanPart, text_hint};
use std::alloc::{AllocError, Global};

/// Why a run returns nothing whose load refuses.
pub fn failure_of_load(
    alloc: Global,
    session: &Session<'_>,
    warnings: &DefaultConfigWarnings,
    error: &ConfigParseError,
) -> Result<Failure, AllocError>
    ensures { IfOk result (IsLoadFailure session.now error.now) }
{
    if error.config_file().is_none() {
        return Ok(Failure::Memory);
    }
    let report = report_of_refusal(alloc, session, warnings, error)?;
    Ok(Failure::Refused(report))
}

/// An error of what a request names, which is in no file.
fn request_finding(
    alloc: Global,
    code: Code,
    path: &[Step<'_>],
    message: String,
) -> Result<Finding, AllocError> {
    let nowhere = SourceAt {
        layers: &[],
        position: None,
    };
    let part = SpanPart::Key;
    let level = Level::Error;
    finding_at(alloc, level, Label::own(code), nowhere, path, part, message)
}

/// The finding that there is no profile of a name.
fn no_profile(alloc: Global, missing: &ProfileNotFound) -> Result<Finding, AllocError> {
    let name = missing.name.as_str();
    let path = [Step::Key("profile"), Step::Key(name)];
    let help = text_hint(alloc, name, &missing.known)?;
    let message = missing.to_string(alloc)?;
    let mut found = request_finding(alloc, Code::UnknownProfile, &path, message)?;
    found.help = help;
    Ok(found)
}

/// Why a run returns nothing whose profile is missing.
pub fn failure_of_profile(
    alloc: Global,
    session: &Session<'_>,
    warnings: &DefaultConfigWarnings,
    missing: &ProfileNotFound,
) -> Result<Failure, AllocError>
    ensures { IfOk result (IsProfileFailure session.now) }
{
    let mut findings = warning_findings(alloc, &session.layers, warnings)?;
    findings.push(no_profile(alloc, missing)?)?;
    let report = report_of(alloc, session, findings, Vec::new(alloc), Content::Check)?;
    Ok(Failure::NoProfile(report))
}

/// The report whose one finding is about the test that a request names.
fn test_report(
    alloc: Global,
    session: &Session<'_>,
    code: Code,
    message: String,
    help: Option<String>,
) -> Result<Report, AllocError>
    ensures { IfOk result (IsReportOf session.now) }
{
    let mut found = request_finding(alloc, code, &[], message)?;
    found.path = None;
    found.help = help;
    let mut findings = Vec::new(alloc);
    findings.push(found)?;
    report_of(alloc, session, findings, Vec::new(alloc), Content::Check)
}

/// The report that there is no test, or no binary, of a name.
fn missing_report(
    alloc: Global,
    session: &Session<'_>,
    missing: Missing,
) -> Result<Report, AllocError>
    ensures { IfOk result (IsReportOf session.now) }
{
    let help = match &missing.near {
        Some(near) => Some(format!(in alloc; "did you mean `{near}`?")?),
        None => None,
    };
    test_report(alloc, session, Code::UnknownTest, missing.message, help)
}

/// Why a run has no result whose test is not found.
fn failure_of_test(
    alloc: Global,
    session: &Session<'_>,
    fault: TestFault,
) -> Result<Failure, AllocError>
    ensures { IfOk result (IsTestFailure session.now fault) }
{
    match fault {
        TestFault::NoTest(missing) => {
            Ok(Failure::NoTest(missing_report(alloc, session, missing)?))
        }
        TestFault::SeveralTests(tests) => {
            let report = test_report(alloc, session, Code::SeveralTests, tests, None)?;
            Ok(Failure::SeveralTests(report))
        }
        TestFault::Input(fault) => Ok(Failure::Engines(fault)),
        TestFault::Memory => Ok(Failure::Memory),
    }
}

/// The test that a request names, or why a run returns nothing about it. The metadata were read at
/// a path.
pub fn find_test(
    alloc: Global,
    session: &Session<'_>,
    requested: &RequestedTest<'_>,
    path: Option<&str>,
) -> Result<FoundTest, Failure>
    ensures found { IfOk result (IsFoundFor session.now requested.now) }
    ensures err { IfErr result (IsFailureToFind session.now requested.now) }
{
    match session.find_test(alloc, requested, path) {
        Ok(found) => Ok(found),
        Err(fault) => Err(failure_of_test(alloc, session, fault)?),
    }
}
