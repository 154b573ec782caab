//! Puts the result of a request together: its report, and the note beside it.
ghost use Rattle.std.specs.Prelude.{◌≡◌, IfOk};
ghost use Rattle.nextest_tables.specs.FileTexts.{names_in, IsIn};
ghost use Rattle.nextest_sources.specs.WarningsView.{warnings_view};
ghost use Rattle.rinqebo_checks.specs.Reports.{IsReportOf};
ghost use Rattle.rinqebo_results.specs.Warned.{ShowsWarnings};

use crate::answer::Answer;
use crate::id_note::id_note;
use crate::idle::findings_on;
use crate::status::Status;
use nextest_config::DefaultConfigWarnings;
use rinqebo_checks::report_of;
use rinqebo_load::{Config, FoundTest, Session};
use rinqebo_report::Content;
use std::alloc::{AllocError, Global};

/// The result with a report about a profile, which has the findings that go with its content.
pub fn answer_with(
    alloc: Global,
    session: &Session<'_>,
    warnings: &DefaultConfigWarnings,
    status: u8,
    note: Option<String>,
    content: Content,
) -> Result<Answer, AllocError>
    ensures status { IfOk result (λ answer. answer.status ≡ status) }
    ensures content { IfOk result (λ answer. answer.report.content ≡ content) }
    ensures about { IfOk result (λ answer. IsReportOf session.now answer.report) }
    ensures warned { IfOk result (λ answer. ShowsWarnings session.now.layers.items
        (warnings_view warnings.now) answer.report.findings.items) }
{
    let findings = findings_on(alloc, session, warnings, &content)?;
    let report = report_of(alloc, session, findings, Vec::new(alloc), content)?;
    Ok(Answer {
        report,
        status,
        note,
    })
}

/// The result with a report about a test, by a configuration that was loaded with warnings.
pub fn answer_on_test(
    alloc: Global,
    session: &Session<'_>,
    config: &Config,
    warnings: &DefaultConfigWarnings,
    profile: &str,
    test: &FoundTest,
    content: Content,
) -> Result<Answer, AllocError>
    requires { IsIn (names_in config.now.config.profiles) profile.now }
    ensures status { IfOk result (λ answer. answer.status ≡ 0) }
    ensures content { IfOk result (λ answer. answer.report.content ≡ content) }
    ensures about { IfOk result (λ answer. IsReportOf session.now answer.report) }
    ensures warned { IfOk result (λ answer. ShowsWarnings session.now.layers.items
        (warnings_view warnings.now) answer.report.findings.items) }
{
    let note = id_note(alloc, session, config, profile, test)?;
    answer_with(
        alloc,
        session,
        warnings,
        Status::Success as u8,
        note,
        content,
    )
}
