//! Warnings of settings of the JUnit report that files write and that have no effect.
ghost use Rattle.std.specs.Prelude.{IfOk};
ghost use Rattle.nextest_sources.specs.WarningsView.{warnings_view};
ghost use Rattle.rinqebo_results.specs.Warned.{BeginWithWarnings};

use nextest_config::{DefaultConfigWarnings, NextestRunMode, Setting};
use rinqebo_findings::warning_findings;
use rinqebo_keys::SettingKey;
use rinqebo_load::Session;
use rinqebo_origins::idle_grounds;
use rinqebo_report::{
    Asked, Code, Content, Finding, FindingStep, Level, Origin, SettingRow, Written,
};
use rinqebo_request::Layer;
use std::alloc::{AllocError, Global};

/// The settings of the JUnit report.
const REPORT_SETTINGS: [Setting; 4] = [
    Setting::JunitStoreSuccessOutput,
    Setting::JunitStoreFailureOutput,
    Setting::JunitReportSkipped,
    Setting::JunitFlakyFailStatus,
];

/// What a user requests, if a report is about a profile.
fn asked_in(content: &Content) -> Option<&Asked> {
    match content {
        Content::Explain { asked, .. }
        | Content::Why { asked, .. }
        | Content::List { asked, .. }
        | Content::ShowConfig { asked, .. } => Some(asked),
        Content::Check => None,
    }
}

/// Whether a row has a key, and a value that is built in.
fn is_built_in(row: &SettingRow, key: &str) -> bool {
    row.key.as_str() == key && matches!(row.origins.first(), Some(Origin::BuiltIn))
}

/// Whether a report shows what the profiles write at a key. The report of a list does not.
fn shows(content: &Content, key: &str) -> bool {
    match content {
        Content::Explain { test, .. } => test.settings.iter().any(|row| is_built_in(row, key)),
        Content::Why { key: asked, .. } => asked.as_str() == key,
        Content::ShowConfig { entries, .. } => entries
            .iter()
            .any(|entry| entry.key.as_str() == key),
        Content::List { .. } | Content::Check => false,
    }
}

/// The names of a chain of profiles.
fn names_of<'c>(alloc: Global, chain: &'c [String]) -> Result<Vec<&'c str>, AllocError> {
    let mut names = Vec::new(alloc);
    for name in chain {
        names.push(name.as_str())?;
    }
    Ok(names)
}

/// The steps to a setting of a profile, whose key is spelled with dots between the keys of tables.
fn steps_to(alloc: Global, profile: &str, key: &str) -> Result<Vec<FindingStep>, AllocError> {
    let mut steps = Vec::new(alloc);
    steps.push(FindingStep::Key(String::from_str(alloc, "profile")?))?;
    steps.push(FindingStep::Key(String::from_str(alloc, profile)?))?;
    for part in key.split('.') {
        steps.push(FindingStep::Key(String::from_str(alloc, part)?))?;
    }
    Ok(steps)
}

/// The warning that what a file writes at a key of the JUnit report has no effect.
fn idle_finding(alloc: Global, written: &Written, key: &str) -> Result<Finding, AllocError> {
    let profile = written.profile.as_str();
    let path = format!(in alloc; "profile.{profile}.{key}")?;
    let message = format!(in alloc; "{path} has no effect: no `junit.path` is set")?;
    let code = String::from_str(alloc, Code::JunitWithoutPath.word())?;
    let mut found = Finding::new(alloc, Level::Warning, code, message);
    found.place = Some(written.place);
    found.path = Some(path);
    found.steps = steps_to(alloc, profile, key)?;
    Ok(found)
}

/// Adds a warning for each file whose value at a key of the JUnit report has no effect.
fn add_idle(
    alloc: Global,
    layers: &[Layer],
    chain: &[&str],
    key: SettingKey,
    content: &Content,
    findings: &mut Vec<Finding>,
) -> Result<(), AllocError> {
    let text = key.text(alloc)?;
    if !shows(content, text.as_str()) {
        return Ok(());
    }
    for origin in idle_grounds(alloc, layers, chain, key)? {
        if let Origin::Written(written) = origin {
            findings.push(idle_finding(alloc, &written, text.as_str())?)?;
        }
    }
    Ok(())
}

/// The findings for settings of the JUnit report that a report shows and that have no effect.
fn idle_findings(
    alloc: Global,
    session: &Session<'_>,
    content: &Content,
) -> Result<Vec<Finding>, AllocError> {
    let mut findings = Vec::new(alloc);
    let Some(asked) = asked_in(content) else {
        return Ok(findings);
    };
    let chain = names_of(alloc, &asked.chain)?;
    for setting in &REPORT_SETTINGS {
        let key = SettingKey::of(*setting, NextestRunMode::Test);
        add_idle(alloc, &session.layers, &chain, key, content, &mut findings)?;
    }
    Ok(findings)
}

/// The findings of a report about a profile: those for the warnings of the load, and then those for
/// settings of the JUnit report that the report shows and that have no effect.
pub fn findings_on(
    alloc: Global,
    session: &Session<'_>,
    warnings: &DefaultConfigWarnings,
    content: &Content,
) -> Result<Vec<Finding>, AllocError>
    ensures { IfOk result (λ findings. BeginWithWarnings session.now.layers.items
        (warnings_view warnings.now) findings.items) }
{
    let mut findings = warning_findings(alloc, &session.layers, warnings)?;
    let mut idle = idle_findings(alloc, session, content)?;
    findings.append(&mut idle)?;
    Ok(findings)
}
