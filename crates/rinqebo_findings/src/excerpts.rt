//! The lines of files that show findings.
ghost use Rattle.std.specs.Prelude.{◌≡◌, IfOk, map, option_map};
ghost use Rattle.std.specs.Option.{option_copied};
ghost use Rattle.rinqebo_findings.specs.Files.{file_in, text_in};
ghost use Rattle.rinqebo_findings.specs.Shown.{facts};

use nextest_sources::{FileInput, ReadOutcome};
use rinqebo_faults::{Mark, lines_of};
use rinqebo_report::{FilePlace, Finding, Sign, SourceLine};
use rinqebo_request::Gathered;
use std::alloc::{AllocError, Global};

/// How many findings have lines: a page shows no more.
const WITH_LINES: usize = 100;

/// Returns the file of a run that is the layer at a position: first come the defaults, which are no
/// file, then the tools' files, the first tool last, then the organisation's, if there is one, and
/// the repository's.
fn file_of(gathered: &Gathered, position: usize) -> Option<&FileInput>
    ensures { option_map (λ file. file.now) result ≡ file_in gathered.now position }
{
    let tools = gathered.tools.len();
    if position == 0 {
        return None;
    }
    if position <= tools {
        return match gathered.tools.get(tools.saturating_sub(position)) {
            Some(tool) => Some(&tool.config_file),
            None => None,
        };
    }
    match (&gathered.organisation_file, position.saturating_sub(tools)) {
        (Some(file), 1) => Some(file),
        _ => match &gathered.config_file {
            Some(file) => Some(file),
            None => Some(&gathered.paths.shared),
        },
    }
}

/// Returns the text of the layer at a position, if it is a file that has one.
pub fn text_of(gathered: &Gathered, position: usize) -> Option<&str>
    ensures { option_copied result ≡ text_in gathered.now position }
{
    match &file_of(gathered, position)?.outcome {
        ReadOutcome::Text(text) => Some(text.as_str()),
        ReadOutcome::NotFound | ReadOutcome::NotADirectory | ReadOutcome::Failed(_) => None,
    }
}

/// Returns the lines of files that show a finding.
fn lines_at(
    alloc: Global,
    gathered: &Gathered,
    place: Option<FilePlace>,
) -> Result<Vec<SourceLine>, AllocError> {
    let Some(
        FilePlace {
            source,
            range: Some(range),
            ..
        },
    ) = place
    else {
        return Ok(Vec::new(alloc));
    };
    match text_of(gathered, source) {
        Some(text) => {
            let sign = Sign::Fault;
            lines_of(alloc, text, &[Mark { sign, range }])
        }
        None => Ok(Vec::new(alloc)),
    }
}

/// Returns a finding, behind some others, with the lines of its file that show it, unless it has
/// some or a page does not show it.
fn lined(
    alloc: Global,
    gathered: &Gathered,
    others: usize,
    finding: Finding,
) -> Result<Finding, AllocError>
    ensures { IfOk result (λ lined. facts lined ≡ facts finding) }
{
    if others >= WITH_LINES || !finding.lines.is_empty() {
        return Ok(finding);
    }
    let mut lined = finding;
    lined.lines = lines_at(alloc, gathered, lined.place)?;
    Ok(lined)
}

/// Returns findings with the lines of files that show them: the first ones, as many as a page
/// shows.
pub fn with_lines(
    alloc: Global,
    gathered: &Gathered,
    findings: Vec<Finding>,
) -> Result<Vec<Finding>, AllocError>
    ensures { IfOk result (λ shown. map facts shown.items ≡ map facts findings.items) }
{
    let mut shown = Vec::new(alloc);
    for finding in findings {
        let finding = lined(alloc, gathered, shown.len(), finding)?;
        shown.push(finding)?;
    }
    Ok(shown)
}
