//! Findings, by the words of lines.
use crate::reports::line::Line;
use crate::reports::parts::{expression_of, place_of};
use crate::row::RowError;
use rinqebo_report::{
    CharSpan, Finding, FindingStep, HelpPlace, Level, LinePart, Sign, SourceLine,
};
use std::alloc::{AllocError, Global};

/// The level of a word.
fn level_of(word: &str) -> Result<Level, RowError> {
    match word {
        "error" => Ok(Level::Error),
        "warning" => Ok(Level::Warning),
        _ => Err(RowError::NoRow),
    }
}

/// The finding of a line: its level, its code and its message.
pub fn finding_of(alloc: Global, line: &Line) -> Result<Finding, RowError> {
    let level = level_of(line.word(1)?)?;
    let code = line.text(alloc, 2)?;
    let message = line.text(alloc, 3)?;
    Ok(Finding::new(alloc, level, code, message))
}

/// The source line of a line: its number and its text.
fn source_line(alloc: Global, line: &Line) -> Result<SourceLine, RowError> {
    Ok(SourceLine {
        number: line.number(1)?,
        text: line.text(alloc, 2)?,
        parts: Vec::new(alloc),
    })
}

/// The sign of a word.
fn sign_of(word: &str) -> Result<Sign, RowError> {
    match word {
        "blank" => Ok(Sign::Blank),
        "fault" => Ok(Sign::Fault),
        "related" => Ok(Sign::Related),
        _ => Err(RowError::NoRow),
    }
}

/// The part of a source line of a line: its sign and its characters.
fn part_of(line: &Line) -> Result<LinePart, RowError> {
    Ok(LinePart {
        sign: sign_of(line.word(1)?)?,
        span: CharSpan {
            from: line.number(2)? as usize,
            to: line.number(3)? as usize,
        },
    })
}

/// Adds a part to the last source line of a finding.
fn add_part(finding: &mut Finding, part: LinePart) -> Result<(), RowError> {
    let Some(last) = finding.lines.last_mut() else {
        return Err(RowError::NoRow);
    };
    last.parts.push(part).map_err(AllocError::from)?;
    Ok(())
}

/// The steps that a text spells: keys, and numbers for positions, with dots between them.
fn steps_of(alloc: Global, text: &str) -> Result<Vec<FindingStep>, RowError> {
    let mut steps = Vec::new(alloc);
    for part in text.split('.') {
        let step = match part.parse::<usize>() {
            Ok(position) => FindingStep::Position(position),
            Err(_) => FindingStep::Key(String::from_str(alloc, part)?),
        };
        steps.push(step).map_err(AllocError::from)?;
    }
    Ok(steps)
}

/// Sets the advice of a line.
fn set_advice(alloc: Global, finding: &mut Finding, line: &Line) -> Result<(), RowError> {
    let text = line.text(alloc, 1)?;
    match line.word(0)? {
        "upstream" => finding.upstream = Some(text),
        "path" => {
            finding.steps = steps_of(alloc, text.as_str())?;
            finding.path = Some(text);
        }
        "expected" => finding.expected = Some(text),
        "note" => finding.notes.push(text).map_err(AllocError::from)?,
        "help-beside" => {
            finding.help = Some(text);
            finding.help_place = HelpPlace::Beside;
        }
        _ => finding.help = Some(text),
    }
    Ok(())
}

/// Sets the part of a finding that a line has.
pub fn complete(alloc: Global, finding: &mut Finding, line: &Line) -> Result<(), RowError> {
    match line.word(0)? {
        "at" => {
            finding.place = Some(place_of(line, 1, 5)?);
            finding.column = line.optional_number(4)?;
            Ok(())
        }
        "expression" => {
            finding.expression = Some(expression_of(alloc, line)?);
            Ok(())
        }
        "line" => {
            let shown = source_line(alloc, line)?;
            finding.lines.push(shown).map_err(AllocError::from)?;
            Ok(())
        }
        "part" => add_part(finding, part_of(line)?),
        _ => set_advice(alloc, finding, line),
    }
}
