//! The findings of profiles that inherit in a cycle.
ghost use Rattle.std.specs.Prelude.{◌≡◌, ◌∷◌, [], IfOk, OnOk, map, string_bytes};
ghost use Rattle.std.specs.Option.{option_copied};
ghost use Rattle.rinqebo_findings.specs.Later.{AddsLater, cycle_fault, parent_fault};
ghost use Rattle.rinqebo_findings.specs.LaterWords.{AreCycleSteps, IsCycleStep, IsCycleText, IsParentPlace, first_again, line_words, other_file, place_words, says_cycle};

use crate::below::file_at;
use crate::delays::is_own;
use crate::refused::Refused;
use rinqebo_faults::{Mark, lines_of, parent_path};
use rinqebo_report::{Code, FilePlace, Finding, Sign, SourceLine};
use std::alloc::{AllocError, Global};

/// The place at which a profile names its parent.
fn parent_place(refused: &Refused<'_, '_>, profile: &str) -> Option<FilePlace>
    ensures { IsParentPlace refused.now.source.layers.now refused.now.source.position
        profile.now result }
{
    let path = parent_path(profile);
    refused.place_at(&path)
}

/// The path of the file of a place, if that is another file than the refused one.
fn other_file<'r>(refused: &Refused<'r, '_>, place: FilePlace) -> Option<&'r str>
    ensures { option_copied result
        ≡ other_file refused.now.source.layers.now refused.now.source.position place }
{
    if is_own(refused, place) {
        return None;
    }
    file_at(refused.source.layers, place.source)
}

/// A line in words, with its file if that is another one.
fn line_words(alloc: Global, line: u64, file: Option<&str>) -> Result<String, AllocError>
    ensures { IfOk result (λ words. string_bytes words
        ≡ line_words line (option_copied file.entry)) }
{
    match file {
        Some(file) => format!(in alloc; " (line {line} of {file})"),
        None => format!(in alloc; " (line {line})"),
    }
}

/// Where a profile names its parent, in words: the line, and the file if it is another one.
fn place_words(
    alloc: Global,
    refused: &Refused<'_, '_>,
    place: Option<FilePlace>,
) -> Result<String, AllocError>
    ensures { IfOk result (λ words. string_bytes words
        ≡ place_words refused.now.source.layers.now refused.now.source.position place) }
{
    let Some(place) = place else {
        return Ok(String::new(alloc));
    };
    let Some(lines) = place.lines else {
        return Ok(String::new(alloc));
    };
    let words = line_words(alloc, lines.first, other_file(refused, place))?;
    Ok(words)
}

/// A profile of a cycle in words, with the place at which it names its parent.
fn step_words(alloc: Global, refused: &Refused<'_, '_>, name: &str) -> Result<String, AllocError>
    ensures { IfOk result (λ words. IsCycleStep refused.now.source.layers.now
        refused.now.source.position name.now (string_bytes words)) }
{
    let place = parent_place(refused, name);
    let words = place_words(alloc, refused, place)?;
    Ok(format!(in alloc; "`{name}`{words} -> ")?)
}

/// The profiles of a cycle in words, one after another.
fn steps_words(
    alloc: Global,
    refused: &Refused<'_, '_>,
    cycle: &[String],
) -> Result<String, AllocError>
    ensures { IfOk result (λ words. AreCycleSteps refused.now.source.layers.now
        refused.now.source.position (map string_bytes cycle.now) (string_bytes words)) }
{
    let mut words = String::new(alloc);
    for name in cycle {
        let step = step_words(alloc, refused, name.as_str())?;
        words.push_str(step.as_str())?;
    }
    Ok(words)
}

/// The first profile of a cycle again.
fn first_again(alloc: Global, cycle: &[String]) -> Result<String, AllocError>
    ensures { IfOk result (λ words. string_bytes words
        ≡ first_again (map string_bytes cycle.now)) }
{
    match cycle.first() {
        Some(first) => format!(in alloc; "`{first}`"),
        None => Ok(String::new(alloc)),
    }
}

/// A cycle in words: each profile with the place at which it names its parent, and the first one
/// again.
fn cycle_words(
    alloc: Global,
    refused: &Refused<'_, '_>,
    cycle: &[String],
) -> Result<String, AllocError>
    ensures { IfOk result (λ words. IsCycleText refused.now.source.layers.now
        refused.now.source.position (map string_bytes cycle.now) (string_bytes words)) }
{
    let steps = steps_words(alloc, refused, cycle)?;
    let first = first_again(alloc, cycle)?;
    Ok(format!(in alloc; "profiles inherit in a cycle: {steps}{first}")?)
}

/// The parts of the refused file at which the profiles of a cycle name their parents: the first
/// one is at fault.
fn marks_of(refused: &Refused<'_, '_>, cycle: &[String]) -> Result<Vec<Mark>, AllocError> {
    let mut marks = Vec::new(refused.alloc);
    let mut sign = Sign::Fault;
    for name in cycle {
        if let Some(
            FilePlace {
                source,
                range: Some(range),
                ..
            },
        ) = parent_place(refused, name.as_str())
        {
            if refused.source.position == Some(source) {
                marks.push(Mark { sign, range })?;
            }
        }
        sign = Sign::Related;
    }
    marks.sort_by_key(|mark| (mark.range.start.line, mark.range.start.column))?;
    Ok(marks)
}

/// The lines of the refused file that show a cycle whose first parent has a place, if that is in
/// the file.
fn cycle_lines(
    refused: &Refused<'_, '_>,
    place: Option<FilePlace>,
    cycle: &[String],
) -> Result<Vec<SourceLine>, AllocError> {
    let alloc = refused.alloc;
    match (refused.text, place) {
        (Some(text), Some(place)) if refused.source.position == Some(place.source) => {
            lines_of(alloc, text, &marks_of(refused, cycle)?)
        }
        _ => Ok(Vec::new(alloc)),
    }
}

/// Adds that profiles inherit in a cycle, in words: at the parent of the first one.
fn add_cycle_at(
    refused: &Refused<'_, '_>,
    findings: &mut Vec<Finding>,
    first: &str,
    cycle: &[String],
    words: &str,
) -> Result<(), AllocError>
    ensures { IsCycleText refused.now.source.layers.now refused.now.source.position
        (map string_bytes cycle.now) words.now
        → OnOk result (AddsLater refused.now.source.layers.now refused.now.source.position
        (parent_fault Code.InheritanceCycle first.now (says_cycle (map string_bytes cycle.now))
        ∷ []) findings.old.items findings.new.items) }
{
    let path = parent_path(first);
    let lines = cycle_lines(refused, refused.place_at(&path), cycle)?;
    let mut found = refused.at(Code::InheritanceCycle, &path, words)?;
    found.lines = lines;
    refused.add_finding(findings, found)?;
    Ok(())
}

/// Adds that profiles inherit in a cycle.
pub fn add_cycle(
    refused: &Refused<'_, '_>,
    findings: &mut Vec<Finding>,
    cycle: &[String],
) -> Result<(), AllocError>
    ensures { OnOk result (AddsLater refused.now.source.layers.now refused.now.source.position
        (cycle_fault (map string_bytes cycle.now) ∷ []) findings.old.items findings.new.items) }
{
    let text = cycle_words(refused.alloc, refused, cycle)?;
    let words = text.as_str();
    match cycle.first() {
        Some(first) => add_cycle_at(refused, findings, first.as_str(), cycle, words),
        None => refused.add_whole(findings, Code::InheritanceCycle, words),
    }
}
