//! Parts of a report, by the words of a line.
use crate::reports::line::Line;
use crate::row::RowError;
use rinqebo_report::{
    CharSpan, ConditionAnswer, FileLines, FilePlace, Origin, Part, Position, Range,
    RefusedExpression, ReportedDuration, Scalar, Verdict, Written,
};
use std::alloc::Global;

/// The verdict of these words.
pub fn verdict_of(words: &str) -> Option<Verdict> {
    match words {
        "platform no" => Some(Verdict::PlatformNo),
        "filter no" => Some(Verdict::FilterNo),
        "sets nothing" => Some(Verdict::SetsNothing),
        "decided before" => Some(Verdict::DecidedBefore),
        "decides" => Some(Verdict::Decides),
        "fallback" => Some(Verdict::Fallback),
        _ => None,
    }
}

/// The value of this word.
pub fn answer_of(word: &str) -> Option<ConditionAnswer> {
    match word {
        "absent" => Some(ConditionAnswer::Absent),
        "yes" => Some(ConditionAnswer::Yes),
        "no" => Some(ConditionAnswer::No),
        "unknown" => Some(ConditionAnswer::Unknown),
        "unasked" => Some(ConditionAnswer::Unrequested),
        _ => None,
    }
}

/// The duration of so many nanoseconds, with the text that a file writes it with at a place, if the
/// line has as many words.
fn duration_of(
    alloc: Global,
    line: &Line,
    nanoseconds: u128,
    place: usize,
) -> Result<ReportedDuration, RowError> {
    let written = if line.words().len() <= place {
        None
    } else {
        Some(line.text(alloc, place)?)
    };
    Ok(ReportedDuration {
        nanoseconds,
        written,
    })
}

/// The scalar whose kind is at a place, and whose text behind it.
pub fn scalar_of(alloc: Global, line: &Line, place: usize) -> Result<Scalar, RowError> {
    let text = line.word(place.saturating_add(1))?;
    match line.word(place)? {
        "boolean" => Ok(Scalar::Boolean(text == "true")),
        "integer" => match text.parse::<i64>() {
            Ok(number) => Ok(Scalar::Integer(number)),
            Err(_) => Err(RowError::NoRow),
        },
        "text" => Ok(Scalar::Text(String::from_str(alloc, text)?)),
        "duration" => match text.parse::<u128>() {
            Ok(nanoseconds) => {
                let written = place.saturating_add(2);
                Ok(Scalar::Duration(duration_of(alloc, line, nanoseconds, written)?))
            }
            Err(_) => Err(RowError::NoRow),
        },
        _ => Err(RowError::NoRow),
    }
}

/// The position whose line is the number at a place, and whose column the next one.
fn position_of(line: &Line, place: usize) -> Result<Position, RowError> {
    Ok(Position {
        line: line.number(place)?,
        column: line.number(place.saturating_add(1))?,
    })
}

/// The range whose start and end are the words at a place, if the line has as many.
fn range_of(line: &Line, place: usize) -> Result<Option<Range>, RowError> {
    if line.words().len() <= place {
        return Ok(None);
    }
    Ok(Some(Range {
        start: position_of(line, place)?,
        end: position_of(line, place.saturating_add(2))?,
    }))
}

/// The place whose source is the word at a place of the line, whose lines follow, and whose range
/// is at another.
pub fn place_of(line: &Line, place: usize, range: usize) -> Result<FilePlace, RowError> {
    let source = line.number(place)? as usize;
    let first = line.optional_number(place.saturating_add(1))?;
    let last = line.optional_number(place.saturating_add(2))?;
    let lines = match (first, last) {
        (Some(first), Some(last)) => Some(FileLines { first, last }),
        _ => None,
    };
    Ok(FilePlace {
        source,
        lines,
        range: range_of(line, range)?,
    })
}

/// The origin of a line.
pub fn origin_of(alloc: Global, line: &Line) -> Result<Origin, RowError> {
    match line.word(0)? {
        "built-in" => Ok(Origin::BuiltIn),
        "default-table" => Ok(Origin::DefaultTable),
        "file" => Ok(Origin::File(place_of(line, 1, 4)?)),
        _ => written_of(alloc, line, 0),
    }
}

/// What is written in a file, whose kind is at a place of the line.
pub fn written_of(alloc: Global, line: &Line, place: usize) -> Result<Origin, RowError> {
    let index = line.optional_number(place.saturating_add(2))?;
    let part = match (line.word(place)?, index) {
        ("profile", None) => Part::Fields,
        ("override", Some(index)) => Part::Override(index as usize),
        ("script", Some(index)) => Part::Script(index as usize),
        _ => return Err(RowError::NoRow),
    };
    Ok(Origin::Written(Written {
        place: place_of(line, place.saturating_add(3), place.saturating_add(6))?,
        profile: line.text(alloc, place.saturating_add(1))?,
        part,
    }))
}

/// The expression of a line.
pub fn expression_of(alloc: Global, line: &Line) -> Result<RefusedExpression, RowError> {
    let from = line.optional_number(2)?;
    let to = line.optional_number(3)?;
    let span = match (from, to) {
        (Some(from), Some(to)) => Some(CharSpan {
            from: from as usize,
            to: to as usize,
        }),
        _ => None,
    };
    Ok(RefusedExpression {
        text: line.text(alloc, 1)?,
        span,
    })
}
