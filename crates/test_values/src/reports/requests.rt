//! The request that a report shows.
use crate::reports::line::Line;
use crate::row::RowError;
use rinqebo_report::{NamedTest, ReportCommand, ReportedRequest};
use std::alloc::Global;

/// The command of this word.
fn command_of(word: &str) -> Option<ReportCommand> {
    match word {
        "explain" => Some(ReportCommand::Explain),
        "list" => Some(ReportCommand::List),
        "show-config" => Some(ReportCommand::ShowConfig),
        "check" => Some(ReportCommand::Check),
        "diff" => Some(ReportCommand::Diff),
        _ => None,
    }
}

/// The request that names a command alone.
pub fn bare_request(alloc: Global, command: ReportCommand) -> ReportedRequest {
    ReportedRequest {
        command,
        test: None,
        keys: Vec::new(alloc),
        why: None,
        by: None,
        list: None,
    }
}

/// The test of a line, if its name is one.
fn named_test(alloc: Global, line: &Line) -> Result<Option<NamedTest>, RowError> {
    match line.optional_text(alloc, 3)? {
        Some(name) => Ok(Some(NamedTest {
            binary: line.optional_text(alloc, 2)?,
            name,
        })),
        None => Ok(None),
    }
}

/// The request of a line.
pub fn request_of(alloc: Global, line: &Line) -> Result<ReportedRequest, RowError> {
    Ok(ReportedRequest {
        command: command_of(line.word(1)?).ok_or(RowError::NoRow)?,
        test: named_test(alloc, line)?,
        why: line.optional_text(alloc, 4)?,
        by: line.optional_text(alloc, 5)?,
        list: line.optional_text(alloc, 6)?,
        keys: line.texts(alloc, 7)?,
    })
}
