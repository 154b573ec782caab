//! What is wrong with a file.
ghost use Rattle.rinqebo_report.specs.Findings.{IsBare};

use crate::origin::FilePlace;
use std::alloc::Global;

/// How bad it is.
#[derive(Clone, Copy)]
pub enum Level {
    /// The files are refused.
    Error,
    /// The files are accepted.
    Warning,
}

/// A part of a text, in characters from 0.
#[derive(Clone, Copy)]
pub struct CharSpan {
    /// The first character.
    pub from: usize,
    /// The one after the last.
    pub to: usize,
}

/// An expression that is refused.
#[derive(Drop)]
pub struct RefusedExpression {
    /// How the file writes it.
    pub text: String,
    /// The part that is wrong.
    pub span: Option<CharSpan>,
}

/// The sign below a part of a line.
#[derive(Clone, Copy)]
pub enum Sign {
    /// Nothing: the part has no fault.
    Blank,
    /// Carets: the part is at fault.
    Fault,
    /// Hyphens: the part is what the fault is measured by.
    Related,
}

/// A part of a line, and the sign below it.
#[derive(Clone, Copy)]
pub struct LinePart {
    /// The sign below it.
    pub sign: Sign,
    /// Its characters.
    pub span: CharSpan,
}

/// A line of a file that shows a fault.
#[derive(Drop)]
pub struct SourceLine {
    /// Its number, from 1.
    pub number: u64,
    /// Its text, without the end of the line.
    pub text: String,
    /// Its parts up to the last one with a sign, each right after the one before it.
    pub parts: Vec<LinePart>,
}

/// A step of the path to what a finding is about.
#[derive(Drop)]
pub enum FindingStep {
    /// To what a table has at a key.
    Key(String),
    /// To what an array has at a position, from 0.
    Position(usize),
}

/// Where a page shows the help of a finding.
#[derive(Clone, Copy)]
pub enum HelpPlace {
    /// Beside the carets, if there are some.
    Beside,
    /// On a line below them.
    Below,
}

/// What is wrong, and where.
pub struct Finding {
    /// Whether files are refused for it.
    pub level: Level,
    /// The name of what is wrong.
    pub code: String,
    /// The name that nextest-runner has for it, if it has one.
    pub upstream: Option<String>,
    /// Where it is, if that is known.
    pub place: Option<FilePlace>,
    /// The column in the first line, from 1.
    pub column: Option<u64>,
    /// The keys that lead to it, with dots between them.
    pub path: Option<String>,
    /// The same keys and positions, one by one.
    pub steps: Vec<FindingStep>,
    /// The message, on one line.
    pub message: String,
    /// The lines of the file that show it.
    pub lines: Vec<SourceLine>,
    /// The expression that is refused, if one is.
    pub expression: Option<RefusedExpression>,
    /// What would be right there.
    pub expected: Option<String>,
    /// What else is known, a line each.
    pub notes: Vec<String>,
    /// What to do.
    pub help: Option<String>,
    /// Where pages show what to do.
    pub help_place: HelpPlace,
}

// Written out, so that the proof of a caller sees one call and not the drop of each part.
impl Drop for Finding {
    fn drop(self) {
        let Finding {
            level: _level,
            code: _code,
            upstream: _upstream,
            place: _place,
            column: _column,
            path: _path,
            steps: _steps,
            message: _message,
            lines: _lines,
            expression: _expression,
            expected: _expected,
            notes: _notes,
            help: _help,
            help_place: _help_place,
        } = self;
    }
}

impl Finding {
    /// Returns a finding with a message alone.
    pub fn new(alloc: Global, level: Level, code: String, message: String) -> Finding
        ensures { IsBare level code message result }
    {
        Finding {
            level,
            code,
            upstream: None,
            place: None,
            column: None,
            path: None,
            steps: Vec::new(alloc),
            message,
            lines: Vec::new(alloc),
            expression: None,
            expected: None,
            notes: Vec::new(alloc),
            help: None,
            help_place: HelpPlace::Below,
        }
    }
}
