//! The lines of a case beside its files: the command lines that run, and what is printed.
use std::alloc::{AllocError, Global};
use test_cases::{Case, CaseError};

/// The command line of a run.
#[derive(Drop)]
pub struct Run<'a> {
    pub words: &'a str,
    /// Whether each file is cut after each byte of the last one's text, with a run for each cut.
    pub is_cut: bool,
}

/// The runs over the files of a case, and what is printed of each run.
#[derive(Drop)]
pub struct Setup<'a> {
    /// The words of which one is in each line of standard output that is printed. Without them
    /// all lines are.
    pub shown: Option<&'a str>,
    /// Whether no line of standard error is printed that begins with two spaces.
    pub hides_details: bool,
    pub runs: Vec<Run<'a>>,
}

impl<'a> Setup<'a> {
    /// Takes a line of a case.
    fn take_line(&mut self, line: &'a str) -> Result<(), CaseError<'a>> {
        let (word, rest) = line.split_once(' ').unwrap_or((line, ""));
        match word {
            "show" => self.shown = Some(rest),
            "without-details" => self.hides_details = true,
            "args" => self.add_run(rest, false)?,
            "cuts" => self.add_run(rest, true)?,
            _ => return Err(CaseError::Line(line)),
        }
        Ok(())
    }

    fn add_run(&mut self, words: &'a str, is_cut: bool) -> Result<(), AllocError> {
        self.runs.push(Run { words, is_cut })?;
        Ok(())
    }

    /// The lines of a case beside its files.
    pub fn of(alloc: Global, case: &Case<'a>) -> Result<Setup<'a>, CaseError<'a>> {
        let mut setup = Setup {
            shown: None,
            hides_details: false,
            runs: Vec::new(alloc),
        };
        for line in &case.lines {
            setup.take_line(*line)?;
        }
        if setup.runs.is_empty() {
            return Err(CaseError::NoRun(case.name));
        }
        Ok(setup)
    }
}
