//! Cases, and the texts that they are read from.
use crate::files::StoredFiles;
use std::alloc::{AllocError, Global};
use thiserror::Error;

/// Files, and the lines of what a program does over them.
#[derive(Drop)]
pub struct Case<'a> {
    /// Its name.
    pub name: &'a str,
    /// Its files.
    pub files: StoredFiles<'a>,
    /// Its lines that are not about files, in their order.
    pub lines: Vec<&'a str>,
}

/// Why a text is not a list of cases.
#[derive(Debug, Drop, Error)]
pub enum CaseError<'a> {
    /// A line is not one that a case may have.
    #[error("no line of a case: `{0}`")]
    Line(&'a str),
    /// A case runs nothing.
    #[error("no run in case `{0}`")]
    NoRun(&'a str),
    /// Memory ran out.
    #[error("out of memory")]
    Memory,
}

impl<'a> From<AllocError> for CaseError<'a> {
    fn from(_error: AllocError) -> CaseError<'a> {
        CaseError::Memory
    }
}

impl<'a> Case<'a> {
    fn new(alloc: Global, name: &'a str) -> Case<'a> {
        Case {
            name,
            files: StoredFiles::new(alloc),
            lines: Vec::new(alloc),
        }
    }

    /// Takes a line below the one that begins the case.
    fn take_line(&mut self, alloc: Global, line: &'a str) -> Result<(), CaseError<'a>> {
        if !self.files.take_line(alloc, line)? {
            self.lines.push(line).map_err(AllocError::from)?;
        }
        Ok(())
    }
}

/// Reads the cases of a text.
///
/// # Errors
///
/// [`CaseError::Line`] if a line is before all cases, or adds to the text of a file that has
/// none. [`CaseError::Memory`] if memory runs out.
pub fn read_cases(alloc: Global, text: &str) -> Result<Vec<Case<'_>>, CaseError<'_>> {
    let mut cases: Vec<Case<'_>> = Vec::new(alloc);
    for line in text.lines() {
        if line.is_empty() || line.starts_with("#") {
            continue;
        }
        if let Some(name) = line.strip_prefix("case ") {
            cases
                .push(Case::new(alloc, name))
                .map_err(AllocError::from)?;
            continue;
        }
        match cases.last_mut() {
            Some(case) => case.take_line(alloc, line)?,
            None => return Err(CaseError::Line(line)),
        }
    }
    Ok(cases)
}
