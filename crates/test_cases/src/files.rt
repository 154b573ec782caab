//! Files in memory.
use crate::case::CaseError;
use nextest_config::ReadOutcome;
use nextest_sources::FileReader;
use std::alloc::{AllocError, Global};

/// What is there at the path of a file.
#[derive(Drop)]
enum Stored {
    Text(String),
    Missing,
    NotADirectory,
    Unreadable,
    OutOfMemory,
}

impl Stored {
    /// Reads it, but no more than some bytes of a text.
    fn read(&self, alloc: Global, limit: usize) -> Result<ReadOutcome, AllocError> {
        match self {
            Stored::Text(text) => beginning_of(alloc, text.as_str(), limit),
            Stored::Missing => Ok(ReadOutcome::NotFound),
            Stored::NotADirectory => Ok(ReadOutcome::NotADirectory),
            Stored::Unreadable => Ok(ReadOutcome::Failed(String::from_str(alloc, "a disk fault")?)),
            Stored::OutOfMemory => Err(AllocError),
        }
    }
}

/// Reads the first bytes of a text, which may end within a character.
fn beginning_of(alloc: Global, text: &str, limit: usize) -> Result<ReadOutcome, AllocError> {
    let bytes: Vec<u8> = text.bytes().take(limit).collect(alloc)?;
    match String::from_utf8(bytes) {
        Ok(text) => Ok(ReadOutcome::Text(text)),
        Err(_) => Ok(ReadOutcome::Failed(String::from_str(alloc, "no UTF-8")?)),
    }
}

/// A file of a case.
#[derive(Drop)]
struct StoredFile<'a> {
    path: &'a str,
    stored: Stored,
}

/// The files of a case. There are no others.
#[derive(Drop)]
pub struct StoredFiles<'a>(Vec<StoredFile<'a>>);

/// Whether the path of a file leads through a folder.
fn lies_in(path: &str, folder: &str) -> bool {
    match path.strip_prefix(folder) {
        Some(rest) => rest.starts_with('/') || folder.ends_with('/'),
        None => false,
    }
}

/// The character of a number in hexadecimal digits.
fn char_of(digits: &str) -> Option<char> {
    char::from_u32(u32::from_str_radix(digits, 16).ok()?)
}

impl<'a> StoredFiles<'a> {
    /// No files.
    pub fn new(alloc: Global) -> StoredFiles<'a> {
        StoredFiles(Vec::new(alloc))
    }

    /// Takes a line about files, and returns whether it is one.
    ///
    /// # Errors
    ///
    /// [`CaseError::Line`] if it adds to the text of a file that has none. [`CaseError::Memory`] if
    /// memory runs out.
    pub fn take_line(&mut self, alloc: Global, line: &'a str) -> Result<bool, CaseError<'a>> {
        let (word, rest) = line.split_once(' ').unwrap_or((line, ""));
        match word {
            "" => self.add_line(line)?,
            "part" => self.last_text(line)?.push_str(rest)?,
            "times" => self.add_times(alloc, line, rest)?,
            "char" => self.add_char(line, rest)?,
            "file" => self.add_file(rest, Stored::Text(String::new(alloc)))?,
            "missing" => self.add_file(rest, Stored::Missing)?,
            "not-a-directory" => self.add_file(rest, Stored::NotADirectory)?,
            "unreadable" => self.add_file(rest, Stored::Unreadable)?,
            "out-of-memory" => self.add_file(rest, Stored::OutOfMemory)?,
            _ => return Ok(false),
        }
        Ok(true)
    }

    fn add_file(&mut self, path: &'a str, stored: Stored) -> Result<(), AllocError> {
        self.0.push(StoredFile { path, stored })?;
        Ok(())
    }

    /// The text of the last file. `line` adds to it.
    fn last_text(&mut self, line: &'a str) -> Result<&mut String, CaseError<'a>> {
        match self.0.last_mut() {
            Some(
                StoredFile {
                    stored: Stored::Text(text),
                    ..
                },
            ) => Ok(text),
            _ => Err(CaseError::Line(line)),
        }
    }

    /// Takes a line of the text of the last file.
    fn add_line(&mut self, line: &'a str) -> Result<(), CaseError<'a>> {
        let Some(written) = line.strip_prefix("  ") else {
            return Err(CaseError::Line(line));
        };
        let text = self.last_text(line)?;
        text.push_str(written)?;
        text.push_str("\n")?;
        Ok(())
    }

    /// Takes a part of a text that is repeated, in which `{}` is the number of the repetition.
    fn add_times(
        &mut self,
        alloc: Global,
        line: &'a str,
        rest: &'a str,
    ) -> Result<(), CaseError<'a>> {
        let (count, part) = rest.split_once(' ').unwrap_or((rest, ""));
        let Ok(count) = count.parse::<u32>() else {
            return Err(CaseError::Line(line));
        };
        let text = self.last_text(line)?;
        for number in 0..count {
            match part.split_once("{}") {
                Some((before, after)) => {
                    let numbered = format!(in alloc; "{before}{number}{after}\n")?;
                    text.push_str(numbered.as_str())?;
                }
                None => text.push_str(part)?,
            }
        }
        Ok(())
    }

    /// Takes a character of a text, by its number in hexadecimal digits.
    fn add_char(&mut self, line: &'a str, digits: &'a str) -> Result<(), CaseError<'a>> {
        let Some(c) = char_of(digits) else {
            return Err(CaseError::Line(line));
        };
        self.last_text(line)?.push(c)?;
        Ok(())
    }

    /// How many bytes the text of the last file has.
    pub fn last_length(&self) -> usize {
        match self.0.last() {
            Some(
                StoredFile {
                    stored: Stored::Text(text),
                    ..
                },
            ) => text.len(),
            _ => 0,
        }
    }

    /// Reads the file at a path, but no more than some bytes of its text.
    fn read_first(
        &self,
        alloc: Global,
        path: &str,
        limit: usize,
    ) -> Result<ReadOutcome, AllocError> {
        match self.0.iter().find(|file| file.path == path) {
            Some(file) => file.stored.read(alloc, limit),
            None => Ok(ReadOutcome::NotFound),
        }
    }
}

impl FileReader for StoredFiles<'_> {
    ghost MayGive = { λ _ _ _. Unit {0} };

    fn read(&self, alloc: Global, path: &str) -> Result<ReadOutcome, AllocError> {
        self.read_first(alloc, path, usize::MAX)
    }

    /// Whether there is a folder at a path: `/w`, and those through which the path of a file leads.
    fn has_folder(&self, path: &str) -> bool {
        path == "/w" || self.0.iter().any(|file| lies_in(file.path, path))
    }
}

/// The files of a case, with no more than some bytes of a text.
#[derive(Clone, Copy)]
pub struct Beginnings<'a> {
    /// The files.
    pub files: &'a StoredFiles<'a>,
    /// The number of bytes of a text.
    pub limit: usize,
}

impl FileReader for Beginnings<'_> {
    ghost MayGive = { λ _ _ _. Unit {0} };

    fn read(&self, alloc: Global, path: &str) -> Result<ReadOutcome, AllocError> {
        self.files.read_first(alloc, path, self.limit)
    }

    fn has_folder(&self, path: &str) -> bool {
        self.files.has_folder(path)
    }
}
