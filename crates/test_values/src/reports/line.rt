//! Lines of words with tabs between them.
use crate::row::RowError;
use std::alloc::{AllocError, Global};

/// The words of a line.
#[derive(Drop)]
pub struct Line {
    words: Vec<String>,
}

/// The text with characters in place of its escapes.
fn unescaped(alloc: Global, text: &str) -> Result<String, RowError> {
    let mut read = String::new(alloc);
    let mut is_escape = false;
    for c in text.chars() {
        if is_escape {
            read.push(named(c).ok_or(RowError::NoRow)?)?;
            is_escape = false;
        } else if c == '\\' {
            is_escape = true;
        } else {
            read.push(c)?;
        }
    }
    if is_escape {
        Err(RowError::NoRow)
    } else {
        Ok(read)
    }
}

/// The character that this one means behind a backslash.
fn named(c: char) -> Option<char> {
    match c {
        'n' => Some('\n'),
        't' => Some('\t'),
        'e' => Some('\u{1b}'),
        '\\' => Some('\\'),
        _ => None,
    }
}

impl Line {
    /// Reads the words of a line.
    pub fn read(alloc: Global, line: &str) -> Result<Line, RowError> {
        let mut words = Vec::new(alloc);
        for word in line.split('\t') {
            let word = unescaped(alloc, word)?;
            words.push(word).map_err(AllocError::from)?;
        }
        Ok(Line { words })
    }

    /// The word at a place.
    pub fn word(&self, place: usize) -> Result<&str, RowError> {
        match self.words.get(place) {
            Some(word) => Ok(word.as_str()),
            None => Err(RowError::NoRow),
        }
    }

    /// A copy of the word at a place.
    pub fn text(&self, alloc: Global, place: usize) -> Result<String, RowError> {
        Ok(String::from_str(alloc, self.word(place)?)?)
    }

    /// A copy of the word at a place, unless it means nothing.
    pub fn optional_text(&self, alloc: Global, place: usize) -> Result<Option<String>, RowError> {
        match self.word(place)? {
            "-" => Ok(None),
            word => Ok(Some(String::from_str(alloc, word)?)),
        }
    }

    /// The number at a place.
    pub fn number(&self, place: usize) -> Result<u64, RowError> {
        self.word(place)?.parse::<u64>().ok().ok_or(RowError::NoRow)
    }

    /// The number at a place, unless the word means nothing.
    pub fn optional_number(&self, place: usize) -> Result<Option<u64>, RowError> {
        match self.word(place)? {
            "-" => Ok(None),
            _ => Ok(Some(self.number(place)?)),
        }
    }

    /// Copies of the words from a place on.
    pub fn texts(&self, alloc: Global, place: usize) -> Result<Vec<String>, RowError> {
        let mut texts = Vec::new(alloc);
        for word in self.words.iter().skip(place) {
            let copy = word.clone()?;
            texts.push(copy).map_err(AllocError::from)?;
        }
        Ok(texts)
    }

    /// The words from a place on.
    pub fn words(&self) -> &[String] {
        &self.words
    }
}
