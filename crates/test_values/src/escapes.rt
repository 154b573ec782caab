//! Characters that are written in a row by an escape.
use crate::row::RowError;
use std::alloc::{AllocError, Global};

/// The escapes that a text may have.
#[derive(Clone, Copy)]
pub enum Escapes {
    /// `\n`, `\r`, `\t` and `\\`.
    Named,
    /// The same, and `\u{hex}`.
    Numbered,
}

/// How far an escape has been read.
#[derive(Clone, Copy)]
enum Escape {
    /// There is none.
    None,
    /// A backslash.
    Backslash,
    /// A backslash and `u`.
    Opened,
    /// The number of a character, as far as it has been read.
    Number(u32),
}

/// A text in which escapes are replaced.
#[derive(Drop)]
struct Unescaping {
    text: String,
    escape: Escape,
}

/// The text with characters in place of its escapes.
pub fn unescaped(alloc: Global, text: &str, escapes: Escapes) -> Result<String, RowError> {
    let mut read = Unescaping {
        text: String::new(alloc),
        escape: Escape::None,
    };
    for character in text.chars() {
        read.take(character, escapes)?;
    }
    match read.escape {
        Escape::None => Ok(read.text),
        _ => Err(RowError::NoRow),
    }
}

impl Unescaping {
    /// Takes the next character of the row.
    fn take(&mut self, character: char, escapes: Escapes) -> Result<(), RowError> {
        let escape = self.escape;
        self.escape = Escape::None;
        match (escape, character, escapes) {
            (Escape::None, '\\', _) => self.escape = Escape::Backslash,
            (Escape::None, _, _) => self.text.push(character)?,
            (Escape::Backslash, 'u', Escapes::Numbered) => self.escape = Escape::Opened,
            (Escape::Backslash, _, _) => self.text.push(named(character)?)?,
            (Escape::Opened, '{', _) => self.escape = Escape::Number(0),
            (Escape::Opened, _, _) => return Err(RowError::NoRow),
            (Escape::Number(number), '}', _) => {
                self.text
                    .push(char::from_u32(number).ok_or(RowError::NoRow)?)?;
            }
            (Escape::Number(number), _, _) => {
                let number = with_digit(number, character).ok_or(RowError::NoRow)?;
                self.escape = Escape::Number(number);
            }
        }
        Ok(())
    }
}

/// The character that a backslash and this one are written for.
fn named(character: char) -> Result<char, RowError> {
    match character {
        'n' => Ok('\n'),
        'r' => Ok('\r'),
        't' => Ok('\t'),
        '\\' => Ok('\\'),
        _ => Err(RowError::NoRow),
    }
}

/// The number with a hexadecimal digit more.
fn with_digit(number: u32, digit: char) -> Option<u32> {
    number.checked_mul(16)?.checked_add(digit.to_digit(16)?)
}

/// Adds a character, by an escape if it is the end of a line, a tab or a backslash.
pub fn push_escaped(line: &mut String, character: char) -> Result<(), AllocError> {
    match character {
        '\n' => line.push_str("\\n"),
        '\r' => line.push_str("\\r"),
        '\t' => line.push_str("\\t"),
        '\\' => line.push_str("\\\\"),
        other => line.push(other),
    }
}
