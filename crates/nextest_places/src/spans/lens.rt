//! How long the tokens at the front of a text are.

use toml_parser::bytes::is_bare;
use toml_parser::text::{byte_at, first};

/// The length of the spaces, tabs and carriage returns at the front, or else of a comment.
pub(crate) fn blank_len(text: &str) -> usize {
    if first(text) == b'#' {
        return text.as_bytes().iter().take_while(|b| **b != b'\n').count();
    }
    text.as_bytes().iter().take_while(|b| is_blank(**b)).count()
}

fn is_blank(byte: u8) -> bool {
    byte == b' ' || byte == b'\t' || byte == b'\r'
}

/// The length of a key's part without quotes.
pub(crate) fn bare_len(text: &str) -> usize {
    text.as_bytes().iter().take_while(|b| is_bare(**b)).count()
}

/// The length of a value that is not a string, list or table, without the blanks at its end.
pub(crate) fn word_len(text: &str) -> usize {
    let mut len = 0;
    for (i, byte) in text.as_bytes().iter().enumerate() {
        if ends_word(*byte) {
            return len;
        }
        if !is_blank(*byte) {
            len = i + 1;
        }
    }
    len
}

fn ends_word(byte: u8) -> bool {
    byte == b',' || byte == b']' || byte == b'}' || byte == b'#' || byte == b'\n'
}

/// Whether three delimiters open the string at the front.
pub(crate) fn is_multi(text: &str) -> bool {
    let delim = first(text);
    byte_at(text, 1) == delim && byte_at(text, 2) == delim
}

/// The length of the string on one line at the front. One that is not closed ends with its line.
pub(crate) fn line_string_len(text: &str) -> usize {
    let delim = first(text);
    let mut is_escaped = false;
    for (i, byte) in text.as_bytes().iter().enumerate() {
        if *byte == b'\n' {
            return i;
        }
        if is_escaped || i == 0 {
            is_escaped = false;
        } else if *byte == delim {
            return i + 1;
        } else {
            is_escaped = *byte == b'\\' && delim == b'"';
        }
    }
    text.len()
}

/// The length of the string in triple delimiters at the front. One that is not closed ends with
/// the text.
pub(crate) fn multi_string_len(text: &str) -> usize {
    let delim = first(text);
    let mut is_escaped = false;
    let mut run = Run::None;
    for (i, byte) in text.as_bytes().iter().enumerate() {
        if is_escaped || i < 3 {
            is_escaped = false;
        } else if *byte == delim {
            run = run.longer();
            if run == Run::Five {
                return i + 1;
            }
        } else if run.closes() {
            return i;
        } else {
            run = Run::None;
            is_escaped = *byte == b'\\' && delim == b'"';
        }
    }
    text.len()
}

/// How many delimiters are right before a place in a string. The last three of at most five close
/// it.
#[derive(Clone, Copy, PartialEq, Eq)]
enum Run {
    None,
    One,
    Two,
    Three,
    Four,
    Five,
}

impl Run {
    /// With one more delimiter.
    fn longer(self) -> Run {
        match self {
            Run::None => Run::One,
            Run::One => Run::Two,
            Run::Two => Run::Three,
            Run::Three => Run::Four,
            Run::Four | Run::Five => Run::Five,
        }
    }

    /// Whether the string is closed where no more delimiters follow.
    fn closes(self) -> bool {
        match self {
            Run::None | Run::One | Run::Two => false,
            Run::Three | Run::Four | Run::Five => true,
        }
    }
}
