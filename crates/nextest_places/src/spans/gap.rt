//! Tests of pieces of a text.
ghost use Rattle.std.specs.Prelude.{◌≡◌, ◌∷◌, [], true};
ghost use Rattle.std.specs.Bool.{OnTrue};
ghost use Rattle.nextest_places.specs.Spans.Tokens as spec;

use crate::spans::token::Container;
use toml_parser::starts_string;
use toml_parser::text::{first, skip_blank};

/// Whether the text may be between tokens: white space, newlines and comments, or a separator.
pub(crate) fn is_gap(text: &str) -> bool
    ensures { result ≡ spec.is_gap text.now }
{
    skip_blank(text, true).is_empty() || (text.len() == 1 && is_separator(first(text)))
}

fn is_separator(byte: u8) -> bool
    ensures { result ≡ spec.is_separator byte }
{
    byte == b'.' || byte == b'=' || byte == b',' || byte == b']'
}

/// Whether the text is what opens a list or a table.
pub(crate) fn opens(container: Container, text: &str) -> bool
    ensures { OnTrue result (text.now ≡ spec.opening container ∷ []) }
{
    match container {
        Container::List => text == "[",
        Container::Table => text == "{",
    }
}

/// Whether the text is what closes one.
pub(crate) fn closes(container: Container, text: &str) -> bool
    ensures { OnTrue result (text.now ≡ spec.closing container ∷ []) }
{
    match container {
        Container::List => text == "]",
        Container::Table => text == "}",
    }
}

/// Whether the text begins a value that is neither a string nor a list nor a table.
pub(crate) fn begins_word(text: &str) -> bool
    ensures { result ≡ spec.begins_word text.now }
{
    !starts_string(text) && first(text) != b'[' && first(text) != b'{'
}
