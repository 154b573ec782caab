//! Fronts of a text.
ghost use Rattle.std.specs.Prelude.{◌≡◌, []};
ghost use Rattle.nextest_places.specs.Spans.Tokens.{IsCut};

/// Some bytes at the front of a text that is not empty, and what follows them. They are `len` bytes
/// where these are some whole characters, and else the first character.
pub(crate) fn cut(text: &str, len: usize) -> (&str, &str)
    requires { ¬ (text.now ≡ []) }
    ensures { IsCut text.now result.0.now result.1.now }
{
    if 0 < len && text.is_char_boundary(len) {
        return text.split_at(len);
    }
    let Some(c) = text.chars().next() else {
        return (text, "");
    };
    text.split_at(c.len_utf8())
}
