//! Steps on texts.
ghost use Rattle.std.specs.Prelude.{◌≡◌, ◌+◌, None, Some, true, [], length, take, drop, chars, IfSome, MatchOption};
ghost use Rattle.std.specs.Str.{IsCharBoundary};
ghost use Rattle.filter_language.specs.Places.{IsBehind, IsPast};
ghost use Rattle.filter_language.specs.Arguments.{behind_first};
ghost use Rattle.filter_language.specs.Predicates.{before_rest};
ghost use Rattle.filter_language.specs.Texts.{after_prefix, skipped, front_until, rest_until, are_ascii};

/// What follows a prefix of a text, or `None` where the text doesn't begin with it.
pub fn after<'a>(prefix: &str, text: &'a str) -> Option<&'a str>
    ensures value { MatchOption result (after_prefix prefix.now text.now ≡ None)
        (λ rest. after_prefix prefix.now text.now ≡ Some rest.now) }
    ensures length { IfSome result (λ rest. length rest.now + length prefix.now ≡ length text.now) }
{
    text.strip_prefix(prefix)
}

/// What follows a space or the end of a line, or `None` where neither is in front.
#[tactic(auto, using(crate::proofs::Blanks::no_blank, crate::proofs::Blanks::behind_space, crate::proofs::Blanks::behind_line, crate::proofs::Blanks::behind_return))]
fn behind_blank(text: &str) -> Option<&str>
    ensures value { MatchOption result (skipped text.now ≡ text.now)
        (λ rest. skipped text.now ≡ skipped rest.now) }
    ensures shorter { IfSome result (λ rest. IsPast rest.now text.now) }
{
    if let Some(rest) = after(" ", text) {
        return Some(rest);
    }
    if let Some(rest) = after("\n", text) {
        return Some(rest);
    }
    after("\r\n", text)
}

/// A text without the blanks in front.
pub fn skip_blanks(text: &str) -> &str
    ensures value { result.now ≡ skipped text.now }
    ensures place { IsBehind result.now text.now }
{
    let mut rest = text;
    while let Some(behind) = behind_blank(rest) {
        rest = behind;
    }
    rest
}

/// The place of the first character that is one of the stops.
fn first_stop(stops: &[char], text: &str) -> Option<usize>
    requires { are_ascii stops.now ≡ true }
    ensures { MatchOption result
        ((front_until stops.now text.now ≡ text.now) × (rest_until stops.now text.now ≡ []))
        (λ place. (front_until stops.now text.now ≡ take place text.now)
        × (rest_until stops.now text.now ≡ drop place text.now)
        × IsCharBoundary text.now place) }
{
    text.find(stops)
}

/// A text up to the first character that is one of the stops, and from there on.
pub fn until<'a>(stops: &[char], text: &'a str) -> (&'a str, &'a str)
    requires { are_ascii stops.now ≡ true }
    ensures front { result.0.now ≡ front_until stops.now text.now }
    ensures rest { result.1.now ≡ rest_until stops.now text.now }
    ensures place { IsBehind result.1.now text.now }
{
    match first_stop(stops, text) {
        Some(place) => (&text[..place], &text[place..]),
        None => (text, ""),
    }
}

/// A text behind its first character.
pub fn behind_character(text: &str) -> &str
    ensures value { result.now ≡ behind_first (chars text.now) text.now }
    ensures place { IsBehind result.now text.now }
{
    let mut chars = text.chars();
    let _ = chars.next();
    chars.as_str()
}

/// A text before a rest of it.
pub fn front<'a>(text: &'a str, rest: &str) -> &'a str
    ensures { result.now ≡ before_rest text.now rest.now }
{
    text.strip_suffix(rest).unwrap_or(text)
}
