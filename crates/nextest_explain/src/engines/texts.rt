//! Steps on texts.
ghost use Rattle.std.specs.Prelude.{◌≡◌, eqb, None, Some, MatchOption};
ghost use Rattle.std.specs.List.{ends_with};
ghost use Rattle.nextest_explain.specs.Engines.Texts.{after_prefix, has_part};

/// What follows a prefix of a text, or `None` where the text doesn't begin with it.
pub fn after<'a>(prefix: &str, text: &'a str) -> Option<&'a str>
    ensures { MatchOption result (after_prefix prefix.now text.now ≡ None)
        (λ rest. after_prefix prefix.now text.now ≡ Some rest.now) }
{
    text.strip_prefix(prefix)
}

/// Whether a text has another as a part.
pub fn contains(text: &str, part: &str) -> bool
    ensures { result ≡ has_part part.now text.now }
{
    text.contains(part)
}

/// Whether a text ends with another.
pub fn is_ended_by(text: &str, end: &str) -> bool
    ensures { result ≡ ends_with eqb text.now end.now }
{
    text.ends_with(end)
}
