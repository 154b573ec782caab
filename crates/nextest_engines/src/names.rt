//! Tests of names.
ghost use Rattle.std.specs.Prelude.{◌≡◌, List, ℕ, Bool};

/// A test of names.
pub trait NameMatcher {
    /// Whether a name is among those that match.
    ghost accepts: { Self → List ℕ → Bool };

    /// Whether a name matches.
    fn is_match(&self, name: &str) -> bool
        ensures { result ≡ accepts self.now name.now };
}
