//! Identifiers are cloned and printed as their texts.
ghost use Rattle.std.specs.Prelude.{◌≡◌, Some};
ghost use Rattle.nextest_elements.specs.IdentifierText.{identifier_text};

use super::ConfigIdentifier;
use std::alloc::AllocError;
use std::fmt;

impl Clone for ConfigIdentifier {
    ghost is_clone = { λ identifier copy. copy ≡ identifier };

    fn clone(&self) -> Result<Self, AllocError> {
        Ok(ConfigIdentifier {
            text: self.text.clone()?,
        })
    }
}

impl fmt::Display for ConfigIdentifier {
    ghost output = { λ identifier. Some (identifier_text identifier) };

    fn fmt<W: fmt::Write>(&self, f: &mut fmt::Formatter<W>) -> fmt::Result {
        f.write_str(self.as_str())
    }
}
