//! Paths of values in a list of tests.
ghost use Rattle.std.specs.Prelude.{◌≡◌, IfOk, string_bytes};
ghost use Rattle.filter_inputs.specs.Lists.Demands.{member_place, place_text};

use std::alloc::{AllocError, Global};

/// The path of a value in a list of tests.
#[derive(Clone, Copy)]
pub enum Place<'a> {
    /// A path below the platforms of the build.
    Platforms(&'a str),
    /// The suites.
    Suites,
    /// The suite with an id.
    Suite(&'a str),
    /// The value at a key of the suite with an id.
    Member(&'a str, &'a str),
}

/// Returns the path of the value at a key of the suite with an id.
fn member_place(alloc: Global, id: &str, key: &str) -> Result<String, AllocError>
    ensures { IfOk result (λ text. string_bytes text ≡ member_place id.now key.now) }
{
    let mut text = format!(in alloc; "rust-suites.{id}")?;
    text.push_str(".")?;
    text.push_str(key)?;
    Ok(text)
}

impl Place<'_> {
    /// Returns the keys of the path, with dots between them.
    pub fn text(self, alloc: Global) -> Result<String, AllocError>
        ensures { IfOk result (λ text. string_bytes text ≡ place_text self.entry) }
    {
        match self {
            Place::Platforms(keys) => format!(in alloc; "rust-build-meta.platforms.{keys}"),
            Place::Suites => String::from_str(alloc, "rust-suites"),
            Place::Suite(id) => format!(in alloc; "rust-suites.{id}"),
            Place::Member(id, key) => member_place(alloc, id, key),
        }
    }
}
