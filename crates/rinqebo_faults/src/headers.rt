//! The headers of tables, as TOML writes them.
ghost use Rattle.std.specs.Prelude.{◌≡◌, IfOk, filter_map, map, string_bytes};
ghost use Rattle.rinqebo_faults.specs.Headers.{header_key, header_text, is_bare, is_bare_key, is_special};
ghost use Rattle.std.specs.List.{list_all, list_any};
ghost use Rattle.std.specs.Str.{chars};
ghost use Rattle.rinqebo_faults.specs.Shapes.{key_of};

use crate::shapes::key_of;
use nextest_places::Step;
use std::alloc::{AllocError, Global};

/// Whether a character is one of keys without quotes.
fn is_bare(c: char) -> bool
    ensures { result ≡ is_bare c }
{
    c.is_ascii_alphanumeric() || c == '-' || c == '_'
}

/// Whether a character needs single quotes around it.
fn is_special(c: char) -> bool
    ensures { result ≡ is_special c }
{
    c == '"' || c == '\\'
}

/// Whether all characters of a key are those of keys without quotes.
fn are_bare(key: &str) -> bool
    ensures { result ≡ list_all is_bare (chars key.now) }
{
    key.chars().all(|c| is_bare(c))
}

/// Whether a key is written without quotes.
#[tactic(auto, unfolding(crate::specs::Headers::is_bare_key))]
fn is_bare_key(key: &str) -> bool
    ensures { result ≡ is_bare_key key.now }
{
    !key.is_empty() && are_bare(key)
}

/// Whether a key needs single quotes, if it needs some.
fn has_special(key: &str) -> bool
    ensures { result ≡ list_any is_special (chars key.now) }
{
    key.chars().any(|c| is_special(c))
}

/// A key as a header has it: in quotes, where it needs some.
#[tactic(auto, unfolding(crate::specs::Headers::header_key))]
fn key_text(alloc: Global, key: &str) -> Result<String, AllocError>
    ensures { IfOk result (λ text. string_bytes text ≡ header_key key.now) }
{
    if is_bare_key(key) {
        return String::from_str(alloc, key);
    }
    if has_special(key) {
        return format!(in alloc; "'{key}'");
    }
    format!(in alloc; "\"{key}\"")
}

/// The keys of a path.
fn keys_of<'p>(alloc: Global, path: &[Step<'p>]) -> Result<Vec<&'p str>, AllocError>
    ensures { IfOk result (λ keys. map (λ key. key.now) keys.items ≡ filter_map key_of path.now) }
{
    let mut keys = Vec::new(alloc);
    for step in path {
        if let Some(key) = key_of(*step) {
            keys.push(key)?;
        }
    }
    Ok(keys)
}

/// The keys of a path as a header has them. The items of arrays have the header of their array.
#[tactic(auto, unfolding(crate::specs::Headers::header_of))]
pub fn header_text(alloc: Global, path: &[Step<'_>]) -> Result<String, AllocError>
    ensures { IfOk result (λ text. string_bytes text ≡ header_text path.now) }
{
    let keys = keys_of(alloc, path)?;
    let Some((first, rest)) = keys.split_first() else {
        return Ok(String::new(alloc));
    };
    let mut text = key_text(alloc, *first)?;
    for key in rest {
        text.push('.')?;
        let key = key_text(alloc, *key)?;
        text.push_str(key.as_str())?;
    }
    Ok(text)
}
