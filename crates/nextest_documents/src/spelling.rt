//! Paths as users spell them.
ghost use Rattle.std.specs.Prelude.{◌≡◌, ◌↔◌, IfOk, IsTrue, string_bytes};
ghost use Rattle.nextest_documents.specs.Entries.{dotted, IsBelow, IsAsked};
ghost use Rattle.nextest_documents.specs.Layers.{keys_view};

use crate::section::front;
use std::alloc::{AllocError, Global};

/// The keys of a path with dots between them.
#[tactic(auto, using(crate::proofs::JoinedKeys::joined_keys))]
pub fn key_text(alloc: Global, path: &[&str]) -> Result<String, AllocError>
    ensures { IfOk result (λ text. string_bytes text ≡ dotted (keys_view path.now)) }
{
    path.join(alloc, ".")
}

/// Whether the keys of a path up to one of them spell a key that is requested.
fn is_below(alloc: Global, path: &[&str], key: &str) -> Result<bool, AllocError>
    ensures { IfOk result (λ is_below. IsTrue is_below
        ↔ IsBelow (keys_view path.now) key.now) }
{
    for last in 0..path.len() {
        let text = key_text(alloc, front(path, last + 1))?;
        if text.as_str() == key {
            return Ok(true);
        }
    }
    Ok(false)
}

/// Whether keys select a path: there are none, or it is below one of them.
pub(crate) fn is_asked(alloc: Global, keys: &[&str], path: &[&str]) -> Result<bool, AllocError>
    ensures { IfOk result (λ is_asked. IsTrue is_asked
        ↔ IsAsked (keys_view keys.now) (keys_view path.now)) }
{
    for key in keys {
        if is_below(alloc, path, *key)? {
            return Ok(true);
        }
    }
    Ok(keys.is_empty())
}
