//! Paths as texts.
ghost use Rattle.std.specs.Prelude.{◌≡◌, IfOk, string_bytes};
ghost use Rattle.nextest_scripts.specs.Paths.{is_absolute, is_open_path, joined_path};

use std::alloc::{AllocError, Global};

/// Joins two paths: a second one that begins with `/` replaces the first. Else a `/` is put between
/// them, unless the first is empty or ends with one. Nothing is normalized.
pub fn join_paths(alloc: Global, first: &str, second: &str) -> Result<String, AllocError>
    ensures { IfOk result (λ path. string_bytes path ≡ joined_path first.now second.now) }
{
    if is_absolute(second) {
        return String::from_str(alloc, second);
    }
    if is_open_path(first) {
        return format!(in alloc; "{first}{second}");
    }
    format!(in alloc; "{first}/{second}")
}

fn is_absolute(path: &str) -> bool
    ensures { result ≡ is_absolute path.now }
{
    path.starts_with('/')
}

fn is_open_path(path: &str) -> bool
    ensures { result ≡ is_open_path path.now }
{
    path.is_empty() || path.ends_with('/')
}
