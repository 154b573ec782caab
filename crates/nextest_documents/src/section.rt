//! The sections of layers whose leaves are listed.
ghost use Rattle.std.specs.Prelude.{◌≡◌, ◌≤◌, ◌++◌, IfOk, length, take};
ghost use Rattle.nextest_documents.specs.Layers.{keys_view};
ghost use Rattle.nextest_documents.specs.Sections.{section_view, base_path, is_rules, is_beside, is_told, is_group, value_length, value_path};

use crate::grounds::path_in_profile;
use std::alloc::{AllocError, Global};

/// A section of a layer.
#[derive(Clone, Copy)]
pub enum Section<'k> {
    /// The table of a profile of a chain.
    Profile {
        /// The profiles of the chain that are nearer.
        nearer: &'k [&'k str],
        /// The name of the profile.
        name: &'k str,
    },
    /// The tables beside the profiles.
    Beside,
}

/// The first keys of a path, or the first names of a chain.
pub(crate) fn front<'p, 'k>(names: &'p [&'k str], count: usize) -> &'p [&'k str]
    requires { count ≤ length names.now }
    ensures { result.now ≡ take count names.now }
{
    &names[..count]
}

/// Whether a key of a profile is that of a list of rules.
fn is_rules(key: &str) -> bool
    ensures { result ≡ is_rules key.now }
{
    key == "overrides" || key == "scripts"
}

/// Whether a key is that of a table beside the profiles which is reported.
fn is_beside(key: &str) -> bool
    ensures { result ≡ is_beside key.now }
{
    key == "scripts" || key == "store" || key == "test-groups"
}

/// Whether a leaf of a section is listed.
pub(crate) fn is_told(section: Section<'_>, path: &[&str]) -> bool
    ensures { result ≡ is_told (section_view section.entry) (keys_view path.now) }
{
    let Some(key) = path.first() else {
        return false;
    };
    match section {
        Section::Profile { nearer, .. } => {
            !is_rules(*key) && (nearer.is_empty() || *key != "inherits")
        }
        Section::Beside => is_beside(*key),
    }
}

/// Whether a key of a profile is that of a table whose members are values by themselves.
fn is_group(key: &str) -> bool
    ensures { result ≡ is_group key.now }
{
    key == "junit" || key == "bench"
}

/// How many keys lead to the value that a leaf of a profile is of.
fn value_length(path: &[&str]) -> usize
    ensures { result ≡ value_length (keys_view path.now) }
{
    match path.first() {
        Some(key) if is_group(*key) => 2,
        Some(_) => 1,
        None => 0,
    }
}

/// The path of the value that a leaf of a profile is of.
pub(crate) fn value_path<'p, 'k>(path: &'p [&'k str]) -> &'p [&'k str]
    ensures { keys_view result.now ≡ value_path (keys_view path.now) }
{
    front(path, value_length(path).min(path.len()))
}

/// The path of what a section has at a path.
pub(crate) fn path_in_section<'k>(
    alloc: Global,
    section: Section<'k>,
    path: &[&'k str],
) -> Result<Vec<&'k str>, AllocError>
    ensures { IfOk result (λ whole. keys_view whole.items
        ≡ base_path (section_view section.entry) ++ keys_view path.now) }
{
    match section {
        Section::Profile { name, .. } => path_in_profile(alloc, name, path),
        Section::Beside => Vec::from_slice(alloc, path),
    }
}
