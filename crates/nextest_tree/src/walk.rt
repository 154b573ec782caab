//! Where a reader is, and what it has noted.
ghost use Rattle.std.specs.Prelude.{◌≡◌, IfOk, IfErr, OnOk, string_bytes, Some, None, Err, ◌∷◌, [], length, take};
ghost use Rattle.std.specs.String.Boundary.{IsSplitPoint};
ghost use Rattle.nextest_tree.specs.Schema.{Fault, below, bad_value, missing};

use crate::fault::{ElementCause, ElementFault};
use std::alloc::{AllocError, Global};
use std::collections::BTreeSet;

/// The walk of a reader over a tree: the path that it is at, and the unknown paths that it met.
///
/// Where a reader returns a value, `path` is as it was. After a refusal nothing is promised of a
/// walk.
#[derive(Debug, Drop)]
pub struct Walk {
    /// Keys and positions from the root on, joined by dots.
    pub path: String,
    /// The paths of the keys that no schema knows. They are reported and not refused.
    pub unknown: BTreeSet<String>,
}

// Goes down a path by one key.
fn push_key(path: &mut String, key: &str) -> Result<(), AllocError>
    ensures { OnOk result (string_bytes path.new ≡ below (string_bytes path.old) key.now) }
{
    if !path.is_empty() {
        path.push_str(".")?;
    }
    path.push_str(key)
}

// The path of what is at a key.
fn join_key(alloc: Global, path: &str, key: &str) -> Result<String, AllocError>
    ensures { IfOk result (λ text. string_bytes text ≡ below path.now key.now) }
{
    let mut text = String::from_str(alloc, path)?;
    push_key(&mut text, key)?;
    Ok(text)
}

#[tactic(auto, unfolding(crate::specs::Reads::fault_view, crate::specs::Reads::walk_view))]
impl Walk {
    ghost use Rattle.nextest_tree.specs.Reads.{start, walk_view, noting, inside, back_at, fault_at, fault_view, Fails};

    /// A walk at the root that has noted nothing.
    pub fn new(alloc: Global) -> Walk
        ensures { walk_view result ≡ start }
    {
        Walk {
            path: String::new(alloc),
            unknown: BTreeSet::new(alloc),
        }
    }

    /// The fault of this cause at the path, or a refusal of memory.
    pub fn fault(&self, alloc: Global, cause: ElementCause) -> ElementFault
        ensures { (f : Fault) → fault_view result ≡ Some f
            → fault_at (walk_view self.now).path cause ≡ Some f }
    {
        match String::from_str(alloc, self.path.as_str()) {
            Ok(path) => ElementFault { path, cause },
            Err(_) => ElementFault::memory(alloc),
        }
    }

    /// That the text or key at the path is refused, or a refusal of memory.
    pub fn bad_value(&self, alloc: Global, given: &str, expected: &'static str) -> ElementFault
        ensures { Fails result (Err (record {
          path = (walk_view self.now).path;
          cause = bad_value given.now expected.now;
        })) }
    {
        match String::from_str(alloc, given) {
            Ok(given) => self.fault(alloc, ElementCause::BadValue { given, expected }),
            Err(_) => ElementFault::memory(alloc),
        }
    }

    /// That the table at the path lacks a key, or a refusal of memory.
    pub fn missing(&self, alloc: Global, key: &str) -> ElementFault
        ensures { Fails result
            (Err (record { path = (walk_view self.now).path; cause = missing key.now })) }
    {
        match String::from_str(alloc, key) {
            Ok(key) => self.fault(alloc, ElementCause::Missing(key)),
            Err(_) => ElementFault::memory(alloc),
        }
    }

    /// Notes a key that no schema knows.
    pub fn note(&mut self, alloc: Global, key: &str) -> Result<(), ElementFault>
        ensures ok { OnOk result (walk_view self.new
            ≡ noting (below (walk_view self.old).path key.now ∷ []) (walk_view self.old)) }
        ensures err { IfErr result (λ e. fault_view e ≡ None) }
    {
        let Ok(path) = join_key(alloc, self.path.as_str(), key) else {
            return Err(ElementFault::memory(alloc));
        };
        let Ok(_) = self.unknown.insert(path) else {
            return Err(ElementFault::memory(alloc));
        };
        Ok(())
    }

    /// Goes to the value of a key, and returns how long the path was before.
    pub fn enter(&mut self, alloc: Global, key: &str) -> Result<usize, ElementFault>
        ensures ok { OnOk result (walk_view self.new ≡ inside key.now (walk_view self.old)) }
        ensures outer { IfOk result (λ outer. outer ≡ length (walk_view self.old).path) }
        ensures err { IfErr result (λ e. fault_view e ≡ None) }
    {
        let outer = self.path.len();
        match push_key(&mut self.path, key) {
            Ok(()) => Ok(outer),
            Err(_) => Err(ElementFault::memory(alloc)),
        }
    }

    /// Goes back to where the path was this long.
    pub fn leave(&mut self, outer: usize)
        requires { IsSplitPoint (walk_view self.old).path outer }
        ensures { let path = take outer (walk_view self.old).path in
            walk_view self.new ≡ back_at path (walk_view self.old) }
    {
        self.path.truncate(outer);
    }
}
