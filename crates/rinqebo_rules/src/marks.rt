//! Marks of rules by their numbers, and what is known of rules by theirs.
ghost use Rattle.std.specs.Prelude.{◌≡◌, IfOk, false, replicate, slice_get, slice_set, unwrap_or};
ghost use Rattle.rinqebo_rules.specs.BinaryRules.{known_at};

use std::alloc::{AllocError, Global};

/// So many rules, of which none holds for a test so far.
pub(crate) fn none_of(alloc: Global, count: usize) -> Result<Vec<bool>, AllocError>
    ensures { IfOk result (λ used. used.items ≡ replicate count false) }
{
    Vec::from_elem(alloc, false, count)
}

/// Whether a rule of a number is marked.
pub(crate) fn is_marked(used: &[bool], number: usize) -> bool
    ensures { result ≡ unwrap_or (slice_get used.now number) false }
{
    used.get(number).copied().unwrap_or(false)
}

/// Sets the mark of a number.
pub(crate) fn set_mark(marks: &mut [bool], number: usize, mark: bool)
    ensures { marks.new ≡ slice_set marks.old number mark }
{
    if number < marks.len() {
        marks[number] = mark;
    }
}

/// What is known of the rule of a number: whether it holds for a test.
pub(crate) fn known_at(known: &[Option<bool>], number: usize) -> Option<bool>
    ensures { result ≡ known_at known.now number }
{
    known.get(number).copied().flatten()
}
