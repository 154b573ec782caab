//! Several rising lists of rules in one table: each rule once, with the lists that it is in.
ghost use Rattle.std.specs.Prelude.{◌≡◌, ◌+◌, ◌<◌, ◌^◌, Bool, ℕ, map, length, slice_get, Some, IfOk};
ghost use Rattle.rule_lists.specs.Lists.{IsListOf};
ghost use Rattle.rule_lists.specs.Rows.{list_at, lists_of, rows_of};

use std::alloc::{AllocError, Global};

/// A rule that is in lists. There are those of each place, `P`, and a `K` names one of them.
pub trait Listed<P, K> {
    /// Whether a rule is in a list of a place.
    ghost listed: { P → K → Self → Bool };

    /// Whether the rule is in a list of a place.
    fn is_listed(&self, place: &P, list: &K) -> bool
        ensures { result ≡ listed place.now list.now self.now };
}

/// A rule that is in some list.
#[derive(Clone, Copy)]
pub struct Row {
    /// The rule's number.
    pub number: usize,
    /// The lists that it is in, a bit for each.
    pub lists: u32,
    /// The lists that it or a rule after it is in.
    pub later: u32,
}

/// The lists that a rule is in, a bit for each.
fn lists_with<P, K, R: Listed<P, K>>(rule: &R, place: &P, lists: &[K]) -> u32
    requires { length lists.now < 32 }
    ensures { result ≡ lists_of (map (λ list. R.listed place.now list) lists.now) rule.now }
{
    let mut bits = 0;
    for k in (0..lists.len()).rev() {
        bits = bits * 2 + u32::from(rule.is_listed(place, &lists[k]));
    }
    bits
}

/// The rules that are in some of fewer than 32 lists of a place, in order, numbered on from the
/// first number. So each list is there, whole and rising: that of place k is what bit k marks.
pub fn build_rows<P, K, R: Listed<P, K>>(
    alloc: Global,
    rules: &[R],
    first: usize,
    place: &P,
    lists: &[K],
) -> Result<Vec<Row>, AllocError>
    requires fits { first + length rules.now < 2 ^ 64 }
    requires few { length lists.now < 32 }
    ensures rows { IfOk result (λ rows. rows.items
        ≡ rows_of (map (λ list. R.listed place.now list) lists.now) first rules.now) }
    ensures lists { IfOk result (λ rows. (k : ℕ) (list : K) → slice_get lists.now k ≡ Some list
        → IsListOf (R.listed place.now list) first rules.now (list_at k rows.items)) }
{
    let mut rows = Vec::new(alloc);
    let mut later = 0;
    for k in (0..rules.len()).rev() {
        let lists = lists_with(&rules[k], place, lists);
        later |= lists;
        if lists != 0 {
            rows.push(Row {
                number: first + k,
                lists,
                later,
            })?;
        }
    }
    rows.reverse();
    Ok(rows)
}
