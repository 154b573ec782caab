//! A walk over the rows of rules of which some are known to be met, or not to be met.
ghost use Rattle.std.specs.Prelude.{◌≡◌, ◌++◌, ◌∷◌, [], ◌<◌, ◌&&◌, All, IfSome, List, ℕ, is_none, map, length, option_and_then, slice_get, if◌then◌else◌, None};
ghost use Rattle.rule_lists.specs.Lists.{AreKnown, IsOpen, firsts};
ghost use Rattle.rule_lists.specs.Rows.{rows_of};

use crate::rows::Row;
use crate::walk::{Query, settle};

/// What is known of the rule of a place: whether it is met.
fn known_at(known: &[Option<bool>], place: usize) -> Option<bool>
    ensures { result ≡ option_and_then (λ met. met) (slice_get known.now place) }
{
    known.get(place).copied().flatten()
}

/// Whether a rule is met. Its filter is evaluated where that is not known.
fn is_met_or_known<R, Q: Query<R>>(
    query: &Q,
    rule: &R,
    known: Option<bool>,
    number: usize,
    tally: &mut Q::Tally,
) -> bool
    requires { Q.has_answer query.now rule.now }
    ensures answer { IfSome known (λ b. Q.met query.now rule.now ≡ b)
        → result ≡ Q.met query.now rule.now }
    ensures tally { Q.numbers tally.new ≡ Q.numbers tally.old
        ++ (if is_none known && Q.asks query.now rule.now then number ∷ [] else []) }
{
    match known {
        Some(met) => met,
        None => query.is_met(rule, number, tally),
    }
}

/// Finds for each of fewer than 32 lists the first of its rules that is met, and takes no memory. Of
/// some rules it is known whether they are met, by their places among the rules: only the filters of
/// others are evaluated, each once at most.
pub fn walk_open_rows<R: Copy, Q: Query<R>>(
    found: &mut [Option<R>],
    rows: &[Row],
    rules: &[R],
    known: &[Option<bool>],
    first: usize,
    query: &Q,
    tally: &mut Q::Tally,
)
    requires few { length (Q.tests query.now) < 32 }
    requires none { found.old ≡ map (λ test. None) (Q.tests query.now) }
    requires rows { rows.now ≡ rows_of (Q.tests query.now) first rules.now }
    requires answers { (rule : R) → Q.has_answer query.now rule }
    ensures found { AreKnown (Q.tests query.now) (Q.met query.now) rules.now known.now
        → found.new ≡ firsts (Q.met query.now) (Q.tests query.now) rules.now }
    ensures tally { (added : List ℕ) × (Q.numbers tally.new ≡ Q.numbers tally.old ++ added)
        × All (IsOpen first known.now) added }
{
    let mut open = (1u32 << found.len()) - 1;
    for row in rows {
        if open & row.later == 0 {
            break;
        }
        let wanted = open & row.lists;
        if wanted != 0 {
            let place = row.number - first;
            let rule = rules[place];
            if is_met_or_known(query, &rule, known_at(known, place), row.number, tally) {
                settle(found, wanted, rule);
                open ^= wanted;
            }
        }
    }
}
