//! A walk over the rows of rules: for each list the first of its rules that is met.
ghost use Rattle.std.specs.Prelude.{◌≡◌, ◌++◌, ◌∷◌, [], ◌<◌, Bool, List, ℕ, map, length, if◌then◌else◌, None};
ghost use Rattle.rule_lists.specs.Lists.{HaveAnswers, firsts, asked_from};
ghost use Rattle.rule_lists.specs.Rows.{rows_of, settled};

use crate::rows::Row;

/// A query over rules.
pub trait Query<R> {
    /// What notes the rules that are evaluated.
    type Tally;

    /// The numbers of the rules that were evaluated, in order.
    ghost numbers: { Self.Tally → List ℕ };

    /// Which rules are in the lists that the query reads.
    ghost tests: { Self → List (R → Bool) };

    /// Whether a rule has a filter.
    ghost asks: { Self → R → Bool };

    /// Whether the filter of a rule holds, if it has one.
    ghost met: { Self → R → Bool };

    /// Whether the filter of a rule has a known value for the query.
    ghost has_answer: { Self → R → Type 0 };

    /// Whether the filter of a rule holds, if it has one. It is evaluated once.
    fn is_met(&self, rule: &R, number: usize, tally: &mut Self::Tally) -> bool
        requires { has_answer self.now rule.now }
        ensures answer { result ≡ met self.now rule.now }
        ensures tally { numbers tally.new
            ≡ numbers tally.old ++ (if asks self.now rule.now then number ∷ [] else []) };
}

/// A rule becomes the one that was found in some lists, a bit for each.
pub(crate) fn settle<R: Copy>(found: &mut [Option<R>], mut lists: u32, rule: R)
    ensures { found.new ≡ settled rule lists found.old }
{
    for k in 0..found.len() {
        if lists % 2 == 1 {
            found[k] = Some(rule);
        }
        lists /= 2;
    }
}

/// Finds for each of fewer than 32 lists the first of its rules that is met, and takes no memory.
/// Of the rules that are in a list in which none was found yet the least is the next one: its
/// filter is evaluated once. Where no such list has a rule that is left, the walk ends.
pub fn walk_rows<R: Copy, Q: Query<R>>(
    found: &mut [Option<R>],
    rows: &[Row],
    rules: &[R],
    first: usize,
    query: &Q,
    tally: &mut Q::Tally,
)
    requires few { length (Q.tests query.now) < 32 }
    requires none { found.old ≡ map (λ test. None) (Q.tests query.now) }
    requires rows { rows.now ≡ rows_of (Q.tests query.now) first rules.now }
    requires answers { HaveAnswers (Q.tests query.now) (Q.has_answer query.now) rules.now }
    ensures found { found.new ≡ firsts (Q.met query.now) (Q.tests query.now) rules.now }
    ensures tally { Q.numbers tally.new ≡ Q.numbers tally.old
        ++ asked_from (Q.asks query.now) (Q.met query.now) (Q.tests query.now) first [] rules.now }
{
    let mut open = (1u32 << found.len()) - 1;
    for row in rows {
        if open & row.later == 0 {
            break;
        }
        let wanted = open & row.lists;
        if wanted != 0 {
            let rule = rules[row.number - first];
            if query.is_met(&rule, row.number, tally) {
                settle(found, wanted, rule);
                open ^= wanted;
            }
        }
    }
}
