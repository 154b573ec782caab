//! The language of filters.
//!
//! The library never looks into an expression. It speaks of what the text of a rule means to the
//! engine that reads it.
ghost use Rattle.std.specs.Prelude.{◌≡◌, ◌++◌, ◌∷◌, [], List, ℕ, Bool, true, Option, Some, Result, Ok, Err, IfOk, IfErr, IsSome, map, string_bytes};
ghost use Rattle.nextest_engines.specs.Engines.{Test, Binary, RefusalText, test_view, binary_view, IfFilterRefused, PointsInto};
ghost use Rattle.nextest_engines.specs.declared.queries.FiltersetKind.{FiltersetKind};
ghost use Rattle.nextest_engines.specs.declared.queries.FiltersetKind.TheVariants.{DefaultFilter};

use crate::queries::{BinaryQuery, EvalContext, FiltersetKind, TestQuery};
use crate::refusal::Refusal;
use std::alloc::{AllocError, Global};
use thiserror::Error;

/// Why a filter was not read.
#[derive(Debug, Drop, Error)]
pub enum FilterFault {
    /// The text is not a filter of its kind.
    #[error("{0}")]
    Refused(Refusal),
    /// A growth of memory was refused.
    #[error("out of memory")]
    Memory,
}

/// The rules that an engine has evaluated, by number and in order.
///
/// It has no functions, so a library that is generic in its engine can neither make, copy nor
/// change a tally: only an evaluation adds to it. An engine keeps the numbers in a
/// [`history::RuleHistory`], in a type of its own.
pub trait Tally {
    /// The numbers of the evaluated rules, the latest last.
    ghost numbers: { Self → List ℕ };
}

/// The language of filters.
pub trait Filters {
    /// A filter that was read.
    type Expr: Drop;
    /// What the evaluations are counted in.
    type Tally: Tally;

    /// What filters mean. Equal texts mean the same, wherever their expressions lie in memory.
    ghost Meaning: { Type 0 };

    /// What an expression means.
    ghost meaning: { Self.Expr → Meaning };

    /// What a text means that is read for a kind, or its refusal: the message, and the part of the
    /// text that is at fault, if the engine has one.
    ghost read: { Self → FiltersetKind → List ℕ → Result Meaning RefusalText };

    /// The meaning of the filter that matches everything.
    ghost match_all: { Meaning };

    /// Whether a filter matches a test. The second meaning is that of the default filter.
    ghost holds: { Meaning → Test → Meaning → Bool };

    /// Whether a filter matches a binary, or none where that depends on the test.
    ghost holds_binary: { Meaning → Binary → Meaning → Option Bool };

    /// The parts of a filter that only a test can decide, as they are written.
    ghost leaves: { Meaning → List (List ℕ) };

    /// Reads a filter.
    fn parse(
        &self,
        alloc: Global,
        text: &str,
        kind: FiltersetKind,
    ) -> Result<Self::Expr, FilterFault>
        ensures ok { IfOk result (λ expr. read self.now kind text.now ≡ Ok (meaning expr)) }
        ensures err { IfErr result
            (λ fault. IfFilterRefused fault
            (λ refusal. read self.now kind text.now ≡ Err refusal)) }
        ensures span { IfErr result (λ fault. IfFilterRefused fault (PointsInto text.now)) };

    /// The filter that matches everything. It takes no memory.
    fn all(&self) -> Self::Expr
        ensures { meaning result ≡ match_all };

    /// Whether a filter matches a test. The rule of that number goes into the tally.
    fn matches_test(
        expr: &Self::Expr,
        rule: usize,
        query: &TestQuery<'_>,
        cx: &EvalContext<'_, Self::Expr>,
        tally: &mut Self::Tally,
    ) -> bool
        ensures answer { result ≡ holds (meaning expr.now) (test_view query.now)
            (meaning cx.now.default_filter.now) }
        ensures tally { Self.Tally.numbers tally.new ≡ Self.Tally.numbers tally.old ++ rule ∷ [] };

    /// Whether a filter matches a binary, or `None` where that depends on the test. The rule of
    /// that number goes into the tally.
    fn matches_binary(
        expr: &Self::Expr,
        rule: usize,
        query: &BinaryQuery<'_>,
        cx: &EvalContext<'_, Self::Expr>,
        tally: &mut Self::Tally,
    ) -> Option<bool>
        ensures answer { result ≡ holds_binary (meaning expr.now) (binary_view query.now)
            (meaning cx.now.default_filter.now) }
        ensures tally { Self.Tally.numbers tally.new ≡ Self.Tally.numbers tally.old ++ rule ∷ [] };

    /// The parts of a filter that only a test can decide, as they are written.
    fn runtime_only_leaves(alloc: Global, expr: &Self::Expr) -> Result<Vec<String>, AllocError>
        ensures { IfOk result (λ found. map string_bytes found.items ≡ leaves (meaning expr.now)) };

    /// What matches everything matches each test.
    ghost match_all_matches: { (test : Test) (default : Meaning)
        → holds match_all test default ≡ true };

    /// What matches everything matches each binary.
    ghost match_all_matches_binaries: { (binary : Binary) (default : Meaning)
        → holds_binary match_all binary default ≡ Some true };

    /// What a filter matches of a binary, it matches of each test of the binary.
    ghost binaries_speak: { (m : Meaning) (test : Test) (default : Meaning) (b : Bool)
        → holds_binary m test.binary default ≡ Some b → holds m test default ≡ b };

    /// A default filter with no part that only a test can decide has a known value for each binary.
    ghost default_filters_answer: { (self : Self) (text : List ℕ) (m : Meaning)
        → read self DefaultFilter text ≡ Ok m → leaves m ≡ []
        → (binary : Binary) (default : Meaning) → IsSome (holds_binary m binary default) };
}
