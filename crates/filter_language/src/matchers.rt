//! What the language requires of an engine of patterns.
ghost use Rattle.std.specs.Prelude.{◌≡◌, List, ℕ, Bool, Result, IfOk};
ghost use Rattle.std.specs.Result.{result_map_both};

use crate::words::{Field, Sign};
use std::alloc::{AllocError, Global};

/// Why a pattern is not compiled.
#[derive(Clone, Copy, Debug, PartialEq, Eq)]
pub enum PatternFault {
    /// It is malformed.
    Malformed,
    /// It is too large.
    TooLarge,
}

/// An engine of patterns.
pub trait Matchers {
    ghost use Rattle.filter_language.specs.declared.matchers.PatternFault.{PatternFault};
    ghost use Rattle.filter_language.specs.declared.words.Field.{Field};
    ghost use Rattle.filter_language.specs.declared.words.Sign.{Sign};

    /// A pattern that was compiled.
    type Matcher: Drop;

    /// What patterns mean. Equal patterns mean the same, wherever they lie in memory.
    ghost Meaning: { Type 0 };

    /// What a compiled pattern means.
    ghost meaning: { Self.Matcher → Meaning };

    /// Whether a name is among those that match.
    ghost accepts: { Meaning → List ℕ → Bool };

    /// What a text means behind a sign in a predicate about a field, or why it has no meaning.
    ghost compiled: { Self → Field → Sign → List ℕ → Result Meaning PatternFault };

    /// Whether the package graph is known.
    ghost knows_packages: { Self → Bool };

    /// Compiles a pattern, or says why it is not compiled.
    fn compile(
        &self,
        alloc: Global,
        field: Field,
        sign: Sign,
        text: &str,
    ) -> Result<Result<Self::Matcher, PatternFault>, AllocError>
        ensures { IfOk result (λ found. result_map_both meaning (λ fault. fault) found
            ≡ compiled self.now field sign text.now) };

    /// Whether a name matches.
    fn is_match(matcher: &Self::Matcher, name: &str) -> bool
        ensures { result ≡ accepts (meaning matcher.now) name.now };

    /// Whether the package graph is known.
    fn has_package_graph(&self) -> bool
        ensures { result ≡ knows_packages self.now };
}
