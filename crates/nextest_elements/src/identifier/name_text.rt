//! The text of a name. It is cloned, printed, compared and hashed as that text.
ghost use Rattle.std.specs.Prelude.{◌≡◌, Some, refl, bytes_eq, IfOk, IfErr};
ghost use Rattle.std.proofs.Common.{rules};
ghost use Rattle.std.specs.Ordering.{nat_cmp};
ghost use Rattle.std.specs.Hash as fed;
ghost use Rattle.std.specs.Cmp.{partial_equiv_from_equiv};
ghost use Rattle.std.specs.Cmp.Lexicographic.{slice_cmp, nat_list_eq_equiv, nat_list_cmp_total, texts_ties, texts_po};
ghost use Rattle.std.specs.Cmp.Rules.{hashing};
ghost use Rattle.nextest_elements.specs.NameText.{name_bytes};

use super::InvalidIdentifier;
use std::alloc::{AllocError, Global};
use std::cmp::Ordering;
use std::fmt;
use std::hash::{Hash, Hasher};
use std::marker::Model;

// The text of a name.
#[derive(Debug, Drop)]
pub(crate) struct NameText {
    text: String,
}

impl Model for NameText {
    ghost use Rattle.std.specs.Prelude.{ℕ, List, string_bytes};

    ghost Value = { List ℕ };

    ghost view = { λ name. string_bytes name.text };
}

impl NameText {
    // A copy of a text.
    pub(crate) fn new(alloc: Global, text: &str) -> Result<NameText, InvalidIdentifier>
        ensures text { IfOk result (λ name. name_bytes name ≡ text.now) }
        ensures memory { IfErr result (λ e. e ≡ InvalidIdentifier.Memory) }
    {
        match String::from_str(alloc, text) {
            Ok(text) => Ok(NameText { text }),
            Err(_) => Err(InvalidIdentifier::Memory),
        }
    }

    // The text.
    pub(crate) fn as_str(&self) -> &str
        ensures { result.now ≡ name_bytes self.now }
    {
        self.text.as_str()
    }
}

impl Clone for NameText {
    ghost is_clone = { λ name copy. copy ≡ name };

    fn clone(&self) -> Result<Self, AllocError> {
        Ok(NameText {
            text: self.text.clone()?,
        })
    }
}

impl fmt::Display for NameText {
    ghost output = { λ name. Some (name_bytes name) };

    fn fmt<W: fmt::Write>(&self, f: &mut fmt::Formatter<W>) -> fmt::Result {
        f.write_str(self.as_str())
    }
}

impl PartialEq for NameText {
    ghost eq = { λ a b. bytes_eq (name_bytes a) (name_bytes b) };

    ghost laws = { partial_equiv_from_equiv nat_list_eq_equiv };

    fn eq(&self, other: &Self) -> bool {
        self.as_str() == other.as_str()
    }
}

impl Eq for NameText {
    ghost laws = { nat_list_eq_equiv };
}

impl PartialOrd for NameText {
    ghost partial_cmp = { λ a b. Some (slice_cmp nat_cmp (name_bytes a) (name_bytes b)) };

    ghost laws = { texts_po };

    fn partial_cmp(&self, other: &Self) -> Option<Ordering> {
        Some(self.cmp(other))
    }
}

impl Ord for NameText {
    ghost cmp = { λ a b. slice_cmp nat_cmp (name_bytes a) (name_bytes b) };

    ghost total = { nat_list_cmp_total };

    ghost matches_partial_cmp = { λ a b. refl };

    ghost matches_eq = { texts_ties };

    fn cmp(&self, other: &Self) -> Ordering {
        self.as_str().cmp(other.as_str())
    }
}

impl Hash for NameText {
    ghost hash_input = { λ name. fed.str (name_bytes name) };

    ghost respects_eq = { Prim.search (hashing, rules) };

    fn hash<H: Hasher>(&self, state: &mut H) {
        self.as_str().hash(state);
    }
}
