//! The readers of strings and booleans, and of what is known and never looked into.
ghost use Rattle.std.specs.Prelude.{◌≡◌, Ok, List, Option, ℕ, None};
ghost use Rattle.nextest_tree.specs.Leaf.{Spells, IsText, a_text, bool_at, a_bool};
ghost use Rattle.nextest_tree.specs.Schema.{any, FaultCause};

use crate::element::{Element, Name};
use crate::fault::{ElementCause, ElementFault};
use crate::tree::Tree;
use crate::walk::Walk;
use std::alloc::Global;

#[tactic(auto, unfolding(crate::specs::Reads::reading, crate::specs::Reads::walk_view, crate::specs::Leaf::a_text))]
impl Element for String {
    ghost schema = { a_text };

    ghost is_value = { IsText };

    fn read(alloc: Global, tree: &Tree, walk: &mut Walk) -> Result<String, ElementFault> {
        match tree {
            Tree::Text(text) => match text.clone() {
                Ok(text) => Ok(text),
                Err(_) => Err(ElementFault::memory(alloc)),
            },
            _ => Err(walk.fault(alloc, ElementCause::WrongKind)),
        }
    }
}

#[tactic(auto, unfolding(crate::specs::Reads::walk_view))]
impl Name for String {
    ghost use Rattle.std.proofs.Common.{rules};
    ghost use Rattle.std.specs.Prelude.{string_bytes};
    ghost use Rattle.nextest_tree.specs.Leaf.{any_key};

    ghost test = { any_key };

    ghost text = { string_bytes };

    fn read_name(alloc: Global, key: &str, _walk: &Walk) -> Result<Self, ElementFault> {
        match String::from_str(alloc, key) {
            Ok(text) => Ok(text),
            Err(_) => Err(ElementFault::memory(alloc)),
        }
    }

    ghost ordered = { λ a b. Prim.search rules };
}

#[tactic(auto, unfolding(crate::specs::Reads::reading, crate::specs::Reads::walk_view, crate::specs::Leaf::a_bool))]
impl Element for bool {
    ghost schema = { a_bool };

    ghost is_value = { Spells bool_at };

    fn read(alloc: Global, tree: &Tree, walk: &mut Walk) -> Result<bool, ElementFault> {
        match tree {
            Tree::Bool(flag) => Ok(*flag),
            _ => Err(walk.fault(alloc, ElementCause::WrongKind)),
        }
    }
}

/// What nextest knows and Rinqebo never looks into, as the contents of `archive`.
#[derive(Clone, Copy, Debug, PartialEq, Eq)]
pub struct Ignored;

#[tactic(auto, using(crate::proofs::Reading::reading_any))]
impl Element for Ignored {
    ghost schema = { any };

    ghost is_value = { λ _ _. Unit {0} };

    fn read(_alloc: Global, _tree: &Tree, _walk: &mut Walk) -> Result<Self, ElementFault> {
        Ok(Ignored)
    }
}
