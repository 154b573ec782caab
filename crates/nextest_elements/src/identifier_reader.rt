//! The readers of identifiers, as values and as keys.
ghost use Rattle.std.specs.Prelude.{◌≡◌, IfOk, IfErr, OnOk, List, Option, ℕ, None};
ghost use Rattle.nextest_elements.specs.IdentifierText.{identifier_text};
ghost use Rattle.nextest_elements.specs.IdentifierReader.{identifier_cause, an_identifier, IsIdentifierAt};
ghost use Rattle.nextest_tree.specs.Schema.{FaultCause};
ghost use Rattle.nextest_tree.specs.Reads.{Fails, test_outcome, walk_view};

use crate::identifier::{ConfigIdentifier, InvalidIdentifier};
use nextest_tree::{Element, ElementCause, ElementFault, Name, Tree, Walk};
use std::alloc::Global;

/// The identifier of the text that is at the walk's path.
#[tactic(auto, unfolding(nextest_tree::specs::Reads::walk_view, crate::specs::IdentifierReader::identifier_expected))]
fn identifier_of(alloc: Global, text: &str, walk: &Walk) -> Result<ConfigIdentifier, ElementFault>
    ensures value { IfOk result (λ identifier. identifier_text identifier ≡ text.now) }
    ensures passed { OnOk result (identifier_cause text.now ≡ None) }
    ensures fault { IfErr result
        (λ e. Fails e (test_outcome (identifier_cause text.now) (walk_view walk.now))) }
{
    match ConfigIdentifier::new(alloc, text) {
        Ok(identifier) => Ok(identifier),
        Err(InvalidIdentifier::Memory) => Err(ElementFault::memory(alloc)),
        Err(_) => Err(walk.bad_value(alloc, text, "an identifier")),
    }
}

#[tactic(auto, unfolding(nextest_tree::specs::Reads::reading, nextest_tree::specs::Reads::walk_view, crate::specs::IdentifierReader::an_identifier))]
impl Element for ConfigIdentifier {
    ghost schema = { an_identifier };

    ghost is_value = { IsIdentifierAt };

    fn read(alloc: Global, tree: &Tree, walk: &mut Walk) -> Result<Self, ElementFault> {
        match tree {
            Tree::Text(text) => identifier_of(alloc, text.as_str(), walk),
            _ => Err(walk.fault(alloc, ElementCause::WrongKind)),
        }
    }
}

impl Name for ConfigIdentifier {
    ghost use Rattle.std.proofs.Common.{rules};

    ghost test = { identifier_cause };

    ghost text = { identifier_text };

    fn read_name(alloc: Global, key: &str, walk: &Walk) -> Result<Self, ElementFault> {
        identifier_of(alloc, key, walk)
    }

    ghost ordered = { λ a b. Prim.search rules };
}
