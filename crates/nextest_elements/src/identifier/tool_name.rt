//! The names of tools.
ghost use Rattle.std.specs.Prelude.{◌≡◌, ◌↔◌, ◌≢◌, IsTrue, IsFalse, IfOk, OnOk, IfErr};
ghost use Rattle.nextest_elements.specs.Identifier.{IsPart, HasPartFlaw, is_part};

use super::name_text::NameText;
use super::{InvalidIdentifier, check_part};
use std::alloc::Global;
use std::marker::Model;

mod traits;

/// The name of a tool, as `my-tool`.
#[derive(Debug, Drop, PartialEq, Eq, PartialOrd, Ord, Hash)]
pub struct ToolName {
    text: NameText,
}

impl Model for ToolName {
    ghost use Rattle.std.specs.Prelude.{ℕ, List};
    ghost use Rattle.nextest_elements.specs.Identifier.{IsPart};

    ghost Value = { List ℕ };

    ghost view = { λ name. name.text };

    ghost invariant = { λ name. IsPart name.text };

    ghost inverse = { λ text. record { text = text } };
}

impl ToolName {
    ghost use Rattle.nextest_elements.specs.IdentifierText.{tool_name_text};

    /// Makes a tool's name of a text.
    ///
    /// A text with several flaws is refused for one of them.
    #[tactic(auto, using(crate::proofs::IdentifierParts::is_part_law))]
    pub fn new(alloc: Global, text: &str) -> Result<Self, InvalidIdentifier>
        ensures text { IfOk result (λ name. tool_name_text name ≡ text.now) }
        ensures ok { OnOk result (IsPart text.now) }
        ensures refused { IfErr result (λ e. e ≢ InvalidIdentifier.Memory → ¬ IsPart text.now) }
        ensures refused_by_test { IfErr result
            (λ e. e ≢ InvalidIdentifier.Memory → IsFalse (is_part text.now)) }
        ensures memory { result ≡ Err InvalidIdentifier.Memory → IsPart text.now }
        ensures flaw { IfErr result (λ e. e ≢ InvalidIdentifier.Memory → HasPartFlaw text.now e) }
        ensures test { IsTrue (is_part text.now) ↔ IsPart text.now }
    {
        check_part(text)?;
        let text = NameText::new(alloc, text)?;
        Ok(ToolName { text })
    }

    /// The text of the name.
    pub fn as_str(&self) -> &str
        ensures text { result.now ≡ tool_name_text self.now }
        ensures valid { IsPart result.now }
    {
        self.text.as_str()
    }
}
