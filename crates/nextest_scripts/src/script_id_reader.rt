//! The readers of the ids of scripts, as values and as keys.
ghost use Rattle.std.specs.Prelude.{List, Option, ℕ};
ghost use Rattle.nextest_elements.specs.IdentifierReader.{an_identifier, identifier_cause};
ghost use Rattle.nextest_tree.specs.Schema.{FaultCause};
ghost use Rattle.nextest_scripts.specs.ScriptId.{script_text};
ghost use Rattle.nextest_scripts.specs.ScriptIdReader.{IsScriptId};

use crate::script_id::ScriptId;
use nextest_elements::ConfigIdentifier;
use nextest_tree::{Element, ElementFault, Name, Tree, Walk};
use std::alloc::Global;

impl Element for ScriptId {
    ghost schema = { an_identifier };

    ghost is_value = { IsScriptId };

    fn read(alloc: Global, tree: &Tree, walk: &mut Walk) -> Result<Self, ElementFault> {
        let identifier = ConfigIdentifier::read(alloc, tree, walk)?;
        Ok(ScriptId(identifier))
    }
}

impl Name for ScriptId {
    ghost use Rattle.std.proofs.Common.{rules};

    ghost test = { identifier_cause };

    ghost text = { script_text };

    fn read_name(alloc: Global, key: &str, walk: &Walk) -> Result<Self, ElementFault> {
        let identifier = ConfigIdentifier::read_name(alloc, key, walk)?;
        Ok(ScriptId(identifier))
    }

    ghost ordered = { λ a b. Prim.search rules };
}
