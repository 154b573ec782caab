//! The ids of scripts.
ghost use Rattle.std.specs.Prelude.{◌≡◌, ◌≢◌, IfOk, OnOk, IfErr, Err, Some, string_bytes};
ghost use Rattle.nextest_elements.specs.Identifier.{IsIdentifier, HasFlaw};
ghost use Rattle.nextest_elements.specs.IdentifierText.{identifier_text};
ghost use Rattle.nextest_elements.specs.declared.identifier.InvalidIdentifier.{InvalidIdentifier};
ghost use Rattle.nextest_scripts.specs.ScriptId.{script_text, unique_text};

use crate::script_type::ScriptType;
use nextest_elements::{ConfigIdentifier, InvalidIdentifier};
use std::alloc::{AllocError, Global};
use std::fmt;
use thiserror::Error;
use uuid::Uuid;

/// The id of a script. It is compared, ordered and hashed as its text.
#[derive(Debug, Drop, PartialEq, Eq, PartialOrd, Ord, Hash)]
pub struct ScriptId(pub ConfigIdentifier);

/// Why a text is not an id of a script.
#[derive(Clone, Copy, Debug, PartialEq, Eq, Error)]
#[error("invalid configuration script name: {0}")]
pub struct InvalidConfigScriptName(pub InvalidIdentifier);

/// A script by its id and its kind.
#[derive(Debug, Drop, PartialEq, Eq)]
pub struct ScriptInfo {
    /// The script's id.
    pub id: ScriptId,
    /// Its kind.
    pub script_type: ScriptType,
}

impl ScriptId {
    /// Makes the id of a text.
    pub fn new(alloc: Global, id: &str) -> Result<ScriptId, InvalidConfigScriptName>
        ensures text { IfOk result (λ script. script_text script ≡ id.now) }
        ensures ok { OnOk result (IsIdentifier id.now) }
        ensures refused { IfErr result
            (λ e. e.0 ≢ InvalidIdentifier.Memory → ¬ IsIdentifier id.now) }
        ensures memory { IfErr result (λ e. e.0 ≡ InvalidIdentifier.Memory → IsIdentifier id.now) }
        ensures flaw { IfErr result (λ e. e.0 ≢ InvalidIdentifier.Memory → HasFlaw id.now e.0) }
    {
        match ConfigIdentifier::new(alloc, id) {
            Ok(identifier) => Ok(ScriptId(identifier)),
            Err(error) => Err(InvalidConfigScriptName(error)),
        }
    }

    /// The identifier of the script.
    pub fn as_identifier(&self) -> &ConfigIdentifier
        ensures { identifier_text result.now ≡ script_text self.now }
    {
        &self.0
    }

    /// The id of the script within a run, as `6f30..:db@stress-3`: the stress index is part of it
    /// where one is given.
    pub fn unique_id(
        &self,
        alloc: Global,
        run_id: Uuid,
        stress_index: Option<u32>,
    ) -> Result<String, AllocError>
        ensures { IfOk result (λ id. string_bytes id
            ≡ unique_text run_id (script_text self.now) stress_index) }
    {
        let id = format!(in alloc; "{run_id}:{self}")?;
        match stress_index {
            Some(index) => format!(in alloc; "{id}@stress-{index}"),
            None => Ok(id),
        }
    }
}

impl Clone for ScriptId {
    ghost is_clone = { λ id copy. copy ≡ id };

    fn clone(&self) -> Result<Self, AllocError> {
        Ok(ScriptId(self.0.clone()?))
    }
}

impl fmt::Display for ScriptId {
    ghost output = { λ id. Some (script_text id) };

    fn fmt<W: fmt::Write>(&self, f: &mut fmt::Formatter<W>) -> fmt::Result {
        f.write_str(self.0.as_str())
    }
}
