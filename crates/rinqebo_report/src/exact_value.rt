//! A value of JSON whose text reads back.
ghost use Rattle.std.specs.Prelude.{◌≡◌, ◌≤◌, false, Some, IfOk, string_bytes};
ghost use Rattle.serde_json.specs.Data.{depth};
ghost use Rattle.serde_json.specs.Read.{read};
ghost use Rattle.serde_json.specs.View.{view};
ghost use Rattle.serde_json.specs.Written.{compact_text, has_float};

use serde_json::Value;
use std::alloc::{AllocError, Global};

/// A value of JSON that nests little and has no float, so that its text reads back.
#[derive(Drop)]
pub struct ExactValue {
    /// The value.
    pub value: Value,
    pub ghost nests: { depth (view value) ≤ 8 },
    pub ghost whole: { has_float (view value) ≡ false },
}

impl ExactValue {
    /// The value as a text without spaces, which reads back.
    pub fn text(&self, alloc: Global) -> Result<String, AllocError>
        ensures text { IfOk result (λ text. string_bytes text
            ≡ compact_text (view self.now.value)) }
        ensures reads_back { IfOk result (λ text. read (string_bytes text)
            ≡ Some (view self.now.value)) }
    {
        let text = self.value.to_string(alloc)?;
        Ok(text)
    }
}
