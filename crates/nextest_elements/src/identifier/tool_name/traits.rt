//! Names of tools are cloned and printed as their texts.
ghost use Rattle.std.specs.Prelude.{◌≡◌, Some};
ghost use Rattle.nextest_elements.specs.IdentifierText.{tool_name_text};

use super::ToolName;
use std::alloc::AllocError;
use std::fmt;

impl Clone for ToolName {
    ghost is_clone = { λ name copy. copy ≡ name };

    fn clone(&self) -> Result<Self, AllocError> {
        Ok(ToolName {
            text: self.text.clone()?,
        })
    }
}

impl fmt::Display for ToolName {
    ghost output = { λ name. Some (tool_name_text name) };

    fn fmt<W: fmt::Write>(&self, f: &mut fmt::Formatter<W>) -> fmt::Result {
        f.write_str(self.as_str())
    }
}
