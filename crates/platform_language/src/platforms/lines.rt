// Lines of platforms.

ghost use Rattle.std.specs.Prelude.{◌≡◌, [], ◌∷◌, ◌++◌, map, IfOk, OnOk};
ghost use Rattle.platform_language.specs.Platforms.Platforms.{line_of, line_view};

use crate::platforms::CfgLine;
use std::alloc::{AllocError, Global};

impl CfgLine {
    /// A line of this key and this value, or of the key alone.
    pub fn new(alloc: Global, key: &str, value: Option<&str>) -> Result<CfgLine, AllocError>
        ensures { IfOk result (λ made. line_view made ≡ line_of key.now value.entry) }
    {
        let value = match value {
            Some(value) => Some(String::from_str(alloc, value)?),
            None => None,
        };
        Ok(CfgLine {
            key: String::from_str(alloc, key)?,
            value,
        })
    }
}

/// Adds a line of this key and this value, or of the key alone.
pub(crate) fn push_line(
    alloc: Global,
    lines: &mut Vec<CfgLine>,
    key: &str,
    value: Option<&str>,
) -> Result<(), AllocError>
    ensures { OnOk result (map line_view lines.new.items
        ≡ map line_view lines.old.items ++ (line_of key.now value.entry ∷ [])) }
{
    lines.push(CfgLine::new(alloc, key, value)?)?;
    Ok(())
}
