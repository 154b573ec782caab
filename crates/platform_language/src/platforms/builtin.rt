// Platforms of the table.

ghost use Rattle.std.specs.Prelude.{◌≡◌, ◌⊎◌, ◌↔◌, IfOk, IfErr, map, Some, None, Err, option_map};
ghost use Rattle.platform_language.specs.Platforms.Platforms.{platform_view};
ghost use Rattle.platform_language.specs.Platforms.Rows.{row_view, platform_of_row};
ghost use Rattle.platform_language.specs.Platforms.Targets.{row_of};
ghost use Rattle.platform_language.specs.Platforms.Table.{targets};

use crate::platforms::Platform;
use crate::platforms::fault::PlatformFault;
use crate::platforms::row::TargetRow;
use crate::platforms::table::targets;
use std::alloc::Global;

impl Platform {
    /// The platform of this triple in the table of [`targets`]. Its features are not given.
    ///
    /// # Errors
    ///
    /// [`PlatformFault::UnknownTriple`] where the table has no such triple. Nothing is guessed from
    /// the parts of its text.
    pub fn builtin(alloc: Global, triple: &str) -> Result<Platform, PlatformFault>
        ensures ok { IfOk result (λ made.
            option_map platform_of_row (row_of targets triple.now) ≡ Some (platform_view made)) }
        ensures unknown { (result ≡ Err PlatformFault.UnknownTriple)
            ↔ (row_of targets triple.now ≡ None) }
        ensures refused { IfErr result
            (λ fault. (fault ≡ PlatformFault.UnknownTriple) ⊎ (fault ≡ PlatformFault.Memory)) }
    {
        let Some(row) = row_of(targets(), triple) else {
            return Err(PlatformFault::UnknownTriple);
        };
        Ok(row.platform(alloc)?)
    }
}

// The first row of this triple.
fn row_of<'a>(rows: &'a [TargetRow<'static>], triple: &str) -> Option<&'a TargetRow<'static>>
    ensures { option_map (λ row. row_view row.now) result
        ≡ row_of (map row_view rows.now) triple.now }
{
    for row in rows {
        if row.triple == triple {
            return Some(row);
        }
    }
    None
}
