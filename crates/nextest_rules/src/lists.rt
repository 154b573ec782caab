//! Lists that grow by what may be there.
ghost use Rattle.std.specs.Prelude.{◌≡◌, ◌++◌, OnOk, option_to_list};

use std::alloc::AllocError;

/// Adds an item, if there is one.
pub(crate) fn push_some<T: Drop>(list: &mut Vec<T>, item: Option<T>) -> Result<(), AllocError>
    ensures { OnOk result (list.new.items ≡ list.old.items ++ option_to_list item) }
{
    if let Some(item) = item {
        list.push(item)?;
    }
    Ok(())
}
