//! What a test uses of the scripts of a profile.
ghost use Rattle.std.specs.Prelude.{◌≡◌, ◌++◌, IfOk, map};
ghost use Rattle.nextest_scripts.specs.ScriptId.{script_text};
ghost use Rattle.nextest_tree.specs.Schema.{is_one_of};

use nextest_scripts::ScriptId;
use std::alloc::AllocError;

/// What a test uses of the scripts of a profile.
#[derive(Drop)]
pub struct ScriptUse<'c> {
    /// The id of the wrapper of its run, if it has one.
    pub run_wrapper: Option<&'c ScriptId>,
    /// The ids of the setup scripts that it enables, once for each rule that names them.
    pub setup: Vec<&'c ScriptId>,
}

/// Adds the ids of scripts that a rule names.
pub fn add_script_ids<'c>(
    ids: &mut Vec<&'c ScriptId>,
    named: &'c [ScriptId],
) -> Result<(), AllocError>
    ensures { IfOk result (λ _. map (λ id. script_text id.now) ids.new.items
        ≡ map (λ id. script_text id.now) ids.old.items ++ map script_text named.now) }
{
    for id in named {
        ids.push(id)?;
    }
    Ok(())
}

/// Whether an id is one of these.
pub(crate) fn is_one_of(ids: &[&ScriptId], id: &ScriptId) -> bool
    ensures { result ≡ is_one_of (map (λ id. script_text id.now) ids.now) (script_text id.now) }
{
    for used in ids {
        if *used == id {
            return true;
        }
    }
    false
}
