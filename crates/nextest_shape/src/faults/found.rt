//! Faults that are found, and the paths that lead to them.
ghost use Rattle.std.specs.Prelude.{◌≡◌, ◌++◌, ◌∷◌, [], IfOk, OnOk, Option};
ghost use Rattle.nextest_tree.specs.Schema.{FaultCause, at};
ghost use Rattle.nextest_shape.specs.Faults.Found.{Adds, IsCause, Sees, cause_view, path_text};

use nextest_places::Step;
use nextest_tree::ElementCause;
use std::alloc::{AllocError, Global};

/// A fault of an element.
#[derive(Drop)]
pub struct FoundFault<'t> {
    /// The steps that lead to it.
    pub path: Vec<Step<'t>>,
    /// What is wrong there.
    pub cause: ElementCause,
}

/// A path with one more step.
pub(crate) fn longer<'t>(
    alloc: Global,
    path: &[Step<'t>],
    step: Step<'t>,
) -> Result<Vec<Step<'t>>, AllocError>
    ensures { IfOk result (λ longer. longer.items ≡ path.now ++ step.entry ∷ []) }
{
    let mut longer = Vec::from_slice(alloc, path)?;
    longer.push(step)?;
    Ok(longer)
}

/// Adds the fault of a cause at a path.
fn add_one<'t>(
    alloc: Global,
    path: &[Step<'t>],
    cause: ElementCause,
    found: &mut Vec<FoundFault<'t>>,
) -> Result<(), AllocError>
    ensures { (spec : Option FaultCause) → Sees (cause_view cause) spec
        → OnOk result (Adds found.old.items found.new.items (at (path_text path.now) spec)) }
{
    let path = Vec::from_slice(alloc, path)?;
    found.push(FoundFault { path, cause })?;
    Ok(())
}

/// Adds the fault of a cause at a path, if there is a cause.
pub(crate) fn add_at<'t>(
    alloc: Global,
    path: &[Step<'t>],
    cause: Option<ElementCause>,
    found: &mut Vec<FoundFault<'t>>,
) -> Result<(), AllocError>
    ensures { (spec : Option FaultCause) → IsCause cause spec
        → OnOk result (Adds found.old.items found.new.items (at (path_text path.now) spec)) }
{
    match cause {
        Some(cause) => add_one(alloc, path, cause, found),
        None => Ok(()),
    }
}
