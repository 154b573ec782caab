//! The warnings of loads, each of which is reported once.
ghost use Rattle.std.specs.Prelude.{◌≡◌, IfOk};
ghost use Rattle.rinqebo_checks.specs.Rounds.{AreSome};

use rinqebo_faults::LeftOut;
use rinqebo_report::{Code, Finding};
use std::alloc::{AllocError, Global};
use std::collections::BTreeSet;

/// The text by which a warning is found again.
fn warning_mark(alloc: Global, warning: &Finding) -> Result<String, AllocError> {
    let code = warning.code.as_str();
    let path = match &warning.path {
        Some(path) => path.as_str(),
        None => "",
    };
    match warning.place {
        Some(place) => {
            let source = place.source;
            format!(in alloc; "{source} {code} {path}")
        }
        None => format!(in alloc; "{code} {path}"),
    }
}

/// Whether a warning only follows from what is left out: a rule lacks the script that it names.
fn follows(left_out: &LeftOut, warning: &Finding) -> bool {
    match &warning.path {
        Some(path) => {
            warning.code.as_str() == Code::EmptyScriptRule.word()
                && left_out.rules.has(path.as_str())
        }
        None => false,
    }
}

/// Whether a warning is new: it was not reported before, and does not follow from what is left out.
fn is_new(
    alloc: Global,
    left_out: &LeftOut,
    warned: &mut BTreeSet<String>,
    warning: &Finding,
) -> Result<bool, AllocError> {
    if follows(left_out, warning) {
        return Ok(false);
    }
    let mark = warning_mark(alloc, warning)?;
    Ok(warned.insert(mark)?)
}

/// The warnings that are new.
pub fn new_ones(
    alloc: Global,
    left_out: &LeftOut,
    warned: &mut BTreeSet<String>,
    warnings: Vec<Finding>,
) -> Result<Vec<Finding>, AllocError>
    ensures { IfOk result (λ chosen. AreSome warnings.items chosen.items) }
{
    let mut chosen = Vec::new(alloc);
    for warning in warnings {
        if !is_new(alloc, left_out, warned, &warning)? {
            continue;
        }
        chosen.push(warning)?;
    }
    Ok(chosen)
}

/// Notes that warnings are reported, and returns them.
pub fn noted(
    alloc: Global,
    warned: &mut BTreeSet<String>,
    warnings: Vec<Finding>,
) -> Result<Vec<Finding>, AllocError>
    ensures { IfOk result (λ noted. noted ≡ warnings) }
{
    for warning in &warnings {
        warned.insert(warning_mark(alloc, warning)?)?;
    }
    Ok(warnings)
}
