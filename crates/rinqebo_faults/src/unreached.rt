//! The checks that a source does not reach.
ghost use Rattle.std.specs.Prelude.{◌≡◌, ◌∷◌, [], IfOk, filter, map, string_bytes};
ghost use Rattle.rinqebo_faults.specs.Checks.{check_name, checks_after, is_after};

use crate::checks::{CHECKS, Check};
use rinqebo_report::Unreached;
use std::alloc::{AllocError, Global};

/// Whether a check comes after the last one that was reached.
fn is_after(check: Check, reached: Option<Check>) -> bool
    ensures { result ≡ is_after reached check }
{
    match reached {
        Some(reached) => check.place() > reached.place(),
        None => true,
    }
}

/// The names of those of some checks that come after the last one that was reached.
fn names_among(
    alloc: Global,
    checks: &[Check],
    reached: Option<Check>,
) -> Result<Vec<String>, AllocError>
    ensures { IfOk result (λ names. map string_bytes names.items
        ≡ map check_name (filter (is_after reached) checks.now)) }
{
    let mut names = Vec::new(alloc);
    for check in checks {
        if is_after(*check, reached) {
            names.push(String::from_str(alloc, check.name())?)?;
        }
    }
    Ok(names)
}

/// The names of the checks after the last one that was reached.
#[tactic(auto, unfolding(crate::specs::Checks::checks_after))]
pub fn names_after(alloc: Global, reached: Option<Check>) -> Result<Vec<String>, AllocError>
    ensures { IfOk result (λ names. map string_bytes names.items
        ≡ map check_name (checks_after reached)) }
{
    names_among(alloc, &CHECKS, reached)
}

/// That the source at a place among the layers does not reach one check.
pub fn only(alloc: Global, source: usize, check: Check) -> Result<Unreached, AllocError>
    ensures source { IfOk result (λ unreached. unreached.source ≡ source) }
    ensures checks { IfOk result (λ unreached. map string_bytes unreached.checks.items
        ≡ check_name check ∷ []) }
{
    let mut checks = Vec::new(alloc);
    checks.push(String::from_str(alloc, check.name())?)?;
    Ok(Unreached { source, checks })
}
