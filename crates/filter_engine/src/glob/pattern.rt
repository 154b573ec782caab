//! Patterns that match what the parts of a glob take.
ghost use Rattle.std.specs.Prelude.{◌≡◌, ◌∷◌, [], IfOk, map};
ghost use Rattle.regex_hir.specs.Meaning.{meaning, cat_all};
ghost use Rattle.regex_hir.specs.Re as re;
ghost use Rattle.regex_hir.specs.declared.look.Look.TheVariants as look;
ghost use Rattle.filter_engine.specs.Patterns.{Means};
ghost use Rattle.filter_engine.specs.declared.glob.part.GlobPart.TheVariants as part;

use crate::glob::part::GlobPart;
use regex_class::Class;
use regex_hir::{Hir, Look};
use std::alloc::{AllocError, Global};

fn any_byte(alloc: Global) -> Result<Hir, AllocError>
    ensures { IfOk result (λ hir. Means part.AnyByte (meaning hir)) }
{
    Ok(Hir::Bytes(Class::from_ranges(alloc, &[(0, 255)])?))
}

fn any_bytes(alloc: Global) -> Result<Hir, AllocError>
    ensures { IfOk result (λ hir. Means part.AnyBytes (meaning hir)) }
{
    Ok(Hir::Repetition {
        min: 0,
        max: None,
        greedy: true,
        sub: Box::new(alloc, any_byte(alloc)?)?,
    })
}

fn byte(alloc: Global, byte: u8) -> Result<Hir, AllocError>
    ensures { IfOk result (λ hir. meaning hir ≡ re.literal (byte ∷ [])) }
{
    Ok(Hir::Literal(Vec::from_slice(alloc, &[byte])?))
}

fn two(alloc: Global, first: Hir, second: Hir) -> Result<Vec<Hir>, AllocError>
    ensures { IfOk result (λ both. both.items ≡ first ∷ second ∷ []) }
{
    let mut both = Vec::new(alloc);
    both.push(first)?;
    both.push(second)?;
    Ok(both)
}

fn folders(alloc: Global) -> Result<Hir, AllocError>
    ensures { IfOk result (λ hir. Means part.Folders (meaning hir)) }
{
    let path = two(alloc, any_bytes(alloc)?, byte(alloc, b'/')?)?;
    Ok(Hir::Alternation(two(alloc, Hir::Empty, Hir::Concat(path))?))
}

/// The pattern of what a part takes.
pub fn part_pattern(alloc: Global, part: GlobPart) -> Result<Hir, AllocError>
    ensures { IfOk result (λ hir. Means part (meaning hir)) }
{
    match part {
        GlobPart::Byte(value) => byte(alloc, value),
        GlobPart::AnyByte => any_byte(alloc),
        GlobPart::AnyBytes => any_bytes(alloc),
        GlobPart::Folders => folders(alloc),
        GlobPart::Nothing => Ok(Hir::Empty),
    }
}

/// The pattern that matches a name from start to end by these patterns.
pub fn whole_pattern(alloc: Global, row: Vec<Hir>) -> Result<Hir, AllocError>
    ensures { IfOk result (λ hir. meaning hir ≡ cat_all
        (re.look look.Start ∷ cat_all (map meaning row.items) ∷ re.look look.End ∷ [])) }
{
    let mut patterns = Vec::new(alloc);
    patterns.push(Hir::Look(Look::Start))?;
    patterns.push(Hir::Concat(row))?;
    patterns.push(Hir::Look(Look::End))?;
    Ok(Hir::Concat(patterns))
}
