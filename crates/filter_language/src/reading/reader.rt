//! Reads a whole text.
ghost use Rattle.std.specs.Prelude.{◌≡◌, ◌++◌, ◌∷◌, [], true, Ok, Err, IfOk, IfErr, map};
ghost use Rattle.filter_language.specs.Grammar.{mark_view, WritesAFilter};
ghost use Rattle.filter_language.specs.Filters.{marks_in};
ghost use Rattle.filter_language.specs.Bans.{are_allowed};
ghost use Rattle.filter_language.specs.Places.{IfMisread, StandsIn};

use crate::fault::{Misread, Stop};
use crate::mark::Mark;
use crate::matchers::Matchers;
use crate::reading::nesting::Nesting;
use crate::reading::next::next_mark;
use nextest_engines::FiltersetKind;
use std::alloc::{AllocError, Global};

/// One more mark.
fn keep<M>(marks: &mut Vec<Mark<M>>, mark: Mark<M>) -> Result<(), AllocError>
where
    M: Drop,
    ensures { IfOk result (λ _. marks.new.items ≡ marks.old.items ++ mark ∷ []) }
{
    marks.push(mark)?;
    Ok(())
}

/// The marks of the filter that a text writes.
pub fn read_marks<'a, E: Matchers>(
    engine: &E,
    alloc: Global,
    text: &'a str,
    kind: FiltersetKind,
) -> Result<Vec<Mark<E::Matcher>>, Stop<'a>>
    ensures value { IfOk result (λ marks.
        marks_in (E.compiled engine.now) (E.knows_packages engine.now) kind text.now
        ≡ Ok (map (mark_view E.meaning) marks.items)) }
    ensures wrong { IfErr result (λ stop. IfMisread stop (λ m.
        marks_in (E.compiled engine.now) (E.knows_packages engine.now) kind text.now ≡ Err m)) }
    ensures allowed { IfOk result (λ marks. are_allowed kind (E.knows_packages engine.now)
        (map (mark_view E.meaning) marks.items) ≡ true) }
    ensures ok { IfOk result (λ marks. WritesAFilter (map (mark_view E.meaning) marks.items)) }
    ensures err { IfErr result (λ stop. IfMisread stop (StandsIn text.now)) }
{
    let mut marks = Vec::new(alloc);
    let mut objection: Option<Misread<'a>> = None;
    let mut nesting = Nesting::new(alloc);
    let mut place = text;
    'marks: while let Some(found) = next_mark(engine, alloc, kind, &mut nesting, place)? {
        keep(&mut marks, found.mark)?;
        objection = objection.or(found.objection);
        place = found.rest;
    }
    match objection {
        Some(misread) => Err(Stop::Misread(misread)),
        None => Ok(marks),
    }
}
