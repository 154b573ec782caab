//! The next mark of a text.
ghost use Rattle.std.specs.Prelude.{◌≡◌, Bool, None, Some, Ok, Err, true, false, [], codes, option_map, IfOk, IfErr, IfSome, MatchOption};
ghost use Rattle.nextest_engines.specs.declared.queries.FiltersetKind.{FiltersetKind};
ghost use Rattle.filter_language.specs.declared.fault.FaultKind.TheVariants.{TooDeeplyNested};
ghost use Rattle.filter_language.specs.Formula.{question_view};
ghost use Rattle.filter_language.specs.Bans.{group_ban, default_ban, field_ban, question_ban, mark_ban};
ghost use Rattle.filter_language.specs.Grammar.{mark_view};
ghost use Rattle.filter_language.specs.Texts.{skipped};
ghost use Rattle.filter_language.specs.Lexing.{after_one, wrong_between};
ghost use Rattle.filter_language.specs.Predicates.{predicate_view};
ghost use Rattle.filter_language.specs.Filters.{next_view, plain, within_bound, objection_to, wanted_in, ended_in, joining_in, next_in};
ghost use Rattle.filter_language.specs.Nesting.{joining_mark, shape_view, joined_shape, wanted_step, joining_step, shape_step, MayEnd};
ghost use Rattle.filter_language.specs.Places.{misreading_view, IfMisread, IsBehind, IsPast, StandsIn};

use crate::fault::{Ban, FaultKind, Misread, Stop};
use crate::mark::{Mark, Question};
use crate::matchers::Matchers;
use crate::reading::nesting::Nesting;
use crate::reading::operator::{Operator, operator_at};
use crate::reading::predicate::{Predicate, read_predicate, word_at};
use crate::reading::texts::{after, skip_blanks};
use crate::words::Field;
use nextest_engines::FiltersetKind;
use std::alloc::Global;

/// A mark, and what follows it.
#[derive(Drop)]
pub struct Next<'a, M> {
    pub mark: Mark<M>,
    /// Why it is not allowed in a filter of its kind.
    pub objection: Option<Misread<'a>>,
    pub rest: &'a str,
}

/// Why a test group may not be in a filter of a kind.
fn banned_group(kind: FiltersetKind) -> FaultKind
    ensures { result ≡ group_ban kind }
{
    match kind {
        FiltersetKind::Test => FaultKind::NoTestGroups,
        FiltersetKind::OverrideFilter => FaultKind::BannedPredicate(Ban::GroupInOverrideFilter),
        FiltersetKind::DefaultFilter => FaultKind::BannedPredicate(Ban::GroupInDefaultFilter),
    }
}

/// Why `default()` may not be in a filter of a kind.
fn banned_default(kind: FiltersetKind) -> Option<FaultKind>
    ensures { result ≡ default_ban kind }
{
    match kind {
        FiltersetKind::DefaultFilter => {
            Some(FaultKind::BannedPredicate(Ban::DefaultInDefaultFilter))
        }
        FiltersetKind::Test | FiltersetKind::OverrideFilter => None,
    }
}

/// Why a field may not be used in a filter of a kind.
fn banned_field(kind: FiltersetKind, knows_packages: bool, field: Field) -> Option<FaultKind>
    ensures { result ≡ field_ban kind knows_packages field }
{
    match field {
        Field::Group => Some(banned_group(kind)),
        Field::Deps | Field::Rdeps => {
            if knows_packages {
                None
            } else {
                Some(FaultKind::NoPackageGraph)
            }
        }
        Field::TestName | Field::Package | Field::BinaryId | Field::BinaryName | Field::Kind =>
            None,
    }
}

/// Why a question may not be in a filter of a kind.
fn banned<E: Matchers>(
    kind: FiltersetKind,
    knows_packages: bool,
    question: &Question<E::Matcher>,
) -> Option<FaultKind>
    ensures { result ≡ question_ban kind knows_packages (question_view E.meaning question.now) }
{
    match question {
        Question::All | Question::Nothing | Question::Platform(_) => None,
        Question::Default => banned_default(kind),
        Question::Matches(matching) => banned_field(kind, knows_packages, matching.field),
    }
}

/// Why a predicate may not be in a filter of a kind, and where.
fn find_objection<'a, E: Matchers>(
    kind: FiltersetKind,
    knows_packages: bool,
    start: &'a str,
    predicate: &Predicate<'a, E::Matcher>,
) -> Option<Misread<'a>>
    requires within { IsBehind predicate.now.rest.now predicate.now.close.now
        × IsBehind predicate.now.close.now predicate.now.inside.now
        × IsBehind predicate.now.inside.now start.now }
    ensures within { IfSome result (λ m. StandsIn start.now (misreading_view m)) }
    ensures ban { option_map (λ m. m.kind) result
        ≡ question_ban kind knows_packages (question_view E.meaning predicate.now.question) }
    ensures value { option_map misreading_view result
        ≡ option_map (objection_to start.now (predicate_view E.meaning predicate.now))
        (question_ban kind knows_packages (question_view E.meaning predicate.now.question)) }
{
    let fault = banned::<E>(kind, knows_packages, &predicate.question)?;
    let (from, until) = match fault {
        FaultKind::NoPackageGraph => (predicate.inside, predicate.close),
        _ => (start, predicate.rest),
    };
    Some(Misread {
        kind: fault,
        from,
        until,
    })
}

/// The `not` that a text begins with.
fn not(text: &str) -> Option<&str>
    ensures value { option_map (λ rest. rest.now) result
        ≡ after_one (codes "not ") (codes "!") text.now }
    ensures place { IfSome result (λ rest. IsPast rest.now text.now) }
{
    match after("not ", text) {
        Some(rest) => Some(rest),
        None => after("!", text),
    }
}

/// A mark that may be where it is, or what is wrong with it.
fn unless_full<'a, M>(
    is_within: bool,
    mark: Mark<M>,
    from: &'a str,
    rest: &'a str,
) -> Result<Next<'a, M>, Stop<'a>>
where
    M: Drop,
    ensures ok { IfOk result (λ next. next.rest.now ≡ rest.now × next.objection ≡ None
        × next.mark ≡ mark × is_within ≡ true) }
    ensures err { IfErr result (λ stop. IfMisread stop (λ m.
        (is_within ≡ false) × (m ≡ wrong_between TooDeeplyNested from.now rest.now))) }
{
    if !is_within {
        return Err(Stop::between(FaultKind::TooDeeplyNested, from, rest));
    }
    Ok(Next {
        mark,
        objection: None,
        rest,
    })
}

/// The mark where an operand is due.
fn wanted<'a, E: Matchers>(
    engine: &E,
    alloc: Global,
    kind: FiltersetKind,
    nesting: &mut Nesting,
    place: &'a str,
) -> Result<Next<'a, E::Matcher>, Stop<'a>>
    ensures ok { IfOk result (λ next. IsPast next.rest.now place.now
        × IfSome next.objection (λ m. StandsIn place.now (misreading_view m))) }
    ensures ban { IfOk result (λ next. option_map (λ m. m.kind) next.objection
        ≡ mark_ban kind (E.knows_packages engine.now) (mark_view E.meaning next.mark)) }
    ensures step { IfOk result (λ next. wanted_step (shape_view nesting.old)
        (mark_view E.meaning next.mark) ≡ Some (shape_view nesting.new)) }
    ensures value { IfOk result (λ next.
        wanted_in (E.compiled engine.now) (E.knows_packages engine.now) kind
        (shape_view nesting.old) place.now
        ≡ Ok (next_view E.meaning (shape_view nesting.new) next)) }
    ensures wrong { IfErr result (λ stop. IfMisread stop (λ m.
        wanted_in (E.compiled engine.now) (E.knows_packages engine.now) kind
        (shape_view nesting.old) place.now ≡ Err m)) }
    ensures err { IfErr result (λ stop. IfMisread stop (StandsIn place.now)) }
{
    let text = skip_blanks(place);
    if let Some(rest) = not(text) {
        return unless_full(nesting.negate(), Mark::Not, text, rest);
    }
    if let Some(rest) = after("(", text) {
        return unless_full(nesting.open()?, Mark::Open, text, rest);
    }
    let Some((word, behind)) = word_at(text) else {
        return Err(Stop::between(FaultKind::ExpectedExpr, place, ""));
    };
    let found = read_predicate(engine, alloc, word, text, behind)?;
    nesting.complete();
    Ok(Next {
        objection: find_objection::<E>(kind, engine.has_package_graph(), text, &found),
        mark: Mark::Predicate(found.question),
        rest: found.rest,
    })
}

/// An operator, and what follows it.
fn joined<'a, M>(nesting: &mut Nesting, mark: Mark<M>, rest: &'a str) -> Next<'a, M>
    ensures next { result ≡ record { mark = mark; objection = None; rest = rest.entry } }
    ensures shape { shape_view nesting.new ≡ joined_shape (shape_view nesting.old) }
{
    nesting.join();
    Next {
        mark,
        objection: None,
        rest,
    }
}

/// The mark behind an operand, or `None` where the filter ends.
fn joining<'a, E: Matchers>(
    nesting: &mut Nesting,
    place: &'a str,
) -> Result<Option<Next<'a, E::Matcher>>, Stop<'a>>
    requires { nesting.old.wants_operand ≡ false }
    ensures ok { IfOk result (λ found. IfSome found (λ next. IsPast next.rest.now place.now
        × IfSome next.objection (λ m. StandsIn place.now (misreading_view m)))) }
    ensures ban { IfOk result (λ found. IfSome found (λ next. (next.objection ≡ None)
        × ((kind : FiltersetKind) (knows : Bool)
        → mark_ban kind knows (mark_view E.meaning next.mark) ≡ None))) }
    ensures text { IfOk result (λ found. IfSome found (λ next.
        joining_mark {L = E.Meaning} (skipped place.now)
        ≡ Some (mark_view E.meaning next.mark, next.rest.now))) }
    ensures step { IfOk result (λ found. MatchOption found (MayEnd (shape_view nesting.old))
        (λ next. joining_step (shape_view nesting.old) (mark_view E.meaning next.mark)
        ≡ Some (shape_view nesting.new))) }
    ensures value { IfOk result (λ found.
        joining_in {L = E.Meaning} (shape_view nesting.old) place.now
        ≡ Ok (option_map (next_view E.meaning (shape_view nesting.new)) found)) }
    ensures wrong { IfErr result (λ stop. IfMisread stop (λ m.
        joining_in {L = E.Meaning} (shape_view nesting.old) place.now ≡ Err m)) }
    ensures err { IfErr result (λ stop. IfMisread stop (StandsIn place.now)) }
{
    let text = skip_blanks(place);
    let Some((operator, rest)) = operator_at(text)? else {
        return ended::<E>(nesting, place, text);
    };
    match operator {
        Operator::And => Ok(Some(joined(nesting, Mark::And, rest))),
        Operator::Or => Ok(Some(joined(nesting, Mark::Or, rest))),
        Operator::Minus => Ok(Some(joined(nesting, Mark::Minus, rest))),
        Operator::Close => {
            if !nesting.close() {
                return Err(Stop::between(FaultKind::ExpectedEndOfExpression, place, ""));
            }
            Ok(Some(Next {
                mark: Mark::Close,
                objection: None,
                rest,
            }))
        }
    }
}

/// The end of a filter, or what is wrong there.
fn ended<'a, E: Matchers>(
    nesting: &Nesting,
    place: &'a str,
    text: &str,
) -> Result<Option<Next<'a, E::Matcher>>, Stop<'a>>
    ensures value { IfOk result (λ _.
        ended_in {L = E.Meaning} place.now (shape_view nesting.now).outer text.now ≡ Ok None) }
    ensures wrong { IfErr result (λ stop. IfMisread stop (λ m.
        ended_in {L = E.Meaning} place.now (shape_view nesting.now).outer text.now ≡ Err m)) }
    ensures ok { IfOk result (λ found. (found ≡ None) × ((shape_view nesting.now).outer ≡ [])) }
    ensures err { IfErr result (λ stop. IfMisread stop (StandsIn place.now)) }
{
    if nesting.is_inside() {
        return Err(Stop::at(FaultKind::ExpectedCloseParenthesis, place));
    }
    if !text.is_empty() {
        return Err(Stop::between(FaultKind::ExpectedEndOfExpression, place, ""));
    }
    Ok(None)
}

/// The next mark, or `None` where the filter ends.
pub fn next_mark<'a, E: Matchers>(
    engine: &E,
    alloc: Global,
    kind: FiltersetKind,
    nesting: &mut Nesting,
    place: &'a str,
) -> Result<Option<Next<'a, E::Matcher>>, Stop<'a>>
    ensures ok { IfOk result (λ found. IfSome found (λ next. IsPast next.rest.now place.now
        × IfSome next.objection (λ m. StandsIn place.now (misreading_view m)))) }
    ensures ban { IfOk result (λ found. IfSome found (λ next.
        option_map (λ m. m.kind) next.objection
        ≡ mark_ban kind (E.knows_packages engine.now) (mark_view E.meaning next.mark))) }
    ensures step { IfOk result (λ found. MatchOption found (MayEnd (shape_view nesting.old))
        (λ next. shape_step (shape_view nesting.old) (mark_view E.meaning next.mark)
        ≡ Some (shape_view nesting.new))) }
    ensures value { IfOk result (λ found.
        next_in (E.compiled engine.now) (E.knows_packages engine.now) kind
        (shape_view nesting.old) place.now
        ≡ Ok (option_map (next_view E.meaning (shape_view nesting.new)) found)) }
    ensures wrong { IfErr result (λ stop. IfMisread stop (λ m.
        next_in (E.compiled engine.now) (E.knows_packages engine.now) kind
        (shape_view nesting.old) place.now ≡ Err m)) }
    ensures err { IfErr result (λ stop. IfMisread stop (StandsIn place.now)) }
{
    if nesting.wants_operand {
        return Ok(Some(wanted(engine, alloc, kind, nesting, place)?));
    }
    joining::<E>(nesting, place)
}
