//! Predicates.
ghost use Rattle.std.specs.Prelude.{◌≡◌, Ok, Err, option_map, IfOk, IfErr, IfSome};
ghost use Rattle.filter_language.specs.Bodies.{body_view};
ghost use Rattle.filter_language.specs.Formula.{question_view};
ghost use Rattle.filter_language.specs.Lexing.{field_in, word_in, opened_in, closed_in, closed_bare_in};
ghost use Rattle.filter_language.specs.Predicates as predicates;
ghost use Rattle.filter_language.specs.Predicates.{predicate_view, sign_in, body_behind, platform_in, bare_in, matching_in, worded_in, predicate_in};
ghost use Rattle.filter_language.specs.Places.{IfMisread, IsBehind, IsPast, StandsIn};

use crate::fault::{FaultKind, Stop};
use crate::mark::{Match, Question};
use crate::matchers::{Matchers, PatternFault};
use crate::reading::argument::{Body, read_regex, read_text};
use crate::reading::texts::{after, front, skip_blanks, until};
use crate::words::{Field, Sign, Word};
use nextest_engines::BuildPlatform;
use std::alloc::Global;

/// A predicate that was read.
#[derive(Drop)]
pub struct Predicate<'a, M> {
    pub question: Question<M>,
    /// The place behind its `(`.
    pub inside: &'a str,
    /// The place of its `)`.
    pub close: &'a str,
    /// The place behind it.
    pub rest: &'a str,
}

/// The field whose word a text begins with, and what follows it.
fn field_at(text: &str) -> Option<(Field, &str)>
    ensures value { option_map (λ found. (found.0, found.1.now)) result ≡ field_in text.now }
    ensures place { IfSome result (λ found. IsPast found.1.now text.now) }
{
    if let Some(rest) = after("binary_id", text) {
        return Some((Field::BinaryId, rest));
    }
    if let Some(rest) = after("binary", text) {
        return Some((Field::BinaryName, rest));
    }
    if let Some(rest) = after("test", text) {
        return Some((Field::TestName, rest));
    }
    if let Some(rest) = after("package", text) {
        return Some((Field::Package, rest));
    }
    if let Some(rest) = after("deps", text) {
        return Some((Field::Deps, rest));
    }
    if let Some(rest) = after("rdeps", text) {
        return Some((Field::Rdeps, rest));
    }
    if let Some(rest) = after("kind", text) {
        return Some((Field::Kind, rest));
    }
    let rest = after("group", text)?;
    Some((Field::Group, rest))
}

/// The word that a text begins with, and what follows it.
pub fn word_at(text: &str) -> Option<(Word, &str)>
    ensures value { option_map (λ found. (found.0, found.1.now)) result ≡ word_in text.now }
    ensures place { IfSome result (λ found. IsPast found.1.now text.now) }
{
    if let Some(rest) = after("all", text) {
        return Some((Word::All, rest));
    }
    if let Some(rest) = after("none", text) {
        return Some((Word::Nothing, rest));
    }
    if let Some(rest) = after("default", text) {
        return Some((Word::Default, rest));
    }
    if let Some(rest) = after("platform", text) {
        return Some((Word::Platform, rest));
    }
    let (field, rest) = field_at(text)?;
    Some((Word::Matches(field), rest))
}

/// What follows the `(` behind a word.
fn opened(text: &str) -> Result<&str, Stop<'_>>
    ensures value { IfOk result (λ inside. opened_in text.now ≡ Ok inside.now) }
    ensures wrong { IfErr result (λ stop. IfMisread stop (λ m. opened_in text.now ≡ Err m)) }
    ensures ok { IfOk result (λ inside. IsPast inside.now text.now) }
    ensures err { IfErr result (λ stop. IfMisread stop (StandsIn text.now)) }
{
    match after("(", skip_blanks(text)) {
        Some(inside) => Ok(inside),
        None => Err(Stop::at(FaultKind::ExpectedOpenParenthesis, text)),
    }
}

/// The `)` behind an argument, and what follows it.
fn closed(text: &str) -> Result<(&str, &str), Stop<'_>>
    ensures value { IfOk result (λ found. closed_in text.now ≡ Ok (found.0.now, found.1.now)) }
    ensures wrong { IfErr result (λ stop. IfMisread stop (λ m. closed_in text.now ≡ Err m)) }
    ensures ok { IfOk result
        (λ found. IsPast found.1.now found.0.now × IsBehind found.0.now text.now) }
    ensures err { IfErr result (λ stop. IfMisread stop (StandsIn text.now)) }
{
    let close = skip_blanks(text);
    if let Some(rest) = after(")", close) {
        return Ok((close, rest));
    }
    let kind = match after(",", close) {
        Some(_) => FaultKind::UnexpectedComma,
        None => FaultKind::ExpectedCloseParenthesis,
    };
    Err(Stop::at(kind, text))
}

/// The `)` of a set without an argument, and what follows it.
fn closed_bare(inside: &str) -> Result<(&str, &str), Stop<'_>>
    ensures value { IfOk result
        (λ found. closed_bare_in inside.now ≡ Ok (found.0.now, found.1.now)) }
    ensures wrong { IfErr result (λ stop. IfMisread stop (λ m. closed_bare_in inside.now ≡ Err m)) }
    ensures ok { IfOk result
        (λ found. IsPast found.1.now found.0.now × IsBehind found.0.now inside.now) }
    ensures err { IfErr result (λ stop. IfMisread stop (StandsIn inside.now)) }
{
    let (argument, close) = until(&[')'], inside);
    if !argument.trim().is_empty() {
        return Err(Stop::between(FaultKind::UnexpectedArgument, inside, close));
    }
    match after(")", close) {
        Some(rest) => Ok((close, rest)),
        None => Err(Stop::at(FaultKind::ExpectedCloseParenthesis, close)),
    }
}

/// The platform of that name.
fn platform_named(name: &str) -> Option<BuildPlatform>
    ensures { result ≡ predicates.platform_named name.now }
{
    if name == "host" {
        return Some(BuildPlatform::Host);
    }
    if name == "target" {
        return Some(BuildPlatform::Target);
    }
    None
}

/// The set of what is built for a platform, behind its `(`.
fn platform<'a, E: Matchers>(
    alloc: Global,
    inside: &'a str,
) -> Result<Predicate<'a, E::Matcher>, Stop<'a>>
    ensures value { IfOk result (λ found.
        platform_in {L = E.Meaning} inside.now ≡ Ok (predicate_view E.meaning found)) }
    ensures wrong { IfErr result (λ stop. IfMisread stop (λ m.
        platform_in {L = E.Meaning} inside.now ≡ Err m)) }
    ensures ok { IfOk result (λ found. IsPast found.rest.now found.close.now
        × IsBehind found.close.now found.inside.now × IsBehind found.inside.now inside.now) }
    ensures err { IfErr result (λ stop. IfMisread stop (StandsIn inside.now)) }
{
    let body = read_text(alloc, skip_blanks(inside))?;
    let (close, rest) = closed(body.behind)?;
    match platform_named(body.text.as_str().trim()) {
        Some(platform) => Ok(Predicate {
            question: Question::Platform(platform),
            inside,
            close,
            rest,
        }),
        None => Err(Stop::between(FaultKind::InvalidPlatformArgument, inside, body.end)),
    }
}

/// The sign that an argument begins with, whether it is the field's own, and what follows it.
fn signed(field: Field, argument: &str) -> (Sign, bool, &str)
    ensures value { sign_in field argument.now ≡ (result.0, result.1, result.2.now) }
    ensures place { IsBehind result.2.now argument.now }
{
    if let Some(body) = after("=", argument) {
        return (Sign::Equal, false, body);
    }
    if let Some(body) = after("~", argument) {
        return (Sign::Contains, false, body);
    }
    if let Some(body) = after("#", argument) {
        return (Sign::Glob, false, body);
    }
    if let Some(body) = after("/", argument) {
        return (Sign::Regex, false, body);
    }
    (field.default_sign(), true, argument)
}

/// The text or regex behind a sign.
fn read_body<'a>(alloc: Global, sign: Sign, start: &'a str) -> Result<Body<'a>, Stop<'a>>
    ensures value { IfOk result (λ body. body_behind sign start.now ≡ Ok (body_view body)) }
    ensures wrong { IfErr result
        (λ stop. IfMisread stop (λ m. body_behind sign start.now ≡ Err m)) }
    ensures ok { IfOk result
        (λ body. IsBehind body.behind.now body.end.now × IsBehind body.end.now start.now) }
    ensures err { IfErr result (λ stop. IfMisread stop (StandsIn start.now)) }
{
    match sign {
        Sign::Regex => read_regex(alloc, start),
        Sign::Equal | Sign::Contains | Sign::Glob => read_text(alloc, start),
    }
}

/// What is wrong with a malformed pattern.
fn malformed(sign: Sign) -> FaultKind
    ensures { result ≡ predicates.malformed sign }
{
    match sign {
        Sign::Regex => FaultKind::InvalidRegex,
        Sign::Glob => FaultKind::InvalidGlob,
        Sign::Equal | Sign::Contains => FaultKind::InvalidString,
    }
}

/// What is wrong with a pattern that has no meaning.
fn meaningless(sign: Sign, fault: PatternFault) -> FaultKind
    ensures { result ≡ predicates.meaningless sign fault }
{
    match fault {
        PatternFault::Malformed => malformed(sign),
        PatternFault::TooLarge => FaultKind::TooLarge,
    }
}

/// The set of what a pattern matches, of a text that begins with its word, behind its `(`.
fn matching<'a, E: Matchers>(
    engine: &E,
    alloc: Global,
    field: Field,
    start: &'a str,
    inside: &'a str,
) -> Result<Predicate<'a, E::Matcher>, Stop<'a>>
    ensures value { IfOk result (λ found.
        matching_in (E.compiled engine.now) field start.now inside.now
        ≡ Ok (predicate_view E.meaning found)) }
    ensures wrong { IfErr result (λ stop. IfMisread stop (λ m.
        matching_in (E.compiled engine.now) field start.now inside.now ≡ Err m)) }
    ensures ok { IfOk result (λ found. IsPast found.rest.now found.close.now
        × IsBehind found.close.now found.inside.now × IsBehind found.inside.now inside.now) }
    ensures err { IfErr result (λ stop. IfMisread stop (StandsIn inside.now)) }
{
    let (sign, is_default, pattern) = signed(field, skip_blanks(inside));
    let Body { text, end, behind } = read_body(alloc, sign, pattern)?;
    let matcher = match engine.compile(alloc, field, sign, text.as_str())? {
        Ok(matcher) => matcher,
        Err(fault) => return Err(Stop::between(meaningless(sign, fault), pattern, end)),
    };
    let (close, rest) = closed(behind)?;
    let written = String::from_str(alloc, front(start, rest))?;
    Ok(Predicate {
        question: Question::Matches(Match {
            field,
            sign,
            is_default,
            text,
            written,
            matcher,
        }),
        inside,
        close,
        rest,
    })
}

/// A set without an argument.
fn bare<'a, E: Matchers>(
    question: Question<E::Matcher>,
    inside: &'a str,
) -> Result<Predicate<'a, E::Matcher>, Stop<'a>>
    ensures value { IfOk result (λ found.
        bare_in (question_view E.meaning question) inside.now
        ≡ Ok (predicate_view E.meaning found)) }
    ensures wrong { IfErr result (λ stop. IfMisread stop (λ m.
        bare_in (question_view E.meaning question) inside.now ≡ Err m)) }
    ensures ok { IfOk result (λ found. IsPast found.rest.now found.close.now
        × IsBehind found.close.now found.inside.now × IsBehind found.inside.now inside.now) }
    ensures err { IfErr result (λ stop. IfMisread stop (StandsIn inside.now)) }
{
    let (close, rest) = closed_bare(inside)?;
    Ok(Predicate {
        question,
        inside,
        close,
        rest,
    })
}

/// The predicate of a text that begins with a word.
pub fn read_predicate<'a, E: Matchers>(
    engine: &E,
    alloc: Global,
    word: Word,
    start: &'a str,
    behind: &'a str,
) -> Result<Predicate<'a, E::Matcher>, Stop<'a>>
    ensures value { IfOk result (λ found.
        predicate_in (E.compiled engine.now) word start.now behind.now
        ≡ Ok (predicate_view E.meaning found)) }
    ensures wrong { IfErr result (λ stop. IfMisread stop (λ m.
        predicate_in (E.compiled engine.now) word start.now behind.now ≡ Err m)) }
    ensures ok { IfOk result (λ found. IsPast found.rest.now found.close.now
        × IsBehind found.close.now found.inside.now × IsPast found.inside.now behind.now) }
    ensures err { IfErr result (λ stop. IfMisread stop (StandsIn behind.now)) }
{
    let inside = opened(behind)?;
    match word {
        Word::All => bare::<E>(Question::All, inside),
        Word::Nothing => bare::<E>(Question::Nothing, inside),
        Word::Default => bare::<E>(Question::Default, inside),
        Word::Platform => platform::<E>(alloc, inside),
        Word::Matches(field) => matching(engine, alloc, field, start, inside),
    }
}
