//! What predicates test of names.
ghost use Rattle.std.specs.Prelude.{◌≡◌, IfOk};
ghost use Rattle.std.specs.Result.{result_map_both};
ghost use Rattle.filter_engine.specs.Matches as asked;
ghost use Rattle.filter_engine.specs.Matches.{question_of};
ghost use Rattle.filter_engine.specs.Names.{question_in, regex_question, glob_question, asks};

use crate::glob::GlobFault;
use crate::machine::SearchTable;
use crate::name_matcher::PatternMatcher;
use crate::regex_matcher::RegexFault;
use filter_language::{PatternFault, Sign};
use nextest_engines::NameMatcher as NameTest;
use std::alloc::{AllocError, Global};

/// What a predicate requires of a name.
#[derive(Drop)]
pub struct NamePattern {
    matcher: PatternMatcher,
}

/// Asks for a name that is this text.
fn equal(alloc: Global, text: &str) -> Result<NamePattern, AllocError>
    ensures { IfOk result (λ pattern. question_of pattern.matcher ≡ asked.equal text.now) }
{
    let matcher = PatternMatcher::equal(alloc, text)?;
    Ok(NamePattern { matcher })
}

/// Asks for a name of which this text is a part.
fn contains(alloc: Global, text: &str) -> Result<NamePattern, AllocError>
    ensures { IfOk result (λ pattern. question_of pattern.matcher ≡ asked.contains text.now) }
{
    let matcher = PatternMatcher::contains(alloc, text)?;
    Ok(NamePattern { matcher })
}

/// Asks for a name that the glob of this text takes.
#[tactic(auto, using(crate::proofs::Asks::glob_asked, crate::proofs::Asks::glob_none, crate::proofs::Asks::glob_large))]
fn glob(
    alloc: Global,
    text: &str,
    table: SearchTable,
) -> Result<Result<NamePattern, PatternFault>, AllocError>
    ensures { IfOk result (λ found. result_map_both (λ p. question_of p.matcher) (λ f. f) found
        ≡ glob_question text.now) }
{
    match PatternMatcher::glob(alloc, text, table) {
        Ok(matcher) => Ok(Ok(NamePattern { matcher })),
        Err(GlobFault::Malformed) => Ok(Err(PatternFault::Malformed)),
        Err(GlobFault::TooLarge) => Ok(Err(PatternFault::TooLarge)),
        Err(GlobFault::Memory) => Err(AllocError),
    }
}

/// Asks for a name in which the regular expression of this text has a match.
#[tactic(auto, using(crate::proofs::Asks::regex_asked, crate::proofs::Asks::regex_none, crate::proofs::Asks::regex_large))]
fn regex(
    alloc: Global,
    text: &str,
    table: SearchTable,
) -> Result<Result<NamePattern, PatternFault>, AllocError>
    ensures { IfOk result (λ found. result_map_both (λ p. question_of p.matcher) (λ f. f) found
        ≡ regex_question text.now) }
{
    match PatternMatcher::regex(alloc, text, table) {
        Ok(matcher) => Ok(Ok(NamePattern { matcher })),
        Err(RegexFault::Malformed) => Ok(Err(PatternFault::Malformed)),
        Err(RegexFault::TooLarge) => Ok(Err(PatternFault::TooLarge)),
        Err(RegexFault::Memory) => Err(AllocError),
    }
}

impl NamePattern {
    /// Compiles the text behind a sign, with tables of searches or without, or returns why it is not
    /// compiled.
    pub fn compile(
        alloc: Global,
        sign: Sign,
        text: &str,
        table: SearchTable,
    ) -> Result<Result<NamePattern, PatternFault>, AllocError>
        ensures { IfOk result (λ found. result_map_both (λ p. question_of p.matcher) (λ f. f) found
            ≡ question_in sign text.now) }
    {
        match sign {
            Sign::Equal => Ok(Ok(equal(alloc, text)?)),
            Sign::Contains => Ok(Ok(contains(alloc, text)?)),
            Sign::Glob => glob(alloc, text, table),
            Sign::Regex => regex(alloc, text, table),
        }
    }
}

impl NameTest for NamePattern {
    ghost accepts = { λ pattern. asks (question_of pattern.matcher) };

    fn is_match(&self, name: &str) -> bool {
        self.matcher.is_match(name)
    }
}
