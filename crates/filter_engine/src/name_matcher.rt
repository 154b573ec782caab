//! Matches names by equality, by a part or by a pattern.
ghost use Rattle.std.specs.Prelude.{◌≡◌, ◌<◌, ◌≤◌, ◌↔◌, List, ℕ, IfOk, OnOk, IsTrue, Err};
ghost use Rattle.filter_engine.specs.Globs.{IsGlob, IsPlain};
ghost use Rattle.filter_engine.specs.GlobDecisions.{glob_takes, writes_glob};
ghost use Rattle.filter_engine.specs.GlobSizes.{glob_size};
ghost use Rattle.filter_engine.specs.RegexTexts.{IsRegex};
ghost use Rattle.filter_engine.specs.RegexSizes.{most_states, regex_size};
ghost use Rattle.filter_engine.specs.Matches as asked;
ghost use Rattle.filter_engine.specs.Matches.{Matches, question_of};

use crate::glob::{GlobFault, GlobMatcher};
use crate::machine::SearchTable;
use crate::part_matcher::PartMatcher;
use crate::regex_matcher::{RegexFault, RegexMatcher};
use std::alloc::{AllocError, Global};

/// What a filter requires of a name.
#[derive(Drop)]
pub enum PatternMatcher {
    /// The name is this text.
    Equal(String),
    /// The text is a part of the name.
    Contains(PartMatcher),
    /// The glob takes the whole name.
    Glob(GlobMatcher),
    /// The regular expression has a match somewhere in the name.
    Regex(RegexMatcher),
}

impl PatternMatcher {
    /// Asks for a name that is this text.
    pub fn equal(alloc: Global, text: &str) -> Result<PatternMatcher, AllocError>
        ensures { IfOk result (λ matcher. question_of matcher ≡ asked.equal text.now) }
    {
        Ok(PatternMatcher::Equal(String::from_str(alloc, text)?))
    }

    /// Asks for a name of which this text is a part.
    pub fn contains(alloc: Global, text: &str) -> Result<PatternMatcher, AllocError>
        ensures { IfOk result (λ matcher. question_of matcher ≡ asked.contains text.now) }
    {
        Ok(PatternMatcher::Contains(PartMatcher::new(alloc, text)?))
    }

    /// Asks for a name that the glob of this text takes.
    ///
    /// # Errors
    ///
    /// [`GlobFault::Malformed`] where the text writes no glob, [`GlobFault::TooLarge`] where its
    /// automaton may take more than 16,384 states, and [`GlobFault::Memory`] where memory ran out.
    pub fn glob(alloc: Global, text: &str, table: SearchTable) -> Result<PatternMatcher, GlobFault>
        ensures asks { IfOk result (λ matcher. question_of matcher ≡ asked.glob text.now) }
        ensures written { OnOk result (IsGlob text.now) }
        ensures small { OnOk result (glob_size text.now ≤ most_states) }
        ensures malformed { result ≡ Err GlobFault.Malformed → IsGlob text.now → ⊥ }
        ensures large { result ≡ Err GlobFault.TooLarge
            → IsGlob text.now × (most_states < glob_size text.now) }
    {
        Ok(PatternMatcher::Glob(GlobMatcher::parse(alloc, text, table)?))
    }

    /// Asks for a name in which the regular expression of this text has a match.
    ///
    /// # Errors
    ///
    /// [`RegexFault::Malformed`] where the text writes no regular expression,
    /// [`RegexFault::TooLarge`] where its automaton may take more than 16,384 states, and
    /// [`RegexFault::Memory`] where memory ran out.
    pub fn regex(
        alloc: Global,
        text: &str,
        table: SearchTable,
    ) -> Result<PatternMatcher, RegexFault>
        ensures asks { IfOk result (λ matcher. question_of matcher ≡ asked.regex text.now) }
        ensures written { OnOk result (IsRegex text.now) }
        ensures small { OnOk result (regex_size text.now ≤ most_states) }
        ensures malformed { result ≡ Err RegexFault.Malformed → IsRegex text.now → ⊥ }
        ensures large { result ≡ Err RegexFault.TooLarge
            → IsRegex text.now × (most_states < regex_size text.now) }
    {
        Ok(PatternMatcher::Regex(RegexMatcher::parse(alloc, text, table)?))
    }

    /// Whether a name matches.
    pub fn is_match(&self, name: &str) -> bool
        ensures { IsTrue result ↔ Matches (question_of self.now) name.now }
    {
        match self {
            PatternMatcher::Equal(text) => text.as_str() == name,
            PatternMatcher::Contains(part) => part.has_match(name),
            PatternMatcher::Glob(glob) => glob.has_match(name),
            PatternMatcher::Regex(regex) => regex.has_match(name),
        }
    }
}

/// A law: a glob of no special byte takes the name that equals it.
pub fn law_plain_glob()
    ensures { (text name : List ℕ) → IsPlain text
        → Matches (asked.glob text) name ↔ Matches (asked.equal text) name }
{}

/// A law: functions decide which texts write globs, and which names these take.
pub fn law_decided_globs()
    ensures written { (text : List ℕ) → IsTrue (writes_glob text) ↔ IsGlob text }
    ensures taken { (text name : List ℕ)
        → IsTrue (glob_takes text name) ↔ Matches (asked.glob text) name }
{}
