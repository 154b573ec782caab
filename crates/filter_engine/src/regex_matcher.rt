//! Regular expressions of which a match is sought in a name.
ghost use Rattle.std.specs.Prelude.{◌≡◌, ◌<◌, ◌≤◌, ℕ, List, string_bytes, IfOk, OnOk, IsTrue, ◌↔◌, Err};
ghost use Rattle.filter_engine.specs.RegexTexts.{IsRegex, RegexMatches, IsRegexMachine};
ghost use Rattle.filter_engine.specs.RegexSizes as sizes;
ghost use Rattle.filter_engine.specs.RegexSizes.{most_states};

use crate::machine::{Machine, SearchTable};
use crate::regex_size::{is_too_large, regex_size};
use regex_syntax::{Config, ErrorKind, parse};
use std::alloc::{AllocError, Global};
use std::marker::Model;
use thiserror::Error;

/// Why a text gives no matcher.
#[derive(Clone, Copy, Debug, PartialEq, Eq, Error)]
pub enum RegexFault {
    /// The text writes no regular expression, or one that nests more than 250 deep.
    #[error("invalid regex")]
    Malformed,
    /// The automaton may take more than 16,384 states.
    #[error("regex too large")]
    TooLarge,
    /// Memory ran out.
    #[error("out of memory")]
    Memory,
}

impl From<AllocError> for RegexFault {
    ghost use Rattle.filter_engine.specs.declared.regex_matcher.RegexFault.TheVariants.{Memory};

    ghost from_gives = { λ _ fault. fault ≡ Memory };

    fn from(_error: AllocError) -> RegexFault {
        RegexFault::Memory
    }
}

/// A regular expression that is compiled.
#[derive(Drop)]
pub struct RegexMatcher {
    text: String,
    machine: Machine,
}

/// The text that writes it.
impl Model for RegexMatcher {
    ghost Value = { List ℕ };

    ghost view = { λ regex. string_bytes regex.text };

    ghost invariant = { λ regex. IsRegexMachine (string_bytes regex.text) regex.machine.nfa };
}

impl RegexMatcher {
    /// The regular expression of a text.
    ///
    /// # Errors
    ///
    /// [`RegexFault::Malformed`] where the text writes none, [`RegexFault::TooLarge`] where the
    /// automaton may take more than 16,384 states, and [`RegexFault::Memory`] where memory ran out.
    pub fn parse(alloc: Global, text: &str, table: SearchTable) -> Result<RegexMatcher, RegexFault>
        ensures text { IfOk result (λ regex. regex ≡ text.now) }
        ensures written { OnOk result (IsRegex text.now) }
        ensures small { OnOk result (sizes.regex_size text.now ≤ most_states) }
        ensures malformed { result ≡ Err RegexFault.Malformed → IsRegex text.now → ⊥ }
        ensures large { result ≡ Err RegexFault.TooLarge
            → IsRegex text.now × (most_states < sizes.regex_size text.now) }
    {
        let parsed = match parse(alloc, text, &Config::default()) {
            Ok(parsed) => parsed,
            Err(error) => {
                return match error.kind {
                    ErrorKind::OutOfMemory => Err(RegexFault::Memory),
                    _ => Err(RegexFault::Malformed),
                };
            }
        };
        let size = regex_size(alloc, text.as_bytes())?;
        if is_too_large(size) {
            return Err(RegexFault::TooLarge);
        }
        let Ok(groups) = u32::try_from(parsed.names.len()) else {
            return Err(RegexFault::Memory);
        };
        let machine = Machine::compile(alloc, &parsed.hir, groups, table)?;
        let text = String::from_str(alloc, text)?;
        Ok(RegexMatcher { text, machine })
    }

    /// The text that writes the regular expression.
    pub fn text(&self) -> &str
        ensures { result.now ≡ self.now }
    {
        self.text.as_str()
    }

    /// Whether the regular expression has a match somewhere in a name.
    pub fn has_match(&self, name: &str) -> bool
        ensures { IsTrue result ↔ RegexMatches self.now name.now }
    {
        self.machine.has_match(name.as_bytes())
    }
}
