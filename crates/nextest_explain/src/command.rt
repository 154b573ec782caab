//! The words of the command line.
ghost use Rattle.std.specs.Prelude.{◌≡◌, [], ◌∷◌, ◌≤◌, IfOk, IfSome, IsFalse, OnOk, codes, length, map, nat_eq, string_bytes};
ghost use Rattle.std.specs.List.{starts_with};
ghost use Rattle.nextest_explain.specs.Words.{IsCommandOf, mode_word};
ghost use Rattle.nextest_explain.specs.Taking.{IsLineOf, ReadsItem, TakesItem};

use crate::options::{OptionName, Options};
use nextest_config::{InvalidIdentifier, NextestRunMode};
use std::alloc::{AllocError, Global};

/// How the program is called.
pub const USAGE: &str =
    "usage: config_explain ROOT PROFILE MODE BINARY TEST [--config-file P] [--organisation-config-file P] [--tool-config-file TOOL:PATH] [--experimental NAME] [--host T] [--target T] [--host-binary] [--all]";

/// What the arguments request.
#[derive(Debug, Drop)]
pub struct Command<'a> {
    /// The root of the workspace.
    pub root: &'a str,
    pub profile: &'a str,
    pub mode: NextestRunMode,
    /// The id of the test's binary.
    pub binary: &'a str,
    pub test: &'a str,
    pub options: Options<'a>,
}

/// Why words are not a command.
#[derive(Clone, Copy, Debug, PartialEq, Eq)]
pub enum CommandError {
    /// The words are not as the usage says.
    Usage,
    /// Memory was refused.
    Memory,
}

impl From<AllocError> for CommandError {
    fn from(_error: AllocError) -> CommandError {
        CommandError::Memory
    }
}

impl From<InvalidIdentifier> for CommandError {
    fn from(error: InvalidIdentifier) -> CommandError {
        match error {
            InvalidIdentifier::Memory => CommandError::Memory,
            InvalidIdentifier::Empty
            | InvalidIdentifier::BadStart
            | InvalidIdentifier::BadCharacter
            | InvalidIdentifier::BadToolForm
            | InvalidIdentifier::BadOrganisationForm => CommandError::Usage,
        }
    }
}

impl<'a> Command<'a> {
    /// Reads the words, without the program's name.
    pub fn parse(alloc: Global, words: &'a [String]) -> Result<Command<'a>, CommandError>
        ensures { IfOk result (λ command. IsCommandOf (map string_bytes words.now) command) }
    {
        let Line { arguments, options } = Line::read(alloc, words)?;
        let [root, profile, mode, binary, test] = arguments.as_slice() else {
            return Err(CommandError::Usage);
        };
        let Some(mode) = mode_of(mode) else {
            return Err(CommandError::Usage);
        };
        Ok(Command {
            root,
            profile,
            mode,
            binary,
            test,
            options,
        })
    }
}

/// The arguments and the options of a command line.
#[derive(Drop)]
struct Line<'a> {
    arguments: Vec<&'a str>,
    options: Options<'a>,
}

impl<'a> Line<'a> {
    /// Reads all words of a line.
    fn read(alloc: Global, words: &'a [String]) -> Result<Line<'a>, CommandError>
        ensures { IfOk result (λ line. IsLineOf (map string_bytes words.now) line) }
    {
        let mut line = Line {
            arguments: Vec::new(alloc),
            options: Options::new(alloc),
        };
        let mut rest = words;
        while let Some((word, behind)) = rest.split_first() {
            rest = line.take_item(alloc, word.as_str(), behind)?;
        }
        Ok(line)
    }

    /// Takes the item that begins with a word, and returns the words behind it. The word behind an
    /// option that takes a value is this value, whatever it is.
    fn take_item(
        &mut self,
        alloc: Global,
        word: &'a str,
        behind: &'a [String],
    ) -> Result<&'a [String], CommandError>
        ensures taken { IfOk result (λ rest. ReadsItem (word.now ∷ map string_bytes behind.now)
            (map string_bytes rest.now) self.old self.new) }
        ensures shorter { IfOk result (λ rest. length rest.now ≤ length behind.now) }
    {
        let Some(name) = OptionName::of(word) else {
            self.take_word(word)?;
            return Ok(behind);
        };
        let Some((value, rest)) = behind.split_first() else {
            return Err(CommandError::Usage);
        };
        self.options.set(alloc, name, value.as_str())?;
        Ok(rest)
    }

    /// Takes a flag or an argument.
    fn take_word(&mut self, word: &'a str) -> Result<(), CommandError>
        ensures { OnOk result (TakesItem (word.now ∷ []) self.old self.new) }
    {
        match word {
            "--host-binary" => self.options.set_host_binary(),
            "--all" => self.options.set_whole_places(),
            _ if word.starts_with("--") => Err(CommandError::Usage),
            _ => Ok(self.push(word)?),
        }
    }

    fn push(&mut self, word: &'a str) -> Result<(), AllocError>
        ensures { IsFalse (starts_with nat_eq word.now (codes "--"))
            → OnOk result (TakesItem (word.now ∷ []) self.old self.new) }
    {
        self.arguments.push(word)?;
        Ok(())
    }
}

/// The mode of a word.
fn mode_of(word: &str) -> Option<NextestRunMode>
    ensures { IfSome result (λ mode. word.now ≡ mode_word mode) }
{
    match word {
        "test" => Some(NextestRunMode::Test),
        "benchmark" => Some(NextestRunMode::Benchmark),
        _ => None,
    }
}
