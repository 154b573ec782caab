//! A program and its arguments, as a line or a list of texts writes them.
ghost use Rattle.std.specs.Prelude.{◌≡◌, [], ◌∷◌, IfOk, MatchOption};
ghost use Rattle.nextest_tree.specs.Node as Node;
ghost use Rattle.nextest_tree.specs.Reads.{Gives, reading, walk_view};
ghost use Rattle.nextest_tree.specs.View.{tree_view};
ghost use Rattle.nextest_scripts.specs.CommandLine.{IsArray, IsCommandLine, a_command_line};

use crate::shell_words::{ShellWordsError, split_shell_words};
use nextest_tree::{Element, ElementCause, ElementFault, Tree, Walk};
use std::alloc::Global;

/// What a refusal of a line says was expected.
const LINE_EXPECTED: &str = "a command line with a program";

/// A program and its arguments.
#[derive(Drop)]
pub(crate) struct CommandLine {
    pub(crate) program: String,
    pub(crate) args: Vec<String>,
}

impl CommandLine {
    /// The first word is the program; without one there is none.
    fn from_words(mut words: Vec<String>) -> Option<CommandLine>
        ensures { MatchOption result (words.items ≡ [])
            (λ line. words.items ≡ line.program ∷ line.args.items) }
    {
        if words.is_empty() {
            return None;
        }
        let program = words.remove(0);
        Some(CommandLine {
            program,
            args: words,
        })
    }
}

/// Reads a line.
fn read_line(alloc: Global, text: &str, walk: &mut Walk) -> Result<CommandLine, ElementFault>
    ensures value { IfOk result (IsCommandLine (Node.text text.now)) }
    ensures reads { Gives result walk.new
        (reading a_command_line (Node.text text.now) (walk_view walk.old)) }
{
    match split_shell_words(alloc, text) {
        Ok(words) => match CommandLine::from_words(words) {
            Some(line) => Ok(line),
            None => Err(walk.bad_value(alloc, text, LINE_EXPECTED)),
        },
        Err(ShellWordsError::Unclosed) => Err(walk.bad_value(alloc, text, LINE_EXPECTED)),
        Err(ShellWordsError::Memory) => Err(ElementFault::memory(alloc)),
    }
}

/// Reads a list of texts.
fn read_list(alloc: Global, tree: &Tree, walk: &mut Walk) -> Result<CommandLine, ElementFault>
    requires { IsArray (tree_view tree.now) }
    ensures value { IfOk result (IsCommandLine (tree_view tree.now)) }
    ensures reads { Gives result walk.new
        (reading a_command_line (tree_view tree.now) (walk_view walk.old)) }
{
    let words = Vec::read(alloc, tree, walk)?;
    match CommandLine::from_words(words) {
        Some(line) => Ok(line),
        None => Err(walk.fault(alloc, ElementCause::OutOfRange)),
    }
}

#[tactic(auto, unfolding(nextest_tree::specs::Reads::reading, nextest_tree::specs::Reads::walk_view, crate::specs::CommandLine::a_command_line))]
impl Element for CommandLine {
    ghost schema = { a_command_line };

    ghost is_value = { IsCommandLine };

    fn read(alloc: Global, tree: &Tree, walk: &mut Walk) -> Result<Self, ElementFault> {
        match tree {
            Tree::Text(text) => read_line(alloc, text.as_str(), walk),
            Tree::Array(_) => read_list(alloc, tree, walk),
            _ => Err(walk.fault(alloc, ElementCause::WrongKind)),
        }
    }
}
