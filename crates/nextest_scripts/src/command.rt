//! The commands of scripts.
ghost use Rattle.std.specs.Prelude.{◌≡◌, [], IfOk, string_bytes};
ghost use Rattle.nextest_tree.specs.Leaf.{Spells};
ghost use Rattle.nextest_tree.specs.Node as Node;
ghost use Rattle.nextest_tree.specs.Reads.{Gives, reading, walk_view};
ghost use Rattle.nextest_tree.specs.View.{entries_view};
ghost use Rattle.nextest_scripts.specs.Command.{IsCommand, IsCommandTable, a_command, a_relative_to, command_fields, program_path, relative_to_at};

use crate::command_line::CommandLine;
use crate::env_map::ScriptCommandEnvMap;
use crate::paths::join_paths;
use nextest_tree::{
    Element, ElementCause, ElementFault, Key, Record, Tree, Walk, optional, read_closed_record,
    read_one_of, required,
};
use std::alloc::{AllocError, Global};
use std::collections::BTreeMap;

/// The directory that a program is relative to.
#[derive(Clone, Copy, Debug, PartialEq, Eq)]
pub enum ScriptCommandRelativeTo {
    /// None: the program is as it is written.
    None,
    /// The root of the workspace.
    WorkspaceRoot,
    /// The target directory.
    Target,
}

/// The names of the directories.
const RELATIVE_TO_NAMES: [(&str, ScriptCommandRelativeTo); 3] = [
    ("none", ScriptCommandRelativeTo::None),
    ("workspace-root", ScriptCommandRelativeTo::WorkspaceRoot),
    ("target", ScriptCommandRelativeTo::Target),
];

/// What a refusal says was expected.
const RELATIVE_TO_EXPECTED: &str = "`none`, `workspace-root`, `target`";

/// The command of a script.
#[derive(Debug, Drop)]
pub struct ScriptCommand {
    /// The program, as it is written.
    pub program: String,
    /// Its arguments.
    pub args: Vec<String>,
    /// The environment variables that it is given.
    pub env: ScriptCommandEnvMap,
    /// The directory that the program is relative to.
    pub relative_to: ScriptCommandRelativeTo,
}

impl ScriptCommand {
    /// The program to run. It is joined to the directory that it is relative to, by the rule of
    /// `join_paths`.
    pub fn program(
        &self,
        alloc: Global,
        workspace_root: &str,
        target_dir: &str,
    ) -> Result<String, AllocError>
        ensures { IfOk result (λ path. string_bytes path ≡ program_path self.now.relative_to
            (string_bytes self.now.program) workspace_root.now target_dir.now) }
    {
        match self.relative_to {
            ScriptCommandRelativeTo::None => self.program.clone(),
            ScriptCommandRelativeTo::WorkspaceRoot => {
                join_paths(alloc, workspace_root, self.program.as_str())
            }
            ScriptCommandRelativeTo::Target => join_paths(alloc, target_dir, self.program.as_str()),
        }
    }
}

#[tactic(auto, unfolding(nextest_tree::specs::Reads::reading, nextest_tree::specs::Reads::walk_view, crate::specs::Command::a_relative_to, crate::specs::Command::relative_to_names, crate::specs::Command::relative_to_expected))]
impl Element for ScriptCommandRelativeTo {
    ghost schema = { a_relative_to };

    ghost is_value = { Spells relative_to_at };

    fn read(alloc: Global, tree: &Tree, walk: &mut Walk) -> Result<Self, ElementFault> {
        read_one_of(alloc, tree, walk, &RELATIVE_TO_NAMES, RELATIVE_TO_EXPECTED)
    }
}

#[tactic(auto, using(nextest_tree::proofs::Reading::leaf_there, nextest_tree::proofs::Reading::leaf_read))]
impl Record for ScriptCommand {
    ghost fields = { command_fields };

    ghost is_record = { IsCommandTable };

    fn keys() -> &'static [Key] {
        &[Key::CommandLine, Key::Env, Key::RelativeTo]
    }

    fn read_fields(
        alloc: Global,
        members: &BTreeMap<String, Tree>,
        walk: &mut Walk,
    ) -> Result<Self, ElementFault> {
        let CommandLine { program, args } = required(alloc, members, Key::CommandLine, walk)?;
        let env = optional(alloc, members, Key::Env, walk)?;
        let relative_to = optional(alloc, members, Key::RelativeTo, walk)?;
        Ok(ScriptCommand {
            program,
            args,
            env: env.unwrap_or(ScriptCommandEnvMap::empty(alloc)),
            relative_to: relative_to.unwrap_or(ScriptCommandRelativeTo::None),
        })
    }
}

/// Reads a table, which refuses its other keys before its fields are looked at.
fn read_command_table(
    alloc: Global,
    members: &BTreeMap<String, Tree>,
    walk: &mut Walk,
) -> Result<ScriptCommand, ElementFault>
    ensures value { IfOk result (IsCommandTable (entries_view members.now.entries)) }
    ensures reads { let es = entries_view members.now.entries in
        Gives result walk.new (reading a_command (Node.table es) (walk_view walk.old)) }
{
    read_closed_record(alloc, members, walk)
}

#[tactic(auto, unfolding(nextest_tree::specs::Reads::reading, nextest_tree::specs::Reads::walk_view, crate::specs::Command::a_command, crate::specs::CommandLine::a_command_line))]
impl Element for ScriptCommand {
    ghost schema = { a_command };

    ghost is_value = { IsCommand };

    fn read(alloc: Global, tree: &Tree, walk: &mut Walk) -> Result<Self, ElementFault> {
        match tree {
            Tree::Table(members) => read_command_table(alloc, members, walk),
            Tree::Text(_) | Tree::Array(_) => {
                let CommandLine { program, args } = CommandLine::read(alloc, tree, walk)?;
                Ok(ScriptCommand {
                    program,
                    args,
                    env: ScriptCommandEnvMap::empty(alloc),
                    relative_to: ScriptCommandRelativeTo::None,
                })
            }
            _ => Err(walk.fault(alloc, ElementCause::WrongKind)),
        }
    }
}
