//! Wrapper scripts.
ghost use Rattle.nextest_tree.specs.Leaf.{Spells};
ghost use Rattle.nextest_tree.specs.Reads.{InTable};
ghost use Rattle.nextest_scripts.specs.WrapperScript.{IsWrapperScript, a_target_runner, a_wrapper_script, target_runner_at, wrapper_script_fields};

use crate::command::ScriptCommand;
use nextest_tree::{
    Element, ElementFault, Key, Record, Tree, Walk, optional, read_one_of, read_table, required,
};
use std::alloc::Global;
use std::collections::BTreeMap;

/// What a wrapper script makes of the runner of a target. By default it ignores it.
#[derive(Clone, Copy, Debug, PartialEq, Eq)]
pub enum WrapperScriptTargetRunner {
    /// The runner is not used.
    Ignore,
    /// The runner is used in place of the wrapper.
    OverridesWrapper,
    /// The wrapper runs the runner, which runs the test.
    WithinWrapper,
    /// The runner runs the wrapper, which runs the test.
    AroundWrapper,
}

impl Default for WrapperScriptTargetRunner {
    ghost use Rattle.std.specs.Prelude.{◌≡◌};
    ghost use Rattle.nextest_scripts.specs.WrapperScript.{usual_target_runner};

    ghost is_default = { λ runner. runner ≡ usual_target_runner };

    fn default() -> Self {
        WrapperScriptTargetRunner::Ignore
    }
}

/// The names of what a wrapper makes of a runner.
const TARGET_RUNNER_NAMES: [(&str, WrapperScriptTargetRunner); 4] = [
    ("ignore", WrapperScriptTargetRunner::Ignore),
    (
        "overrides-wrapper",
        WrapperScriptTargetRunner::OverridesWrapper,
    ),
    ("within-wrapper", WrapperScriptTargetRunner::WithinWrapper),
    ("around-wrapper", WrapperScriptTargetRunner::AroundWrapper),
];

/// What a refusal says was expected.
const TARGET_RUNNER_EXPECTED: &str =
    "`ignore`, `overrides-wrapper`, `within-wrapper`, `around-wrapper`";

/// A script that runs round tests, or round test binaries that list their tests.
#[derive(Debug, Drop)]
pub struct WrapperScriptConfig {
    /// What it runs.
    pub command: ScriptCommand,
    /// What it makes of the runner of a target.
    pub target_runner: WrapperScriptTargetRunner,
}

#[tactic(auto, unfolding(nextest_tree::specs::Reads::reading, nextest_tree::specs::Reads::walk_view, crate::specs::WrapperScript::a_target_runner, crate::specs::WrapperScript::target_runner_names, crate::specs::WrapperScript::target_runner_expected))]
impl Element for WrapperScriptTargetRunner {
    ghost schema = { a_target_runner };

    ghost is_value = { Spells target_runner_at };

    fn read(alloc: Global, tree: &Tree, walk: &mut Walk) -> Result<Self, ElementFault> {
        read_one_of(
            alloc,
            tree,
            walk,
            &TARGET_RUNNER_NAMES,
            TARGET_RUNNER_EXPECTED,
        )
    }
}

#[tactic(auto, using(nextest_tree::proofs::Reading::leaf_read))]
impl Record for WrapperScriptConfig {
    ghost fields = { wrapper_script_fields };

    ghost is_record = { IsWrapperScript };

    fn keys() -> &'static [Key] {
        &[Key::Command, Key::TargetRunner]
    }

    fn read_fields(
        alloc: Global,
        members: &BTreeMap<String, Tree>,
        walk: &mut Walk,
    ) -> Result<Self, ElementFault> {
        let command = required(alloc, members, Key::Command, walk)?;
        let target_runner = optional(alloc, members, Key::TargetRunner, walk)?;
        Ok(WrapperScriptConfig {
            command,
            target_runner: target_runner.unwrap_or_default(),
        })
    }
}

#[tactic(auto, unfolding(crate::specs::WrapperScript::a_wrapper_script))]
impl Element for WrapperScriptConfig {
    ghost schema = { a_wrapper_script };

    ghost is_value = { InTable IsWrapperScript };

    fn read(alloc: Global, tree: &Tree, walk: &mut Walk) -> Result<Self, ElementFault> {
        read_table(alloc, tree, walk)
    }
}
