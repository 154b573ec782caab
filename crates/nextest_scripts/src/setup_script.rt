//! Setup scripts.
ghost use Rattle.std.specs.Prelude.{◌≡◌, ◌↔◌, IsFalse, IsTrue};
ghost use Rattle.nextest_tree.specs.Reads.{InTable};
ghost use Rattle.nextest_scripts.specs.SetupScript.{IsSetupScript, a_setup_junit, a_setup_script, full_setup_junit, setup_junit_fields, setup_junit_table, setup_script_fields};

use crate::command::ScriptCommand;
use crate::setup_timeout::SetupScriptSlowTimeout;
use nextest_elements::LeakTimeout;
use nextest_tree::{
    Element, ElementFault, Key, Record, Tree, Walk, optional, read_table, required,
};
use std::alloc::Global;
use std::collections::BTreeMap;

/// What a report keeps of a setup script. By default it keeps all outputs.
#[derive(Clone, Copy, Debug, PartialEq, Eq)]
pub struct SetupScriptJunitConfig {
    /// Whether it keeps the output of a script that passes.
    pub store_success_output: bool,
    /// Whether it keeps the output of a script that fails.
    pub store_failure_output: bool,
}

/// A script that runs once, before the tests that want it.
#[derive(Debug, Drop)]
pub struct SetupScriptConfig {
    /// What it runs.
    pub command: ScriptCommand,
    /// When it counts as slow.
    pub slow_timeout: Option<SetupScriptSlowTimeout>,
    /// How long what it started may outlive it.
    pub leak_timeout: Option<LeakTimeout>,
    /// Whether its standard output is captured.
    pub capture_stdout: bool,
    /// Whether its standard error is captured.
    pub capture_stderr: bool,
    /// What a report keeps of it.
    pub junit: SetupScriptJunitConfig,
}

impl SetupScriptConfig {
    /// Whether some of its output is not captured.
    pub fn no_capture(&self) -> bool
        ensures { IsFalse result
            ↔ (IsTrue self.now.capture_stdout × IsTrue self.now.capture_stderr) }
    {
        !(self.capture_stdout && self.capture_stderr)
    }
}

impl Default for SetupScriptJunitConfig {
    ghost is_default = { λ junit. junit ≡ full_setup_junit };

    fn default() -> Self {
        SetupScriptJunitConfig {
            store_success_output: true,
            store_failure_output: true,
        }
    }
}

#[tactic(auto, using(nextest_tree::proofs::Reading::leaf_read))]
impl Record for SetupScriptJunitConfig {
    ghost fields = { setup_junit_fields };

    ghost is_record = { λ es junit. junit ≡ setup_junit_table es };

    fn keys() -> &'static [Key] {
        &[Key::StoreSuccessOutput, Key::StoreFailureOutput]
    }

    fn read_fields(
        alloc: Global,
        members: &BTreeMap<String, Tree>,
        walk: &mut Walk,
    ) -> Result<Self, ElementFault> {
        let store_success_output = optional(alloc, members, Key::StoreSuccessOutput, walk)?;
        let store_failure_output = optional(alloc, members, Key::StoreFailureOutput, walk)?;
        let full = SetupScriptJunitConfig::default();
        Ok(SetupScriptJunitConfig {
            store_success_output: store_success_output.unwrap_or(full.store_success_output),
            store_failure_output: store_failure_output.unwrap_or(full.store_failure_output),
        })
    }
}

impl Element for SetupScriptJunitConfig {
    ghost schema = { a_setup_junit };

    ghost is_value = { InTable (λ es junit. junit ≡ setup_junit_table es) };

    fn read(alloc: Global, tree: &Tree, walk: &mut Walk) -> Result<Self, ElementFault> {
        read_table(alloc, tree, walk)
    }
}

#[tactic(auto, using(nextest_tree::proofs::Reading::leaf_read))]
impl Record for SetupScriptConfig {
    ghost fields = { setup_script_fields };

    ghost is_record = { IsSetupScript };

    fn keys() -> &'static [Key] {
        &[
            Key::Command,
            Key::SlowTimeout,
            Key::LeakTimeout,
            Key::CaptureStdout,
            Key::CaptureStderr,
            Key::Junit,
        ]
    }

    fn read_fields(
        alloc: Global,
        members: &BTreeMap<String, Tree>,
        walk: &mut Walk,
    ) -> Result<Self, ElementFault> {
        let command = required(alloc, members, Key::Command, walk)?;
        let slow_timeout = optional(alloc, members, Key::SlowTimeout, walk)?;
        let leak_timeout = optional(alloc, members, Key::LeakTimeout, walk)?;
        let capture_stdout = optional(alloc, members, Key::CaptureStdout, walk)?;
        let capture_stderr = optional(alloc, members, Key::CaptureStderr, walk)?;
        let junit = optional(alloc, members, Key::Junit, walk)?;
        Ok(SetupScriptConfig {
            command,
            slow_timeout,
            leak_timeout,
            capture_stdout: capture_stdout.unwrap_or(false),
            capture_stderr: capture_stderr.unwrap_or(false),
            junit: junit.unwrap_or_default(),
        })
    }
}

#[tactic(auto, unfolding(crate::specs::SetupScript::a_setup_script))]
impl Element for SetupScriptConfig {
    ghost schema = { a_setup_script };

    ghost is_value = { InTable IsSetupScript };

    fn read(alloc: Global, tree: &Tree, walk: &mut Walk) -> Result<Self, ElementFault> {
        read_table(alloc, tree, walk)
    }
}
