//! The kinds of scripts.

ghost use Rattle.std.specs.Prelude.{Some};

use std::fmt;

/// What a script is: setup scripts come before wrappers.
#[derive(Clone, Copy, Debug, PartialEq, Eq, PartialOrd, Ord, Hash)]
pub enum ScriptType {
    /// Runs once, before the tests that want it.
    Setup,
    /// Runs round each test that wants it.
    Wrapper,
}

impl fmt::Display for ScriptType {
    ghost use Rattle.nextest_scripts.specs.ScriptType.{script_type_text};

    ghost output = { λ kind. Some (script_type_text kind) };

    fn fmt<W: fmt::Write>(&self, f: &mut fmt::Formatter<W>) -> fmt::Result {
        match self {
            ScriptType::Setup => f.write_str("setup"),
            ScriptType::Wrapper => f.write_str("wrapper"),
        }
    }
}

/// How a profile uses a script.
#[derive(Clone, Copy, Debug, PartialEq, Eq)]
pub enum ProfileScriptType {
    /// As a setup script.
    Setup,
    /// Round a test binary while its tests are listed.
    ListWrapper,
    /// Round a test while it runs.
    RunWrapper,
}

impl fmt::Display for ProfileScriptType {
    ghost use Rattle.nextest_scripts.specs.ScriptType.{profile_script_type_text};

    ghost output = { λ kind. Some (profile_script_type_text kind) };

    fn fmt<W: fmt::Write>(&self, f: &mut fmt::Formatter<W>) -> fmt::Result {
        match self {
            ProfileScriptType::Setup => f.write_str("setup"),
            ProfileScriptType::ListWrapper => f.write_str("list-wrapper"),
            ProfileScriptType::RunWrapper => f.write_str("run-wrapper"),
        }
    }
}
