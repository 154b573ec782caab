//! Features of a configuration that have to be switched on.
ghost use Rattle.std.specs.Prelude.{Some};
ghost use Rattle.nextest_elements.specs.Experimental.{experimental_text};

use std::fmt;

/// A feature of a configuration that has to be switched on.
#[derive(Clone, Copy, Debug, PartialEq, Eq, PartialOrd, Ord)]
pub enum ConfigExperimental {
    /// Scripts that run before tests.
    SetupScripts,
    /// Scripts that run in place of tests, and run them.
    WrapperScripts,
}

impl fmt::Display for ConfigExperimental {
    ghost output = { λ x. Some (experimental_text x) };

    fn fmt<W: fmt::Write>(&self, f: &mut fmt::Formatter<W>) -> fmt::Result {
        f.write_str(match self {
            ConfigExperimental::SetupScripts => "setup-scripts",
            ConfigExperimental::WrapperScripts => "wrapper-scripts",
        })
    }
}
