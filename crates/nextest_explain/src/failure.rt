//! Why the program ends without the lines of a test, and what it prints of it.
ghost use Rattle.nextest_explain.specs.Statuses.{IsRefusalStatus};

use crate::command::{CommandError, USAGE};
use nextest_config::run::ResolveFault;
use std::alloc::{AllocError, Global};

/// Why the program ends without the lines of a test.
#[derive(Drop)]
pub enum Failure {
    /// The words are not a command.
    Usage,
    /// The run returns no row.
    Refused(ResolveFault),
    /// Memory was refused.
    Memory,
}

/// What standard error shows if memory ran out.
pub const OUT_OF_MEMORY: &str = "error: out of memory\n";

impl From<AllocError> for Failure {
    fn from(_error: AllocError) -> Failure {
        Failure::Memory
    }
}

impl From<CommandError> for Failure {
    fn from(error: CommandError) -> Failure {
        match error {
            CommandError::Usage => Failure::Usage,
            CommandError::Memory => Failure::Memory,
        }
    }
}

impl From<ResolveFault> for Failure {
    fn from(fault: ResolveFault) -> Failure {
        Failure::Refused(fault)
    }
}

impl Failure {
    /// The exit status.
    pub fn status(&self) -> u8
        ensures { IsRefusalStatus result }
    {
        match self {
            Failure::Usage => 2,
            Failure::Refused(ResolveFault::Config(_)) => 3,
            Failure::Refused(ResolveFault::NoProfile(_)) => 4,
            Failure::Refused(ResolveFault::Memory) | Failure::Memory => 5,
        }
    }

    /// What standard error shows of it: one line, and where a configuration is refused details
    /// behind it, on lines that begin with two spaces.
    pub fn render(&self, alloc: Global) -> Result<String, AllocError> {
        match self {
            Failure::Usage => format!(in alloc; "{USAGE}\n"),
            Failure::Refused(ResolveFault::Config(error)) => format!(in alloc; "error: {error}\n"),
            Failure::Refused(ResolveFault::NoProfile(missing)) => {
                format!(in alloc; "error: {missing}\n")
            }
            Failure::Refused(ResolveFault::Memory) | Failure::Memory => {
                String::from_str(alloc, OUT_OF_MEMORY)
            }
        }
    }
}
