//! Why a run returns nothing.
use crate::fault::InputFault;
use rinqebo_report::Report;
use std::alloc::AllocError;

/// Why a run returns nothing.
pub enum Failure {
    /// The list of tests, the metadata or the platforms are not understood.
    Engines(InputFault),
    /// The files are refused. The report has what is wrong with them.
    Refused(Report),
    /// There is no such profile. The report has this one finding.
    NoProfile(Report),
    /// There is no such test, or no such binary. The report has this one finding.
    NoTest(Report),
    /// Several tests have the name of the test. The report has this one finding.
    SeveralTests(Report),
    /// Memory was refused.
    Memory,
}

// Written out, so that the proof of a caller sees one call and not the drop of each part.
impl Drop for Failure {
    fn drop(self) {
        match self {
            Failure::Engines(_part) => {}
            Failure::Refused(_part) => {}
            Failure::NoProfile(_part) => {}
            Failure::NoTest(_part) => {}
            Failure::SeveralTests(_part) => {}
            Failure::Memory => {}
        }
    }
}

impl From<AllocError> for Failure {
    ghost use Rattle.std.specs.Prelude.{◌≡◌};
    ghost use Rattle.rinqebo_load.specs.declared.failure.Failure.TheVariants.{Memory};

    ghost from_gives = { λ _ failure. failure ≡ Memory };

    fn from(_error: AllocError) -> Failure {
        Failure::Memory
    }
}

impl From<InputFault> for Failure {
    ghost use Rattle.std.specs.Prelude.{◌≡◌};
    ghost use Rattle.rinqebo_load.specs.Beginning.{failure_of};

    ghost from_gives = { λ fault failure. failure ≡ failure_of fault };

    fn from(fault: InputFault) -> Failure {
        match fault {
            InputFault::Memory => Failure::Memory,
            fault => Failure::Engines(fault),
        }
    }
}
