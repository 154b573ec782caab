//! Why the program did not write the text of a list whole.
use crate::streams::WriteFault;
use rinqebo_load::Failure;
use std::alloc::AllocError;

/// Why the program did not write the text of a list whole.
#[derive(Drop)]
pub enum ListStop {
    /// A run returns no result. Nothing was written.
    Refused(Failure),
    /// Memory ran out. What was written ends with a whole test.
    Memory,
    /// A write failed. A beginning of the page was written.
    Write,
}

impl From<AllocError> for ListStop {
    ghost use Rattle.std.specs.Prelude.{◌≡◌};
    ghost use Rattle.rinqebo_results.specs.declared.list_stop.ListStop.TheVariants.{Memory};

    ghost from_gives = { λ _ fault. fault ≡ Memory };

    fn from(_error: AllocError) -> ListStop {
        ListStop::Memory
    }
}

impl From<Failure> for ListStop {
    ghost use Rattle.std.specs.Prelude.{◌≡◌};
    ghost use Rattle.rinqebo_results.specs.declared.list_stop.ListStop.TheVariants.{Refused};

    ghost from_gives = { λ failure fault. fault ≡ Refused failure };

    fn from(failure: Failure) -> ListStop {
        ListStop::Refused(failure)
    }
}

impl From<WriteFault> for ListStop {
    ghost use Rattle.std.specs.Prelude.{◌≡◌};
    ghost use Rattle.rinqebo_results.specs.declared.list_stop.ListStop.TheVariants.{Write};

    ghost from_gives = { λ _ fault. fault ≡ Write };

    fn from(_fault: WriteFault) -> ListStop {
        ListStop::Write
    }
}
