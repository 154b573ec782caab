//! Why a run returns no rows.
ghost use Rattle.nextest_sources.specs.Endings.{error_view};
ghost use Rattle.nextest_config.specs.RunView.{refusal_view, TellsEnding};

use crate::profile_error::{ProfileError, ProfileNotFound};
use nextest_sources::ConfigParseError;
use std::alloc::AllocError;
use thiserror::Error;

/// Why a run returns no rows.
#[derive(Debug, Drop, Error)]
pub enum ResolveFault {
    /// The configuration is refused. Running out of memory is not reported this way.
    #[error("{0}")]
    Config(ConfigParseError),
    /// The configuration has no profile of the name.
    #[error("{0}")]
    NoProfile(ProfileNotFound),
    /// A growth of memory was refused.
    #[error("out of memory")]
    Memory,
}

/// The fault of a run whose configuration is refused, or a refusal of memory.
pub(super) fn fault_of_load(error: ConfigParseError) -> ResolveFault
    ensures { TellsEnding (error_view error) (refusal_view result) }
{
    if error.config_file().is_none() {
        return ResolveFault::Memory;
    }
    ResolveFault::Config(error)
}

impl From<ProfileError> for ResolveFault {
    ghost use Rattle.std.specs.Prelude.{◌≡◌};
    ghost use Rattle.nextest_config.specs.RunView.{profile_fault};

    ghost from_gives = { λ error fault. fault ≡ profile_fault error };

    fn from(error: ProfileError) -> ResolveFault {
        match error {
            ProfileError::NotFound(missing) => ResolveFault::NoProfile(missing),
            ProfileError::Memory => ResolveFault::Memory,
        }
    }
}

impl From<AllocError> for ResolveFault {
    ghost use Rattle.std.specs.Prelude.{◌≡◌};
    ghost use Rattle.nextest_config.specs.declared.run.fault.ResolveFault.TheVariants.{Memory};

    ghost from_gives = { λ _ fault. fault ≡ Memory };

    fn from(_error: AllocError) -> ResolveFault {
        ResolveFault::Memory
    }
}
