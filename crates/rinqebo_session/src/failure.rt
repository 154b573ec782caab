//! Why a session or a profile holds nothing.
ghost use Rattle.std.specs.Prelude.{◌≡◌};
ghost use Rattle.rinqebo_session.specs.Statuses.{request_status, engine_status, failure_status, open_status};

use crate::status::{
    MEMORY, NO_ENGINES, NO_PROFILE, NOT_LOADED, NOT_TEXT, NOT_UNDERSTOOD, REFUSED,
};
use nextest_config::{ConfigParseError, ProfileNotFound};
use rinqebo_forms::{EngineFault, RequestFault};
use std::alloc::AllocError;
use thiserror::Error;

/// Why a session holds no configuration.
#[derive(Debug, Drop, Error)]
pub enum Failure {
    /// The request is not valid UTF-8.
    #[error("the request is not valid UTF-8")]
    NotText,
    /// The request is not understood.
    #[error("{0}")]
    Request(RequestFault),
    /// There are no engines for the request.
    #[error("{0}")]
    Engines(EngineFault),
    /// The configuration is refused.
    #[error("{0}")]
    Refused(ConfigParseError),
    /// Memory was refused.
    #[error("out of memory")]
    Memory,
}

impl From<RequestFault> for Failure {
    ghost use Rattle.std.specs.Prelude.{◌≡◌};
    ghost use Rattle.rinqebo_session.specs.declared.failure.Failure.TheVariants.{Request};

    ghost from_gives = { λ fault failure. failure ≡ Request fault };

    fn from(fault: RequestFault) -> Failure {
        Failure::Request(fault)
    }
}

impl From<EngineFault> for Failure {
    ghost use Rattle.std.specs.Prelude.{◌≡◌};
    ghost use Rattle.rinqebo_session.specs.declared.failure.Failure.TheVariants.{Engines};

    ghost from_gives = { λ fault failure. failure ≡ Engines fault };

    fn from(fault: EngineFault) -> Failure {
        Failure::Engines(fault)
    }
}

impl From<AllocError> for Failure {
    ghost use Rattle.std.specs.Prelude.{◌≡◌};
    ghost use Rattle.rinqebo_session.specs.declared.failure.Failure.TheVariants.{Memory};

    ghost from_gives = { λ _ failure. failure ≡ Memory };

    fn from(_error: AllocError) -> Failure {
        Failure::Memory
    }
}

/// The number of a request that is not understood.
fn request_status(fault: &RequestFault) -> u32
    ensures { result ≡ request_status fault.now }
{
    match fault {
        RequestFault::Memory => MEMORY,
        _ => NOT_UNDERSTOOD,
    }
}

/// The number of engines that are not there.
fn engine_status(fault: &EngineFault) -> u32
    ensures { result ≡ engine_status fault.now }
{
    match fault {
        EngineFault::Memory => MEMORY,
        _ => NO_ENGINES,
    }
}

impl Failure {
    /// The number of the failure.
    pub fn status(&self) -> u32
        ensures { result ≡ failure_status self.now }
    {
        match self {
            Failure::NotText => NOT_TEXT,
            Failure::Request(fault) => request_status(fault),
            Failure::Engines(fault) => engine_status(fault),
            Failure::Refused(error) if error.config_file().is_some() => REFUSED,
            Failure::Refused(_) | Failure::Memory => MEMORY,
        }
    }
}

/// Why a profile holds nothing.
#[derive(Debug, Drop, Error)]
pub enum OpenFailure {
    /// The session holds no configuration.
    #[error("the session has no configuration")]
    NotLoaded,
    /// The name is not valid UTF-8.
    #[error("the name of the profile is not valid UTF-8")]
    NotText,
    /// There is no profile of the name.
    #[error("{0}")]
    NotFound(ProfileNotFound),
    /// Memory was refused.
    #[error("out of memory")]
    Memory,
}

impl From<AllocError> for OpenFailure {
    ghost use Rattle.std.specs.Prelude.{◌≡◌};
    ghost use Rattle.rinqebo_session.specs.declared.failure.OpenFailure.TheVariants.{Memory};

    ghost from_gives = { λ _ failure. failure ≡ Memory };

    fn from(_error: AllocError) -> OpenFailure {
        OpenFailure::Memory
    }
}

impl OpenFailure {
    /// The number of the failure.
    pub fn status(&self) -> u32
        ensures { result ≡ open_status self.now }
    {
        match self {
            OpenFailure::NotLoaded => NOT_LOADED,
            OpenFailure::NotText => NOT_TEXT,
            OpenFailure::NotFound(_) => NO_PROFILE,
            OpenFailure::Memory => MEMORY,
        }
    }
}
