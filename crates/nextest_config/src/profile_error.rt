//! Why a profile is not given.
use nextest_sources::OneLine;
use std::alloc::AllocError;
use std::error::Error as StdError;
use std::fmt;
use thiserror::Error;

/// A name that no profile has.
#[derive(Debug, Drop)]
pub struct ProfileNotFound {
    /// The name.
    pub name: String,
    /// The names of all profiles, in the order of their bytes.
    pub known: Vec<String>,
}

/// One line: no name leaves it.
impl fmt::Display for ProfileNotFound {
    fn fmt<W: fmt::Write>(&self, f: &mut fmt::Formatter<W>) -> fmt::Result {
        let name = OneLine(self.name.as_str());
        write!(f, "profile `{name}` not found (known profiles: ")?;
        let mut separator = "";
        for name in self.known.iter() {
            write!(f, "{separator}{}", OneLine(name.as_str()))?;
            separator = ", ";
        }
        f.write_str(")")
    }
}

impl StdError for ProfileNotFound {}

/// Why a profile is not given.
#[derive(Debug, Drop, Error)]
pub enum ProfileError {
    /// No profile has the name.
    #[error("{0}")]
    NotFound(ProfileNotFound),
    /// A growth of memory was refused.
    #[error("out of memory")]
    Memory,
}

impl From<AllocError> for ProfileError {
    ghost use Rattle.std.specs.Prelude.{◌≡◌};
    ghost use Rattle.nextest_config.specs.declared.profile_error.ProfileError.TheVariants.{Memory};

    ghost from_gives = { λ _ e. e ≡ Memory };

    fn from(_error: AllocError) -> Self {
        ProfileError::Memory
    }
}
