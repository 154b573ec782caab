//! The language of platforms.
ghost use Rattle.std.specs.Prelude.{◌≡◌, List, ℕ, Bool, Option, Result, Ok, Err, IfOk, IfErr};
ghost use Rattle.nextest_engines.specs.Engines.{RefusalText, IfSpecRefused, PointsInto};

use crate::refusal::Refusal;
use std::alloc::Global;
use thiserror::Error;

/// Why a platform spec was not read.
#[derive(Debug, Drop, Error)]
pub enum SpecFault {
    /// The text is not a platform spec.
    #[error("{0}")]
    Refused(Refusal),
    /// A growth of memory was refused.
    #[error("out of memory")]
    Memory,
}

/// The language of platforms.
pub trait Specs {
    /// A platform spec that was read.
    type Spec: Drop;
    /// A platform.
    type Platform;

    /// What specs mean.
    ghost SpecMeaning: { Type 0 };

    /// What a spec means.
    ghost spec_meaning: { Self.Spec → SpecMeaning };

    /// What a text means, or its refusal: the message, and the part of the text that is at fault, if
    /// the engine has one.
    ghost read_spec: { Self → List ℕ → Result SpecMeaning RefusalText };

    /// Whether a platform meets a spec, or none where that is unknown.
    ghost holds_on: { SpecMeaning → Self.Platform → Option Bool };

    /// Reads a platform spec.
    fn parse(&self, alloc: Global, text: &str) -> Result<Self::Spec, SpecFault>
        ensures ok { IfOk result (λ spec. read_spec self.now text.now ≡ Ok (spec_meaning spec)) }
        ensures err { IfErr result
            (λ fault. IfSpecRefused fault
            (λ refusal. read_spec self.now text.now ≡ Err refusal)) }
        ensures span { IfErr result (λ fault. IfSpecRefused fault (PointsInto text.now)) };

    /// Whether a platform meets a spec, or `None` where that is unknown.
    fn eval(spec: &Self::Spec, platform: &Self::Platform) -> Option<bool>
        ensures { result ≡ holds_on (spec_meaning spec.now) platform.now };
}
