//! The engine of platforms.
ghost use Rattle.platform_language.specs.Platforms.Platforms.{platform_view};
ghost use Rattle.platform_language.specs.Expressions.{Spec, spec_view};
ghost use Rattle.platform_language.specs.Refusals.{fault_span, fault_refusal, spec_read};
ghost use Rattle.platform_language.specs.Values.{spec_value};
ghost use Rattle.nextest_engines.specs.Engines.{span_view, refusal_view, IfSpecRefused, PointsInto};
ghost use Rattle.std.specs.Prelude.{◌≡◌, Ok, Err, IfOk, IfErr};

use crate::expression::TargetSpec;
use crate::fault::TargetSpecFault;
use crate::platforms::Platform;
use crate::spec::TargetSpecError;
use nextest_engines::{LabeledSpan, Refusal, SpecFault, Specs};
use std::alloc::{AllocError, Global};

/// The engine of platforms. It has no state.
#[derive(Clone, Copy, Debug)]
pub struct TargetSpecs;

/// The bytes of a fault, and what is wrong with them.
fn span_of(alloc: Global, fault: TargetSpecFault) -> Result<LabeledSpan, AllocError>
    ensures { IfOk result (λ span. span_view span ≡ fault_span fault) }
{
    Ok(LabeledSpan {
        bytes: fault.span.start..fault.span.end,
        label: String::from_str(alloc, fault.label())?,
    })
}

/// The refusal that says what a fault is, and where.
fn refusal_of(alloc: Global, fault: TargetSpecFault) -> Result<Refusal, AllocError>
    ensures { IfOk result (λ refusal. refusal_view refusal ≡ fault_refusal fault) }
{
    let message = format!(in alloc; "{fault}")?;
    Ok(Refusal {
        message,
        span: Some(span_of(alloc, fault)?),
    })
}

/// The refusal of a text that has a fault.
fn refused(alloc: Global, fault: TargetSpecFault) -> SpecFault
    ensures { IfSpecRefused result (λ refusal. refusal ≡ fault_refusal fault) }
{
    match refusal_of(alloc, fault) {
        Ok(refusal) => SpecFault::Refused(refusal),
        Err(_) => SpecFault::Memory,
    }
}

impl Specs for TargetSpecs {
    type Spec = TargetSpec;

    type Platform = Platform;

    ghost SpecMeaning = { Spec };

    ghost spec_meaning = { spec_view };

    ghost read_spec = { λ _ text. spec_read text };

    ghost holds_on = { λ spec platform. spec_value (platform_view platform) spec };

    #[tactic(auto, using(crate::proofs::Refusals::read_err, crate::proofs::Refusals::points_into))]
    fn parse(&self, alloc: Global, text: &str) -> Result<TargetSpec, SpecFault>
        ensures ok { IfOk result (λ spec. spec_read text.now ≡ Ok (spec_view spec)) }
        ensures err { IfErr result (λ fault. IfSpecRefused fault
            (λ refusal. spec_read text.now ≡ Err refusal)) }
        ensures span { IfErr result (λ fault. IfSpecRefused fault (PointsInto text.now)) }
    {
        match TargetSpec::parse(alloc, text) {
            Ok(spec) => Ok(spec),
            Err(TargetSpecError::Refused(fault)) => Err(refused(alloc, fault)),
            Err(TargetSpecError::Memory) => Err(SpecFault::Memory),
        }
    }

    fn eval(spec: &TargetSpec, platform: &Platform) -> Option<bool> {
        spec.eval(platform)
    }
}
