//! Reads specs.
ghost use Rattle.std.specs.Prelude.{◌≡◌, ◌<◌, length, IfSome, None, Some, Ok, Err, IfOk, IfErr, MatchOption, option_map, codes};
ghost use Rattle.platform_language.specs.Expressions.{Spec, spec_view};
ghost use Rattle.platform_language.specs.Texts.{text_fault, after_prefix, before_close, triple_in, expression_in, spec_in, IsSpec, LiesIn, IfRefused};
ghost use Rattle.platform_language.specs.Texts.{is_triple_byte as triple_byte_test, first_bad as first_bad_of};

use crate::expression::TargetSpec;
use crate::fault::{Expected, FaultKind, Span, Stop, TargetSpecFault};
use crate::reading::read_body;
use std::alloc::{AllocError, Global};
use thiserror::Error;

/// Why a spec was not read.
#[derive(Debug, Drop, Error)]
pub enum TargetSpecError {
    /// The text is not a spec.
    #[error("{0}")]
    Refused(TargetSpecFault),
    /// A growth of memory was refused.
    #[error("out of memory")]
    Memory,
}

impl From<AllocError> for TargetSpecError {
    ghost use Rattle.platform_language.specs.declared.spec.TargetSpecError.TheVariants.{Memory};

    ghost from_gives = { λ _ error. error ≡ Memory };

    fn from(_error: AllocError) -> TargetSpecError {
        TargetSpecError::Memory
    }
}

fn is_triple_byte(byte: u8) -> bool
    ensures { result ≡ triple_byte_test byte }
{
    byte.is_ascii_alphanumeric() || matches!(byte, b'_' | b'-' | b'.')
}

/// Where the first byte is that no triple has.
fn first_bad(text: &str) -> Option<usize>
    ensures bad { result ≡ first_bad_of text.now }
    ensures below { IfSome result (λ at. at < length text.now) }
{
    text.as_bytes()
        .iter()
        .position(|byte| !is_triple_byte(*byte))
}

fn refused(kind: FaultKind, start: usize, end: usize, expected: Option<Expected>) -> TargetSpecError
    ensures { result ≡ TargetSpecError.Refused (text_fault kind start end expected) }
{
    TargetSpecError::Refused(TargetSpecFault {
        kind,
        span: Span { start, end },
        expected,
    })
}

fn read_triple(alloc: Global, text: &str) -> Result<TargetSpec, TargetSpecError>
    ensures ok { IfOk result (λ spec. triple_in text.now ≡ Ok (spec_view spec)) }
    ensures err { IfErr result (λ error. IfRefused error
        (λ fault. triple_in text.now ≡ Err fault)) }
{
    if text.is_empty() {
        return Err(refused(FaultKind::EmptyText, 0, 0, None));
    }
    match first_bad(text) {
        Some(at) => Err(refused(FaultKind::BadTripleCharacter, at, at + 1, None)),
        None => Ok(TargetSpec::Triple(String::from_str(alloc, text)?)),
    }
}

/// What follows the `cfg(` that a text begins with.
fn after_cfg(text: &str) -> Option<&str>
    ensures { MatchOption result (after_prefix (codes "cfg(") text.now ≡ None)
        (λ inside. after_prefix (codes "cfg(") text.now ≡ Some inside.now) }
{
    text.strip_prefix("cfg(")
}

/// What is before the `)` that ends a text.
fn before_last(text: &str) -> Option<&str>
    ensures { option_map (λ front. front.now) result ≡ before_close text.now }
{
    text.strip_suffix(')')
}

/// Reads the body of an expression in a text.
fn read_expression(
    alloc: Global,
    text: &str,
    body: Option<&str>,
) -> Result<TargetSpec, TargetSpecError>
    ensures ok { IfOk result (λ spec.
        expression_in text.now (option_map (λ b. b.now) body.entry) ≡ Ok (spec_view spec)) }
    ensures err { IfErr result (λ error. IfRefused error (λ fault.
        expression_in text.now (option_map (λ b. b.now) body.entry) ≡ Err fault)) }
{
    let Some(body) = body else {
        return Err(refused(FaultKind::Unexpected, 3, 4, Some(Expected::BehindKey)));
    };
    match read_body(alloc, body) {
        Ok(expression) => Ok(TargetSpec::Expression(expression)),
        Err(Stop::Fault(fault)) => Err(TargetSpecError::Refused(fault.in_text(text.len()))),
        Err(Stop::Memory) => Err(TargetSpecError::Memory),
    }
}

fn read_text(alloc: Global, text: &str) -> Result<TargetSpec, TargetSpecError>
    ensures ok { IfOk result (λ spec. spec_in text.now ≡ Ok (spec_view spec)) }
    ensures err { IfErr result (λ error. IfRefused error
        (λ fault. spec_in text.now ≡ Err fault)) }
{
    match after_cfg(text) {
        Some(inside) => read_expression(alloc, text, before_last(inside)),
        None => read_triple(alloc, text),
    }
}

impl TargetSpec {
    /// Reads a spec: the one that the text writes, or else its first fault.
    pub fn parse(alloc: Global, text: &str) -> Result<TargetSpec, TargetSpecError>
        ensures ok { IfOk result (λ spec. spec_in text.now ≡ Ok (spec_view spec)) }
        ensures err { IfErr result (λ error. IfRefused error
            (λ fault. spec_in text.now ≡ Err fault)) }
        ensures inside { IfErr result (λ error. IfRefused error (LiesIn text.now)) }
        ensures writes { IfOk result (λ spec. IsSpec text.now (spec_view spec)) }
        ensures none { IfErr result (λ error. IfRefused error
            (λ fault. (s : Spec) → IsSpec text.now s → ⊥)) }
    {
        read_text(alloc, text)
    }
}
