//! The texts of rules: what the engines make of them, and why they refuse them.
ghost use Rattle.std.specs.Prelude.{◌≡◌, None, IfOk, option_map, string_bytes};
ghost use Rattle.nextest_engines.specs.Engines.{refusal_view};
ghost use Rattle.nextest_sources.specs.Errors.{compile_cause_view};
ghost use Rattle.nextest_rules.specs.CompileFaults.{refusal_cause, refusal_of};
ghost use Rattle.nextest_rules.specs.Refusals.{refusals_view};
ghost use Rattle.nextest_rules.specs.Rules.{meaning_of, with_text};
ghost use Rattle.nextest_rules.specs.View.{read_filter_view};

use crate::overrides::{PlatformSpecs, ReadFilter};
use nextest_engines::{FilterFault, Filters, FiltersetKind, Refusal, SpecFault, Specs};
use nextest_sources::ConfigCompileErrorKind;
use nextest_tables::PlatformStrings;
use std::alloc::{AllocError, Global};

/// Why the engines refuse texts of a rule.
#[derive(Drop)]
pub(crate) struct Refusals {
    pub(crate) host: Option<Refusal>,
    pub(crate) target: Option<Refusal>,
    pub(crate) filter: Option<Refusal>,
    pub(crate) default_filter: Option<Refusal>,
}

impl Refusals {
    /// All refusals as one error, if there is one.
    pub(crate) fn into_error(self) -> Option<ConfigCompileErrorKind>
        ensures { option_map compile_cause_view result ≡ refusal_cause (refusals_view self) }
    {
        let Refusals {
            host,
            target,
            filter,
            default_filter,
        } = self;
        let platforms_are_read = host.is_none() && target.is_none();
        if platforms_are_read && filter.is_none() && default_filter.is_none() {
            return None;
        }
        Some(ConfigCompileErrorKind::Parse {
            host_parse_error: host,
            target_parse_error: target,
            filter_parse_error: filter,
            default_filter_parse_error: default_filter,
        })
    }
}

/// What an engine makes of the text of a platform spec, and why it refuses it.
fn read_spec<S: Specs>(
    alloc: Global,
    specs: &S,
    text: &Option<String>,
) -> Result<(Option<S::Spec>, Option<Refusal>), AllocError>
    ensures meaning { IfOk result (λ read. option_map S.spec_meaning read.0
        ≡ meaning_of (S.read_spec specs.now) (option_map string_bytes text.now)) }
    ensures refusal { IfOk result (λ read. option_map refusal_view read.1
        ≡ refusal_of (S.read_spec specs.now) (option_map string_bytes text.now)) }
{
    let Some(text) = text else {
        return Ok((None, None));
    };
    match specs.parse(alloc, text.as_str()) {
        Ok(spec) => Ok((Some(spec), None)),
        Err(SpecFault::Refused(refusal)) => Ok((None, Some(refusal))),
        Err(SpecFault::Memory) => Err(AllocError),
    }
}

/// What an engine makes of the platform specs of a rule, and why it refuses them.
pub(crate) fn read_platforms<S: Specs>(
    alloc: Global,
    specs: &S,
    platform: &PlatformStrings,
) -> Result<(PlatformSpecs<S>, Refusals), AllocError>
    ensures host { IfOk result (λ read. option_map S.spec_meaning read.0.host
        ≡ meaning_of (S.read_spec specs.now) (option_map string_bytes platform.now.host)) }
    ensures target { IfOk result (λ read. option_map S.spec_meaning read.0.target
        ≡ meaning_of (S.read_spec specs.now) (option_map string_bytes platform.now.target)) }
    ensures refusals { let refusal = refusal_of (S.read_spec specs.now) in
        IfOk result (λ read. refusals_view read.1 ≡ record {
          host = refusal (option_map string_bytes platform.now.host);
          target = refusal (option_map string_bytes platform.now.target);
          filter = None;
          default_filter = None;
        }) }
{
    let (host, host_refusal) = read_spec(alloc, specs, &platform.host)?;
    let (target, target_refusal) = read_spec(alloc, specs, &platform.target)?;
    let refusals = Refusals {
        host: host_refusal,
        target: target_refusal,
        filter: None,
        default_filter: None,
    };
    Ok((PlatformSpecs { host, target }, refusals))
}

/// What an engine makes of the text of a filter, and why it refuses it.
pub(crate) fn read_filter<F: Filters>(
    alloc: Global,
    filters: &F,
    kind: FiltersetKind,
    text: &Option<String>,
) -> Result<(Option<F::Expr>, Option<Refusal>), AllocError>
    ensures meaning { IfOk result (λ read. option_map F.meaning read.0
        ≡ meaning_of (F.read filters.now kind) (option_map string_bytes text.now)) }
    ensures refusal { IfOk result (λ read. option_map refusal_view read.1
        ≡ refusal_of (F.read filters.now kind) (option_map string_bytes text.now)) }
{
    let Some(text) = text else {
        return Ok((None, None));
    };
    match filters.parse(alloc, text.as_str(), kind) {
        Ok(expr) => Ok((Some(expr), None)),
        Err(FilterFault::Refused(refusal)) => Ok((None, Some(refusal))),
        Err(FilterFault::Memory) => Err(AllocError),
    }
}

/// A default filter, beside its text.
pub(crate) fn with_text<F: Filters>(
    expr: Option<F::Expr>,
    text: Option<String>,
) -> Option<ReadFilter<F>>
    ensures { option_map read_filter_view result
        ≡ with_text expr (option_map string_bytes text) }
{
    let text = text?;
    let expr = expr?;
    Some(ReadFilter { expr, text })
}
