//! What a user requests, as a report shows it.
ghost use Rattle.std.specs.Prelude.{◌≡◌, IfOk, map, option_map, string_bytes};
ghost use Rattle.nextest_inheritance.specs.View.{borrowed_view};
ghost use Rattle.rinqebo_results.specs.Requested.{IsRequestedOf, is_assumed, mode_reported};

use nextest_config::NextestRunMode;
use rinqebo_load::{Session, TripleSource};
use rinqebo_report::{Asked, RunMode};
use std::alloc::{AllocError, Global};

/// Copies of names.
fn copied_names(alloc: Global, names: &[&str]) -> Result<Vec<String>, AllocError>
    ensures { IfOk result (λ copies. map string_bytes copies.items ≡ borrowed_view names.now) }
{
    let mut copies = Vec::new(alloc);
    for name in names {
        copies.push(String::from_str(alloc, *name)?)?;
    }
    Ok(copies)
}

/// A copy of a triple, if there is one.
fn copied(alloc: Global, triple: &Option<String>) -> Result<Option<String>, AllocError>
    ensures { IfOk result (λ copy. option_map string_bytes copy
        ≡ option_map string_bytes triple.now) }
{
    match triple {
        Some(triple) => Ok(Some(String::from_str(alloc, triple.as_str())?)),
        None => Ok(None),
    }
}

/// What tests are run for, as a report shows it.
fn reported_mode(mode: NextestRunMode) -> RunMode
    ensures { result ≡ mode_reported mode }
{
    match mode {
        NextestRunMode::Test => RunMode::Test,
        NextestRunMode::Benchmark => RunMode::Benchmark,
    }
}

/// Whether the program assumes a triple, since nothing names one.
fn is_assumed(source: TripleSource) -> bool
    ensures { result ≡ is_assumed source }
{
    matches!(source, TripleSource::Fallback)
}

/// What a user requests.
pub fn requested_of(
    alloc: Global,
    session: &Session<'_>,
    profile: &str,
    chain: &[&str],
    mode: NextestRunMode,
) -> Result<Asked, AllocError>
    ensures { IfOk result
        (IsRequestedOf session.now profile.now mode (borrowed_view chain.now)) }
{
    Ok(Asked {
        profile: String::from_str(alloc, profile)?,
        chain: copied_names(alloc, chain)?,
        mode: reported_mode(mode),
        host: String::from_str(alloc, session.triples.host.as_str())?,
        assumes_host: is_assumed(session.triples.host_source),
        target: copied(alloc, &session.triples.target)?,
    })
}
