//! The engine of platforms. A platform is a triple, kept as a text.
ghost use Rattle.std.specs.Prelude.{◌≡◌, ◌||◌, None, Some, IfOk, option_map, string_bytes};
ghost use Rattle.std.specs.List.{list_all};
ghost use Rattle.nextest_engines.specs.Engines.{without_span, IfSpecRefused};
ghost use Rattle.nextest_explain.specs.Engines.Platforms as messages;
ghost use Rattle.nextest_explain.specs.Engines.Platforms.{Platforms, platforms_of, spec_in, spec_read, other_spec, meets, OnUnix, is_triple_byte};
ghost use Rattle.nextest_explain.specs.Engines.Platforms.{is_cfg as cfg_test, is_triple as triple_test};

use crate::engines::texts::{after, contains, is_ended_by};
use nextest_engines::{Refusal, SpecFault, Specs};
use std::alloc::{AllocError, Global};

/// A platform spec.
#[derive(Debug, Drop)]
pub enum ToySpec {
    /// `cfg(unix)`, which holds on Linux and macOS.
    Unix,
    /// `cfg(windows)`
    Windows,
    /// `cfg(target_os = "linux")`
    Linux,
    /// `cfg(target_os = "macos")`
    MacOs,
    /// Any other `cfg(..)`, of which nothing is known.
    OtherCfg,
    /// The platform of this triple.
    Triple(String),
}

/// The engine of platforms.
#[derive(Drop)]
pub struct ToySpecs;

fn is_cfg(text: &str) -> bool
    ensures { result ≡ cfg_test text.now }
{
    after("cfg(", text).is_some() && is_ended_by(text, ")")
}

fn has_triple_bytes(text: &str) -> bool
    ensures { result ≡ list_all is_triple_byte text.now }
{
    text.as_bytes().iter().all(|byte| byte.is_ascii_alphanumeric()
        || matches!(*byte, b'_' | b'-' | b'.'))
}

fn is_triple(text: &str) -> bool
    ensures { result ≡ triple_test text.now }
{
    !text.is_empty() && has_triple_bytes(text)
}

/// The spec that a text writes, if it is none of the `cfg`s with a meaning.
fn read_other(alloc: Global, text: &str) -> Result<Option<ToySpec>, AllocError>
    ensures { IfOk result (λ spec. option_map platforms_of spec ≡ other_spec text.now) }
{
    if is_cfg(text) {
        return Ok(Some(ToySpec::OtherCfg));
    }
    if is_triple(text) {
        return Ok(Some(ToySpec::Triple(String::from_str(alloc, text)?)));
    }
    Ok(None)
}

/// The spec that a text writes, or `None` where it is none.
fn read_spec(alloc: Global, text: &str) -> Result<Option<ToySpec>, AllocError>
    ensures { IfOk result (λ spec. option_map platforms_of spec ≡ spec_in text.now) }
{
    if text == "cfg(unix)" {
        return Ok(Some(ToySpec::Unix));
    }
    if text == "cfg(windows)" {
        return Ok(Some(ToySpec::Windows));
    }
    if text == "cfg(target_os = \"linux\")" {
        return Ok(Some(ToySpec::Linux));
    }
    if text == "cfg(target_os = \"macos\")" {
        return Ok(Some(ToySpec::MacOs));
    }
    read_other(alloc, text)
}

/// The refusal of a text.
fn no_spec(alloc: Global, text: &str) -> SpecFault
    ensures refusal { IfSpecRefused result
        (λ refusal. refusal ≡ without_span (messages.no_spec text.now)) }
    ensures span { IfSpecRefused result (λ refusal. refusal.span ≡ None) }
{
    match format!(in alloc; "`{text}` is no platform spec") {
        Ok(message) => SpecFault::Refused(Refusal {
            message,
            span: None,
        }),
        Err(_) => SpecFault::Memory,
    }
}

fn is_unix(triple: &str) -> bool
    ensures { Some result ≡ meets OnUnix triple.now }
{
    contains(triple, "linux") || contains(triple, "darwin")
}

impl Specs for ToySpecs {
    type Spec = ToySpec;

    type Platform = String;

    ghost SpecMeaning = { Platforms };

    ghost spec_meaning = { platforms_of };

    ghost read_spec = { λ _ text. spec_read text };

    ghost holds_on = { λ spec platform. meets spec (string_bytes platform) };

    fn parse(&self, alloc: Global, text: &str) -> Result<ToySpec, SpecFault> {
        match read_spec(alloc, text) {
            Ok(Some(spec)) => Ok(spec),
            Ok(None) => Err(no_spec(alloc, text)),
            Err(_) => Err(SpecFault::Memory),
        }
    }

    fn eval(spec: &ToySpec, platform: &String) -> Option<bool> {
        let triple = platform.as_str();
        match spec {
            ToySpec::Unix => Some(is_unix(triple)),
            ToySpec::Windows => Some(contains(triple, "windows")),
            ToySpec::Linux => Some(contains(triple, "linux")),
            ToySpec::MacOs => Some(contains(triple, "darwin")),
            ToySpec::OtherCfg => None,
            ToySpec::Triple(wanted) => Some(triple == wanted.as_str()),
        }
    }
}
