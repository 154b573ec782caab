//! The engine of platforms, called through its trait.
use nextest_engines::{SpecFault, Specs};
use platform_language::{Platform, TargetSpecs};
use std::alloc::{AllocError, Global};
use std::test::Fail;

/// The value of a spec on a platform as it prints, or the message that refuses its text.
fn answer<S: Specs>(
    engine: &S,
    alloc: Global,
    text: &str,
    platform: &S::Platform,
) -> Result<String, AllocError> {
    let spec = match engine.parse(alloc, text) {
        Ok(spec) => spec,
        Err(SpecFault::Refused(refusal)) => return Ok(refusal.message),
        Err(SpecFault::Memory) => return Err(AllocError),
    };
    let value = S::eval(&spec, platform);
    format!(in alloc; "{value:?}")
}

#[test]
fn answers_through_the_trait(rt: HostRuntime) -> Result<(), Fail> {
    let alloc = rt.alloc();
    let platform = Platform::builtin(alloc, "x86_64-unknown-linux-gnu")?;
    for (text, wanted) in [
        ("cfg(unix)", "Some(true)"),
        ("cfg(windows)", "Some(false)"),
        ("cfg(target_feature = \"sse2\")", "None"),
        ("x86_64-unknown-linux-gnu", "Some(true)"),
        (
            "cfg(target_os = \"macos)",
            "error parsing cfg() expression: unclosed quotes at bytes 16..22",
        ),
        (
            "cfg(target_os = \"linux",
            "error parsing cfg() expression: expected one of `=`, `,`, `)` here at bytes 3..4",
        ),
        (
            "cfg(all)",
            "error parsing cfg() expression: expected a `(` here at bytes 4..7",
        ),
        (
            "x86 64",
            "invalid triple: expected a letter, a digit, `_`, `-` or `.` at bytes 3..4",
        ),
        (
            "",
            "invalid triple: expected a triple or `cfg(` at bytes 0..0",
        ),
    ] {
        let answer = answer(&TargetSpecs, alloc, text, &platform)?;
        assert_eq!(rt; answer.as_str(), wanted, "of {text:?}");
    }
    Ok(())
}
