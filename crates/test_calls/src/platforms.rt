//! Platforms of the table, and of what a compiler prints.
use platform_language::{CfgLine, Platform, PlatformFault};
use std::alloc::{AllocError, Global};
use std::test::Fail;

const PRINTED: &str =
    "overflow_checks\r\npanic=\"unwind\"\n\ntarget_arch=\"x86_64\"\ntarget_os=\"a\"b\"\ntarget_has_atomic\nunix";

fn shown(alloc: Global, lines: &[CfgLine]) -> Result<String, AllocError> {
    let mut text = String::new(alloc);
    for line in lines {
        text.push_str(line.key.as_str())?;
        if let Some(value) = &line.value {
            text.push_str("=")?;
            text.push_str(value.as_str())?;
        }
        text.push_str(";")?;
    }
    Ok(text)
}

#[test]
fn reads_what_is_printed(rt: HostRuntime) -> Result<(), Fail> {
    let platform = Platform::from_rustc_cfg(rt.alloc(), "mine", PRINTED)?;
    let lines = shown(rt.alloc(), &platform.lines)?;
    assert_eq!(rt;
        lines.as_str(),
        "overflow_checks;panic=unwind;target_arch=x86_64;target_os=a\"b;target_has_atomic;unix;target_env=;target_abi=;"
    );
    assert_eq!(rt; platform.triple.as_str(), "mine");
    assert!(rt; !platform.features_given);
    Ok(())
}

#[test]
fn tells_the_first_bad_line(rt: HostRuntime) -> Result<(), Fail> {
    let alloc = rt.alloc();
    for (text, fault) in [
        ("unix\n\n9\n=\n", PlatformFault::BadLine(3)),
        ("target_arch=\"x\"\n k=\"v\"", PlatformFault::BadLine(2)),
        ("k=\"", PlatformFault::BadLine(1)),
        ("k=v", PlatformFault::BadLine(1)),
        ("unix\r", PlatformFault::BadLine(1)),
        ("target_arch=\"x\"\nunix", PlatformFault::NotACfgList),
        ("target_os=\"\"\ntarget_arch\n", PlatformFault::NotACfgList),
        ("", PlatformFault::NotACfgList),
    ] {
        let read = Platform::from_rustc_cfg(alloc, "mine", text).map(|_made| ());
        assert_eq!(rt; read, Err(fault), "of {text:?}");
    }
    Ok(())
}

#[test]
fn knows_the_table(rt: HostRuntime) -> Result<(), Fail> {
    let platform = Platform::builtin(rt.alloc(), "thumbv7em-none-eabihf")?.with_features();
    let lines = shown(rt.alloc(), &platform.lines)?;
    assert_eq!(rt;
        lines.as_str(),
        "target_arch=arm;target_vendor=unknown;target_os=none;target_env=;target_abi=eabihf;target_endian=little;target_pointer_width=32;panic=abort;target_has_atomic=16;target_has_atomic=32;target_has_atomic=8;target_has_atomic=ptr;"
    );
    assert!(rt; platform.features_given);
    let unknown = Platform::builtin(rt.alloc(), "thumbv7em-none").map(|_made| ());
    assert_eq!(rt; unknown, Err(PlatformFault::UnknownTriple));
    Ok(())
}
