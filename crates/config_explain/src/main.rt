//! Explains what a nextest configuration gives a test: each setting with its value and where it
//! comes from.
#![tactic(auto)]

use nextest_explain::{explain, refuse_for_memory};
use nextest_sources::DiskFiles;
use std::process::ExitCode;
use std::rt::Env;
use std::{env, io};

/// The words of the command line, without the program's name.
fn words_of(rt: &(impl Env + AllocGlobal)) -> io::Result<Vec<String>> {
    let mut words = Vec::new(rt.alloc());
    for word in env::args(rt)?.skip(1) {
        words.push(word)?;
    }
    Ok(words)
}

fn main(rt: HostRuntime) -> io::Result<ExitCode> {
    let words = match words_of(&rt) {
        Ok(words) => words,
        Err(error) if error.kind() == io::ErrorKind::OutOfMemory => {
            return Ok(ExitCode::from(refuse_for_memory(&mut rt.stderr())));
        }
        Err(error) => return Err(error),
    };
    let files = DiskFiles { rt: &rt };
    let status = explain(
        rt.alloc(),
        &words,
        &files,
        &mut rt.stdout(),
        &mut rt.stderr(),
    );
    Ok(ExitCode::from(status))
}
