//! What the program does, over readers of files and writers of its own choosing.
ghost use Rattle.std.specs.Prelude.{◌≡◌, ◌⊎◌, IsOk, IfOk, map, option_map, string_bytes};
ghost use Rattle.std.specs.Option.{option_map_or};
ghost use Rattle.std.specs.Io.KnownBytes.{Appends};
ghost use Rattle.nextest_config.specs.RowView.{row_view};
ghost use Rattle.nextest_engines.specs.Engines.{test_view};
ghost use Rattle.nextest_explain.specs.Explained.{usual_host, asked_test, AreRowsFor, AreAskedRows, Explains};
ghost use Rattle.nextest_explain.specs.Files.{sources_view};
ghost use Rattle.nextest_explain.specs.Lines.{lines_telling};
ghost use Rattle.nextest_explain.specs.Statuses.{IsRefusalStatus, IsStatus};
ghost use Rattle.nextest_explain.specs.Writing.{AppendsPrefix};

use crate::command::Command;
use crate::engines::filters::{ToyFilters, ToyTally};
use crate::engines::platforms::ToySpecs;
use crate::failure::{Failure, OUT_OF_MEMORY};
use crate::options::Places;
use crate::sources::Sources;
use crate::writing::{ExplainFault, write_rows};
use nextest_config::run::{ResolveFault, TestRow, resolve};
use nextest_config::{BinaryQuery, BuildPlatforms, DefaultConfigWarnings, ParseContext, TestQuery};
use nextest_sources::FileReader;
use std::alloc::{AllocError, Global};
use std::io::{self, Write};

/// The triple of the host where none is named.
const HOST: &str = "x86_64-unknown-linux-gnu";

/// Explains what a configuration gives a test, and returns the exit status: 0, or 2 for a usage
/// fault, 3 for a refused configuration, 4 where there is no such profile, 5 if memory ran out, 6
/// where a write fails. Warnings come first, also before a refusal. With status 0 the lines are those
/// of the rows that resolve the request of the command that the words give, over the files that it
/// names. After a write or a flush that failed nothing more is written: standard output then holds a
/// prefix of these lines.
pub fn explain<R: FileReader, O: Write, E: Write>(
    alloc: Global,
    words: &[String],
    files: &R,
    out: &mut O,
    err: &mut E,
) -> u8
    ensures status { IsStatus result }
    ensures quiet { (result ≡ 0) ⊎ (result ≡ 6) ⊎ (O.contents out.new ≡ O.contents out.old) }
    ensures lines { result ≡ 0 → Explains Appends (R.MayGive files.now)
        (map string_bytes words.now) (O.contents out.old) (O.contents out.new) }
    ensures begun { result ≡ 6 → (O.contents out.new ≡ O.contents out.old)
        ⊎ Explains AppendsPrefix (R.MayGive files.now)
        (map string_bytes words.now) (O.contents out.old) (O.contents out.new) }
{
    let mut warnings = DefaultConfigWarnings::new(alloc);
    let answer = run(alloc, words, files, &mut warnings);
    let Ok(warning_lines) = warning_text(alloc, &warnings) else {
        return refuse_for_memory(err);
    };
    if err.write_all(warning_lines.as_bytes()).is_err() {
        return 6;
    }
    match answer {
        Ok(asked) => tell(alloc, &asked.rows, asked.places, out, err),
        Err(failure) => refuse(alloc, &failure, err),
    }
}

/// Reports that memory ran out, without taking any, and returns the exit status as `explain` does.
pub fn refuse_for_memory<E: Write>(err: &mut E) -> u8
    ensures status { (result ≡ 5) ⊎ (result ≡ 6) }
    ensures message { (result ≡ 6)
        ⊎ Appends (E.contents err.old) (E.contents err.new) OUT_OF_MEMORY.now }
{
    status_of_write(err.write_all(OUT_OF_MEMORY.as_bytes()), 5)
}

/// Reports a failure, and returns the exit status.
fn refuse<E: Write>(alloc: Global, failure: &Failure, err: &mut E) -> u8
    ensures { IsRefusalStatus result ⊎ (result ≡ 6) }
{
    match failure.render(alloc) {
        Ok(text) => status_of_write(err.write_all(text.as_bytes()), failure.status()),
        Err(_) => refuse_for_memory(err),
    }
}

/// The status, unless the last write failed.
fn status_of_write(written: io::Result<()>, status: u8) -> u8
    ensures status { (result ≡ status) ⊎ (result ≡ 6) }
    ensures failed { (result ≡ 6) ⊎ IsOk written }
{
    match written {
        Ok(()) => status,
        Err(_) => 6,
    }
}

/// The lines of warnings.
fn warning_text(alloc: Global, warnings: &DefaultConfigWarnings) -> Result<String, AllocError> {
    let lines = warnings.lines(alloc)?;
    let mut text = String::new(alloc);
    for line in &lines {
        text.push_str(line.as_str())?;
        text.push_str("\n")?;
    }
    Ok(text)
}

/// The rows that the arguments request, and how their lines show places.
#[derive(Drop)]
struct Asked {
    rows: Vec<TestRow>,
    places: Places,
}

/// Writes the lines of rows, and returns the exit status.
fn tell<O: Write, E: Write>(
    alloc: Global,
    rows: &[TestRow],
    places: Places,
    out: &mut O,
    err: &mut E,
) -> u8
    ensures status { (result ≡ 0) ⊎ (result ≡ 5) ⊎ (result ≡ 6) }
    ensures quiet { (result ≡ 0) ⊎ (result ≡ 6) ⊎ (O.contents out.new ≡ O.contents out.old) }
    ensures lines { result ≡ 0 → Appends (O.contents out.old) (O.contents out.new)
        (lines_telling places (map row_view rows.now)) }
    ensures begun { result ≡ 6 → AppendsPrefix (O.contents out.old) (O.contents out.new)
        (lines_telling places (map row_view rows.now)) }
{
    match write_rows(alloc, rows, places, out) {
        Ok(()) => 0,
        Err(ExplainFault::Write) => 6,
        Err(ExplainFault::Memory) => refuse_for_memory(err),
    }
}

/// The rows that the arguments request.
fn run<R: FileReader>(
    alloc: Global,
    words: &[String],
    files: &R,
    warnings: &mut DefaultConfigWarnings,
) -> Result<Asked, Failure>
    ensures { IfOk result
        (λ asked. AreAskedRows (R.MayGive files.now) (map string_bytes words.now) asked.places
        (map row_view asked.rows.items)) }
{
    let command = Command::parse(alloc, words)?;
    let sources = Sources::read(alloc, &command, files)?;
    let rows = rows(alloc, &command, &sources, warnings)?;
    Ok(Asked {
        rows,
        places: command.options.places,
    })
}

/// The one row of the test of a command.
fn rows(
    alloc: Global,
    command: &Command<'_>,
    sources: &Sources,
    warnings: &mut DefaultConfigWarnings,
) -> Result<Vec<TestRow>, ResolveFault>
    ensures { string_bytes sources.now.paths.workspace_root ≡ command.now.root.now
        → IfOk result (λ rows. AreRowsFor command.now (sources_view sources.now)
        (map row_view rows.items)) }
{
    let Ok(platforms) = platforms_of(alloc, command) else {
        return Err(ResolveFault::Memory);
    };
    let pcx = ParseContext {
        filters: &ToyFilters,
        specs: &ToySpecs,
    };
    resolve(
        alloc,
        &sources.inputs(&command.options),
        &pcx,
        command.profile,
        &platforms,
        command.mode,
        &[test_of(command)],
        warnings,
        &mut ToyTally::new(),
    )
}

/// The platforms of the build.
fn platforms_of(alloc: Global, command: &Command<'_>) -> Result<BuildPlatforms<String>, AllocError>
    ensures host { IfOk result (λ platforms. string_bytes platforms.host
        ≡ option_map_or (λ host. host.now) command.now.options.host usual_host) }
    ensures target { IfOk result (λ platforms. option_map string_bytes platforms.target
        ≡ option_map (λ target. target.now) command.now.options.target) }
{
    let host = match command.options.host {
        Some(host) => host,
        None => HOST,
    };
    let target = match command.options.target {
        Some(target) => Some(String::from_str(alloc, target)?),
        None => None,
    };
    Ok(BuildPlatforms {
        host: String::from_str(alloc, host)?,
        target,
    })
}

/// The test of a command.
fn test_of<'a>(command: &Command<'a>) -> TestQuery<'a>
    ensures { test_view result ≡ asked_test command.now }
{
    TestQuery {
        binary_query: BinaryQuery {
            package_id: "",
            binary_id: command.binary,
            kind: "",
            binary_name: "",
            platform: command.options.platform,
        },
        test_name: command.test,
    }
}
