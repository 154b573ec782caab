//! The host in what the compiler prints of itself.
ghost use Rattle.std.specs.Prelude.{◌≡◌, IfErr, IfOk, MatchOption, None, Some, filter_map, map, option_map, slice_get, string_bytes};
ghost use Rattle.std.specs.Str.Lines.{lines};
ghost use Rattle.rinqebo_load.specs.HostLines.{NamesHost, host_in_lines, host_of_line, printed_host};
ghost use Rattle.rinqebo_load.specs.InputFaults.{LacksHost, OrMemory};
ghost use Rattle.rinqebo_load.specs.ListPath.{path_of};

use crate::fault::InputFault;
use rinqebo_request::{FileOption, Gathered, NamedFile};
use std::alloc::{AllocError, Global};

/// The lines of a text.
fn lines_of(alloc: Global, text: &str) -> Result<Vec<&str>, AllocError>
    ensures { IfOk result (λ found. map (λ line. line.now) found.items ≡ lines text.now) }
{
    text.lines().collect(alloc)
}

/// The triple in a line that has the host.
fn host_of_line(line: &str) -> Option<&str>
    ensures { MatchOption result (host_of_line line.now ≡ None)
        (λ host. host_of_line line.now ≡ Some host.now) }
{
    line.strip_prefix("host: ")
}

/// The triple in the first line that has the host.
fn host_in_lines<'t>(lines: &[&'t str]) -> Option<&'t str>
    ensures { option_map (λ host. host.now) result
        ≡ host_in_lines (map (λ line. line.now) lines.now) }
{
    for line in lines {
        if let Some(host) = host_of_line(*line) {
            return Some(host);
        }
    }
    None
}

/// The triple of the host in the output of `rustc -vV`, if there is one.
pub fn printed_host<'g>(
    alloc: Global,
    path: Option<&str>,
    gathered: &'g Gathered,
) -> Result<Option<&'g str>, InputFault>
    ensures ok { IfOk result (λ host. option_map (λ host. host.now) host
        ≡ printed_host gathered.now.rustc_version) }
    ensures named { IfOk result (λ _. NamesHost gathered.now.rustc_version) }
    ensures err { IfErr result
        (OrMemory (LacksHost (path_of path.entry) gathered.now.rustc_version)) }
{
    let Some(text) = &gathered.rustc_version else {
        return Ok(None);
    };
    let lines = lines_of(alloc, text.as_str())?;
    match host_in_lines(&lines) {
        Some(host) => Ok(Some(host)),
        None => {
            let file = NamedFile::new(alloc, path, FileOption::RustcVersion)?;
            Err(InputFault::NoHost(file))
        }
    }
}
