//! Reports in each of their forms, and the pages of codes.
//!
//! A row has words with tabs between them, in which `\n`, `\t`, `\e` and `\\` are the end of a line,
//! a tab, an escape and a backslash; `-` means nothing. It is one of these:
//!
//! | Line | Meaning |
//! |---|---|
//! | `case NAME ROOT` | a report begins, of a workspace with this root |
//! | `source KIND TOOL PATH` | a source: `default`, `tool`, `organisation`, `explicit` or `discovered` |
//! | `asked PROFILE CHAIN MODE HOST TARGET` | what was requested; the chain has spaces in it |
//! | `assumed` | the triple of the host is only assumed |
//! | `explain`, `why KEY`, `list` or `show-config` | the command; without one it is `check` |
//! | `request COMMAND BINARY TEST WHY BY LIST KEY ..` | the request; without it, it names the command alone |
//! | `test BINARY NAME PLATFORM` | a test |
//! | `runs true`, `runs false` | pages show whether the test runs; without it, it runs and they do not |
//! | `ignored` | a list marks the test as ignored |
//! | `setting KEY` | a setting of the test |
//! | `entry KEY`, `hidden KEY` | a leaf of the configuration |
//! | `rule VERDICT` | a rule |
//! | `host`, `target` or `filter`, then `ANSWER TEXT` | a condition of the rule |
//! | `value KIND TEXT` | the value of the setting, rule or leaf: `boolean`, `integer`, `text` or `duration` |
//! | `texts TEXT ..`, `table` | the value is a list of texts, or a table |
//! | `field KEY KIND TEXT` | a member of the table |
//! | `value duration TEXT WRITTEN`, `field KEY duration TEXT WRITTEN` | the same, and how a file writes the duration |
//! | `built-in`, `default-table` | where the setting, rule or leaf comes from, or what says that the test runs |
//! | `profile`, `override` or `script`, then `PROFILE INDEX SOURCE FIRST LAST` and perhaps a range | the same, with the place of the source from 0, and lines |
//! | `file SOURCE FIRST LAST` and perhaps a range | the same, of what is beside all profiles |
//! | `unused`, and such a rule behind it | a rule that holds for no test |
//! | `setup ID ..` | the setup scripts that the tests of a list enable |
//! | `list-wrapper BINARY ID` | the list wrapper of a binary |
//! | `finding LEVEL CODE MESSAGE` | what is wrong |
//! | `at SOURCE FIRST LAST COLUMN` and perhaps a range | where it is |
//! | `path KEYS` | the keys that lead to it |
//! | `expression TEXT FROM TO` | the expression, and the span of it that is wrong |
//! | `line NUMBER TEXT` | a line of the file that shows it |
//! | `part SIGN FROM TO` | a part of that line, with `blank`, `fault` or `related` below it |
//! | `expected TEXT`, `note TEXT`, `help TEXT` | remarks on it |
//! | `help-beside TEXT` | help that pages show beside the carets |
//! | `upstream NAME` | the name that nextest-runner has for it |
//! | `findings LEVEL CODE MESSAGE COUNT` | so many findings that are alike |
//! | `unreached SOURCE NAME ..` | checks that were not reached |
//! | `print FORM ..` | what is printed: `text`, `colour`, `grouped`, `json`, `findings`, `concise`, `coloured-concise` or `github:FOLDER` |
//! | `nearest NAME KNOWN ..` | the known name that is nearest to a name is printed |
//! | `codes` | the document of the codes of findings is printed, and their list |
//! | `code WORD` | the page of a code is printed |
//!
//! A range is the line and the column of its start, and then those of its end. A page has 200
//! columns, or the number behind its form and a colon, as in `text:40`.
mod builder;
mod codes;
mod found;
mod line;
mod parts;
mod print;
mod requests;

use crate::row::RowError;
pub use builder::Builder;
use line::Line;
use print::printed;
use std::alloc::Global;

/// What is printed for a row: nothing, for most.
pub fn answer_to(
    alloc: Global,
    builder: &mut Builder,
    row: &str,
) -> Result<Option<String>, RowError> {
    let line = Line::read(alloc, row)?;
    let text = printed(alloc, builder, &line)?;
    match text.as_str().strip_suffix("\n") {
        Some(lines) => Ok(Some(String::from_str(alloc, lines)?)),
        None => Ok(None),
    }
}
