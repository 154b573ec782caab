//! Cases of test programs: files in memory, and lines of what a program does over them.
//!
//! Empty lines and lines that begin with `#` are comments. A line `case NAME` begins a case. Below it
//! are lines about its files, and lines that the program itself reads:
//!
//! | Line | Meaning |
//! |---|---|
//! | `file PATH` | there is a file at this path; the lines below it that begin with two spaces are its text |
//! | `missing PATH` | there is no file, as at each path that the case doesn't name |
//! | `not-a-directory PATH` | a part of the path that should be a directory is none |
//! | `unreadable PATH` | reading fails with the message `a disk fault` |
//! | `out-of-memory PATH` | there is no memory to read the file |
//! | `part TEXT` | the last file's text goes on with this, without a line's end |
//! | `times N TEXT` | it goes on with this, N times; with `{}` in it, that is the number of the time, from 0, and a line ends behind each |
//! | `char HEX` | it goes on with the character of this number |
#![tactic(auto)]

mod case;
mod files;
mod output;

pub use case::{Case, CaseError, read_cases};
pub use files::{Beginnings, StoredFiles};
pub use output::text_of;
