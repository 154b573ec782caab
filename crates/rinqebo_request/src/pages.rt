//! How a command line and variables say that pages are written.
ghost use Rattle.std.specs.Prelude.{◌≡◌, ◌≤◌, ◌&&◌, ℕ, MatchOption, Some, is_some, not};
ghost use Rattle.rinqebo_request.specs.Lines.{line_of};
ghost use Rattle.rinqebo_request.specs.Requests.{AreColumnsBy, IsColumnCount, IsFormatBy, IsFormatOf, IsListFormat, IsPaperOf, colour_of, is_coloured, when_coloured};
ghost use Rattle.rinqebo_request.specs.Variables.{text_set};

use crate::environment::{Environment, set};
use crate::line::{has, value};
use clap::ArgMatches;
use rinqebo_report::{Colour, Format, Paper};

/// How many columns a line of a page has if no variable says so.
const COLUMNS: usize = 80;

/// The least number of columns that a line of a page may have.
const LEAST_COLUMNS: usize = 20;

/// The format of a word.
fn format_by<'a>(word: &str, environment: &'a Environment) -> Format<'a>
    ensures { IsFormatBy environment.now (Some word.now) result }
{
    match word {
        "json" => Format::Json,
        "short" | "concise" => Format::Concise,
        "github" => Format::Github(set(&environment.workflow_folder).unwrap_or("")),
        _ => Format::Text,
    }
}

/// The format of the output.
pub fn format<'a>(matches: &ArgMatches<'a>, environment: &'a Environment) -> Format<'a>
    ensures { IsFormatOf environment.now (line_of matches.now) result }
{
    match value(matches, "format") {
        Some(word) => format_by(word, environment),
        None => Format::Text,
    }
}

/// Whether the output has colours, if neither an option nor a variable says so: on a terminal,
/// without `NO_COLOR`.
fn may_colour(environment: &Environment) -> bool
    ensures { result ≡ (environment.now.is_terminal
        && not (is_some (text_set environment.now.no_colour))) }
{
    match set(&environment.no_colour) {
        Some(_) => false,
        None => environment.is_terminal,
    }
}

/// Whether the output has colours.
fn is_coloured(environment: &Environment, when: &str) -> bool
    ensures { result ≡ is_coloured environment.now when.now }
{
    match when {
        "always" => true,
        "never" => false,
        _ => may_colour(environment),
    }
}

/// When the output has colours, as the user says.
fn when_coloured<'a>(matches: &ArgMatches<'a>, environment: &'a Environment) -> &'a str
    ensures { result.now ≡ when_coloured environment.now (line_of matches.now) }
{
    value(matches, "color")
        .or(set(&environment.colour))
        .unwrap_or("auto")
}

/// The colours of the output.
fn colour<'a>(matches: &ArgMatches<'a>, environment: &'a Environment) -> Colour
    ensures { result ≡ colour_of environment.now (line_of matches.now) }
{
    if is_coloured(environment, when_coloured(matches, environment)) {
        Colour::Coloured
    } else {
        Colour::Plain
    }
}

/// The number of columns that a text is, if it is large enough.
fn column_count(text: &str) -> Option<usize>
    ensures { MatchOption result ((count : ℕ) → ¬ IsColumnCount text.now count)
        (IsColumnCount text.now) }
{
    match text.parse::<usize>() {
        Ok(count) => {
            if count >= LEAST_COLUMNS {
                Some(count)
            } else {
                None
            }
        }
        Err(_) => None,
    }
}

/// How many columns a line of a page has: those of `COLUMNS`, if that is a number that is large
/// enough.
fn columns(environment: &Environment) -> usize
    ensures least { 20 ≤ result }
    ensures are { AreColumnsBy (text_set environment.now.columns) result }
{
    match set(&environment.columns) {
        Some(text) => column_count(text).unwrap_or(COLUMNS),
        None => COLUMNS,
    }
}

/// Whether the output has colours, and how many columns its lines have.
pub fn paper<'a>(matches: &ArgMatches<'a>, environment: &'a Environment) -> Paper
    ensures { IsPaperOf environment.now (line_of matches.now) result }
{
    Paper {
        colour: colour(matches, environment),
        columns: columns(environment),
    }
}

/// The format of the output of `list`.
pub(crate) fn list_format<'a>(matches: &ArgMatches<'a>, environment: &'a Environment) -> Format<'a>
    ensures { IsListFormat environment.now (line_of matches.now) result }
{
    match format(matches, environment) {
        Format::Text => {
            if has(matches, "by") {
                Format::Grouped
            } else {
                Format::Text
            }
        }
        format => format,
    }
}
