//! The command `diff` and its options.
ghost use Rattle.std.specs.Prelude.{◌≡◌, IfOk, map};
ghost use Rattle.clap.specs.declared.builder.value_parser.ValueParser.{ValueParser};
ghost use Rattle.rinqebo_request.specs.ArgumentTable.{Adds, IsArgument, IsChoice, mode_words};
ghost use Rattle.rinqebo_diff.specs.DiffArguments.{IsDiffCommand, right_rule, right_rules};
ghost use Rattle.rinqebo_diff.specs.RightLine.{right_names};

use clap::{Arg, ArgAction, Command};
use rinqebo_request::options::{
    MODES, flag, keys, option, with_files, with_output, with_platforms, with_profile, word,
};
use std::alloc::{AllocError, Global};

/// The formats of a diff.
const DIFF_FORMATS: &[&str] = &["text", "json", "github", "markdown"];

/// The help of the option that chooses among them.
const DIFF_FORMATS_HELP: &str = "Format: text, json, github or markdown\n[default: text]";

/// What is below the help of `diff`.
const DIFF_NOTES: &str = "\
Each --to-X replaces --X on the right side, and one of them is needed:
--to-profile, --to-mode, --to-root, --to-config-file, --to-tool-config-file,
--to-organisation-config-file, --to-host, --to-target, --to-host-cfg,
--to-target-cfg, --to-metadata, and --to-list for LIST

Examples:
  rinqebo diff list.json -P ci --to-config-file new.toml
  rinqebo diff list.json -P default --to-profile ci retries slow-timeout
  rinqebo diff old.json --to-list new.json

Exit status:
  0  nothing changes
  1  something changes
  2  invalid command line, list, metadata or platform
  3  error in a configuration file
  4  no such profile
  5  out of memory
  6  the output could not be written";

/// The options that replace options of the right side, with the names of their values.
pub const TO_OPTIONS: [(&str, &str); 12] = [
    ("to-profile", "PROFILE"),
    ("to-mode", "MODE"),
    ("to-root", "DIR"),
    ("to-config-file", "FILE"),
    ("to-tool-config-file", "TOOL:PATH"),
    ("to-organisation-config-file", "P"),
    ("to-host", "TRIPLE"),
    ("to-target", "TRIPLE"),
    ("to-host-cfg", "FILE"),
    ("to-target-cfg", "FILE"),
    ("to-metadata", "FILE"),
    ("to-list", "LIST"),
];

/// An option of the right side. The help shows them all at its end, so that its lines stay short.
fn right_option<'a>(alloc: Global, name: &'a str, value: &'a str) -> Arg<'a>
    ensures { (modes : ValueParser) × IsChoice mode_words modes
        × IsArgument (right_rule modes name.entry.now) result }
{
    let help = "In place of the option without `to-`, on the right side";
    let one = option(alloc, name, value, help).hide(true);
    match name {
        "to-mode" => one.value_parser(MODES).hide_possible_values(true),
        "to-tool-config-file" => one.action(ArgAction::Append),
        _ => one,
    }
}

/// Adds options of the right side, which have these names and names of values.
fn with_options<'a>(
    alloc: Global,
    command: Command<'a>,
    options: &'a [(&'a str, &'a str)],
) -> Result<Command<'a>, AllocError>
    ensures { map (λ option. option.0.now) options.entry.now ≡ right_names
        → IfOk result (λ added. (modes : ValueParser) × IsChoice mode_words modes
        × Adds (right_rules modes) command.entry added) }
{
    let mut command = command;
    for (name, value) in options {
        command = command.arg(right_option(alloc, *name, *value))?;
    }
    Ok(command)
}

/// Adds the options of the right side.
fn with_right_side<'a>(alloc: Global, command: Command<'a>) -> Result<Command<'a>, AllocError>
    ensures { IfOk result (λ added. (modes : ValueParser) × IsChoice mode_words modes
        × Adds (right_rules modes) command.entry added) }
{
    with_options(alloc, command, &TO_OPTIONS)
}

/// The command that compares two sides.
pub fn diff_command<'a>(alloc: Global) -> Result<Command<'a>, AllocError>
    ensures { IfOk result IsDiffCommand }
{
    let list = word(
        alloc,
        "LIST",
        "Output of `cargo nextest list --message-format json`,\nor - for standard input",
    );
    let command = Command::new(alloc, "diff")
        .about("Show which tests change between two files, profiles or lists")
        .after_help(DIFF_NOTES)
        .arg(list.required(true))?
        .arg(keys(
            alloc,
            "Settings to compare, or a table of them, or `runs`\n[default: all]",
        ))?
        .arg(flag(alloc, "all", "List each test of a group"))?
        .arg(flag(
            alloc,
            "origins",
            "Also show tests whose values are the same\nand come from elsewhere",
        ))?;
    let command = with_profile(alloc, command)?;
    let command = with_files(alloc, command)?;
    let command = with_platforms(alloc, command)?;
    let command = with_right_side(alloc, command)?;
    with_output(alloc, command, DIFF_FORMATS, DIFF_FORMATS_HELP)
}
