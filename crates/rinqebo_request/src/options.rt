//! The commands of the program, and their options.
ghost use Rattle.std.specs.Prelude.{IfOk, codes};
ghost use Rattle.clap.specs.declared.builder.value_parser.ValueParser.{ValueParser};
ghost use Rattle.clap.specs.declared.builder.value_parser.ValueParser.TheVariants as parsers;
ghost use Rattle.rinqebo_request.specs.ArgumentTable.{Adds, AreChoices, AreTestChoices, Choices, IsArgument, IsChoice, IsCommand, IsProgram, check_formats, check_rules, choice_rule, colour_words, command_with, explain_rules, file_rules, flag_rule, keys_rule, list_rules, mode_words, option_rule, output_rules, platform_rules, profile_rule, profile_rules, result_formats, schema_rules, show_rules, test_rules, word_rule};

use clap::{Arg, ArgAction, Command};
use std::alloc::{AllocError, Global};

/// The version of the program.
const VERSION: &str = "0.2.0";

/// The formats of output.
const ANSWER_FORMATS: &[&str] = &["text", "json"];

/// The help of the option that chooses among them.
const ANSWER_FORMATS_HELP: &str = "Output format: text or json\n[default: text]";

/// The formats of findings.
const CHECK_FORMATS: &[&str] = &["text", "json", "short", "concise", "github"];

/// The help of the option that chooses among them.
const CHECK_FORMATS_HELP: &str = "Format: text, json, short or github\n[default: text]";

/// When to use colours.
const COLOURS: &[&str] = &["auto", "always", "never"];

/// The run modes.
pub const MODES: &[&str] = &["test", "benchmark"];

/// What is below the help of the program.
const PROGRAM_NOTES: &str = "\
Examples:
  rinqebo explain api::smoke smoke::whole -P ci
  rinqebo check

`rinqebo <COMMAND> --help` has the examples and exit statuses of a command.";

/// What is below the help of `explain`.
const EXPLAIN_NOTES: &str = "\
Examples:
  rinqebo explain api::smoke smoke::whole
  rinqebo explain api::smoke smoke::whole -P ci retries slow-timeout
  rinqebo explain api::smoke smoke::whole --why retries
  rinqebo explain whole --list list.json -k retries -k junit

Exit status:
  0  success
  2  invalid command line, list, metadata or platform; several tests match
  3  error in a configuration file
  4  no such profile, binary or test
  5  out of memory
  6  the output could not be written";

/// What is below the help of `list`.
const LIST_NOTES: &str = "\
Examples:
  cargo nextest list --message-format json | rinqebo list -P ci -
  rinqebo list list.json retries slow-timeout
  rinqebo list list.json --by test-group
  rinqebo list list.json --rustc-version rustc.txt

Exit status:
  0  success
  2  invalid command line, list, metadata or platform
  3  error in a configuration file
  4  no such profile
  5  out of memory
  6  the output could not be written";

/// What is below the help of `show-config`.
const SHOW_NOTES: &str = "\
Examples:
  rinqebo show-config -P ci
  rinqebo show-config -P ci retries junit.path --hidden
  rinqebo show-config -P ci overrides experimental
  rinqebo show-config default-filter --target x86_64-pc-windows-msvc

Exit status:
  0  success
  1  nothing is set under any KEY
  2  invalid command line, metadata or platform
  3  error in a configuration file
  4  no such profile
  5  out of memory
  6  the output could not be written";

/// What is below the help of `schema`.
const SCHEMA_NOTES: &str = "\
Examples:
  rinqebo schema > nextest.schema.json
  rinqebo schema --document > rinqebo.schema.json

Exit status:
  0  success
  5  out of memory
  6  the output could not be written";

/// What is below the help of `check`.
const CHECK_NOTES: &str = "\
Examples:
  rinqebo check
  rinqebo check --deny warnings --format github
  rinqebo check --explain unknown-key
  rinqebo check - --stdin-path .config/nextest.toml < edited.toml

Exit status:
  0  no errors
  1  warnings, with --deny warnings
  2  invalid command line or metadata
  3  error in a configuration file
  5  out of memory
  6  the output could not be written";

/// An option with a value.
pub fn option<'a>(alloc: Global, name: &'a str, value: &'a str, help: &'a str) -> Arg<'a>
    ensures { IsArgument (option_rule name.entry.now) result }
{
    Arg::new(alloc, name)
        .long(name)
        .value_name(value)
        .action(ArgAction::Set)
        .help(help)
}

/// An option that takes one of some words.
fn choice<'a>(
    alloc: Global,
    name: &'a str,
    value: &'a str,
    words: &'a [&'a str],
    help: &'a str,
) -> Arg<'a>
    ensures { IsArgument (choice_rule name.entry.now (parsers.Names words.entry)) result }
{
    option(alloc, name, value, help)
        .value_parser(words)
        .hide_possible_values(true)
}

/// A flag.
pub fn flag<'a>(alloc: Global, name: &'a str, help: &'a str) -> Arg<'a>
    ensures { IsArgument (flag_rule name.entry.now) result }
{
    Arg::new(alloc, name)
        .long(name)
        .action(ArgAction::SetTrue)
        .help(help)
}

/// A word of the command line that is not an option.
pub fn word<'a>(alloc: Global, name: &'a str, help: &'a str) -> Arg<'a>
    ensures { IsArgument (word_rule name.entry.now) result }
{
    Arg::new(alloc, name)
        .value_name(name)
        .action(ArgAction::Set)
        .help(help)
}

/// Adds the options that name files.
pub fn with_files<'a>(alloc: Global, command: Command<'a>) -> Result<Command<'a>, AllocError>
    ensures { IfOk result (Adds file_rules command.entry) }
{
    let tools = option(
        alloc,
        "tool-config-file",
        "TOOL:PATH",
        "Configuration file of a tool; repeatable,\nthe first has the highest precedence",
    );
    let features = option(
        alloc,
        "experimental",
        "NAME",
        "Enable setup-scripts or wrapper-scripts,\nin addition to the repository file",
    );
    command
        .arg(option(
            alloc,
            "root",
            "DIR",
            "Workspace root [default: search upward]",
        ))?
        .arg(option(
            alloc,
            "config-file",
            "FILE",
            "Repository file\n[default: .config/nextest.toml]",
        ))?
        .arg(option(
            alloc,
            "organisation-config-file",
            "P",
            "Configuration file of the organisation:\nabove those of tools, below the repository",
        ))?
        .arg(tools.action(ArgAction::Append))?
        .arg(features.action(ArgAction::Append))?
        .arg(option(
            alloc,
            "metadata",
            "FILE",
            "File with the output of `cargo metadata\n--format-version 1`: packages and targets",
        ))
}

/// Adds the options that choose the output.
pub fn with_output<'a>(
    alloc: Global,
    command: Command<'a>,
    formats: &'a [&'a str],
    help: &'a str,
) -> Result<Command<'a>, AllocError>
    ensures { IfOk result (λ added. (colours : ValueParser) × IsChoice colour_words colours
        × Adds (output_rules (parsers.Names formats.entry) colours) command.entry added) }
{
    let format = choice(alloc, "format", "FORMAT", formats, help);
    command
        .arg(format.default_value("text").hide_default_value(true))?
        .arg(choice(
            alloc,
            "color",
            "WHEN",
            COLOURS,
            "When to use colour: auto, always or never\n[default: CARGO_TERM_COLOR, else auto]",
        ))
}

/// The help of `--host`, where a list may have the host.
const LISTED_HOST_HELP: &str =
    "Host triple [default: that of\n--rustc-version, else that of LIST, else\nx86_64-unknown-linux-gnu]";

/// The help of `--target`, where a list may have the target.
const LISTED_TARGET_HELP: &str =
    "Target triple [default: that of LIST, else\nCARGO_BUILD_TARGET, else host]";

/// The help of `--host`, where there is no list.
const HOST_HELP: &str =
    "Host triple [default: that of\n--rustc-version, else\nx86_64-unknown-linux-gnu]";

/// The help of `--target`, where there is no list.
const TARGET_HELP: &str = "Target triple\n[default: CARGO_BUILD_TARGET, else host]";

/// Adds the options that describe the platforms of tests, two of them with this help.
fn with_triples<'a>(
    alloc: Global,
    command: Command<'a>,
    host_help: &'a str,
    target_help: &'a str,
) -> Result<Command<'a>, AllocError>
    ensures { IfOk result (Adds platform_rules command.entry) }
{
    let host = option(alloc, "host", "TRIPLE", host_help);
    command
        .arg(host.conflicts_with("rustc-version")?)?
        .arg(option(
            alloc,
            "rustc-version",
            "FILE",
            "Output of `rustc -vV`, which has the host\ntriple",
        ))?
        .arg(option(alloc, "target", "TRIPLE", target_help))?
        .arg(option(
            alloc,
            "host-cfg",
            "FILE",
            "Output of `rustc --print cfg` for the host\n[default: built-in table of targets]",
        ))?
        .arg(option(
            alloc,
            "target-cfg",
            "FILE",
            "Output of `rustc --print cfg --target T`\n[default: built-in table of targets]",
        ))
}

/// Adds the options that describe the platforms of tests, to a command that may read a list.
pub fn with_platforms<'a>(alloc: Global, command: Command<'a>) -> Result<Command<'a>, AllocError>
    ensures { IfOk result (Adds platform_rules command.entry) }
{
    with_triples(alloc, command, LISTED_HOST_HELP, LISTED_TARGET_HELP)
}

/// The KEYs of a command. The help says what the command shows without one.
pub fn keys<'a>(alloc: Global, help: &'a str) -> Arg<'a>
    ensures { IsArgument keys_rule result }
{
    Arg::new(alloc, "KEY")
        .value_name("KEY")
        .num_args(0..)
        .action(ArgAction::Append)
        .help(help)
}

/// The option that names the profile.
fn profile<'a>(alloc: Global) -> Arg<'a>
    ensures { IsArgument profile_rule result }
{
    option(
        alloc,
        "profile",
        "PROFILE",
        "Profile\n[default: NEXTEST_PROFILE, else default]",
    )
    .short('P')
}

/// Adds the options that name the profile and the run mode.
pub fn with_profile<'a>(alloc: Global, command: Command<'a>) -> Result<Command<'a>, AllocError>
    ensures { IfOk result (λ added. (modes : ValueParser) × IsChoice mode_words modes
        × Adds (profile_rules modes) command.entry added) }
{
    let help = "Run mode: test or benchmark\n[default: test]";
    let mode = choice(alloc, "mode", "MODE", MODES, help);
    command
        .arg(profile(alloc))?
        .arg(mode.default_value("test").hide_default_value(true))
}

/// Adds the words and options that name a test, and what to show of it.
fn with_test<'a>(alloc: Global, command: Command<'a>) -> Result<Command<'a>, AllocError>
    ensures { IfOk result (Adds test_rules command.entry) }
{
    let list = option(
        alloc,
        "list",
        "LIST",
        "Find the test in LIST, the output of\n`cargo nextest list --message-format json`\n(- for standard input)",
    );
    let key = option(
        alloc,
        "key",
        "KEY",
        "Show KEY; repeatable. Without BINARY, this\nis how KEYs are named",
    );
    command
        .arg(word(
            alloc,
            "BINARY",
            "Binary id, such as api::smoke; needed without --list",
        ))?
        .arg(word(
            alloc,
            "TEST",
            "Test name; without BINARY, its end behind :: is enough",
        ))?
        .arg(keys(
            alloc,
            "Settings to show, or a table of them, or `runs` [default: all]",
        ))?
        .arg(key.short('k').action(ArgAction::Append))?
        .arg(list)?
        .arg(option(
            alloc,
            "why",
            "KEY",
            "List each rule that could set KEY, and\nwhether and why it applies",
        ))
}

/// The command that explains the settings of a test.
fn explain_command<'a>(alloc: Global) -> Result<Command<'a>, AllocError>
    ensures { IfOk result (λ command. (choices : Choices)
        × AreTestChoices result_formats choices
        × IsCommand (command_with (codes "explain") (explain_rules choices)) command) }
{
    let command = Command::new(alloc, "explain")
        .about("Show the settings of one test, and where each value comes from")
        .after_help(EXPLAIN_NOTES)
        .override_usage("rinqebo explain [OPTIONS] [BINARY] <TEST> [KEY]...");
    let command = with_test(alloc, command)?;
    let command = with_profile(alloc, command)?;
    let command = with_files(alloc, command)?;
    let command = with_platforms(alloc, command)?.arg(flag(
        alloc,
        "host-binary",
        "The binary is built for the host, as those\nof proc-macros are",
    ))?;
    with_output(alloc, command, ANSWER_FORMATS, ANSWER_FORMATS_HELP)
}

/// The command that lists the tests of a workspace with their settings.
fn list_command<'a>(alloc: Global) -> Result<Command<'a>, AllocError>
    ensures { IfOk result (λ command. (choices : Choices)
        × AreTestChoices result_formats choices
        × IsCommand (command_with (codes "list") (list_rules choices)) command) }
{
    let list = word(
        alloc,
        "LIST",
        "Output of `cargo nextest list --message-format json`,\nor - for standard input",
    );
    let command = Command::new(alloc, "list")
        .about("Show the settings of every test, and rules that match none")
        .after_help(LIST_NOTES)
        .arg(list.required(true))?
        .arg(keys(
            alloc,
            "Settings to show, or a table of them, or `runs`\n[default: those that a rule sets]",
        ))?
        .arg(flag(alloc, "all", "Show all settings of each test"))?
        .arg(option(alloc, "by", "KEY", "Group the tests by their value of KEY"))?;
    let command = with_profile(alloc, command)?;
    let command = with_files(alloc, command)?;
    let command = with_platforms(alloc, command)?;
    with_output(alloc, command, ANSWER_FORMATS, ANSWER_FORMATS_HELP)
}

/// The command that shows the leaves of the configuration.
fn show_command<'a>(alloc: Global) -> Result<Command<'a>, AllocError>
    ensures { IfOk result (λ command. (choices : Choices) × AreChoices result_formats choices
        × IsCommand (command_with (codes "show-config") (show_rules choices)) command) }
{
    let hidden = flag(alloc, "hidden", "Also show overridden values");
    let command = Command::new(alloc, "show-config")
        .about("Show a profile's configuration, and where each value comes from")
        .after_help(SHOW_NOTES)
        .arg(keys(
            alloc,
            "Keys of the profile, or of the file beside profiles\n[default: all values]",
        ))?
        .arg(hidden)?
        .arg(profile(alloc))?;
    let command = with_files(alloc, command)?;
    let command = with_triples(alloc, command, HOST_HELP, TARGET_HELP)?;
    with_output(alloc, command, ANSWER_FORMATS, ANSWER_FORMATS_HELP)
}

/// The command that prints a schema.
fn schema_command<'a>(alloc: Global) -> Result<Command<'a>, AllocError>
    ensures { IfOk result (IsCommand (command_with (codes "schema") schema_rules)) }
{
    Command::new(alloc, "schema")
        .about("Print the JSON schema of a configuration file, for editors")
        .after_help(SCHEMA_NOTES)
        .arg(flag(
            alloc,
            "document",
            "Print that of the output of --format json",
        ))
}

/// The command that checks files.
fn check_command<'a>(alloc: Global) -> Result<Command<'a>, AllocError>
    ensures { IfOk result (λ command. (choices : Choices) × AreChoices check_formats choices
        × IsCommand (command_with (codes "check") (check_rules choices)) command) }
{
    let command = Command::new(alloc, "check")
        .about("Report errors and warnings in the configuration files")
        .after_help(CHECK_NOTES)
        .arg(word(
            alloc,
            "FILE",
            "Repository file, or - for standard input\n[default: see --config-file]",
        ))?
        .arg(option(
            alloc,
            "stdin-path",
            "PATH",
            "Path to report for standard input\n[default: -]",
        ))?
        .arg(option(
            alloc,
            "deny",
            "WHAT",
            "Exit with status 1 on WHAT: warnings",
        ))?
        .arg(flag(alloc, "deny-warnings", "The same as --deny warnings"))?
        .arg(option(
            alloc,
            "explain",
            "CODE",
            "Print what a code means, and check nothing",
        ))?
        .arg(flag(alloc, "codes", "Print all codes, and check nothing"))?;
    let command = with_files(alloc, command)?;
    with_output(alloc, command, CHECK_FORMATS, CHECK_FORMATS_HELP)
}

/// The program's commands.
pub fn program<'a>(alloc: Global) -> Result<Command<'a>, AllocError>
    ensures { IfOk result IsProgram }
{
    Command::new(alloc, "rinqebo")
        .bin_name("rinqebo")?
        .about("Explain and check the configuration of cargo nextest")
        .version(VERSION)
        .after_help(PROGRAM_NOTES)
        .subcommand_required(true)
        .subcommand(explain_command(alloc)?)?
        .subcommand(check_command(alloc)?)?
        .subcommand(list_command(alloc)?)?
        .subcommand(show_command(alloc)?)?
        .subcommand(schema_command(alloc)?)
}
