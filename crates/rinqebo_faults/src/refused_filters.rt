//! What is wrong with filters that are refused, in words: the part that is at fault, what is
//! expected there, and what to do.
ghost use Rattle.std.specs.Prelude.{◌≡◌};
ghost use Rattle.std.specs.Option.{option_copied};
ghost use Rattle.rinqebo_faults.specs.Filters.{filter_help};

use crate::hints::near_name;
use crate::regex_words::regex_fault;
use crate::worded::{Stopped, Worded, first_of};
use crate::words::owned;
use filter_language::FaultKind;
use std::alloc::{AllocError, Global};

/// The predicates of filters.
const PREDICATES: [&str; 12] = [
    "package",
    "test",
    "binary_id",
    "binary",
    "kind",
    "platform",
    "deps",
    "rdeps",
    "group",
    "default",
    "all",
    "none",
];

/// A predicate, in words.
const A_PREDICATE: &str = "a predicate: `package`, `test`, `binary_id`, `binary`, `kind`, \
    `platform`, `deps`, `rdeps`, `group`, `default`, `all` or `none`";

/// What may follow an operand, in words.
const AN_OPERATOR: &str = "an operator (`and`, `or` or `-`), or the end of the filter";

/// Predicates by names that filters do not have.
const OTHER_NAMES: [(&str, &str); 6] = [
    ("pkg", "package"),
    ("crate", "package"),
    ("name", "test"),
    ("bin", "binary"),
    ("file", "binary"),
    ("target", "platform"),
];

/// What may be wrong with a filter.
const KINDS: [FaultKind; 16] = [
    FaultKind::ExpectedExpr,
    FaultKind::TooDeeplyNested,
    FaultKind::ExpectedOpenParenthesis,
    FaultKind::ExpectedCloseParenthesis,
    FaultKind::UnexpectedArgument,
    FaultKind::UnexpectedComma,
    FaultKind::InvalidString,
    FaultKind::InvalidEscapeCharacter,
    FaultKind::InvalidGlob,
    FaultKind::InvalidRegex,
    FaultKind::TooLarge,
    FaultKind::ExpectedCloseRegex,
    FaultKind::InvalidPlatformArgument,
    FaultKind::InvalidOrOperator,
    FaultKind::InvalidAndOperator,
    FaultKind::ExpectedEndOfExpression,
];

/// What is wrong with a filter, by how a reader words it.
fn kind_of(label: &str) -> Option<FaultKind> {
    for kind in &KINDS {
        if kind.label() == label {
            return Some(*kind);
        }
    }
    None
}

/// What follows the blanks of a filter: spaces and ends of lines.
fn behind_blanks(text: &str) -> &str {
    for (at, c) in text.char_indices() {
        if c != ' ' && c != '\n' && c != '\r' {
            return text.get(at..).unwrap_or(text);
        }
    }
    ""
}

/// Whether a character may be in the name of a test or of a predicate.
fn is_of_name(c: char) -> bool {
    c.is_ascii_alphanumeric() || c == '_' || c == '-' || c == ':'
}

/// The name that a text begins with.
fn name_at(text: &str) -> &str {
    for (at, c) in text.char_indices() {
        if !is_of_name(c) {
            return text.get(..at).unwrap_or(text);
        }
    }
    text
}

/// The name that a text ends with.
fn last_name(text: &str) -> &str {
    let mut start = 0usize;
    for (at, c) in text.char_indices() {
        if !is_of_name(c) {
            start = at.saturating_add(c.len_utf8());
        }
    }
    text.get(start..).unwrap_or("")
}

/// What a text begins with up to a blank.
fn word_at(text: &str) -> &str {
    for (at, c) in text.char_indices() {
        if c.is_whitespace() {
            return text.get(..at).unwrap_or(text);
        }
    }
    text
}

/// The predicate whose argument a text begins.
fn called_predicate(before: &str) -> &str {
    last_name(before.trim_end().trim_end_matches('(').trim_end())
}

/// The predicate that is meant by a name that filters do not have.
fn predicate_meant(alloc: Global, name: &str) -> Result<Option<String>, AllocError> {
    for (other, predicate) in &OTHER_NAMES {
        if *other == name {
            return Ok(Some(format!(in alloc; "the predicate is `{predicate}`")?));
        }
    }
    match near_name(alloc, name, &PREDICATES)? {
        Some(near) => Ok(Some(format!(in alloc; "did you mean `{near}`?")?)),
        None => Ok(None),
    }
}

/// What to do about a name that is not a predicate: it may be that of a test.
fn name_help(alloc: Global, name: &str, behind: &str) -> Result<Option<String>, AllocError> {
    if behind_blanks(behind).starts_with('(') {
        return predicate_meant(alloc, name);
    }
    Ok(Some(format!(in alloc; "write `test({name})`")?))
}

/// A name is not a predicate: it may be that of a test.
fn no_predicate(
    alloc: Global,
    name: &str,
    behind: &str,
    place: (usize, usize),
) -> Result<Worded, AllocError> {
    let help = name_help(alloc, name, behind)?;
    let message = format!(in alloc; "`{name}` is not a predicate")?;
    Ok(Worded::of(alloc, place, message, A_PREDICATE)?.advised(help))
}

/// `not` has no space behind it.
fn not_alone(alloc: Global, place: (usize, usize), name: &str) -> Result<Worded, AllocError> {
    let message = format!(in alloc; "`{name}` has no space behind it")?;
    let help = String::from_str(alloc, "write `not (..)`")?;
    let expected = "`not` and a space";
    Ok(Worded::of(alloc, place, message, expected)?.advised(Some(help)))
}

/// An operator has nothing behind it.
fn no_right_side(
    alloc: Global,
    place: (usize, usize),
    operator: &str,
) -> Result<Worded, AllocError> {
    let message = format!(in alloc; "`{operator}` has no right side")?;
    Worded::of(alloc, place, message, A_PREDICATE)
}

/// There is nothing where an operand is due.
fn nothing_there(alloc: Global, stopped: Stopped<'_>) -> Result<Worded, AllocError> {
    let place = (stopped.start, stopped.start);
    if stopped.text.trim().is_empty() {
        return Worded::plain(alloc, place, "the filter is empty", A_PREDICATE);
    }
    let before = stopped.before().trim_end();
    let name = last_name(before);
    if !name.is_empty() {
        return no_right_side(alloc, place, name);
    }
    let message = "the filter ends where a predicate is expected";
    Worded::plain(alloc, place, message, A_PREDICATE)
}

/// There is no operand where one is due.
fn no_operand(alloc: Global, stopped: Stopped<'_>) -> Result<Worded, AllocError> {
    let rest = behind_blanks(stopped.rest());
    if rest.is_empty() {
        return nothing_there(alloc, stopped);
    }
    let name = name_at(rest);
    if name.is_empty() {
        let c = first_of(rest);
        let message = format!(in alloc; "`{c}` is not a predicate")?;
        return Worded::of(alloc, stopped.place_of(rest, c.len()), message, A_PREDICATE);
    }
    let place = stopped.place_of(rest, name.len());
    if name.eq_ignore_ascii_case("not") {
        return not_alone(alloc, place, name);
    }
    let behind = rest.get(name.len()..).unwrap_or("");
    no_predicate(alloc, name, behind, place)
}

/// What to do about a mark between a predicate and what may be its argument.
fn compared(alloc: Global, predicate: &str, rest: &str) -> Result<Option<String>, AllocError> {
    let Some(behind) = rest.strip_prefix('=') else {
        return Ok(None);
    };
    let value = behind.trim_start_matches('=').trim_start();
    let name = name_at(value.trim_start_matches('"').trim_start_matches('\''));
    if name.is_empty() {
        return Ok(None);
    }
    Ok(Some(format!(in alloc; "write `{predicate}(={name})`")?))
}

/// A predicate goes on as no predicate does.
fn longer_name(
    alloc: Global,
    stopped: Stopped<'_>,
    predicate: &str,
    tail: &str,
) -> Result<Worded, AllocError> {
    let name = format!(in alloc; "{predicate}{tail}")?;
    let start = stopped.start.saturating_sub(predicate.len());
    let place = (start, stopped.start.saturating_add(tail.len()));
    let behind = stopped.rest().get(tail.len()..).unwrap_or("");
    no_predicate(alloc, name.as_str(), behind, place)
}

/// A predicate is followed by something else than a `(`.
fn other_argument(
    alloc: Global,
    stopped: Stopped<'_>,
    predicate: &str,
    expected: &str,
) -> Result<Worded, AllocError> {
    let rest = behind_blanks(stopped.rest());
    let next = word_at(rest);
    let help = compared(alloc, predicate, rest)?;
    let message = format!(in alloc; "`{predicate}` is followed by `{next}`")?;
    let place = stopped.place_of(rest, next.len());
    Ok(Worded::of(alloc, place, message, expected)?.advised(help))
}

/// A predicate has no `(` behind it.
fn no_argument(alloc: Global, stopped: Stopped<'_>) -> Result<Worded, AllocError> {
    let predicate = last_name(stopped.before());
    let tail = name_at(stopped.rest());
    if !tail.is_empty() {
        return longer_name(alloc, stopped, predicate, tail);
    }
    let expected = format!(in alloc; "`(` behind `{predicate}`")?;
    if !word_at(behind_blanks(stopped.rest())).is_empty() {
        return other_argument(alloc, stopped, predicate, expected.as_str());
    }
    let message = format!(in alloc; "`{predicate}` has no argument")?;
    let place = (stopped.start, stopped.start);
    Worded::of(alloc, place, message, expected.as_str())
}

/// What follows an operand is a word: an operator without anything behind it, or no operator.
fn no_operator(alloc: Global, stopped: Stopped<'_>, rest: &str) -> Result<Worded, AllocError> {
    let name = name_at(rest);
    let behind = rest.get(name.len()..).unwrap_or("");
    let is_operator = name.eq_ignore_ascii_case("and") || name.eq_ignore_ascii_case("or");
    let place = stopped.place_of(rest, name.len());
    if is_operator && behind.trim().is_empty() {
        return no_right_side(alloc, place, name);
    }
    if is_operator {
        let message = format!(in alloc; "`{name}` has no space behind it")?;
        return Worded::of(alloc, place, message, "`and` or `or`, and a space");
    }
    let word = word_at(rest);
    let message = format!(in alloc; "there is no operator before `{word}`")?;
    Worded::of(
        alloc,
        stopped.place_of(rest, word.len()),
        message,
        AN_OPERATOR,
    )
}

/// There is more behind a filter.
fn more_text(alloc: Global, stopped: Stopped<'_>) -> Result<Worded, AllocError> {
    let rest = behind_blanks(stopped.rest());
    let place = stopped.place_of(rest, first_of(rest).len());
    if rest.starts_with('\t') {
        let message = "a tab is no blank of a filter";
        return Worded::plain(alloc, place, message, "a space or a line break");
    }
    if rest.starts_with(')') {
        return Worded::plain(alloc, place, "`)` closes nothing", AN_OPERATOR);
    }
    no_operator(alloc, stopped, rest)
}

/// An operator is one that other languages have.
fn other_operator(
    alloc: Global,
    stopped: Stopped<'_>,
    expected: &str,
    help: &str,
) -> Result<Worded, AllocError> {
    let operator = stopped.part().trim_end();
    let place = (stopped.start, stopped.start.saturating_add(operator.len()));
    let message = format!(in alloc; "`{operator}` is not an operator")?;
    let help = owned(alloc, Some(help))?;
    Ok(Worded::of(alloc, place, message, expected)?.advised(help))
}

/// A regular expression is malformed.
fn bad_regex(alloc: Global, stopped: Stopped<'_>) -> Result<Worded, AllocError> {
    let place = (stopped.start, stopped.end);
    let pattern = stopped.part();
    let (message, expected) = regex_fault(alloc, pattern)?;
    Worded::of(alloc, place, message, expected)
}

/// What is wrong with an argument, in words behind it.
fn argument_fault(kind: FaultKind) -> Option<&'static str> {
    match kind {
        FaultKind::InvalidEscapeCharacter => Some("is not an escape"),
        FaultKind::InvalidGlob => Some("is not a glob"),
        FaultKind::TooLarge => Some("is too large a pattern"),
        FaultKind::InvalidPlatformArgument => Some("is not a platform of builds"),
        _ => None,
    }
}

/// What is wrong with the argument that a text is.
fn argument_message(
    alloc: Global,
    kind: FaultKind,
    part: &str,
) -> Result<Option<String>, AllocError> {
    let message = match (kind, argument_fault(kind)) {
        (_, Some(fault)) => format!(in alloc; "`{part}` {fault}"),
        (FaultKind::InvalidString, None) => String::from_str(alloc, "the argument is empty"),
        _ => return Ok(None),
    };
    Ok(Some(message?))
}

/// What is expected of an argument.
fn argument_expected(kind: FaultKind) -> &'static str {
    match kind {
        FaultKind::InvalidEscapeCharacter => {
            "`\\n`, `\\r`, `\\t`, `\\\\`, `\\/`, `\\)`, `\\,` or `\\u{..}`"
        }
        FaultKind::InvalidGlob => "a glob in which each `[` has its `]`",
        FaultKind::TooLarge => "a pattern whose automaton has at most 16384 states",
        FaultKind::InvalidPlatformArgument => "`host` or `target`",
        _ => "an argument of at least one character",
    }
}

/// What is wrong with an argument.
fn bad_argument(
    alloc: Global,
    stopped: Stopped<'_>,
    kind: FaultKind,
) -> Result<Option<Worded>, AllocError> {
    let Some(message) = argument_message(alloc, kind, stopped.part().trim())? else {
        return Ok(None);
    };
    let place = (stopped.start, stopped.end);
    Ok(Some(Worded::of(alloc, place, message, argument_expected(kind))?))
}

/// A predicate has an argument and takes none.
fn undue_argument(alloc: Global, stopped: Stopped<'_>) -> Result<Worded, AllocError> {
    let predicate = called_predicate(stopped.before());
    let part = stopped.part().trim();
    let message = format!(in alloc; "`{predicate}` takes no argument, but has `{part}`")?;
    let expected = format!(in alloc; "no argument: `{predicate}()`")?;
    let place = (stopped.start, stopped.end);
    Worded::of(alloc, place, message, expected.as_str())
}

/// A further argument.
fn second_argument(alloc: Global, stopped: Stopped<'_>) -> Result<Worded, AllocError> {
    let rest = behind_blanks(stopped.rest());
    let place = stopped.place_of(rest, first_of(rest).len());
    let message = "`,` begins a second argument";
    Worded::plain(
        alloc,
        place,
        message,
        "one argument, in which `\\,` is a comma",
    )
}

/// A set is not allowed in a filter.
fn banned(alloc: Global, stopped: Stopped<'_>) -> Result<Option<Worded>, AllocError> {
    let place = (stopped.start, stopped.end);
    let (message, expected) = match name_at(stopped.part()) {
        "default" => (
            "`default()` is the default filter, so a default filter cannot use it",
            "a predicate other than `default`",
        ),
        "group" => (
            "`group(..)` cannot be in this filter: overrides set the groups of tests",
            "a predicate other than `group`",
        ),
        _ => return Ok(None),
    };
    Ok(Some(Worded::plain(alloc, place, message, expected)?))
}

/// What a text lacks at the place where its reader stopped.
fn lacking(
    alloc: Global,
    stopped: Stopped<'_>,
    message: &str,
    expected: &str,
) -> Result<Worded, AllocError> {
    Worded::plain(alloc, (stopped.start, stopped.end), message, expected)
}

/// What is wrong with a filter of which a reader says so, in words. There are none for what the
/// reader words well.
pub fn filter_words(alloc: Global, stopped: Stopped<'_>) -> Result<Option<Worded>, AllocError> {
    let Some(kind) = kind_of(stopped.label) else {
        return banned(alloc, stopped);
    };
    let worded = match kind {
        FaultKind::ExpectedExpr => no_operand(alloc, stopped),
        FaultKind::TooDeeplyNested => lacking(
            alloc,
            stopped,
            "the filter is nested too deep",
            "at most 128 levels of `not` and of parentheses",
        ),
        FaultKind::ExpectedOpenParenthesis => no_argument(alloc, stopped),
        FaultKind::ExpectedCloseRegex => lacking(
            alloc,
            stopped,
            "the regular expression is not closed",
            "a closing `/`",
        ),
        FaultKind::ExpectedEndOfExpression => more_text(alloc, stopped),
        FaultKind::InvalidOrOperator => {
            other_operator(alloc, stopped, "`or`, `|` or `+`", "write `or` or `|`")
        }
        FaultKind::InvalidAndOperator => {
            other_operator(alloc, stopped, "`and` or `&`", "write `and` or `&`")
        }
        FaultKind::InvalidRegex => bad_regex(alloc, stopped),
        FaultKind::UnexpectedComma => second_argument(alloc, stopped),
        FaultKind::UnexpectedArgument => undue_argument(alloc, stopped),
        kind => return bad_argument(alloc, stopped, kind),
    };
    Ok(Some(worded?))
}

/// What to do about a refused filter that needs more than its text.
pub fn filter_help(label: &str) -> Option<&'static str>
    ensures { option_copied result ≡ filter_help label.now }
{
    if label == FaultKind::NoPackageGraph.label() {
        return Some(
            "pass `--metadata F`, where F has the output of `cargo metadata --format-version 1`",
        );
    }
    None
}
