//! What is wrong with lines that are not TOML, in words: what is there, what is expected, and what
//! is meant, where that is plain.
ghost use Rattle.std.specs.Prelude.{◌≡◌, IfOk, option_map, string_bytes};
ghost use Rattle.std.specs.Option.{option_copied};
ghost use Rattle.std.specs.Str.Lines.{lines};
ghost use Rattle.rinqebo_faults.specs.Meant.{IsExpected, IsExpectedBy, IsFirstDefinition, defined, defines, first_behind, from_column, has_key, is_header, is_second, key_of, own_words};

use crate::worded::first_of;
use crate::words::owned;
use std::alloc::{AllocError, Global};

/// What begins a line that a merge left.
const MERGE_MARKS: [&str; 3] = ["<<<<<<<", "=======", ">>>>>>>"];

/// How the reader of TOML words a bad escape.
const ESCAPE: &str = "invalid escape sequence";

/// Quotes that TOML does not have.
const CURLY_QUOTES: [char; 4] = ['\u{201c}', '\u{201d}', '\u{2018}', '\u{2019}'];

/// A line that is not TOML.
#[derive(Clone, Copy)]
pub struct BadLine<'t> {
    /// The line.
    pub line: &'t str,
    /// How many characters are before the fault.
    pub column: usize,
    /// What is wrong, as the reader of TOML words it.
    pub reason: &'t str,
}

/// What is wrong with a line, in words.
#[derive(Drop)]
pub struct LineWords {
    /// How many characters of the line are at fault.
    pub len: usize,
    /// What is wrong.
    pub message: String,
    /// What is expected.
    pub expected: Option<String>,
    /// What to do.
    pub help: Option<String>,
}

impl<'t> BadLine<'t> {
    /// The line before the fault, and from there on.
    fn parted(self) -> (&'t str, &'t str)
        ensures { result.1.now ≡ from_column self.entry.column self.entry.line.now }
    {
        parted_at(self.line, self.column)
    }

    /// What is expected, as the reader of TOML words it.
    fn expected(self) -> Option<&'t str>
        ensures { IsExpectedBy self.entry.reason.now (option_copied result) }
    {
        match self.reason.split_once(", expected ") {
            Some((_wrong, expected)) => Some(expected),
            None => None,
        }
    }

    /// What is wrong, as the reader of TOML words it.
    fn wrong(self) -> &'t str {
        match self.reason.split_once(", expected ") {
            Some((wrong, _expected)) => wrong,
            None => self.reason,
        }
    }

    /// The line from the fault on.
    fn rest(self) -> &'t str
        ensures { result.now ≡ from_column self.entry.column self.entry.line.now }
    {
        let (_before, rest) = self.parted();
        rest
    }

    /// Whether the line defines what is defined before it.
    pub fn is_second(self) -> bool
        ensures { result ≡ is_second self.entry.reason.now }
    {
        self.reason == "duplicate key"
    }

    /// What the line defines: a header with its brackets, or the key at the fault.
    #[tactic(auto, unfolding(crate::specs::Meant::defined))]
    pub fn defined(self) -> &'t str
        ensures { result.now ≡ defined self.entry.line.now self.entry.column }
    {
        let start = self.line.trim();
        if is_header(start) {
            return start;
        }
        key_of(self.rest())
    }
}

/// A line before a column, and from there on.
fn parted_at(line: &str, column: usize) -> (&str, &str)
    ensures { result.1.now ≡ from_column column line.now }
{
    match line.char_indices().nth(column) {
        Some((at, _)) => (line.get(..at).unwrap_or(""), line.get(at..).unwrap_or("")),
        None => (line, ""),
    }
}

/// Whether a text without blanks around it begins a table.
fn is_header(text: &str) -> bool
    ensures { result ≡ is_header text.now }
{
    text.starts_with('[')
}

/// What is before the first equals sign of a text, or all of it, without the blanks around it.
fn key_of(text: &str) -> &str
    ensures { result.now ≡ key_of text.now }
{
    match text.split_once('=') {
        Some((key, _value)) => key.trim(),
        None => text.trim(),
    }
}

/// Whether a character is a quote that TOML does not have.
fn is_curly(c: char) -> bool {
    CURLY_QUOTES.iter().any(|quote| *quote == c)
}

/// Whether a character ends a word of a line.
fn is_end(c: char) -> bool {
    c.is_whitespace() || c == ',' || c == ']' || c == '}' || c == '#'
}

/// The word that a text begins with, or its first character.
fn word_at(text: &str) -> &str {
    for (at, c) in text.char_indices() {
        if is_end(c) {
            return text.get(..at.max(first_of(text).len())).unwrap_or(text);
        }
    }
    text
}

/// The value behind the equals sign of a line, without the comment behind it.
fn value_of(line: &str) -> Option<&str> {
    let (_key, value) = line.split_once('=')?;
    match value.split_once(" #") {
        Some((value, _comment)) => Some(value.trim()),
        None => Some(value.trim()),
    }
}

/// Whether a character may be in a word or a number with a unit.
fn is_of_word(c: char) -> bool {
    c.is_ascii_alphanumeric() || c == '-' || c == '_' || c == '.'
}

/// What is meant by a value without quotes.
fn unquoted(alloc: Global, value: &str) -> Result<Option<String>, AllocError> {
    if value.eq_ignore_ascii_case("true") {
        return Ok(Some(String::from_str(alloc, "write `true`")?));
    }
    if value.eq_ignore_ascii_case("false") {
        return Ok(Some(String::from_str(alloc, "write `false`")?));
    }
    if !value.is_empty() && value.chars().all(|c| is_of_word(c)) {
        return Ok(Some(format!(in alloc; "write `\"{value}\"`")?));
    }
    Ok(None)
}

/// The string of a line around a place, in single quotes. It has none of its own, and the place is
/// in double quotes.
fn in_single_quotes(alloc: Global, before: &str, rest: &str) -> Result<String, AllocError> {
    if let (Some((_, start)), Some((end, _))) = (before.rsplit_once('"'), rest.split_once('"')) {
        if !start.contains('\'') && !end.contains('\'') {
            return format!(in alloc;
                "write it in single quotes, where a backslash is literal: `'{start}{end}'`"
            );
        }
    }
    String::from_str(
        alloc,
        "write the string in single quotes, where a backslash is literal",
    )
}

/// What is meant by marks that TOML does not have, where that is plain.
fn marks_meant(line: &str) -> Option<&'static str> {
    let start = line.trim_start();
    if MERGE_MARKS.iter().any(|mark| start.starts_with(*mark)) {
        return Some("resolve the conflict that a merge left here");
    }
    if start.starts_with("//") {
        return Some("begin a comment with `#`");
    }
    if line.chars().any(|c| is_curly(c)) {
        return Some("write straight quotes: `\"`");
    }
    if !line.contains('=') && start.contains(':') {
        return Some("write `=` between a key and its value");
    }
    None
}

/// What to do about a line, where that is plain.
fn line_help(alloc: Global, bad: BadLine<'_>) -> Result<Option<String>, AllocError> {
    if bad.reason.contains("escape") {
        let (before, rest) = bad.parted();
        return Ok(Some(in_single_quotes(alloc, before, rest)?));
    }
    if let Some(help) = marks_meant(bad.line) {
        return Ok(Some(String::from_str(alloc, help)?));
    }
    match value_of(bad.line) {
        Some(value) if bad.reason.starts_with("invalid value") => unquoted(alloc, value),
        _ => Ok(None),
    }
}

/// What is there that is wrong, in words, given the line from the fault on.
fn there(alloc: Global, bad: BadLine<'_>, rest: &str) -> Result<String, AllocError> {
    let wrong = bad.wrong();
    if rest.is_empty() {
        return format!(in alloc; "{wrong} at the end of the line");
    }
    if bad.is_second() {
        let name = bad.defined();
        return format!(in alloc; "`{name}` is defined a second time: {wrong}");
    }
    if wrong == ESCAPE {
        let c = first_of(rest);
        return format!(in alloc; "`\\{c}` is an {wrong}");
    }
    let word = word_at(rest);
    format!(in alloc; "{wrong}: `{word}`")
}

/// How many characters are wrong, given the line from the fault on.
fn len_there(bad: BadLine<'_>, rest: &str) -> usize {
    if rest.is_empty() || bad.wrong() == ESCAPE {
        return 1;
    }
    if bad.is_second() {
        return bad.defined().chars().count();
    }
    word_at(rest).chars().count()
}

/// What is expected in a line that is not TOML for a reason, where the reader does not say so.
#[tactic(auto, unfolding(crate::specs::Meant::own_words))]
fn own_words(reason: &str) -> Option<&'static str>
    ensures { option_copied result ≡ own_words reason.now }
{
    match reason {
        "duplicate key" => Some("one definition"),
        "invalid escape sequence" => Some("an escape of TOML, as `\\\\` for a backslash"),
        "invalid string" => Some("a closing quote on the same line"),
        _ => None,
    }
}

/// What is expected in a line.
fn wanted<'t>(bad: BadLine<'t>) -> Option<&'t str>
    ensures { IsExpected (own_words bad.entry.reason.now) bad.entry.reason.now
        (option_copied result) }
{
    match own_words(bad.reason) {
        Some(words) => Some(words),
        None => bad.expected(),
    }
}

/// What is wrong with a line, in words.
pub fn line_words(alloc: Global, bad: BadLine<'_>) -> Result<LineWords, AllocError>
    ensures { IfOk result (λ words. IsExpected (own_words bad.entry.reason.now)
        bad.entry.reason.now (option_map string_bytes words.expected)) }
{
    let (_before, rest) = bad.parted();
    let expected = owned(alloc, wanted(bad))?;
    Ok(LineWords {
        len: len_there(bad, rest),
        message: there(alloc, bad, rest)?,
        expected,
        help: line_help(alloc, bad)?,
    })
}

/// Whether a line without the blanks around it has an equals sign behind a key.
#[tactic(auto, unfolding(crate::specs::Meant::has_key))]
fn has_key(line: &str, key: &str) -> bool
    ensures { result ≡ has_key line.now key.now }
{
    match line.split_once('=') {
        Some((own, _value)) => own.trim() == key,
        None => false,
    }
}

/// Whether a line without the blanks around it defines a header or a key.
#[tactic(auto, unfolding(crate::specs::Meant::defines))]
fn defines(line: &str, name: &str) -> bool
    ensures { result ≡ defines line.now name.now }
{
    if is_header(name) {
        return line == name;
    }
    !is_header(line) && has_key(line, name)
}

/// The place of the line that first defines a header or a key, of the one before a line and that of
/// the line itself, which has no blanks around it.
fn first_behind(first: Option<usize>, place: usize, line: &str, name: &str) -> Option<usize>
    ensures { result ≡ first_behind first place line.now name.now }
{
    if is_header(line) && !is_header(name) {
        return None;
    }
    match first {
        None if defines(line, name) => Some(place),
        first => first,
    }
}

/// The place, among the lines of a text before another one, of the one that first defines a header
/// or a key. A key is defined in the same table.
pub fn first_definition(text: &str, end: usize, defined: &str) -> Option<usize>
    ensures { IsFirstDefinition (lines text.now) end defined.now result }
{
    let mut first = None;
    let mut place = 0usize;
    for line in text.lines().take(end) {
        first = first_behind(first, place, line.trim(), defined);
        place = place.saturating_add(1);
    }
    first
}
