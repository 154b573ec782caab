//! The texts and regexes between a predicate's parentheses.
ghost use Rattle.std.specs.Prelude.{◌≡◌, IfOk, IfErr, IfSome, Ok, Err, option_map, string_bytes};
ghost use Rattle.std.specs.List.{list_all};
ghost use Rattle.std.specs.Char.{is_digit};
ghost use Rattle.filter_language.specs.Places.{IfMisread, IsBehind, IsPast, StandsIn};
ghost use Rattle.filter_language.specs.Bodies.{GoesOnWithin, turn_view, body_view};
ghost use Rattle.filter_language.specs.Arguments.{hex_in, unicode_in, escape_in, text_turn, regex_turn, text_in, regex_in, filled as filled_text, slashed as slashed_regex};

use crate::fault::{FaultKind, Stop};
use crate::reading::texts::{after, behind_character, until};
use std::alloc::Global;

/// A text or a regex that was read.
#[derive(Drop)]
pub struct Body<'a> {
    /// The text, with its escapes resolved.
    pub text: String,
    /// The place where it ends.
    pub end: &'a str,
    /// The place behind it.
    pub behind: &'a str,
}

/// How far a body was read.
#[derive(Drop)]
pub enum Progress<'a> {
    /// It goes on.
    On(&'a str),
    /// It ends.
    Ended(&'a str),
}

/// Whether each character is a hex digit.
fn are_hex(digits: &str) -> bool
    ensures { result ≡ list_all (λ c. is_digit c 16) digits.now }
{
    digits
        .as_bytes()
        .iter()
        .all(|byte| (*byte as char).is_digit(16))
}

/// The value of one to six hex digits.
fn hex_value(digits: &str) -> Option<u32>
    ensures { result ≡ hex_in digits.now }
{
    if digits.len() > 6 || !are_hex(digits) {
        return None;
    }
    u32::from_str_radix(digits, 16).ok()
}

/// The character of an escape `u{..}`, and what follows it.
fn unicode_escape(text: &str) -> Option<(char, &str)>
    ensures value { option_map (λ found. (found.0, found.1.now)) result ≡ unicode_in text.now }
    ensures place { IfSome result (λ found. IsPast found.1.now text.now) }
{
    let (digits, end) = until(&['}'], after("u{", text)?);
    let rest = after("}", end)?;
    let character = char::from_u32(hex_value(digits)?)?;
    Some((character, rest))
}

/// The character of an escape behind its `\`, and what follows it.
fn escape(text: &str) -> Option<(char, &str)>
    ensures value { option_map (λ found. (found.0, found.1.now)) result ≡ escape_in text.now }
    ensures place { IfSome result (λ found. IsPast found.1.now text.now) }
{
    if let Some(rest) = after("n", text) {
        return Some(('\n', rest));
    }
    if let Some(rest) = after("r", text) {
        return Some(('\r', rest));
    }
    if let Some(rest) = after("t", text) {
        return Some(('\t', rest));
    }
    if let Some(rest) = after("\\", text) {
        return Some(('\\', rest));
    }
    if let Some(rest) = after("/", text) {
        return Some(('/', rest));
    }
    if let Some(rest) = after(")", text) {
        return Some((')', rest));
    }
    if let Some(rest) = after(",", text) {
        return Some((',', rest));
    }
    unicode_escape(text)
}

/// Adds what is in front of the next escape of a text, and the escape.
fn grow_text<'a>(text: &mut String, rest: &'a str) -> Result<Progress<'a>, Stop<'a>>
    ensures value { IfOk result (λ progress. text_turn (string_bytes text.old) rest.now
        ≡ Ok (turn_view (string_bytes text.new) progress)) }
    ensures wrong { IfErr result (λ stop. IfMisread stop (λ m.
        text_turn (string_bytes text.old) rest.now ≡ Err m)) }
    ensures ok { IfOk result (GoesOnWithin rest.now) }
    ensures err { IfErr result (λ stop. IfMisread stop (StandsIn rest.now)) }
{
    let (piece, end) = until(&[',', ')', '\\'], rest);
    text.push_str(piece)?;
    let Some(behind) = after("\\", end) else {
        return Ok(Progress::Ended(end));
    };
    let Some((character, next)) = escape(behind) else {
        let until = behind_character(behind);
        return Err(Stop::between(FaultKind::InvalidEscapeCharacter, end, until));
    };
    text.push(character)?;
    Ok(Progress::On(next))
}

/// A text that ends at a place, unless nothing was read.
fn filled<'a>(text: String, end: &'a str) -> Result<Body<'a>, Stop<'a>>
    ensures value { IfOk result (λ body.
        filled_text (Ok (string_bytes text, end.now)) ≡ Ok (body_view body)) }
    ensures wrong { IfErr result (λ stop. IfMisread stop (λ m.
        filled_text (Ok (string_bytes text, end.now)) ≡ Err m)) }
    ensures ok { IfOk result (λ body. body.end.now ≡ end.now × body.behind.now ≡ end.now) }
    ensures err { IfErr result (λ stop. IfMisread stop (StandsIn end.now)) }
{
    if text.is_empty() {
        return Err(Stop::at(FaultKind::InvalidString, end));
    }
    Ok(Body {
        text,
        end,
        behind: end,
    })
}

/// A text, with its escapes resolved.
pub fn read_text<'a>(alloc: Global, start: &'a str) -> Result<Body<'a>, Stop<'a>>
    ensures value { IfOk result (λ body. text_in start.now ≡ Ok (body_view body)) }
    ensures wrong { IfErr result (λ stop. IfMisread stop (λ m. text_in start.now ≡ Err m)) }
    ensures ok { IfOk result
        (λ body. IsBehind body.behind.now body.end.now × IsBehind body.end.now start.now) }
    ensures err { IfErr result (λ stop. IfMisread stop (StandsIn start.now)) }
{
    let mut text = String::new(alloc);
    let mut rest = start;
    'pieces: loop {
        match grow_text(&mut text, rest)? {
            Progress::On(next) => rest = next,
            Progress::Ended(end) => return filled(text, end),
        }
    }
}

/// Adds what is in front of the next `\/` or other `\` of a regex, and that.
fn grow_regex<'a>(text: &mut String, rest: &'a str) -> Result<Progress<'a>, Stop<'a>>
    ensures value { IfOk result (λ progress. regex_turn (string_bytes text.old) rest.now
        ≡ Ok (turn_view (string_bytes text.new) progress)) }
    ensures wrong { IfErr result (λ stop. IfMisread stop (λ m.
        regex_turn (string_bytes text.old) rest.now ≡ Err m)) }
    ensures ok { IfOk result (GoesOnWithin rest.now) }
    ensures err { IfErr result (λ stop. IfMisread stop (StandsIn rest.now)) }
{
    let (piece, end) = until(&['/', '\\'], rest);
    text.push_str(piece)?;
    if let Some(next) = after("\\/", end) {
        text.push('/')?;
        return Ok(Progress::On(next));
    }
    if let Some(next) = after("\\", end) {
        text.push('\\')?;
        return Ok(Progress::On(next));
    }
    Ok(Progress::Ended(end))
}

/// A regex that ends at a place, where its closing `/` is.
fn slashed<'a>(text: String, start: &'a str, end: &'a str) -> Result<Body<'a>, Stop<'a>>
    ensures value { IfOk result (λ body.
        slashed_regex start.now (Ok (string_bytes text, end.now)) ≡ Ok (body_view body)) }
    ensures wrong { IfErr result (λ stop. IfMisread stop (λ m.
        slashed_regex start.now (Ok (string_bytes text, end.now)) ≡ Err m)) }
    ensures ok { IfOk result
        (λ body. body.end.now ≡ end.now × IsBehind body.behind.now end.now) }
    ensures err { IfErr result (λ stop. IfMisread stop (StandsIn start.now)) }
{
    let Some(behind) = after("/", end) else {
        let (_, close) = until(&[')'], start);
        return Err(Stop::at(FaultKind::ExpectedCloseRegex, close));
    };
    Ok(Body { text, end, behind })
}

/// A regex behind its `/`, with each `\/` resolved.
pub fn read_regex<'a>(alloc: Global, start: &'a str) -> Result<Body<'a>, Stop<'a>>
    ensures value { IfOk result (λ body. regex_in start.now ≡ Ok (body_view body)) }
    ensures wrong { IfErr result (λ stop. IfMisread stop (λ m. regex_in start.now ≡ Err m)) }
    ensures ok { IfOk result
        (λ body. IsBehind body.behind.now body.end.now × IsBehind body.end.now start.now) }
    ensures err { IfErr result (λ stop. IfMisread stop (StandsIn start.now)) }
{
    let mut text = String::new(alloc);
    let mut rest = start;
    'pieces: loop {
        match grow_regex(&mut text, rest)? {
            Progress::On(next) => rest = next,
            Progress::Ended(end) => return slashed(text, start, end),
        }
    }
}
