//! Operators.
ghost use Rattle.std.specs.Prelude.{◌≡◌, ◌<◌, length, codes, Ok, Err, option_map, IfOk, IfErr, IfSome};
ghost use Rattle.std.specs.Option.{option_or};
ghost use Rattle.filter_language.specs.Texts.{after_prefix};
ghost use Rattle.filter_language.specs.Lexing.{after_one, operator_of, operator_in};
ghost use Rattle.filter_language.specs.Places.{IfMisread, IsPast, StandsIn};

use crate::fault::{FaultKind, Stop};
use crate::reading::texts::after;

/// What joins operands, or ends one in parentheses.
#[derive(Clone, Copy)]
pub enum Operator {
    And,
    Or,
    Minus,
    Close,
}

/// What follows one of two prefixes of a text.
fn after_either<'a>(first: &str, second: &str, text: &'a str) -> Option<&'a str>
    requires { (0 < length first.now) × (0 < length second.now) }
    ensures value { option_map (λ rest. rest.now) result ≡ after_one first.now second.now text.now }
    ensures place { IfSome result (λ rest. IsPast rest.now text.now) }
{
    match after(first, text) {
        Some(rest) => Some(rest),
        None => after(second, text),
    }
}

/// The `or` that a text begins with.
fn or(text: &str) -> Option<&str>
    ensures value { option_map (λ rest. rest.now) result ≡ option_or
        (after_prefix (codes "or ") text.now) (after_one (codes "|") (codes "+") text.now) }
    ensures place { IfSome result (λ rest. IsPast rest.now text.now) }
{
    if let Some(rest) = after("or ", text) {
        return Some(rest);
    }
    after_either("|", "+", text)
}

/// The operator or `)` that a text without blanks in front begins with, and what follows it.
fn own_operator(text: &str) -> Option<(Operator, &str)>
    ensures value { option_map (λ found. (found.0, found.1.now)) result ≡ operator_of text.now }
    ensures place { IfSome result (λ found. IsPast found.1.now text.now) }
{
    if let Some(rest) = or(text) {
        return Some((Operator::Or, rest));
    }
    if let Some(rest) = after_either("and ", "&", text) {
        return Some((Operator::And, rest));
    }
    if let Some(rest) = after("-", text) {
        return Some((Operator::Minus, rest));
    }
    let rest = after(")", text)?;
    Some((Operator::Close, rest))
}

/// The operator or `)` that a text without blanks in front begins with, and what follows it, or a
/// fault where it begins with a mark that other languages write.
pub fn operator_at(text: &str) -> Result<Option<(Operator, &str)>, Stop<'_>>
    ensures ok { IfOk result (λ found. operator_in text.now
        ≡ Ok (option_map (λ pair. (pair.0, pair.1.now)) found)) }
    ensures wrong { IfErr result (λ stop. IfMisread stop (λ m. operator_in text.now ≡ Err m)) }
    ensures own { IfOk result (λ found. option_map (λ pair. (pair.0, pair.1.now)) found
        ≡ operator_of text.now) }
    ensures place { IfOk result (λ found. IfSome found (λ pair. IsPast pair.1.now text.now)) }
    ensures err { IfErr result (λ stop. IfMisread stop (StandsIn text.now)) }
{
    if let Some(rest) = after_either("||", "OR ", text) {
        return Err(Stop::between(FaultKind::InvalidOrOperator, text, rest));
    }
    if let Some(rest) = after_either("&&", "AND ", text) {
        return Err(Stop::between(FaultKind::InvalidAndOperator, text, rest));
    }
    Ok(own_operator(text))
}
