// Durations as texts write them, in nanoseconds.

ghost use Rattle.std.specs.Prelude.{◌≡◌, ◌≤◌, ◌<◌, ◌+◌, ◌*◌, ◌↔◌, ℕ, All, IfOk, IfSome};
ghost use Rattle.std.specs.Map.{lookup};
ghost use Rattle.std.specs.Str.{bytes_eq};
ghost use Rattle.std.specs.Str.Parse.{digits_value};
ghost use Rattle.nextest_tree.specs.Leaf.{name_pairs};
ghost use Rattle.nextest_elements.specs.DurationFunction.{duration_of, duration_result, byte_kind, unit_size};
ghost use Rattle.nextest_elements.specs.Duration.{IsDuration, longest_duration};
ghost use Rattle.nextest_elements.specs.DurationSteps.{within_limit, ReadsItem, ReadsItems, SplitsRun};

use thiserror::Error;

const MICROSECOND: u128 = 1_000;

const MILLISECOND: u128 = 1_000_000;

const SECOND: u128 = 1_000_000_000;

const MINUTE: u128 = 60 * SECOND;

const HOUR: u128 = 3_600 * SECOND;

const DAY: u128 = 86_400 * SECOND;

const WEEK: u128 = 604_800 * SECOND;

const MONTH: u128 = 2_630_016 * SECOND;

const YEAR: u128 = 31_557_600 * SECOND;

const LONGEST: u128 = 18_446_744_073_709_551_615 * SECOND;

// The names of the units, each with its size in nanoseconds. `µs` is written with U+00B5.
#[rattlefmt::skip]
const UNITS: [(&str, u128); 40] = [
    ("ns", 1), ("nsec", 1), ("nanos", 1),
    ("us", MICROSECOND), ("usec", MICROSECOND), ("µs", MICROSECOND),
    ("ms", MILLISECOND), ("msec", MILLISECOND), ("millis", MILLISECOND),
    ("s", SECOND), ("sec", SECOND), ("secs", SECOND), ("second", SECOND), ("seconds", SECOND),
    ("m", MINUTE), ("min", MINUTE), ("mins", MINUTE), ("minute", MINUTE), ("minutes", MINUTE),
    ("h", HOUR), ("hr", HOUR), ("hrs", HOUR), ("hour", HOUR), ("hours", HOUR),
    ("d", DAY), ("day", DAY), ("days", DAY),
    ("w", WEEK), ("wk", WEEK), ("wks", WEEK), ("week", WEEK), ("weeks", WEEK),
    ("M", MONTH), ("month", MONTH), ("months", MONTH),
    ("y", YEAR), ("yr", YEAR), ("yrs", YEAR), ("year", YEAR), ("years", YEAR),
];

/// Why a text is not a duration.
#[derive(Clone, Copy, Debug, PartialEq, Eq, Error)]
pub enum DurationError {
    /// The text is neither `0` nor a row of numbers with units.
    #[error("a duration has numbers with units, as `1h 30m`")]
    Malformed,
    /// The text is a duration of more than 18446744073709551615 seconds.
    #[error("a duration is at most 18446744073709551615 seconds")]
    OutOfRange,
}

// What a byte of a duration belongs to.
#[derive(Clone, Copy, PartialEq, Eq)]
enum ByteKind {
    Space,
    Digit,
    Other,
}

fn byte_kind(byte: u8) -> ByteKind
    ensures { result ≡ byte_kind byte }
{
    match byte {
        b' ' => ByteKind::Space,
        b'0'..=b'9' => ByteKind::Digit,
        _ => ByteKind::Other,
    }
}

// The bytes of this kind that the text begins with, and what follows them.
fn split_run(text: &[u8], kind: ByteKind) -> (&[u8], &[u8])
    ensures { SplitsRun text.now kind result.0.now result.1.now }
{
    let end = text
        .iter()
        .position(|byte| byte_kind(*byte) != kind)
        .unwrap_or(text.len());
    text.split_at(end)
}

// The size of the unit of this name among these, in nanoseconds.
fn size_among(units: &[(&str, u128)], name: &[u8]) -> Option<u128>
    ensures { result ≡ lookup (λ unit. bytes_eq unit name.now) (name_pairs units.now) }
{
    for (unit, size) in units {
        if unit.as_bytes() == name {
            return Some(*size);
        }
    }
    None
}

// The size of the unit of this name in nanoseconds.
#[tactic(auto, unfolding(crate::specs::DurationFunction::unit_size, crate::specs::Duration::duration_units))]
fn unit_size(name: &[u8]) -> Option<u128>
    ensures size { result ≡ unit_size name.now }
    ensures positive { IfSome result (λ size. 0 < size) }
{
    size_among(&UNITS, name)
}

// The number itself, unless it is above the longest duration.
fn within_limit(nanoseconds: u128) -> Option<u128>
    ensures { result ≡ within_limit nanoseconds }
{
    (nanoseconds <= LONGEST).then_some(nanoseconds)
}

// The number that the digits write, unless it is above the longest duration.
fn number_of(digits: &[u8]) -> Option<u128>
    requires { All (λ byte. byte_kind byte ≡ ByteKind.Digit) digits.now }
    ensures { result ≡ within_limit (digits_value 10 digits.now) }
{
    let mut number = 0;
    for digit in digits {
        number = within_limit(number * 10 + u128::from(*digit - b'0'))?;
    }
    Some(number)
}

// As many units of this size as the digits write, unless that is above the longest duration.
fn amount_of(digits: &[u8], size: u128) -> Option<u128>
    requires digits { All (λ byte. byte_kind byte ≡ ByteKind.Digit) digits.now }
    requires size { 0 < size }
    ensures { result ≡ within_limit (digits_value 10 digits.now * size) }
{
    let number = number_of(digits)?;
    within_limit(number.checked_mul(size)?)
}

// The sum of two amounts, unless one of them or the sum is above the longest duration.
fn sum_of(total: Option<u128>, amount: Option<u128>) -> Option<u128>
    ensures { (m n : ℕ) → total ≡ within_limit m → amount ≡ within_limit n
        → result ≡ within_limit (m + n) }
{
    within_limit(total?.checked_add(amount?)?)
}

// The amount of the item at the front, unless it is above the longest duration, and what follows
// the item and its spaces.
fn read_item(text: &[u8]) -> Result<(Option<u128>, &[u8]), DurationError>
    ensures { ReadsItem text.now result }
{
    let (_, text) = split_run(text, ByteKind::Space);
    let (digits, text) = split_run(text, ByteKind::Digit);
    if digits.is_empty() {
        return Err(DurationError::Malformed);
    }
    let (_, text) = split_run(text, ByteKind::Space);
    let (name, text) = split_run(text, ByteKind::Other);
    let Some(size) = unit_size(name) else {
        return Err(DurationError::Malformed);
    };
    let (_, text) = split_run(text, ByteKind::Space);
    Ok((amount_of(digits, size), text))
}

// The sum of the items of the text, of which there is one at least, unless it is above the longest
// duration.
fn read_items(text: &[u8]) -> Result<Option<u128>, DurationError>
    ensures { ReadsItems text.now result }
{
    let mut rest = text;
    let mut total = Some(0);
    loop {
        let (amount, after) = read_item(rest)?;
        total = sum_of(total, amount);
        if after.is_empty() {
            return Ok(total);
        }
        rest = after;
    }
}

/// The duration of a text in nanoseconds.
///
/// The text is `0`, or one or more items, each of decimal digits and a unit, as `1h 30m`. Spaces
/// may be before, between and after the items and between digits and unit. The value is the sum.
///
/// # Errors
///
/// [`DurationError::Malformed`] for any other text, whatever its numbers, and
/// [`DurationError::OutOfRange`] for a sum above 18446744073709551615 seconds.
pub fn parse_duration(text: &str) -> Result<u128, DurationError>
    // What is read, and why something else is not.
    ensures read { IfOk result (λ n. IsDuration text.now n × (n ≤ longest_duration)) }
    ensures out_of_range { result ≡ Err DurationError.OutOfRange
        → (n : ℕ) × IsDuration text.now n × (longest_duration < n) }
    ensures malformed { result ≡ Err DurationError.Malformed
        → (n : ℕ) → IsDuration text.now n → ⊥ }

    // The same as an equation, and the law of its function.
    ensures value { result ≡ duration_result (duration_of text.now) }
    ensures grammar { (n : ℕ) → (duration_of text.now ≡ Some n) ↔ IsDuration text.now n }
{
    if text == "0" {
        return Ok(0);
    }
    read_items(text.as_bytes())?.ok_or(DurationError::OutOfRange)
}
