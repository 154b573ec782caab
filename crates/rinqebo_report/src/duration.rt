//! Durations as files spell them.
ghost use Rattle.std.specs.Prelude.{◌≡◌, ◌++◌, ◌<◌, OnOk, string_bytes};
ghost use Rattle.rinqebo_report.specs.Durations.{unit_name, unit_size, unit_of, duration_text};

use std::alloc::AllocError;
use std::fmt::Write;

const MICROSECOND: u128 = 1_000;

const MILLISECOND: u128 = 1_000_000;

const SECOND: u128 = 1_000_000_000;

const MINUTE: u128 = 60 * SECOND;

const HOUR: u128 = 3_600 * SECOND;

const DAY: u128 = 86_400 * SECOND;

/// 365 days and 6 hours.
const YEAR: u128 = 31_557_600 * SECOND;

/// A unit of durations.
#[derive(Clone, Copy)]
enum Unit {
    Year,
    Day,
    Hour,
    Minute,
    Second,
    Millisecond,
    Microsecond,
    Nanosecond,
}

impl Unit {
    /// How a file writes it.
    fn name(self) -> &'static str
        ensures { result.now ≡ unit_name self }
    {
        match self {
            Unit::Year => "y",
            Unit::Day => "d",
            Unit::Hour => "h",
            Unit::Minute => "m",
            Unit::Second => "s",
            Unit::Millisecond => "ms",
            Unit::Microsecond => "us",
            Unit::Nanosecond => "ns",
        }
    }

    /// Its nanoseconds.
    fn size(self) -> u128
        ensures size { result ≡ unit_size self }
        ensures positive { 0 < result }
    {
        match self {
            Unit::Year => YEAR,
            Unit::Day => DAY,
            Unit::Hour => HOUR,
            Unit::Minute => MINUTE,
            Unit::Second => SECOND,
            Unit::Millisecond => MILLISECOND,
            Unit::Microsecond => MICROSECOND,
            Unit::Nanosecond => 1,
        }
    }
}

/// The longest unit that divides a number of nanoseconds. Of none it is the second.
fn unit_of(nanoseconds: u128) -> Unit
    ensures { result ≡ unit_of nanoseconds }
{
    if nanoseconds == 0 {
        Unit::Second
    } else if nanoseconds % YEAR == 0 {
        Unit::Year
    } else if nanoseconds % DAY == 0 {
        Unit::Day
    } else if nanoseconds % HOUR == 0 {
        Unit::Hour
    } else if nanoseconds % MINUTE == 0 {
        Unit::Minute
    } else if nanoseconds % SECOND == 0 {
        Unit::Second
    } else if nanoseconds % MILLISECOND == 0 {
        Unit::Millisecond
    } else if nanoseconds % MICROSECOND == 0 {
        Unit::Microsecond
    } else {
        Unit::Nanosecond
    }
}

/// Writes a duration as one number and a unit.
pub(crate) fn add_duration(out: &mut String, nanoseconds: u128) -> Result<(), AllocError>
    ensures { OnOk result (string_bytes out.new
        ≡ string_bytes out.old ++ duration_text nanoseconds) }
{
    let unit = unit_of(nanoseconds);
    let count = nanoseconds / unit.size();
    let name = unit.name();
    write!(out, "{count}{name}")
}
