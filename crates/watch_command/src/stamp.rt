// Times in front of lines.

ghost use Rattle.std.specs.Prelude.{◌≡◌, ◌+◌, ◌%◌, ◌<◌, ◌^◌, IfOk};
ghost use Rattle.watch_command.specs.Stamp.{six_digits, stamp};

use crate::zone::Zone;
use jiff_core::civil::Time;
use std::alloc::{AllocError, Global};

/// Nanoseconds of a second, and of a microsecond.
const SECOND: u64 = 1_000_000_000;

const MICROSECOND: u64 = 1_000;

/// What stands before a line.
#[derive(Drop)]
pub(crate) enum Stamp {
    Nothing,
    /// The time in seconds since 1970.
    Seconds,
    /// The time of day in a zone.
    Clock(Zone),
}

impl Stamp {
    /// The text of a time in nanoseconds since 1970.
    pub(crate) fn text(&self, alloc: Global, time: u64) -> Result<Vec<u8>, AllocError> {
        match self {
            Stamp::Nothing => Ok(Vec::new(alloc)),
            Stamp::Seconds => stamp_of(alloc, time),
            Stamp::Clock(zone) => clock_of(alloc, zone.time_of_day(time)),
        }
    }
}

/// A time of day with microseconds, and a blank.
fn clock_of(alloc: Global, time: Time) -> Result<Vec<u8>, AllocError> {
    let Time {
        hour,
        minute,
        second,
        subsec_nanosecond,
    } = time;
    let front = format!(in alloc; "{hour:02}:{minute:02}:{second:02}.")?;
    let mut text = front.into_bytes();
    text.extend_from_slice(&six_digits(subsec_nanosecond / 1_000))?;
    text.push(b' ')?;
    Ok(text)
}

/// A time in nanoseconds since 1970 as seconds with six digits after the point, as `dbus-monitor` writes it, and a blank.
pub(crate) fn stamp_of(alloc: Global, time: u64) -> Result<Vec<u8>, AllocError>
    ensures { IfOk result (λ text. text.items ≡ stamp time) }
{
    let seconds = time / SECOND;
    let text = format!(in alloc; "{seconds}.")?;
    let mut text = text.into_bytes();
    text.extend_from_slice(&six_digits((time % SECOND / MICROSECOND) as u32))?;
    text.push(b' ')?;
    Ok(text)
}

/// The last six digits of a number.
fn six_digits(n: u32) -> [u8; 6]
    ensures { result ≡ six_digits n }
{
    [
        last_digit(n / 100_000),
        last_digit(n / 10_000),
        last_digit(n / 1_000),
        last_digit(n / 100),
        last_digit(n / 10),
        last_digit(n),
    ]
}

/// The last digit of a number.
fn last_digit(n: u32) -> u8
    ensures { result ≡ 48 + n % 10 }
{
    b'0' + (n % 10) as u8
}
