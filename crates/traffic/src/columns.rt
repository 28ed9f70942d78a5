// Columns of tables, and times as texts.

ghost use Rattle.std.specs.Prelude.{◌≡◌, ◌+◌, ◌%◌, ◌++◌, replicate, IfOk, OnOk, string_bytes};
ghost use Rattle.traffic.specs.Columns.{thousandths, time_text, right, named_end};

use std::alloc::{AllocError, Global};

/// Nanoseconds of a microsecond.
const MICROSECOND: u64 = 1_000;

/// Microseconds of a second, and of a millisecond.
const SECOND: u64 = 1_000_000;

const MILLISECOND: u64 = 1_000;

/// A time in nanoseconds as milliseconds, or from a second on as seconds, with three digits after the point.
///
/// # Errors
///
/// Memory was refused.
pub fn time_text(alloc: Global, time: u64) -> Result<String, AllocError>
    ensures { IfOk result (λ text. string_bytes text ≡ time_text time) }
{
    let time = time / MICROSECOND;
    let mut text = String::new(alloc);
    if time < SECOND {
        put_thousandths(alloc, &mut text, time)?;
        text.push_str(" ms")?;
    } else {
        put_thousandths(alloc, &mut text, time / MILLISECOND)?;
        text.push_str(" s")?;
    }
    Ok(text)
}

/// Adds a number of thousandths, with a point.
pub(crate) fn put_thousandths(alloc: Global, text: &mut String, n: u64) -> Result<(), AllocError>
    ensures { OnOk result (string_bytes text.new ≡ string_bytes text.old ++ thousandths n) }
{
    let whole = n / 1_000;
    let front = format!(in alloc; "{whole}.")?;
    text.push_str(front.as_str())?;
    text.push(digit(n / 100))?;
    text.push(digit(n / 10))?;
    text.push(digit(n))
}

/// The last digit of a number.
fn digit(n: u64) -> char
    ensures { result ≡ 48 + n % 10 }
{
    char::from(b'0' + (n % 10) as u8)
}

/// Adds a word with blanks before it, so that both together have a width, if the word isn't longer.
pub(crate) fn put_right(text: &mut String, width: usize, word: &str) -> Result<(), AllocError>
    ensures { OnOk result (string_bytes text.new ≡ string_bytes text.old ++ right width word.now) }
{
    put_blanks(text, width.saturating_sub(word.len()))?;
    text.push_str(word)
}

/// Adds the name of a row, and the end of its line.
pub(crate) fn put_name(text: &mut String, name: &str) -> Result<(), AllocError>
    ensures { OnOk result (string_bytes text.new ≡ string_bytes text.old ++ named_end name.now) }
{
    text.push_str("  ")?;
    text.push_str(name)?;
    text.push_str("\n")
}

/// Adds blanks.
fn put_blanks(text: &mut String, count: usize) -> Result<(), AllocError>
    ensures { OnOk result (string_bytes text.new ≡ string_bytes text.old ++ replicate count 32) }
{
    for _ in 0..count {
        text.push(' ')?;
    }
    Ok(())
}
