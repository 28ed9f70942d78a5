// Doubles, as `%g` of C writes them.

use crate::error::TextError;
use crate::line::Line;
use itoa::Buffer;
use std::alloc::{AllocError, Global};
use std::num::f64_from_bits_with_nan;

/// The sign bit of a double, the bits of its exponent, and those of its fraction (IEEE 754, binary64).
const SIGN: u64 = 0x8000_0000_0000_0000;

const EXPONENT: u64 = 0x7ff0_0000_0000_0000;

const FRACTION: u64 = 0x000f_ffff_ffff_ffff;

/// The powers of ten of a first digit that are written without an exponent: from here on, and as many as there are
/// digits.
const LOWEST: i32 = -4;

const DIGITS: i32 = 6;

/// Adds a blank and the double of these bits: six digits at most, without zeros at the end, and with an exponent where
/// the first digit's power of ten is below -4 or above 5.
pub(crate) fn put_double(alloc: Global, line: &mut Line, bits: u64) -> Result<(), TextError> {
    let sign = if bits & SIGN == 0 { "" } else { "-" };
    line.put_word(sign.as_bytes())?;
    if bits & EXPONENT == EXPONENT {
        let word = if bits & FRACTION == 0 { "inf" } else { "nan" };
        line.put(word.as_bytes())?;
        return Ok(());
    }
    let number = f64_from_bits_with_nan(bits & (EXPONENT | FRACTION));
    let text = format!(in alloc; "{number:.5e}")?;
    put_scientific(line, text.as_str())?;
    Ok(())
}

/// Adds the double of these bits as a number of JSON, with as many digits as tell it from any other, or `null` where it is
/// none.
pub(crate) fn put_json_double(alloc: Global, line: &mut Line, bits: u64) -> Result<(), TextError> {
    if bits & EXPONENT == EXPONENT {
        line.put(b"null")?;
        return Ok(());
    }
    let number = f64_from_bits_with_nan(bits);
    let text = format!(in alloc; "{number:.16e}")?;
    line.put(text.as_bytes())?;
    Ok(())
}

/// Adds a number that is given as a digit, a point, digits, `e` and a power of ten.
fn put_scientific(line: &mut Line, text: &str) -> Result<(), AllocError> {
    let Some((mantissa, exponent)) = text.split_once('e') else {
        return line.put(text.as_bytes());
    };
    let Ok(power) = exponent.parse::<i32>() else {
        return line.put(text.as_bytes());
    };
    let digits = mantissa.trim_end_matches('0').trim_end_matches('.');
    if power < LOWEST || power >= DIGITS {
        line.put(digits.as_bytes())?;
        put_power(line, power)
    } else if power < 0 {
        put_fraction(line, digits.as_bytes(), power)
    } else {
        put_fixed(line, digits.as_bytes(), power)
    }
}

/// Adds a power of ten: its sign, and two digits at least.
fn put_power(line: &mut Line, power: i32) -> Result<(), AllocError> {
    line.put(if power < 0 { b"e-" } else { b"e+" })?;
    let size = power.unsigned_abs();
    if size < 10 {
        line.put(b"0")?;
    }
    line.put(Buffer::new().format(size).as_bytes())
}

/// Adds the digits of a mantissa, of which the first has a negative power of ten.
fn put_fraction(line: &mut Line, mantissa: &[u8], power: i32) -> Result<(), AllocError> {
    line.put(b"0.")?;
    for _ in power..-1 {
        line.put(b"0")?;
    }
    put_digits(line, mantissa)
}

/// Adds the digits of a mantissa, the first of which has this power of ten, with zeros down to the ones.
fn put_fixed(line: &mut Line, mantissa: &[u8], power: i32) -> Result<(), AllocError> {
    let (first, others) = match mantissa {
        [first, b'.', others @ ..] => (*first, others),
        [first, ..] => (*first, &mantissa[..0]),
        [] => (b'0', mantissa),
    };
    line.put(&[first])?;
    let ones = power.unsigned_abs() as usize;
    for place in 0..ones {
        line.put(&[others.get(place).copied().unwrap_or(b'0')])?;
    }
    if others.len() > ones {
        line.put(b".")?;
        line.put(&others[ones..])?;
    }
    Ok(())
}

/// Adds the digits of a mantissa without its point.
fn put_digits(line: &mut Line, mantissa: &[u8]) -> Result<(), AllocError> {
    for digit in mantissa {
        if *digit != b'.' {
            line.put(&[*digit])?;
        }
    }
    Ok(())
}
