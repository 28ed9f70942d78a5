// The integers of filters.

ghost use Rattle.std.specs.Prelude.{◌≡◌, ◌≤◌, ◌<◌, nat_lt, drop};
ghost use Rattle.filter.specs.Integers.{with_digit_of, number_in, magnitude_of, negative_of, integer_of};

/// An integer from -2^63 to 2^64 - 1, in one form each.
#[derive(Clone, Copy, Debug, PartialEq, Eq)]
pub enum Integer {
    /// One from 0 on.
    Natural(u64),
    /// One below 0: `Negative(n)` is -1 - n.
    Negative(u64),
}

/// A number with one more digit, if that is one of the base and it fits.
fn with_digit(base: u32, number: u64, digit: u8) -> Option<u64>
    requires low { 2 ≤ base }
    requires high { base ≤ 36 }
    ensures { result ≡ with_digit_of base number digit }
{
    let value = char::from(digit).to_digit(base)?;
    number
        .checked_mul(u64::from(base))?
        .checked_add(u64::from(value))
}

/// The number that digits of a base write, if it fits.
#[tactic(auto, unfolding(crate::specs::Integers::number_in))]
fn number_in(base: u32, digits: &[u8]) -> Option<u64>
    requires low { 2 ≤ base }
    requires high { base ≤ 36 }
    ensures { result ≡ number_in base digits.now }
{
    if digits.is_empty() {
        return None;
    }
    let mut number = 0;
    for digit in digits {
        number = with_digit(base, number, *digit)?;
    }
    Some(number)
}

/// The number that a word of digits writes; after `0x` they are hexadecimal.
fn magnitude(word: &[u8]) -> Option<u64>
    ensures { result ≡ magnitude_of word.now }
{
    if word.len() > 1 && word[0] == b'0' && word[1] == b'x' {
        number_in(16, &word[2..])
    } else {
        number_in(10, word)
    }
}

/// The integer below 0 that has a magnitude, if it is in range; of 0 it is 0.
fn negative(magnitude: u64) -> Option<Integer>
    ensures { result ≡ negative_of magnitude }
{
    if magnitude == 0 {
        Some(Integer::Natural(0))
    } else if magnitude <= 1 << 63 {
        Some(Integer::Negative(magnitude - 1))
    } else {
        None
    }
}

impl Integer {
    /// The integer that a word writes, if it does.
    pub(crate) fn of_word(word: &[u8]) -> Option<Integer>
        ensures { result ≡ integer_of word.now }
    {
        match word {
            [b'-', digits @ ..] => negative(magnitude(digits)?),
            _ => Some(Integer::Natural(magnitude(word)?)),
        }
    }
}
