ghost use Rattle.std.specs.Prelude.{◌≡◌, ◌<◌, ◌≤◌, length, nat_lt, IfSome};
ghost use Rattle.std.specs.Option.{option_map};
ghost use Rattle.std.specs.List.{prefix_len, list_all};
ghost use Rattle.bpf_text.specs.Lexis.{is_blank, is_digit, is_name_byte, unblanked, run_of, after_run, number_in, number_of, word_at, number_at, sign_at, is_over, begins_blank};
ghost use Rattle.bpf_text.specs.LineReading.{with_digit_of};

/// Whether a byte is a blank: space, tab or CR.
fn is_blank_byte(byte: u8) -> bool
    ensures { result ≡ is_blank byte }
{
    byte == b' ' || byte == b'\t' || byte == b'\r'
}

/// Whether a byte goes on a word or a number: a letter, a digit or `_`.
fn goes_on(byte: u8) -> bool
    ensures { result ≡ is_name_byte byte }
{
    byte.is_ascii_digit() || byte.is_ascii_uppercase() || byte.is_ascii_lowercase() || byte == b'_'
}

/// How many blanks bytes begin with.
fn blanks_len(bytes: &[u8]) -> usize
    ensures value { result ≡ prefix_len is_blank bytes.now }
    ensures within { result ≤ length bytes.now }
{
    for (len, byte) in bytes.iter().enumerate() {
        if !is_blank_byte(*byte) {
            return len;
        }
    }
    bytes.len()
}

/// How many letters, digits and `_` bytes begin with.
fn run_len(bytes: &[u8]) -> usize
    ensures value { result ≡ prefix_len is_name_byte bytes.now }
    ensures within { result ≤ length bytes.now }
{
    for (len, byte) in bytes.iter().enumerate() {
        if !goes_on(*byte) {
            return len;
        }
    }
    bytes.len()
}

/// The bytes without the blanks in front.
#[tactic(auto, unfolding(crate::specs::Lexis::unblanked))]
fn skip_blanks(bytes: &[u8]) -> &[u8]
    ensures value { result.now ≡ unblanked bytes.now }
    ensures within { length result.now ≤ length bytes.now }
{
    let (_, rest) = bytes.split_at(blanks_len(bytes));
    rest
}

/// The letters, digits and `_` in front of bytes, and the bytes after them.
#[tactic(auto, unfolding(crate::specs::Lexis::run_of, crate::specs::Lexis::after_run))]
fn split_run(bytes: &[u8]) -> (&[u8], &[u8])
    ensures front { result.0.now ≡ run_of bytes.now }
    ensures back { result.1.now ≡ after_run bytes.now }
    ensures within { length result.0.now ≤ length bytes.now }
    ensures tail { length result.1.now ≤ length bytes.now }
{
    bytes.split_at(run_len(bytes))
}

/// A number with one more digit, if that is one of the base and it fits.
fn with_digit(base: u32, number: u32, digit: u8) -> Option<u32>
    requires low { 2 ≤ base }
    requires high { base ≤ 36 }
    ensures { result ≡ with_digit_of base number digit }
{
    let value = char::from(digit).to_digit(base)?;
    number.checked_mul(base)?.checked_add(value)
}

/// The number that digits of a base write, if it fits.
#[tactic(auto, unfolding(crate::specs::Lexis::number_in))]
fn number_of_base(base: u32, digits: &[u8]) -> Option<u32>
    requires low { 2 ≤ base }
    requires high { base ≤ 36 }
    ensures { result ≡ number_in base digits.now }
{
    if digits.is_empty() {
        return None;
    }
    let mut number = 0;
    for digit in digits {
        number = with_digit(base, number, *digit)?;
    }
    Some(number)
}

/// The number that a run of digits and letters writes.
fn number_of_run(run: &[u8]) -> Option<u32>
    ensures { result ≡ number_of run.now }
{
    if run.len() > 1 && run[0] == b'0' && run[1] == b'x' {
        number_of_base(16, &run[2..])
    } else {
        number_of_base(10, run)
    }
}

/// The word in front of bytes, and the bytes after it.
#[tactic(auto, unfolding(crate::specs::Lexis::word_at))]
pub(crate) fn word(bytes: &[u8]) -> Option<(&[u8], &[u8])>
    ensures value { option_map (λ x. (x.0.now, x.1.now)) result ≡ word_at bytes.now }
    ensures within { IfSome result (λ x. length x.1.now ≤ length bytes.now) }
{
    let bytes = skip_blanks(bytes);
    let (run, rest) = split_run(bytes);
    if run.is_empty() || bytes[0].is_ascii_digit() {
        None
    } else {
        Some((run, rest))
    }
}

/// The number in front of bytes, and the bytes after it.
#[tactic(auto, unfolding(crate::specs::Lexis::number_at))]
pub(crate) fn number(bytes: &[u8]) -> Option<(u32, &[u8])>
    ensures { option_map (λ x. (x.0, x.1.now)) result ≡ number_at bytes.now }
{
    let (run, rest) = split_run(skip_blanks(bytes));
    let number = number_of_run(run)?;
    Some((number, rest))
}

/// The bytes after a character that bytes have to begin with.
#[tactic(auto, unfolding(crate::specs::Lexis::sign_at))]
pub(crate) fn sign(sign: u8, bytes: &[u8]) -> Option<&[u8]>
    ensures value { option_map (λ x. x.now) result ≡ sign_at sign bytes.now }
    ensures shorter { IfSome result (λ x. length x.now < length bytes.now) }
{
    let bytes = skip_blanks(bytes);
    if !bytes.is_empty() && bytes[0] == sign {
        Some(&bytes[1..])
    } else {
        None
    }
}

/// Whether each byte is ASCII.
fn is_ascii(bytes: &[u8]) -> bool
    ensures { result ≡ list_all (λ byte. nat_lt byte 128) bytes.now }
{
    bytes.iter().all(|byte| *byte < 128)
}

/// Whether nothing but blanks and a comment is left.
#[tactic(auto, unfolding(crate::specs::Lexis::is_over))]
pub(crate) fn over(bytes: &[u8]) -> bool
    ensures { result ≡ is_over bytes.now }
{
    let bytes = skip_blanks(bytes);
    if bytes.is_empty() {
        return true;
    }
    bytes[0] == b';' && is_ascii(bytes)
}

/// Whether a blank stands first.
pub(crate) fn is_spaced(bytes: &[u8]) -> bool
    ensures { result ≡ begins_blank bytes.now }
{
    !bytes.is_empty() && is_blank_byte(bytes[0])
}
