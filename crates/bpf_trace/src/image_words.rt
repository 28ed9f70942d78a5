// What the words of an image are called.

ghost use Rattle.std.specs.Prelude.{◌≡◌, ◌<◌, ◌≤◌, ◌++◌, OnOk, option_map, string_bytes};
ghost use Rattle.bpf_trace.specs.ImageWords.{fixed_word, argument_part, argument_text, owned_text, last_text, word_text, byte_text, place_text};

use bpf_code::Width;
use std::alloc::AllocError;
use std::fmt::Write;
use summary::Edition;

/// A word of the head, or of the place and the length of a field's text.
fn fixed_word(at: u64) -> Option<&'static str>
    ensures { option_map (λ text. text.now) result ≡ fixed_word at }
{
    match at {
        0 => Some(", the byte order"),
        4 => Some(", the kind"),
        8 => Some(", the flags"),
        12 => Some(", the place of the body"),
        16 => Some(", the length of the body"),
        20 => Some(", the number of arguments"),
        24 => Some(", the place of PATH"),
        28 => Some(", the length of PATH"),
        32 => Some(", the place of INTERFACE"),
        36 => Some(", the length of INTERFACE"),
        40 => Some(", the place of MEMBER"),
        44 => Some(", the length of MEMBER"),
        48 => Some(", the place of ERROR_NAME"),
        52 => Some(", the length of ERROR_NAME"),
        56 => Some(", the place of DESTINATION"),
        60 => Some(", the length of DESTINATION"),
        64 => Some(", the place of SENDER"),
        68 => Some(", the length of SENDER"),
        _ => None,
    }
}

/// One of the three words of an argument, by its place among them.
fn argument_part(part: u64) -> Option<&'static str>
    ensures { option_map (λ text. text.now) result ≡ argument_part part }
{
    match part {
        0 => Some(", the type of argument "),
        4 => Some(", the place of argument "),
        8 => Some(", the length of argument "),
        _ => None,
    }
}

/// Adds the name of a word of an argument, by its place among those of all arguments.
fn push_argument(text: &mut String, at: u64) -> Result<(), AllocError>
    ensures { OnOk result (string_bytes text.new ≡ string_bytes text.old ++ argument_text at) }
{
    let n = at / 12;
    match argument_part(at % 12) {
        Some(part) => {
            text.push_str(part)?;
            write!(text, "{n}")
        }
        None => Ok(()),
    }
}

/// Adds the name of a word of ownership bits, by its place among them.
fn push_owned(text: &mut String, at: u64) -> Result<(), AllocError>
    requires { at < 976 }
    ensures { OnOk result (string_bytes text.new ≡ string_bytes text.old ++ owned_text at) }
{
    let slot = at * 8;
    write!(text, ", the ownership bits from slot {slot} on")
}

/// Adds the name of a word after those of the arguments.
fn push_last(text: &mut String, at: u64) -> Result<(), AllocError>
    requires low { 840 ≤ at }
    requires high { at < 976 }
    ensures { OnOk result (string_bytes text.new ≡ string_bytes text.old ++ last_text at) }
{
    if at == 968 {
        return text.push_str(", SERIAL");
    }
    if at == 972 {
        return text.push_str(", REPLY_SERIAL");
    }
    if at % 4 != 0 {
        return Ok(());
    }
    push_owned(text, at - 840)
}

/// Adds the name of the word at a place of the summary.
fn push_word(text: &mut String, at: u64) -> Result<(), AllocError>
    requires { at < 976 }
    ensures { OnOk result (string_bytes text.new ≡ string_bytes text.old ++ word_text at) }
{
    if at < 72 {
        return match fixed_word(at) {
            Some(name) => text.push_str(name),
            None => Ok(()),
        };
    }
    if at < 840 {
        return push_argument(text, at - 72);
    }
    push_last(text, at)
}

/// Adds which byte of the message lies there.
fn push_byte(text: &mut String, byte: u64) -> Result<(), AllocError>
    ensures { OnOk result (string_bytes text.new ≡ string_bytes text.old ++ byte_text byte) }
{
    write!(text, ", at byte {byte} of the message")
}

/// Adds what lies at a place that a load read from: the name of a word of the summary, or which byte of the message.
pub(crate) fn push_place(
    text: &mut String,
    edition: Edition,
    width: Width,
    at: u64,
) -> Result<(), AllocError>
    ensures { OnOk result (string_bytes text.new ≡ string_bytes text.old ++ place_text edition width at) }
{
    let len = edition.summary_len() as u64;
    if at >= len {
        return push_byte(text, at - len);
    }
    match width {
        Width::Word => push_word(text, at),
        Width::Half | Width::Byte => Ok(()),
    }
}
