// Messages whose header fields are known before, but for the destination. They are put together from a few pieces, where a
// builder would look at each letter of the header again.

ghost use Rattle.std.specs.Prelude.{◌≡◌, ◌+◌, ◌%◌, ◌≤◌, ◌++◌, ◌∷◌, ℕ, [], true, length, option_map, IfOk, IfSome, Some, None};
ghost use Rattle.signature.specs.DataType.{basic};
ghost use Rattle.message_value.specs.declared.order.Order.TheVariants.{Little};
ghost use Rattle.message_value.specs.Order.{word_bytes};
ghost use Rattle.message_value.specs.Value.{text};
ghost use Rattle.message_value.specs.Spelling.{padding, zeros, text_bytes, value_bytes};
ghost use Rattle.message_build.specs.Growing.{Appends};
ghost use Rattle.bus_messages.specs.Prepared.{IsShortText, MayBeTo, IsMessageOf, destination_bytes, front_bytes, texts_after};

use message_value::padding;
use message_view::Kind;
use signature::check_bus_name;
use std::alloc::{AllocError, Global};

/// The longest text that is an argument here, in bytes: a name has no more.
const MAX_TEXT_LEN: usize = 255;

/// How many bytes stand before a message's fields.
const FIXED_LEN: usize = 16;

/// How many bytes stand before the text of a field: its code, the signature of its variant, and the text's length.
const FIELD_HEAD_LEN: usize = 8;

/// How many bytes stand before an argument's text, which are its length.
const TEXT_HEAD_LEN: usize = 4;

/// Whether a text may be an argument, and is no longer than a name.
fn is_short_text(text: &str) -> bool
    ensures { result ≡ true → IsShortText text.now }
{
    text.len() <= MAX_TEXT_LEN && !text.as_bytes().contains(&0)
}

/// Whether a message may go there.
fn may_be_to(to: Option<&str>) -> bool
    ensures { result ≡ true → MayBeTo (option_map (λ name. name.now) to.entry) }
{
    match to {
        None => true,
        Some(name) => check_bus_name(name),
    }
}

/// Where a text ends that is an argument after `place` bytes of others.
fn text_end(place: usize, string: &str) -> usize
    requires place { place ≤ 4096 }
    requires short { length string.now ≤ 255 }
    ensures { result ≡ place + length (value_bytes Little place (basic 115) (text string.now)) }
{
    place + padding(4, place) + TEXT_HEAD_LEN + string.len() + 1
}

/// Appends zeros, at most eight.
fn push_zeros(bytes: &mut Vec<u8>, count: usize) -> Result<(), AllocError>
    requires { count ≤ 8 }
    ensures { Appends result bytes.old.items bytes.new.items (zeros count) }
{
    let zeros = [0; 8];
    bytes.extend_from_slice(&zeros[..count])
}

/// Appends a number in four bytes.
fn push_word(bytes: &mut Vec<u8>, n: u32) -> Result<(), AllocError>
    ensures { Appends result bytes.old.items bytes.new.items (word_bytes Little n) }
{
    bytes.extend_from_slice(&n.to_le_bytes())
}

/// Appends a text that is an argument, with the zeros before it.
fn push_text(bytes: &mut Vec<u8>, string: &str) -> Result<(), AllocError>
    requires { length string.now ≤ 255 }
    ensures { Appends result bytes.old.items bytes.new.items (value_bytes Little (length bytes.old.items) (basic 115) (text string.now)) }
{
    push_zeros(bytes, padding(4, bytes.len()))?;
    push_word(bytes, string.len() as u32)?;
    bytes.extend_from_slice(string.as_bytes())?;
    bytes.extend_from_slice(&[0])
}

/// Appends three texts that are the arguments, at a multiple of eight.
fn push_three_texts(
    bytes: &mut Vec<u8>,
    first: &str,
    second: &str,
    third: &str,
) -> Result<(), AllocError>
    requires aligned { length bytes.old.items % 8 ≡ 0 }
    requires first { length first.now ≤ 255 }
    requires second { length second.now ≤ 255 }
    requires third { length third.now ≤ 255 }
    ensures { IfOk result (λ _. bytes.new.items ≡ bytes.old.items ++ texts_after [] (first.now ∷ second.now ∷ third.now ∷ [])) }
{
    push_text(bytes, first)?;
    push_text(bytes, second)?;
    push_text(bytes, third)?;
    Ok(())
}

/// How many bytes a destination takes, with the zeros after it.
fn destination_len(to: Option<&str>) -> usize
    requires { MayBeTo (option_map (λ name. name.now) to) }
    ensures { result ≡ length (destination_bytes (option_map (λ name. name.now) to.entry)) }
{
    match to {
        None => 0,
        Some(name) => {
            let end = FIELD_HEAD_LEN + name.len() + 1;
            end + padding(8, end)
        }
    }
}

/// Appends a destination, with the zeros after it.
fn push_destination(bytes: &mut Vec<u8>, to: Option<&str>) -> Result<(), AllocError>
    requires { MayBeTo (option_map (λ name. name.now) to) }
    ensures { Appends result bytes.old.items bytes.new.items (destination_bytes (option_map (λ name. name.now) to.entry)) }
{
    let Some(name) = to else {
        return Ok(());
    };
    bytes.extend_from_slice(&[6, 1, b's', 0])?;
    push_word(bytes, name.len() as u32)?;
    bytes.extend_from_slice(name.as_bytes())?;
    push_zeros(bytes, 1 + padding(8, FIELD_HEAD_LEN + name.len() + 1))
}

/// The header of a message that wants no reply, but for its serial and its destination.
#[derive(Clone, Copy)]
pub(crate) struct Prepared<'a> {
    pub(crate) kind: Kind,
    /// The fields before the destination, with the zeros after the last one.
    pub(crate) before: &'a [u8],
    /// The fields after the destination.
    pub(crate) after: &'a [u8],
}

/// The flag that no reply is expected.
const NO_REPLY: u8 = 1;

impl Prepared<'_> {
    /// The bytes of a message up to its body, with room for the body.
    fn front(
        self,
        alloc: Global,
        serial: u32,
        to: Option<&str>,
        body_len: usize,
    ) -> Result<Vec<u8>, AllocError>
        requires before { length self.before.now ≤ 256 }
        requires after { length self.after.now ≤ 256 }
        requires to { MayBeTo (option_map (λ name. name.now) to) }
        requires body { body_len ≤ 4096 }
        ensures aligned { IfOk result (λ v. length v.items % 8 ≡ 0) }
        ensures front { IfOk result (λ v. v.items ≡ front_bytes self.entry.kind serial body_len (self.entry.before.now ++ (destination_bytes (option_map (λ name. name.now) to.entry) ++ self.entry.after.now))) }
    {
        let fields_len = self.before.len() + destination_len(to) + self.after.len();
        let missing = padding(8, fields_len);
        let mut bytes = Vec::with_capacity(alloc, FIXED_LEN + fields_len + missing + body_len)?;
        bytes.extend_from_slice(&[b'l', self.kind.byte(), NO_REPLY, 1])?;
        push_word(&mut bytes, body_len as u32)?;
        push_word(&mut bytes, serial)?;
        push_word(&mut bytes, fields_len as u32)?;
        bytes.extend_from_slice(self.before)?;
        push_destination(&mut bytes, to)?;
        bytes.extend_from_slice(self.after)?;
        push_zeros(&mut bytes, missing)?;
        Ok(bytes)
    }

    /// The message with a text as its argument. None if it would not be valid, or the text is longer than a name, or memory is
    /// refused: then a builder says what is wrong.
    pub(crate) fn with_text(
        self,
        alloc: Global,
        serial: u32,
        to: Option<&str>,
        text: &str,
    ) -> Option<Vec<u8>>
        requires before { length self.before.now ≤ 256 }
        requires after { length self.after.now ≤ 256 }
        ensures { IfSome result (λ v. IsMessageOf self.entry.kind serial self.entry.before.now (option_map (λ name. name.now) to.entry) self.entry.after.now (text.entry.now ∷ []) v.items) }
    {
        if serial == 0 || !may_be_to(to) || !is_short_text(text) {
            return None;
        }
        let mut bytes = self.front(alloc, serial, to, text_end(0, text)).ok()?;
        push_text(&mut bytes, text).ok()?;
        Some(bytes)
    }

    /// The message with three texts as its arguments; None as of one text.
    pub(crate) fn with_three_texts(
        self,
        alloc: Global,
        serial: u32,
        to: Option<&str>,
        first: &str,
        second: &str,
        third: &str,
    ) -> Option<Vec<u8>>
        requires before { length self.before.now ≤ 256 }
        requires after { length self.after.now ≤ 256 }
        ensures { IfSome result (λ v. IsMessageOf self.entry.kind serial self.entry.before.now (option_map (λ name. name.now) to.entry) self.entry.after.now (first.entry.now ∷ second.entry.now ∷ third.entry.now ∷ []) v.items) }
    {
        if serial == 0 || !may_be_to(to) {
            return None;
        }
        if !is_short_text(first) || !is_short_text(second) || !is_short_text(third) {
            return None;
        }
        let end = text_end(text_end(text_end(0, first), second), third);
        let mut bytes = self.front(alloc, serial, to, end).ok()?;
        push_three_texts(&mut bytes, first, second, third).ok()?;
        Some(bytes)
    }
}
