// Reading from left to right within an array or the body.

ghost use Rattle.std.specs.Prelude.{◌≡◌, ◌+◌, ◌^◌, ◌<◌, ◌≤◌, ◌==◌, length, IfOk, Ok};
ghost use Rattle.std.specs.List.{list_all};
ghost use Rattle.message_value.specs.Reading.{At, item_at, aligned_at, byte_at, word_at, signature_at, extent_at};
ghost use Rattle.message_value.specs.Spelling.{padding};
ghost use Rattle.message_value.specs.Steps.{IsGone};
ghost use Rattle.message_value.specs.Answers.{Reads, Skips, ReadsType};
ghost use Rattle.message_value.specs.Bytes.{AreBytes};

use crate::error::MsgError;
use crate::order::Order;
use signature::OneType;
use std::marker::Model;

/// An array has at most 64 MiB.
const MAX_ARRAY_LEN: u32 = 67108864;

/// A place of the message, and the bytes that follow there of the innermost array, or of the body where no array holds
/// the place.
#[derive(Drop)]
pub struct Cursor<'a> {
    place: usize,
    rest: &'a [u8],
    outside: MsgError,
}

impl<'a> Model for Cursor<'a> {
    ghost use Rattle.std.specs.Prelude.{◌+◌, ◌<◌, ◌^◌, length};
    ghost use Rattle.message_value.specs.Reading.{At};
    ghost use Rattle.message_value.specs.Bytes.{AreBytes};

    ghost Value = { At };

    ghost view = { λ c. record { place = c.place; rest = c.rest.now; outside = c.outside } };

    ghost invariant = { λ c. (c.place + length c.rest.now < 2 ^ 32) × AreBytes c.rest.now };
}

/// How many bytes lie before the next multiple. The alignments that values have are told apart, so that nothing is divided
/// by a number that isn't known.
#[inline(always)]
pub fn padding(alignment: usize, place: usize) -> usize
    requires { 0 < alignment }
    ensures { result ≡ padding alignment place }
{
    match alignment {
        1 => (1 - place % 1) % 1,
        2 => (2 - place % 2) % 2,
        4 => (4 - place % 4) % 4,
        8 => (8 - place % 8) % 8,
        _ => (alignment - place % alignment) % alignment,
    }
}

/// Whether each byte is zero.
pub fn are_zeros(bytes: &[u8]) -> bool
    ensures { result ≡ list_all (λ byte. byte == 0) bytes.now }
{
    bytes.iter().all(|byte| *byte == 0)
}

impl<'a> Cursor<'a> {
    /// A cursor at a place of the message, before these bytes. An item that reaches past them is the fault `outside`.
    pub fn new(place: usize, rest: &'a [u8], outside: MsgError) -> Self
        requires { place + length rest.now < 2 ^ 32 }
        ensures { result ≡ record { place = place; rest = rest.entry.now; outside = outside } }
    {
        Cursor {
            place,
            rest,
            outside,
        }
    }

    /// Where it stands, counted from the message's start.
    pub fn place(&self) -> usize
        ensures { result ≡ self.now.place }
    {
        self.place
    }

    /// How many bytes are left.
    pub(crate) fn len(&self) -> usize
        ensures { result ≡ length self.now.rest }
    {
        self.rest.len()
    }

    /// Where it stands, as a number of four bytes.
    pub fn place_word(&self) -> u32
        ensures place { result ≡ self.now.place }
        ensures within { result + length self.now.rest < 2 ^ 32 }
    {
        self.place as u32
    }

    /// The bytes that are left.
    pub(crate) fn rest(&self) -> &'a [u8]
        ensures rest { result.now ≡ self.now.rest }
        ensures bound { length result.now < 2 ^ 32 }
        ensures bytes { AreBytes result.now }
    {
        self.rest
    }

    /// Whether no byte is left.
    pub fn is_empty(&self) -> bool
        ensures { result ≡ (length self.now.rest == 0) }
    {
        self.rest.is_empty()
    }

    /// An item of `len` bytes. Fewer that are left are the fault `outside`.
    #[tactic(auto, unfolding(crate::specs::Reading::item_at))]
    pub fn item(&mut self, len: usize) -> Result<&'a [u8], MsgError>
        ensures read { Reads (λ bytes. bytes.now) result self.new (item_at len self.old) }
        ensures len { IfOk result (λ bytes. length bytes.now ≡ len) }
    {
        if self.rest.len() < len {
            return Err(self.outside);
        }
        let (item, rest) = self.rest.split_at(len);
        self.place += len;
        self.rest = rest;
        Ok(item)
    }

    /// Goes over the zeros up to a multiple.
    #[tactic(auto, unfolding(crate::specs::Reading::aligned_at))]
    pub fn align(&mut self, alignment: usize) -> Result<(), MsgError>
        requires { 0 < alignment }
        ensures { Skips result self.new (aligned_at alignment self.old) }
    {
        let skipped = self.item(padding(alignment, self.place))?;
        if are_zeros(skipped) {
            Ok(())
        } else {
            Err(MsgError::Padding)
        }
    }

    /// One byte.
    #[tactic(auto, unfolding(crate::specs::Reading::byte_at))]
    pub fn byte(&mut self) -> Result<u8, MsgError>
        ensures { Reads (λ byte. byte) result self.new (byte_at self.old) }
    {
        let item = self.item(1)?;
        Ok(item[0])
    }

    /// A number of four bytes.
    #[tactic(auto, unfolding(crate::specs::Reading::word_at))]
    pub fn word(&mut self, order: Order) -> Result<u32, MsgError>
        ensures { Reads (λ n. n) result self.new (word_at order self.old) }
    {
        let item = self.item(4)?;
        Ok(order.word([item[0], item[1], item[2], item[3]]))
    }

    /// The signature of a variant, which is one complete type.
    #[tactic(auto, unfolding(crate::specs::Reading::signature_at))]
    pub fn signature(&mut self) -> Result<OneType<'a>, MsgError>
        ensures { ReadsType result self.new (signature_at self.old) }
    {
        let len = usize::from(self.byte()?);
        let item = self.item(len + 1)?;
        let value_type = OneType::read(&item[..len]).ok_or(MsgError::BadSignature)?;
        if item[len] != 0 {
            return Err(MsgError::BadText);
        }
        Ok(value_type)
    }

    /// The length of an array, and then the extent of its elements.
    #[tactic(auto, unfolding(crate::specs::Reading::extent_at))]
    pub(crate) fn extent(&mut self, order: Order, alignment: usize) -> Result<Cursor<'a>, MsgError>
        requires { 0 < alignment }
        ensures { Reads (λ inner. inner) result self.new (extent_at order alignment self.old) }
    {
        let len = self.word(order)?;
        if len > MAX_ARRAY_LEN {
            return Err(MsgError::ArrayLength);
        }
        self.align(alignment)?;
        let place = self.place;
        let elements = self.item(len as usize)?;
        Ok(Cursor::new(place, elements, MsgError::ArrayLength))
    }

    /// An item of `len` bytes, all of which are there.
    #[tactic(auto, unfolding(crate::specs::Reading::item_at))]
    pub(crate) fn skip(&mut self, len: usize) -> &'a [u8]
        requires { len ≤ length self.old.rest }
        ensures read { item_at len self.old ≡ Ok (result.now, self.new) }
        ensures len { length result.now ≡ len }
    {
        let (item, rest) = self.rest.split_at(len);
        self.place += len;
        self.rest = rest;
        item
    }

    /// The zeros up to a multiple, all of which are there.
    pub(crate) fn skip_padding(&mut self, alignment: usize)
        requires some { 0 < alignment }
        requires read { IsGone (aligned_at alignment self.old) }
        ensures gone { aligned_at alignment self.old ≡ Ok self.new }
        ensures bytes { AreBytes self.old.rest }
    {
        self.skip(padding(alignment, self.place));
    }

    /// One byte, which is there.
    #[tactic(auto, unfolding(crate::specs::Reading::byte_at))]
    pub(crate) fn skip_byte(&mut self) -> u8
        requires { 1 ≤ length self.old.rest }
        ensures { byte_at self.old ≡ Ok (result, self.new) }
    {
        self.skip(1)[0]
    }

    /// A number of four bytes, all of which are there.
    #[tactic(auto, unfolding(crate::specs::Reading::word_at))]
    pub(crate) fn skip_word(&mut self, order: Order) -> u32
        requires { 4 ≤ length self.old.rest }
        ensures { word_at order self.old ≡ Ok (result, self.new) }
    {
        let item = self.skip(4);
        order.word([item[0], item[1], item[2], item[3]])
    }
}
