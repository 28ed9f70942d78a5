// Going over texts that were checked.

ghost use Rattle.std.specs.Prelude.{◌≡◌, ◌<◌, ◌^◌, length, Ok};
ghost use Rattle.message_value.specs.Value.{text};
ghost use Rattle.message_value.specs.Reading.{text_at, long_text_at, short_text_at, text_value_at, IsRead};
ghost use Rattle.message_value.specs.TextTypes.{text_code};

use crate::cursor::Cursor;
use crate::order::Order;
use crate::text::TextType;
use std::str::from_utf8_unchecked;

impl TextType {
    /// A text of `len` bytes with its zero byte.
    #[inline(always)]
    fn skip<'a>(self, cursor: &mut Cursor<'a>, len: usize) -> &'a str
        requires fits { len < 2 ^ 32 }
        requires read { IsRead (text_at (text_code self) len cursor.old) }
        ensures read { text_at (text_code self) len cursor.old ≡ Ok (result.now, cursor.new) }
        ensures len { length result.now ≡ len }
    {
        let item = cursor.skip(len + 1);
        unsafe { from_utf8_unchecked(&item[..len]) }
    }

    /// A text whose length is a number of four bytes.
    #[tactic(auto, unfolding(crate::specs::Reading::long_text_at))]
    #[inline(always)]
    fn skip_long<'a>(self, cursor: &mut Cursor<'a>, order: Order) -> &'a str
        requires { IsRead (long_text_at order (text_code self) cursor.old) }
        ensures read { long_text_at order (text_code self) cursor.old ≡ Ok (result.now, cursor.new) }
        ensures short { length result.now < 2 ^ 32 }
    {
        let len = cursor.skip_word(order);
        self.skip(cursor, len as usize)
    }

    /// A signature, whose length is a byte.
    #[tactic(auto, unfolding(crate::specs::Reading::short_text_at))]
    #[inline(always)]
    fn skip_short<'a>(cursor: &mut Cursor<'a>) -> &'a str
        requires { IsRead (short_text_at cursor.old) }
        ensures read { short_text_at cursor.old ≡ Ok (result.now, cursor.new) }
        ensures short { length result.now < 2 ^ 32 }
    {
        let len = cursor.skip_byte();
        TextType::Signature.skip(cursor, usize::from(len))
    }

    /// A value of this type after its padding, which is known to be there: none of its bytes is looked at but its
    /// length.
    #[tactic(auto, unfolding(crate::specs::Reading::text_value_at))]
    #[inline(always)]
    pub fn skip_value<'a>(self, cursor: &mut Cursor<'a>, order: Order) -> &'a str
        requires { IsRead (text_value_at order (text_code self) cursor.old) }
        ensures read { text_value_at order (text_code self) cursor.old ≡ Ok (text result.now, cursor.new) }
        ensures short { length result.now < 2 ^ 32 }
    {
        match self {
            TextType::Signature => TextType::skip_short(cursor),
            TextType::String | TextType::ObjectPath => self.skip_long(cursor, order),
        }
    }
}
