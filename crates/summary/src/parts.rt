// The parts of a summary.

ghost use Rattle.std.specs.Prelude.{◌≡◌, ◌+◌, ◌*◌, ◌≤◌, ◌++◌, length, min};
ghost use Rattle.std.specs.Int.{w32, to_be_bytes};
ghost use Rattle.message_value.specs.Order.{order_byte};
ghost use Rattle.message_value.specs.ShownArguments.{shown_arg};
ghost use Rattle.message_view.specs.Message.{Message};
ghost use Rattle.message_view.specs.Valid.{Valid};
ghost use Rattle.summary.specs.ImageBytes.{words_bytes, extent_words, argument_words, arguments_words, texts_words, owned_words, serial_words};
ghost use Rattle.summary.specs.Layout.{summary_len};
ghost use Rattle.summary.specs.Parts.{head_with};

use crate::edition::Edition;
use crate::slots::Slots;
use crate::words::Words;
use message_view::{Arg, Args, Extent, Order, TextField, View};

/// How many arguments a summary tells of.
const MAX_ARGUMENTS: usize = 64;

/// The first byte of a message.
fn order_byte(order: Order) -> u8
    ensures { result ≡ order_byte order }
{
    match order {
        Order::Little => b'l',
        Order::Big => b'B',
    }
}

/// A place of the message, counted from the image's start. The sum never wraps, since a message is far shorter than
/// 2^32 bytes. The contract speaks of its four bytes, which a sum that wraps has too, so it requires nothing of the
/// place.
#[inline(always)]
fn place_in_image(edition: Edition, place: u32) -> u32
    ensures { to_be_bytes w32 result ≡ to_be_bytes w32 (summary_len edition + place) }
{
    (edition.summary_len() as u32).wrapping_add(place)
}

/// Writes the head: what a message says first, and where its body lies. The number of arguments is 0 until it is known.
pub fn put_head(words: &mut Words, view: &View<'_>, edition: Edition)
    requires { length words.old + 24 ≤ 976 }
    ensures bytes { (m : Message) → Valid view.now m → words.new ≡ words.old ++ words_bytes (head_with edition m 0) }
    ensures long { length words.new ≡ length words.old + 24 }
{
    let len = view.body().len();
    let place = view.raw().len() - len;
    words.put(u32::from(order_byte(view.order())));
    words.put(u32::from(view.kind().byte()));
    words.put(u32::from(view.flags()));
    words.put(place_in_image(edition, place as u32));
    words.put(len as u32);
    words.put_zeros(1);
}

/// Writes where a text lies: its place and its length, both 0 where it is absent.
#[inline(always)]
fn put_extent(words: &mut Words, edition: Edition, extent: Option<Extent>)
    requires { length words.old + 8 ≤ 976 }
    ensures bytes { words.new ≡ words.old ++ words_bytes (extent_words edition extent) }
    ensures long { length words.new ≡ length words.old + 8 }
{
    match extent {
        None => words.put_zeros(2),
        Some(extent) => {
            words.put(place_in_image(edition, extent.place));
            words.put(extent.len);
        }
    }
}

/// Writes where the texts of the fields lie.
pub fn put_texts(words: &mut Words, view: &View<'_>, edition: Edition)
    requires { length words.old + 48 ≤ 976 }
    ensures bytes { (m : Message) → Valid view.now m → words.new ≡ words.old ++ words_bytes (texts_words edition m) }
    ensures long { length words.new ≡ length words.old + 48 }
{
    put_extent(words, edition, view.extent(TextField::Path));
    put_extent(words, edition, view.extent(TextField::Interface));
    put_extent(words, edition, view.extent(TextField::Member));
    put_extent(words, edition, view.extent(TextField::ErrorName));
    put_extent(words, edition, view.extent(TextField::Destination));
    put_extent(words, edition, view.extent(TextField::Sender));
}

/// Writes where an argument lies.
#[inline(always)]
fn put_argument(words: &mut Words, edition: Edition, arg: Arg<'_>)
    requires { length words.old + 12 ≤ 976 }
    ensures bytes { words.new ≡ words.old ++ words_bytes (argument_words edition (shown_arg arg.entry)) }
    ensures long { length words.new ≡ length words.old + 12 }
{
    words.put(u32::from(arg.code));
    words.put(place_in_image(edition, arg.place));
    words.put(arg.len);
}

/// Writes where the first arguments lie, and answers how many they are.
pub fn put_arguments(words: &mut Words, edition: Edition, mut args: Args<'_>) -> usize
    requires { length words.old + 768 ≤ 976 }
    ensures bytes { words.new ≡ words.old ++ words_bytes (arguments_words edition 64 args.entry) }
    ensures long { length words.new ≡ length words.old + 768 }
    ensures count { result ≡ min (length args.entry) 64 }
{
    let mut left = MAX_ARGUMENTS;
    while left > 0 {
        let Some(arg) = args.next() else {
            break;
        };
        put_argument(words, edition, arg);
        left -= 1;
    }
    words.put_zeros(3 * left);
    MAX_ARGUMENTS - left
}

/// Writes the ownership bits.
fn put_slots(words: &mut Words, slots: &[u32])
    requires { length words.old + 4 * length slots.now ≤ 976 }
    ensures bytes { words.new ≡ words.old ++ words_bytes slots.now }
    ensures long { length words.new ≡ length words.old + 4 * length slots.now }
{
    for word in slots {
        words.put(*word);
    }
}

/// Writes the words after the arguments: the ownership bits and the serials, as far as the edition tells them.
pub fn put_rest(words: &mut Words, view: &View<'_>, owned: &Slots, edition: Edition)
    requires { length words.old ≤ 840 }
    ensures bytes { (m : Message) → Valid view.now m → words.new ≡ words.old ++ words_bytes (owned_words edition owned.now ++ serial_words edition m) }
    ensures long { length words.new + 840 ≡ length words.old + summary_len edition }
{
    match edition {
        Edition::One => put_slots(words, &owned.words()[..16]),
        Edition::Two => {
            put_slots(words, owned.words());
            words.put(view.serial());
            words.put(view.reply_serial().unwrap_or(0));
        }
    }
}
