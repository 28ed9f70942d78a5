// The arguments of a call, read one after the other.

ghost use Rattle.std.specs.Prelude.{◌≡◌, ◌⊎◌, Some, None, drop, option_map, IfOk, IfErr, IfSome, MatchResult, map, length, ◌+◌, ◌<◌, ◌^◌};
ghost use Rattle.std.specs.Int.{w16};
ghost use Rattle.message_value.specs.Order.{number_of};
ghost use Rattle.message_value.specs.Answers.{Reads};
ghost use Rattle.message_value.specs.ShownArguments.{shown_arg};
ghost use Rattle.message_value.specs.Value.{text};
ghost use Rattle.message_view.specs.Message.{Message};
ghost use Rattle.message_view.specs.Valid.{Valid};
ghost use Rattle.bus_messages.specs.declared.call.CallError.TheVariants.{InvalidArgs, NoMemory};
ghost use Rattle.bus_messages.specs.Arguments.{later, first_text, number_from, first_number, instruction_of, instructions_of, elements_of, first_program, text_element, text_elements, texts_of, texts_bytes, first_texts, edition_of};
ghost use Rattle.bus_messages.specs.Calls.{given_by};

use crate::call::CallError;
use bpf_code::Ins;
use message_value::{Arg, Args, Cursor, Order, TextType, padding};
use message_view::{MsgError, View};
use std::alloc::{AllocError, Global};
use std::marker::Model;
use summary::Edition;

/// The bytes of an instruction, which is a struct `(qyyu)` without padding inside.
const INSTRUCTION_LEN: usize = 8;

/// The length of an array has four bytes.
const LENGTH_LEN: usize = 4;

/// What is left of a call's arguments. Where an argument isn't there, or isn't of the type that is asked for, the
/// answer is `InvalidArgs`; after a look at the call's signature this never is.
#[derive(Drop)]
pub(crate) struct Arguments<'a> {
    message: &'a [u8],
    order: Order,
    left: Args<'a>,
    alloc: Global,
}

impl<'a> Model for Arguments<'a> {
    ghost use Rattle.bus_messages.specs.Arguments.{Given};

    ghost Value = { Given };

    ghost view = { λ a. record { message = a.message.now; order = a.order; left = a.left } };
}

/// The number of four bytes at a place.
fn word_at(message: &[u8], order: Order, place: usize) -> Option<u32>
    ensures { result ≡ number_from order (drop place message.now) }
{
    match message.get(place..)? {
        [a, b, c, d, ..] => Some(order.word([*a, *b, *c, *d])),
        _ => None,
    }
}

/// The number of two bytes.
fn half(order: Order, bytes: [u8; 2]) -> u16
    ensures { result ≡ number_of order w16 bytes }
{
    match order {
        Order::Little => u16::from_le_bytes(bytes),
        Order::Big => u16::from_be_bytes(bytes),
    }
}

/// The elements of an array of structs.
fn elements<'a>(message: &'a [u8], array: &Arg<'_>) -> Option<&'a [u8]>
    ensures { option_map (λ bytes. bytes.now) result ≡ elements_of message.entry.now (shown_arg array.now) }
{
    let place = array.place as usize;
    let start = place + LENGTH_LEN;
    message.get(start + padding(INSTRUCTION_LEN, start)..place + array.len as usize)
}

/// An instruction as a struct `(qyyu)`: code, jt, jf, k.
fn instruction(order: Order, bytes: [u8; INSTRUCTION_LEN]) -> Ins
    ensures { result ≡ instruction_of order bytes }
{
    let [a, b, jt, jf, c, d, e, f] = bytes;
    Ins {
        code: half(order, [a, b]),
        jt,
        jf,
        k: order.word([c, d, e, f]),
    }
}

/// The instructions one after the other.
fn instructions(alloc: Global, order: Order, bytes: &[u8]) -> Result<Vec<Ins>, AllocError>
    ensures { IfOk result (λ program. program.items ≡ instructions_of order bytes.now) }
{
    let (groups, _) = bytes.as_chunks::<INSTRUCTION_LEN>();
    let mut program = Vec::with_capacity(alloc, groups.len())?;
    for group in groups {
        program.push(instruction(order, *group))?;
    }
    Ok(program)
}

/// The elements of an array of texts.
fn text_elements<'a>(message: &'a [u8], array: &Arg<'_>) -> Option<&'a [u8]>
    ensures elements { option_map (λ bytes. bytes.now) result ≡ texts_bytes message.entry.now (shown_arg array.now) }
    ensures short { IfSome result (λ bytes. length bytes.now < 2 ^ 32) }
{
    let place = array.place as usize;
    message.get(place + LENGTH_LEN..place + array.len as usize)
}

/// The next text of an array, with the zeros before it.
#[tactic(auto, unfolding(message_value::specs::Reading::value_by))]
fn next_text<'a>(cursor: &mut Cursor<'a>, order: Order) -> Result<&'a str, MsgError>
    ensures { Reads (λ t. text t.now) result cursor.new (text_element order cursor.old) }
{
    cursor.align(4)?;
    TextType::String.read_value(cursor, order)
}

/// The texts one after the other.
fn texts<'a>(alloc: Global, order: Order, bytes: &'a [u8]) -> Result<Vec<&'a str>, CallError>
    requires { length bytes.now < 2 ^ 32 }
    ensures { MatchResult result
        (λ texts. texts_of (text_elements order bytes.entry.now) ≡ Some (map (λ text. text.now) texts.items))
        (λ error. ((error ≡ InvalidArgs) × (texts_of (text_elements order bytes.entry.now) ≡ None)) ⊎ (error ≡ NoMemory)) }
{
    let mut cursor = Cursor::new(0, bytes, MsgError::ArrayLength);
    let mut texts = Vec::new(alloc);
    for _ in 0..bytes.len() {
        if cursor.is_empty() {
            break;
        }
        let text = next_text(&mut cursor, order)?;
        if texts.push(text).is_err() {
            return Err(CallError::NoMemory);
        }
    }
    Ok(texts)
}

impl<'a> Arguments<'a> {
    pub(crate) fn of(alloc: Global, view: &View<'a>) -> Arguments<'a>
        ensures { (m : Message) → Valid view.now m → result ≡ given_by m }
    {
        Arguments {
            message: view.raw(),
            order: view.order(),
            left: view.args(),
            alloc,
        }
    }

    pub(crate) fn text(&mut self) -> Result<&'a str, CallError>
        ensures read { MatchResult result (λ text. first_text self.old ≡ Some text.now) (λ error. (error ≡ InvalidArgs) × (first_text self.old ≡ None)) }
        ensures rest { self.new ≡ later self.old }
    {
        match self.left.next() {
            Some(arg) => arg.text.ok_or(CallError::InvalidArgs),
            None => Err(CallError::InvalidArgs),
        }
    }

    pub(crate) fn number(&mut self) -> Result<u32, CallError>
        ensures read { MatchResult result (λ n. first_number self.old ≡ Some n) (λ error. (error ≡ InvalidArgs) × (first_number self.old ≡ None)) }
        ensures rest { self.new ≡ later self.old }
    {
        match self.left.next() {
            Some(arg) => word_at(self.message, self.order, arg.place as usize).ok_or(
                CallError::InvalidArgs,
            ),
            None => Err(CallError::InvalidArgs),
        }
    }

    pub(crate) fn edition(&mut self) -> Result<Edition, CallError>
        ensures read { result ≡ edition_of (first_number self.old) }
        ensures rest { self.new ≡ later self.old }
    {
        match self.number()? {
            1 => Ok(Edition::One),
            2 => Ok(Edition::Two),
            _ => Err(CallError::BadEdition),
        }
    }

    pub(crate) fn texts(&mut self) -> Result<Vec<&'a str>, CallError>
        ensures read { MatchResult result
            (λ texts. first_texts self.old ≡ Some (map (λ text. text.now) texts.items))
            (λ error. ((error ≡ InvalidArgs) × (first_texts self.old ≡ None)) ⊎ (error ≡ NoMemory)) }
        ensures rest { self.new ≡ later self.old }
    {
        let array = self.left.next().ok_or(CallError::InvalidArgs)?;
        let bytes = text_elements(self.message, &array).ok_or(CallError::InvalidArgs)?;
        texts(self.alloc, self.order, bytes)
    }

    pub(crate) fn program(&mut self) -> Result<Vec<Ins>, CallError>
        ensures { MatchResult result (λ program. first_program self.old ≡ Some program.items) (λ error. ((error ≡ InvalidArgs) × (first_program self.old ≡ None)) ⊎ (error ≡ NoMemory)) }
    {
        let array = self.left.next().ok_or(CallError::InvalidArgs)?;
        let bytes = elements(self.message, &array).ok_or(CallError::InvalidArgs)?;
        let program = instructions(self.alloc, self.order, bytes)?;
        Ok(program)
    }
}
