// What a message is among calls and answers.

ghost use Rattle.std.specs.Prelude.{◌≡◌, ◌==◌, bit_and, option_map};
ghost use Rattle.message_view.specs.Message.{Message, or_empty, reply_serial_of};
ghost use Rattle.message_view.specs.Valid.{Valid};
ghost use Rattle.traffic.specs.Roles.{role_of, role_of_call, role_of_answer, shown_role, shown_call, call_in, answered_in, return, error};

use message_view::{Kind, View};

/// The flag of a call that wants no answer (D-Bus Specification, "Message Format").
const NO_REPLY_EXPECTED: u8 = 1;

/// A call, or the one that an answer is to: who called, with which serial, and who is called or answers. A name that a
/// message doesn't have is empty.
#[derive(Clone, Copy, Debug, PartialEq, Eq)]
pub struct Exchange<'a> {
    pub caller: &'a str,
    pub serial: u32,
    pub callee: &'a str,
}

/// What a message is among calls and answers.
#[derive(Clone, Copy, Debug, PartialEq, Eq)]
pub enum Role<'a> {
    /// A call that wants an answer.
    Call(Exchange<'a>),
    /// A call that wants none.
    OneWay(Exchange<'a>),
    /// An answer with values.
    Return(Exchange<'a>),
    /// An answer that is an error.
    Error(Exchange<'a>),
    Other,
}

impl<'a> Role<'a> {
    /// What a message is.
    pub fn of(view: &View<'a>) -> Role<'a>
        ensures { (m : Message) → Valid view.now m → shown_role result ≡ role_of m }
    {
        match view.kind() {
            Kind::MethodCall => role_of_call(view),
            Kind::MethodReturn => role_of_return(view),
            Kind::Error => role_of_error(view),
            Kind::Signal | Kind::Other(_) => Role::Other,
        }
    }
}

/// What a call is.
fn role_of_call<'a>(view: &View<'a>) -> Role<'a>
    ensures { (m : Message) → Valid view.now m → shown_role result ≡ role_of_call m }
{
    if view.flags() & NO_REPLY_EXPECTED == 0 {
        Role::Call(call_of(view))
    } else {
        Role::OneWay(call_of(view))
    }
}

/// What an answer with values is.
fn role_of_return<'a>(view: &View<'a>) -> Role<'a>
    ensures { (m : Message) → Valid view.now m → shown_role result ≡ role_of_answer return m (reply_serial_of m) }
{
    match view.reply_serial() {
        Some(serial) => Role::Return(answered_by(view, serial)),
        None => Role::Other,
    }
}

/// What an error is.
fn role_of_error<'a>(view: &View<'a>) -> Role<'a>
    ensures { (m : Message) → Valid view.now m → shown_role result ≡ role_of_answer error m (reply_serial_of m) }
{
    match view.reply_serial() {
        Some(serial) => Role::Error(answered_by(view, serial)),
        None => Role::Other,
    }
}

/// The call that a message is.
fn call_of<'a>(view: &View<'a>) -> Exchange<'a>
    ensures { (m : Message) → Valid view.now m → shown_call result ≡ call_in m }
{
    Exchange {
        caller: or_empty(view.sender()),
        serial: view.serial(),
        callee: or_empty(view.destination()),
    }
}

/// The call of a serial that a message answers.
fn answered_by<'a>(view: &View<'a>, serial: u32) -> Exchange<'a>
    ensures { (m : Message) → Valid view.now m → shown_call result ≡ answered_in m serial }
{
    Exchange {
        caller: or_empty(view.destination()),
        serial,
        callee: or_empty(view.sender()),
    }
}

/// A name, or an empty text where there is none.
fn or_empty<'a>(name: Option<&'a str>) -> &'a str
    ensures { result.now ≡ or_empty (option_map (λ text. text.now) name.entry) }
{
    match name {
        Some(name) => name,
        None => "",
    }
}
