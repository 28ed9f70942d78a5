// The message that stands in front of a session's input.

ghost use Rattle.std.specs.Prelude.{◌≡◌, option_map};
ghost use Rattle.message_view.specs.Message.{Message, member_of};
ghost use Rattle.message_view.specs.Valid.{Valid};
ghost use Rattle.sessions.specs.Openings.{IsOpeningOf, opening_text};

use arrayvec::ArrayString;
use message_view::{Kind, View};
use std::fmt;

/// The longest name of a member, in bytes (D-Bus Specification, "Valid Names").
const MAX_NAME_LEN: usize = 255;

/// What a log says of a message: its kind, and its member if it has one.
#[derive(Clone, Copy, Debug)]
pub struct Opening {
    pub kind: Kind,
    pub member: Option<ArrayString<MAX_NAME_LEN>>,
}

impl Opening {
    pub(crate) fn of(view: &View<'_>) -> Opening
        ensures { (m : Message) → Valid view.now m → IsOpeningOf m result }
    {
        Opening {
            kind: view.kind(),
            member: member_of(view),
        }
    }
}

fn member_of(view: &View<'_>) -> Option<ArrayString<MAX_NAME_LEN>>
    ensures { (m : Message) → Valid view.now m → option_map (λ text. text.bytes) result ≡ member_of m }
{
    ArrayString::from(view.member()?).ok()
}

impl fmt::Display for Opening {
    ghost use Rattle.std.specs.Prelude.{Some};

    ghost output = { λ opening. Some (opening_text opening) };

    fn fmt<W: fmt::Write>(&self, f: &mut fmt::Formatter<W>) -> fmt::Result {
        match self.kind {
            Kind::MethodCall => f.write_str("call")?,
            Kind::MethodReturn => f.write_str("return")?,
            Kind::Error => f.write_str("error")?,
            Kind::Signal => f.write_str("signal")?,
            Kind::Other(byte) => write!(f, "kind {byte}")?,
        }
        match &self.member {
            Some(member) => write!(f, " {}", member.as_str()),
            None => Ok(()),
        }
    }
}
