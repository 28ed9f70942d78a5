// What the messages of the bus carry.

ghost use Rattle.std.specs.Prelude.{◌≡◌};
ghost use Rattle.signature.specs.DataType.{variant, dict};
ghost use Rattle.message_value.specs.declared.order.Order.TheVariants.{Little};
ghost use Rattle.message_value.specs.Spelling.{value_bytes};
ghost use Rattle.message_build.specs.Adding.{Adds};
ghost use Rattle.bus_messages.specs.Bodies.{user_properties, with_body};

use crate::property::Property;
use message_build::{BuildError, Builder, NamedFact, TextList};

/// The signature of a dictionary of properties.
const PROPERTIES: &[u8] = b"a{sv}";

/// No properties: a length of 0, and the padding before the entry that isn't there.
const NO_PROPERTIES: &[u8] = &[0; 8];

/// The bus's features, an array of one string, as a variant.
const FEATURES: &[u8] = b"\x02as\0\x14\0\0\0\x0f\0\0\0HeaderFiltering\0";

/// The bus's interfaces, an array of strings, as a variant.
const INTERFACES: &[u8] =
    b"\x02as\0\x68\0\0\0\x1f\0\0\0org.freedesktop.DBus.Monitoring\0\x20\0\0\0org.freedesktop.DBus.Debug.Stats\0\0\0\0\x17\0\0\0org.example.ProgramBus1\0";

/// Both properties of the bus: 176 bytes of entries.
const BUS_PROPERTIES: &[u8] =
    b"\xb0\0\0\0\0\0\0\0\x08\0\0\0Features\0\x02as\0\0\0\0\x14\0\0\0\x0f\0\0\0HeaderFiltering\0\0\0\0\0\x0a\0\0\0Interfaces\0\x02as\0\0\x68\0\0\0\x1f\0\0\0org.freedesktop.DBus.Monitoring\0\x20\0\0\0org.freedesktop.DBus.Debug.Stats\0\0\0\0\x17\0\0\0org.example.ProgramBus1\0";

/// The user of this number as an `a{sv}`, whose one entry is UnixUserID: 24 bytes.
fn user_bytes(number: u32) -> [u8; 32]
    ensures { result ≡ value_bytes Little 0 (dict 115 variant) (user_properties number) }
{
    let [n0, n1, n2, n3] = number.to_le_bytes();
    [
        24, 0, 0, 0, 0, 0, 0, 0, 10, 0, 0, 0, b'U', b'n', b'i', b'x', b'U', b's', b'e', b'r', b'I',
        b'D', 0, 1, b'u', 0, 0, 0, n0, n1, n2, n3,
    ]
}

/// The arguments of an answer or a signal of the bus.
#[derive(Clone, Copy)]
pub enum Body<'a> {
    Nothing,
    Text(&'a str),
    Number(u32),
    Truth(bool),
    Texts(&'a [&'a str]),
    /// No entries of an `a{sv}`.
    EmptyDict,
    /// A property of the bus, as a variant.
    Property(Property),
    /// All properties of the bus, as an `a{sv}`.
    Properties,
    /// What is known of a client, as an `a{sv}`: the number of the user that it runs as.
    User(u32),
    /// An `a{sv}`.
    Facts(&'a [NamedFact<'a>]),
    /// An `a{sas}`.
    TextLists(&'a [TextList]),
}

impl Body<'_> {
    /// Adds the arguments to a message.
    ///
    /// # Errors
    ///
    /// `NoMemory`, and then nothing is added.
    pub(crate) fn add_to(self, builder: &mut Builder<'_>) -> Result<(), BuildError>
        ensures { Adds result builder.old builder.new (with_body builder.old self.entry) }
    {
        match self {
            Body::Nothing => Ok(()),
            Body::Text(text) => builder.arg_str(text),
            Body::Number(number) => builder.arg_u32(number),
            Body::Truth(truth) => builder.arg_bool(truth),
            Body::Texts(texts) => builder.arg_strs(texts),
            Body::EmptyDict => builder.raw_body(PROPERTIES, NO_PROPERTIES),
            Body::Property(Property::Features) => builder.raw_body(b"v", FEATURES),
            Body::Property(Property::Interfaces) => builder.raw_body(b"v", INTERFACES),
            Body::Properties => builder.raw_body(PROPERTIES, BUS_PROPERTIES),
            Body::User(number) => builder.raw_body(PROPERTIES, &user_bytes(number)),
            Body::Facts(facts) => builder.arg_facts(facts),
            Body::TextLists(lists) => builder.arg_text_lists(lists),
        }
    }
}
