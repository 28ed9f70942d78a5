// The header of a message that is built.

ghost use Rattle.std.specs.Prelude.{◌≡◌, ◌<◌, ℕ, List, ◌∷◌, []};
ghost use Rattle.message_view.specs.Header.{kind_byte};
ghost use Rattle.message_build.specs.Asked.{text_field, number_field, signature_field};
ghost use Rattle.message_build.specs.Headers.{InRange, bare_header, fields_set, has_needed, is_sound_header, kind_is_own};
ghost use Rattle.message_build.specs.HeaderFields.{HoldEach, fields_of, text_said};

use crate::field::HeaderField;
use message_view::Kind;

/// The number of fields that a message may be given.
const FIELDS: usize = 8;

/// What a builder was told, but for the body.
#[derive(Clone, Copy)]
pub(crate) struct Header<'a> {
    pub(crate) kind: Kind,
    pub(crate) flags: u8,
    pub(crate) serial: u32,
    pub(crate) path: Option<&'a str>,
    pub(crate) interface: Option<&'a str>,
    pub(crate) member: Option<&'a str>,
    pub(crate) error_name: Option<&'a str>,
    pub(crate) reply_serial: Option<u32>,
    pub(crate) destination: Option<&'a str>,
    pub(crate) sender: Option<&'a str>,
}

/// The signature of a body; an empty one is left out.
fn signature_field(signature: &[u8]) -> Option<HeaderField<'_>>
    ensures field { fields_of (result ∷ []) ≡ signature_field signature.now }
    ensures holds { HoldEach (result ∷ []) }
{
    if signature.is_empty() {
        None
    } else {
        Some(HeaderField::Signature(signature))
    }
}

impl<'a> Header<'a> {
    /// A header with no fields.
    pub(crate) fn new(kind: Kind, flags: u8, serial: u32) -> Self
        ensures { result ≡ bare_header kind flags serial }
    {
        Header {
            kind,
            flags,
            serial,
            path: None,
            interface: None,
            member: None,
            error_name: None,
            reply_serial: None,
            destination: None,
            sender: None,
        }
    }

    fn path_field(&self) -> Option<HeaderField<'a>>
        ensures field { fields_of (result ∷ []) ≡ text_field 1 111 (text_said self.now.path) }
        ensures holds { HoldEach (result ∷ []) }
    {
        Some(HeaderField::Path(self.path?))
    }

    fn interface_field(&self) -> Option<HeaderField<'a>>
        ensures field { fields_of (result ∷ []) ≡ text_field 2 115 (text_said self.now.interface) }
        ensures holds { HoldEach (result ∷ []) }
    {
        Some(HeaderField::Interface(self.interface?))
    }

    fn member_field(&self) -> Option<HeaderField<'a>>
        ensures field { fields_of (result ∷ []) ≡ text_field 3 115 (text_said self.now.member) }
        ensures holds { HoldEach (result ∷ []) }
    {
        Some(HeaderField::Member(self.member?))
    }

    fn error_name_field(&self) -> Option<HeaderField<'a>>
        ensures field { fields_of (result ∷ []) ≡ text_field 4 115 (text_said self.now.error_name) }
        ensures holds { HoldEach (result ∷ []) }
    {
        Some(HeaderField::ErrorName(self.error_name?))
    }

    fn reply_serial_field(&self) -> Option<HeaderField<'a>>
        ensures field { fields_of (result ∷ []) ≡ number_field 5 self.now.reply_serial }
        ensures holds { HoldEach (result ∷ []) }
    {
        Some(HeaderField::ReplySerial(self.reply_serial?))
    }

    fn destination_field(&self) -> Option<HeaderField<'a>>
        ensures field { fields_of (result ∷ []) ≡ text_field 6 115 (text_said self.now.destination) }
        ensures holds { HoldEach (result ∷ []) }
    {
        Some(HeaderField::Destination(self.destination?))
    }

    fn sender_field(&self) -> Option<HeaderField<'a>>
        ensures field { fields_of (result ∷ []) ≡ text_field 7 115 (text_said self.now.sender) }
        ensures holds { HoldEach (result ∷ []) }
    {
        Some(HeaderField::Sender(self.sender?))
    }

    /// The fields by rising code, with the body's signature last.
    pub(crate) fn fields<'b>(&'b self, signature: &'b [u8]) -> [Option<HeaderField<'b>>; FIELDS]
        ensures fields { fields_of result ≡ fields_set self.now signature.now }
        ensures hold { HoldEach result }
    {
        [
            self.path_field(),
            self.interface_field(),
            self.member_field(),
            self.error_name_field(),
            self.reply_serial_field(),
            self.destination_field(),
            self.sender_field(),
            signature_field(signature),
        ]
    }

    /// Whether the fields are set without which a message of the kind is none.
    fn has_required(&self) -> bool
        ensures { result ≡ has_needed self.now }
    {
        match self.kind {
            Kind::MethodCall => self.path.is_some() && self.member.is_some(),
            Kind::MethodReturn => self.reply_serial.is_some(),
            Kind::Error => self.error_name.is_some() && self.reply_serial.is_some(),
            Kind::Signal => self.path.is_some()
                && self.interface.is_some()
                && self.member.is_some(),
            Kind::Other(_) => true,
        }
    }

    /// Whether the kind is the one of its byte.
    fn has_kind(&self) -> bool
        ensures own { result ≡ kind_is_own self.now.kind }
        ensures fits { kind_byte self.now.kind < 256 }
    {
        match self.kind {
            Kind::Other(byte) => byte > 4,
            _ => true,
        }
    }

    /// Whether a message may have this kind, this serial and, but for what the fields hold, these fields.
    pub(crate) fn is_sound(&self) -> bool
        ensures sound { result ≡ is_sound_header self.now }
        ensures in_range { InRange self.now }
    {
        let (_flags, serial) = (self.flags, self.serial);
        self.has_kind() && serial != 0 && self.has_required()
    }
}
