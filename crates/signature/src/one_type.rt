// One complete type.

use crate::basic_type::BasicType;
use crate::parts::Parts;
use crate::reading::Signature;
use crate::types::Types;
use crate::walk::is_basic;
use std::marker::Model;

/// The text of one complete type (D-Bus Specification, "Type System").
#[derive(Drop)]
pub struct OneType<'a> {
    text: &'a [u8],
}

impl<'a> Model for OneType<'a> {
    ghost use Rattle.std.specs.Prelude.{ℕ, List};
    ghost use Rattle.signature.specs.DataType.{DataType, TypeText};

    ghost Value = { List ℕ };

    ghost view = { λ t. t.text.now };

    ghost invariant = { λ t. (type : DataType) × TypeText type t.text.now };
}

impl<'a> OneType<'a> {
    ghost use Rattle.std.specs.Prelude.{◌≡◌, ◌≤◌, length, None, IfSome, IsSome, MatchOption};
    ghost use Rattle.signature.specs.DataType.{DataType, TypeText};
    ghost use Rattle.signature.specs.Alignment.{alignment_of};
    ghost use Rattle.signature.specs.Parts.{ArePartsOf, AreShorter};
    ghost use Rattle.signature.specs.Trees.{type_of};

    /// Reads one complete type, of at most 255 bytes.
    pub fn read(text: &'a [u8]) -> Option<OneType<'a>>
        // The answer is the text of a type.
        ensures found { IfSome result (λ t. (t ≡ text.now) × (length text.now ≤ 255) × ((type : DataType) × TypeText type text.now)) }
        // A text of a type is read, if it is short enough.
        ensures only { (type : DataType) → TypeText type text.now → length text.now ≤ 255 → IsSome result }
        // So it is read exactly where it has a tree.
        ensures tree { MatchOption result (type_of text.now ≡ None) (λ t. IsSome (type_of t)) }
    {
        if let Some(basic) = OneType::basic(text) {
            return Some(basic);
        }
        let Ok(signature) = Signature::read(text) else {
            return None;
        };
        let mut types = signature.types();
        match (types.next(), types.next()) {
            (Some(only), None) => Some(only),
            _ => None,
        }
    }

    /// The type of a text that is the byte of a basic type.
    fn basic(text: &'a [u8]) -> Option<OneType<'a>>
        ensures { IfSome result (λ t. (t ≡ text.now) × (length text.now ≡ 1) × ((type : DataType) × TypeText type text.now)) }
    {
        if text.len() == 1 && is_basic(text[0]) {
            Some(OneType::new(text))
        } else {
            None
        }
    }

    /// The type of a text that is known to be of one.
    pub(crate) fn new(text: &'a [u8]) -> OneType<'a>
        requires { (type : DataType) × TypeText type text.now }
        ensures { result ≡ text.now }
    {
        OneType { text }
    }

    /// The type's text in a signature.
    pub fn as_bytes(&self) -> &'a [u8]
        ensures text { result.now ≡ self.now }
        ensures spelled { (type : DataType) × TypeText type self.now }
    {
        self.text
    }

    /// A value's place is a multiple of this, in bytes.
    pub fn alignment(&self) -> usize
        ensures { (type : DataType) → TypeText type self.now → result ≡ alignment_of type }
    {
        match self.parts() {
            Parts::Basic(basic) => basic.alignment(),
            Parts::Variant => 1,
            Parts::Array(_) | Parts::Dict(_, _) => 4,
            Parts::Struct(_) => 8,
        }
    }

    /// The parts of the type, which lie in its text.
    #[inline(always)]
    pub fn parts(&self) -> Parts<'a>
        ensures parts { (type : DataType) → TypeText type self.now → ArePartsOf type result }
        ensures spelled { (type : DataType) × TypeText type self.now }
        ensures shorter { AreShorter self.now result }
    {
        let text = self.text;
        match text[0] {
            b'v' => Parts::Variant,
            b'a' if text[1] == b'{' => {
                let value = OneType::new(&text[3..text.len() - 1]);
                Parts::Dict(BasicType::of_code(text[2]), value)
            }
            b'a' => Parts::Array(OneType::new(&text[1..])),
            b'(' => Parts::Struct(Types::new(&text[1..text.len() - 1])),
            code => Parts::Basic(BasicType::of_code(code)),
        }
    }
}
