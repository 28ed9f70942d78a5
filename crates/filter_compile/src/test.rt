// The pieces of tests.
ghost use Rattle.std.specs.Prelude.{◌≡◌, ◌<◌, ◌≤◌, ◌^◌, length, true, OnOk};
ghost use Rattle.match_key.specs.ArgNumber.{number_of_arg};
ghost use Rattle.filter.specs.Weights.{test_weight, text_weight};
ghost use Rattle.filter_compile.specs.Holds.{flag_bit, type_code, text_code};
ghost use Rattle.filter_compile.specs.PieceOfTest.{test_code};
ghost use Rattle.filter_compile.specs.TestCode.{view_field, field_place, has_type, truth_word, truth_code, words_at, has_text, text_relates, owns, owner_code, text_code_of};

use crate::code::Code;
use crate::exits::Exits;
use crate::names::{Names, asks_owner};
use crate::number::{COUNT_PLACE, FLAGS_PLACE, REPLY_SERIAL_PLACE};
use bpf_code::Width;
use filter::{
    ArgNumber, ArgType, Equality, Field, Flag, Test, TextField, TextRelation, TextSource, TextType,
};
use message_view::TextField as ViewField;
use std::alloc::AllocError;
use summary::{KIND_PLACE, argument_place, ownership_place, text_place};

fn view_field(field: TextField) -> ViewField
    ensures { result ≡ view_field field }
{
    match field {
        TextField::Path => ViewField::Path,
        TextField::Interface => ViewField::Interface,
        TextField::Member => ViewField::Member,
        TextField::ErrorName => ViewField::ErrorName,
        TextField::Destination => ViewField::Destination,
        TextField::Sender => ViewField::Sender,
    }
}

/// The word that isn't 0 where the field is there.
fn field_place(field: Field) -> u16
    ensures { result ≡ field_place field }
{
    match field {
        Field::Path => text_place(ViewField::Path),
        Field::Interface => text_place(ViewField::Interface),
        Field::Member => text_place(ViewField::Member),
        Field::ErrorName => text_place(ViewField::ErrorName),
        Field::ReplySerial => REPLY_SERIAL_PLACE,
        Field::Destination => text_place(ViewField::Destination),
        Field::Sender => text_place(ViewField::Sender),
    }
}

fn flag_bit(flag: Flag) -> u32
    ensures { result ≡ flag_bit flag }
{
    match flag {
        Flag::NoReplyExpected => 1,
        Flag::NoAutoStart => 2,
        Flag::AllowInteractiveAuthorization => 4,
    }
}

/// The first byte of a type.
fn type_code(arg_type: ArgType) -> u8
    ensures { result ≡ type_code arg_type }
{
    match arg_type {
        ArgType::Byte => b'y',
        ArgType::Boolean => b'b',
        ArgType::Int16 => b'n',
        ArgType::Uint16 => b'q',
        ArgType::Int32 => b'i',
        ArgType::Uint32 => b'u',
        ArgType::Int64 => b'x',
        ArgType::Uint64 => b't',
        ArgType::Double => b'd',
        ArgType::String => b's',
        ArgType::ObjectPath => b'o',
        ArgType::Signature => b'g',
        ArgType::UnixFd => b'h',
        ArgType::Array => b'a',
        ArgType::Variant => b'v',
        ArgType::Struct => b'(',
    }
}

fn text_code(text_type: TextType) -> u8
    ensures { result ≡ text_code text_type }
{
    match text_type {
        TextType::String => b's',
        TextType::ObjectPath => b'o',
        TextType::Signature => b'g',
    }
}

/// The place of the words of the text at a source.
fn words_at(source: TextSource) -> u16
    ensures { result ≡ words_at source }
{
    match source {
        TextSource::Field(field) => text_place(view_field(field)),
        TextSource::Arg(n, _) => argument_place(n.number()) + 4,
    }
}

impl Code {
    /// Argument n has a type that begins with this byte.
    pub(crate) fn has_type(
        &mut self,
        n: ArgNumber,
        code: u8,
        exits: Exits,
    ) -> Result<(), AllocError>
        ensures { OnOk result (self.new ≡ has_type (number_of_arg n) code exits self.old) }
    {
        let place = argument_place(n.number());
        self.word_test(
            u32::from(place),
            bpf_code::Test::Equal,
            u32::from(code),
            exits,
        )
    }

    /// The boolean where X points to is this one: its four bytes are 0 for false, in either order.
    fn truth_word(&mut self, truth: bool, exits: Exits) -> Result<(), AllocError>
        ensures { OnOk result (self.new ≡ truth_word truth exits self.old) }
    {
        if truth {
            self.indexed_test(Width::Word, 0, bpf_code::Test::Above, 0, exits)
        } else {
            self.indexed_test(Width::Word, 0, bpf_code::Test::Equal, 0, exits)
        }
    }

    /// Argument n is a boolean of this value, or of the other.
    fn truth(
        &mut self,
        n: ArgNumber,
        equality: Equality,
        truth: bool,
        exits: Exits,
    ) -> Result<(), AllocError>
        ensures { OnOk result (self.new ≡ truth_code (number_of_arg n) equality truth exits self.old) }
    {
        self.truth_word(truth, exits.for_equality(equality))?;
        self.index_start(argument_place(n.number()) + 4)?;
        let next = self.holds_next(exits);
        self.has_type(n, b'b', next)
    }

    /// The source has a text.
    fn has_text(&mut self, source: TextSource, exits: Exits) -> Result<(), AllocError>
        ensures { OnOk result (self.new ≡ has_text source exits self.old) }
    {
        match source {
            TextSource::Field(field) => self.is_there(text_place(view_field(field)), exits),
            TextSource::Arg(n, text_type) => self.has_type(n, text_code(text_type), exits),
        }
    }

    /// The text, which is there, stands in the relation to the value.
    fn text_relates(
        &mut self,
        relation: TextRelation,
        value: &str,
        at: u16,
        exits: Exits,
    ) -> Result<(), AllocError>
        requires { length value.now < 2 ^ 32 }
        ensures { OnOk result (self.new ≡ text_relates relation value.now at exits self.old) }
    {
        match relation {
            TextRelation::Equal => self.front(bpf_code::Test::Equal, value, at, exits),
            TextRelation::Unequal => {
                self.front(bpf_code::Test::Equal, value, at, exits.turned())
            }
            TextRelation::Begins => self.front(bpf_code::Test::AtLeast, value, at, exits),
            TextRelation::Ends => self.ends(value, at, exits),
        }
    }

    /// The sender owns the name of a slot.
    fn owns(&mut self, slot: u16, exits: Exits) -> Result<(), AllocError>
        ensures { OnOk result (self.new ≡ owns slot exits self.old) }
    {
        let place = ownership_place(slot);
        self.word_test(
            u32::from(place),
            bpf_code::Test::SharesBit,
            1 << (slot % 32),
            exits,
        )
    }

    /// The sender owns the name of a slot, or there is a sender that doesn't.
    fn owner(&mut self, relation: TextRelation, slot: u16, exits: Exits) -> Result<(), AllocError>
        ensures { OnOk result (self.new ≡ owner_code relation slot exits self.old) }
    {
        match relation {
            TextRelation::Unequal => {
                self.owns(slot, exits.turned())?;
                let next = self.holds_next(exits);
                self.is_there(text_place(ViewField::Sender), next)
            }
            TextRelation::Equal | TextRelation::Begins | TextRelation::Ends => {
                self.owns(slot, exits)
            }
        }
    }

    /// The text at a source stands in the relation to the value.
    fn text(
        &mut self,
        names: &Names<'_>,
        source: TextSource,
        relation: TextRelation,
        value: &str,
        exits: Exits,
    ) -> Result<(), AllocError>
        requires names { length names.now ≤ 512 }
        requires weight { text_weight source relation value.now ≤ 4096 }
        ensures { OnOk result (self.new ≡ text_code_of names.now source relation value.now exits self.old) }
    {
        if asks_owner(source, relation, value) {
            return self.owner(relation, names.slot(value) as u16, exits);
        }
        self.text_relates(relation, value, words_at(source), exits)?;
        let next = self.holds_next(exits);
        self.has_text(source, next)
    }
}

/// Puts the piece of a test in front.
pub(crate) fn put_test(
    code: &mut Code,
    names: &Names<'_>,
    test: &Test,
    exits: Exits,
) -> Result<(), AllocError>
    requires names { length names.now ≤ 512 }
    requires weight { test_weight test.now ≤ 4096 }
    ensures { OnOk result (code.new ≡ test_code names.now test.now exits code.old) }
{
    match test {
        Test::Kind(equality, kind) => {
            let byte = kind.kind().byte();
            let chosen = exits.for_equality(*equality);
            code.word_test(
                u32::from(KIND_PLACE),
                bpf_code::Test::Equal,
                u32::from(byte),
                chosen,
            )
        }
        Test::Broadcast => {
            let place = text_place(ViewField::Destination);
            code.word_test(u32::from(place), bpf_code::Test::Equal, 0, exits)
        }
        Test::Flag(flag) => {
            let bit = flag_bit(*flag);
            code.word_test(FLAGS_PLACE, bpf_code::Test::SharesBit, bit, exits)
        }
        Test::HasField(field) => code.is_there(field_place(*field), exits),
        Test::HasArg(n) => {
            let number = u32::from(n.number());
            code.word_test(COUNT_PLACE, bpf_code::Test::Above, number, exits)
        }
        Test::IsType(n, arg_type) => code.has_type(*n, type_code(*arg_type), exits),
        Test::Truth(n, equality, truth) => code.truth(*n, *equality, *truth, exits),
        Test::Text(source, relation, value) => {
            code.text(names, *source, *relation, value.as_str(), exits)
        }
        Test::Within(scope, equality, value) => code.scope(
            *scope,
            *equality,
            value.as_str(),
            exits,
        ),
        Test::Number(source, relation, value) => { code.number(*source, *relation, *value, exits) }
    }
}
