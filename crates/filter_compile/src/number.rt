// Numbers that are compared with integers: those of the header, and how many arguments and bytes there are.
ghost use Rattle.std.specs.Prelude.{◌≡◌, ◌<◌, OnOk};
ghost use Rattle.filter_compile.specs.Sound.{IsOfPiece};
ghost use Rattle.filter_compile.specs.TestCode.{comparison_of, equality_of, never, always, compare_natural, compare_negative, compare, number_relates, word_number, reply_serial, message_len};
ghost use Rattle.filter_compile.specs.PieceOfTest.{number_code};

use crate::code::Code;
use crate::exits::Exits;
use bpf_code::{Arithmetic, Op, Operand, Test, Width};
use filter::{Equality, Integer, NumberRelation, NumberSource};
use std::alloc::AllocError;

/// The words of the flags, of the body's length, of the number of arguments, of the serial, and of the one that is answered.
pub(crate) const FLAGS_PLACE: u32 = 8;

const BODY_LEN_PLACE: u32 = 16;

pub(crate) const COUNT_PLACE: u32 = 20;

const SERIAL_PLACE: u32 = 968;

pub(crate) const REPLY_SERIAL_PLACE: u16 = 972;

/// How many bytes a summary has.
const SUMMARY_LEN: u32 = 976;

/// The comparison of a relation, or of its opposite.
pub(crate) fn comparison_of(relation: NumberRelation) -> Test
    ensures { result ≡ comparison_of relation }
{
    match relation {
        NumberRelation::Equal | NumberRelation::Unequal => Test::Equal,
        NumberRelation::Less | NumberRelation::AtLeast => Test::AtLeast,
        NumberRelation::AtMost | NumberRelation::Greater => Test::Above,
        NumberRelation::Shares => Test::SharesBit,
    }
}

pub(crate) fn equality_of(relation: NumberRelation) -> Equality
    ensures { result ≡ equality_of relation }
{
    match relation {
        NumberRelation::Unequal | NumberRelation::Less | NumberRelation::AtMost => {
            Equality::Unequal
        }
        NumberRelation::Equal
        | NumberRelation::AtLeast
        | NumberRelation::Greater
        | NumberRelation::Shares => Equality::Equal,
    }
}

impl Code {
    /// No word passes.
    fn never(&mut self, exits: Exits) -> Result<(), AllocError>
        ensures { OnOk result (self.new ≡ never exits self.old) }
    {
        self.fork(Test::Above, u32::MAX, exits)
    }

    /// Each word passes.
    fn always(&mut self, exits: Exits) -> Result<(), AllocError>
        ensures { OnOk result (self.new ≡ always exits self.old) }
    {
        self.fork(Test::AtLeast, 0, exits)
    }

    /// A passes a comparison with an integer from 0 on.
    fn compare_natural(&mut self, test: Test, n: u64, exits: Exits) -> Result<(), AllocError>
        ensures { OnOk result (self.new ≡ compare_natural test n exits self.old) }
    {
        match test {
            Test::SharesBit => self.fork(test, (n % (1 << 32)) as u32, exits),
            Test::Equal | Test::Above | Test::AtLeast => {
                if n < 1 << 32 {
                    self.fork(test, n as u32, exits)
                } else {
                    self.never(exits)
                }
            }
        }
    }

    /// A passes a comparison with an integer below 0.
    fn compare_negative(&mut self, test: Test, exits: Exits) -> Result<(), AllocError>
        ensures { OnOk result (self.new ≡ compare_negative test exits self.old) }
    {
        match test {
            Test::Above | Test::AtLeast => self.always(exits),
            Test::Equal | Test::SharesBit => self.never(exits),
        }
    }

    /// A passes a comparison with an integer.
    fn compare(&mut self, test: Test, value: Integer, exits: Exits) -> Result<(), AllocError>
        ensures { OnOk result (self.new ≡ compare test value exits self.old) }
    {
        match value {
            Integer::Natural(n) => self.compare_natural(test, n, exits),
            Integer::Negative(_) => self.compare_negative(test, exits),
        }
    }

    /// A is in the relation to an integer.
    fn number_relates(
        &mut self,
        relation: NumberRelation,
        value: Integer,
        exits: Exits,
    ) -> Result<(), AllocError>
        ensures { OnOk result (self.new ≡ number_relates relation value exits self.old) }
    {
        let chosen = exits.for_equality(equality_of(relation));
        self.compare(comparison_of(relation), value, chosen)
    }

    /// So is the word of the image at a place.
    fn word_number(
        &mut self,
        at: u32,
        relation: NumberRelation,
        value: Integer,
        exits: Exits,
    ) -> Result<(), AllocError>
        requires { IsOfPiece (Op.LoadImage Width.Word) at }
        ensures { OnOk result (self.new ≡ word_number at relation value exits self.old) }
    {
        self.number_relates(relation, value, exits)?;
        self.image_word(at)
    }

    /// So is the serial that is answered, if one is.
    fn reply_serial(
        &mut self,
        relation: NumberRelation,
        value: Integer,
        exits: Exits,
    ) -> Result<(), AllocError>
        ensures { OnOk result (self.new ≡ reply_serial relation value exits self.old) }
    {
        self.word_number(u32::from(REPLY_SERIAL_PLACE), relation, value, exits)?;
        let next = self.holds_next(exits);
        self.is_there(REPLY_SERIAL_PLACE, next)
    }

    /// So is the length of the message: what the image has besides its summary.
    fn message_len(
        &mut self,
        relation: NumberRelation,
        value: Integer,
        exits: Exits,
    ) -> Result<(), AllocError>
        ensures { OnOk result (self.new ≡ message_len relation value exits self.old) }
    {
        self.number_relates(relation, value, exits)?;
        self.put(Op::Compute(Arithmetic::Sub, Operand::Constant), SUMMARY_LEN)?;
        self.put(Op::LoadLength, 0)
    }

    /// The number at a source is in the relation to an integer.
    pub(crate) fn number(
        &mut self,
        source: NumberSource,
        relation: NumberRelation,
        value: Integer,
        exits: Exits,
    ) -> Result<(), AllocError>
        ensures { OnOk result (self.new ≡ number_code source relation value exits self.old) }
    {
        match source {
            NumberSource::Serial => self.word_number(SERIAL_PLACE, relation, value, exits),
            NumberSource::ReplySerial => self.reply_serial(relation, value, exits),
            NumberSource::Flags => self.word_number(FLAGS_PLACE, relation, value, exits),
            NumberSource::BodyLength => self.word_number(BODY_LEN_PLACE, relation, value, exits),
            NumberSource::Args => self.word_number(COUNT_PLACE, relation, value, exits),
            NumberSource::Length => self.message_len(relation, value, exits),
            NumberSource::Arg(n) => self.arg_number(n, relation, value, exits),
        }
    }
}
