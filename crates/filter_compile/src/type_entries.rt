// The types of an argument that is compared with an integer: each goes its way, by the entry of its size.
ghost use Rattle.std.specs.Prelude.{◌≡◌, ◌<◌, IfOk};
ghost use Rattle.match_key.specs.ArgNumber.{number_of_arg};
ghost use Rattle.summary.specs.Layout.{argument_place};
ghost use Rattle.filter_compile.specs.Entered.{whole};
ghost use Rattle.filter_compile.specs.Pieces.{word_test};
ghost use Rattle.filter_compile.specs.ArgCode.{outside, way, code_of, unsigned_types, signed_types, dispatch, typed};

use crate::code::Code;
use crate::digits::Sizes;
use crate::exits::Exits;
use crate::integer_type::IntegerType;
use bpf_code::Test;
use filter::{ArgNumber, Integer};
use message_value::Order;
use std::alloc::AllocError;
use summary::argument_place;

/// What is asked of an argument, and where its comparison goes.
#[derive(Clone, Copy)]
pub(crate) struct Asked {
    pub(crate) n: ArgNumber,
    pub(crate) test: Test,
    pub(crate) value: Integer,
    pub(crate) exits: Exits,
}

/// Where a comparison goes of a type that hasn't the integer.
fn outside(test: Test, value: Integer, exits: Exits) -> usize
    ensures { result ≡ outside test value exits }
{
    match test {
        Test::Equal => exits.fails,
        Test::Above | Test::AtLeast | Test::SharesBit => match value {
            Integer::Natural(_) => exits.fails,
            Integer::Negative(_) => exits.holds,
        },
    }
}

/// Where the comparison of a type goes.
fn way(test: Test, kind: IntegerType, value: Integer, exits: Exits, entry: usize) -> usize
    ensures { result ≡ way test (code_of kind) value exits entry }
{
    match test {
        Test::SharesBit => match value {
            Integer::Natural(_) => entry,
            Integer::Negative(_) => exits.fails,
        },
        Test::Equal | Test::Above | Test::AtLeast => {
            if kind.has(value) {
                entry
            } else {
                outside(test, value, exits)
            }
        }
    }
}

impl Code {
    /// An argument of a type goes the way of an entry, and any other to another entry.
    fn type_test(
        &mut self,
        asked: Asked,
        kind: IntegerType,
        entry: usize,
        other: usize,
    ) -> Result<usize, AllocError>
        ensures { IfOk result (λ next. record { code = self.new; entry = next } ≡ whole (word_test (argument_place (number_of_arg asked.n)) Test.Equal (code_of kind) (record { holds = way asked.test (code_of kind) asked.value asked.exits entry; fails = other }) self.old)) }
    {
        let holds = way(asked.test, kind, asked.value, asked.exits, entry);
        let place = argument_place(asked.n.number());
        let ways = Exits {
            holds,
            fails: other,
        };
        self.word_test(u32::from(place), Test::Equal, u32::from(kind.code()), ways)?;
        Ok(self.len())
    }

    fn signed_types(
        &mut self,
        asked: Asked,
        sizes: Sizes,
        other: usize,
    ) -> Result<usize, AllocError>
        ensures { IfOk result (λ next. record { code = self.new; entry = next } ≡ dispatch (number_of_arg asked.n) asked.test asked.value asked.exits (signed_types sizes) (record { code = self.old; entry = other })) }
    {
        let next = self.type_test(asked, IntegerType::Int64, sizes.eight, other)?;
        let next = self.type_test(asked, IntegerType::Int32, sizes.four, next)?;
        self.type_test(asked, IntegerType::Int16, sizes.two, next)
    }

    fn unsigned_types(
        &mut self,
        asked: Asked,
        sizes: Sizes,
        other: usize,
    ) -> Result<usize, AllocError>
        ensures { IfOk result (λ next. record { code = self.new; entry = next } ≡ dispatch (number_of_arg asked.n) asked.test asked.value asked.exits (unsigned_types sizes) (record { code = self.old; entry = other })) }
    {
        let next = self.type_test(asked, IntegerType::Uint64, sizes.eight, other)?;
        let next = self.type_test(asked, IntegerType::Uint32, sizes.four, next)?;
        let next = self.type_test(asked, IntegerType::Uint16, sizes.two, next)?;
        let next = self.type_test(asked, IntegerType::Boolean, sizes.four, next)?;
        self.type_test(asked, IntegerType::Byte, sizes.one, next)
    }

    /// The types of a message of one order, after their signs.
    pub(crate) fn typed(
        &mut self,
        asked: Asked,
        order: Order,
        other: usize,
        plain: Sizes,
    ) -> Result<usize, AllocError>
        ensures { IfOk result (λ next. record { code = self.new; entry = next } ≡ typed (number_of_arg asked.n) asked.test asked.value order asked.exits other (record { code = self.old; sizes = plain })) }
    {
        let signed = self.signs(asked.test, asked.value, order, asked.exits, plain)?;
        let next = self.signed_types(asked, signed, other)?;
        self.unsigned_types(asked, plain, next)
    }
}
