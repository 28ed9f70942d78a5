// Arguments that are compared with integers: two jumps to the exits, and in front of them the code of either byte order.
ghost use Rattle.std.specs.Prelude.{◌≡◌, ◌<◌, IfOk, OnOk};
ghost use Rattle.match_key.specs.ArgNumber.{number_of_arg};
ghost use Rattle.filter_compile.specs.ArgCode.{jumps, near_exits, compared, arg_number};

use crate::code::Code;
use crate::exits::Exits;
use crate::integer_type::bits_of;
use crate::number::{comparison_of, equality_of};
use crate::type_entries::Asked;
use bpf_code::Test;
use filter::{ArgNumber, Integer, NumberRelation};
use message_value::Order;
use std::alloc::AllocError;
use summary::argument_place;

/// The word of the byte order.
const ORDER_PLACE: u32 = 0;

/// The first byte of a message of type `l`.
const LITTLE: u32 = 108;

impl Code {
    /// Two jumps to the exits, so that those of a piece in front of them are near.
    fn jumps(&mut self, exits: Exits) -> Result<Exits, AllocError>
        ensures code { OnOk result (self.new ≡ jumps exits self.old) }
        ensures near { IfOk result (λ near. near ≡ near_exits exits self.old) }
    {
        self.put_jump(exits.fails)?;
        let fails = self.len();
        self.put_jump(exits.holds)?;
        let holds = self.len();
        Ok(Exits { holds, fails })
    }

    /// The types are told apart in either order, where X is the place of the value.
    fn compared(&mut self, asked: Asked, other: usize) -> Result<(), AllocError>
        ensures { OnOk result (self.new ≡ compared (number_of_arg asked.n) asked.test asked.value asked.exits other self.old) }
    {
        let bits = bits_of(asked.value);
        let plain = self.littles(asked.test, bits, asked.exits)?;
        let little = self.typed(asked, Order::Little, other, plain)?;
        let words = self.bigs(asked.test, bits, asked.exits, plain.one)?;
        let big = self.typed(asked, Order::Big, other, words)?;
        let ways = Exits {
            holds: little,
            fails: big,
        };
        self.word_test(ORDER_PLACE, Test::Equal, LITTLE, ways)?;
        Ok(())
    }

    /// Argument n is a number in the relation to an integer.
    pub(crate) fn arg_number(
        &mut self,
        n: ArgNumber,
        relation: NumberRelation,
        value: Integer,
        exits: Exits,
    ) -> Result<(), AllocError>
        ensures { OnOk result (self.new ≡ arg_number (number_of_arg n) relation value exits self.old) }
    {
        let near = self.jumps(exits)?;
        let asked = Asked {
            n,
            test: comparison_of(relation),
            value,
            exits: near.for_equality(equality_of(relation)),
        };
        self.compared(asked, near.fails)?;
        self.index_start(argument_place(n.number()) + 4)?;
        Ok(())
    }
}
