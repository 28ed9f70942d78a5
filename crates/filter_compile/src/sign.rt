// The signs of an argument's number: of two integers of one sign the bits are in the same order.
ghost use Rattle.std.specs.Prelude.{◌≡◌, ◌<◌, IfOk};
ghost use Rattle.filter_compile.specs.ArgCode.{sign_ways, sign_step, top_at, signs};

use crate::code::Code;
use crate::digits::Sizes;
use crate::exits::Exits;
use bpf_code::{Test, Width};
use filter::Integer;
use message_value::Order;
use std::alloc::AllocError;

/// Where a comparison goes by the sign of the number.
fn sign_ways(value: Integer, exits: Exits, entry: usize) -> Exits
    ensures { result ≡ sign_ways value exits entry }
{
    match value {
        Integer::Natural(_) => Exits {
            holds: exits.fails,
            fails: entry,
        },
        Integer::Negative(_) => Exits {
            holds: entry,
            fails: exits.holds,
        },
    }
}

/// Where the highest byte of a number of `len` bytes lies.
fn top_at(order: Order, len: u32) -> u32
    requires { 0 < len }
    ensures { result ≡ top_at order len }
{
    match order {
        Order::Little => len - 1,
        Order::Big => 0,
    }
}

impl Code {
    /// The sign of a number, in front of the code of which its bytes have an entry.
    fn sign_step(
        &mut self,
        test: Test,
        value: Integer,
        at: u32,
        exits: Exits,
        entry: usize,
    ) -> Result<usize, AllocError>
        ensures { IfOk result (λ signed. record { code = self.new; entry = signed } ≡ sign_step test value at exits entry self.old) }
    {
        match test {
            Test::Equal | Test::SharesBit => Ok(entry),
            Test::Above | Test::AtLeast => {
                let ways = sign_ways(value, exits, entry);
                self.indexed_test(Width::Byte, at, Test::AtLeast, 128, ways)?;
                Ok(self.len())
            }
        }
    }

    /// The signs of numbers of two, four and eight bytes.
    pub(crate) fn signs(
        &mut self,
        test: Test,
        value: Integer,
        order: Order,
        exits: Exits,
        plain: Sizes,
    ) -> Result<Sizes, AllocError>
        ensures { IfOk result (λ sizes. record { code = self.new; sizes = sizes } ≡ signs test value order exits (record { code = self.old; sizes = plain })) }
    {
        let two = self.sign_step(test, value, top_at(order, 2), exits, plain.two)?;
        let four = self.sign_step(test, value, top_at(order, 4), exits, plain.four)?;
        let eight = self.sign_step(test, value, top_at(order, 8), exits, plain.eight)?;
        Ok(Sizes {
            one: plain.one,
            two,
            four,
            eight,
        })
    }
}
