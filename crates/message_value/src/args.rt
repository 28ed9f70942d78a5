// The arguments of a message, one after another.

use crate::arg::{Arg, read_arg};
use crate::cursor::Cursor;
use crate::order::Order;
use signature::{Signature, Types};
use std::marker::Model;

/// The deepest nesting of values.
pub const MAX_LEVELS: usize = 64;

/// Lends each argument that is left of a body that was checked.
#[derive(Drop)]
pub struct Args<'a> {
    order: Order,
    types: Types<'a>,
    cursor: Cursor<'a>,
}

impl<'a> Model for Args<'a> {
    ghost use Rattle.std.specs.Prelude.{List};
    ghost use Rattle.message_value.specs.Arguments.{Argument};
    ghost use Rattle.message_value.specs.ArgumentsLeft.{arguments_left, AreLeft};

    ghost Value = { List Argument };

    ghost view = { λ a. arguments_left a.order a.types a.cursor };

    ghost invariant = { λ a. AreLeft a.order a.types a.cursor };
}

impl<'a> Args<'a> {
    ghost use Rattle.std.specs.Prelude.{◌≡◌, Ok};
    ghost use Rattle.signature.specs.DataType.{DataTypes, SigText};
    ghost use Rattle.message_value.specs.Value.{Values};
    ghost use Rattle.message_value.specs.Fits.{max_levels};
    ghost use Rattle.message_value.specs.Reading.{At, value_at, members_at};
    ghost use Rattle.message_value.specs.Arguments.{arguments_from};

    /// The arguments that a body has, of the types of its signature.
    pub fn new(order: Order, signature: Signature<'a>, cursor: Cursor<'a>) -> Args<'a>
        requires { (types : DataTypes) × SigText types signature × ((values : Values) × (tail : At) × (members_at (value_at max_levels order) types cursor ≡ Ok (values, tail))) }
        ensures { (types : DataTypes) (values : Values) (tail : At) → SigText types signature.entry → members_at (value_at max_levels order) types cursor.entry ≡ Ok (values, tail) → result ≡ arguments_from order cursor.entry.place types values }
    {
        Args {
            order,
            types: signature.types(),
            cursor,
        }
    }
}

impl<'a> Iterator for Args<'a> {
    ghost use Rattle.std.specs.Iterator.{YieldsFirstBy, item_count};
    ghost use Rattle.message_value.specs.ShownArguments.{shown_arg};

    type Item = Arg<'a>;

    ghost next_gives = { YieldsFirstBy shown_arg (λ s. s) };

    ghost remaining = { item_count (λ s. s) };

    fn next(&mut self) -> Option<Arg<'a>> {
        let value_type = self.types.next()?;
        Some(read_arg(&mut self.cursor, self.order, &value_type, MAX_LEVELS))
    }
}
