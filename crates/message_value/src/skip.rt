// Going over values that were checked.

ghost use Rattle.std.specs.Prelude.{◌≡◌, ◌<◌, Ok};
ghost use Rattle.signature.specs.BasicType.{byte_of};
ghost use Rattle.signature.specs.DataType.{DataType, DataTypes, TypeText, AllFit, slices};
ghost use Rattle.message_value.specs.Reading.{signature_at, extent_at, value_at, members_at, variant_at, IsRead};
ghost use Rattle.message_value.specs.Steps.{Reaches};
ghost use Rattle.message_value.specs.Forms.{basic_at};

use crate::basic_form::BasicForm;
use crate::cursor::Cursor;
use crate::order::Order;
use signature::{BasicType, OneType, Parts, Types};

/// A value of a basic type, with the zeros before it.
fn skip_basic(cursor: &mut Cursor<'_>, order: Order, basic: BasicType)
    requires { IsRead (basic_at order (byte_of basic) cursor.old) }
    ensures { Reaches cursor.new (basic_at order (byte_of basic) cursor.old) }
{
    cursor.skip_padding(basic.alignment());
    match BasicForm::of(basic) {
        BasicForm::Text(text_type) => {
            text_type.skip_value(cursor, order);
        }
        BasicForm::Boolean => {
            cursor.skip(4);
        }
        BasicForm::Number(len) => {
            cursor.skip(len);
        }
    }
}

/// The signature of a variant.
fn skip_signature<'a>(cursor: &mut Cursor<'a>) -> OneType<'a>
    requires { IsRead (signature_at cursor.old) }
    ensures { (type : DataType) × TypeText type result × (signature_at cursor.old ≡ Ok (type, cursor.new)) }
{
    match cursor.signature() {
        Ok(value_type) => value_type,
        Err(_) => unreachable!(),
    }
}

/// The whole extent of an array after its padding.
fn skip_array(cursor: &mut Cursor<'_>, order: Order, alignment: usize)
    requires some { 0 < alignment }
    requires read { IsRead (extent_at order alignment cursor.old) }
    ensures { Reaches cursor.new (extent_at order alignment cursor.old) }
{
    let len = cursor.skip_word(order);
    cursor.skip_padding(alignment);
    cursor.skip(len as usize);
}

/// A value of a type, with the zeros before it, where `levels` levels were left.
#[cycle(skip)]
pub(crate) fn skip_value(
    cursor: &mut Cursor<'_>,
    order: Order,
    value_type: &OneType<'_>,
    levels: usize,
)
    requires { (type : DataType) × TypeText type value_type.now × IsRead (value_at levels order type cursor.old) }
    ensures { (type : DataType) → TypeText type value_type.now → Reaches cursor.new (value_at levels order type cursor.old) }
{
    match value_type.parts() {
        Parts::Basic(basic) => skip_basic(cursor, order, basic),
        Parts::Variant => skip_variant(cursor, order, levels - 1),
        Parts::Array(element) => {
            cursor.skip_padding(4);
            skip_array(cursor, order, element.alignment());
        }
        Parts::Dict(_, _) => {
            cursor.skip_padding(4);
            skip_array(cursor, order, 8);
        }
        Parts::Struct(members) => {
            cursor.skip_padding(8);
            skip_members(cursor, order, members, levels - 1);
        }
    }
}

/// One value of each type.
#[cycle(skip)]
fn skip_members(cursor: &mut Cursor<'_>, order: Order, members: Types<'_>, levels: usize)
    requires { (types : DataTypes) × (members ≡ slices types) × AllFit 0 0 types × IsRead (members_at (value_at levels order) types cursor.old) }
    ensures { (types : DataTypes) → members.entry ≡ slices types → AllFit 0 0 types → Reaches cursor.new (members_at (value_at levels order) types cursor.old) }
{
    for member in members {
        skip_value(cursor, order, &member, levels);
    }
}

/// A signature of one type, and a value of it.
#[cycle(skip)]
fn skip_variant(cursor: &mut Cursor<'_>, order: Order, levels: usize)
    requires { IsRead (variant_at (value_at levels order) cursor.old) }
    ensures { Reaches cursor.new (variant_at (value_at levels order) cursor.old) }
{
    let value_type = skip_signature(cursor);
    skip_value(cursor, order, &value_type, levels);
}
