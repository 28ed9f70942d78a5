// Checking values.

ghost use Rattle.std.specs.Prelude.{◌≡◌, suc, length, MatchResult};
ghost use Rattle.signature.specs.BasicType.{byte_of};
ghost use Rattle.signature.specs.DataType.{DataType, DataTypes, TypeText, AllFit, slices};
ghost use Rattle.message_value.specs.declared.error.MsgError.TheVariants.{Depth};
ghost use Rattle.message_value.specs.Reading.{each_at, value_at, members_at, entry_at, variant_at, array_at, dict_at};
ghost use Rattle.message_value.specs.Steps.{ChecksAll};
ghost use Rattle.message_value.specs.Answers.{Checks};

use crate::basic_form::check_basic;
use crate::cursor::Cursor;
use crate::error::MsgError;
use crate::fixed_len::{check_fixed, fixed_len};
use crate::order::Order;
use signature::{BasicType, OneType, Parts, Types};

/// The levels that are left inside a container.
fn inside(levels: usize) -> Result<usize, MsgError>
    ensures { MatchResult result (λ deeper. levels ≡ suc deeper) (λ fault. (levels ≡ 0) × (fault ≡ Depth)) }
{
    levels.checked_sub(1).ok_or(MsgError::Depth)
}

/// Goes over a value of a type, with the zeros before it, where `levels` levels are left.
#[cycle(check)]
pub fn check_value(
    cursor: &mut Cursor<'_>,
    order: Order,
    value_type: &OneType<'_>,
    levels: usize,
) -> Result<(), MsgError>
    ensures { (type : DataType) → TypeText type value_type.now → Checks result cursor.new (value_at levels order type cursor.old) }
{
    match value_type.parts() {
        Parts::Basic(basic) => check_basic(cursor, order, basic),
        Parts::Variant => {
            let deeper = inside(levels)?;
            check_variant(cursor, order, deeper)
        }
        Parts::Array(element) => {
            cursor.align(4)?;
            let deeper = inside(levels)?;
            check_array(cursor, order, &element, deeper)
        }
        Parts::Dict(key, value) => {
            cursor.align(4)?;
            let deeper = inside(levels)?;
            check_dict(cursor, order, key, &value, deeper)
        }
        Parts::Struct(members) => {
            cursor.align(8)?;
            let deeper = inside(levels)?;
            check_members(cursor, order, members, deeper)
        }
    }
}

/// Goes over one value of each type.
#[cycle(check)]
pub fn check_members(
    cursor: &mut Cursor<'_>,
    order: Order,
    members: Types<'_>,
    levels: usize,
) -> Result<(), MsgError>
    ensures { (types : DataTypes) → members.entry ≡ slices types → AllFit 0 0 types → Checks result cursor.new (members_at (value_at levels order) types cursor.old) }
{
    for member in members {
        check_value(cursor, order, &member, levels)?;
    }
    Ok(())
}

/// A signature of one type, and a value of it.
#[cycle(check)]
fn check_variant(cursor: &mut Cursor<'_>, order: Order, levels: usize) -> Result<(), MsgError>
    ensures { Checks result cursor.new (variant_at (value_at levels order) cursor.old) }
{
    let value_type = cursor.signature()?;
    check_value(cursor, order, &value_type, levels)
}

/// An array after its padding.
#[cycle(check)]
fn check_array(
    cursor: &mut Cursor<'_>,
    order: Order,
    element: &OneType<'_>,
    levels: usize,
) -> Result<(), MsgError>
    requires { (type : DataType) × TypeText type element.now }
    ensures { (type : DataType) → TypeText type element.now → Checks result cursor.new (array_at (value_at levels order) order type cursor.old) }
{
    let inner = cursor.extent(order, element.alignment())?;
    match fixed_len(element) {
        Some(len) => check_fixed(&inner, len),
        None => check_elements(inner, order, element, levels),
    }
}

/// The elements of an array, up to its end.
#[cycle(check)]
fn check_elements(
    mut inner: Cursor<'_>,
    order: Order,
    element: &OneType<'_>,
    levels: usize,
) -> Result<(), MsgError>
    requires { (type : DataType) × TypeText type element.now }
    ensures { (type : DataType) → TypeText type element.now → ChecksAll result (each_at (value_at levels order type) (length inner.entry.rest) inner.entry) }
{
    while !inner.is_empty() {
        check_value(&mut inner, order, element, levels)?;
    }
    Ok(())
}

/// An array of dict entries after its padding.
#[cycle(check)]
fn check_dict(
    cursor: &mut Cursor<'_>,
    order: Order,
    key: BasicType,
    value: &OneType<'_>,
    levels: usize,
) -> Result<(), MsgError>
    requires { (type : DataType) × TypeText type value.now }
    ensures { (type : DataType) → TypeText type value.now → Checks result cursor.new (dict_at (value_at levels order) order (byte_of key) type cursor.old) }
{
    let mut inner = cursor.extent(order, 8)?;
    while !inner.is_empty() {
        check_entry(&mut inner, order, key, value, levels)?;
    }
    Ok(())
}

/// An entry of a dict: its key, and its value.
#[cycle(check)]
fn check_entry(
    cursor: &mut Cursor<'_>,
    order: Order,
    key: BasicType,
    value: &OneType<'_>,
    levels: usize,
) -> Result<(), MsgError>
    ensures { (type : DataType) → TypeText type value.now → Checks result cursor.new (entry_at (value_at levels order) (byte_of key) type cursor.old) }
{
    cursor.align(8)?;
    check_basic(cursor, order, key)?;
    check_value(cursor, order, value, levels)
}
