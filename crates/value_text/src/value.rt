// Values of any type.

ghost use Rattle.std.specs.Prelude.{◌≡◌, suc, IfOk};

use crate::basic::Basic;
use crate::element::{Element, Elements};
use crate::error::TextError;
use crate::line::Line;
use crate::notation::Notation;
use message_value::{Cursor, Order};
use message_view::MsgError;
use signature::{OneType, Parts, Types};
use std::alloc::Global;

/// The levels that are left inside a container.
fn inside(levels: usize) -> Result<usize, MsgError>
    ensures { IfOk result (λ deeper. levels ≡ suc deeper) }
{
    levels.checked_sub(1).ok_or(MsgError::Depth)
}

/// Adds a value in a notation, as `busctl` writes it. It reads the zeros before the value too, and goes at most `levels`
/// levels deep.
///
/// # Errors
///
/// `Message` where the bytes spell no value of the type within that depth, and `NoMemory`.
#[cycle(write)]
pub fn write_value(
    alloc: Global,
    line: &mut Line,
    cursor: &mut Cursor<'_>,
    order: Order,
    value_type: &OneType<'_>,
    levels: usize,
    notation: Notation,
) -> Result<(), TextError> {
    match value_type.parts() {
        Parts::Basic(basic) => Basic::read(cursor, order, basic)?.put(alloc, line, notation),
        Parts::Variant => {
            let deeper = inside(levels)?;
            write_variant(alloc, line, cursor, order, deeper, notation)
        }
        Parts::Array(element) => {
            cursor.align(4)?;
            let deeper = inside(levels)?;
            write_array(
                alloc,
                line,
                cursor,
                order,
                &Element::One(element),
                deeper,
                notation,
            )
        }
        Parts::Dict(key, value) => {
            cursor.align(4)?;
            let deeper = inside(levels)?;
            write_array(
                alloc,
                line,
                cursor,
                order,
                &Element::Entry(key, value),
                deeper,
                notation,
            )
        }
        Parts::Struct(members) => {
            cursor.align(8)?;
            let deeper = inside(levels)?;
            write_members(alloc, line, cursor, order, members, deeper, notation)
        }
    }
}

/// Adds a variant's type and then its value.
#[cycle(write)]
fn write_variant(
    alloc: Global,
    line: &mut Line,
    cursor: &mut Cursor<'_>,
    order: Order,
    levels: usize,
    notation: Notation,
) -> Result<(), TextError> {
    let value_type = cursor.signature()?;
    notation.begin_variant(line, value_type.as_bytes())?;
    write_value(alloc, line, cursor, order, &value_type, levels, notation)?;
    Ok(notation.end_variant(line)?)
}

/// Adds an array's elements.
#[cycle(write)]
fn write_array(
    alloc: Global,
    line: &mut Line,
    cursor: &mut Cursor<'_>,
    order: Order,
    element: &Element<'_>,
    levels: usize,
    notation: Notation,
) -> Result<(), TextError> {
    let elements = Elements::read(cursor, order, element)?;
    let count = elements.count(order, element, levels)?;
    let is_dict = matches!(element, Element::Entry(_, _));
    notation.begin_array(line, count, is_dict)?;
    let mut inner = elements.cursor();
    for index in 0..count {
        notation.separate(line, index == 0)?;
        write_element(alloc, line, &mut inner, order, element, levels, notation)?;
    }
    Ok(notation.end_array(line, is_dict)?)
}

/// Adds an element, of a dict its key and then its value.
#[cycle(write)]
fn write_element(
    alloc: Global,
    line: &mut Line,
    cursor: &mut Cursor<'_>,
    order: Order,
    element: &Element<'_>,
    levels: usize,
    notation: Notation,
) -> Result<(), TextError> {
    match element {
        Element::One(value_type) => {
            write_value(alloc, line, cursor, order, value_type, levels, notation)
        }
        Element::Entry(key, value_type) => {
            cursor.align(8)?;
            Basic::read(cursor, order, *key)?.put_key(alloc, line, notation)?;
            write_value(alloc, line, cursor, order, value_type, levels, notation)
        }
    }
}

/// Adds one value of each type.
#[cycle(write)]
pub(crate) fn write_members(
    alloc: Global,
    line: &mut Line,
    cursor: &mut Cursor<'_>,
    order: Order,
    members: Types<'_>,
    levels: usize,
    notation: Notation,
) -> Result<(), TextError> {
    notation.begin_members(line)?;
    let mut is_first = true;
    for member in members {
        notation.separate(line, is_first)?;
        write_value(alloc, line, cursor, order, &member, levels, notation)?;
        is_first = false;
    }
    Ok(notation.end_members(line)?)
}
