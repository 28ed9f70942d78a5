// Texts, whose place and length are two words of an image.
ghost use Rattle.std.specs.Prelude.{◌≡◌, ◌<◌, ◌≤◌, ◌+◌, ◌^◌, length, OnOk};
ghost use Rattle.filter_compile.specs.Pieces.{unit_number, unit_len, unit_of, same_unit, same_bytes, has_len, is_there, index_start, index_back, front, ends};

use crate::code::Code;
use crate::exits::Exits;
use bpf_code::{Arithmetic, Op, Operand, Test, Width};
use std::alloc::AllocError;

/// The greatest unit that a value has.
fn unit_of(value: &[u8]) -> Width
    ensures value { result ≡ unit_of value.now }
    ensures fits { 0 < length value.now → unit_len result ≤ length value.now }
{
    if value.len() < 2 {
        Width::Byte
    } else if value.len() < 4 {
        Width::Half
    } else {
        Width::Word
    }
}

/// How many bytes a unit has.
fn unit_len(width: Width) -> usize
    ensures value { result ≡ unit_len width }
    ensures some { 0 < result }
    ensures few { result ≤ 4 }
{
    match width {
        Width::Byte => 1,
        Width::Half => 2,
        Width::Word => 4,
    }
}

/// A unit of a value as a number, the highest byte first.
fn unit_number(width: Width, value: &[u8], i: usize) -> u32
    requires { i + unit_len width ≤ length value.now }
    ensures { result ≡ unit_number width value.now i }
{
    match width {
        Width::Byte => u32::from(value[i]),
        Width::Half => u32::from(u16::from_be_bytes([value[i], value[i + 1]])),
        Width::Word => { u32::from_be_bytes([value[i], value[i + 1], value[i + 2], value[i + 3]]) }
    }
}

impl Code {
    /// The bytes from `at` + `i` after X on are those of the value from its byte `i` on.
    fn same_unit(
        &mut self,
        width: Width,
        at: u32,
        value: &[u8],
        i: usize,
        exits: Exits,
    ) -> Result<(), AllocError>
        requires inside { i + unit_len width ≤ length value.now }
        requires fits { at + length value.now < 2 ^ 32 }
        ensures { OnOk result (self.new ≡ same_unit width at value.now i exits self.old) }
    {
        let number = unit_number(width, value, i);
        self.indexed_test(width, at + i as u32, Test::Equal, number, exits)
    }

    /// The bytes from `at` after X on are those of the value.
    pub(crate) fn same_bytes(
        &mut self,
        at: u32,
        value: &[u8],
        exits: Exits,
    ) -> Result<(), AllocError>
        requires some { 0 < length value.now }
        requires fits { at + length value.now < 2 ^ 32 }
        ensures { OnOk result (self.new ≡ same_bytes at value.now exits self.old) }
    {
        let width = unit_of(value);
        let len = unit_len(width);
        self.same_unit(width, at, value, value.len() - len, exits)?;
        for unit in (0..(value.len() - 1) / len).rev() {
            let next = self.holds_next(exits);
            self.same_unit(width, at, value, len * unit, next)?;
        }
        Ok(())
    }

    /// The text's length passes a comparison.
    pub(crate) fn has_len(
        &mut self,
        test: Test,
        len: u32,
        at: u16,
        exits: Exits,
    ) -> Result<(), AllocError>
        ensures { OnOk result (self.new ≡ has_len test len at exits self.old) }
    {
        self.word_test(u32::from(at) + 4, test, len, exits)
    }

    /// The text is there.
    pub(crate) fn is_there(&mut self, at: u16, exits: Exits) -> Result<(), AllocError>
        ensures { OnOk result (self.new ≡ is_there at exits self.old) }
    {
        self.word_test(u32::from(at), Test::Above, 0, exits)
    }

    /// X becomes the place of the text at `at`, for the piece that stands in front.
    pub(crate) fn index_start(&mut self, at: u16) -> Result<(), AllocError>
        ensures { OnOk result (self.new ≡ index_start at self.old) }
    {
        self.index_from_a()?;
        self.image_word(u32::from(at))
    }

    /// X becomes the place of its last bytes, `len` of them.
    fn index_back(&mut self, len: u32, at: u16) -> Result<(), AllocError>
        ensures { OnOk result (self.new ≡ index_back len at self.old) }
    {
        self.index_from_a()?;
        self.put(Op::Compute(Arithmetic::Add, Operand::Index), 0)?;
        self.image_word(u32::from(at))?;
        self.index_from_a()?;
        self.put(Op::Compute(Arithmetic::Sub, Operand::Constant), len)?;
        self.image_word(u32::from(at) + 4)
    }

    /// The text's length passes a comparison, and it begins with the value.
    pub(crate) fn front(
        &mut self,
        test: Test,
        value: &str,
        at: u16,
        exits: Exits,
    ) -> Result<(), AllocError>
        requires { length value.now < 2 ^ 32 }
        ensures { OnOk result (self.new ≡ front test value.now at exits self.old) }
    {
        if value.is_empty() {
            return self.has_len(test, 0, at, exits);
        }
        self.same_bytes(0, value.as_bytes(), exits)?;
        self.index_start(at)?;
        let next = self.holds_next(exits);
        self.has_len(test, value.len() as u32, at, next)
    }

    /// The text ends with the value.
    pub(crate) fn ends(&mut self, value: &str, at: u16, exits: Exits) -> Result<(), AllocError>
        requires { length value.now < 2 ^ 32 }
        ensures { OnOk result (self.new ≡ ends value.now at exits self.old) }
    {
        if value.is_empty() {
            return self.has_len(Test::AtLeast, 0, at, exits);
        }
        let len = value.len() as u32;
        self.same_bytes(0, value.as_bytes(), exits)?;
        self.index_back(len, at)?;
        let next = self.holds_next(exits);
        self.has_len(Test::AtLeast, len, at, next)
    }
}
