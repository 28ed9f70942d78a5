// The digits of an argument's number, from the highest on: bytes in a message of type `l`, where one chain serves all types
// and each size has its entry, and words in one of type `B`.
ghost use Rattle.std.specs.Prelude.{◌≡◌, ◌<◌, IfOk, OnOk};
ghost use Rattle.filter_compile.specs.ArgCode.{rung_code, ladder, low_sizes, littles, bigs};

use crate::code::Code;
use crate::exits::Exits;
use bpf_code::{Test, Width};
use std::alloc::AllocError;

/// The entries of numbers of one, two, four and eight bytes, each as the number of instructions to the program's end.
#[derive(Clone, Copy)]
pub(crate) struct Sizes {
    pub(crate) one: usize,
    pub(crate) two: usize,
    pub(crate) four: usize,
    pub(crate) eight: usize,
}

impl Code {
    /// A digit of the number, in front of the code of the lower ones.
    fn rung(
        &mut self,
        test: Test,
        width: Width,
        at: u32,
        key: u32,
        exits: Exits,
    ) -> Result<(), AllocError>
        ensures { OnOk result (self.new ≡ rung_code test width at key exits self.old) }
    {
        match test {
            Test::Equal => {
                let next = self.holds_next(exits);
                self.indexed_test(width, at, Test::Equal, key, next)
            }
            Test::SharesBit => {
                let next = self.fails_next(exits);
                self.indexed_test(width, at, Test::SharesBit, key, next)
            }
            Test::Above | Test::AtLeast => {
                let next = self.holds_next(exits);
                self.indexed_test(width, at, Test::Equal, key, next)?;
                let same = self.fails_next(exits);
                self.indexed_test(width, at, Test::Above, key, same)
            }
        }
    }

    /// The four lowest bytes of a number, as they lie in a message of type `l`.
    fn four_bytes(&mut self, test: Test, bits: u64, exits: Exits) -> Result<Sizes, AllocError>
        ensures code { OnOk result (self.new ≡ ladder test bits 3 exits self.old) }
        ensures sizes { IfOk result (λ sizes. sizes ≡ low_sizes test bits exits self.old) }
    {
        let bytes = bits.to_le_bytes();
        self.indexed_test(Width::Byte, 0, test, u32::from(bytes[0]), exits)?;
        let one = self.len();
        self.rung(test, Width::Byte, 1, u32::from(bytes[1]), exits)?;
        let two = self.len();
        self.rung(test, Width::Byte, 2, u32::from(bytes[2]), exits)?;
        self.rung(test, Width::Byte, 3, u32::from(bytes[3]), exits)?;
        let four = self.len();
        Ok(Sizes {
            one,
            two,
            four,
            eight: four,
        })
    }

    /// The bytes of a number, as they lie in a message of type `l`.
    pub(crate) fn littles(
        &mut self,
        test: Test,
        bits: u64,
        exits: Exits,
    ) -> Result<Sizes, AllocError>
        ensures { IfOk result (λ sizes. record { code = self.new; sizes = sizes } ≡ littles test bits exits self.old) }
    {
        let low = self.four_bytes(test, bits, exits)?;
        let bytes = bits.to_le_bytes();
        self.rung(test, Width::Byte, 4, u32::from(bytes[4]), exits)?;
        self.rung(test, Width::Byte, 5, u32::from(bytes[5]), exits)?;
        self.rung(test, Width::Byte, 6, u32::from(bytes[6]), exits)?;
        self.rung(test, Width::Byte, 7, u32::from(bytes[7]), exits)?;
        let eight = self.len();
        Ok(Sizes { eight, ..low })
    }

    /// The words of a number, as they lie in a message of type `B`.
    pub(crate) fn bigs(
        &mut self,
        test: Test,
        bits: u64,
        exits: Exits,
        one: usize,
    ) -> Result<Sizes, AllocError>
        ensures { IfOk result (λ sizes. record { code = self.new; sizes = sizes } ≡ bigs test bits exits one self.old) }
    {
        let (high, low) = ((bits / (1 << 32)) as u32, (bits % (1 << 32)) as u32);
        self.indexed_test(Width::Word, 4, test, low, exits)?;
        self.rung(test, Width::Word, 0, high, exits)?;
        let eight = self.len();
        self.indexed_test(Width::Word, 0, test, low, exits)?;
        let four = self.len();
        self.indexed_test(Width::Half, 0, test, (bits % (1 << 16)) as u32, exits)?;
        let two = self.len();
        Ok(Sizes {
            one,
            two,
            four,
            eight,
        })
    }
}
