// Texts, whose place and length are two words of an image.
ghost use Rattle.std.specs.Prelude.{◌≡◌, ◌<◌, ◌≤◌, ◌+◌, ◌*◌, ◌^◌, length, OnOk};
ghost use Rattle.rule_compile.specs.Code.{half_number, same_word, same_words, same_bytes, has_len, is_there, has_text_len, index_text, has_bytes, in_namespace};

use crate::piece::Code;
use bpf_code::{Test, Width};
use std::alloc::AllocError;

/// Two bytes as a number, the highest first.
fn half_number(a: u8, b: u8) -> u32
    ensures { result ≡ half_number a b }
{
    u32::from(u16::from_be_bytes([a, b]))
}

impl Code {
    /// The bytes from `at` after X on are these, of which there are fewer than four.
    #[tactic(auto, using(crate::proofs::SameBytes::same_none, crate::proofs::SameBytes::same_one, crate::proofs::SameBytes::same_two, crate::proofs::SameBytes::same_three))]
    fn same_few(&mut self, at: u32, value: &[u8]) -> Result<(), AllocError>
        requires few { length value.now < 4 }
        requires fits { at + length value.now < 2 ^ 32 }
        ensures { OnOk result (self.new ≡ same_bytes at value.now self.old) }
    {
        match *value {
            [a] => {
                self.want(Test::Equal, u32::from(a))?;
                self.load_indexed(Width::Byte, at)
            }
            [a, b] => {
                self.want(Test::Equal, half_number(a, b))?;
                self.load_indexed(Width::Half, at)
            }
            [a, b, c] => {
                self.want(Test::Equal, u32::from(c))?;
                self.load_indexed(Width::Byte, at + 2)?;
                self.want(Test::Equal, half_number(a, b))?;
                self.load_indexed(Width::Half, at)
            }
            _ => Ok(()),
        }
    }

    /// The four bytes from `at` + `from` after X on are those of the value from its byte `from` on.
    fn same_word(&mut self, at: u32, value: &[u8], from: usize) -> Result<(), AllocError>
        requires inside { from + 4 ≤ length value.now }
        requires fits { at + length value.now < 2 ^ 32 }
        ensures { OnOk result (self.new ≡ same_word at value.now from self.old) }
    {
        let bytes = [
            value[from],
            value[from + 1],
            value[from + 2],
            value[from + 3],
        ];
        self.want(Test::Equal, u32::from_be_bytes(bytes))?;
        self.load_indexed(Width::Word, at + from as u32)
    }

    /// So are the first words of the value, `count` of them.
    fn same_words(&mut self, at: u32, value: &[u8], count: usize) -> Result<(), AllocError>
        requires inside { 4 * count ≤ length value.now }
        requires fits { at + length value.now < 2 ^ 32 }
        ensures { OnOk result (self.new ≡ same_words at value.now count self.old) }
    {
        for word in (0..count).rev() {
            self.same_word(at, value, 4 * word)?;
        }
        Ok(())
    }

    /// The bytes from `at` after X on are these. Many names begin alike, so that the last four are compared first.
    #[tactic(auto, using(crate::proofs::SameBytes::same_many))]
    pub(crate) fn same_bytes(&mut self, at: u32, value: &[u8]) -> Result<(), AllocError>
        requires { at + length value.now < 2 ^ 32 }
        ensures { OnOk result (self.new ≡ same_bytes at value.now self.old) }
    {
        if value.len() < 4 {
            return self.same_few(at, value);
        }
        self.same_words(at, value, (value.len() - 1) / 4)?;
        self.same_word(at, value, value.len() - 4)
    }

    /// The length passes the test.
    pub(crate) fn has_len(&mut self, test: Test, len: u32, at: u16) -> Result<(), AllocError>
        ensures { OnOk result (self.new ≡ has_len test len at self.old) }
    {
        self.want(test, len)?;
        self.image_word(u32::from(at) + 4)
    }

    /// The text is there.
    pub(crate) fn is_there(&mut self, at: u16) -> Result<(), AllocError>
        ensures { OnOk result (self.new ≡ is_there at self.old) }
    {
        self.want(Test::Above, 0)?;
        self.image_word(u32::from(at))
    }

    /// X becomes the text's place.
    pub(crate) fn index_text(&mut self, at: u16) -> Result<(), AllocError>
        ensures { OnOk result (self.new ≡ index_text at self.old) }
    {
        self.index_from_a()?;
        self.image_word(u32::from(at))
    }

    /// The text is there, and its length passes the test. A length of 0 doesn't say whether it is there.
    pub(crate) fn has_text_len(&mut self, test: Test, len: u32, at: u16) -> Result<(), AllocError>
        ensures { OnOk result (self.new ≡ has_text_len test len at self.old) }
    {
        if len == 0 {
            self.is_there(at)?;
        }
        self.has_len(test, len, at)
    }

    /// The text, which isn't shorter, begins with this value.
    pub(crate) fn has_bytes(&mut self, at: u16, value: &str) -> Result<(), AllocError>
        requires { length value.now < 2 ^ 32 }
        ensures { OnOk result (self.new ≡ has_bytes at value.now self.old) }
    {
        self.same_bytes(0, value.as_bytes())?;
        self.index_text(at)
    }

    /// The text, which isn't shorter, is this value, or begins with it and a separator.
    pub(crate) fn in_namespace(
        &mut self,
        at: u16,
        separator: u8,
        value: &str,
    ) -> Result<(), AllocError>
        requires { length value.now < 2 ^ 32 }
        ensures { OnOk result (self.new ≡ in_namespace at separator value.now self.old) }
    {
        let len = value.len() as u32;
        let exit_len = self.len();
        self.want(Test::Equal, u32::from(separator))?;
        self.load_indexed(Width::Byte, len)?;
        self.settle(Test::Equal, len, exit_len)?;
        self.image_word(u32::from(at) + 4)?;
        self.has_bytes(at, value)
    }
}
