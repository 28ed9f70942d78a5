// Texts cut after each `/`, and paths that are compared.
ghost use Rattle.std.specs.Prelude.{◌≡◌, ◌≢◌, ◌<◌, ◌≤◌, ◌+◌, ◌-◌, ◌^◌, ◌∷◌, [], ℕ, length, drop, slice_index, OnOk};
ghost use Rattle.bpf_code.specs.declared.operation.Test.TheVariants.{Equal, AtLeast};
ghost use Rattle.match_rule.specs.Bytes.{ends_with};
ghost use Rattle.rule_compile.specs.Code.{image_word, branch, same_bytes, has_len};
ghost use Rattle.rule_compile.specs.Folders.{parts_of, follow_parts, is_nested};

use crate::piece::Code;
use bpf_code::Test;
use std::alloc::AllocError;

/// Where the part of a text begins that ends at a place: after the `/` before it, if there is one.
fn part_start(text: &[u8], end: usize) -> usize
    requires some { 0 < end }
    requires within { end ≤ length text.now }
    ensures before { result < end }
    ensures one { (k : ℕ) → result ≤ k → k + 1 < end → slice_index text.now k ≢ 47 }
    ensures slash { 0 < result → slice_index text.now (result - 1) ≡ 47 }
{
    let mut start = end - 1;
    while start > 0 && text[start - 1] != b'/' {
        start -= 1;
    }
    start
}

fn ends_with_slash(text: &[u8]) -> bool
    ensures { result ≡ ends_with 47 text.now }
{
    match text.split_last() {
        None => false,
        Some((last, _)) => *last == b'/',
    }
}

impl Code {
    /// The text goes on from a place with the last part of a value, and may go on after it where that ends with `/`.
    fn last_part(&mut self, at: u16, place: usize, part: &[u8]) -> Result<(), AllocError>
        requires { place + length part.now < 2 ^ 32 }
        ensures { OnOk result (self.new ≡ follow_parts at place (part.now ∷ []) self.old) }
    {
        let end = (place + part.len()) as u32;
        self.same_bytes(place as u32, part)?;
        if ends_with_slash(part) {
            self.has_len(Test::AtLeast, end, at)
        } else {
            self.has_len(Test::Equal, end, at)
        }
    }

    /// The text goes on from a place with a part of a value. If it ends after that part, jump to the last `exit_len`
    /// instructions.
    fn inner_part(
        &mut self,
        at: u16,
        place: usize,
        part: &[u8],
        exit_len: usize,
    ) -> Result<(), AllocError>
        requires exit_len { 0 < exit_len }
        requires fits { place + length part.now < 2 ^ 32 }
        ensures { OnOk result (self.new ≡ has_len AtLeast (place + length part.now) at (same_bytes place part.now (image_word (at + 4) ∷ branch Equal (place + length part.now) (length self.old - exit_len) 0 ∷ self.old))) }
    {
        let end = (place + part.len()) as u32;
        self.settle(Test::Equal, end, exit_len)?;
        self.image_word(u32::from(at) + 4)?;
        self.same_bytes(place as u32, part)?;
        self.has_len(Test::AtLeast, end, at)
    }

    /// The text goes along the parts of a value, from the last one to the first.
    fn follow_parts(&mut self, at: u16, value: &[u8]) -> Result<(), AllocError>
        requires some { 0 < length value.now }
        requires fits { length value.now < 2 ^ 32 }
        ensures { OnOk result (self.new ≡ follow_parts at 0 (parts_of value.now) self.old) }
    {
        let exit_len = self.len();
        let mut start = part_start(value, value.len());
        self.last_part(at, start, &value[start..])?;
        while start > 0 {
            let end = start;
            start = part_start(value, end);
            self.inner_part(at, start, &value[start..end], exit_len)?;
        }
        Ok(())
    }

    /// The text equals the value, or one of them ends with `/` and begins the other.
    pub(crate) fn is_nested(&mut self, at: u16, value: &str) -> Result<(), AllocError>
        requires { length value.now < 2 ^ 32 }
        ensures { OnOk result (self.new ≡ is_nested at value.now self.old) }
    {
        if value.is_empty() {
            return self.has_len(Test::Equal, 0, at);
        }
        self.follow_parts(at, value.as_bytes())?;
        self.index_text(at)
    }
}
