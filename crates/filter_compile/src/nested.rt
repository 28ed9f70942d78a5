// Paths that are compared as rules do: texts cut after each `/`.
ghost use Rattle.std.specs.Prelude.{◌≡◌, ◌≢◌, ◌<◌, ◌≤◌, ◌+◌, ◌-◌, ◌^◌, ◌∷◌, [], ℕ, length, slice_index, OnOk};
ghost use Rattle.match_rule.specs.Bytes.{ends_with};
ghost use Rattle.rule_compile.specs.Folders.{parts_of};
ghost use Rattle.filter_compile.specs.Pieces.{part_test, inner_part, follow_parts, is_nested};

use crate::code::Code;
use crate::exits::Exits;
use bpf_code::Test;
use std::alloc::AllocError;

/// Where the part of a text begins that ends at a place: after the `/` before it, if there is one.
fn part_start(text: &[u8], end: usize) -> usize
    requires some { 0 < end }
    requires within { end ≤ length text.now }
    ensures before { result < end }
    ensures one { (k : ℕ) → result ≤ k → k + 1 < end → slice_index text.now k ≢ 47 }
    ensures slash { 0 < result → slice_index text.now (result - 1) ≡ 47 }
{
    let mut start = end - 1;
    while start > 0 && text[start - 1] != b'/' {
        start -= 1;
    }
    start
}

fn ends_with_slash(text: &[u8]) -> bool
    ensures { result ≡ ends_with 47 text.now }
{
    match text.split_last() {
        None => false,
        Some((last, _)) => *last == b'/',
    }
}

impl Code {
    /// A length that a part of the value fits into, and the part at its place.
    fn part_test(
        &mut self,
        test: Test,
        at: u16,
        place: usize,
        part: &[u8],
        exits: Exits,
    ) -> Result<(), AllocError>
        requires some { 0 < length part.now }
        requires fits { place + length part.now < 2 ^ 32 }
        ensures { OnOk result (self.new ≡ part_test test at place part.now exits self.old) }
    {
        let end = (place + part.len()) as u32;
        self.same_bytes(place as u32, part, exits)?;
        let next = self.holds_next(exits);
        self.has_len(test, end, at, next)
    }

    /// The text goes on from a place with the last part of a value, and may go on after it where that ends with `/`.
    fn last_part(
        &mut self,
        at: u16,
        place: usize,
        part: &[u8],
        exits: Exits,
    ) -> Result<(), AllocError>
        requires some { 0 < length part.now }
        requires fits { place + length part.now < 2 ^ 32 }
        ensures { OnOk result (self.new ≡ follow_parts at place (part.now ∷ []) exits self.old) }
    {
        if ends_with_slash(part) {
            self.part_test(Test::AtLeast, at, place, part, exits)
        } else {
            self.part_test(Test::Equal, at, place, part, exits)
        }
    }

    /// The text goes on from a place with a part of a value, in front of the pieces of the later parts. It may end there.
    fn inner_part(
        &mut self,
        at: u16,
        place: usize,
        part: &[u8],
        exits: Exits,
    ) -> Result<(), AllocError>
        requires some { 0 < length part.now }
        requires fits { place + length part.now < 2 ^ 32 }
        ensures { OnOk result (self.new ≡ inner_part at place part.now exits self.old) }
    {
        let end = (place + part.len()) as u32;
        let later = self.fails_next(exits);
        self.has_len(Test::Equal, end, at, later)?;
        let next = self.holds_next(exits);
        self.part_test(Test::AtLeast, at, place, part, next)
    }

    /// The text goes along the parts of a value, from the last one to the first.
    fn follow_parts(&mut self, at: u16, value: &[u8], exits: Exits) -> Result<(), AllocError>
        requires some { 0 < length value.now }
        requires fits { length value.now < 2 ^ 32 }
        ensures { OnOk result (self.new ≡ follow_parts at 0 (parts_of value.now) exits self.old) }
    {
        let mut start = part_start(value, value.len());
        self.last_part(at, start, &value[start..], exits)?;
        while start > 0 {
            let end = start;
            start = part_start(value, end);
            self.inner_part(at, start, &value[start..end], exits)?;
        }
        Ok(())
    }

    /// The text equals the value, or one of them ends with `/` and begins the other.
    pub(crate) fn is_nested(&mut self, value: &str, at: u16, exits: Exits) -> Result<(), AllocError>
        requires { length value.now < 2 ^ 32 }
        ensures { OnOk result (self.new ≡ is_nested value.now at exits self.old) }
    {
        if value.is_empty() {
            return self.has_len(Test::Equal, 0, at, exits);
        }
        self.follow_parts(at, value.as_bytes(), exits)?;
        self.index_start(at)
    }
}
