ghost use Rattle.std.specs.Prelude.{◌≡◌, ◌<◌, ◌≤◌, ◌-◌, Err, IfOk, IfErr, OnOk, length, reverse};
ghost use Rattle.jump_islands.specs.Tails.{TailTree, no_tail, len, height, reach, with_ins, with_place, with_needed, with_islands, with_branch, place_after, jump_to, is_too_far, is_first_far, with_source_ins, with_source, IsPlace, ArePlaces};

use crate::error::LowerError;
use crate::source_ins::SourceIns;
use bpf_code::{Ins, Op, Operand, Test};
use std::alloc::Global;
use std::marker::Model;

/// The longest program.
const MAX_LEN: usize = 4096;

/// The farthest that a conditional jump goes.
const MAX_DISTANCE: usize = 255;

/// The last instructions of a source program, lowered. Places are those of the source program, from its end.
#[derive(Drop)]
pub(crate) struct Tail {
    /// The instructions, the last one first.
    program: Vec<Ins>,
    /// For each place, how many instructions stand from it on.
    heights: Vec<usize>,
    /// For each place, how many stand from the nearest instruction that leads to it: its own, or its latest island.
    reaches: Vec<usize>,
}

impl Model for Tail {
    ghost Value = { TailTree };

    ghost view = { λ t. record { program = t.program.items; heights = t.heights.items; reaches = t.reaches.items } };
}

impl Tail {
    /// The tail of no instruction.
    pub(crate) fn new(alloc: Global) -> Result<Tail, LowerError>
        ensures found { IfOk result (λ t. t ≡ no_tail) }
        ensures only { IfErr result (λ e. e ≡ LowerError.NoMemory) }
    {
        let mut heights = Vec::new(alloc);
        heights.push(0)?;
        let mut reaches = Vec::new(alloc);
        reaches.push(0)?;
        Ok(Tail {
            program: Vec::new(alloc),
            heights,
            reaches,
        })
    }

    /// Puts an instruction in front.
    fn put(&mut self, ins: Ins) -> Result<(), LowerError>
        ensures put { OnOk result (self.new ≡ with_ins ins self.old) }
        ensures few { OnOk result (len self.old < 4096) }
        ensures many { result ≡ Err LowerError.TooMany → 4096 ≤ len self.old }
    {
        if self.program.len() >= MAX_LEN {
            return Err(LowerError::TooMany);
        }
        self.program.push(ins)?;
        Ok(())
    }

    /// Adds a place, in front of the instructions.
    fn add_place(&mut self) -> Result<(), LowerError>
        ensures added { OnOk result (self.new ≡ with_place self.old) }
        ensures only { IfErr result (λ e. e ≡ LowerError.NoMemory) }
    {
        let len = self.program.len();
        self.heights.push(len)?;
        self.reaches.push(len)?;
        Ok(())
    }

    /// The place to which a jump over `over` instructions goes from in front of the tail.
    fn place_after(&self, over: usize) -> usize
        ensures { result ≡ place_after over self.now }
    {
        self.heights.len().saturating_sub(1).saturating_sub(over)
    }

    /// The jump to a place.
    fn jump_to(&self, place: usize) -> Ins
        requires place { place < length self.now.heights }
        requires bounded { height self.now place ≤ len self.now }
        requires few { len self.now ≤ 4096 }
        ensures { result ≡ jump_to place self.now }
    {
        let distance = self.program.len() - self.heights[place];
        Ins {
            code: Op::Jump.code(),
            jt: 0,
            jf: 0,
            k: distance as u32,
        }
    }

    /// Puts an island of a place in front, if it is needed.
    fn add_island(&mut self, needed: bool, place: usize) -> Result<(), LowerError>
        requires place { IsPlace self.old place }
        requires few { len self.old ≤ 4096 }
        ensures added { OnOk result (self.new ≡ with_needed needed place self.old) }
        ensures few { OnOk result (len self.new ≤ 4096) }
        ensures many { result ≡ Err LowerError.TooMany → 4096 ≤ len self.old }
    {
        if needed {
            let island = self.jump_to(place);
            self.put(island)?;
            self.reaches[place] = self.program.len();
        }
        Ok(())
    }

    /// Whether a place is too far for a conditional jump, where the tail after it has `ahead` instructions.
    fn is_too_far(&self, place: usize, ahead: usize) -> bool
        requires { place < length self.now.reaches }
        ensures { result ≡ is_too_far place ahead self.now }
    {
        ahead.saturating_sub(self.reaches[place]) > MAX_DISTANCE
    }

    /// Whether the first place of a conditional jump needs an island.
    fn is_first_far(&self, yes: usize, no: usize) -> bool
        requires yes { yes < length self.now.reaches }
        requires no { no < length self.now.reaches }
        ensures { result ≡ is_first_far yes no self.now }
    {
        let len = self.program.len();
        self.is_too_far(yes, len) || self.is_too_far(no, len) && self.is_too_far(yes, len + 1)
    }

    /// How far the nearest instruction is that leads to a place.
    fn distance(&self, place: usize) -> u8
        requires place { place < length self.now.reaches }
        requires near { len self.now - reach self.now place ≤ 255 }
        ensures { result ≡ len self.now - reach self.now place }
    {
        self.program.len().saturating_sub(self.reaches[place]) as u8
    }

    /// Adds a conditional jump, with the islands that it needs.
    fn add_branch(
        &mut self,
        test: Test,
        operand: Operand,
        k: u32,
        yes: usize,
        no: usize,
    ) -> Result<(), LowerError>
        requires yes { IsPlace self.old yes }
        requires no { IsPlace self.old no }
        requires few { len self.old ≤ 4096 }
        ensures added { OnOk result (self.new ≡ with_branch test operand k yes no (with_islands yes no self.old)) }
        ensures few { OnOk result (len self.new ≤ 4096) }
        ensures many { result ≡ Err LowerError.TooMany → 4096 ≤ len (with_islands yes no self.old) }
    {
        let first = self.is_first_far(yes, no);
        self.add_island(first, yes)?;
        let second = self.is_too_far(no, self.program.len());
        self.add_island(second, no)?;
        let code = Op::Branch(test, operand).code();
        let jt = self.distance(yes);
        let jf = self.distance(no);
        self.put(Ins { code, jt, jf, k })
    }

    /// Adds the instructions of an instruction of the source program.
    fn add_ins(&mut self, ins: SourceIns) -> Result<(), LowerError>
        requires places { ArePlaces self.old }
        requires few { len self.old ≤ 4096 }
        ensures added { OnOk result (self.new ≡ with_source_ins ins self.old) }
        ensures few { OnOk result (len self.new ≤ 4096) }
        ensures many { result ≡ Err LowerError.TooMany → 4096 < len (with_source ins self.old) }
    {
        match ins {
            SourceIns::Plain(ins) => self.put(ins),
            SourceIns::Branch(test, operand, k, hit, miss) => {
                let yes = self.place_after(hit);
                let no = self.place_after(miss);
                self.add_branch(test, operand, k, yes, no)
            }
            SourceIns::Jump(over) => {
                let jump = self.jump_to(self.place_after(over));
                self.put(jump)
            }
        }
    }

    /// Adds an instruction of the source program.
    pub(crate) fn add(&mut self, ins: SourceIns) -> Result<(), LowerError>
        requires places { ArePlaces self.old }
        requires few { len self.old ≤ 4096 }
        ensures added { OnOk result (self.new ≡ with_source ins self.old) }
        ensures few { OnOk result (len self.new ≤ 4096) }
        ensures many { result ≡ Err LowerError.TooMany → 4096 < len (with_source ins self.old) }
    {
        self.add_ins(ins)?;
        self.add_place()
    }

    /// The program.
    pub(crate) fn finish(self) -> Vec<Ins>
        ensures { result.items ≡ reverse self.program }
    {
        let mut program = self.program;
        program.reverse();
        program
    }
}
