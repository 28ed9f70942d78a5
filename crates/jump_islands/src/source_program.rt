ghost use Rattle.std.specs.Prelude.{◌≡◌, ◌∷◌, [], List, true, length, IfOk, IfErr, OnErr, OnOk, IsTrue};
ghost use Rattle.bpf_code.specs.declared.instruction.Ins.{Ins};
ghost use Rattle.bpf_code.specs.Table.{op_of};
ghost use Rattle.jump_islands.specs.Lowering.{IsTarget, IsTargetRefusal};
ghost use Rattle.jump_islands.specs.Source.{is_plain_op, branch_over, jump_over};
ghost use Rattle.jump_islands.specs.SourceItems.{are_plain_sources, source_of};

use crate::error::LowerError;
use crate::source_ins::SourceIns;
use crate::tail::Tail;
use bpf_code::{Ins, Operand, Test};
use std::alloc::{AllocError, Global};
use std::marker::Model;

/// A program whose jumps go over any number of instructions. It is written from its last instruction to its first, so
/// that each jump has its target already.
#[derive(Drop)]
pub struct SourceProgram {
    /// The last one is the program's first.
    instructions: Vec<SourceIns>,
}

impl Model for SourceProgram {
    ghost Value = { List Ins };

    ghost view = { λ s. source_of s.instructions.items };

    ghost invariant = { λ s. are_plain_sources s.instructions.items ≡ true };
}

impl SourceProgram {
    /// A program without instructions. It takes no memory yet.
    pub fn new(alloc: Global) -> SourceProgram
        ensures { result ≡ [] }
    {
        SourceProgram {
            instructions: Vec::new(alloc),
        }
    }

    /// The number of instructions.
    pub fn len(&self) -> usize
        ensures { result ≡ length self.now }
    {
        self.instructions.len()
    }

    /// Puts an instruction in front that is no jump.
    pub fn put_plain(&mut self, ins: Ins) -> Result<(), AllocError>
        requires { IsTrue (is_plain_op (op_of ins.code)) }
        ensures put { OnOk result (self.new ≡ ins ∷ self.old) }
        ensures unchanged { OnErr result (self.new ≡ self.old) }
    {
        self.instructions.push(SourceIns::Plain(ins))?;
        Ok(())
    }

    /// Puts a conditional jump in front, which goes over `hit` instructions where the test of A and the operand holds,
    /// and over `miss` where it doesn't.
    pub fn put_branch(
        &mut self,
        test: Test,
        operand: Operand,
        k: u32,
        hit: usize,
        miss: usize,
    ) -> Result<(), AllocError>
        ensures put { OnOk result (self.new ≡ branch_over test operand k hit miss ∷ self.old) }
        ensures unchanged { OnErr result (self.new ≡ self.old) }
    {
        self.instructions
            .push(SourceIns::Branch(test, operand, k, hit, miss))?;
        Ok(())
    }

    /// Puts a jump over `over` instructions in front.
    pub fn put_jump(&mut self, over: usize) -> Result<(), AllocError>
        ensures put { OnOk result (self.new ≡ jump_over over ∷ self.old) }
        ensures unchanged { OnErr result (self.new ≡ self.old) }
    {
        self.instructions.push(SourceIns::Jump(over))?;
        Ok(())
    }

    /// The instructions, from the program's last one to its first.
    fn instructions(&self) -> &[SourceIns]
        ensures value { source_of result.now ≡ self.now }
        ensures plain { are_plain_sources result.now ≡ true }
    {
        self.instructions.as_slice()
    }

    /// A program that does what this one does. Each conditional jump that is too far goes to an island, a jump in
    /// between, which several jumps to one place share.
    pub fn lower(&self, alloc: Global) -> Result<Vec<Ins>, LowerError>
        ensures lowered { IfOk result (λ program. IsTarget self.now program.items) }
        ensures refused { IfErr result (IsTargetRefusal self.now) }
    {
        let instructions = self.instructions();
        let mut tail = Tail::new(alloc)?;
        for place in 0..instructions.len() {
            tail.add(instructions[place])?;
        }
        Ok(tail.finish())
    }
}
