// Programs under way, and their shortest pieces.
ghost use Rattle.std.specs.Prelude.{◌≡◌, ◌<◌, ◌-◌, ◌∷◌, length, IfOk, OnOk, IsTrue, Some};
ghost use Rattle.bpf_code.specs.Table.{op_of};
ghost use Rattle.jump_islands.specs.Source.{is_plain_op, AreWellMade};
ghost use Rattle.rule_compile.specs.Code.{plain, image_word, load_indexed, index_from_a, branch, want};
ghost use Rattle.rule_compile.specs.RuleCode.{verdicts};
ghost use Rattle.rule_compile.specs.Sound.{IsOfPiece};

use bpf_code::{Ins, Op, Operand, Test, Width};
use jump_islands::SourceProgram;
use std::alloc::{AllocError, Global};
use std::marker::Model;

/// A program under way, which is written from its last instruction to its first: each piece stands in front of the
/// rest. The last instruction says no match.
#[derive(Drop)]
pub(crate) struct Code {
    source: SourceProgram,
}

impl Model for Code {
    ghost use Rattle.std.specs.Prelude.{List};
    ghost use Rattle.bpf_code.specs.declared.instruction.Ins.{Ins};
    ghost use Rattle.rule_compile.specs.Sound.{IsSound};

    ghost Value = { List Ins };

    ghost view = { λ c. c.source };

    ghost invariant = { λ c. IsSound c.source };
}

/// An instruction that is no jump.
fn plain(op: Op, k: u32) -> Ins
    ensures value { result ≡ plain op k }
    ensures row { op_of result.code ≡ Some op }
{
    Ins {
        code: op.code(),
        jt: 0,
        jf: 0,
        k,
    }
}

impl Code {
    /// A match, and after it no match.
    pub(crate) fn verdicts(alloc: Global) -> Result<Code, AllocError>
        ensures { IfOk result (λ code. code ≡ verdicts) }
    {
        let mut source = SourceProgram::new(alloc);
        source.put_plain(plain(Op::ReturnConstant, 0))?;
        let mut code = Code { source };
        code.put(Op::ReturnConstant, 1)?;
        Ok(code)
    }

    /// The program.
    pub(crate) fn finish(self) -> SourceProgram
        ensures value { result ≡ self }
        ensures made { AreWellMade result }
    {
        self.source
    }

    /// How many instructions there are.
    pub(crate) fn len(&self) -> usize
        ensures value { result ≡ length self.now }
        ensures some { 0 < result }
    {
        self.source.len()
    }

    /// Puts an instruction in front that is no jump.
    fn put(&mut self, op: Op, k: u32) -> Result<(), AllocError>
        requires plain { IsTrue (is_plain_op (Some op)) }
        requires piece { IsOfPiece op k }
        ensures { OnOk result (self.new ≡ plain op k ∷ self.old) }
    {
        self.source.put_plain(plain(op, k))?;
        Ok(())
    }

    /// Puts a comparison of A with `k` in front, and how many instructions it goes over where it holds and where it
    /// doesn't.
    fn branch(&mut self, test: Test, k: u32, hit: usize, miss: usize) -> Result<(), AllocError>
        requires hit { hit < length self.old }
        requires miss { miss < length self.old }
        ensures { OnOk result (self.new ≡ branch test k hit miss ∷ self.old) }
    {
        self.source
            .put_branch(test, Operand::Constant, k, hit, miss)?;
        Ok(())
    }

    /// A becomes the word of the image at a place.
    pub(crate) fn image_word(&mut self, at: u32) -> Result<(), AllocError>
        requires { IsOfPiece (Op.LoadImage Width.Word) at }
        ensures { OnOk result (self.new ≡ image_word at ∷ self.old) }
    {
        self.put(Op::LoadImage(Width::Word), at)
    }

    /// A becomes what stands `at` bytes after X.
    pub(crate) fn load_indexed(&mut self, width: Width, at: u32) -> Result<(), AllocError>
        ensures { OnOk result (self.new ≡ load_indexed width at ∷ self.old) }
    {
        self.put(Op::LoadIndexed(width), at)
    }

    /// X becomes A.
    pub(crate) fn index_from_a(&mut self) -> Result<(), AllocError>
        ensures { OnOk result (self.new ≡ index_from_a ∷ self.old) }
    {
        self.put(Op::IndexFromA, 0)
    }

    /// No match where the comparison doesn't hold.
    pub(crate) fn want(&mut self, test: Test, k: u32) -> Result<(), AllocError>
        ensures { OnOk result (self.new ≡ want test k self.old) }
    {
        let miss = self.len() - 1;
        self.branch(test, k, 0, miss)
    }

    /// If the test holds, jump to the last `exit_len` instructions.
    pub(crate) fn settle(&mut self, test: Test, k: u32, exit_len: usize) -> Result<(), AllocError>
        requires { 0 < exit_len }
        ensures { OnOk result (self.new ≡ branch test k (length self.old - exit_len) 0 ∷ self.old) }
    {
        let hit = self.len().saturating_sub(exit_len);
        self.branch(test, k, hit, 0)
    }
}
