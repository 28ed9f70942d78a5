// Programs under way, and their shortest pieces.
ghost use Rattle.std.specs.Prelude.{◌≡◌, ◌<◌, ◌+◌, ◌-◌, ◌∷◌, length, IfOk, OnOk, IsTrue, Some};
ghost use Rattle.bpf_code.specs.Table.{op_of};
ghost use Rattle.jump_islands.specs.Source.{is_plain_op, jump_over, AreWellMade};
ghost use Rattle.rule_compile.specs.Code.{plain, image_word, load_indexed, index_from_a};
ghost use Rattle.rule_compile.specs.RuleCode.{verdicts};
ghost use Rattle.filter_compile.specs.Pieces.{over, holds_next, fails_next, fork, word_test, indexed_test};
ghost use Rattle.filter_compile.specs.FilterCode.{from_entry};
ghost use Rattle.filter_compile.specs.Sound.{IsOfPiece};

use crate::exits::Exits;
use bpf_code::{Ins, Op, Operand, Test, Width};
use jump_islands::SourceProgram;
use std::alloc::{AllocError, Global};
use std::marker::Model;

/// A program under way, which is written from its last instruction to its first: each piece stands in front of the
/// rest.
#[derive(Drop)]
pub(crate) struct Code {
    source: SourceProgram,
}

impl Model for Code {
    ghost use Rattle.std.specs.Prelude.{List};
    ghost use Rattle.bpf_code.specs.declared.instruction.Ins.{Ins};
    ghost use Rattle.rule_compile.specs.Sound.{IsSound};

    ghost Value = { List Ins };

    ghost view = { λ c. c.source };

    ghost invariant = { λ c. IsSound c.source };
}

/// An instruction that is no jump.
fn plain(op: Op, k: u32) -> Ins
    ensures value { result ≡ plain op k }
    ensures row { op_of result.code ≡ Some op }
{
    Ins {
        code: op.code(),
        jt: 0,
        jf: 0,
        k,
    }
}

impl Code {
    /// A match, and after it no match.
    pub(crate) fn verdicts(alloc: Global) -> Result<Code, AllocError>
        ensures { IfOk result (λ code. code ≡ verdicts) }
    {
        let mut source = SourceProgram::new(alloc);
        source.put_plain(plain(Op::ReturnConstant, 0))?;
        let mut code = Code { source };
        code.put(Op::ReturnConstant, 1)?;
        Ok(code)
    }

    /// The program, whose first instruction is the one with `entry` instructions from it to the end.
    pub(crate) fn finish(mut self, entry: usize) -> Result<SourceProgram, AllocError>
        ensures value { IfOk result (λ source. source ≡ from_entry self entry) }
        ensures made { IfOk result AreWellMade }
    {
        if entry < self.len() {
            self.put_jump(entry)?;
        }
        Ok(self.source)
    }

    /// How many instructions there are.
    pub(crate) fn len(&self) -> usize
        ensures value { result ≡ length self.now }
        ensures some { 0 < result }
    {
        self.source.len()
    }

    /// How many instructions stand before a place, which is the number of instructions from it to the end. It is at least the
    /// last one.
    #[tactic(auto, unfolding(crate::specs::Pieces::over))]
    fn over(&self, place: usize) -> usize
        ensures value { result ≡ over self.now place }
        ensures inside { result < length self.now }
    {
        let len = self.len();
        len.saturating_sub(place).min(len - 1)
    }

    /// The exits of a piece after which the program goes on at its first instruction where the fact holds.
    pub(crate) fn holds_next(&self, exits: Exits) -> Exits
        ensures { result ≡ holds_next exits self.now }
    {
        Exits {
            holds: self.len(),
            fails: exits.fails,
        }
    }

    /// Those where it does so where the fact doesn't hold.
    pub(crate) fn fails_next(&self, exits: Exits) -> Exits
        ensures { result ≡ fails_next exits self.now }
    {
        Exits {
            holds: exits.holds,
            fails: self.len(),
        }
    }

    /// Puts an instruction in front that is no jump.
    pub(crate) fn put(&mut self, op: Op, k: u32) -> Result<(), AllocError>
        requires plain { IsTrue (is_plain_op (Some op)) }
        requires piece { IsOfPiece op k }
        ensures { OnOk result (self.new ≡ plain op k ∷ self.old) }
    {
        self.source.put_plain(plain(op, k))?;
        Ok(())
    }

    /// Puts a jump to a place in front.
    pub(crate) fn put_jump(&mut self, place: usize) -> Result<(), AllocError>
        ensures { OnOk result (self.new ≡ jump_over (over self.old place) ∷ self.old) }
    {
        let over = self.over(place);
        self.source.put_jump(over)?;
        Ok(())
    }

    /// A comparison of A with a number.
    pub(crate) fn fork(&mut self, test: Test, k: u32, exits: Exits) -> Result<(), AllocError>
        ensures { OnOk result (self.new ≡ fork test k exits self.old) }
    {
        let hit = self.over(exits.holds);
        let miss = self.over(exits.fails);
        self.source
            .put_branch(test, Operand::Constant, k, hit, miss)?;
        Ok(())
    }

    /// A becomes the word of the image at a place.
    pub(crate) fn image_word(&mut self, at: u32) -> Result<(), AllocError>
        requires { IsOfPiece (Op.LoadImage Width.Word) at }
        ensures { OnOk result (self.new ≡ image_word at ∷ self.old) }
    {
        self.put(Op::LoadImage(Width::Word), at)
    }

    /// X becomes A.
    pub(crate) fn index_from_a(&mut self) -> Result<(), AllocError>
        ensures { OnOk result (self.new ≡ index_from_a ∷ self.old) }
    {
        self.put(Op::IndexFromA, 0)
    }

    /// The word of the image at a place passes a comparison.
    pub(crate) fn word_test(
        &mut self,
        at: u32,
        test: Test,
        k: u32,
        exits: Exits,
    ) -> Result<(), AllocError>
        requires { IsOfPiece (Op.LoadImage Width.Word) at }
        ensures { OnOk result (self.new ≡ word_test at test k exits self.old) }
    {
        self.fork(test, k, exits)?;
        self.image_word(at)
    }

    /// What stands `at` bytes after X passes a comparison.
    pub(crate) fn indexed_test(
        &mut self,
        width: Width,
        at: u32,
        test: Test,
        k: u32,
        exits: Exits,
    ) -> Result<(), AllocError>
        ensures { OnOk result (self.new ≡ indexed_test width at test k exits self.old) }
    {
        self.fork(test, k, exits)?;
        self.put(Op::LoadIndexed(width), at)
    }
}
