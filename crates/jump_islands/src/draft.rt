ghost use Rattle.std.specs.Prelude.{◌≡◌, ◌<◌, ◌++◌, ◌∷◌, [], ◌↔◌, None, Some, length, slice_set, IfOk, OnErr, OnOk, IsTrue, IfErr, true};
ghost use Rattle.jump_islands.specs.Draft.{DraftTree, IsClosed, IsAhead, LabelsAhead, place_of, distance, ins_of, instructions_of};
ghost use Rattle.jump_islands.specs.Source.{is_plain_op};
ghost use Rattle.jump_islands.specs.SourceItems.{is_plain_line, are_plain};
ghost use Rattle.bpf_code.specs.Table.{op_of};

use crate::error::LowerError;
use crate::label::Label;
use crate::line::Line;
use crate::source_program::SourceProgram;
use bpf_code::{Ins, Operand, Test};
use std::alloc::{AllocError, Global};
use std::marker::Model;

/// A program whose jumps name labels.
#[derive(Drop)]
pub struct Draft {
    pub(crate) lines: Vec<Line>,
    pub(crate) bound: Vec<Option<usize>>,
}

impl Model for Draft {
    ghost Value = { DraftTree };

    ghost view = { λ d. record { lines = d.lines.items; bound = d.bound.items } };

    ghost invariant = { λ d. are_plain d.lines.items ≡ true };
}

impl Draft {
    /// A draft without lines and labels. It takes no memory yet.
    pub fn new(alloc: Global) -> Draft
        ensures { result ≡ record { lines = []; bound = [] } }
    {
        Draft {
            lines: Vec::new(alloc),
            bound: Vec::new(alloc),
        }
    }

    /// A new label, which isn't bound yet.
    pub fn label(&mut self) -> Result<Label, LowerError>
        ensures number { IfOk result (λ label. label.number ≡ length self.old.bound) }
        ensures added { OnOk result (self.new ≡ record self.old { bound = self.old.bound ++ None ∷ [] }) }
        ensures unchanged { OnErr result (self.new ≡ self.old) }
        ensures only { IfErr result (λ e. e ≡ LowerError.NoMemory) }
    {
        let number = self.bound.len();
        self.bound.push(None)?;
        Ok(Label { number })
    }

    /// Binds a label to the place of the next line. The last binding counts.
    pub fn bind(&mut self, label: Label)
        requires { label.number < length self.old.bound }
        ensures { self.new ≡ record self.old { bound = slice_set self.old.bound label.number (Some (length self.old.lines)) } }
    {
        let next = self.lines.len();
        self.bound[label.number] = Some(next);
    }

    /// Adds an instruction that is no jump.
    pub fn push(&mut self, ins: Ins) -> Result<(), LowerError>
        requires { IsTrue (is_plain_op (op_of ins.code)) }
        ensures added { OnOk result (self.new ≡ record self.old { lines = self.old.lines ++ Line.Plain ins ∷ [] }) }
        ensures unchanged { OnErr result (self.new ≡ self.old) }
        ensures only { IfErr result (λ e. e ≡ LowerError.NoMemory) }
    {
        self.lines.push(Line::Plain(ins))?;
        Ok(())
    }

    /// Adds a conditional jump to one of two labels, the first where the test of A and the operand holds.
    pub fn jump(
        &mut self,
        test: Test,
        operand: Operand,
        k: u32,
        yes: Label,
        no: Label,
    ) -> Result<(), LowerError>
        ensures added { OnOk result (self.new ≡ record self.old { lines = self.old.lines ++ Line.Jumps test operand k yes no ∷ [] }) }
        ensures unchanged { OnErr result (self.new ≡ self.old) }
        ensures only { IfErr result (λ e. e ≡ LowerError.NoMemory) }
    {
        self.lines.push(Line::Jumps(test, operand, k, yes, no))?;
        Ok(())
    }

    /// Adds a jump to a label.
    pub fn goto(&mut self, to: Label) -> Result<(), LowerError>
        ensures added { OnOk result (self.new ≡ record self.old { lines = self.old.lines ++ Line.Goes to ∷ [] }) }
        ensures unchanged { OnErr result (self.new ≡ self.old) }
        ensures only { IfErr result (λ e. e ≡ LowerError.NoMemory) }
    {
        self.lines.push(Line::Goes(to))?;
        Ok(())
    }

    /// The place to which a label is bound.
    fn place_of(&self, label: Label) -> Option<usize>
        ensures { result ≡ place_of self.now label }
    {
        match self.bound.get(label.number) {
            Some(place) => *place,
            None => None,
        }
    }

    /// How many lines a jump at a place goes over to a label that is bound ahead of it.
    fn distance(&self, place: usize, label: Label) -> usize
        ensures { result ≡ distance self.now place label }
    {
        match self.place_of(label) {
            Some(to) => to.saturating_sub(place).saturating_sub(1),
            None => 0,
        }
    }

    /// Puts the line of a place in front of a source program.
    fn put_line(
        &self,
        place: usize,
        line: Line,
        source: &mut SourceProgram,
    ) -> Result<(), AllocError>
        requires { IsTrue (is_plain_line line) }
        ensures { OnOk result (source.new ≡ ins_of self.now place line ∷ source.old) }
    {
        match line {
            Line::Plain(ins) => source.put_plain(ins),
            Line::Jumps(test, operand, k, yes, no) => {
                let hit = self.distance(place, yes);
                source.put_branch(test, operand, k, hit, self.distance(place, no))
            }
            Line::Goes(to) => source.put_jump(self.distance(place, to)),
        }
    }

    /// The draft as a source program.
    pub(crate) fn source(&self, alloc: Global) -> Result<SourceProgram, AllocError>
        ensures { IfOk result (λ source. source ≡ instructions_of self.now) }
    {
        let lines = self.lines.as_slice();
        let mut source = SourceProgram::new(alloc);
        for place in (0..lines.len()).rev() {
            self.put_line(place, lines[place], &mut source)?;
        }
        Ok(source)
    }

    /// Whether a label is bound ahead of a place.
    fn is_ahead(&self, place: usize, label: Label) -> bool
        ensures { IsTrue result ↔ IsAhead self.now place label }
    {
        match self.place_of(label) {
            Some(to) => place < to,
            None => false,
        }
    }

    /// Whether each label that a line uses is bound ahead of it.
    fn is_line_closed(&self, place: usize, line: &Line) -> bool
        ensures { IsTrue result ↔ LabelsAhead self.now place line.now }
    {
        match *line {
            Line::Plain(_) => true,
            Line::Jumps(_, _, _, yes, no) => self.is_ahead(place, yes) && self.is_ahead(place, no),
            Line::Goes(to) => self.is_ahead(place, to),
        }
    }

    /// Whether each label that a line uses is bound ahead of it.
    pub fn is_closed(&self) -> bool
        ensures { IsTrue result ↔ IsClosed self.now }
    {
        let lines = self.lines.as_slice();
        for place in 0..lines.len() {
            if !self.is_line_closed(place, &lines[place]) {
                return false;
            }
        }
        true
    }
}
