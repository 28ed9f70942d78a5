use bpf_code::{Ins, Operand, Test};

/// An instruction of a source program, whose jumps go over any number of instructions.
#[derive(Clone, Copy)]
pub(crate) enum SourceIns {
    /// An instruction that is no jump.
    Plain(Ins),
    /// A conditional jump with its k, and how many instructions it goes over where the test holds and where it
    /// doesn't.
    Branch(Test, Operand, u32, usize, usize),
    /// A jump, and how many instructions it goes over.
    Jump(usize),
}
