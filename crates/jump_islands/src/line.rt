use crate::label::Label;
use bpf_code::{Ins, Operand, Test};

/// A line of a draft.
#[derive(Clone, Copy, Debug, PartialEq, Eq)]
pub enum Line {
    /// An instruction that is no jump.
    Plain(Ins),
    /// A conditional jump with its k, and the labels where the test holds and where it doesn't.
    Jumps(Test, Operand, u32, Label, Label),
    /// A jump to a label.
    Goes(Label),
}
