ghost use Rattle.std.specs.Prelude.{◌≤◌, vec_len};

use crate::named_labels::Labels;
use crate::row::LabelIns;

/// What a line has beside its labels: whether one of them is defined a second time, and its instruction.
#[derive(Clone, Copy)]
pub(crate) struct Noted<'a> {
    pub(crate) again: bool,
    pub(crate) row: Option<LabelIns<'a>>,
}

/// Lines so far: their labels, what they have beside, and the number of their instructions.
#[derive(Drop)]
pub(crate) struct Draft<'a> {
    pub(crate) labels: Labels<'a>,
    pub(crate) lines: Vec<Noted<'a>>,
    pub(crate) count: usize,
    ghost few: { count ≤ vec_len lines },
}
