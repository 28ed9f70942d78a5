// Cases of filter expressions.

mod expressions;
mod outside;
mod printed;

use case_files::Tally;
use expressions::Expressions;
use outside::Outside;
use printed::Printed;
use std::alloc::Global;
use std::rt::Runtime;

/// Judges each file by its table's judge.
pub(crate) fn judge<R: Runtime<A = Global>>(rt: &R, tally: &mut Tally) {
    tally.judge(rt, "filters/expressions.cases", &Expressions);
    tally.judge(rt, "filters/outside.cases", &Outside);
    tally.judge(rt, "filters/printed.cases", &Printed);
}
