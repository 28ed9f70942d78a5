// Cases of match rules and programs.

mod facts;
mod image;
mod matches;
mod program;
mod question;
mod refusal;
mod texts;
mod verdict;

use case_files::Tally;
use facts::Facts;
use matches::Matches;
use question::Programs;
use std::alloc::Global;
use std::rt::Runtime;
use texts::{Pairs, Texts};

/// Judges each file by its table's judge.
pub(crate) fn judge<R: Runtime<A = Global>>(rt: &R, tally: &mut Tally) {
    tally.judge(rt, "rules/texts.cases", &Texts);
    tally.judge(rt, "rules/pairs.cases", &Pairs);
    tally.judge(rt, "rules/facts.cases", &Facts);
    for file in [
        "rules/matches.cases",
        "rules/grid.cases",
        "rules/outside.cases",
    ] {
        tally.judge(rt, file, &Matches);
    }
    for file in [
        "rules/assembler.cases",
        "rules/printed.cases",
        "rules/verdicts.cases",
        "rules/runs.cases",
    ] {
        tally.judge(rt, file, &Programs);
    }
}
