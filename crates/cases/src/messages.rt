// Cases of names, signatures and messages: how these are read, built, stamped, summarised and written as lines.

mod asked;
mod built;
mod composing;
mod frames;
mod headers;
mod lending;
mod lines;
mod loads;
mod names;
mod pushing;
mod spelling;
mod stamped;
mod words;

use built::Built;
use case_files::Tally;
use frames::{Frames, Fronts};
use headers::{HeaderFields, Messages};
use lending::{Bodies, Lent};
use lines::{JsonLines, Lines};
use loads::Loads;
use names::{Names, Signatures};
use stamped::Stamped;
use std::alloc::Global;
use std::rt::Runtime;
use words::Words;

/// Judges each file by its table's judge.
pub(crate) fn judge<R: Runtime<A = Global>>(rt: &R, tally: &mut Tally) {
    tally.judge(rt, "messages/names.cases", &Names);
    tally.judge(rt, "messages/signatures.cases", &Signatures);
    tally.judge(rt, "messages/messages.cases", &Messages);
    tally.judge(rt, "messages/outside.cases", &Messages);
    tally.judge(rt, "messages/header_fields.cases", &HeaderFields);
    tally.judge(rt, "messages/frames.cases", &Frames);
    tally.judge(rt, "messages/fronts.cases", &Fronts);
    tally.judge(rt, "messages/lent.cases", &Lent);
    tally.judge(rt, "messages/bodies.cases", &Bodies);
    tally.judge(rt, "messages/built.cases", &Built);
    tally.judge(rt, "messages/stamped.cases", &Stamped);
    tally.judge(rt, "messages/words.cases", &Words);
    tally.judge(rt, "messages/loads.cases", &Loads);
    for file in [
        "messages/signals.cases",
        "messages/big_endian.cases",
        "messages/kinds.cases",
    ] {
        tally.judge(rt, file, &Lines);
    }
    tally.judge(rt, "messages/json.cases", &JsonLines);
}
