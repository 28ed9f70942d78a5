// Words that are no row of the command line.

ghost use Rattle.std.specs.Prelude.{◌≡◌, ◌⊎◌};
ghost use Rattle.dbusfan_tool.specs.Answer.{failing};
ghost use Rattle.dbusfan_tool.specs.Views.{said_by};
ghost use Rattle.dbusfan_tool.specs.Usage.{SaysUsage};

use crate::answer::Answer;
use command_line::{Fault, text_for};
use std::alloc::Global;

/// Help or the version, if the words ask for it. Else the words are at fault.
pub(crate) fn answer<'a>(alloc: Global, words: &'a [&'a str]) -> Answer
    ensures { SaysUsage words.entry.now (said_by result) ⊎ (said_by result ≡ failing Fault.Memory) }
{
    match text_for(alloc, words) {
        Ok(Some(text)) => Answer::Text(text),
        Ok(None) => Answer::Fault(Fault::Usage),
        Err(_) => Answer::Fault(Fault::Memory),
    }
}
