// The command line.

ghost use Rattle.std.specs.Prelude.{◌≡◌, ◌⊎◌, ℕ, List, []};
ghost use Rattle.command_line.specs.CommandRow.{Asked, IsRow, texts};
ghost use Rattle.dbusfan_tool.specs.Answer.{Tells, failing};
ghost use Rattle.dbusfan_tool.specs.Views.{said_by, SaysAfter};
ghost use Rattle.dbusfan_tool.specs.Tool.{Tool, Says};
ghost use Rattle.dbusfan_tool.specs.Usage.{SaysUsage};
ghost use Rattle.command_line.specs.Files.{MadeReads};
ghost use Rattle.command_line.specs.Output.{Puts, PutsParts, PutsAfterLines};

use crate::answer::Answer;
use crate::{assembling, checking, compiling, filters, help, matching, running};
use command_line::{CommandRow, Fault, Files, Output, Writer};
use std::alloc::Global;

/// Does what the words after the program's name ask for, and answers the status that the program ends
/// with: 0 or 1 for what was found, 2 for a text that is wrong, 3 for words that are no row of the
/// command line, 4 where a file can't be read or `out` can't be written, 5 for want of memory. The lines of a capture's
/// messages are written in parts, as they are found. Any other output is one text, which is formed before any of it is
/// written, and flushed after. Each file is read once: standard input would give other bytes the second time.
pub fn tool<'a, F: Files, O: Writer, E: Writer>(
    alloc: Global,
    words: &'a [&'a str],
    files: &mut F,
    out: &mut Output<O>,
    err: &mut Output<E>,
) -> u8
    ensures row { (asked : Asked) → IsRow asked (texts words.entry.now)
        → Says (Tool (MadeReads F.gives files.old files.new) asked)
        (λ said. Tells said (PutsAfterLines O.takes O.flushes O.may_fail out.old out.new)
        (Puts E.takes E.flushes E.may_fail err.old err.new) out.new.has_failed result) }
    ensures no_row { ((asked : Asked) → ¬ IsRow asked (texts words.entry.now))
        → Says (SaysUsage words.entry.now)
        (λ said. Tells said (PutsAfterLines O.takes O.flushes O.may_fail out.old out.new)
        (Puts E.takes E.flushes E.may_fail err.old err.new) out.new.has_failed result) }
    ensures unread { ((asked : Asked) → ¬ IsRow asked (texts words.entry.now)) → MadeReads F.gives files.old files.new [] }
{
    answer(alloc, words, files, out).tell(out, err)
}

fn answer<'a, F: Files, O: Writer>(
    alloc: Global,
    words: &'a [&'a str],
    files: &mut F,
    out: &mut Output<O>,
) -> Answer
    ensures row { (asked : Asked) → IsRow asked (texts words.entry.now) → (written : List ℕ) × PutsParts O.takes O.flushes O.may_fail out.old out.new written
        × SaysAfter (Tool (MadeReads F.gives files.old files.new) asked) written result }
    ensures no_row { ((asked : Asked) → ¬ IsRow asked (texts words.entry.now))
        → SaysUsage words.entry.now (said_by result) ⊎ (said_by result ≡ failing Fault.Memory) }
    ensures unread { ((asked : Asked) → ¬ IsRow asked (texts words.entry.now)) → files.new ≡ files.old }
    ensures unwritten { ((asked : Asked) → ¬ IsRow asked (texts words.entry.now)) → out.new ≡ out.old }
{
    match CommandRow::read(words) {
        Some(
            CommandRow::Match {
                rule,
                file,
                owns,
                each,
                why,
                nearest,
            },
        ) => matching::answer(alloc, rule, file, owns, each, why, nearest, files, out),
        Some(
            CommandRow::MatchFilter {
                filter,
                file,
                owns,
                each,
                why,
            },
        ) => filters::match_answer(alloc, filter, file, owns, each, why, files, out),
        Some(CommandRow::Asm { file }) => assembling::answer(alloc, file, files),
        Some(CommandRow::Check { file }) => checking::answer(alloc, file, files),
        Some(CommandRow::Compile { rule }) => compiling::answer(alloc, rule),
        Some(CommandRow::CompileFilter { filter }) => filters::compile_answer(alloc, filter),
        Some(
            CommandRow::Run {
                program,
                file,
                edition,
                each,
                trace,
            },
        ) => running::answer(alloc, program, file, edition, each, trace, files, out),
        None => help::answer(alloc, words),
    }
}
