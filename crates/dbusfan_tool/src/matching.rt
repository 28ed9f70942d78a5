// `match RULE FILE [--owns] [--each [--nearest N]] [--why]`.

ghost use Rattle.std.specs.Prelude.{◌≡◌, ◌⊎◌, ◌||◌, ℕ, List, IfOk, IfErr, is_some, option_map};
ghost use Rattle.command_line.specs.CommandRow.{to_match};
ghost use Rattle.command_line.specs.Files.{MadeReads};
ghost use Rattle.command_line.specs.Output.{PutsParts};
ghost use Rattle.match_rule.specs.RuleTree.{RuleTree};
ghost use Rattle.match_rule.specs.Grammar.{ReadsAs};
ghost use Rattle.dbusfan_tool.specs.Compiling.{IsRuleFault};
ghost use Rattle.dbusfan_tool.specs.Serving.{Serves};
ghost use Rattle.dbusfan_tool.specs.Judges.{by_rule};
ghost use Rattle.dbusfan_tool.specs.Tool.{Tool, front_of};
ghost use Rattle.dbusfan_tool.specs.Views.{SaysAfter};

use crate::answer::Answer;
use crate::compiling::program_of;
use crate::file_judging;
use crate::program_judge::ProgramJudge;
use command_line::{Fault, Files, Output, Writer};
use match_rule::Rule;
use std::alloc::Global;

/// Whether the rule matches the message in the file, or messages of the capture in it, or the first fault.
pub(crate) fn answer<F: Files, O: Writer>(
    alloc: Global,
    rule: &str,
    file: &str,
    owns: bool,
    each: bool,
    why: bool,
    nearest: Option<u64>,
    files: &mut F,
    out: &mut Output<O>,
) -> Answer
    ensures { (written : List ℕ) × PutsParts O.takes O.flushes O.may_fail out.old out.new written
        × SaysAfter (Tool (MadeReads F.gives files.old files.new) (to_match rule.now file.now owns each why nearest)) written result }
{
    let front = rule_front(why, nearest, each);
    match rule_judge(alloc, rule, owns, front, nearest) {
        Ok(program_judge) => { file_judging::answer(alloc, &program_judge, file, each, files, out) }
        Err(fault) => Answer::Fault(fault),
    }
}

/// What comes before each reason why the rule doesn't match, or each test of a filter: they follow one another on the line of a
/// capture's message, and of a message alone each has a line.
pub(crate) fn front_of(why: bool, each: bool) -> Option<&'static str>
    ensures { option_map (λ text. text.now) result ≡ front_of why each }
{
    match (why, each) {
        (false, _) => None,
        (true, true) => Some("; "),
        (true, false) => Some("\n"),
    }
}

/// What comes before each reason why a rule doesn't match. It is said of the nearest messages.
fn rule_front(why: bool, nearest: Option<u64>, each: bool) -> Option<&'static str>
    ensures { option_map (λ text. text.now) result ≡ front_of (why || is_some nearest) each }
{
    front_of(why || nearest.is_some(), each)
}

/// The judge of the rule that a text spells, or the first fault.
fn rule_judge(
    alloc: Global,
    rule: &str,
    owns: bool,
    front: Option<&'static str>,
    nearest: Option<u64>,
) -> Result<ProgramJudge, Fault>
    ensures found { IfOk result (λ program_judge. (tree : RuleTree) × ReadsAs rule.now tree × Serves (by_rule tree owns (option_map (λ text. text.now) front.entry) nearest) program_judge) }
    ensures fault { IfErr result (λ fault. IsRuleFault rule.now fault ⊎ (fault ≡ Fault.Memory)) }
{
    let rule = Rule::read(alloc, rule)?;
    let program = program_of(alloc, &rule)?;
    Ok(ProgramJudge::of_rule(program, rule, owns, front, nearest))
}
