// The rows of the command line.

use crate::gathered::Gathered;
use summary::Edition;

/// What a command line asks for.
#[derive(Clone, Copy)]
pub enum CommandRow<'a> {
    /// `match RULE FILE [--owns] [--each [--nearest N]] [--why]`: does the rule match the message in the file, or which
    /// messages of the capture in it? And why not, or which are nearest to it?
    Match {
        rule: &'a str,
        file: &'a str,
        owns: bool,
        each: bool,
        why: bool,
        nearest: Option<u64>,
    },
    /// `match --filter EXPR FILE [--owns] [--each] [--why]`: does the filter hold of the message in the file, or of which
    /// messages of the capture in it? And which of its tests do?
    MatchFilter {
        filter: &'a str,
        file: &'a str,
        owns: bool,
        each: bool,
        why: bool,
    },
    /// `asm FILE`: the byte form of the program in the file.
    Asm {
        file: &'a str,
    },
    /// `check FILE`: is the program in the file accepted?
    Check {
        file: &'a str,
    },
    /// `compile RULE`: the text of the rule's program.
    Compile {
        rule: &'a str,
    },
    /// `compile --filter EXPR`: the text of the filter's program.
    CompileFilter {
        filter: &'a str,
    },
    /// `run PROGRAM FILE [--edition 1|2] [--each] [--trace]`: what does the program say of the message in the file, or of
    /// each message of the capture in it? And by which steps?
    Run {
        program: &'a str,
        file: &'a str,
        edition: Edition,
        each: bool,
        trace: bool,
    },
}

impl<'a> CommandRow<'a> {
    ghost use Rattle.std.specs.Prelude.{◌≡◌, IfSome, Some};
    ghost use Rattle.std.specs.Option.{option_map};
    ghost use Rattle.command_line.specs.CommandRow.{Asked, IsRow, texts};
    ghost use Rattle.command_line.specs.Views.{asked_by, gathering_of};
    ghost use Rattle.command_line.specs.RowReading.{asked_in, asked_of};

    /// The row that some words are, if they are one.
    pub fn read(words: &[&'a str]) -> Option<CommandRow<'a>>
        ensures found { IfSome result (λ row. IsRow (asked_by row) (texts words.now)) }
        ensures only { (asked : Asked) → IsRow asked (texts words.now) → option_map asked_by result ≡ Some asked }
    {
        CommandRow::from_left(words)
    }

    fn from_left(words: &[&'a str]) -> Option<CommandRow<'a>>
        ensures { option_map asked_by result ≡ asked_in (texts words.now) }
    {
        let (command, words) = words.split_first()?;
        let gathered = Gathered::read(words)?;
        CommandRow::of_command(command, gathered)
    }

    /// What a command and the words gathered after it ask for.
    fn of_command(command: &str, gathered: Gathered<'a>) -> Option<CommandRow<'a>>
        ensures { option_map asked_by result ≡ asked_of command.now (gathering_of gathered.entry) }
    {
        match command {
            "match" => gathered.to_match(),
            "asm" => Some(CommandRow::Asm {
                file: gathered.only_word()?,
            }),
            "check" => Some(CommandRow::Check {
                file: gathered.only_word()?,
            }),
            "compile" => gathered.to_compile(),
            "run" => gathered.to_run(),
            _ => None,
        }
    }
}
