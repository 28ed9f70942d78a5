// Help for all commands, and the version.

ghost use Rattle.std.specs.Prelude.{◌≡◌, true, IfOk, IfSome};
ghost use Rattle.usage.specs.Asking.{asks_for_text, is_request};

use crate::commands::{ArgumentHelp, COMMANDS, CommandHelp, Form};
use clap::error::ErrorKind;
use clap::{Arg, ArgAction, ArgMatches, Command, Error};
use std::alloc::{AllocError, Global};

/// Help or the version, if the words after the program's name ask for a text that there is. The commands are those of
/// all programs, so that any of them can say what the others do.
pub fn text_for<'a>(alloc: Global, words: &'a [&'a str]) -> Result<Option<String>, AllocError>
    ensures { IfOk result (λ text. IfSome text (λ _. asks_for_text words.entry.now ≡ true)) }
{
    if !asks_for_text(words) {
        return Ok(None);
    }
    let Err(error) = parse(alloc, words) else {
        return Ok(None);
    };
    match error.kind() {
        ErrorKind::DisplayHelp | ErrorKind::DisplayVersion => Ok(Some(error.to_string(alloc)?)),
        ErrorKind::OutOfMemory => Err(AllocError),
        _ => Ok(None),
    }
}

fn asks_for_text(words: &[&str]) -> bool
    ensures { result ≡ asks_for_text words.now }
{
    words.iter().any(|word| is_request(word))
}

fn is_request(word: &str) -> bool
    ensures { result ≡ is_request word.now }
{
    word == "--help" || word == "-h" || word == "help" || word == "--version" || word == "-V"
}

pub(crate) fn parse<'a>(alloc: Global, words: &'a [&'a str]) -> Result<ArgMatches<'a>, Error> {
    dbusfan(alloc, words)?.try_get_matches_from(words)
}

// The program as these words may call it: beside a filter no rule is wanted.
fn dbusfan<'a>(alloc: Global, words: &[&str]) -> Result<Command<'a>, AllocError> {
    let has_filter = words.iter().any(|word| *word == "--filter");
    let mut program = program(alloc)?;
    for command in &COMMANDS {
        program = program.subcommand(subcommand(alloc, command, has_filter)?)?;
    }
    Ok(program)
}

fn program<'a>(alloc: Global) -> Result<Command<'a>, AllocError> {
    Command::new(alloc, "dbusfan")
        .version("0.1.0")
        .about("A D-Bus broadcast bus with BPF match programs")
        .after_help("`-` as FILE is standard input. A RULE that begins with `-` goes after `--`.")
        .no_binary_name(true)
        .subcommand_required(true)
        .propagate_version(true)
        .bin_name("dbusfan")
}

fn subcommand<'a>(
    alloc: Global,
    help: &CommandHelp,
    has_filter: bool,
) -> Result<Command<'a>, AllocError> {
    let mut command = Command::new(alloc, help.name).about(help.about);
    for argument in help.arguments {
        if !has_filter || !argument.yields_to_filter() {
            command = command.arg(arg(alloc, argument))?;
        }
    }
    Ok(command)
}

fn arg<'a>(alloc: Global, help: &ArgumentHelp) -> Arg<'a> {
    let arg = Arg::new(alloc, help.name)
        .required(help.is_required)
        .help(help.text);
    match help.form {
        Form::Word => arg,
        Form::Words => arg.action(ArgAction::Append),
        Form::Flag => arg.long(help.name).action(ArgAction::SetTrue),
        Form::Value(value) => arg.long(help.name).value_name(value.name()),
    }
}
