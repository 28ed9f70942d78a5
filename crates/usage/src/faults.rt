// What is wrong with words that no command takes.

use crate::commands::{COMMANDS, Form, Value};
use crate::help::parse;
use clap::error::ErrorKind;
use std::alloc::{AllocError, Global};

/// What is wrong with the words after the program's name, in a line for people, and where help is. `None` where nothing is, as
/// far as the commands' arguments go.
pub fn fault_of<'a>(alloc: Global, words: &'a [&'a str]) -> Result<Option<String>, AllocError> {
    let Err(error) = parse(alloc, words) else {
        return value_fault(alloc, words);
    };
    match error.kind() {
        ErrorKind::DisplayHelp | ErrorKind::DisplayVersion => Ok(None),
        ErrorKind::OutOfMemory => Err(AllocError),
        _ => {
            let text = error.to_string(alloc)?;
            let mut line = first_part(alloc, text.as_str())?;
            push_pointer(&mut line, words)?;
            Ok(Some(line))
        }
    }
}

// The lines up to the first empty one, as one line, without the word that says that it is an error.
fn first_part(alloc: Global, text: &str) -> Result<String, AllocError> {
    let mut line = String::new(alloc);
    let text = text.strip_prefix("error: ").unwrap_or(text);
    for part in text.lines() {
        let part = part.trim();
        if part.is_empty() {
            return Ok(line);
        }
        if !line.is_empty() {
            line.push_str(" ")?;
        }
        line.push_str(part)?;
    }
    Ok(line)
}

// Where help is: that of the command, if the first word is one.
fn push_pointer(line: &mut String, words: &[&str]) -> Result<(), AllocError> {
    line.push_str("; see dbusfan ")?;
    if let Some(command) = COMMANDS.iter().find(|command| words
        .first()
        .is_some_and(|word| *word == command.name))
    {
        line.push_str(command.name)?;
        line.push_str(" ")?;
    }
    line.push_str("--help")
}

// What its value is, if a word is an option of some command that takes one.
fn value_of(word: &str) -> Option<Value> {
    let name = word.strip_prefix("--")?;
    for command in &COMMANDS {
        for argument in command.arguments {
            if let Form::Value(value) = argument.form {
                if argument.name == name {
                    return Some(value);
                }
            }
        }
    }
    None
}

// What is wrong with the first value that is none.
fn value_fault(alloc: Global, words: &[&str]) -> Result<Option<String>, AllocError> {
    let mut option: Option<(&str, Value)> = None;
    for word in words {
        if let Some((name, value)) = option {
            if let Some(wanted) = value.wanted_for(word) {
                let mut line = format!(in alloc; "{name} {word}: {wanted} is wanted")?;
                push_pointer(&mut line, words)?;
                return Ok(Some(line));
            }
            option = None;
        } else if *word == "--" {
            return Ok(None);
        } else {
            option = value_of(word).map(|value| (*word, value));
        }
    }
    Ok(None)
}

/// The words with each `--option=value` before `--` as two words, where the option takes a value.
pub fn spread<'a>(alloc: Global, words: &[&'a str]) -> Result<Vec<&'a str>, AllocError> {
    let mut spread = Vec::new(alloc);
    let mut may_be_option = true;
    for word in words {
        if *word == "--" {
            may_be_option = false;
        }
        match word.split_once('=') {
            Some((option, value)) if may_be_option && value_of(option).is_some() => {
                spread.push(option)?;
                spread.push(value)?;
            }
            _ => spread.push(*word)?,
        }
    }
    Ok(spread)
}
