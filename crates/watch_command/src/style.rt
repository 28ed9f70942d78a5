// Colours of lines on a terminal.

ghost use Rattle.std.specs.Prelude.{◌≡◌, ◌≤◌, ◌++◌, length, option_map, OnOk};
ghost use Rattle.watch_command.specs.Colours.{is_set, is_dumb, is_of_word, word_len, with_rendition};

use message_view::Kind;
use std::alloc::{AllocError, Global};
use std::env;
use std::env::VarError;
use std::rt::Env;

/// What standard output is.
#[derive(Clone, Copy)]
pub enum Device {
    Terminal,
    Other,
}

/// How lines look.
#[derive(Clone, Copy, Debug, PartialEq, Eq)]
pub enum Style {
    /// The kind of a message has a colour, and the time is faint.
    Coloured,
    Plain,
}

/// How a terminal shows text (ECMA-48, 8.3.117).
#[derive(Clone, Copy)]
enum Rendition {
    Default,
    Faint,
    Red,
    Green,
    Blue,
    Cyan,
}

impl Rendition {
    ghost use Rattle.std.specs.Prelude.{◌≡◌};
    ghost use Rattle.watch_command.specs.Colours.{sequence, colour_of};

    /// The colour of a kind of message. Kinds of which the standard says nothing have none.
    fn of_kind(kind: Kind) -> Option<Rendition>
        ensures { result ≡ colour_of kind }
    {
        match kind {
            Kind::MethodCall => Some(Rendition::Blue),
            Kind::MethodReturn => Some(Rendition::Green),
            Kind::Error => Some(Rendition::Red),
            Kind::Signal => Some(Rendition::Cyan),
            Kind::Other(_) => None,
        }
    }

    /// The control sequence after which text is shown so.
    fn sequence(self) -> &'static [u8]
        ensures { result.now ≡ sequence self }
    {
        match self {
            Rendition::Default => b"\x1b[0m",
            Rendition::Faint => b"\x1b[2m",
            Rendition::Red => b"\x1b[31m",
            Rendition::Green => b"\x1b[32m",
            Rendition::Blue => b"\x1b[34m",
            Rendition::Cyan => b"\x1b[36m",
        }
    }
}

impl Style {
    ghost use Rattle.std.specs.Prelude.{◌≡◌, ◌++◌, option_map, OnOk};
    ghost use Rattle.watch_command.specs.Colours.{style_by, shown_line, shown_time};

    /// The style for standard output that the environment asks for: colours are for a terminal. A variable whose value is no
    /// text, or too long for the memory, asks for none.
    pub(crate) fn of<R: Env + AllocGlobal>(rt: &R, device: Device) -> Style
        ensures { device ≡ Device.Other → result ≡ Style.Plain }
    {
        match (variable(rt, "NO_COLOR"), variable(rt, "TERM")) {
            (Ok(no_color), Ok(term)) => Style::by(device, text_of(&no_color), text_of(&term)),
            _ => Style::Plain,
        }
    }

    /// The style by the variables NO_COLOR (no-color.org) and TERM: lines have colours on a terminal that isn't `dumb`, unless
    /// NO_COLOR has a value that isn't empty.
    pub fn by(device: Device, no_color: Option<&str>, term: Option<&str>) -> Style
        ensures { result ≡ style_by device (option_map (λ text. text.now) no_color.entry) (option_map (λ text. text.now) term.entry) }
    {
        match device {
            Device::Terminal if !is_set(no_color) && !is_dumb(term) => Style::Coloured,
            Device::Terminal | Device::Other => Style::Plain,
        }
    }

    /// Adds the line of a message of a kind. Its first word says the kind, and has that kind's colour.
    pub fn put_line(self, text: &mut Vec<u8>, kind: Kind, line: &[u8]) -> Result<(), AllocError>
        ensures { OnOk result (text.new.items ≡ text.old.items ++ shown_line self kind line.now) }
    {
        match (self, Rendition::of_kind(kind)) {
            (Style::Coloured, Some(colour)) => {
                let (word, rest) = line.split_at(word_len(line));
                put_rendered(text, colour, word)?;
                text.extend_from_slice(rest)
            }
            _ => text.extend_from_slice(line),
        }
    }

    /// Adds the time in front of a line.
    pub fn put_time(self, text: &mut Vec<u8>, time: &[u8]) -> Result<(), AllocError>
        ensures { OnOk result (text.new.items ≡ text.old.items ++ shown_time self time.now) }
    {
        match self {
            Style::Coloured => put_rendered(text, Rendition::Faint, time),
            Style::Plain => text.extend_from_slice(time),
        }
    }
}

/// How many columns a terminal has, where the environment doesn't say it.
const COLUMNS: usize = 80;

/// The columns of the terminal: those of the variable COLUMNS, if it is a number of two digits or more.
pub(crate) fn columns<R: Env + AllocGlobal>(rt: &R) -> usize {
    number_by(rt, "COLUMNS", 10).unwrap_or(COLUMNS)
}

/// The number of a variable, if it is one that isn't below the least.
pub(crate) fn number_by<R: Env + AllocGlobal>(rt: &R, name: &str, least: usize) -> Option<usize> {
    match variable(rt, name) {
        Ok(Some(text)) => match text.as_str().parse::<usize>() {
            Ok(number) if number >= least => Some(number),
            _ => None,
        },
        _ => None,
    }
}

/// Whether text can be drawn anew on standard output: it is a terminal that isn't `dumb`.
pub(crate) fn can_redraw<R: Env + AllocGlobal>(rt: &R, device: Device) -> bool {
    match (device, variable(rt, "TERM")) {
        (Device::Terminal, Ok(term)) => !is_dumb(text_of(&term)),
        _ => false,
    }
}

/// A variable's text, if it is there.
fn variable<R: Env + AllocGlobal>(rt: &R, name: &str) -> Result<Option<String>, VarError> {
    match env::var(rt, name) {
        Ok(text) => Ok(Some(text)),
        Err(VarError::NotPresent) => Ok(None),
        Err(error) => Err(error),
    }
}

fn text_of(variable: &Option<String>) -> Option<&str> {
    variable.as_ref().map(|text| text.as_str())
}

/// Whether a variable has a value that isn't empty.
fn is_set(variable: Option<&str>) -> bool
    ensures { result ≡ is_set (option_map (λ text. text.now) variable.entry) }
{
    match variable {
        Some(value) => !value.is_empty(),
        None => false,
    }
}

/// Whether TERM names a terminal that knows no control sequences.
fn is_dumb(term: Option<&str>) -> bool
    ensures { result ≡ is_dumb (option_map (λ text. text.now) term.entry) }
{
    match term {
        Some(name) => name == "dumb",
        None => false,
    }
}

/// Adds a text in a rendition.
fn put_rendered(text: &mut Vec<u8>, rendition: Rendition, shown: &[u8]) -> Result<(), AllocError>
    ensures { OnOk result (text.new.items ≡ text.old.items ++ with_rendition rendition shown.now) }
{
    text.extend_from_slice(rendition.sequence())?;
    text.extend_from_slice(shown)?;
    text.extend_from_slice(Rendition::Default.sequence())
}

/// How many bytes the first word of a line has.
fn word_len(line: &[u8]) -> usize
    ensures value { result ≡ word_len line.now }
    ensures within { result ≤ length line.now }
{
    for (len, byte) in line.iter().enumerate() {
        if *byte == b' ' {
            return len;
        }
    }
    line.len()
}
