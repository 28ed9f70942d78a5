// How a message is a line.

use crate::arguments::fit_arguments;
use crate::owners::Owners;
use crate::stamp::Stamp;
use crate::style::Style;
use message_view::View;
use std::alloc::{AllocError, Global};
use value_text::{Ends, TextError, hex_line, json_line, line_between, message_line};

/// A message that was seen, at a time in nanoseconds since 1970, and who owned which names then.
#[derive(Clone, Copy)]
pub(crate) struct Seen<'v, 'm, 'o> {
    pub(crate) view: &'v View<'m>,
    pub(crate) time: u64,
    pub(crate) owners: &'o Owners,
}

/// How a message is a line.
#[derive(Drop)]
pub(crate) enum Form {
    /// What a person reads.
    Text(TextForm),
    Hex,
    Json,
}

/// How a message is a line that a person reads.
#[derive(Drop)]
pub(crate) struct TextForm {
    /// What stands before it.
    pub(crate) stamp: Stamp,
    /// Whether a connection has the names that it owns.
    pub(crate) has_names: bool,
    pub(crate) style: Style,
    /// How many bytes of an argument are shown, if not all.
    pub(crate) width: Option<usize>,
    /// Whether the arguments of calls are shown whole.
    pub(crate) is_full: bool,
}

/// Nanoseconds of a microsecond.
const MICROSECOND: u64 = 1_000;

impl Form {
    /// The line of a message.
    pub(crate) fn line(
        &self,
        alloc: Global,
        seen: &Seen<'_, '_, '_>,
    ) -> Result<Vec<u8>, TextError> {
        match self {
            Form::Hex => Ok(hex_line(alloc, seen.view)?),
            Form::Json => json_line(alloc, seen.view, seen.time / MICROSECOND),
            Form::Text(form) => form.line(alloc, seen),
        }
    }
}

impl TextForm {
    fn line(&self, alloc: Global, seen: &Seen<'_, '_, '_>) -> Result<Vec<u8>, TextError> {
        let mut line = self.line_start(alloc, seen.time)?;
        let mut text = text_line(alloc, seen, self.has_names)?;
        if let Some(width) = self.width {
            fit_arguments(alloc, &mut text, seen.view, width)?;
        }
        self.style.put_line(&mut line, seen.view.kind(), &text)?;
        Ok(line)
    }

    /// What stands before the line of a message that came at a time.
    pub(crate) fn line_start(&self, alloc: Global, time: u64) -> Result<Vec<u8>, AllocError> {
        let mut line = Vec::new(alloc);
        let stamp = self.stamp.text(alloc, time)?;
        if !stamp.is_empty() {
            self.style.put_time(&mut line, &stamp)?;
        }
        Ok(line)
    }
}

/// The line that a person reads.
fn text_line(
    alloc: Global,
    seen: &Seen<'_, '_, '_>,
    has_names: bool,
) -> Result<Vec<u8>, TextError> {
    if !has_names {
        return message_line(alloc, seen.view);
    }
    let sender = names_at(alloc, seen.owners, seen.view.sender())?;
    let destination = names_at(alloc, seen.owners, seen.view.destination())?;
    let ends = Ends {
        sender: sender.as_ref().map(|text| text.as_str()),
        destination: destination.as_ref().map(|text| text.as_str()),
    };
    line_between(alloc, seen.view, ends)
}

/// The names of who is at an end of a message, if anybody is.
fn names_at(
    alloc: Global,
    owners: &Owners,
    end: Option<&str>,
) -> Result<Option<String>, AllocError> {
    match end {
        Some(end) => Ok(Some(owners.names_of(alloc, end)?)),
        None => Ok(None),
    }
}
