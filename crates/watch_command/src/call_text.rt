// Calls and their answers as texts.

use crate::arguments::put_arguments;
use crate::form::{Seen, TextForm};
use message_view::View;
use std::alloc::{AllocError, Global};
use traffic::time_text;
use value_text::TextError;

/// How many bytes of an argument are shown.
const ARGUMENT_LEN: usize = 60;

/// What stands in the place of who isn't named.
const NOBODY: &str = "-";

/// A call as texts: the callee and the method, and its line up to the answer.
#[derive(Drop)]
pub(crate) struct CallText {
    pub(crate) method: String,
    pub(crate) line: Vec<u8>,
}

impl TextForm {
    /// A call as texts.
    pub(crate) fn call(
        &self,
        alloc: Global,
        seen: &Seen<'_, '_, '_>,
    ) -> Result<CallText, TextError> {
        let caller = self.name_at(alloc, seen, seen.view.sender())?;
        let callee = self.name_at(alloc, seen, seen.view.destination())?;
        let mut line = self.line_start(alloc, seen.time)?;
        put_all(&mut line, &[caller.as_str(), " -> ", callee.as_str(), " "])?;
        put_method(&mut line, seen.view)?;
        line.extend_from_slice(b" (")?;
        put_arguments(alloc, &mut line, seen.view, b", ", self.argument_len())?;
        line.extend_from_slice(b") = ")?;
        Ok(CallText {
            method: counted_name(callee, seen.view)?,
            line,
        })
    }

    /// Adds an answer: the types of its values and these, or the error's name and its values.
    pub(crate) fn put_answer(
        &self,
        alloc: Global,
        line: &mut Vec<u8>,
        view: &View<'_>,
    ) -> Result<(), TextError> {
        let mut answer = Vec::new(alloc);
        match view.error_name() {
            Some(name) => put_all(&mut answer, &["error ", name])?,
            None => {
                answer.extend_from_slice(b"(")?;
                answer.extend_from_slice(view.signature())?;
                answer.extend_from_slice(b")")?;
            }
        }
        if !view.signature().is_empty() {
            answer.extend_from_slice(b" ")?;
        }
        put_arguments(alloc, &mut answer, view, b" ", self.argument_len())?;
        Ok(self.style.put_line(line, view.kind(), &answer)?)
    }

    /// How many bytes of an argument of a call are shown.
    fn argument_len(&self) -> usize {
        if self.is_full {
            usize::MAX
        } else {
            ARGUMENT_LEN
        }
    }

    /// The name of who is at an end of a message.
    fn name_at(
        &self,
        alloc: Global,
        seen: &Seen<'_, '_, '_>,
        end: Option<&str>,
    ) -> Result<String, AllocError> {
        match end {
            Some(name) if self.has_names => seen.owners.names_of(alloc, name),
            Some(name) => String::from_str(alloc, name),
            None => String::from_str(alloc, NOBODY),
        }
    }
}

/// Adds how long a call took, and the line's end.
pub(crate) fn end_line(alloc: Global, line: &mut Vec<u8>, time: u64) -> Result<(), AllocError> {
    let time = time_text(alloc, time)?;
    put_all(line, &[" <", time.as_str(), ">\n"])
}

/// Adds texts.
pub(crate) fn put_all(line: &mut Vec<u8>, texts: &[&str]) -> Result<(), AllocError> {
    for text in texts {
        line.extend_from_slice(text.as_bytes())?;
    }
    Ok(())
}

/// Adds the last element of a call's interface, and its member.
fn put_method(line: &mut Vec<u8>, view: &View<'_>) -> Result<(), AllocError> {
    if let Some(interface) = view.interface() {
        put_all(line, &[last_element(interface), "."])?;
    }
    put_all(line, &[view.member().unwrap_or(NOBODY)])
}

fn last_element(interface: &str) -> &str {
    match interface.rsplit_once(".") {
        Some((_, last)) => last,
        None => interface,
    }
}

/// The name by which a call is counted: the callee, and the method with its whole interface.
fn counted_name(callee: String, view: &View<'_>) -> Result<String, AllocError> {
    let mut name = callee;
    name.push_str(" ")?;
    put_member(&mut name, view)?;
    Ok(name)
}

/// Adds a message's interface, if it has one, and its member.
pub(crate) fn put_member(name: &mut String, view: &View<'_>) -> Result<(), AllocError> {
    if let Some(interface) = view.interface() {
        name.push_str(interface)?;
        name.push_str(".")?;
    }
    name.push_str(view.member().unwrap_or(NOBODY))
}
