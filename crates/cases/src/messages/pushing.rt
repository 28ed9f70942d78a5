// Pieces of an answer. Each stands in a function of its own: what writes it is then proved once.

use std::alloc::AllocError;
use std::fmt::Write;

/// Adds a blank and a number.
pub(crate) fn push_number(words: &mut String, number: u32) -> Result<(), AllocError> {
    write!(words, " {number}")
}

/// Adds a blank and a text between apostrophes.
pub(crate) fn push_quoted(words: &mut String, text: &str) -> Result<(), AllocError> {
    write!(words, " '{text}'")
}
