// Reading expressions.

ghost use Rattle.std.specs.Prelude.{◌≡◌, ◌≤◌, ◌<◌, ◌+◌, drop, length, slice_index, Ok, IfOk};
ghost use Rattle.filter.specs.FilterTree.{FilterTree};
ghost use Rattle.filter.specs.Filters.{tree_of};
ghost use Rattle.filter.specs.Grammar.{ReadsAs};
ghost use Rattle.filter.specs.Readers.{state_of};
ghost use Rattle.filter.specs.Reading.{Finds, at_place, reads, max_len, items_of, filter_at};
ghost use Rattle.filter.specs.Steps.{start, at_end, step};
ghost use Rattle.filter.specs.Tokens.{lexeme_of};
ghost use Rattle.filter.specs.Turns.{error_at, turn};

use crate::error::{Fault, FaultAt, FilterError, StepError};
use crate::filter::Filter;
use crate::lexis::is_blank;
use crate::reader::Reader;
use crate::token::{Token, token_at};
use std::alloc::Global;

/// The most bytes of an expression.
const MAX_LEN: usize = 4096;

/// An error at a place.
fn error_at(place: usize, error: StepError) -> FilterError
    ensures { result ≡ error_at place error }
{
    match error {
        StepError::Fault(fault) => FilterError::Fault(FaultAt { fault, place }),
        StepError::NoMemory => FilterError::NoMemory,
    }
}

/// A reader after the token at a place.
fn step(
    reader: Reader,
    alloc: Global,
    token: Token<'_>,
    place: usize,
) -> Result<Reader, FilterError>
    ensures { Finds state_of result (at_place place (step (state_of reader) (lexeme_of token.entry))) }
{
    match reader.step(alloc, token) {
        Ok(reader) => Ok(reader),
        Err(error) => Err(error_at(place, error)),
    }
}

/// The filter that a reader has at the end, whose place is known.
fn finish(reader: Reader, place: usize) -> Result<Filter, FilterError>
    ensures { Finds tree_of result (at_place place (at_end (state_of reader))) }
{
    match reader.finish() {
        Ok(filter) => Ok(filter),
        Err(error) => Err(error_at(place, error)),
    }
}

/// A reader after a blank or the token at a place, and the place after that.
fn turn(
    reader: Reader,
    alloc: Global,
    text: &[u8],
    place: usize,
) -> Result<(Reader, usize), FilterError>
    requires inside { place < length text.now }
    requires short { length text.now ≤ max_len }
    ensures value { Finds (λ x. (state_of x.0, x.1)) result (turn (state_of reader) place (slice_index text.now place) (drop (place + 1) text.now)) }
    ensures farther { IfOk result (λ x. place < x.1) }
    ensures within { IfOk result (λ x. x.1 ≤ length text.now) }
{
    if is_blank(text[place]) {
        return Ok((reader, place + 1));
    }
    match token_at(text, place) {
        Ok((token, more)) => {
            let reader = step(reader, alloc, token, place)?;
            Ok((reader, place + 1 + more))
        }
        Err(fault) => Err(FilterError::Fault(fault)),
    }
}

/// The filter of a text that isn't too long.
fn read_bytes(alloc: Global, text: &[u8]) -> Result<Filter, FilterError>
    requires { length text.now ≤ max_len }
    ensures { Finds tree_of result (reads start (length text.now) (items_of text.now)) }
{
    let mut reader = Reader::new(alloc);
    let mut place = 0;
    while place < text.len() {
        let (next, after) = turn(reader, alloc, text, place)?;
        reader = next;
        place = after;
    }
    finish(reader, place)
}

/// The filter of a text.
fn read_text(alloc: Global, text: &str) -> Result<Filter, FilterError>
    ensures { Finds tree_of result (filter_at text.now) }
{
    if text.len() > MAX_LEN {
        return Err(FilterError::Fault(FaultAt {
            fault: Fault::TooLong,
            place: MAX_LEN,
        }));
    }
    read_bytes(alloc, text.as_bytes())
}

impl Filter {
    /// Reads an expression.
    pub fn read(alloc: Global, text: &str) -> Result<Filter, FilterError>
        // What is read is in the grammar.
        ensures found { IfOk result (λ filter. ReadsAs text.now (tree_of filter)) }
        // What is in the grammar is read, unless memory runs out.
        ensures only { (filter : FilterTree) → ReadsAs text.now filter → Finds tree_of result (Ok filter) }
        // Which fault it is, and where.
        ensures exact { Finds tree_of result (filter_at text.now) }
    {
        read_text(alloc, text)
    }
}
