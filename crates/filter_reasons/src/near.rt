// The tests of a filter that make it hold if they alone come out the other way.

ghost use Rattle.std.specs.Prelude.{◌≡◌, IfOk, drop, length, map};
ghost use Rattle.message_view.specs.Message.{Message};
ghost use Rattle.message_view.specs.Valid.{Valid};
ghost use Rattle.filter.specs.FilterTree.{list_of};
ghost use Rattle.filter.specs.Filters.{tree_of};
ghost use Rattle.filter_reasons.specs.TestsOf.{tests_of, tests_in};
ghost use Rattle.filter_reasons.specs.Turned.{AreNear};
ghost use Rattle.filter_reasons.specs.Lent.{trees};
ghost use Rattle.filter_reasons.specs.Answered.{AreAnswers, first_value, value_by, each_is};

use crate::holding::holds;
use crate::tests::tests_of;
use filter::Filter;
use filter_compile::CompileError;
use message_view::View;
use std::alloc::Global;

/// Whether a test holds, and the test's place among those of its filter.
#[derive(Clone, Copy, Debug, PartialEq, Eq)]
struct Answer {
    place: usize,
    holds: bool,
}

/// The tests that make a filter hold of a message if they alone come out the other way, in the order of the filter's text.
/// There is none if the filter holds. `owns` says whether the message's sender owns each name that the filter asks for.
///
/// # Errors
///
/// Memory was refused, or the filter is too heavy to be compiled.
pub fn near_tests<'a>(
    alloc: Global,
    filter: &'a Filter,
    view: &View<'_>,
    owns: bool,
) -> Result<Vec<&'a Filter>, CompileError>
    ensures { IfOk result (λ near. (m : Message) → Valid view.now m → AreNear (tree_of filter.entry.now) m (λ name. owns) (trees near.items)) }
{
    let mut near = Vec::new(alloc);
    if holds(alloc, filter, view, owns)? {
        return Ok(near);
    }
    let tests = tests_of(alloc, filter)?;
    let answers = answers_of(alloc, &tests, view, owns)?;
    for place in 0..tests.len() {
        let test = tests[place];
        let (value, _) = value(filter, &answers, place);
        if value {
            near.push(test)?;
        }
    }
    Ok(near)
}

/// The answers of some tests.
fn answers_of(
    alloc: Global,
    tests: &[&Filter],
    view: &View<'_>,
    owns: bool,
) -> Result<Vec<Answer>, CompileError>
    ensures { IfOk result (λ answers. (m : Message) → Valid view.now m → AreAnswers m (λ name. owns) 0 (trees tests.now) answers.items) }
{
    let mut answers = Vec::new(alloc);
    for place in 0..tests.len() {
        let holds = holds(alloc, tests[place], view, owns)?;
        answers.push(Answer { place, holds })?;
    }
    Ok(answers)
}

/// What a filter comes to by the answers of its tests, with the one at a place turned; and the answers after these.
#[cycle(value)]
fn value<'a>(filter: &Filter, answers: &'a [Answer], place: usize) -> (bool, &'a [Answer])
    ensures value { result.0 ≡ value_by place answers.entry.now (tree_of filter.now) }
    ensures rest { result.1.now ≡ drop (length (tests_of (tree_of filter.now))) answers.entry.now }
{
    match filter {
        Filter::Test(_) => first_value(answers, place),
        Filter::All(filters) => each_is(true, filters.as_slice(), answers, place),
        Filter::Any(filters) => {
            let (each_fails, rest) = each_is(false, filters.as_slice(), answers, place);
            (!each_fails, rest)
        }
        Filter::Not(filter) => {
            let (value, rest) = value(filter, answers, place);
            (!value, rest)
        }
    }
}

/// Whether each of some filters comes to what is wanted; and the answers after theirs.
#[cycle(value)]
fn each_is<'a>(
    wanted: bool,
    filters: &[Filter],
    answers: &'a [Answer],
    place: usize,
) -> (bool, &'a [Answer])
    ensures value { result.0 ≡ each_is wanted place answers.entry.now (list_of (map tree_of filters.now)) }
    ensures rest { result.1.now ≡ drop (length (tests_in (list_of (map tree_of filters.now)))) answers.entry.now }
{
    let mut each = true;
    let mut rest = answers;
    for filter in filters {
        let (value, after) = value(filter, rest, place);
        each = each && value == wanted;
        rest = after;
    }
    (each, rest)
}

/// The first answer, turned if it is the one at a place; and the answers after it.
fn first_value<'a>(answers: &'a [Answer], place: usize) -> (bool, &'a [Answer])
    ensures value { result.0 ≡ first_value place answers.entry.now }
    ensures rest { result.1.now ≡ drop 1 answers.entry.now }
{
    match answers.split_first() {
        Some((first, rest)) => (first.holds != (first.place == place), rest),
        None => (false, answers),
    }
}
