// Reading the parts of a rule's text.

ghost use Rattle.std.specs.Prelude.{◌≡◌};
ghost use Rattle.match_rule.specs.declared.quoting.Quoting.TheVariants.{Outside};
ghost use Rattle.match_rule.specs.Reading.{Gives, key_at, part_at, value_from};
ghost use Rattle.match_rule.specs.Gathering.{terms_of, rule_of, tree_at};

use crate::parts::Parts;
use crate::quoting::{Quoting, Step};
use crate::term::{Term, term_with};
use crate::word::{after_blanks, begins_with_apostrophe, word_at};
use match_key::{Key, RuleError};
use std::alloc::Global;

/// A known key, and what follows its `=`.
#[tactic(auto, unfolding(crate::specs::Reading::key_at))]
fn key_at(bytes: &[u8]) -> Result<(Key, &[u8]), RuleError>
    ensures { Gives (λ x. (x.0, x.1.now)) result (key_at bytes.now) }
{
    let (word, rest) = word_at(bytes).ok_or(RuleError::UnknownKey)?;
    Ok((Key::of_word(word)?, rest))
}

/// A value up to its comma or the end, and what follows.
fn value_at(alloc: Global, bytes: &[u8]) -> Result<(Vec<u8>, &[u8]), RuleError>
    ensures { Gives (λ x. (x.0.items, x.1.now)) result (value_from Outside bytes.now) }
{
    let mut value = Vec::new(alloc);
    let mut quoting = Quoting::Outside;
    for (i, byte) in bytes.iter().enumerate() {
        match quoting.step(*byte, begins_with_apostrophe(&bytes[i + 1..])) {
            Step::End => return Ok((value, &bytes[i + 1..])),
            Step::Skip(next) => quoting = next,
            Step::Take(next) => {
                value.push(*byte)?;
                quoting = next;
            }
        }
    }
    match quoting {
        Quoting::Inside => Err(RuleError::Unquoted),
        Quoting::Outside | Quoting::Escaped => Ok((value, &[])),
    }
}

/// A part after those in front, and what follows it and its comma.
#[tactic(auto, unfolding(crate::specs::Reading::part_at))]
fn part_at<'a>(alloc: Global, front: &Parts, bytes: &'a [u8]) -> Result<(Term, &'a [u8]), RuleError>
    ensures { Gives (λ x. (x.0, x.1.now)) result (part_at (terms_of front.now.conditions.items front.now.eavesdrop) bytes.now) }
{
    let (key, rest) = key_at(bytes)?;
    let own = front.own_key(key)?;
    let (value, rest) = value_at(alloc, rest)?;
    let term = term_with(own, value)?;
    Ok((term, rest))
}

/// The parts of a text that isn't too long.
pub(crate) fn parts_at(alloc: Global, text: &[u8]) -> Result<Parts, RuleError>
    ensures { Gives rule_of result (tree_at text.now) }
{
    let mut parts = Parts::new(alloc);
    let mut rest = after_blanks(text);
    while !rest.is_empty() {
        let (term, tail) = part_at(alloc, &parts, rest)?;
        parts.add(term)?;
        rest = after_blanks(tail);
    }
    Ok(parts)
}
