// Reading an expression from token to token.

ghost use Rattle.std.specs.Prelude.{◌≡◌, Ok};
ghost use Rattle.filter.specs.Answers.{Reads, Gives};
ghost use Rattle.filter.specs.Filters.{tree_of};
ghost use Rattle.filter.specs.FilterTree.{test};
ghost use Rattle.filter.specs.Tokens.{lexeme_of};
ghost use Rattle.filter.specs.Readers.{nest_in, state_of};
ghost use Rattle.filter.specs.Steps.{start, with_test, word_step, test_step, operator_step, value_step, type_step, field_step, more_step, step, at_end};

use crate::error::{Fault, StepError};
use crate::filter::Filter;
use crate::has::{has_test, type_named};
use crate::nesting::Nesting;
use crate::opening::{Opening, Operand};
use crate::operator::Operator;
use crate::takes::test_of;
use crate::test::Test;
use crate::token::{Sign, Token};
use crate::value::Value;
use match_key::ArgNumber;
use std::alloc::Global;

/// What the next token has to be.
#[derive(Clone, Copy, Debug, PartialEq, Eq)]
pub(crate) enum Wanted {
    /// What begins a test.
    Test,
    Operator(Operand),
    Value(Operand, Operator),
    /// A type, after `is`.
    Type(ArgNumber),
    /// A field or an argument, after `has`.
    Field,
    /// `and`, `or`, `)` or the end.
    More,
}

/// What is wanted, and what was read.
#[derive(Drop)]
pub(crate) struct Reader {
    wanted: Wanted,
    nesting: Nesting,
}

/// After a test.
fn with_test(nesting: Nesting, alloc: Global, test: Test) -> Result<Reader, StepError>
    ensures { Gives state_of result (Ok (with_test (nest_in nesting) test)) }
{
    let nesting = nesting.with_one(alloc, Filter::Test(test))?;
    Ok(Reader {
        wanted: Wanted::More,
        nesting,
    })
}

/// After a word where a test is wanted.
fn word_step(nesting: Nesting, alloc: Global, word: &[u8]) -> Result<Reader, StepError>
    ensures { Gives state_of result (word_step (nest_in nesting) word.now) }
{
    if word == b"not".as_slice() {
        return Ok(Reader {
            wanted: Wanted::Test,
            nesting: nesting.with_not()?,
        });
    }
    if word == b"and".as_slice() || word == b"or".as_slice() {
        return Err(StepError::Fault(Fault::NoTest));
    }
    match Opening::of_word(word)? {
        Opening::Whole(test) => with_test(nesting, alloc, test),
        Opening::Has => Ok(Reader {
            wanted: Wanted::Field,
            nesting,
        }),
        Opening::Begins(operand) => Ok(Reader {
            wanted: Wanted::Operator(operand),
            nesting,
        }),
    }
}

/// After a token where a test is wanted.
fn test_step(nesting: Nesting, alloc: Global, token: Token<'_>) -> Result<Reader, StepError>
    ensures { Gives state_of result (test_step (nest_in nesting) (lexeme_of token.entry)) }
{
    match token {
        Token::Word(word) => word_step(nesting, alloc, word),
        Token::Sign(Sign::Opens) => Ok(Reader {
            wanted: Wanted::Test,
            nesting: nesting.with_open(alloc)?,
        }),
        _ => Err(StepError::Fault(Fault::NoTest)),
    }
}

/// After an operator, or what stands in its place.
fn operator_step(nesting: Nesting, operand: Operand, token: Token<'_>) -> Result<Reader, Fault>
    ensures { Reads state_of result (operator_step (nest_in nesting) operand (lexeme_of token.entry)) }
{
    let operator = Operator::of_token(token).ok_or(Fault::BadOperator)?;
    if !operator.is_of(operand) {
        return Err(Fault::BadOperator);
    }
    let wanted = match (operand, operator) {
        (Operand::Arg(n), Operator::Is) => Wanted::Type(n),
        _ => Wanted::Value(operand, operator),
    };
    Ok(Reader { wanted, nesting })
}

/// After a value.
fn value_step(
    nesting: Nesting,
    alloc: Global,
    operand: Operand,
    operator: Operator,
    token: Token<'_>,
) -> Result<Reader, StepError>
    ensures { Gives state_of result (value_step (nest_in nesting) operand operator (lexeme_of token.entry)) }
{
    let value = Value::of_token(alloc, token)?;
    let test = test_of(operand, operator, value).ok_or(Fault::BadValue)?;
    with_test(nesting, alloc, test)
}

/// After a type.
fn type_step(
    nesting: Nesting,
    alloc: Global,
    n: ArgNumber,
    token: Token<'_>,
) -> Result<Reader, StepError>
    ensures { Gives state_of result (type_step (nest_in nesting) n (lexeme_of token.entry)) }
{
    let Token::Word(word) = token else {
        return Err(StepError::Fault(Fault::BadType));
    };
    let arg_type = type_named(word).ok_or(Fault::BadType)?;
    with_test(nesting, alloc, Test::IsType(n, arg_type))
}

/// After a field or an argument.
fn field_step(nesting: Nesting, alloc: Global, token: Token<'_>) -> Result<Reader, StepError>
    ensures { Gives state_of result (field_step (nest_in nesting) (lexeme_of token.entry)) }
{
    let Token::Word(word) = token else {
        return Err(StepError::Fault(Fault::BadField));
    };
    let test = has_test(word)?;
    with_test(nesting, alloc, test)
}

/// After `and`, `or` or `)`.
fn more_step(nesting: Nesting, alloc: Global, token: Token<'_>) -> Result<Reader, StepError>
    ensures { Gives state_of result (more_step (nest_in nesting) (lexeme_of token.entry)) }
{
    match token {
        Token::Word(word) if word == b"and".as_slice() => Ok(Reader {
            wanted: Wanted::Test,
            nesting,
        }),
        Token::Word(word) if word == b"or".as_slice() => Ok(Reader {
            wanted: Wanted::Test,
            nesting: nesting.with_or(alloc)?,
        }),
        Token::Sign(Sign::Closes) => Ok(Reader {
            wanted: Wanted::More,
            nesting: nesting.with_close(alloc)?,
        }),
        _ => Err(StepError::Fault(Fault::NoConnective)),
    }
}

impl Reader {
    pub(crate) fn new(alloc: Global) -> Reader
        ensures { state_of result ≡ start }
    {
        Reader {
            wanted: Wanted::Test,
            nesting: Nesting::new(alloc),
        }
    }

    /// After one more token.
    pub(crate) fn step(self, alloc: Global, token: Token<'_>) -> Result<Reader, StepError>
        ensures { Gives state_of result (step (state_of self) (lexeme_of token.entry)) }
    {
        let nesting = self.nesting;
        match self.wanted {
            Wanted::Test => test_step(nesting, alloc, token),
            Wanted::Operator(operand) => Ok(operator_step(nesting, operand, token)?),
            Wanted::Value(operand, operator) => {
                value_step(nesting, alloc, operand, operator, token)
            }
            Wanted::Type(n) => type_step(nesting, alloc, n, token),
            Wanted::Field => field_step(nesting, alloc, token),
            Wanted::More => more_step(nesting, alloc, token),
        }
    }

    /// The filter, at the end.
    pub(crate) fn finish(self) -> Result<Filter, StepError>
        ensures { Gives tree_of result (at_end (state_of self)) }
    {
        match self.wanted {
            Wanted::Test => Err(StepError::Fault(Fault::NoTest)),
            Wanted::Operator(_) => Err(StepError::Fault(Fault::BadOperator)),
            Wanted::Value(_, _) => Err(StepError::Fault(Fault::BadValue)),
            Wanted::Type(_) => Err(StepError::Fault(Fault::BadType)),
            Wanted::Field => Err(StepError::Fault(Fault::BadField)),
            Wanted::More => self.nesting.finish(),
        }
    }
}
