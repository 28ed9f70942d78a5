// Operators, and the relations that operands have.

ghost use Rattle.std.specs.Prelude.{◌≡◌};
ghost use Rattle.std.specs.Option.{option_map};
ghost use Rattle.filter.specs.Operators.{operator_of_sign, operator_of_word, operator_of, equality_of, text_relation_of, number_relation_of, has_operator};
ghost use Rattle.filter.specs.Tokens.{lexeme_of};

use crate::opening::Operand;
use crate::test::{Equality, NumberRelation, TextRelation};
use crate::token::{Sign, Token};

/// What stands after an operand.
#[derive(Clone, Copy, Debug, PartialEq, Eq)]
pub(crate) enum Operator {
    Equal,
    Unequal,
    Less,
    AtMost,
    Greater,
    AtLeast,
    Shares,
    Begins,
    Ends,
    Is,
}

/// The operator that a sign is.
fn operator_of_sign(sign: Sign) -> Option<Operator>
    ensures { result ≡ operator_of_sign sign }
{
    match sign {
        Sign::Opens | Sign::Closes => None,
        Sign::Equal => Some(Operator::Equal),
        Sign::Unequal => Some(Operator::Unequal),
        Sign::Less => Some(Operator::Less),
        Sign::AtMost => Some(Operator::AtMost),
        Sign::Greater => Some(Operator::Greater),
        Sign::AtLeast => Some(Operator::AtLeast),
        Sign::Ampersand => Some(Operator::Shares),
    }
}

/// The operator that a word is.
fn operator_of_word(word: &[u8]) -> Option<Operator>
    ensures { result ≡ operator_of_word word.now }
{
    if word == b"begins".as_slice() {
        Some(Operator::Begins)
    } else if word == b"ends".as_slice() {
        Some(Operator::Ends)
    } else if word == b"is".as_slice() {
        Some(Operator::Is)
    } else {
        None
    }
}

impl Operator {
    /// The operator that a token is.
    pub(crate) fn of_token(token: Token<'_>) -> Option<Operator>
        ensures { result ≡ operator_of (lexeme_of token.entry) }
    {
        match token {
            Token::Word(word) => operator_of_word(word),
            Token::Quoted(_) => None,
            Token::Sign(sign) => operator_of_sign(sign),
        }
    }

    pub(crate) fn equality(self) -> Option<Equality>
        ensures { result ≡ equality_of self }
    {
        match self {
            Operator::Equal => Some(Equality::Equal),
            Operator::Unequal => Some(Equality::Unequal),
            _ => None,
        }
    }

    pub(crate) fn text_relation(self) -> Option<TextRelation>
        ensures { result ≡ text_relation_of self }
    {
        match self {
            Operator::Equal => Some(TextRelation::Equal),
            Operator::Unequal => Some(TextRelation::Unequal),
            Operator::Begins => Some(TextRelation::Begins),
            Operator::Ends => Some(TextRelation::Ends),
            _ => None,
        }
    }

    pub(crate) fn number_relation(self) -> Option<NumberRelation>
        ensures { result ≡ number_relation_of self }
    {
        match self {
            Operator::Equal => Some(NumberRelation::Equal),
            Operator::Unequal => Some(NumberRelation::Unequal),
            Operator::Less => Some(NumberRelation::Less),
            Operator::AtMost => Some(NumberRelation::AtMost),
            Operator::Greater => Some(NumberRelation::Greater),
            Operator::AtLeast => Some(NumberRelation::AtLeast),
            Operator::Shares => Some(NumberRelation::Shares),
            _ => None,
        }
    }

    /// Whether an operand has the operator; an argument has all.
    pub(crate) fn is_of(self, operand: Operand) -> bool
        ensures { result ≡ has_operator operand self }
    {
        match operand {
            Operand::Kind | Operand::Scope(_) => self.equality().is_some(),
            Operand::Text(_) => self.text_relation().is_some(),
            Operand::Number(_) => self.number_relation().is_some(),
            Operand::Arg(_) => true,
        }
    }
}
