// Texts in quotes, as they are written.

ghost use Rattle.std.specs.Prelude.{◌≡◌, ◌<◌, ◌++◌, ◌∷◌, [], IfOk, MatchOption, length, string_bytes};
ghost use Rattle.filter.specs.Printing.{escape_all, quoted_text};

use std::alloc::{AllocError, Global};

/// What comes before the first backslash of a text, and what comes after it.
fn at_backslash(text: &str) -> Option<(&str, &str)>
    ensures { MatchOption result (escape_all 92 text.now ≡ text.now) (λ parts. (escape_all 92 text.now ≡ parts.0.now ++ ((92 ∷ 92 ∷ []) ++ escape_all 92 parts.1.now)) × (length parts.1.now < length text.now)) }
{
    text.split_once('\\')
}

/// What comes before the first apostrophe of a text, and what comes after it.
fn at_apostrophe(text: &str) -> Option<(&str, &str)>
    ensures { MatchOption result (escape_all 39 text.now ≡ text.now) (λ parts. (escape_all 39 text.now ≡ parts.0.now ++ ((92 ∷ 39 ∷ []) ++ escape_all 39 parts.1.now)) × (length parts.1.now < length text.now)) }
{
    text.split_once('\'')
}

/// Adds a text with a backslash before each backslash.
fn push_backslashes(text: &mut String, value: &str) -> Result<(), AllocError>
    ensures { IfOk result (λ _. string_bytes text.new ≡ string_bytes text.old ++ escape_all 92 value.now) }
{
    let mut rest = value;
    'pieces: while let Some((piece, after)) = at_backslash(rest) {
        text.push_str(piece)?;
        text.push_str("\\\\")?;
        rest = after;
    }
    text.push_str(rest)
}

/// Adds a text with a backslash before each apostrophe.
fn push_apostrophes(text: &mut String, value: &str) -> Result<(), AllocError>
    ensures { IfOk result (λ _. string_bytes text.new ≡ string_bytes text.old ++ escape_all 39 value.now) }
{
    let mut rest = value;
    'pieces: while let Some((piece, after)) = at_apostrophe(rest) {
        text.push_str(piece)?;
        text.push_str("\\'")?;
        rest = after;
    }
    text.push_str(rest)
}

/// Adds a text in quotes.
pub(crate) fn push_quoted(alloc: Global, text: &mut String, value: &str) -> Result<(), AllocError>
    ensures { IfOk result (λ _. string_bytes text.new ≡ string_bytes text.old ++ quoted_text value.now) }
{
    let mut inside = String::new(alloc);
    push_backslashes(&mut inside, value)?;
    text.push_str("'")?;
    push_apostrophes(text, inside.as_str())?;
    text.push_str("'")
}
